// What stands under several names at once.
ghost use Rattle.std.specs.Prelude.{◌≡◌, ◌∷◌, ◌++◌, [], Ok, IfOk, OnOk};
ghost use Rattle.tree_readers.specs.Parts.{list_at, text_at, needed_text, needed_texts, two_texts_at, cell_at};
ghost use Rattle.vega_building.specs.Parts.{expression_at, needed_expression};

use crate::parts;
use crate::parts::Item;
use cell_value::Cell;
use expr_syntax::Expr;
use json_exact::Member;
use std::alloc::Global;
use text_kit::{OutOfMemory, Seq, Text};

/// What is read under a name.
pub trait Part: Sized {
    ghost use Rattle.std.specs.Prelude.{List, ℕ};
    ghost use Rattle.json_exact.specs.declared.json.Member.{Member};

    ghost part: { List Member → List ℕ → Self };

    /// What stands under a name.
    fn part_at(alloc: Global, members: &[Member], name: &str) -> Result<Self, OutOfMemory>
        ensures { IfOk result (λ value. value ≡ part members.now name.now) };
}

impl Part for Option<Text> {
    ghost part = { text_at };

    fn part_at(_: Global, members: &[Member], name: &str) -> Result<Option<Text>, OutOfMemory> {
        tree_readers::text_at(members, name)
    }
}

impl Part for Text {
    ghost part = { needed_text };

    fn part_at(alloc: Global, members: &[Member], name: &str) -> Result<Text, OutOfMemory> {
        tree_readers::needed_text(alloc, members, name)
    }
}

impl Part for Seq<Text> {
    ghost part = { needed_texts };

    fn part_at(alloc: Global, members: &[Member], name: &str) -> Result<Seq<Text>, OutOfMemory> {
        parts::needed_texts(alloc, members, name)
    }
}

impl Part for Option<(Text, Text)> {
    ghost part = { two_texts_at };

    fn part_at(
        alloc: Global,
        members: &[Member],
        name: &str,
    ) -> Result<Option<(Text, Text)>, OutOfMemory> {
        tree_readers::two_texts_at(alloc, members, name)
    }
}

impl Part for Option<Expr> {
    ghost part = { expression_at };

    fn part_at(alloc: Global, members: &[Member], name: &str) -> Result<Option<Expr>, OutOfMemory> {
        parts::expression_at(alloc, members, name)
    }
}

impl Part for Expr {
    ghost part = { needed_expression };

    fn part_at(alloc: Global, members: &[Member], name: &str) -> Result<Expr, OutOfMemory> {
        parts::needed_expression(alloc, members, name)
    }
}

impl Part for Option<Cell> {
    ghost part = { cell_at };

    fn part_at(_: Global, members: &[Member], name: &str) -> Result<Option<Cell>, OutOfMemory> {
        tree_readers::cell_at(members, name)
    }
}

impl<T: Item + Drop> Part for Option<Seq<T>> {
    ghost part = { list_at T.item };

    fn part_at(
        alloc: Global,
        members: &[Member],
        name: &str,
    ) -> Result<Option<Seq<T>>, OutOfMemory> {
        parts::list_at(alloc, members, name)
    }
}

/// Two values, where both are there.
#[inline(never)]
pub fn both<A: Drop, B: Drop>(
    a: Result<A, OutOfMemory>,
    b: Result<B, OutOfMemory>,
) -> Result<(A, B), OutOfMemory>
    ensures first { IfOk result (λ all. a ≡ Ok all.0) }
    ensures second { IfOk result (λ all. b ≡ Ok all.1) }
{
    let a = a?;
    Ok((a, b?))
}

/// Adds a value, where it is there.
#[inline(never)]
pub fn push_made<T: Drop>(
    list: &mut Seq<T>,
    made: Result<T, OutOfMemory>,
) -> Result<(), OutOfMemory>
    ensures { (value : _) → IfOk made (λ given. given ≡ value) → OnOk result (list.new ≡ list.old ++ value ∷ []) }
{
    list.push(made?)
}

/// A value, where all was put into it.
#[inline(never)]
pub fn filled<T: Drop>(done: Result<(), OutOfMemory>, value: T) -> Result<T, OutOfMemory>
    ensures { (whole : _) → OnOk done (value ≡ whole) → IfOk result (λ given. given ≡ whole) }
{
    done?;
    Ok(value)
}

/// What stands under two names.
pub fn two_parts<A: Part + Drop, B: Part>(
    alloc: Global,
    members: &[Member],
    a: &str,
    b: &str,
) -> Result<(A, B), OutOfMemory>
    ensures { IfOk result (λ parts. parts ≡ (A.part members.now a.now, B.part members.now b.now)) }
{
    let a = A::part_at(alloc, members, a)?;
    Ok((a, B::part_at(alloc, members, b)?))
}

/// What stands under three names.
pub fn three_parts<A: Part + Drop, B: Part + Drop, C: Part>(
    alloc: Global,
    members: &[Member],
    a: &str,
    b: &str,
    c: &str,
) -> Result<(A, B, C), OutOfMemory>
    ensures { IfOk result (λ parts. parts ≡ (A.part members.now a.now, B.part members.now b.now, C.part members.now c.now)) }
{
    let (a, b) = two_parts(alloc, members, a, b)?;
    Ok((a, b, C::part_at(alloc, members, c)?))
}

/// What stands under four names.
pub fn four_parts<A: Part + Drop, B: Part + Drop, C: Part + Drop, D: Part>(
    alloc: Global,
    members: &[Member],
    a: &str,
    b: &str,
    c: &str,
    d: &str,
) -> Result<(A, B, C, D), OutOfMemory>
    ensures { IfOk result (λ parts. parts ≡ (A.part members.now a.now, B.part members.now b.now, C.part members.now c.now, D.part members.now d.now)) }
{
    let (a, b) = two_parts(alloc, members, a, b)?;
    let (c, d) = two_parts(alloc, members, c, d)?;
    Ok((a, b, c, d))
}

/// What stands under five names.
pub fn five_parts<A: Part + Drop, B: Part + Drop, C: Part + Drop, D: Part + Drop, E: Part>(
    alloc: Global,
    members: &[Member],
    a: &str,
    b: &str,
    c: &str,
    d: &str,
    e: &str,
) -> Result<(A, B, C, D, E), OutOfMemory>
    ensures { IfOk result (λ parts. parts ≡ (
      A.part members.now a.now,
      B.part members.now b.now,
      C.part members.now c.now,
      D.part members.now d.now,
      E.part members.now e.now,
    )) }
{
    let (a, b) = two_parts(alloc, members, a, b)?;
    let (c, d, e) = three_parts(alloc, members, c, d, e)?;
    Ok((a, b, c, d, e))
}

/// What stands under six names.
pub fn six_parts<
    A: Part + Drop,
    B: Part + Drop,
    C: Part + Drop,
    D: Part + Drop,
    E: Part + Drop,
    F: Part,
>(
    alloc: Global,
    members: &[Member],
    a: &str,
    b: &str,
    c: &str,
    d: &str,
    e: &str,
    f: &str,
) -> Result<(A, B, C, D, E, F), OutOfMemory>
    ensures { IfOk result (λ parts. parts ≡ (
      A.part members.now a.now,
      B.part members.now b.now,
      C.part members.now c.now,
      D.part members.now d.now,
      E.part members.now e.now,
      F.part members.now f.now,
    )) }
{
    let (a, b, c) = three_parts(alloc, members, a, b, c)?;
    let (d, e, f) = three_parts(alloc, members, d, e, f)?;
    Ok((a, b, c, d, e, f))
}
