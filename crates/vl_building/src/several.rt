// What stands under several names at once.
ghost use Rattle.std.specs.Prelude.{◌≡◌, ◌++◌, [], ◌∷◌, Ok, IfOk, OnOk};
ghost use Rattle.tree_readers.specs.Parts.{object_at, text_at};
ghost use Rattle.vl_building.specs.Values.{scalars_at};

use crate::parts;
use crate::parts::{Items, Object};
use cell_value::Cell;
use json_exact::Member;
use std::alloc::Global;
use text_kit::{Boxed, OutOfMemory, Seq, Text};

/// What is read under a name.
pub trait Part: Sized {
    ghost use Rattle.std.specs.Prelude.{List, ℕ};
    ghost use Rattle.json_exact.specs.declared.json.Member.{Member};

    ghost part: { List Member → List ℕ → Self };

    /// What stands under a name.
    fn part_at(alloc: Global, members: &[Member], name: &str) -> Result<Self, OutOfMemory>
        ensures { IfOk result (λ value. value ≡ part members.now name.now) };
}

impl Part for Option<Text> {
    ghost part = { text_at };

    fn part_at(_: Global, members: &[Member], name: &str) -> Result<Option<Text>, OutOfMemory> {
        tree_readers::text_at(members, name)
    }
}

impl Part for Option<Seq<Cell>> {
    ghost part = { scalars_at };

    fn part_at(
        alloc: Global,
        members: &[Member],
        name: &str,
    ) -> Result<Option<Seq<Cell>>, OutOfMemory> {
        parts::each_at::<Cell, Items>(alloc, members, name)
    }
}

impl<T: Object> Part for Option<T> {
    ghost part = { object_at T.built };

    fn part_at(alloc: Global, members: &[Member], name: &str) -> Result<Option<T>, OutOfMemory> {
        parts::object_at(alloc, members, name)
    }
}

/// What stands under two names.
pub fn two_parts<A: Part + Drop, B: Part + Drop>(
    alloc: Global,
    members: &[Member],
    a: &str,
    b: &str,
) -> Result<(A, B), OutOfMemory>
    ensures { IfOk result (λ parts. parts ≡ (A.part members.now a.now, B.part members.now b.now)) }
{
    both(A::part_at(alloc, members, a), B::part_at(alloc, members, b))
}

/// What stands under three names.
pub fn three_parts<A: Part + Drop, B: Part + Drop, C: Part + Drop>(
    alloc: Global,
    members: &[Member],
    a: &str,
    b: &str,
    c: &str,
) -> Result<(A, B, C), OutOfMemory>
    ensures { IfOk result (λ parts. parts ≡ (A.part members.now a.now, B.part members.now b.now, C.part members.now c.now)) }
{
    all_three(
        A::part_at(alloc, members, a),
        B::part_at(alloc, members, b),
        C::part_at(alloc, members, c),
    )
}

/// Two values, where both are there.
#[inline(never)]
pub fn both<A: Drop, B: Drop>(
    a: Result<A, OutOfMemory>,
    b: Result<B, OutOfMemory>,
) -> Result<(A, B), OutOfMemory>
    ensures first { IfOk result (λ all. a ≡ Ok all.0) }
    ensures second { IfOk result (λ all. b ≡ Ok all.1) }
{
    let a = a?;
    Ok((a, b?))
}

/// Three values, where all are there.
#[inline(never)]
pub fn all_three<A: Drop, B: Drop, C: Drop>(
    a: Result<A, OutOfMemory>,
    b: Result<B, OutOfMemory>,
    c: Result<C, OutOfMemory>,
) -> Result<(A, B, C), OutOfMemory>
    ensures first { IfOk result (λ all. a ≡ Ok all.0) }
    ensures second { IfOk result (λ all. b ≡ Ok all.1) }
    ensures third { IfOk result (λ all. c ≡ Ok all.2) }
{
    let ((a, b), c) = both(both(a, b), c)?;
    Ok((a, b, c))
}

/// Five values, where all are there.
#[inline(never)]
pub fn all_five<A: Drop, B: Drop, C: Drop, D: Drop, E: Drop>(
    a: Result<A, OutOfMemory>,
    b: Result<B, OutOfMemory>,
    c: Result<C, OutOfMemory>,
    d: Result<D, OutOfMemory>,
    e: Result<E, OutOfMemory>,
) -> Result<(A, B, C, D, E), OutOfMemory>
    ensures first { IfOk result (λ all. a ≡ Ok all.0) }
    ensures second { IfOk result (λ all. b ≡ Ok all.1) }
    ensures third { IfOk result (λ all. c ≡ Ok all.2) }
    ensures fourth { IfOk result (λ all. d ≡ Ok all.3) }
    ensures fifth { IfOk result (λ all. e ≡ Ok all.4) }
{
    let ((a, b), (c, d, e)) = both(both(a, b), all_three(c, d, e))?;
    Ok((a, b, c, d, e))
}

/// Four values, where all are there.
#[inline(never)]
pub fn all_four<A: Drop, B: Drop, C: Drop, D: Drop>(
    a: Result<A, OutOfMemory>,
    b: Result<B, OutOfMemory>,
    c: Result<C, OutOfMemory>,
    d: Result<D, OutOfMemory>,
) -> Result<(A, B, C, D), OutOfMemory>
    ensures first { IfOk result (λ all. a ≡ Ok all.0) }
    ensures second { IfOk result (λ all. b ≡ Ok all.1) }
    ensures third { IfOk result (λ all. c ≡ Ok all.2) }
    ensures fourth { IfOk result (λ all. d ≡ Ok all.3) }
{
    let ((a, b), (c, d)) = both(both(a, b), both(c, d))?;
    Ok((a, b, c, d))
}

/// Adds a value, where it is there.
pub fn push_made<T: Drop>(
    out: &mut Seq<T>,
    value: Result<T, OutOfMemory>,
) -> Result<(), OutOfMemory>
    ensures { (x : T) → IfOk value (λ v. v ≡ x) → OnOk result (out.new ≡ out.old ++ x ∷ []) }
{
    out.push(value?)
}

/// A value in a box, where it is there.
pub fn boxed<T: Drop>(alloc: Global, value: Result<T, OutOfMemory>) -> Result<Boxed<T>, OutOfMemory>
    ensures { (x : T) → IfOk value (λ v. v ≡ x) → IfOk result (λ held. held ≡ x) }
{
    Boxed::new(alloc, value?)
}
