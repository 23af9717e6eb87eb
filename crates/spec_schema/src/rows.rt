//! Tables of members and names, written in the program, as values.
ghost use Rattle.std.specs.Prelude.{◌≡◌, ◌++◌, map, IfOk, OnOk};
ghost use Rattle.spec_schema.specs.Rows.{rule_of, test_of, layout_by, layout_of_rules};

use crate::layout::{Layout, Rule, Test};
use std::alloc::Global;
use text_kit::{OutOfMemory, Seq, Text};

/// A member of a table: its name, the shape of its value, and whether it has to be there.
#[derive(Clone, Copy, Debug)]
pub struct Row<'a> {
    pub name: &'a str,
    pub shape: u16,
    pub required: bool,
}

/// What has to hold of the members, so that a table applies.
#[derive(Clone, Copy, Debug)]
pub enum When<'a> {
    /// There is a member of this name.
    Has(&'a str),
    /// There is no member of this name.
    Lacks(&'a str),
    /// There is a member of the first name whose value is the second text.
    Says(&'a str, &'a str),
    /// There is a member that has one of the names of this list.
    Any(u16),
    /// Of the members that have one of the names of this list, the first has this name.
    Leads(u16, &'a str),
    /// There is a member of this name, and none that has another of the names of this list.
    Alone(u16, &'a str),
    /// There is a member that has none of the names of this list.
    Beyond(u16),
}

/// A table of members: `must NAME SHAPE` for one that has to be there, else `may NAME SHAPE`.
#[macro_export]
macro_rules! table {
    ($($need:ident $name:literal $shape:ident),* $(,)?) => {
        [$($crate::Row { name: $name, shape: $shape, required: $crate::needed!($need) }),*]
    };
}

/// Whether a row of a table says that the member has to be there.
#[macro_export]
macro_rules! needed {
    (must) => {
        true
    };
    (may) => {
        false
    };
}

// A row as a rule.
fn rule_of(alloc: Global, row: &Row) -> Result<Rule, OutOfMemory>
    ensures { IfOk result (λ r. r ≡ rule_of row.now) }
{
    Ok(Rule {
        name: Text::of(alloc, row.name)?,
        shape: row.shape,
        required: row.required,
    })
}

// The rules of a table.
fn rules_of(alloc: Global, rows: &[Row]) -> Result<Seq<Rule>, OutOfMemory>
    ensures { IfOk result (λ r. r ≡ map rule_of rows.now) }
{
    let mut out = Seq::with_capacity(alloc, rows.len())?;
    for row in rows {
        out.push(rule_of(alloc, row)?)?;
    }
    Ok(out)
}

// What has to hold, as a test.
fn test_of(alloc: Global, when: &When) -> Result<Test, OutOfMemory>
    ensures { IfOk result (λ t. t ≡ test_of when.now) }
{
    match when {
        When::Has(name) => Ok(Test::Has(Text::of(alloc, name)?)),
        When::Lacks(name) => Ok(Test::Lacks(Text::of(alloc, name)?)),
        When::Says(name, text) => Ok(Test::Says(Text::of(alloc, name)?, Text::of(alloc, text)?)),
        When::Any(names) => Ok(Test::Any(*names)),
        When::Leads(names, name) => Ok(Test::Leads(*names, Text::of(alloc, name)?)),
        When::Alone(names, name) => Ok(Test::Alone(*names, Text::of(alloc, name)?)),
        When::Beyond(names) => Ok(Test::Beyond(*names)),
    }
}

// The tests of a table.
fn tests_of(alloc: Global, whens: &[When]) -> Result<Seq<Test>, OutOfMemory>
    ensures { IfOk result (λ t. t ≡ map test_of whens.now) }
{
    let mut out = Seq::with_capacity(alloc, whens.len())?;
    for when in whens {
        out.push(test_of(alloc, when)?)?;
    }
    Ok(out)
}

/// A layout of an object by its table.
pub fn layout_by(
    alloc: Global,
    object: u16,
    whens: &[When],
    rows: &[Row],
    others: Option<u16>,
) -> Result<Layout, OutOfMemory>
    ensures { IfOk result (λ l. l ≡ layout_by object whens.now rows.now others) }
{
    Ok(Layout {
        object,
        when: tests_of(alloc, whens)?,
        rules: rules_of(alloc, rows)?,
        others,
    })
}

/// Adds the rules of a table.
pub fn push_rules(alloc: Global, out: &mut Seq<Rule>, rows: &[Row]) -> Result<(), OutOfMemory>
    ensures { OnOk result (out.new ≡ out.old ++ map rule_of rows.now) }
{
    out.append(rules_of(alloc, rows)?)
}

/// A layout of an object by the rules of several tables.
pub fn layout_of_rules(
    alloc: Global,
    object: u16,
    whens: &[When],
    rules: Seq<Rule>,
    others: Option<u16>,
) -> Result<Layout, OutOfMemory>
    ensures { IfOk result (λ l. l ≡ layout_of_rules object whens.now rules others) }
{
    Ok(Layout {
        object,
        when: tests_of(alloc, whens)?,
        rules,
        others,
    })
}

/// A list of names.
pub fn names_by(alloc: Global, names: &[&str]) -> Result<Seq<Text>, OutOfMemory>
    ensures { IfOk result (λ t. t ≡ map (λ name. name.now) names.now) }
{
    let mut out = Seq::with_capacity(alloc, names.len())?;
    for name in names {
        out.push(Text::of(alloc, name)?)?;
    }
    Ok(out)
}
