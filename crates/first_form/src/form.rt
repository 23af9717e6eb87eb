//! Charts of the first form, and how they are read.
ghost use Rattle.std.specs.Prelude.{◌≡◌, map, IfOk};
ghost use Rattle.std.specs.Option.{option_map};
ghost use Rattle.fixed_num.specs.Ranges.{all_found};
ghost use Rattle.first_form.specs.FirstForm.{value_in, form_with, form_of};

use crate::objects::{number_at, object_of, text_at};
use crate::parts::{bars_in, data_in, fields_of, is_whole_amount};
use fixed_num::Num;
use json_exact::Json;
use std::alloc::Global;
use text_kit::{OutOfMemory, Seq, Text};

/// The parts of a chart of the first form.
#[derive(Debug, Drop)]
pub struct FirstForm {
    /// The name of the list of values.
    pub name: Text,
    /// The field that has the category of a value.
    pub x: Text,
    /// The field that has its amount.
    pub y: Text,
    /// The values, in order.
    pub values: Seq<Value>,
}

/// One value of a chart of the first form.
#[derive(Debug, Drop)]
pub struct Value {
    /// The text by which values share a band.
    pub category: Text,
    /// How high its bar is, as a number and not yet in pixels.
    pub amount: Num,
}

// The category and the amount of a row.
fn parts_of<'a>(x: &str, y: &str, row: &'a Json) -> Option<(&'a Text, Num)>
    ensures { option_map (λ v. record { category = v.0.now; amount = v.1 }) result ≡ value_in x.now y.now row.now }
{
    let members = object_of(&[x, y], row)?;
    let category = text_at(members, x)?;
    let amount = number_at(members, y)?;
    if is_whole_amount(amount) {
        Some((category, amount))
    } else {
        None
    }
}

// The value of a row, by these two fields.
fn value_in(x: &str, y: &str, row: &Json) -> Result<Option<Value>, OutOfMemory>
    ensures { IfOk result (λ value. value ≡ value_in x.now y.now row.now) }
{
    match parts_of(x, y, row) {
        Some((category, amount)) => Ok(Some(Value {
            category: category.copy()?,
            amount,
        })),
        None => Ok(None),
    }
}

// The values of rows, by these two fields; None where a row has none.
#[tactic(auto, using(fixed_num::proofs::FoundLemmas::one_more))]
fn values_in(
    alloc: Global,
    x: &str,
    y: &str,
    rows: &[Json],
) -> Result<Option<Seq<Value>>, OutOfMemory>
    ensures { IfOk result (λ values. values ≡ all_found (map (value_in x.now y.now) rows.now)) }
{
    let mut values = Seq::new(alloc);
    for row in rows {
        match value_in(x, y, row)? {
            Some(value) => values.push(value)?,
            None => return Ok(None),
        }
    }
    Ok(Some(values))
}

// The form of these parts.
fn form_with(
    alloc: Global,
    name: &Text,
    x: &Text,
    y: &Text,
    rows: &[Json],
) -> Result<Option<FirstForm>, OutOfMemory>
    ensures { IfOk result (λ form. form ≡ form_with name.now x.now y.now rows.now) }
{
    match values_in(alloc, x.as_str(), y.as_str(), rows)? {
        Some(values) => Ok(Some(FirstForm {
            name: name.copy()?,
            x: x.copy()?,
            y: y.copy()?,
            values,
        })),
        None => Ok(None),
    }
}

/// The chart of the first form that a tree specifies; None exactly where it specifies none. The one error is that memory is refused.
pub fn first_form(alloc: Global, tree: &Json) -> Result<Option<FirstForm>, OutOfMemory>
    ensures { IfOk result (λ form. form ≡ form_of tree.now) }
{
    let Some(top) = bars_in(tree) else {
        return Ok(None);
    };
    let Some((name, rows)) = data_in(top) else {
        return Ok(None);
    };
    let Some((x, y)) = fields_of(top) else {
        return Ok(None);
    };
    form_with(alloc, name, x, y, rows.as_slice())
}
