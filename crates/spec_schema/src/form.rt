//! The forms of values.
ghost use Rattle.std.specs.Prelude.{◌≡◌};
ghost use Rattle.json_exact.specs.declared.json.Json.{out-Json};
ghost use Rattle.spec_schema.specs.Forms.{items_shape};
ghost use Rattle.fixed_num.specs.Ranges.{is_within};
ghost use Rattle.spec_schema.specs.Values.{is_null, is_flag, is_true, is_number, number_passes, is_whole, is_whole_between, is_text};
ghost use Rattle.spec_schema.specs.Values.{text_passes, among, is_pair, is_cell, list_passes, has_length};

use fixed_num::Num;
use json_exact::Json;
use text_kit::Text;

/// A form that a value may have.
#[derive(Clone, Copy, Debug)]
pub enum Form {
    /// `null`
    Null,
    /// `true` or `false`
    Flag,
    /// `true` alone.
    True,
    /// A number between two bounds in millionths, both included.
    Number {
        least: i128,
        most: i128,
    },
    /// A whole number between two bounds in millionths, both included.
    Whole {
        least: i128,
        most: i128,
    },
    /// A text.
    Text,
    /// A text that is one of the names of this list.
    Name(u16),
    /// Any value but a text that is one of the names of this list.
    Except(u16),
    /// What a cell can hold: null, a truth value, a number, a text or two numbers in a list.
    Cell,
    /// Any value at all.
    Free,
    /// Two numbers in a list, each of a shape.
    Pair(u16),
    /// A list with a length between two bounds, both included, of values of a shape.
    List {
        least: usize,
        most: usize,
        items: u16,
    },
    /// An object with the members that a layout of this object lists.
    Object(u16),
}

/// A form that the values of a shape may have.
#[derive(Clone, Copy, Debug)]
pub struct Shape {
    /// The code of the shape.
    pub code: u16,
    /// The form.
    pub form: Form,
}

/// How many millionths one has.
const MILLION: i128 = 1_000_000;

/// Whether it is null.
pub fn is_null(tree: &Json) -> bool
    ensures { result ≡ is_null (out-Json tree.now) }
{
    match tree {
        Json::Null => true,
        Json::Flag(_)
        | Json::Number(_)
        | Json::Huge
        | Json::Text(_)
        | Json::List(_)
        | Json::Object(_) => false,
    }
}

/// Whether it is a truth value.
pub fn is_flag(tree: &Json) -> bool
    ensures { result ≡ is_flag (out-Json tree.now) }
{
    match tree {
        Json::Flag(_) => true,
        Json::Null
        | Json::Number(_)
        | Json::Huge
        | Json::Text(_)
        | Json::List(_)
        | Json::Object(_) => false,
    }
}

/// Whether it is true.
pub fn is_true(tree: &Json) -> bool
    ensures { result ≡ is_true (out-Json tree.now) }
{
    match tree {
        Json::Flag(flag) => *flag,
        Json::Null
        | Json::Number(_)
        | Json::Huge
        | Json::Text(_)
        | Json::List(_)
        | Json::Object(_) => false,
    }
}

// Whether it is a number.
fn is_number(tree: &Json) -> bool
    ensures { result ≡ is_number (out-Json tree.now) }
{
    match tree {
        Json::Number(_) => true,
        Json::Null | Json::Flag(_) | Json::Huge | Json::Text(_) | Json::List(_) | Json::Object(_) =>
            false,
    }
}

// Whether a number lies between two bounds in millionths, both included.
fn is_between(number: Num, least: i128, most: i128) -> bool
    ensures { result ≡ is_within least most number }
{
    least <= number.millionths() && number.millionths() <= most
}

// Whether a number is a whole number.
fn is_whole(number: Num) -> bool
    ensures { result ≡ is_whole number }
{
    number.millionths() % MILLION == 0
}

/// Whether it is a number between two bounds in millionths, both included.
pub fn is_number_between(tree: &Json, least: i128, most: i128) -> bool
    ensures { result ≡ number_passes (is_within least most) (out-Json tree.now) }
{
    match tree {
        Json::Number(number) => is_between(*number, least, most),
        Json::Null | Json::Flag(_) | Json::Huge | Json::Text(_) | Json::List(_) | Json::Object(_) =>
            false,
    }
}

/// Whether it is a whole number between two bounds in millionths, both included.
pub fn is_whole_between(tree: &Json, least: i128, most: i128) -> bool
    ensures { result ≡ number_passes (is_whole_between least most) (out-Json tree.now) }
{
    match tree {
        Json::Number(number) => is_whole(*number) && is_between(*number, least, most),
        Json::Null | Json::Flag(_) | Json::Huge | Json::Text(_) | Json::List(_) | Json::Object(_) =>
            false,
    }
}

/// Whether it is a text.
pub fn is_text(tree: &Json) -> bool
    ensures { result ≡ is_text (out-Json tree.now) }
{
    match tree {
        Json::Text(_) => true,
        Json::Null
        | Json::Flag(_)
        | Json::Number(_)
        | Json::Huge
        | Json::List(_)
        | Json::Object(_) => false,
    }
}

/// Whether a name is one of these.
pub fn among(names: &[Text], name: &str) -> bool
    ensures { result ≡ among names.now name.now }
{
    for other in names {
        if other.as_str() == name {
            return true;
        }
    }
    false
}

/// Whether it is a text that is one of these names.
pub fn is_one_of(tree: &Json, names: &[Text]) -> bool
    ensures { result ≡ text_passes (among names.now) (out-Json tree.now) }
{
    match tree {
        Json::Text(text) => among(names, text.as_str()),
        Json::Null
        | Json::Flag(_)
        | Json::Number(_)
        | Json::Huge
        | Json::List(_)
        | Json::Object(_) => false,
    }
}

// Whether there are two values, both numbers.
fn is_pair(items: &[Json]) -> bool
    ensures { result ≡ is_pair items.now }
{
    match items {
        [low, high] => is_number(low) && is_number(high),
        _ => false,
    }
}

/// Whether it is a list of two numbers.
pub fn is_pair_list(tree: &Json) -> bool
    ensures { result ≡ list_passes is_pair (out-Json tree.now) }
{
    match tree {
        Json::List(items) => is_pair(items.as_slice()),
        Json::Null
        | Json::Flag(_)
        | Json::Number(_)
        | Json::Huge
        | Json::Text(_)
        | Json::Object(_) => false,
    }
}

/// Whether a cell can hold it.
pub fn is_cell(tree: &Json) -> bool
    ensures { result ≡ is_cell (out-Json tree.now) }
{
    match tree {
        Json::Null | Json::Flag(_) | Json::Number(_) | Json::Text(_) => true,
        Json::Huge | Json::Object(_) => false,
        Json::List(items) => is_pair(items.as_slice()),
    }
}

/// Whether it is a list with a length between two bounds, both included.
pub fn has_length(tree: &Json, least: usize, most: usize) -> bool
    ensures { result ≡ list_passes (has_length least most) (out-Json tree.now) }
{
    match tree {
        Json::List(items) => least <= items.len() && items.len() <= most,
        Json::Null
        | Json::Flag(_)
        | Json::Number(_)
        | Json::Huge
        | Json::Text(_)
        | Json::Object(_) => false,
    }
}

impl Form {
    /// The shape of the items, where the form is that of a list.
    pub fn items(self) -> Option<u16>
        ensures { result ≡ items_shape self }
    {
        match self {
            Form::Pair(items) | Form::List { items, .. } => Some(items),
            Form::Null
            | Form::Flag
            | Form::True
            | Form::Number { .. }
            | Form::Whole { .. }
            | Form::Text
            | Form::Name(_)
            | Form::Except(_)
            | Form::Cell
            | Form::Free
            | Form::Object(_) => None,
        }
    }
}
