//! The parts of a specification of the first form.
ghost use Rattle.std.specs.Prelude.{◌≡◌};
ghost use Rattle.std.specs.Option.{option_copied, option_map};
ghost use Rattle.first_form.specs.FirstForm.{is_whole_amount, is_plain, field_at, fields_of, data_in, bars_in};

use crate::objects::{items_at, null_at, object_at, object_of, text_at};
use fixed_num::Num;
use json_exact::{Json, Member};
use text_kit::{Seq, Text};

/// How many values a chart may have.
const MOST_VALUES: usize = 1000;

/// Whether this is a whole number from 0 to 1,000,000,000.
pub fn is_whole_amount(amount: Num) -> bool
    ensures { result ≡ is_whole_amount amount }
{
    match u64::try_from(amount.millionths()) {
        Ok(m) => m % 1_000_000 == 0 && m <= 1_000_000_000_000_000,
        Err(_) => false,
    }
}

/// Whether this is a text without `\`. A field that is written with one, as an escape, is none of the form.
pub fn is_plain(text: &str) -> bool
    ensures { result ≡ is_plain text.now }
{
    text.as_bytes().iter().all(|byte| *byte != b'\\')
}

/// The field of the channel of this name, which is plain, of this type and without an axis.
pub fn field_at<'a>(encoding: &'a [Member], name: &str, kind: &str) -> Option<&'a Text>
    ensures { option_copied result ≡ field_at encoding.now name.now kind.now }
{
    let channel = object_at(encoding, name, &["field", "type", "axis"])?;
    let field = text_at(channel, "field")?;
    let its_kind = text_at(channel, "type")?;
    null_at(channel, "axis")?;
    if its_kind.as_str() == kind && is_plain(field.as_str()) {
        Some(field)
    } else {
        None
    }
}

/// The fields of the two channels, which differ.
pub fn fields_of(top: &[Member]) -> Option<(&Text, &Text)>
    ensures { option_map (λ v. (v.0.now, v.1.now)) result ≡ fields_of top.now }
{
    let encoding = object_at(top, "encoding", &["x", "y"])?;
    let x = field_at(encoding, "x", "nominal")?;
    let y = field_at(encoding, "y", "quantitative")?;
    if x.as_str() == y.as_str() {
        None
    } else {
        Some((x, y))
    }
}

/// The name of the list of rows, and the rows, which are at most 1000.
pub fn data_in(top: &[Member]) -> Option<(&Text, &Seq<Json>)>
    ensures { option_map (λ v. (v.0.now, v.1.now)) result ≡ data_in top.now }
{
    let source = object_at(top, "data", &["name", "values"])?;
    let name = text_at(source, "name")?;
    let rows = items_at(source, "values")?;
    if rows.len() <= MOST_VALUES {
        Some((name, rows))
    } else {
        None
    }
}

/// The members of a specification whose mark is bars.
pub fn bars_in(tree: &Json) -> Option<&[Member]>
    ensures { option_copied result ≡ bars_in tree.now }
{
    let top = object_of(&["data", "mark", "encoding"], tree)?;
    let mark = text_at(top, "mark")?;
    if mark.as_str() == "bar" {
        Some(top)
    } else {
        None
    }
}
