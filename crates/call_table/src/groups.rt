// Groups: the fields, the operations and the rows between tabs.
ghost use Rattle.plain_rows.specs.Rows.{AreRows};

use crate::keys::one_each;
use crate::said::said_of_answer;
use crate::spelled::{field_of, names_of, word_or_none};
use cell_value::{Rows, SharedText};
use plain_groups::{aggregate, join_aggregate};
use plain_rows::{GroupOf, OpOf};
use std::alloc::Global;
use text_kit::{OutOfMemory, Seq, Text};

/// The operation of a code, a field and a name.
pub(crate) fn op_of(
    alloc: Global,
    code: &str,
    field: &str,
    out: &str,
) -> Result<OpOf, OutOfMemory> {
    let field = field_of(alloc, field)?;
    Ok(OpOf {
        op: code.parse::<u16>().unwrap_or(0),
        field,
        out: SharedText::of(alloc, out)?,
    })
}

// The operation of a word.
fn op_by(alloc: Global, word: &str) -> Result<OpOf, OutOfMemory> {
    let mut parts = word.split(':');
    let code = word_or_none(parts.next());
    let field = word_or_none(parts.next());
    op_of(alloc, code, field, word_or_none(parts.next()))
}

// The operations of a list.
fn ops_of(alloc: Global, list: &str) -> Result<Seq<OpOf>, OutOfMemory> {
    let mut ops = Seq::new(alloc);
    for word in list.split(',') {
        if !word.is_empty() {
            ops.push(op_by(alloc, word)?)?;
        }
    }
    Ok(ops)
}

// The groups of two lists.
fn groups_by(alloc: Global, fields: &str, ops: &str) -> Result<GroupOf, OutOfMemory> {
    let groupby = names_of(alloc, fields)?;
    Ok(GroupOf {
        groupby,
        ops: ops_of(alloc, ops)?,
    })
}

// What an aggregate gives.
fn said_of_aggregate(alloc: Global, g: &GroupOf, rows: &Rows) -> Result<Text, OutOfMemory>
    requires { AreRows rows.now }
{
    said_of_answer(alloc, &aggregate(alloc, rows, g), false)
}

// What an aggregate gives of the rows of a list.
fn aggregate_of_list(alloc: Global, g: &GroupOf, list: &str) -> Result<Text, OutOfMemory> {
    said_of_aggregate(alloc, g, &one_each(alloc, list)?)
}

// What a join gives.
fn said_of_join(alloc: Global, g: &GroupOf, rows: &Rows) -> Result<Text, OutOfMemory>
    requires { AreRows rows.now }
{
    said_of_answer(alloc, &join_aggregate(alloc, rows, g), false)
}

// What a join gives of the rows of a list.
fn join_of_list(alloc: Global, g: &GroupOf, list: &str) -> Result<Text, OutOfMemory> {
    said_of_join(alloc, g, &one_each(alloc, list)?)
}

/// What is found for a question about an aggregate.
pub(crate) fn aggregated(alloc: Global, told: &str) -> Result<Text, OutOfMemory> {
    let mut words = told.split('\t');
    let fields = word_or_none(words.next());
    let groups = groups_by(alloc, fields, word_or_none(words.next()))?;
    aggregate_of_list(alloc, &groups, word_or_none(words.next()))
}

/// What is found for a question about a join.
pub(crate) fn joined(alloc: Global, told: &str) -> Result<Text, OutOfMemory> {
    let mut words = told.split('\t');
    let fields = word_or_none(words.next());
    let groups = groups_by(alloc, fields, word_or_none(words.next()))?;
    join_of_list(alloc, &groups, word_or_none(words.next()))
}
