// Windows: the operations, the fields of the partitions, those of the order, the frame and the rows between tabs.
ghost use Rattle.plain_rows.specs.Rows.{AreRows};

use crate::groups::op_of;
use crate::keys::two_each;
use crate::said::said_of_answer;
use crate::spelled::{names_of, sort_of, word_or_none};
use cell_value::Rows;
use plain_rows::{OpOf, WindowOf};
use plain_windows::window;
use std::alloc::Global;
use text_kit::{OutOfMemory, Seq, Text};

// Adds the operation of a word, and its number.
fn push_op(
    alloc: Global,
    word: &str,
    ops: &mut Seq<OpOf>,
    params: &mut Seq<u32>,
) -> Result<(), OutOfMemory> {
    let mut parts = word.split(':');
    let code = word_or_none(parts.next());
    let field = word_or_none(parts.next());
    ops.push(op_of(alloc, code, field, word_or_none(parts.next()))?)?;
    params.push(word_or_none(parts.next()).parse::<u32>().unwrap_or(0))
}

// Adds the operations of a list, and their numbers.
fn push_ops(
    alloc: Global,
    list: &str,
    ops: &mut Seq<OpOf>,
    params: &mut Seq<u32>,
) -> Result<(), OutOfMemory> {
    for word in list.split(',') {
        if !word.is_empty() {
            push_op(alloc, word, ops, params)?;
        }
    }
    Ok(())
}

// The bound of a frame; None for a line below.
fn bound_of(word: &str) -> Option<i32> {
    word.parse::<i32>().ok()
}

// Windows over a frame, without operations.
fn framed(alloc: Global, fields: &str, sort: &str, frame: &str) -> Result<WindowOf, OutOfMemory> {
    let mut bounds = frame.split(',');
    let before = bound_of(word_or_none(bounds.next()));
    let after = bound_of(word_or_none(bounds.next()));
    let ignore_peers = word_or_none(bounds.next()) == "rows";
    let groupby = names_of(alloc, fields)?;
    let sort = sort_of(alloc, sort)?;
    Ok(WindowOf {
        ops: Seq::new(alloc),
        params: Seq::new(alloc),
        groupby,
        sort,
        before,
        after,
        ignore_peers,
    })
}

// What windows give.
fn said(alloc: Global, w: &WindowOf, rows: &Rows) -> Result<Text, OutOfMemory>
    requires { AreRows rows.now }
{
    if w.params.len() != w.ops.len() {
        return Text::of(alloc, "no numbers");
    }
    said_of_answer(alloc, &window(alloc, rows, w), true)
}

// What windows give of the rows of a list.
fn said_of_list(alloc: Global, w: &WindowOf, list: &str) -> Result<Text, OutOfMemory> {
    said(alloc, w, &two_each(alloc, list)?)
}

/// What is found for a question.
pub(crate) fn found(alloc: Global, told: &str) -> Result<Text, OutOfMemory> {
    let mut words = told.split('\t');
    let ops = word_or_none(words.next());
    let fields = word_or_none(words.next());
    let sort = word_or_none(words.next());
    let mut windows = framed(alloc, fields, sort, word_or_none(words.next()))?;
    push_ops(alloc, ops, &mut windows.ops, &mut windows.params)?;
    said_of_list(alloc, &windows, word_or_none(words.next()))
}
