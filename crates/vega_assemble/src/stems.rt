// The stem of names that are made.
ghost use Rattle.std.specs.Prelude.{◌≡◌, ◌++◌, max, map, suc, length, IfOk, OnOk};
ghost use Rattle.std.specs.List.{list_any, list_all, starts_with};
ghost use Rattle.vega_assemble.specs.Names.{words, is_tail, looks_like, looks_made, longest, underscores, stem_for};

use std::alloc::Global;
use text_kit::{OutOfMemory, Text};

// The words with which names begin.
const WORDS: [&str; 22] = [
    "none", "unit_", "begun_", "cells_", "ranks_", "codes_", "outer_", "orders_", "keys_",
    "the_cell", "the_rank", "key_", "mark_", "middle_", "foot_", "drag_", "x_", "y_", "color_",
    "opacity_", "size_", "shape_",
];

// A digit or an underscore, or x or y.
fn is_tail(byte: u8) -> bool
    ensures { result ≡ is_tail byte }
{
    (48 <= byte && byte <= 57) || (byte == 95 || (byte == 120 || byte == 121))
}

// Whether all bytes are such.
fn are_tails(bytes: &[u8]) -> bool
    ensures { result ≡ list_all is_tail bytes.now }
{
    for byte in bytes {
        if !is_tail(*byte) {
            return false;
        }
    }
    true
}

// Whether a name looks like one with a word.
fn looks_like(name: &str, word: &str) -> bool
    ensures { result ≡ looks_like name.now word.now }
{
    let bytes = name.as_bytes();
    if bytes.starts_with(word.as_bytes()) {
        are_tails(&bytes[word.len()..])
    } else {
        false
    }
}

// Whether a name looks like one with one of some words.
fn looks_like_one(name: &str, words: &[&str]) -> bool
    ensures { result ≡ list_any (looks_like name.now) (map (λ w. w.now) words.now) }
{
    for word in words {
        if looks_like(name, word) {
            return true;
        }
    }
    false
}

// Whether a name looks like one that is made.
fn looks_made(name: &str) -> bool
    ensures { result ≡ looks_made name.now }
{
    looks_like_one(name, &WORDS)
}

// Whether one of some names does.
fn one_looks_made(names: &[&str]) -> bool
    ensures { result ≡ list_any looks_made (map (λ n. n.now) names.now) }
{
    for name in names {
        if looks_made(name) {
            return true;
        }
    }
    false
}

// How long the longest name is.
fn longest(names: &[&str]) -> usize
    ensures { result ≡ longest (map (λ n. n.now) names.now) }
{
    let mut length = 0;
    for name in names {
        length = length.max(name.len());
    }
    length
}

// So many underscores.
fn push_underscores(count: usize, text: &mut Text) -> Result<(), OutOfMemory>
    ensures { OnOk result (text.new ≡ text.old ++ underscores count) }
{
    for _ in 0..count {
        text.push_str("_")?;
    }
    Ok(())
}

// One underscore more than so many.
fn underscores(alloc: Global, count: usize) -> Result<Text, OutOfMemory>
    ensures { IfOk result (λ stem. stem ≡ underscores (suc count)) }
{
    let mut stem = Text::of(alloc, "_")?;
    push_underscores(count, &mut stem)?;
    Ok(stem)
}

/// The stem that makes names differ from these, in time linear in them.
pub(crate) fn stem_for(alloc: Global, mentioned: &[&str]) -> Result<Text, OutOfMemory>
    ensures { IfOk result (λ stem. stem ≡ stem_for (map (λ n. n.now) mentioned.now)) }
{
    if one_looks_made(mentioned) {
        underscores(alloc, longest(mentioned))
    } else {
        Ok(Text::new(alloc))
    }
}
