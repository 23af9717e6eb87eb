use std::alloc::Global;
use text_kit::{Boxed, Copies, OutOfMemory, Seq, Text};

// A copy of a text of two parts.
fn joined(alloc: Global, first: &str, second: &str) -> Result<Text, OutOfMemory> {
    let mut text = Text::new(alloc);
    text.push_str(first)?;
    text.push_str(second)?;
    text.copy()
}

// Whether a text has both parts.
fn has_both(text: &Text) -> bool {
    text.as_str() == "abé" && text.len() == 4
}

// Whether a text of another's string is the same as a third.
fn is_made_again(text: Text, other: &Text) -> bool {
    Text::from_string(text.into_string()).as_str() == other.as_str()
}

// Whether that holds of a text of both parts.
fn stays_whole(alloc: Global, copied: Text) -> bool {
    match Text::of(alloc, "abé") {
        Ok(other) => is_made_again(copied, &other),
        Err(_) => false,
    }
}

// Whether a copy of a text of two parts has both, and stays so.
fn is_whole(alloc: Global) -> bool {
    match joined(alloc, "ab", "é") {
        Ok(copied) => has_both(&copied) && stays_whole(alloc, copied),
        Err(_) => false,
    }
}

#[test]
fn a_text_is_built_and_copied(rt: HostRuntime) {
    assert!(rt; Text::new(rt.alloc()).is_empty());
    assert!(rt; is_whole(rt.alloc()));
}

// The list of 1 to 5.
fn five(alloc: Global) -> Result<Seq<u8>, OutOfMemory> {
    let mut seq = Seq::with_capacity(alloc, 8)?;
    seq.push(1u8)?;
    seq.push(2)?;
    seq.append(Seq::from_slice(alloc, &[3, 4, 5])?)?;
    Ok(seq)
}

// Takes the list apart: what is left of it once its first is another, and its last two are gone.
fn cut(mut seq: Seq<u8>) -> Seq<u8> {
    if !seq.is_empty() {
        seq.set(0, 9);
    }
    if seq.pop() == Some(5) {
        seq.truncate(3);
    }
    seq
}

// Whether this is what is left of the list.
fn is_left(left: &Seq<u8>) -> bool {
    left.get(2).copied() == Some(3)
        && left.get(3).copied() == None
        && left.as_slice() == [9, 2, 3].as_slice()
}

// Whether a list of the vector of what is left has three.
fn has_three(left: Seq<u8>) -> bool {
    Seq::from_vec(left.into_vec()).len() == 3
}

// Whether the list has five, of which three are left.
fn is_taken_apart(seq: Seq<u8>) -> bool {
    if seq.len() != 5 {
        return false;
    }
    let left = cut(seq);
    is_left(&left) && has_three(left)
}

// Whether that list is.
fn five_are_taken_apart(alloc: Global) -> bool {
    match five(alloc) {
        Ok(seq) => is_taken_apart(seq),
        Err(_) => false,
    }
}

#[test]
fn a_list_is_built_and_taken_apart(rt: HostRuntime) {
    assert!(rt; five_are_taken_apart(rt.alloc()));
    assert!(rt; Seq::<u8>::new(rt.alloc()).is_empty());
}

// Adds a pair.
fn push_pair(
    alloc: Global,
    pairs: &mut Seq<(Text, Option<Text>)>,
    first: &str,
    second: Option<Text>,
) -> Result<(), OutOfMemory> {
    pairs.push((Text::of(alloc, first)?, second))
}

// Pairs of which the second has both parts.
fn pairs(alloc: Global) -> Result<Seq<(Text, Option<Text>)>, OutOfMemory> {
    let mut pairs = Seq::new(alloc);
    push_pair(alloc, &mut pairs, "a", None)?;
    push_pair(alloc, &mut pairs, "b", Some(Text::of(alloc, "é")?))?;
    Ok(pairs)
}

// Whether the second part of a pair is this text.
fn has_second(pair: &(Text, Option<Text>), text: &str) -> bool {
    match &pair.1 {
        Some(second) => second.as_str() == text,
        None => false,
    }
}

// Whether these are two pairs, the last of which has this second part.
fn are_two(pairs: &[(Text, Option<Text>)], text: &str) -> bool {
    match pairs {
        [_, last] => has_second(last, text),
        _ => false,
    }
}

// A copy of the pairs.
fn copies(alloc: Global) -> Result<Seq<(Text, Option<Text>)>, OutOfMemory> {
    pairs(alloc)?.copied(alloc)
}

// Whether that copy is whole.
fn are_copied(alloc: Global) -> bool {
    match copies(alloc) {
        Ok(copies) => are_two(copies.as_slice(), "é"),
        Err(_) => false,
    }
}

#[test]
fn pairs_of_what_may_be_there_are_copied(rt: HostRuntime) {
    assert!(rt; are_copied(rt.alloc()));
}

// Whether a value is seen in a box, and is taken out of it.
fn is_taken_out(alloc: Global) -> bool {
    match Boxed::new(alloc, 7u8) {
        Ok(boxed) => *boxed.get() == 7 && boxed.into_inner() == 7,
        Err(_) => false,
    }
}

#[test]
fn a_value_is_boxed_and_taken_out(rt: HostRuntime) {
    assert!(rt; is_taken_out(rt.alloc()));
}
