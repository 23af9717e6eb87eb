//! Where a path leads in a tree.

ghost use Rattle.std.specs.Prelude.{◌≡◌, ◌-◌, ◌^◌, ◌∷◌, ◌≤◌, length, min};
ghost use Rattle.std.specs.Option.{option_copied, option_and_then};
ghost use Rattle.std.specs.List.{list_all};
ghost use Rattle.std.specs.Char.{is_ascii_digit};
ghost use Rattle.fixed_num.specs.JsonNumber.{number_of};
ghost use Rattle.json_exact.specs.Path.{words_of, name_of, is_index, item_of, member_value, child_of, led_by, at_path};
ghost use Rattle.json_exact.specs.inner.Along.{words_after, is_name, front_of, front_rest};

use crate::json::{Json, Member};
use crate::words::first_of;

/// The value to which a path leads, by the rules of JSON Pointer (RFC 6901). The empty path leads
/// to the tree itself; any other has a `/` before each name or index, in which `~1` stands for `/`
/// and `~0` for `~`. None exactly where nothing stands there, or the text is no path.
pub fn at_path<'a>(tree: &'a Json, path: &str) -> Option<&'a Json>
    ensures { option_copied result ≡ at_path tree.now path.now }
{
    let path = path.as_bytes();
    if path.is_empty() {
        return Some(tree);
    }
    if first_of(path) != b'/' {
        return None;
    }
    led_by(tree, path)
}

/// Where the words of a path lead, each of which stands after a mark.
fn led_by<'a>(tree: &'a Json, path: &[u8]) -> Option<&'a Json>
    ensures { option_copied result ≡ led_by (words_after path.now) tree.now }
{
    let mut here = tree;
    let mut rest = path;
    while let [_, words @ ..] = rest {
        let (word, others) = first_word(words);
        here = child_of(here, word)?;
        rest = others;
    }
    Some(here)
}

/// The bytes before the first slash, and those from it on.
fn first_word(bytes: &[u8]) -> (&[u8], &[u8])
    ensures words { words_of bytes.now ≡ result.0.now ∷ words_after result.1.now }
    ensures fewer { length result.1.now ≤ length bytes.now }
{
    for (i, b) in bytes.iter().enumerate() {
        if *b == b'/' {
            return bytes.split_at(i);
        }
    }
    (bytes, &[])
}

/// The child to which a word leads.
fn child_of<'a>(tree: &'a Json, word: &[u8]) -> Option<&'a Json>
    ensures { option_copied result ≡ child_of tree.now word.now }
{
    match tree {
        Json::List(items) => item_at(items.as_slice(), word),
        Json::Object(members) => value_at(members.as_slice(), word),
        Json::Null | Json::Flag(_) | Json::Number(_) | Json::Huge | Json::Text(_) => None,
    }
}

/// The item whose index a word is.
fn item_at<'a>(items: &'a [Json], word: &[u8]) -> Option<&'a Json>
    ensures { option_copied result ≡ option_and_then (item_of items.now) (name_of word.now) }
{
    if !is_index(word) {
        return None;
    }
    let index = number_of(word);
    if index < items.len() {
        Some(&items[index])
    } else {
        None
    }
}

/// Whether a word is an index: one digit, or more of them without a zero in front.
fn is_index(word: &[u8]) -> bool
    ensures { result ≡ is_index word.now }
{
    match word {
        [] => false,
        [digit] => digit.is_ascii_digit(),
        [first, _, ..] => *first != b'0' && are_digits(word),
    }
}

/// Whether all bytes are digits.
fn are_digits(word: &[u8]) -> bool
    ensures { result ≡ list_all is_ascii_digit word.now }
{
    word.iter().all(|byte| byte.is_ascii_digit())
}

/// The number that digits stand for, or the largest one where it is larger.
fn number_of(digits: &[u8]) -> usize
    ensures { result ≡ min (number_of digits.now) (2 ^ 64 - 1) }
{
    let mut number: usize = 0;
    for digit in digits {
        number = number
            .saturating_mul(10)
            .saturating_add(usize::from(digit.saturating_sub(b'0')));
    }
    number
}

/// The value of the first member for whose name a word stands.
fn value_at<'a>(members: &'a [Member], word: &[u8]) -> Option<&'a Json>
    ensures { option_copied result ≡ option_and_then (member_value members.now) (name_of word.now) }
{
    for member in members {
        if stands_for(word, member.name.as_str().as_bytes()) {
            return Some(&member.value);
        }
    }
    None
}

/// Whether a word stands for a name.
fn stands_for(word: &[u8], name: &[u8]) -> bool
    ensures { result ≡ is_name (name_of word.now) name.now }
{
    let mut rest = word;
    for byte in name {
        match front_of(rest) {
            Some(front) if front == *byte => rest = after_front(rest),
            _ => return false,
        }
    }
    rest.is_empty()
}

/// The first byte for which a word stands; None where it is empty or begins with no escape.
fn front_of(word: &[u8]) -> Option<u8>
    ensures { result ≡ front_of word.now }
{
    match word {
        [] => None,
        [b'~', b'0', ..] => Some(b'~'),
        [b'~', b'1', ..] => Some(b'/'),
        [b'~', ..] => None,
        [byte, ..] => Some(*byte),
    }
}

/// The word without the first byte for which it stands.
fn after_front(word: &[u8]) -> &[u8]
    ensures { result.now ≡ front_rest word.now }
{
    match word {
        [] => word,
        [b'~', _, rest @ ..] => rest,
        [_, rest @ ..] => rest,
    }
}
