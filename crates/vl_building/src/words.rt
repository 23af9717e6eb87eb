// Names that are words: what they stand for, and which of them comes first.
ghost use Rattle.std.specs.Prelude.{◌≡◌, map, find};
ghost use Rattle.std.specs.Option.{option_map_or};
ghost use Rattle.json_exact.specs.declared.json.Member.{Member};
ghost use Rattle.vl_building.specs.inner.Words.{word_in, is_among};

use json_exact::Member;

/// A name, and what it stands for.
pub struct Word<T> {
    /// The name.
    pub name: &'static str,
    /// What it stands for.
    pub value: T,
}

/// What the first of some words stands for that is this name.
pub fn word_in<T: Copy>(words: &[Word<T>], name: &str) -> Option<T>
    ensures { result ≡ word_in words.now name.now }
{
    for word in words {
        if name == word.name {
            return Some(word.value);
        }
    }
    None
}

// Whether a name is one of these.
fn is_among(names: &[&str], name: &str) -> bool
    ensures { result ≡ is_among (map (λ n. n.now) names.now) name.now }
{
    let mut found = false;
    for other in names {
        found |= name == *other;
    }
    found
}

/// The name of the first member of one of these names, or this one where there is none.
pub fn first_among<'a>(members: &'a [Member], names: &[&str], other: &'a str) -> &'a str
    ensures { result.now ≡ option_map_or (λ (m : Member). m.name) (find (λ (m : Member). is_among (map (λ n. n.now) names.now) m.name) members.now) other.now }
{
    for member in members {
        if is_among(names, member.name.as_str()) {
            return member.name.as_str();
        }
    }
    other
}
