// Names that are words, and what they stand for.
ghost use Rattle.std.specs.Prelude.{◌≡◌};
ghost use Rattle.vega_building.specs.inner.Words.{word_in};

/// A name, and what it stands for.
pub struct Word<T> {
    /// The name.
    pub name: &'static str,
    /// What it stands for.
    pub value: T,
}

/// What the first of some words stands for that is this name.
pub fn word_in<T: Copy>(words: &[Word<T>], name: &str) -> Option<T>
    ensures { result ≡ word_in words.now name.now }
{
    for word in words {
        if name == word.name {
            return Some(word.value);
        }
    }
    None
}
