ghost use Rattle.std.specs.Prelude.{◌≡◌, [], ◌++◌, ◌↔◌, length, string_bytes, IsTrue, IfOk, OnOk, OnErr};

use crate::OutOfMemory;
use std::alloc::Global;
use std::marker::Model;

/// A `String` that contracts see as the list of its UTF-8 bytes.
#[derive(Debug, Drop)]
pub struct Text {
    string: String,
}

impl Model for Text {
    ghost use Rattle.std.specs.Prelude.{List, ℕ, string_bytes};

    ghost Value = { List ℕ };

    ghost view = { λ text. string_bytes text.string };
}

impl Text {
    /// An empty text. It takes no memory until something is added.
    pub fn new(alloc: Global) -> Text
        ensures { result ≡ [] }
    {
        Text {
            string: String::new(alloc),
        }
    }

    /// A copy of `s`.
    pub fn of(alloc: Global, s: &str) -> Result<Text, OutOfMemory>
        ensures { IfOk result (λ text. text ≡ s.now) }
    {
        Ok(Text {
            string: String::from_str(alloc, s)?,
        })
    }

    /// The text of `string`, without taking memory.
    pub fn from_string(string: String) -> Text
        ensures { result ≡ string_bytes string }
    {
        Text { string }
    }

    /// The text as a `String`, without taking memory.
    pub fn into_string(self) -> String
        ensures { string_bytes result ≡ self }
    {
        let Text { string } = self;
        string
    }

    /// The text, to read.
    pub fn as_str(&self) -> &str
        ensures { result.now ≡ self.now }
    {
        self.string.as_str()
    }

    /// How many bytes of UTF-8 there are.
    pub fn len(&self) -> usize
        ensures { result ≡ length self.now }
    {
        self.string.len()
    }

    /// Whether there is no byte.
    pub fn is_empty(&self) -> bool
        ensures { IsTrue result ↔ (self.now ≡ []) }
    {
        self.string.is_empty()
    }

    /// Adds `s` at the end. Where memory is refused the text stays.
    pub fn push_str(&mut self, s: &str) -> Result<(), OutOfMemory>
        ensures ok { OnOk result (self.new ≡ self.old ++ s.now) }
        ensures err { OnErr result (self.new ≡ self.old) }
    {
        self.string.push_str(s)?;
        Ok(())
    }

    /// A text that equals this one.
    pub fn copy(&self) -> Result<Text, OutOfMemory>
        ensures { IfOk result (λ text. text ≡ self.now) }
    {
        Ok(Text {
            string: self.string.clone()?,
        })
    }
}
