// Texts whose copies share their bytes.
ghost use Rattle.std.specs.Prelude.{◌≡◌, IfOk};

use std::alloc::Global;
use std::marker::Model;
use std::rc::Rc;
use text_kit::{Copies, OutOfMemory, Text};

/// A text whose copies share its bytes, so that a copy takes no memory. Contracts see it as the list of its UTF-8 bytes.
#[derive(Debug, Drop)]
pub struct SharedText {
    text: Rc<Text>,
}

impl Model for SharedText {
    ghost use Rattle.std.specs.Prelude.{List, ℕ};

    ghost Value = { List ℕ };

    ghost view = { λ shared. shared.text.value };
}

impl SharedText {
    /// A text of the bytes of `s`, which no other shares yet.
    pub fn of(alloc: Global, s: &str) -> Result<SharedText, OutOfMemory>
        ensures { IfOk result (λ shared. shared ≡ s.now) }
    {
        SharedText::of_text(alloc, Text::of(alloc, s)?)
    }

    /// A text that was made already.
    pub fn of_text(alloc: Global, text: Text) -> Result<SharedText, OutOfMemory>
        ensures { IfOk result (λ shared. shared ≡ text) }
    {
        Ok(SharedText {
            text: Rc::new(alloc, text)?,
        })
    }

    /// The text, to read.
    pub fn as_text(&self) -> &Text
        ensures { result.now ≡ self.now }
    {
        self.text.as_ref()
    }

    /// The text's bytes, to read.
    pub fn as_str(&self) -> &str
        ensures { result.now ≡ self.now }
    {
        self.as_text().as_str()
    }

    /// The same text once more. It takes no memory.
    pub fn copy(&self) -> Result<SharedText, OutOfMemory>
        ensures { IfOk result (λ copy. copy ≡ self.now) }
    {
        Ok(SharedText {
            text: self.text.clone()?,
        })
    }
}

impl Copies for SharedText {
    fn copied(&self, _: Global) -> Result<SharedText, OutOfMemory> {
        self.copy()
    }
}
