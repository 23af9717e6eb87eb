// The decimal of a number as a text.
ghost use Rattle.std.specs.Prelude.{◌≡◌};
ghost use Rattle.fixed_num.specs.Decimal.{spelling};

use crate::num::Num;
use std::marker::Model;
use std::str;

/// The decimal of a number, as a text that takes no memory. Contracts see it as its bytes.
#[derive(Debug, Drop)]
pub struct DecimalText {
    buf: [u8; 32],
    len: usize,
}

impl Model for DecimalText {
    ghost use Rattle.std.specs.Prelude.{List, ℕ, ◌≤◌, take};
    ghost use Rattle.std.specs.Str.{IsUtf8};

    ghost Value = { List ℕ };

    ghost view = { λ text. take text.len text.buf };

    ghost invariant = { λ text. (text.len ≤ 32) × IsUtf8 (take text.len text.buf) };
}

impl DecimalText {
    /// The text, to read.
    pub fn as_str(&self) -> &str
        ensures { result.now ≡ self.now }
    {
        match str::from_utf8(&self.buf[..self.len]) {
            Ok(text) => text,
            Err(_) => unreachable!(),
        }
    }
}

impl Num {
    /// The one spelling of the number, as a text.
    pub fn decimal(self) -> DecimalText
        ensures { result ≡ spelling self }
    {
        let mut buf = [0; 32];
        let len = self.write_decimal(&mut buf);
        DecimalText { buf, len }
    }
}
