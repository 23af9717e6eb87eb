// How cells are displayed.
ghost use Rattle.std.specs.Prelude.{◌≡◌, IfOk};
ghost use Rattle.cell_value.specs.Display.{display_of};

use crate::Cell;
use std::alloc::Global;
use text_kit::{OutOfMemory, Text};

impl Cell {
    /// What stands for the cell in a text: `null`, `true` or `false`, the decimal of a number, the text
    /// itself, or the decimals of a pair as `[a,b]`.
    pub fn display(&self, alloc: Global) -> Result<Text, OutOfMemory>
        ensures { IfOk result (λ text. text ≡ display_of self.now) }
    {
        let mut text = Text::new(alloc);
        match self {
            Cell::Null => text.push_str("null")?,
            Cell::Flag(true) => text.push_str("true")?,
            Cell::Flag(false) => text.push_str("false")?,
            Cell::Number(number) => text.push_str(number.decimal().as_str())?,
            Cell::Text(own) => text.push_str(own.as_str())?,
            Cell::Pair(first, second) => {
                text.push_str("[")?;
                text.push_str(first.decimal().as_str())?;
                text.push_str(",")?;
                text.push_str(second.decimal().as_str())?;
                text.push_str("]")?;
            }
        }
        Ok(text)
    }
}
