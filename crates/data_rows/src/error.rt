// Why data give no rows.
use text_kit::{OutOfMemory, Text};

/// Why data give no rows.
#[derive(Debug, Drop)]
pub enum RowError {
    /// A row is bad.
    Fault {
        /// The first bad row, counted from 0.
        row: u64,
        /// Its first bad field, or an empty text where the row is bad as a whole.
        field: Text,
    },
    /// Memory was refused.
    Memory,
}

impl From<OutOfMemory> for RowError {
    ghost use Rattle.std.specs.Prelude.{◌≡◌};
    ghost use Rattle.data_rows.specs.declared.error.RowError.TheVariants.{Memory};

    ghost from_gives = { λ _ e. e ≡ Memory };

    fn from(_: OutOfMemory) -> RowError {
        RowError::Memory
    }
}
