//! The names of each table, looked up.
ghost use Rattle.std.specs.Prelude.{◌≡◌};
ghost use Rattle.case_table.specs.Names.{index_of, operations, time_units, builtins, channels, scale_kinds};

use crate::case::find;
use crate::tables::{BUILTINS, CHANNELS, OPERATIONS, SCALE_KINDS, TIME_UNITS};

/// The code of an operation by its name; None exactly where there is none.
pub fn operation_of(name: &str) -> Option<u16>
    ensures { result ≡ index_of operations name.now }
{
    find(&OPERATIONS, name)
}

/// The code of a time unit by its name; None exactly where there is none.
pub fn time_unit_of(name: &str) -> Option<u16>
    ensures { result ≡ index_of time_units name.now }
{
    find(&TIME_UNITS, name)
}

/// The code of a builtin by its name; None exactly where there is none.
pub fn builtin_of(name: &str) -> Option<u16>
    ensures { result ≡ index_of builtins name.now }
{
    find(&BUILTINS, name)
}

/// The code of a channel by its name; None exactly where there is none.
pub fn channel_of(name: &str) -> Option<u16>
    ensures { result ≡ index_of channels name.now }
{
    find(&CHANNELS, name)
}

/// The code of a kind of scale by its name; None exactly where there is none. The kinds are our own: "ramp" is that of a scale whose
/// range is one of colours. No `type` of a specification is called so, and a reader of `type` must not take it for one.
pub fn scale_kind_of(name: &str) -> Option<u16>
    ensures { result ≡ index_of scale_kinds name.now }
{
    find(&SCALE_KINDS, name)
}
