//! What each time unit is.
ghost use Rattle.std.specs.Prelude.{◌≡◌, map, option_map, slice_get};
ghost use Rattle.case_table.specs.TimeUnits.{rule_of, unit_rule};

use crate::unit::{PartOf, Unit};

/// What a time unit is.
#[derive(Clone, Copy, Debug)]
pub struct TimeUnit {
    /// The parts of an instant that it keeps.
    pub kept: &'static [PartOf],
    /// The smallest unit that it keeps.
    pub smallest: Unit,
    /// The pattern of its labels.
    pub label: &'static str,
}

// Each rule stands twice: under its name, and under the same with the prefix `utc`.
macro_rules! rules {
    ($($($part:ident)* ; $smallest:ident ; $label:literal),*) => {
        [
            $(TimeUnit { kept: &[$(PartOf::$part),*], smallest: Unit::$smallest, label: $label },)*
            $(TimeUnit { kept: &[$(PartOf::$part),*], smallest: Unit::$smallest, label: $label },)*
        ]
    };
}

/// The rule of each time unit, by its code.
pub const UNIT_RULES: [TimeUnit; 32] = rules![
    Year; Year; "%Y",
    Year Quarter; Quarter; "%Y Q%q",
    Quarter; Quarter; "Q%q",
    Year Month; Month; "%b %Y",
    Month; Month; "%b",
    Year Month Date; Day; "%b %d, %Y",
    Month Date; Day; "%b %d",
    Date; Day; "%d",
    Day; Day; "%a",
    Year Month Date Hours; Hour; "%b %d, %Y %H:00",
    Hours; Hour; "%H:00",
    Year Month Date Hours Minutes; Minute; "%b %d, %Y %H:%M",
    Hours Minutes; Minute; "%H:%M",
    Minutes; Minute; "00:%M",
    Year Month Date Hours Minutes Seconds; Second; "%b %d, %Y %H:%M:%S",
    Seconds; Second; ":%S"
];

/// What the time unit of a code is; None exactly where the code stands for none.
pub fn unit_rule(code: u16) -> Option<TimeUnit>
    ensures { option_map rule_of result ≡ unit_rule code }
{
    rule_in(&UNIT_RULES, usize::from(code))
}

// The row at a place of a table.
fn row_at(table: &[TimeUnit], place: usize) -> Option<TimeUnit>
    ensures { result ≡ slice_get table.now place }
{
    table.get(place).copied()
}

// The same, said of the rules that the rows state.
fn rule_in(table: &[TimeUnit], place: usize) -> Option<TimeUnit>
    ensures { option_map rule_of result ≡ slice_get (map rule_of table.now) place }
{
    row_at(table, place)
}
