// The words of titles.
ghost use Rattle.std.specs.Prelude.{◌≡◌, [], unwrap_or, option_map, slice_get};
ghost use Rattle.case_table.specs.declared.case.Case.{Case as ACase};
ghost use Rattle.guide_infer.specs.Words.{operation_word, unit_word};

use case_table::{Case, TIME_UNITS};

/// The word of an operation by its code.
#[tactic(auto, unfolding(crate::specs::Words::operation_word))]
pub(crate) fn operation_word(op: u16) -> &'static str
    ensures { result.now ≡ operation_word op }
{
    if op == 1 {
        "Valid"
    } else if op == 2 {
        "Missing"
    } else if op == 3 {
        "Distinct"
    } else if op == 4 {
        "Sum"
    } else if op == 5 {
        "Mean"
    } else if op == 6 {
        "Average"
    } else if op == 7 {
        "Min"
    } else if op == 8 {
        "Max"
    } else if op == 9 {
        "Median"
    } else if op == 10 {
        "Q1"
    } else if op == 11 {
        "Q3"
    } else {
        "Count"
    }
}

// The name at a place of a table, empty where there is none.
fn name_in(table: &[Case], place: usize) -> &'static str
    ensures { result.now ≡ unwrap_or (option_map (λ (c : ACase). c.name.now) (slice_get table.now place)) [] }
{
    match table.get(place) {
        Some(case) => case.name,
        None => "",
    }
}

/// The name of a unit of time by its code, empty where there is none.
pub(crate) fn unit_word(code: u16) -> &'static str
    ensures { result.now ≡ unit_word code }
{
    name_in(&TIME_UNITS, usize::from(code))
}
