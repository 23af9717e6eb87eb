// The names of codes.
ghost use Rattle.std.specs.Prelude.{◌≡◌, [], IfOk, unwrap_or, option_map, slice_get};
ghost use Rattle.case_table.specs.declared.case.Case.{Case as ACase};
ghost use Rattle.case_table.specs.Names.{operations, time_units, scale_kinds};
ghost use Rattle.vega_writing.specs.Names.{name_at, code_tree};
ghost use Rattle.vega_writing.specs.Trees.{list_tree};

use crate::trees::word;
use case_table::{Case, OPERATIONS, SCALE_KINDS, TIME_UNITS};
use json_exact::Json;
use std::alloc::Global;
use text_kit::{OutOfMemory, Seq};

// The name at a place of a table, empty where there is none.
fn name_in(table: &[Case], place: usize) -> &'static str
    ensures { result.now ≡ unwrap_or (option_map (λ (c : ACase). c.name.now) (slice_get table.now place)) [] }
{
    match table.get(place) {
        Some(case) => case.name,
        None => "",
    }
}

// The name of an operation.
fn operation_name(code: u16) -> &'static str
    ensures { result.now ≡ name_at operations code }
{
    name_in(&OPERATIONS, usize::from(code))
}

// The name of a time unit.
fn time_unit_name(code: u16) -> &'static str
    ensures { result.now ≡ name_at time_units code }
{
    name_in(&TIME_UNITS, usize::from(code))
}

// The name of a kind of scale.
fn scale_kind_name(code: u16) -> &'static str
    ensures { result.now ≡ name_at scale_kinds code }
{
    name_in(&SCALE_KINDS, usize::from(code))
}

// An operation, by its name.
pub fn operation_tree(alloc: Global, code: u16) -> Result<Json, OutOfMemory>
    ensures { IfOk result (λ tree. tree ≡ code_tree operations code) }
{
    word(alloc, operation_name(code))
}

// A time unit, by its name.
pub fn time_unit_tree(alloc: Global, code: u16) -> Result<Json, OutOfMemory>
    ensures { IfOk result (λ tree. tree ≡ code_tree time_units code) }
{
    word(alloc, time_unit_name(code))
}

// The type of a scale, by its name.
pub fn scale_type_tree(alloc: Global, code: u16) -> Result<Json, OutOfMemory>
    ensures { IfOk result (λ tree. tree ≡ code_tree scale_kinds code) }
{
    word(alloc, scale_kind_name(code))
}

// Some operations, by their names.
pub fn operations_tree(alloc: Global, codes: &Seq<u16>) -> Result<Json, OutOfMemory>
    ensures { IfOk result (λ tree. tree ≡ list_tree (code_tree operations) codes.now) }
{
    let mut items = Seq::new(alloc);
    for code in codes.as_slice() {
        items.push(operation_tree(alloc, *code)?)?;
    }
    Ok(Json::List(items))
}

// The same, where there are some.
pub fn operations_tree_if(
    alloc: Global,
    codes: &Option<Seq<u16>>,
) -> Result<Option<Json>, OutOfMemory>
    ensures { IfOk result (λ tree. tree ≡ option_map (list_tree (code_tree operations)) codes.now) }
{
    match codes {
        Some(codes) => Ok(Some(operations_tree(alloc, codes)?)),
        None => Ok(None),
    }
}
