// Texts of temporal fields that become instants.
ghost use Rattle.std.specs.Prelude.{◌≡◌, ◌++◌, [], ◌∷◌, flat_map, option_copied, IfOk, OnOk};
ghost use Rattle.expr_syntax.specs.declared.expr.Expr.TheVariants as expr;
ghost use Rattle.unit_plan.specs.Reads.{read_expr, has_time_unit, is_read, field_of, read_of, reads};
ghost use Rattle.unit_plan.specs.inner.LentShows.{show_shown, shows_shown};

use crate::codes::{IS_STRING, TO_DATE};
use crate::measures::type_in;
use crate::shows::{ShownHere, field_in};
use expr_syntax::Expr;
use plan_kit::{Step, call_one, choose};
use scale_infer::is_temporal;
use std::alloc::Global;
use text_kit::{OutOfMemory, Seq, Text};
use vl_spec::{Definition, FieldType};

// A builtin of a field, beside a value.
fn call_beside<K: Drop>(
    alloc: Global,
    kept: K,
    code: u16,
    field: &Text,
) -> Result<(K, Expr), OutOfMemory>
    ensures { IfOk result (λ both. both ≡ (kept, expr.Call code (expr.Field field.now ∷ []))) }
{
    let name = field.copy()?;
    let e = call_one(alloc, code, Expr::Field(name))?;
    Ok((kept, e))
}

// The instant of a text, and another cell as it is.
fn read_expr(alloc: Global, field: &Text) -> Result<Expr, OutOfMemory>
    ensures { IfOk result (λ e. e ≡ read_expr field.now) }
{
    let name = field.copy()?;
    let (name, is_text) = call_beside(alloc, name, IS_STRING, field)?;
    let ((name, is_text), instant) = call_beside(alloc, (name, is_text), TO_DATE, field)?;
    choose(alloc, is_text, instant, Expr::Field(name))
}

// Whether a definition has a unit of time.
fn has_time_unit(definition: &Definition) -> bool
    ensures { result ≡ has_time_unit definition.now }
{
    match field_in(definition) {
        Some(of) => of.time_unit.is_some(),
        None => false,
    }
}

// Whether the field of a definition is temporal.
fn is_read(x: Option<FieldType>, y: Option<FieldType>, shown: &ShownHere) -> bool
    ensures { result ≡ is_read x y (show_shown shown.now) }
{
    has_time_unit(shown.shows) || is_temporal(type_in(x, y, shown.channel, shown.shows))
}

// The field that a definition names.
fn field_of(definition: &Definition) -> Option<&Text>
    ensures { option_copied result ≡ field_of definition.now }
{
    match field_in(definition) {
        Some(of) => of.field.as_ref(),
        None => None,
    }
}

// Adds the reading of a field.
fn push_read(alloc: Global, field: Option<&Text>, steps: &mut Seq<Step>) -> Result<(), OutOfMemory>
    ensures { OnOk result (steps.new ≡ steps.old ++ read_of (option_copied field.entry)) }
{
    match field {
        Some(field) => {
            let name = field.copy()?;
            steps.push(Step::Calculate(read_expr(alloc, field)?, name))
        }
        None => Ok(()),
    }
}

// Adds that of a definition.
fn push_reads_of(
    alloc: Global,
    x: Option<FieldType>,
    y: Option<FieldType>,
    shown: &ShownHere,
    steps: &mut Seq<Step>,
) -> Result<(), OutOfMemory>
    ensures { OnOk result (steps.new ≡ steps.old ++ reads x y (show_shown shown.now)) }
{
    if is_read(x, y, shown) {
        push_read(alloc, field_of(shown.shows), steps)
    } else {
        Ok(())
    }
}

/// Adds those of definitions, by the types of x and y.
pub(crate) fn push_reads(
    alloc: Global,
    x: Option<FieldType>,
    y: Option<FieldType>,
    shows: &[ShownHere],
    steps: &mut Seq<Step>,
) -> Result<(), OutOfMemory>
    ensures { OnOk result (steps.new ≡ steps.old ++ flat_map (reads x y) (shows_shown shows.now)) }
{
    for shown in shows {
        push_reads_of(alloc, x, y, shown, steps)?;
    }
    Ok(())
}
