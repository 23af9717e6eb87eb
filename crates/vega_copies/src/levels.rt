// The names of a copy of an object.
ghost use Rattle.std.specs.Prelude.{◌≡◌, ◌∷◌, ◌++◌, unwrap_or, IfOk, OnOk, All, map, flat_map};
ghost use Rattle.cell_value.specs.declared.cell.Cell.TheVariants.{Null};
ghost use Rattle.vega_spec.specs.declared.signals.Signal.{Signal};
ghost use Rattle.vega_spec.specs.Names.{signals_of};
ghost use Rattle.vega_signals.specs.Extents.{is_computed};
ghost use Rattle.vega_copies.specs.inner.Results.{result_map};
ghost use Rattle.cell_value.specs.State.{dataset_of};
ghost use Rattle.expr_eval.specs.Answers.{Evaluates};
ghost use Rattle.vega_spec.specs.declared.spec.Group.{out-Group};
ghost use Rattle.vega_lists.specs.Inside.{rows_inside, AllKeysFit, SetsMayFold};
ghost use Rattle.vega_lists.specs.Products.{Products, products_after};
ghost use Rattle.vega_lists.specs.Held.{AreAllRows};
ghost use Rattle.vega_lists.specs.Transforms.{is_kept, OfTransforms};
ghost use Rattle.vega_signals.specs.Signals.{data_of};
ghost use Rattle.vega_copies.specs.Outlines.{object_here};
ghost use Rattle.vega_copies.specs.Scopes.{written_here, names_with, names_in_object};
ghost use Rattle.vega_copies.specs.inner.Levels.{parts_over, rows_at, names_over, names_with_level, names_with_lists, rows_with_level};
ghost use Rattle.vega_copies.specs.inner.Levels.{names_with_parts, AreNames, AreParts};

use crate::names::{Level, NamesAt, part_named, referred};
use cell_value::{Cell, Keyed, Named};
use expr_eval::EvalError;
use std::alloc::Global;
use text_kit::{OutOfMemory, Seq, Text};
use vega_lists::{ListReader, Lists, lists_inside};
use vega_signals::{Inside, any_set_lacks, data_of, own_values, signals_of};
use vega_spec::{Group, Signal};

/// The parts of lists that a facet gives, over what names stand for round its group.
#[derive(Clone, Copy)]
pub struct PartsOver<'p, 'n> {
    /// The parts.
    pub parts: &'p [Named],
    /// What names stand for round the group.
    pub outer: NamesAt<'n>,
}

impl ListReader for PartsOver<'_, '_> {
    ghost named = { λ over. parts_over over.parts.now (rows_at over.outer.sources.now over.outer.levels.now) };

    #[tactic(auto, using(crate::proofs::NameLemmas::part_found))]
    fn rows<'a>(&'a self, alloc: Global, name: &str) -> Result<Seq<&'a Keyed>, OutOfMemory> {
        match part_named(self.parts, name) {
            Some(part) => referred(alloc, part.rows.as_slice()),
            None => self.outer.rows(alloc, name),
        }
    }
}

// Whether a signal is computed; one that does something on events is a selection, whatever else it has.
fn is_computed(signal: &Signal) -> bool
    ensures { result ≡ is_computed signal.now }
{
    signal.on.is_none() && signal.update.is_some()
}

// The written value of a signal; null where none is written.
fn written_value(signal: &Signal) -> Result<Cell, OutOfMemory>
    ensures { IfOk result (λ cell. cell ≡ unwrap_or signal.now.value Null) }
{
    match &signal.value {
        Some(value) => value.copy(),
        None => Ok(Cell::Null),
    }
}

// Adds a signal that isn't computed, with its written value.
fn push_written(signal: &Signal, out: &mut Seq<(Text, Cell)>) -> Result<(), OutOfMemory>
    ensures { OnOk result (out.new ≡ out.old ++ written_here signal.now) }
{
    if is_computed(signal) {
        return Ok(());
    }
    out.push((signal.name.copy()?, written_value(signal)?))
}

// The signals of a group that aren't computed, with their written values.
fn written(alloc: Global, signals: &[Signal]) -> Result<Seq<(Text, Cell)>, OutOfMemory>
    ensures { IfOk result (λ given. given ≡ flat_map written_here signals.now) }
{
    let mut out = Seq::new(alloc);
    for signal in signals {
        push_written(signal, &mut out)?;
    }
    Ok(out)
}

// The lists of the data sets of an object, where its own signals have these values. `Overflow` comes exactly where one of the data sets
// overflows, or mentions a signal without value.
fn lists_with<'x>(
    alloc: Global,
    over: &'x PartsOver<'x, 'x>,
    own: &'x [(Text, Option<Cell>)],
    group: &Group,
) -> Result<Lists, EvalError>
    requires outer { AreNames over.now.outer }
    requires parts { AreAllRows (parts_over over.now.parts.now (rows_at over.now.outer.sources.now over.now.outer.levels.now)) }
    requires kept { All (OfTransforms is_kept) (data_of (out-Group group.now)) }
    requires folds { SetsMayFold (parts_over over.now.parts.now (rows_at over.now.outer.sources.now over.now.outer.levels.now))
        (data_of (out-Group group.now)) }
    ensures value { Evaluates (result_map (names_with_lists over.now.outer over.now.parts.now own.now) result)
        (names_with (map dataset_of over.now.outer.sources.now) (names_over over.now.outer over.now.parts.now) (object_here (out-Group group.now)) own.now) }
    ensures rows { IfOk result (λ lists. AreAllRows (rows_inside over.now.outer.sources.now
        (parts_over over.now.parts.now (rows_at over.now.outer.sources.now over.now.outer.levels.now)) lists)) }
    ensures folds { (products : Products)
        → AllKeysFit products (parts_over over.now.parts.now (rows_at over.now.outer.sources.now over.now.outer.levels.now))
        → IfOk result (λ lists. AllKeysFit (products_after products (data_of (out-Group group.now))) (rows_inside over.now.outer.sources.now
        (parts_over over.now.parts.now (rows_at over.now.outer.sources.now over.now.outer.levels.now)) lists)) }
{
    let sets = data_of(group);
    let inside = Inside {
        own,
        outer: &over.outer,
    };
    if any_set_lacks(alloc, &inside, sets)? {
        return Err(EvalError::Overflow);
    }
    lists_inside(alloc, over.outer.sources, over, sets, &inside)
}

/// The names of an object whose given signals have values, in others, where a facet gives parts of lists. `Overflow` comes exactly where one
/// of its data sets overflows, or mentions a signal without value.
pub fn level_with(
    alloc: Global,
    outer: &NamesAt,
    group: &Group,
    parts: Seq<Named>,
    given: &[(Text, Cell)],
) -> Result<Level, EvalError>
    requires outer { AreNames outer.now }
    requires parts { AreParts parts }
    requires kept { All (OfTransforms is_kept) (data_of (out-Group group.now)) }
    requires folds { SetsMayFold (parts_over parts (rows_at outer.now.sources.now outer.now.levels.now)) (data_of (out-Group group.now)) }
    ensures value { Evaluates (result_map (names_with_level outer.now) result)
        (names_with_parts outer.now parts (object_here (out-Group group.now)) given.now) }
    ensures rows { IfOk result (λ level. AreAllRows (rows_with_level outer.now level)) }
    ensures parts { IfOk result (λ level. level.parts ≡ parts) }
    ensures folds { (products : Products) → AllKeysFit products (parts_over parts (rows_at outer.now.sources.now outer.now.levels.now))
        → IfOk result (λ level. AllKeysFit (products_after products (data_of (out-Group group.now))) (rows_with_level outer.now level)) }
{
    let over = PartsOver {
        parts: parts.as_slice(),
        outer: *outer,
    };
    let own = own_values(
        alloc,
        outer.sources,
        &over,
        outer,
        given,
        signals_of(group),
        data_of(group),
    )?;
    match lists_with(alloc, &over, own.as_slice(), group) {
        Ok(lists) => Ok(Level {
            parts,
            lists,
            signals: own,
        }),
        Err(error) => Err(error),
    }
}

/// The names of a copy of a group in the copy of the object round it. `Overflow` comes exactly where one of its data sets overflows, or
/// mentions a signal without value.
pub(crate) fn level_in(
    alloc: Global,
    outer: &NamesAt,
    group: &Group,
    parts: Seq<Named>,
) -> Result<Level, EvalError>
    requires outer { AreNames outer.now }
    requires parts { AreParts parts }
    requires kept { All (OfTransforms is_kept) (data_of (out-Group group.now)) }
    requires folds { SetsMayFold (parts_over parts (rows_at outer.now.sources.now outer.now.levels.now)) (data_of (out-Group group.now)) }
    ensures value { Evaluates (result_map (names_with_level outer.now) result)
        (names_in_object (map dataset_of outer.now.sources.now) (names_over outer.now parts) (object_here (out-Group group.now))) }
    ensures rows { IfOk result (λ level. AreAllRows (rows_with_level outer.now level)) }
    ensures parts { IfOk result (λ level. level.parts ≡ parts) }
    ensures folds { (products : Products) → AllKeysFit products (parts_over parts (rows_at outer.now.sources.now outer.now.levels.now))
        → IfOk result (λ level. AllKeysFit (products_after products (data_of (out-Group group.now))) (rows_with_level outer.now level)) }
{
    let given = written(alloc, signals_of(group))?;
    level_with(alloc, outer, group, parts, given.as_slice())
}

/// Levels of names with one more inside.
pub fn with_level<'a>(
    alloc: Global,
    level: &'a Level,
    outer: &[&'a Level],
) -> Result<Seq<&'a Level>, OutOfMemory>
    ensures { IfOk result (λ levels. map (λ l. l.now) levels ≡ level.now ∷ map (λ l. l.now) outer.now) }
{
    let mut levels = Seq::with_capacity(alloc, outer.len() + 1)?;
    levels.push(level)?;
    for other in outer {
        levels.push(*other)?;
    }
    Ok(levels)
}
