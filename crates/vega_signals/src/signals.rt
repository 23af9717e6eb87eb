// The values of the signals of the top object.
ghost use Rattle.std.specs.Prelude.{◌≡◌, [], IfOk, All, map};
ghost use Rattle.fixed_num.specs.Ranges.{all_found};
ghost use Rattle.cell_value.specs.State.{dataset_of};
ghost use Rattle.expr_eval.specs.Answers.{Evaluates};
ghost use Rattle.vega_spec.specs.declared.spec.Group.{out-Group};
ghost use Rattle.vega_lists.specs.Transforms.{is_kept, OfTransforms};
ghost use Rattle.vega_lists.specs.Products.{FoldsFit, no_folds};
ghost use Rattle.vega_lists.specs.Held.{AreSources};
ghost use Rattle.vega_signals.specs.Signals.{data_of, settled_values, signal_values, valued_here};

use crate::inside::settled_value;
use crate::rounds::{own_values, signals_of};
use cell_value::{Cell, Keyed, Named};
use expr_eval::{EvalError, ParamReader};
use std::alloc::Global;
use text_kit::{OutOfMemory, Seq, Text};
use vega_lists::ListReader;
use vega_spec::Group;

// A copy of a signal with its value. `Overflow` comes exactly where it has none.
fn valued_here(entry: &(Text, Option<Cell>)) -> Result<(Text, Cell), EvalError>
    ensures { Evaluates result (valued_here entry.now) }
{
    match settled_value(&entry.1) {
        Ok(cell) => Ok((entry.0.copy()?, cell)),
        Err(error) => Err(error),
    }
}

// Copies of signals with their values.
fn all_valued(
    alloc: Global,
    settled: &[(Text, Option<Cell>)],
) -> Result<Seq<(Text, Cell)>, EvalError>
    ensures { Evaluates result (all_found (map valued_here settled.now)) }
{
    let mut out = Seq::with_capacity(alloc, settled.len())?;
    for entry in settled {
        match valued_here(entry) {
            Ok(valued) => out.push(valued)?,
            Err(error) => return Err(error),
        }
    }
    Ok(out)
}

// No lists.
#[derive(Clone, Copy)]
struct NoLists;

impl ListReader for NoLists {
    ghost named = { λ _ name. [] };

    fn rows<'a>(&'a self, alloc: Global, _: &str) -> Result<Seq<&'a Keyed>, OutOfMemory> {
        Ok(Seq::new(alloc))
    }
}

// The values at which the signals of the top object settle.
fn settled_values<P: ParamReader>(
    alloc: Global,
    stores: &P,
    top: &Group,
    sources: &[Named],
    params: &[(Text, Cell)],
) -> Result<Seq<(Text, Option<Cell>)>, OutOfMemory>
    requires sources { AreSources sources.now }
    requires kept { All (OfTransforms is_kept) (data_of (out-Group top.now)) }
    requires folds { FoldsFit no_folds (data_of (out-Group top.now)) }
    ensures { IfOk result (λ settled. settled ≡ settled_values (P.values stores.now) (out-Group top.now) (map dataset_of sources.now) params.now) }
{
    let sets = crate::rounds::data_of(top);
    own_values(
        alloc,
        sources,
        &NoLists,
        stores,
        params,
        signals_of(top),
        sets,
    )
}

/// The values of the signals of a specification's top object, each by its name: first the settable ones as they are given in `params`,
/// then the computed ones by their updates, then those of extents: the least and the greatest number of their field over the rows
/// before them, null where there is no number. `stores` is what is read of the stores of selections. Signals may need each other in any
/// order, and none needs itself. What isn't a signal reads as null, and so does a selection. `Overflow` comes exactly where a computed
/// signal overflows. A transform that overflows on the way counts as leaving no rows. The sources are those of a state, a lookup has as many
/// names as values, bins of a given width are over 0 wide, and on no path do folds multiply rows by more than 8.
pub fn signal_values<P: ParamReader>(
    alloc: Global,
    stores: &P,
    top: &Group,
    sources: &[Named],
    params: &[(Text, Cell)],
) -> Result<Seq<(Text, Cell)>, EvalError>
    requires sources { AreSources sources.now }
    requires kept { All (OfTransforms is_kept) (data_of (out-Group top.now)) }
    requires folds { FoldsFit no_folds (data_of (out-Group top.now)) }
    ensures { Evaluates result (signal_values (P.values stores.now) (out-Group top.now) (map dataset_of sources.now) params.now) }
{
    let settled = settled_values(alloc, stores, top, sources, params)?;
    all_valued(alloc, settled.as_slice())
}
