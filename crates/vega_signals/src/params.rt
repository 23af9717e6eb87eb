// What the expressions of a plot read of parameters and of scales.
ghost use Rattle.std.specs.Prelude.{◌≡◌, IfOk};
ghost use Rattle.vega_signals.specs.Parameters.{value_named, length_named, values_with};

use cell_value::{Cell, Steps};
use expr_eval::{EvalError, ParamReader, RowReader};
use std::alloc::Global;
use std::sync::ledger::Ledger;
use text_kit::{OutOfMemory, Text};

/// The values of parameters, each of which has one, and how long the domains of scales are, each by its name; and what is read of the stores of
/// selections.
#[derive(Drop)]
pub struct PlotParams<'a, P> {
    /// The stores.
    pub stores: &'a P,
    /// The parameters.
    pub params: &'a [(Text, Cell)],
    /// The scales.
    pub lengths: &'a [(Text, u64)],
}

// The value of the first parameter of a name; null where there is none.
fn value_named(params: &[(Text, Cell)], name: &str) -> Result<Cell, OutOfMemory>
    ensures { IfOk result (λ cell. cell ≡ value_named params.now name.now) }
{
    for param in params {
        if param.0.as_str() == name {
            return param.1.copy();
        }
    }
    Ok(Cell::Null)
}

// How long the domain of the first scale of a name is; 0 where there is none.
fn length_named(lengths: &[(Text, u64)], name: &str) -> u64
    ensures { result ≡ length_named lengths.now name.now }
{
    for scale in lengths {
        if scale.0.as_str() == name {
            return scale.1;
        }
    }
    0
}

impl<P: ParamReader> ParamReader for PlotParams<'_, P> {
    ghost values = { λ p. values_with (P.values p.stores.now) p.params.now p.lengths.now };

    fn param(&self, _: Global, name: &str) -> Result<Cell, EvalError> {
        Ok(value_named(self.params, name)?)
    }

    fn member(&self, alloc: Global, name: &str, field: &str) -> Result<Cell, OutOfMemory> {
        self.stores.member(alloc, name, field)
    }

    fn stored(&self, store: &str) -> u64 {
        self.stores.stored(store)
    }

    fn selected<R: RowReader, L: Ledger>(
        &self,
        alloc: Global,
        store: &str,
        row: &R,
        steps: &mut Steps<L>,
    ) -> Result<bool, OutOfMemory> {
        self.stores.selected(alloc, store, row, steps)
    }

    fn domain_length(&self, scale: &str) -> u64 {
        length_named(self.lengths, scale)
    }
}
