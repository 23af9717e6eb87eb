// What scales scale.
ghost use Rattle.std.specs.Prelude.{◌≡◌, IfOk};
ghost use Rattle.vega_scales.specs.Scales.{domain_size};

use cell_value::Cell;
use fixed_num::Num;
use std::alloc::Global;
use text_kit::{OutOfMemory, Seq, copy_list};

/// What a scale scales: the domain that its cells or its numbers give.
#[derive(Debug, Drop)]
pub enum Scaled {
    /// The cells of a discrete scale.
    Cells(Seq<Cell>),
    /// The numbers between which another runs, the least first.
    Between(Num, Num),
}

impl Scaled {
    /// A copy.
    pub fn copy(&self, alloc: Global) -> Result<Scaled, OutOfMemory>
        ensures { IfOk result (λ copy. copy ≡ self.now) }
    {
        match self {
            Scaled::Cells(cells) => Ok(Scaled::Cells(copy_list(alloc, cells.as_slice())?)),
            Scaled::Between(d0, d1) => Ok(Scaled::Between(*d0, *d1)),
        }
    }
}

/// How many cells a domain has, and 2 for one between numbers.
pub fn domain_size(domain: &Scaled) -> u64
    ensures { result ≡ domain_size domain.now }
{
    match domain {
        Scaled::Cells(cells) => cells.len() as u64,
        Scaled::Between(_, _) => 2,
    }
}
