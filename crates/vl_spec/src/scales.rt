// Scales.
use cell_value::Cell;
use fixed_num::Num;
use std::alloc::Global;
use text_kit::{Copies, OutOfMemory, Seq, Text, copied_two};

/// What is said of a scale.
pub struct Scale {
    /// The code of its type among `case_table::SCALE_KINDS`.
    pub type_: Option<u16>,
    /// The cells that it takes in.
    pub domain: Option<Domain>,
    /// What it gives.
    pub range: Option<Seq<Cell>>,
    /// The colours that it gives.
    pub scheme: Option<Scheme>,
    /// Whether its domain takes in 0.
    pub zero: Option<bool>,
    /// Whether its domain ends at round numbers.
    pub nice: Option<bool>,
    /// The padding of bands or points, as a part of a step.
    pub padding: Option<Num>,
    /// The padding between bands.
    pub padding_inner: Option<Num>,
    /// The padding round all bands or points.
    pub padding_outer: Option<Num>,
    /// Whether its range is turned round.
    pub reverse: Option<bool>,
}

/// The domain of a scale.
pub enum Domain {
    /// A list of cells.
    Cells(Seq<Cell>),
    /// What a selection keeps.
    Param(ParamDomain),
}

/// The domain that a selection gives.
pub struct ParamDomain {
    /// The selection.
    pub param: Text,
    /// The code of the channel whose extent counts, among `case_table::CHANNELS`.
    pub encoding: Option<u16>,
}

/// A colour scheme.
#[derive(Clone, Copy)]
pub enum Scheme {
    /// `tableau10`
    Tableau10,
    /// `blues`
    Blues,
}

impl Drop for Scale {
    fn drop(self) {
        let Scale {
            type_: _,
            domain: _,
            range: _,
            scheme: _,
            zero: _,
            nice: _,
            padding: _,
            padding_inner: _,
            padding_outer: _,
            reverse: _,
        } = self;
    }
}

impl Drop for Domain {
    fn drop(self) {
        match self {
            Domain::Cells(_) => {}
            Domain::Param(_) => {}
        }
    }
}

impl Drop for ParamDomain {
    fn drop(self) {
        let ParamDomain {
            param: _,
            encoding: _,
        } = self;
    }
}

impl Copies for Scale {
    fn copied(&self, alloc: Global) -> Result<Scale, OutOfMemory> {
        let (range, domain) = copied_two(alloc, &self.range, &self.domain)?;
        Ok(Scale {
            type_: self.type_,
            domain,
            range,
            scheme: self.scheme,
            zero: self.zero,
            nice: self.nice,
            padding: self.padding,
            padding_inner: self.padding_inner,
            padding_outer: self.padding_outer,
            reverse: self.reverse,
        })
    }
}

impl Copies for Domain {
    fn copied(&self, alloc: Global) -> Result<Domain, OutOfMemory> {
        match self {
            Domain::Cells(cells) => Ok(Domain::Cells(cells.copied(alloc)?)),
            Domain::Param(of) => Ok(Domain::Param(ParamDomain {
                param: of.param.copy()?,
                encoding: of.encoding,
            })),
        }
    }
}
