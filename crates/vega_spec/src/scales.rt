// Scales.
use crate::Domain;
use crate::copying::{beside_copy, copied_expr};
use cell_value::Cell;
use expr_syntax::Expr;
use fixed_num::Num;
use std::alloc::Global;
use text_kit::{Copies, OutOfMemory, Seq, Text, copied_three};

/// A scale.
#[derive(Debug)]
pub struct Scale {
    /// The name.
    pub name: Text,
    /// The code of the type among `case_table::SCALE_KINDS`.
    pub type_: u16,
    /// What is scaled.
    pub domain: Domain,
    /// The expression whose value stands for the domain where it is one.
    pub domain_raw: Option<Expr>,
    /// What it is scaled to.
    pub range: Range,
    /// Whether the domain takes in 0.
    pub zero: Option<bool>,
    /// Whether the domain is widened to round numbers.
    pub nice: Option<bool>,
    /// Whether the range is turned round.
    pub reverse: Option<bool>,
    /// The padding between bands, and before the first and after the last.
    pub padding: Option<Num>,
    /// The padding between bands.
    pub padding_inner: Option<Num>,
    /// The padding before the first band and after the last.
    pub padding_outer: Option<Num>,
}

impl Drop for Scale {
    fn drop(self) {
        let Scale {
            name,
            type_: _,
            domain,
            domain_raw,
            range,
            zero: _,
            nice: _,
            reverse: _,
            padding: _,
            padding_inner: _,
            padding_outer: _,
        } = self;
        drop(name);
        drop(domain);
        drop(domain_raw);
        drop(range);
    }
}

/// The range of a scale.
#[derive(Debug, Drop)]
pub enum Range {
    /// A list; two numbers where the range is from one to the other.
    Cells(Seq<Cell>),
    /// `width`
    Width,
    /// `height`
    Height,
    /// `category`
    Category,
    /// `ramp`
    Ramp,
    /// `symbol`
    Symbol,
}

impl Copies for Scale {
    fn copied(&self, alloc: Global) -> Result<Scale, OutOfMemory> {
        let copies = copied_three(alloc, &self.name, &self.domain, &self.range)?;
        let raw = copied_expr(alloc, &self.domain_raw);
        let ((name, domain, range), domain_raw) = beside_copy(copies, &self.domain_raw, raw)?;
        Ok(Scale {
            name,
            type_: self.type_,
            domain,
            domain_raw,
            range,
            zero: self.zero,
            nice: self.nice,
            reverse: self.reverse,
            padding: self.padding,
            padding_inner: self.padding_inner,
            padding_outer: self.padding_outer,
        })
    }
}

impl Copies for Range {
    fn copied(&self, alloc: Global) -> Result<Range, OutOfMemory> {
        match self {
            Range::Cells(cells) => Ok(Range::Cells(cells.copied(alloc)?)),
            Range::Width => Ok(Range::Width),
            Range::Height => Ok(Range::Height),
            Range::Category => Ok(Range::Category),
            Range::Ramp => Ok(Range::Ramp),
            Range::Symbol => Ok(Range::Symbol),
        }
    }
}
