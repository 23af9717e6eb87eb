// What a definition says of its scale.
ghost use Rattle.std.specs.Prelude.{◌≡◌, map, IfOk};
ghost use Rattle.scale_infer.specs.Said.{nothing_said, scale_said, said_of, is_unbound, first_given};

use crate::types::{is_binned, is_quantitative, scale_in, type_of};
use fixed_num::Num;
use std::alloc::Global;
use text_kit::{OutOfMemory, Seq};
use vl_spec::{Definition, FieldType, Scale};

/// What a definition says of its scale.
#[derive(Clone, Copy)]
pub struct Said {
    /// What kind of cells there are.
    pub type_: FieldType,
    /// Whether they are bins.
    pub is_binned: bool,
    /// Whether the domain is given, by a list or by a selection.
    pub has_domain: bool,
    /// The code of the scale's type among `case_table::SCALE_KINDS`.
    pub kind: Option<u16>,
    /// Whether the domain takes in 0.
    pub zero: Option<bool>,
    /// Whether it ends at round numbers.
    pub nice: Option<bool>,
    /// The padding of bands or points.
    pub padding: Option<Num>,
    /// The padding between bands.
    pub padding_inner: Option<Num>,
    /// The padding round all bands or points.
    pub padding_outer: Option<Num>,
}

// What a definition without `scale` says.
fn nothing_said(type_: FieldType, is_binned: bool) -> Said
    ensures { result ≡ nothing_said type_ is_binned }
{
    Said {
        type_,
        is_binned,
        has_domain: false,
        kind: None,
        zero: None,
        nice: None,
        padding: None,
        padding_inner: None,
        padding_outer: None,
    }
}

// What one with a `scale` says.
fn scale_said(type_: FieldType, is_binned: bool, scale: &Scale) -> Said
    ensures { result ≡ scale_said type_ is_binned scale.now }
{
    Said {
        type_,
        is_binned,
        has_domain: scale.domain.is_some(),
        kind: scale.type_,
        zero: scale.zero,
        nice: scale.nice,
        padding: scale.padding,
        padding_inner: scale.padding_inner,
        padding_outer: scale.padding_outer,
    }
}

/// What a definition says.
pub(crate) fn said_of(definition: &Definition) -> Said
    ensures { result ≡ said_of definition.now }
{
    match scale_in(definition) {
        Some(scale) => scale_said(type_of(definition), is_binned(definition), scale),
        None => nothing_said(type_of(definition), is_binned(definition)),
    }
}

/// What definitions say.
pub(crate) fn said_by(alloc: Global, definitions: &[&Definition]) -> Result<Seq<Said>, OutOfMemory>
    ensures { IfOk result (λ said. said ≡ map said_of (map (λ definition. definition.now) definitions.now)) }
{
    let mut said = Seq::new(alloc);
    for definition in definitions {
        said.push(said_of(definition))?;
    }
    Ok(said)
}

/// Whether they are numbers that aren't bins and whose domain isn't given.
pub(crate) fn is_unbound(said: &Said) -> bool
    ensures { result ≡ is_unbound said.now }
{
    is_quantitative(said.type_) && (!said.is_binned && !said.has_domain)
}

/// The first `zero` that is given.
pub(crate) fn first_zero(said: &[Said]) -> Option<bool>
    ensures { result ≡ first_given (λ s. s.zero) said.now }
{
    for one in said {
        match one.zero {
            Some(given) => return Some(given),
            None => {}
        }
    }
    None
}

/// The first `nice` that is given.
pub(crate) fn first_nice(said: &[Said]) -> Option<bool>
    ensures { result ≡ first_given (λ s. s.nice) said.now }
{
    for one in said {
        match one.nice {
            Some(given) => return Some(given),
            None => {}
        }
    }
    None
}

/// The first `padding` that is given.
pub(crate) fn first_padding(said: &[Said]) -> Option<Num>
    ensures { result ≡ first_given (λ s. s.padding) said.now }
{
    for one in said {
        match one.padding {
            Some(given) => return Some(given),
            None => {}
        }
    }
    None
}

/// The first `paddingInner` that is given.
pub(crate) fn first_inner(said: &[Said]) -> Option<Num>
    ensures { result ≡ first_given (λ s. s.padding_inner) said.now }
{
    for one in said {
        match one.padding_inner {
            Some(given) => return Some(given),
            None => {}
        }
    }
    None
}

/// The first `paddingOuter` that is given.
pub(crate) fn first_outer(said: &[Said]) -> Option<Num>
    ensures { result ≡ first_given (λ s. s.padding_outer) said.now }
{
    for one in said {
        match one.padding_outer {
            Some(given) => return Some(given),
            None => {}
        }
    }
    None
}
