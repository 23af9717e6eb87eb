// Which parameters are selections.
ghost use Rattle.std.specs.Prelude.{◌≡◌, IfOk};
ghost use Rattle.unit_plan.specs.Selections.{is_select, is_selection};
ghost use Rattle.unit_plan.specs.inner.Kinds.{AreKinds};

use std::alloc::Global;
use std::collections::BTreeMap;
use text_kit::OutOfMemory;
use vl_spec::{ParamKind, ParamOf};

/// The parameters by their names, to find which are selections.
#[derive(Drop)]
pub struct SelectionNames<'a> {
    pub params: &'a [ParamOf],
    kinds: BTreeMap<&'a str, bool>,
    ghost right: { AreKinds params.now kinds },
}

// Whether a parameter is a selection.
fn is_select(kind: &ParamKind) -> bool
    ensures { result ≡ is_select kind.now }
{
    match kind {
        ParamKind::Select(_) => true,
        ParamKind::Value(_) | ParamKind::Expr(_) => false,
    }
}

// Whether parameters are selections, by their names.
fn kinds_of<'a>(
    alloc: Global,
    params: &'a [ParamOf],
) -> Result<BTreeMap<&'a str, bool>, OutOfMemory>
    ensures { IfOk result (AreKinds params.now) }
{
    let mut kinds = BTreeMap::new(alloc);
    for param in params {
        kinds.insert(param.name.as_str(), is_select(&param.kind))?;
    }
    Ok(kinds)
}

/// The parameters by their names: of several of one name the last counts, of which an accepted specification has none.
pub fn selection_names<'a>(
    alloc: Global,
    params: &'a [ParamOf],
) -> Result<SelectionNames<'a>, OutOfMemory>
    ensures { IfOk result (λ names. names.params.now ≡ params.now) }
{
    let kinds = kinds_of(alloc, params)?;
    Ok(SelectionNames { params, kinds })
}

impl<'a> SelectionNames<'a> {
    /// Whether the parameter of a name is a selection.
    pub fn is_selection(&self, name: &str) -> bool
        ensures { result ≡ is_selection self.now.params.now name.now }
    {
        match self.kinds.get(name) {
            Some(is) => *is,
            None => false,
        }
    }
}
