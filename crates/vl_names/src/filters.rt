//! Unknown names in filters.
ghost use Rattle.std.specs.Prelude.{◌≡◌, codes, map, not, OnOk};
ghost use Rattle.vl_names.specs.Filters.{each_item, filter_faults, param_test_faults};
ghost use Rattle.vl_names.specs.Known.{knows};
ghost use Rattle.vl_names.specs.inner.Looked.{known_shown};
ghost use Rattle.vl_trails.specs.Faults.{wrong_if};
ghost use Rattle.vl_trails.specs.Judging.{after};
ghost use Rattle.vl_trails.specs.Trails.{to_item, to_member};

use crate::known::{ParamNames, knows, knows_param};
use expr_syntax::Expr;
use spec_schema::SpecKind;
use std::alloc::Global;
use text_kit::OutOfMemory;
use vl_spec::{Filter, ParamTest};
use vl_trails::Judging;

// Judges an expression where one is: it is wrong if it mentions an unknown name.
fn judge_expression(
    alloc: Global,
    known: &ParamNames,
    e: &Expr,
    j: &mut Judging,
) -> Result<(), OutOfMemory>
    ensures { OnOk result (j.new ≡ after j.old (wrong_if (not (knows (known_shown known.now) e.now)) j.old.trail)) }
{
    let knows = knows(alloc, known, e)?;
    j.judge(alloc, !knows, SpecKind::Wrong)
}

/// Judges a test by a parameter, which is wrong at its `param` if that is unknown.
pub fn judge_param_test(
    alloc: Global,
    known: &ParamNames,
    test: &ParamTest,
    j: &mut Judging,
) -> Result<(), OutOfMemory>
    ensures { OnOk result (j.new ≡ after j.old (param_test_faults (known_shown known.now) test.now j.old.trail)) }
{
    let knows = knows_param(alloc, known, test.param.as_str())?;
    j.judge_member(alloc, "param", !knows, SpecKind::Wrong)
}

/// Judges the names in a filter where one is.
#[cycle(filters)]
pub fn judge_filter(
    alloc: Global,
    known: &ParamNames,
    filter: &Filter,
    j: &mut Judging,
) -> Result<(), OutOfMemory>
    ensures { OnOk result (j.new ≡ after j.old (filter_faults (known_shown known.now) filter.now j.old.trail)) }
{
    match filter {
        Filter::Expr(e) => judge_expression(alloc, known, e, j),
        Filter::Param(test) => judge_param_test(alloc, known, test, j),
        Filter::Field(_) => Ok(()),
        Filter::And(filters) => judge_list(alloc, known, "and", filters.as_slice(), j),
        Filter::Or(filters) => judge_list(alloc, known, "or", filters.as_slice(), j),
        Filter::Not(filter) => judge_not(alloc, known, filter.get(), j),
    }
}

// Judges the filter under `not`.
#[cycle(filters)]
#[tactic(auto, using(vl_trails::proofs::WayLemmas::there_and_back))]
fn judge_not(
    alloc: Global,
    known: &ParamNames,
    filter: &Filter,
    j: &mut Judging,
) -> Result<(), OutOfMemory>
    ensures { OnOk result (j.new ≡ after j.old (filter_faults (known_shown known.now) filter.now (to_member j.old.trail (codes "not")))) }
{
    j.enter(alloc, "not")?;
    judge_filter(alloc, known, filter, j)?;
    j.leave();
    Ok(())
}

// Judges the filters of the list under a name.
#[cycle(filters)]
#[tactic(auto, using(vl_trails::proofs::WayLemmas::there_and_back))]
fn judge_list(
    alloc: Global,
    known: &ParamNames,
    name: &str,
    filters: &[Filter],
    j: &mut Judging,
) -> Result<(), OutOfMemory>
    ensures { OnOk result (j.new
        ≡ after j.old (each_item (map (filter_faults (known_shown known.now)) filters.now) (to_member j.old.trail name.now))) }
{
    j.enter(alloc, name)?;
    judge_items(alloc, known, filters, j)?;
    j.leave();
    Ok(())
}

// Judges the filters of a list where one is.
#[cycle(filters)]
fn judge_items(
    alloc: Global,
    known: &ParamNames,
    filters: &[Filter],
    j: &mut Judging,
) -> Result<(), OutOfMemory>
    ensures { OnOk result (j.new ≡ after j.old (each_item (map (filter_faults (known_shown known.now)) filters.now) j.old.trail)) }
{
    for (number, filter) in filters.iter().enumerate() {
        judge_item(alloc, known, number, filter, j)?;
    }
    Ok(())
}

// Judges an item of a list of filters.
#[cycle(filters)]
#[tactic(auto, using(vl_trails::proofs::WayLemmas::there_and_back))]
fn judge_item(
    alloc: Global,
    known: &ParamNames,
    number: usize,
    filter: &Filter,
    j: &mut Judging,
) -> Result<(), OutOfMemory>
    ensures { OnOk result (j.new ≡ after j.old (filter_faults (known_shown known.now) filter.now (to_item j.old.trail number))) }
{
    j.enter_item(number)?;
    judge_filter(alloc, known, filter, j)?;
    j.leave();
    Ok(())
}
