// The facts of copies: all that a drawing asks of rows beside its items.
ghost use Rattle.std.specs.Prelude.{◌≡◌, ◌∷◌, [], None, not, true, All, IfOk, IsTrue, map};
ghost use Rattle.std.specs.List.{AllZip};
ghost use Rattle.cell_value.specs.State.{dataset_of};
ghost use Rattle.expr_eval.specs.Answers.{Evaluates};
ghost use Rattle.expr_eval.specs.Stores.{values_of_stores};
ghost use Rattle.fixed_num.specs.Ranges.{all_found};
ghost use Rattle.vega_signals.specs.Lacking.{lacks};
ghost use Rattle.vega_scales.specs.Scales.{is_built, FitsScale};
ghost use Rattle.vega_spec.specs.declared.spec.Group.{out-Group};
ghost use Rattle.vega_spec.specs.declared.spec.VgMark.{out-VgMark};
ghost use Rattle.vega_copies.specs.declared.made.CopyMade.{out-CopyMade};
ghost use Rattle.vega_copies.specs.inner.Kept.{KeepsObject};
ghost use Rattle.vega_copies.specs.Facts.{facts_here, found_in, facts_of};
ghost use Rattle.vega_copies.specs.Outlines.{object_here};
ghost use Rattle.vega_copies.specs.Scopes.{keeps_signals};
ghost use Rattle.vega_copies.specs.inner.Counted.{Stops};
ghost use Rattle.vega_copies.specs.inner.FactsMade.{domain_at, copy_found_at, copy_found_in, facts_over, lists_on, own_with, top_made};
ghost use Rattle.vega_copies.specs.inner.FactsMade.{CopyHasFacts, HasFacts, IsFactsOf, IsNoFacts, IsOwn, OneHasFacts};
ghost use Rattle.vega_copies.specs.inner.FactsSeen.{copy_seen, FactsFit};
ghost use Rattle.vega_copies.specs.inner.Levels.{names_at, rows_at, values_at, AreNames, AreLevels};
ghost use Rattle.vega_copies.specs.inner.Made.{levels_behind, made_seen, HaveCopies, IsCopyMade, OneMade};
ghost use Rattle.vega_copies.specs.inner.Outlined.{is_group, marks_in, marks_of};
ghost use Rattle.vega_copies.specs.inner.Results.{result_map};
ghost use Rattle.vega_copies.specs.inner.Standing.{MayStand};

use crate::found::push_found;
use crate::levels::with_level;
use crate::made::{CopiesMade, CopyMade};
use crate::marks::{is_group, marks_in};
use crate::names::{Level, NamesAt, lacks_at};
use crate::objects::scales_in;
use cell_value::{Cell, Named};
use expr_eval::{EvalError, Stores};
use std::alloc::Global;
use text_kit::{Copies, OutOfMemory, Seq, Text, copy_list};
use vega_scales::{Scaled, domain_of};
use vega_signals::signals_of;
use vega_spec::{Group, Scale, Signal, VgMark};

/// One step from a copy of an object to a copy in it.
#[derive(Clone, Copy, Debug, PartialEq, Eq)]
pub struct Step {
    /// The place of the group among the marks of the object, from 0 on.
    pub mark: usize,
    /// The place of the copy among those of the group, from 0 on.
    pub copy: usize,
}

/// What comes of rows in one copy of an object: no row is among it.
#[cycle(facts)]
#[derive(Drop)]
pub struct CopyFacts {
    /// The fields of its own facet with their cells; None where it has no facet.
    pub cells: Option<Seq<(Text, Cell)>>,
    /// Its own signals with their values.
    pub signals: Seq<(Text, Option<Cell>)>,
    /// What each of its own scales scales, in their order.
    pub domains: Seq<Scaled>,
    /// What was found of each mark in it.
    pub inside: Seq<MarkFacts>,
}

/// What was found of a mark: the copies of a group, and nothing of another mark.
#[cycle(facts)]
#[derive(Drop)]
pub struct MarkFacts {
    /// The copies, in their order.
    pub copies: Seq<CopyFacts>,
    /// How many stand side by side, where the facet crosses two fields.
    pub across: Option<u64>,
}

// Whether a signal has a value.
#[tactic(auto, using(crate::proofs::NameLemmas::lacks_the_same))]
fn has_value(names: &NamesAt, signal: &Signal) -> bool
    ensures { result ≡ not (lacks (values_at names.now.stores.now names.now.levels.now) signal.now.name) }
{
    !lacks_at(names.levels, signal.name.as_str())
}

// Whether each own signal of an object has a value in a copy of it.
fn keeps_own(names: &NamesAt, group: &Group) -> bool
    ensures { result ≡ keeps_signals (names_at names.now.stores.now names.now.sources.now names.now.levels.now) (object_here (out-Group group.now)) }
{
    signals_of(group)
        .iter()
        .all(|signal| has_value(names, signal))
}

// What a scale scales in a copy of the object that has it.
fn domain_at(alloc: Global, names: &NamesAt, scale: &Scale) -> Result<Scaled, EvalError>
    requires names { AreNames names.now }
    requires built { IsTrue (is_built scale.now) }
    ensures value { Evaluates result (domain_at (names_at names.now.stores.now names.now.sources.now names.now.levels.now) scale.now) }
    ensures fits { IfOk result (FitsScale scale.now) }
{
    let lists = *names;
    domain_of(alloc, scale, &lists, names)
}

// What each of some scales scales, in their order.
fn domains_at(alloc: Global, names: &NamesAt, scales: &[Scale]) -> Result<Seq<Scaled>, EvalError>
    requires names { AreNames names.now }
    requires built { All (λ s. IsTrue (is_built s)) scales.now }
    ensures value { Evaluates result (all_found (map (domain_at (names_at names.now.stores.now names.now.sources.now names.now.levels.now)) scales.now)) }
    ensures fits { IfOk result (λ domains. AllZip FitsScale scales.now domains) }
{
    let mut domains = Seq::with_capacity(alloc, scales.len())?;
    for scale in scales {
        match push_found(domain_at(alloc, names, scale), &mut domains) {
            Ok(()) => {}
            Err(error) => return Err(error),
        }
    }
    Ok(domains)
}

// What was found of a mark other than a group.
fn no_facts(alloc: Global) -> MarkFacts
    ensures { IsNoFacts result }
{
    MarkFacts {
        copies: Seq::new(alloc),
        across: None,
    }
}

// What comes of rows in one copy of an object beside the copies in it.
#[derive(Drop)]
struct OwnFacts {
    // The fields of its own facet with their cells.
    cells: Option<Seq<(Text, Cell)>>,
    // Its own signals with their values.
    signals: Seq<(Text, Option<Cell>)>,
    // What each of its own scales scales.
    domains: Seq<Scaled>,
}

// The same of its parts.
fn own_with(
    alloc: Global,
    signals: &[(Text, Option<Cell>)],
    cells: &Option<Seq<(Text, Cell)>>,
    domains: Seq<Scaled>,
) -> Result<OwnFacts, OutOfMemory>
    ensures { IfOk result (λ own. own ≡ own_with signals.now cells.now domains) }
{
    Ok(OwnFacts {
        cells: cells.copied(alloc)?,
        signals: copy_list(alloc, signals)?,
        domains,
    })
}

// The same of a copy whose own signals have these values, and which has these cells, where each of its signals has a value.
fn own_kept(
    alloc: Global,
    names: &NamesAt,
    group: &Group,
    signals: &[(Text, Option<Cell>)],
    cells: &Option<Seq<(Text, Cell)>>,
) -> Result<OwnFacts, EvalError>
    requires names { AreNames names.now }
    requires object { KeepsObject (object_here (out-Group group.now)) }
    requires kept { keeps_signals (names_at names.now.stores.now names.now.sources.now names.now.levels.now) (object_here (out-Group group.now)) ≡ true }
    ensures stops { Stops result
        (facts_here cells.now (object_here (out-Group group.now)) (names_at names.now.stores.now names.now.sources.now names.now.levels.now)) }
    ensures own { IfOk result
        (IsOwn (object_here (out-Group group.now)) (names_at names.now.stores.now names.now.sources.now names.now.levels.now) signals.now cells.now) }
{
    match domains_at(alloc, names, scales_in(group)) {
        Ok(domains) => Ok(own_with(alloc, signals, cells, domains)?),
        Err(error) => Err(error),
    }
}

// The same, if each of its signals has one.
fn own_facts(
    alloc: Global,
    names: &NamesAt,
    group: &Group,
    signals: &[(Text, Option<Cell>)],
    cells: &Option<Seq<(Text, Cell)>>,
) -> Result<OwnFacts, EvalError>
    requires names { AreNames names.now }
    requires object { KeepsObject (object_here (out-Group group.now)) }
    ensures stops { Stops result
        (facts_here cells.now (object_here (out-Group group.now)) (names_at names.now.stores.now names.now.sources.now names.now.levels.now)) }
    ensures own { IfOk result
        (IsOwn (object_here (out-Group group.now)) (names_at names.now.stores.now names.now.sources.now names.now.levels.now) signals.now cells.now) }
{
    if keeps_own(names, group) {
        own_kept(alloc, names, group, signals, cells)
    } else {
        Err(EvalError::Overflow)
    }
}

// The facts of a copy of an object, where this was found of the marks in it.
fn facts_over(
    own: OwnFacts,
    found: Result<Seq<MarkFacts>, EvalError>,
) -> Result<CopyFacts, EvalError>
    ensures { result ≡ result_map (facts_over own) found }
{
    let OwnFacts {
        cells,
        signals,
        domains,
    } = own;
    match found {
        Ok(inside) => Ok(CopyFacts {
            cells,
            signals,
            domains,
            inside,
        }),
        Err(error) => Err(error),
    }
}

// What was found of each of some marks.
#[cycle(finding)]
fn facts_inside(
    alloc: Global,
    names: &NamesAt,
    marks: &[VgMark],
    made: &[CopiesMade],
) -> Result<Seq<MarkFacts>, EvalError>
    requires names { AreNames names.now }
    requires marks { HaveCopies names.now.stores.now names.now.sources.now names.now.levels.now marks.now made.now }
    ensures stops { Stops result (found_in (map dataset_of names.now.sources.now) (marks_of marks.now)
        (names_at names.now.stores.now names.now.sources.now names.now.levels.now)) }
    ensures facts { IfOk result (HasFacts names.now.stores.now names.now.sources.now (marks_of marks.now) (levels_behind names.now.levels.now) made.now) }
{
    let mut facts = Seq::with_capacity(alloc, marks.len())?;
    let mut at = 0;
    for mark in marks {
        match push_found(facts_of_mark(alloc, names, mark, &made[at]), &mut facts) {
            Ok(()) => {}
            Err(error) => return Err(error),
        }
        at += 1;
    }
    Ok(facts)
}

// What was found of a mark.
#[cycle(finding)]
fn facts_of_mark(
    alloc: Global,
    names: &NamesAt,
    mark: &VgMark,
    made: &CopiesMade,
) -> Result<MarkFacts, EvalError>
    requires names { AreNames names.now }
    requires marks { MayStand (rows_at names.now.sources.now names.now.levels.now) (mark.now ∷ []) }
    requires made { OneMade names.now.stores.now names.now.sources.now (levels_behind names.now.levels.now) mark.now made.now }
    ensures stops { Stops result (found_in (map dataset_of names.now.sources.now) (marks_of (mark.now ∷ []))
        (names_at names.now.stores.now names.now.sources.now names.now.levels.now)) }
    ensures facts { IfOk result (OneHasFacts names.now.stores.now names.now.sources.now (levels_behind names.now.levels.now) mark.now made.now) }
{
    if is_group(mark) {
        facts_of_group(alloc, names, mark, made)
    } else {
        Ok(no_facts(alloc))
    }
}

// The facts of the copies of a group.
#[cycle(finding)]
fn facts_of_group(
    alloc: Global,
    names: &NamesAt,
    mark: &VgMark,
    made: &CopiesMade,
) -> Result<MarkFacts, EvalError>
    requires names { AreNames names.now }
    requires marks { MayStand (rows_at names.now.sources.now names.now.levels.now) (mark.now ∷ []) }
    requires made { OneMade names.now.stores.now names.now.sources.now (levels_behind names.now.levels.now) mark.now made.now }
    requires group { is_group (out-VgMark mark.now) ≡ true }
    ensures stops { Stops result (found_in (map dataset_of names.now.sources.now) (marks_of (mark.now ∷ []))
        (names_at names.now.stores.now names.now.sources.now names.now.levels.now)) }
    ensures facts { IfOk result (OneHasFacts names.now.stores.now names.now.sources.now (levels_behind names.now.levels.now) mark.now made.now) }
{
    let copies = made.copies.as_slice();
    let mut facts = Seq::with_capacity(alloc, copies.len())?;
    for copy in copies {
        match push_found(facts_of_copy(alloc, names, mark, copy), &mut facts) {
            Ok(()) => {}
            Err(error) => return Err(error),
        }
    }
    Ok(MarkFacts {
        copies: facts,
        across: made.across,
    })
}

// The facts of a copy of a group.
#[cycle(finding)]
fn facts_of_copy(
    alloc: Global,
    outer: &NamesAt,
    mark: &VgMark,
    copy: &CopyMade,
) -> Result<CopyFacts, EvalError>
    requires names { AreNames outer.now }
    requires marks { MayStand (rows_at outer.now.sources.now outer.now.levels.now) (mark.now ∷ []) }
    requires copy { IsCopyMade outer.now.stores.now outer.now.sources.now (levels_behind outer.now.levels.now) (out-VgMark mark.now) copy.now }
    requires group { is_group (out-VgMark mark.now) ≡ true }
    ensures stops { Stops result (copy_found_in (map dataset_of outer.now.sources.now) (out-VgMark mark.now)
        (names_at outer.now.stores.now outer.now.sources.now outer.now.levels.now) (made_seen copy.now)) }
    ensures facts { IfOk result (CopyHasFacts outer.now.stores.now outer.now.sources.now (levels_behind outer.now.levels.now) (out-VgMark mark.now) copy.now) }
{
    let levels = with_level(alloc, &copy.level, outer.levels)?;
    facts_entered(
        alloc,
        outer.stores,
        outer.sources,
        levels.as_slice(),
        mark,
        copy,
    )
}

// The same where these are the levels of names in it.
#[cycle(finding)]
fn facts_entered<'x>(
    alloc: Global,
    stores: &'x Stores<'x>,
    sources: &'x [Named],
    levels: &'x [&'x Level],
    mark: &VgMark,
    copy: &CopyMade,
) -> Result<CopyFacts, EvalError>
    requires names { AreLevels sources.now levels.now }
    requires object { KeepsObject (object_here (out-Group (out-VgMark mark.now).group)) }
    requires marks { HaveCopies stores.now sources.now levels.now (marks_in (out-Group (out-VgMark mark.now).group)) (out-CopyMade copy.now).inside }
    ensures stops { Stops result (copy_found_at (map dataset_of sources.now) (out-CopyMade copy.now).cells
        (object_here (out-Group (out-VgMark mark.now).group)) (marks_of (marks_in (out-Group (out-VgMark mark.now).group)))
        (names_at stores.now sources.now levels.now)) }
    ensures facts { IfOk result (IsFactsOf stores.now sources.now (object_here (out-Group (out-VgMark mark.now).group))
        (HasFacts stores.now sources.now (marks_of (marks_in (out-Group (out-VgMark mark.now).group)))) (levels_behind levels.now)
        (out-CopyMade copy.now).level.signals (out-CopyMade copy.now).cells (out-CopyMade copy.now).inside) }
{
    let names = NamesAt {
        stores,
        sources,
        levels,
    };
    match own_facts(
        alloc,
        &names,
        &mark.group,
        copy.level.signals.as_slice(),
        &copy.cells,
    ) {
        Ok(own) => facts_over(
            own,
            facts_inside(alloc, &names, marks_in(&mark.group), copy.inside.as_slice()),
        ),
        Err(error) => Err(error),
    }
}

/// The facts of the top, as the one copy of itself, and of all copies in it, where it gives these names, and these copies were made of its
/// marks. `Overflow` comes exactly where one of the signals of a copy has no value, or a domain of its scales is out of range. The time is
/// near linear, for each copy, in the rows that the domains of its scales read.
pub fn facts_of(
    alloc: Global,
    names: &NamesAt,
    level: &Level,
    group: &Group,
    made: &[CopiesMade],
) -> Result<CopyFacts, EvalError>
    requires names { AreNames names.now }
    requires object { KeepsObject (object_here (out-Group group.now)) }
    requires marks { HaveCopies names.now.stores.now names.now.sources.now names.now.levels.now (marks_in (out-Group group.now)) made.now }
    requires level { levels_behind names.now.levels.now ≡ level.now ∷ [] }
    ensures value { Evaluates (result_map
        (λ facts. copy_seen (lists_on names.now.sources.now (top_made level.now made.now)) facts [] (values_of_stores names.now.stores.now)) result)
        (facts_of (map dataset_of names.now.sources.now) (object_here (out-Group group.now)) (marks_of (marks_in (out-Group group.now)))
        (names_at names.now.stores.now names.now.sources.now names.now.levels.now)) }
    ensures fits { IfOk result (FactsFit (object_here (out-Group group.now)) (marks_of (marks_in (out-Group group.now)))) }
{
    match own_facts(alloc, names, group, level.signals.as_slice(), &None) {
        Ok(own) => facts_over(own, facts_inside(alloc, names, marks_in(group), made)),
        Err(error) => Err(error),
    }
}
