// The values at which signals settle: found along an order of their needs, else in rounds, each of which computes all of them.
ghost use Rattle.std.specs.Prelude.{◌≡◌, ◌≤◌, ◌-◌, ◌↔◌, max, length, ◌++◌, [], IsTrue, IfOk, OnOk, All, Some, map, is_some, option_copied, flat_map, IfSome};
ghost use Rattle.cell_value.specs.State.{dataset_of};
ghost use Rattle.expr_eval.specs.Answers.{Evaluates};
ghost use Rattle.vega_spec.specs.declared.spec.Group.{out-Group};
ghost use Rattle.vega_spec.specs.Names.{signals_of};
ghost use Rattle.vega_lists.specs.Transforms.{is_kept, OfTransforms};
ghost use Rattle.vega_lists.specs.Held.{scope_read, AreAllRows, AreLists, AreSources};
ghost use Rattle.vega_signals.specs.Outer.{ListedMayFold};
ghost use Rattle.vega_signals.specs.Extents.{update_of, computed_value, computed_here};
ghost use Rattle.vega_signals.specs.Settling.{as_given, own_names, next_own, own_after, settled_own};
ghost use Rattle.vega_signals.specs.Signals.{data_of};
ghost use Rattle.vega_signals.specs.inner.Next.{next_by};

use crate::evaluation::eval_alone;
use crate::extents::set_extents;
use crate::known::{Known, index_of, put_value};
use crate::order::order_of;
use crate::placed::all_stand;
use cell_value::{Cell, Named};
use expr_eval::{EvalError, NoParams, ParamReader};
use expr_syntax::Expr;
use std::alloc::Global;
use text_kit::{OutOfMemory, Seq, Text, copy_list};
use vega_lists::{ListReader, Lists, lists_of};
use vega_spec::{DataSet, Group, Signal};

/// The data sets of an object.
pub fn data_of(group: &Group) -> &[DataSet]
    ensures { result.now ≡ data_of (out-Group group.now) }
{
    match &group.data_ {
        Some(sets) => sets.as_slice(),
        None => &[],
    }
}

/// The signals of an object.
pub fn signals_of(group: &Group) -> &[Signal]
    ensures { result.now ≡ signals_of (out-Group group.now) }
{
    match &group.signals {
        Some(signals) => signals.as_slice(),
        None => &[],
    }
}

// The update of a signal that is computed.
pub(crate) fn update_of(signal: &Signal) -> Option<&Expr>
    ensures { option_copied result ≡ update_of signal.now }
{
    if signal.on.is_some() {
        return None;
    }
    signal.update.as_ref()
}

// The value of a computed signal; of any other null.
pub(crate) fn computed_value<P: ParamReader>(
    alloc: Global,
    signal: &Signal,
    params: &P,
) -> Result<Cell, EvalError>
    ensures { Evaluates result (computed_value (P.values params.now) signal.now) }
{
    match update_of(signal) {
        Some(update) => eval_alone(alloc, update, params),
        None => Ok(Cell::Null),
    }
}

// The same, None where it overflows.
fn value_if_any<P: ParamReader>(
    alloc: Global,
    signal: &Signal,
    params: &P,
) -> Result<Option<Cell>, OutOfMemory>
    ensures { IfOk result (λ value. value ≡ computed_value (P.values params.now) signal.now) }
{
    match computed_value(alloc, signal, params) {
        Ok(cell) => Ok(Some(cell)),
        Err(EvalError::Overflow) => Ok(None),
        Err(EvalError::Memory) => Err(OutOfMemory),
    }
}

// Adds a computed signal with its value.
fn push_computed<P: ParamReader>(
    alloc: Global,
    signal: &Signal,
    params: &P,
    out: &mut Seq<(Text, Option<Cell>)>,
) -> Result<(), OutOfMemory>
    ensures { OnOk result (out.new ≡ out.old ++ computed_here (P.values params.now) signal.now) }
{
    if update_of(signal).is_none() {
        return Ok(());
    }
    out.push((signal.name.copy()?, value_if_any(alloc, signal, params)?))
}

// Adds the computed signals with their values.
fn push_all_computed<P: ParamReader>(
    alloc: Global,
    signals: &[Signal],
    params: &P,
    out: &mut Seq<(Text, Option<Cell>)>,
) -> Result<(), OutOfMemory>
    ensures { OnOk result (out.new ≡ out.old ++ flat_map (computed_here (P.values params.now)) signals.now) }
{
    for signal in signals {
        push_computed(alloc, signal, params, out)?;
    }
    Ok(())
}

// An object whose signals are computed: the sources of a state, what names stand for round it, and its signals and data sets.
#[derive(Clone, Copy)]
struct Object<'a, O, P> {
    sources: &'a [Named],
    // The lists round it.
    lists: &'a O,
    // Lists of which there is none.
    empty: &'a Lists,
    // The values round it.
    outer: &'a P,
    // The signals that are given, with their values.
    given: &'a [(Text, Option<Cell>)],
    signals: &'a [Signal],
    sets: &'a [DataSet],
}

// The values that signals have where names are read so.
fn next_by<O: ListReader, P: ParamReader, R: ParamReader>(
    alloc: Global,
    object: &Object<'_, O, P>,
    read: &R,
) -> Result<Seq<(Text, Option<Cell>)>, OutOfMemory>
    requires sources { AreSources object.now.sources.now }
    requires lists { AreAllRows (O.named object.now.lists.now) }
    requires empty { AreLists [] object.now.empty.now }
    requires kept { All (OfTransforms is_kept) object.now.sets.now }
    requires folds { ListedMayFold (O.named object.now.lists.now) object.now.sets.now }
    ensures { IfOk result (λ next. next ≡ next_by (map dataset_of object.now.sources.now) (scope_read (O.named object.now.lists.now))
        object.now.given.now object.now.signals.now object.now.sets.now (R.values read.now)) }
{
    let mut next = copy_list(alloc, object.given)?;
    push_all_computed(alloc, object.signals, read, &mut next)?;
    next.append(set_extents(
        alloc,
        object.sources,
        object.lists,
        object.empty,
        object.sets,
        read,
    )?)?;
    Ok(next)
}

// The values that signals have where they are read as `now`.
fn next_own<O: ListReader, P: ParamReader>(
    alloc: Global,
    object: &Object<'_, O, P>,
    now: &[(Text, Option<Cell>)],
) -> Result<Seq<(Text, Option<Cell>)>, OutOfMemory>
    requires sources { AreSources object.now.sources.now }
    requires lists { AreAllRows (O.named object.now.lists.now) }
    requires empty { AreLists [] object.now.empty.now }
    requires kept { All (OfTransforms is_kept) object.now.sets.now }
    requires folds { ListedMayFold (O.named object.now.lists.now) object.now.sets.now }
    ensures { IfOk result (λ next. next ≡ next_own (map dataset_of object.now.sources.now) (scope_read (O.named object.now.lists.now))
        (P.values object.now.outer.now) object.now.given.now object.now.signals.now object.now.sets.now now.now) }
{
    let own = index_of(alloc, now)?;
    let read = Known {
        own,
        outer: object.outer,
    };
    next_by(alloc, object, &read)
}

// Whether two values are the same, if there are any.
fn is_same_value(a: &Option<Cell>, b: &Option<Cell>) -> bool
    ensures { IsTrue result ↔ (a.now ≡ b.now) }
{
    match (a, b) {
        (Some(a), Some(b)) => a.same(b),
        (None, None) => true,
        (Some(_), None) | (None, Some(_)) => false,
    }
}

// Whether two named values are the same.
fn is_same(a: &(Text, Option<Cell>), b: &(Text, Option<Cell>)) -> bool
    ensures { IsTrue result ↔ (a.now ≡ b.now) }
{
    a.0.as_str() == b.0.as_str() && is_same_value(&a.1, &b.1)
}

// Whether named values are the same one by one.
fn are_same(a: &Seq<(Text, Option<Cell>)>, b: &Seq<(Text, Option<Cell>)>) -> bool
    ensures { IsTrue result ↔ (a.now ≡ b.now) }
{
    same_slices(a.as_slice(), b.as_slice())
}

// Whether slices of named values are the same one by one.
fn same_slices(a: &[(Text, Option<Cell>)], b: &[(Text, Option<Cell>)]) -> bool
    ensures { IsTrue result ↔ (a.now ≡ b.now) }
{
    if a.len() != b.len() {
        return false;
    }
    for i in 0..a.len() {
        if !is_same(&a[i], &b[i]) {
            return false;
        }
    }
    true
}

// The values after so many rounds, or after fewer where one changes nothing.
fn settle<O: ListReader, P: ParamReader>(
    alloc: Global,
    object: &Object<'_, O, P>,
    first: Seq<(Text, Option<Cell>)>,
    rounds: usize,
) -> Result<Seq<(Text, Option<Cell>)>, OutOfMemory>
    requires sources { AreSources object.now.sources.now }
    requires lists { AreAllRows (O.named object.now.lists.now) }
    requires empty { AreLists [] object.now.empty.now }
    requires kept { All (OfTransforms is_kept) object.now.sets.now }
    requires folds { ListedMayFold (O.named object.now.lists.now) object.now.sets.now }
    requires first { first ≡ own_after (map dataset_of object.now.sources.now) (scope_read (O.named object.now.lists.now))
        (P.values object.now.outer.now) object.now.given.now object.now.signals.now object.now.sets.now 1 }
    requires some { 1 ≤ rounds }
    ensures { IfOk result (λ now. now ≡ own_after (map dataset_of object.now.sources.now) (scope_read (O.named object.now.lists.now))
        (P.values object.now.outer.now) object.now.given.now object.now.signals.now object.now.sets.now rounds) }
{
    let mut now = first;
    for round in 1..rounds {
        let next = next_own(alloc, object, now.as_slice())?;
        if are_same(&next, &now) {
            return Ok(next);
        }
        now = next;
    }
    Ok(now)
}

// How many rounds there are where the first gives these values: as many as there are values more than those given, and one at least.
fn rounds_after(first: &Seq<(Text, Option<Cell>)>, given: &[(Text, Option<Cell>)]) -> usize
    ensures count { result ≡ max 1 (length first.now - length given.now) }
    ensures some { 1 ≤ result }
{
    first.len().saturating_sub(given.len()).max(1)
}

// Computes signals one after the other, each where those before it are known.
fn compute<P: ParamReader>(
    alloc: Global,
    signals: &[&Signal],
    known: &mut Known<'_, P>,
) -> Result<(), OutOfMemory> {
    for signal in signals {
        let value = value_if_any(alloc, *signal, known)?;
        put_value(alloc, &mut known.own, &signal.name, &value)?;
    }
    Ok(())
}

// A round from values that are made of some by computing the signals that aren't of extents one after the other, in an order.
fn next_along<O: ListReader, P: ParamReader>(
    alloc: Global,
    object: &Object<'_, O, P>,
    order: &[&Signal],
    now: &[(Text, Option<Cell>)],
) -> Result<Seq<(Text, Option<Cell>)>, OutOfMemory>
    requires sources { AreSources object.now.sources.now }
    requires lists { AreAllRows (O.named object.now.lists.now) }
    requires empty { AreLists [] object.now.empty.now }
    requires kept { All (OfTransforms is_kept) object.now.sets.now }
    requires folds { ListedMayFold (O.named object.now.lists.now) object.now.sets.now }
{
    let own = index_of(alloc, now)?;
    let mut known = Known {
        own,
        outer: object.outer,
    };
    compute(alloc, order, &mut known)?;
    next_by(alloc, object, &known)
}

// Values that a round leaves as they are, where they are found from some within so many passes along an order.
fn settle_along<O: ListReader, P: ParamReader>(
    alloc: Global,
    object: &Object<'_, O, P>,
    from: &[(Text, Option<Cell>)],
    order: &[&Signal],
    passes: usize,
) -> Result<Option<Seq<(Text, Option<Cell>)>>, OutOfMemory>
    requires sources { AreSources object.now.sources.now }
    requires lists { AreAllRows (O.named object.now.lists.now) }
    requires empty { AreLists [] object.now.empty.now }
    requires kept { All (OfTransforms is_kept) object.now.sets.now }
    requires folds { ListedMayFold (O.named object.now.lists.now) object.now.sets.now }
    ensures { IfOk result (λ found. IfSome found (λ now. next_own (map dataset_of object.now.sources.now)
        (scope_read (O.named object.now.lists.now)) (P.values object.now.outer.now) object.now.given.now object.now.signals.now
        object.now.sets.now now ≡ now)) }
{
    let mut now = copy_list(alloc, from)?;
    for _ in 0..passes {
        let made = next_along(alloc, object, order, now.as_slice())?;
        let next = next_own(alloc, object, made.as_slice())?;
        if are_same(&next, &made) {
            return Ok(Some(made));
        }
        now = next;
    }
    Ok(None)
}

// The values at which signals settle that stand in an order, where it is found, from any values. Each pass gives at least one extent more
// its value, and those that are computed from it get theirs in the next, so a pass more than there are extents is enough.
fn settled_in_order<O: ListReader, P: ParamReader>(
    alloc: Global,
    object: &Object<'_, O, P>,
    from: &[(Text, Option<Cell>)],
    most: usize,
) -> Result<Option<Seq<(Text, Option<Cell>)>>, OutOfMemory>
    requires sources { AreSources object.now.sources.now }
    requires lists { AreAllRows (O.named object.now.lists.now) }
    requires empty { AreLists [] object.now.empty.now }
    requires kept { All (OfTransforms is_kept) object.now.sets.now }
    requires folds { ListedMayFold (O.named object.now.lists.now) object.now.sets.now }
    requires most { most ≡ length (own_names object.now.signals.now object.now.sets.now) }
    ensures { IfOk result (λ found. IfSome found (λ now. now ≡ own_after (map dataset_of object.now.sources.now)
        (scope_read (O.named object.now.lists.now)) (P.values object.now.outer.now) object.now.given.now object.now.signals.now
        object.now.sets.now most)) }
{
    let order = order_of(alloc, object.signals, object.sets)?;
    if !all_stand(alloc, &order.places, most, object.signals, object.sets)? {
        return Ok(None);
    }
    settle_along(
        alloc,
        object,
        from,
        order.computed.as_slice(),
        order.extent_count.saturating_add(1),
    )
}

// The values after so many rounds, by one round more where it changes nothing, else along an order, else by all rounds.
fn settled_past<O: ListReader, P: ParamReader>(
    alloc: Global,
    object: &Object<'_, O, P>,
    first: Seq<(Text, Option<Cell>)>,
    rounds: usize,
) -> Result<Seq<(Text, Option<Cell>)>, OutOfMemory>
    requires sources { AreSources object.now.sources.now }
    requires lists { AreAllRows (O.named object.now.lists.now) }
    requires empty { AreLists [] object.now.empty.now }
    requires kept { All (OfTransforms is_kept) object.now.sets.now }
    requires folds { ListedMayFold (O.named object.now.lists.now) object.now.sets.now }
    requires first { first ≡ own_after (map dataset_of object.now.sources.now) (scope_read (O.named object.now.lists.now))
        (P.values object.now.outer.now) object.now.given.now object.now.signals.now object.now.sets.now 1 }
    requires some { 1 ≤ rounds }
    requires rounds { rounds ≡ length (own_names object.now.signals.now object.now.sets.now) }
    ensures { IfOk result (λ now. now ≡ own_after (map dataset_of object.now.sources.now) (scope_read (O.named object.now.lists.now))
        (P.values object.now.outer.now) object.now.given.now object.now.signals.now object.now.sets.now rounds) }
{
    let second = next_own(alloc, object, first.as_slice())?;
    if are_same(&second, &first) {
        return Ok(second);
    }
    match settled_in_order(alloc, object, second.as_slice(), rounds)? {
        Some(settled) => Ok(settled),
        None => settle(alloc, object, first, rounds),
    }
}

// An order asks for as many rounds at least.
const FEW: usize = 4;

// The values at which the signals of an object settle.
fn settled_over<O: ListReader, P: ParamReader>(
    alloc: Global,
    object: &Object<'_, O, P>,
) -> Result<Seq<(Text, Option<Cell>)>, OutOfMemory>
    requires sources { AreSources object.now.sources.now }
    requires lists { AreAllRows (O.named object.now.lists.now) }
    requires empty { AreLists [] object.now.empty.now }
    requires kept { All (OfTransforms is_kept) object.now.sets.now }
    requires folds { ListedMayFold (O.named object.now.lists.now) object.now.sets.now }
    ensures { IfOk result (λ now. now ≡ own_after (map dataset_of object.now.sources.now) (scope_read (O.named object.now.lists.now))
        (P.values object.now.outer.now) object.now.given.now object.now.signals.now object.now.sets.now
        (length (own_names object.now.signals.now object.now.sets.now))) }
{
    let first = next_own(alloc, object, object.given)?;
    let rounds = rounds_after(&first, object.given);
    if rounds > FEW {
        settled_past(alloc, object, first, rounds)
    } else {
        settle(alloc, object, first, rounds)
    }
}

// Lists of which there is none.
fn no_lists(alloc: Global) -> Result<Lists, OutOfMemory>
    ensures { IfOk result (AreLists []) }
{
    match lists_of(alloc, &[], &[], &NoParams) {
        Ok(lists) => Ok(lists),
        Err(_) => Err(OutOfMemory),
    }
}

// A copy of a given signal.
fn given_copy(entry: &(Text, Cell)) -> Result<(Text, Option<Cell>), OutOfMemory>
    ensures { IfOk result (λ copy. copy ≡ (entry.now.0, Some entry.now.1)) }
{
    Ok((entry.0.copy()?, Some(entry.1.copy()?)))
}

// Copies of the given signals.
fn as_given(alloc: Global, given: &[(Text, Cell)]) -> Result<Seq<(Text, Option<Cell>)>, OutOfMemory>
    ensures { IfOk result (λ copies. copies ≡ as_given given.now) }
{
    let mut copies = Seq::with_capacity(alloc, given.len())?;
    for entry in given {
        copies.push(given_copy(entry)?)?;
    }
    Ok(copies)
}

/// The values at which the signals of an object settle, each by its name: first those in `given` as they are, then the computed ones by
/// their updates, then those of extents: the least and the greatest number of their field over the rows before them, null where there is
/// no number. A computed signal has none where its evaluation overflows, and so where it needs a name without value. Signals may need each
/// other in any order, and none needs itself. A name that no own signal has is read round the object, in `outer`, and a list that no data
/// set before makes in `lists`. A transform that overflows counts as leaving no rows. The sources are those of a state, a lookup has as many
/// names as values, bins of a given width are over 0 wide, and on no path, from the sources over the outer lists, do folds multiply rows by
/// more than 8.
///
/// More than four signals that stand in an order, in which each needs only those before it, are computed along it, if no two have one name:
/// each a few times, and the transforms of data sets run, where there are extents, at most four times and twice more for each extent in the
/// longest chain of those that need each other. Else there are as many rounds as signals that aren't given, or fewer where one changes
/// nothing. What is looked up in `outer` and `lists` takes the time that they take.
pub fn own_values<O: ListReader, P: ParamReader>(
    alloc: Global,
    sources: &[Named],
    lists: &O,
    outer: &P,
    given: &[(Text, Cell)],
    signals: &[Signal],
    sets: &[DataSet],
) -> Result<Seq<(Text, Option<Cell>)>, OutOfMemory>
    requires sources { AreSources sources.now }
    requires lists { AreAllRows (O.named lists.now) }
    requires kept { All (OfTransforms is_kept) sets.now }
    requires folds { ListedMayFold (O.named lists.now) sets.now }
    ensures { IfOk result (λ settled. settled ≡ settled_own (map dataset_of sources.now) (scope_read (O.named lists.now)) (P.values outer.now)
        given.now signals.now sets.now) }
{
    let empty = no_lists(alloc)?;
    let given = as_given(alloc, given)?;
    let object = Object {
        sources,
        lists,
        empty: &empty,
        outer,
        given: given.as_slice(),
        signals,
        sets,
    };
    settled_over(alloc, &object)
}
