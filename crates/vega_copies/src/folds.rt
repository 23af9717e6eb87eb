// Whether the folds of data sets fit, those in groups among them.
ghost use Rattle.std.specs.Prelude.{◌≡◌, ◌∷◌, [], IfOk, OnOk, map, zip};
ghost use Rattle.std.specs.Option.{option_map};
ghost use Rattle.vega_spec.specs.declared.spec.Group.{out-Group};
ghost use Rattle.vega_spec.specs.declared.spec.VgMark.{out-VgMark};
ghost use Rattle.vega_lists.specs.Products.{Products, begun_product, with_product, fold_length};
ghost use Rattle.vega_signals.specs.Signals.{data_of};
ghost use Rattle.vega_copies.specs.Outlines.{facet_in};
ghost use Rattle.vega_copies.specs.Fitting.{fitted, products_fitted, with_part_products, products_in_copy, folds_fit_in, folds_fit};
ghost use Rattle.vega_copies.specs.inner.Outlined.{marks_in, marks_of};
ghost use Rattle.vega_copies.specs.inner.Tested.{own_product, products_over, products_at, group_folds_fit};

use crate::copies::facet_in;
use crate::marks::{is_group, marks_in};
use std::alloc::Global;
use std::collections::BTreeMap;
use text_kit::{OutOfMemory, Seq, Text};
use vega_lists::{texts_in, transforms_of};
use vega_signals::data_of;
use vega_spec::{DataSet, Group, Transform, VgMark};

// How many rows a transform makes of one at most.
fn fold_length(transform: &Transform) -> u64
    ensures { result ≡ fold_length transform.now }
{
    match transform {
        Transform::Fold(f) => f.fields.len() as u64,
        Transform::Filter(_)
        | Transform::Formula(_)
        | Transform::Extent(_)
        | Transform::Bin(_)
        | Transform::TimeUnit(_)
        | Transform::Aggregate(_)
        | Transform::JoinAggregate(_)
        | Transform::Stack(_)
        | Transform::Window(_)
        | Transform::Lookup(_) => 1,
    }
}

// The product after transforms; None where after one of them it is too great.
fn fitted(before: u64, transforms: &[Transform]) -> Option<u64>
    ensures { result ≡ fitted before transforms.now }
{
    let mut product = before;
    for transform in transforms {
        let next = product.saturating_mul(fold_length(transform));
        if next > 8 {
            return None;
        }
        product = next;
    }
    Some(product)
}

// The product that an object gives itself under a name, if it does.
fn own_product(own: &BTreeMap<String, u64>, name: &str) -> Option<u64>
    ensures { result ≡ own_product own.now name.now }
{
    match own.get(name) {
        Some(product) => Some(*product),
        None => None,
    }
}

// The product of a name.
fn product_at(levels: &[&BTreeMap<String, u64>], name: &str) -> u64
    ensures { result ≡ products_at (map (λ level. level.now) levels.now) name.now }
{
    for level in levels {
        match own_product(level, name) {
            Some(product) => return product,
            None => {}
        }
    }
    1
}

// The product of a name, where an object gives these itself.
fn product_over(own: &BTreeMap<String, u64>, outer: &[&BTreeMap<String, u64>], name: &str) -> u64
    ensures { result ≡ products_over own.now (products_at (map (λ level. level.now) outer.now)) name.now }
{
    match own_product(own, name) {
        Some(product) => product,
        None => product_at(outer, name),
    }
}

// The product with which a data set begins.
fn begun_product(
    own: &BTreeMap<String, u64>,
    outer: &[&BTreeMap<String, u64>],
    set: &DataSet,
) -> u64
    ensures { result ≡ begun_product (products_over own.now (products_at (map (λ level. level.now) outer.now))) set.now }
{
    match &set.source {
        Some(source) => product_over(own, outer, source.as_str()),
        None => 1,
    }
}

// No products.
fn no_products(alloc: Global) -> BTreeMap<String, u64>
    ensures { (outer : Products) → products_over result outer ≡ outer }
{
    BTreeMap::new(alloc)
}

// Puts a product under a name.
fn put_product(
    places: &mut BTreeMap<String, u64>,
    name: &Text,
    product: u64,
) -> Result<(), OutOfMemory>
    ensures { OnOk result ((outer : Products) → products_over places.new outer ≡ with_product name.now product (products_over places.old outer)) }
{
    places.insert(name.copy()?.into_string(), product)?;
    Ok(())
}

// The products in an object after its data sets, where it begins with some; None where the folds of a set don't fit.
fn products_fitted(
    alloc: Global,
    begun: BTreeMap<String, u64>,
    outer: &[&BTreeMap<String, u64>],
    sets: &[DataSet],
) -> Result<Option<BTreeMap<String, u64>>, OutOfMemory>
    ensures { IfOk result (λ found. option_map (λ own. products_over own (products_at (map (λ level. level.now) outer.now))) found
        ≡ products_fitted (products_over begun (products_at (map (λ level. level.now) outer.now))) sets.now) }
{
    let mut own = begun;
    for set in sets {
        let Some(product) = fitted(begun_product(&own, outer, set), transforms_of(set)) else {
            return Ok(None);
        };
        put_product(&mut own, &set.name, product)?;
    }
    Ok(Some(own))
}

// The products of the parts of some lists, under these names.
fn part_products(
    alloc: Global,
    outer: &[&BTreeMap<String, u64>],
    names: &[Text],
    lists: &[Text],
) -> Result<BTreeMap<String, u64>, OutOfMemory>
    ensures { IfOk result (λ own. products_over own (products_at (map (λ level. level.now) outer.now))
        ≡ with_part_products (zip names.now lists.now) (products_at (map (λ level. level.now) outer.now))) }
{
    let mut own = no_products(alloc);
    for at in (0..names.len().min(lists.len())).rev() {
        put_product(&mut own, &names[at], product_at(outer, lists[at].as_str()))?;
    }
    Ok(own)
}

// The products in a copy of a group, before its data sets.
fn products_in_copy(
    alloc: Global,
    outer: &[&BTreeMap<String, u64>],
    mark: &VgMark,
) -> Result<BTreeMap<String, u64>, OutOfMemory>
    ensures { IfOk result (λ own. products_over own (products_at (map (λ level. level.now) outer.now))
        ≡ products_in_copy (facet_in (out-VgMark mark.now).from) (products_at (map (λ level. level.now) outer.now))) }
{
    match facet_in(mark) {
        Some(facet) => Ok(part_products(
            alloc,
            outer,
            texts_in(&facet.name),
            texts_in(&facet.data_),
        )?),
        None => Ok(no_products(alloc)),
    }
}

// The products in a group, after its data sets; None where their folds don't fit.
fn products_in_group(
    alloc: Global,
    outer: &[&BTreeMap<String, u64>],
    mark: &VgMark,
) -> Result<Option<BTreeMap<String, u64>>, OutOfMemory>
    ensures { IfOk result (λ found. option_map (λ own. products_over own (products_at (map (λ level. level.now) outer.now))) found
        ≡ products_fitted (products_in_copy (facet_in (out-VgMark mark.now).from) (products_at (map (λ level. level.now) outer.now)))
        (data_of (out-Group (out-VgMark mark.now).group))) }
{
    let begun = products_in_copy(alloc, outer, mark)?;
    Ok(products_fitted(alloc, begun, outer, data_of(&mark.group))?)
}

// Levels of products with one more inside.
fn with_products<'a>(
    alloc: Global,
    own: &'a BTreeMap<String, u64>,
    outer: &[&'a BTreeMap<String, u64>],
) -> Result<Seq<&'a BTreeMap<String, u64>>, OutOfMemory>
    ensures { IfOk result (λ levels. map (λ level. level.now) levels ≡ own.now ∷ map (λ level. level.now) outer.now) }
{
    let mut levels = Seq::with_capacity(alloc, outer.len() + 1)?;
    levels.push(own)?;
    for other in outer {
        levels.push(*other)?;
    }
    Ok(levels)
}

// Whether the folds of the groups among marks fit, over the products round them.
#[cycle(folding)]
#[tactic(auto, using(crate::proofs::TreeLemmas::fits_first))]
fn folds_fit_in(
    alloc: Global,
    outer: &[&BTreeMap<String, u64>],
    marks: &[VgMark],
) -> Result<bool, OutOfMemory>
    ensures { IfOk result (λ fit. fit ≡ folds_fit_in (products_at (map (λ level. level.now) outer.now)) (marks_of marks.now)) }
{
    for mark in marks {
        if !mark_folds_fit(alloc, outer, mark)? {
            return Ok(false);
        }
    }
    Ok(true)
}

// Whether those of a mark fit: of a group its own, and those of the groups in it.
#[cycle(folding)]
#[tactic(auto, using(crate::proofs::TreeLemmas::group_fits, crate::proofs::TreeLemmas::plain_fits))]
fn mark_folds_fit(
    alloc: Global,
    outer: &[&BTreeMap<String, u64>],
    mark: &VgMark,
) -> Result<bool, OutOfMemory>
    ensures { IfOk result (λ fit. fit ≡ folds_fit_in (products_at (map (λ level. level.now) outer.now)) (marks_of (mark.now ∷ []))) }
{
    if is_group(mark) {
        Ok(group_folds_fit(alloc, outer, mark)?)
    } else {
        Ok(true)
    }
}

// The same of a group.
#[cycle(folding)]
fn group_folds_fit(
    alloc: Global,
    outer: &[&BTreeMap<String, u64>],
    mark: &VgMark,
) -> Result<bool, OutOfMemory>
    ensures { IfOk result (λ fit. fit ≡ group_folds_fit (products_at (map (λ level. level.now) outer.now)) (out-VgMark mark.now)) }
{
    let Some(own) = products_in_group(alloc, outer, mark)? else {
        return Ok(false);
    };
    let levels = with_products(alloc, &own, &*outer)?;
    folds_fit_in(alloc, levels.as_slice(), marks_in(&mark.group))
}

/// Whether the folds of an object fit, and those of the groups in it: on no path of data sets does the product of the lengths of the folds
/// pass 8. The time is near linear in the data sets and marks, times how deep groups stand in each other.
pub(crate) fn folds_fit(alloc: Global, group: &Group) -> Result<bool, OutOfMemory>
    ensures { IfOk result (λ fit. fit ≡ folds_fit (data_of (out-Group group.now)) (marks_of (marks_in (out-Group group.now)))) }
{
    let Some(own) = products_fitted(alloc, no_products(alloc), &[], data_of(group))? else {
        return Ok(false);
    };
    let levels = with_products(alloc, &own, &[])?;
    folds_fit_in(alloc, levels.as_slice(), marks_in(group))
}
