//! The members of views.
ghost use Rattle.std.specs.Prelude.{◌≡◌, ◌++◌, true, map, IfOk, OnOk};
ghost use Rattle.spec_schema.specs.Rows.{rule_of, test_of};
ghost use Rattle.vl_schema.specs.Views.{any_view, top_only, view_members, view, views};
ghost use Rattle.vl_schema.specs.inner.Tables.{view_of};

use crate::codes::{
    AUTOSIZE, CONFIG, COUNT, DATA, DATASETS, ENCODING, FACET, FREE, LAYER_ENCODING, LAYERS, MARK,
    PARAMETERS, RESOLVE, SIZE, SPACE, TEXT, TRANSFORMS, VIEW, VIEW_KINDS, VIEWS,
};
use spec_schema::{Layout, Row, Rule, When, layout_of_rules, push_rules, table};
use std::alloc::Global;
use text_kit::{OutOfMemory, Seq};

/// A kind of view as it is written.
#[derive(Clone, Copy)]
pub struct Kind<'a> {
    /// What has to hold of the members.
    pub whens: &'a [When<'a>],
    /// The members that views of other kinds haven't.
    pub rows: &'a [Row<'a>],
}

// The members of any view.
const ANY_VIEW: [Row<'static>; 9] = table![
    may "name" TEXT, may "title" TEXT, may "data" DATA, may "transform" TRANSFORMS, may "params" PARAMETERS,
    may "width" SIZE, may "height" SIZE, may "resolve" RESOLVE, may "description" FREE,
];

// The members of the top view besides.
const TOP_ONLY: [Row<'static>; 7] = table![
    may "$schema" TEXT, may "config" CONFIG, may "datasets" DATASETS, may "padding" SPACE,
    may "autosize" AUTOSIZE, may "usermeta" FREE, may "background" FREE,
];

// Units, layered and faceted views, joined views, and those without a deciding member: a `spec` makes them faceted, and all others
// are units.
const KINDS: [Kind<'static>; 8] = view_kinds![
    [When::Leads(VIEW_KINDS, "mark")] [must "mark" MARK, may "encoding" ENCODING];
    [When::Leads(VIEW_KINDS, "layer")] [must "layer" LAYERS, may "encoding" LAYER_ENCODING];
    [When::Leads(VIEW_KINDS, "facet")] [must "facet" FACET, must "spec" VIEW, may "columns" COUNT, may "spacing" SPACE];
    [When::Leads(VIEW_KINDS, "hconcat")] [must "hconcat" VIEWS, may "spacing" SPACE];
    [When::Leads(VIEW_KINDS, "vconcat")] [must "vconcat" VIEWS, may "spacing" SPACE];
    [When::Leads(VIEW_KINDS, "concat")] [must "concat" VIEWS, may "spacing" SPACE, may "columns" COUNT];
    [When::Has("spec")] [must "facet" FACET, must "spec" VIEW, may "columns" COUNT, may "spacing" SPACE];
    [] [must "mark" MARK, may "encoding" ENCODING];
];

// Adds the members of any view.
#[tactic(auto, unfolding(crate::specs::Views::any_view))]
fn push_any_view(alloc: Global, out: &mut Seq<Rule>) -> Result<(), OutOfMemory>
    ensures { OnOk result (out.new ≡ out.old ++ any_view) }
{
    push_rules(alloc, out, &ANY_VIEW)
}

// Adds the members of the top view besides.
#[tactic(auto, unfolding(crate::specs::Views::top_only))]
fn push_top_only(alloc: Global, out: &mut Seq<Rule>) -> Result<(), OutOfMemory>
    ensures { OnOk result (out.new ≡ out.old ++ top_only) }
{
    push_rules(alloc, out, &TOP_ONLY)
}

// Adds the members of the top view, besides those of its kind.
fn push_top_view(alloc: Global, out: &mut Seq<Rule>) -> Result<(), OutOfMemory>
    ensures { OnOk result (out.new ≡ out.old ++ view_members true) }
{
    push_any_view(alloc, out)?;
    push_top_only(alloc, out)
}

// Adds the members that a view has besides those of its kind.
fn push_view_members(alloc: Global, out: &mut Seq<Rule>, top: bool) -> Result<(), OutOfMemory>
    ensures { OnOk result (out.new ≡ out.old ++ view_members top) }
{
    if top {
        push_top_view(alloc, out)
    } else {
        push_any_view(alloc, out)
    }
}

// A view: its object, whether it is the top, what tells its kind, and the members of its kind.
fn view(
    alloc: Global,
    object: u16,
    top: bool,
    tests: &[When],
    kind: &[Row],
) -> Result<Layout, OutOfMemory>
    ensures { IfOk result (λ l. l ≡ view object top (map test_of tests.now) (map rule_of kind.now)) }
{
    let mut rules = Seq::new(alloc);
    push_rules(alloc, &mut rules, kind)?;
    push_view_members(alloc, &mut rules, top)?;
    layout_of_rules(alloc, object, tests, rules, None)
}

/// Adds the layouts of views of some kinds, at the top or not.
pub fn push_kinds(
    alloc: Global,
    out: &mut Seq<Layout>,
    object: u16,
    top: bool,
    kinds: &[Kind],
) -> Result<(), OutOfMemory>
    ensures { OnOk result (out.new ≡ out.old ++ map (view_of object top) kinds.now) }
{
    for kind in kinds {
        out.push(view(alloc, object, top, kind.whens, kind.rows)?)?;
    }
    Ok(())
}

/// Adds the views of a place.
#[tactic(auto, unfolding(crate::specs::Views::views, crate::specs::Views::led_views, crate::specs::Views::joined_views, crate::specs::Views::other_views, crate::specs::Views::unit_view, crate::specs::Views::layered_view, crate::specs::Views::faceted_view, crate::specs::Views::row_view, crate::specs::Views::column_view, crate::specs::Views::grid_view))]
pub fn push_views(
    alloc: Global,
    out: &mut Seq<Layout>,
    object: u16,
    top: bool,
) -> Result<(), OutOfMemory>
    ensures { OnOk result (out.new ≡ out.old ++ views object top) }
{
    push_kinds(alloc, out, object, top, &KINDS)
}
