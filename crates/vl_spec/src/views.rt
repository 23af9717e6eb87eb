// Views.
ghost use Rattle.std.specs.Prelude.{◌≡◌, ◌++◌, IfOk, OnOk};

use crate::copying::{boxed, filled, push_copy, with_one, with_values_and_five};
use crate::{Channel, Encoding, Mark, Resolve, Size, Transform};
use fixed_num::Num;
use std::alloc::Global;
use text_kit::{Boxed, Copies, OutOfMemory, Seq, Text, copied_two};

/// A view.
#[cycle(views)]
#[derive(Drop)]
pub struct View {
    /// The name.
    pub name: Option<Text>,
    /// The title.
    pub title: Option<Text>,
    /// The name of the source of its rows.
    pub data_: Option<Text>,
    /// What is done to the rows, in order.
    pub transform: Option<Seq<Transform>>,
    /// Its parameters, by their numbers among those of the specification, counted from 0.
    pub params: Seq<usize>,
    /// The width.
    pub width: Option<Size>,
    /// The height.
    pub height: Option<Size>,
    /// Which scales the views inside it share.
    pub resolve: Option<Resolve>,
    /// What it is.
    pub kind: ViewKind,
}

/// What a view is.
#[cycle(views)]
#[derive(Drop)]
pub enum ViewKind {
    /// One mark.
    Unit(Unit),
    /// Views on each other.
    Layer(Layer),
    /// A view for each part of the rows.
    Facet(Faceted),
    /// Views beside each other.
    Joined(Joined),
}

/// One mark.
pub struct Unit {
    /// The mark.
    pub mark: Option<Mark>,
    /// Its channels.
    pub encoding: Option<Encoding>,
}

/// Views on each other.
#[cycle(views)]
#[derive(Drop)]
pub struct Layer {
    /// The views, the lowest first.
    pub layer: Seq<View>,
    /// Channels that they all have.
    pub encoding: Option<Encoding>,
}

/// A view for each part of the rows.
#[cycle(views)]
#[derive(Drop)]
pub struct Faceted {
    /// How the rows are parted.
    pub facet: Facet,
    /// How many panels stand side by side.
    pub columns: Option<Num>,
    /// The space between them, in pixels.
    pub spacing: Option<Num>,
    /// The view.
    pub spec: Boxed<View>,
}

/// How rows are parted.
pub enum Facet {
    /// By one field.
    One(Channel),
    /// By rows and columns.
    Cross(CrossFacet),
}

/// How rows are parted into rows and columns of panels.
pub struct CrossFacet {
    /// The field of the rows.
    pub row: Option<Channel>,
    /// The field of the columns.
    pub column: Option<Channel>,
}

/// Views beside each other.
#[cycle(views)]
#[derive(Drop)]
pub struct Joined {
    /// How they stand.
    pub joining: Joining,
    /// How many stand side by side, in a grid.
    pub columns: Option<Num>,
    /// The space between them, in pixels.
    pub spacing: Option<Num>,
    /// The views.
    pub views: Seq<View>,
}

/// How views stand beside each other.
#[derive(Clone, Copy)]
pub enum Joining {
    /// `hconcat`: side by side.
    Row,
    /// `vconcat`: one below the other.
    Column,
    /// `concat`: in a grid.
    Grid,
}

impl Drop for Unit {
    fn drop(self) {
        let Unit {
            mark: _,
            encoding: _,
        } = self;
    }
}

impl Drop for Facet {
    fn drop(self) {
        match self {
            Facet::One(channel) => drop(channel),
            Facet::Cross(_) => {}
        }
    }
}

impl Drop for CrossFacet {
    fn drop(self) {
        let CrossFacet { row, column } = self;
        drop(row);
        drop(column);
    }
}

/// A view that equals another.
#[cycle(views)]
pub fn copied_view(alloc: Global, view: &View) -> Result<View, OutOfMemory>
    ensures { IfOk result (λ copy. copy ≡ view.now) }
{
    let kind = copied_kind(alloc, &view.kind);
    let (kind, params, name, title, data_, resolve, transform) = with_values_and_five(
        alloc,
        &view.kind,
        kind,
        &view.params,
        &view.name,
        &view.title,
        &view.data_,
        &view.resolve,
        &view.transform,
    )?;
    Ok(View {
        name,
        title,
        data_,
        transform,
        params,
        width: view.width,
        height: view.height,
        resolve,
        kind,
    })
}

// A copy of what a view is.
#[cycle(views)]
fn copied_kind(alloc: Global, of: &ViewKind) -> Result<ViewKind, OutOfMemory>
    ensures { IfOk result (λ copy. copy ≡ of.now) }
{
    match of {
        ViewKind::Unit(unit) => {
            let (mark, encoding) = copied_two(alloc, &unit.mark, &unit.encoding)?;
            Ok(ViewKind::Unit(Unit { mark, encoding }))
        }
        ViewKind::Layer(of) => {
            let layer = copied_views(alloc, &of.layer);
            let (layer, encoding) = with_one(alloc, &of.layer, layer, &of.encoding)?;
            Ok(ViewKind::Layer(Layer { layer, encoding }))
        }
        ViewKind::Facet(of) => {
            let spec = boxed(alloc, &of.spec, copied_view(alloc, of.spec.get()));
            let (spec, facet) = with_one(alloc, &of.spec, spec, &of.facet)?;
            Ok(ViewKind::Facet(Faceted {
                facet,
                columns: of.columns,
                spacing: of.spacing,
                spec,
            }))
        }
        ViewKind::Joined(of) => Ok(ViewKind::Joined(Joined {
            joining: of.joining,
            columns: of.columns,
            spacing: of.spacing,
            views: copied_views(alloc, &of.views)?,
        })),
    }
}

// Copies of views.
#[cycle(views)]
fn copied_views(alloc: Global, views: &Seq<View>) -> Result<Seq<View>, OutOfMemory>
    ensures { IfOk result (λ copy. copy ≡ views.now) }
{
    let mut out = Seq::new(alloc);
    let copied = push_copies(alloc, views.as_slice(), &mut out);
    filled(views, out, copied)
}

// Adds copies of views.
#[cycle(views)]
fn push_copies(alloc: Global, views: &[View], out: &mut Seq<View>) -> Result<(), OutOfMemory>
    ensures { OnOk result (out.new ≡ out.old ++ views.now) }
{
    for view in views {
        push_copy(out, view, copied_view(alloc, view))?;
    }
    Ok(())
}

impl Copies for Facet {
    fn copied(&self, alloc: Global) -> Result<Facet, OutOfMemory> {
        match self {
            Facet::One(channel) => Ok(Facet::One(channel.copied(alloc)?)),
            Facet::Cross(of) => {
                let (row, column) = copied_two(alloc, &of.row, &of.column)?;
                Ok(Facet::Cross(CrossFacet { row, column }))
            }
        }
    }
}
