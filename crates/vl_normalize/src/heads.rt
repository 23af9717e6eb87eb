// What views have beside their kind.
ghost use Rattle.std.specs.Prelude.{◌≡◌, IfOk};
ghost use Rattle.vl_normalize.specs.Heads.{head_of, view_of, no_head, outer_head, inner_head};

use crate::copying::beside_numbers;
use std::alloc::Global;
use text_kit::{OutOfMemory, Seq, Text, copied_five};
use vl_spec::{Resolve, Size, Transform, View, ViewKind};

/// What a view has beside its kind.
pub struct Head {
    /// Its name.
    pub name: Option<Text>,
    /// Its title.
    pub title: Option<Text>,
    /// The name of the source of its rows.
    pub data_: Option<Text>,
    /// What is done to its rows.
    pub transform: Option<Seq<Transform>>,
    /// The numbers of its parameters.
    pub params: Seq<usize>,
    /// Its width.
    pub width: Option<Size>,
    /// Its height.
    pub height: Option<Size>,
    /// Which scales the views inside it share.
    pub resolve: Option<Resolve>,
}

impl Drop for Head {
    fn drop(self) {
        let Head {
            name: _,
            title: _,
            data_: _,
            transform: _,
            params: _,
            width: _,
            height: _,
            resolve: _,
        } = self;
    }
}

/// What a view has beside its kind.
pub fn head_of(alloc: Global, view: &View) -> Result<Head, OutOfMemory>
    ensures { IfOk result (λ head. head ≡ head_of view.now) }
{
    let texts = copied_five(
        alloc,
        &view.name,
        &view.title,
        &view.data_,
        &view.resolve,
        &view.transform,
    )?;
    let (texts, params) = beside_numbers(alloc, texts, view.params.as_slice())?;
    let (name, title, data_, resolve, transform) = texts;
    Ok(Head {
        name,
        title,
        data_,
        transform,
        params,
        width: view.width,
        height: view.height,
        resolve,
    })
}

impl Head {
    /// A view of this kind with it.
    pub fn view(self, kind: ViewKind) -> View
        ensures { result ≡ view_of self kind }
    {
        let Head {
            name,
            title,
            data_,
            transform,
            params,
            width,
            height,
            resolve,
        } = self;
        View {
            name,
            title,
            data_,
            transform,
            params,
            width,
            height,
            resolve,
            kind,
        }
    }

    /// What goes to a faceted view round a unit, and what stays with the unit.
    pub fn parted(self, alloc: Global) -> (Head, Head)
        ensures { result ≡ (outer_head self, inner_head self) }
    {
        let Head {
            name,
            title,
            data_,
            transform,
            params,
            width,
            height,
            resolve,
        } = self;
        let outer = Head {
            name,
            title,
            data_,
            transform,
            params: Seq::new(alloc),
            width: None,
            height: None,
            resolve,
        };
        let inner = Head {
            name: None,
            title: None,
            data_: None,
            transform: None,
            params,
            width,
            height,
            resolve: None,
        };
        (outer, inner)
    }
}

/// Nothing beside a kind.
pub fn no_head(alloc: Global) -> Head
    ensures { result ≡ no_head }
{
    Head {
        name: None,
        title: None,
        data_: None,
        transform: None,
        params: Seq::new(alloc),
        width: None,
        height: None,
        resolve: None,
    }
}
