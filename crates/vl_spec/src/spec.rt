// Whole specifications.
ghost use Rattle.std.specs.Prelude.{◌≡◌, IfOk};

use crate::copying::with_three;
use crate::views::copied_view;
use crate::{Autosize, ConfigView, ParamOf, SourceOf, View};
use fixed_num::Num;
use std::alloc::Global;
use text_kit::{OutOfMemory, Seq, Text};

/// A Vega-Lite specification.
pub struct VlSpec {
    /// `$schema`: the address of the format.
    pub schema: Option<Text>,
    /// The space round the whole, in pixels.
    pub padding: Option<Num>,
    /// How the picture's size is found.
    pub autosize: Option<Autosize>,
    /// The sizes of views that say none.
    pub config: Option<ConfigView>,
    /// The sources, in the order of the text.
    pub sources: Seq<SourceOf>,
    /// The parameters, in the order of the text.
    pub params: Seq<ParamOf>,
    /// The view at the top.
    pub view: View,
}

impl Drop for VlSpec {
    fn drop(self) {
        let VlSpec {
            schema: _,
            padding: _,
            autosize: _,
            config: _,
            sources: _,
            params: _,
            view,
        } = self;
        drop(view);
    }
}

impl VlSpec {
    /// A specification that equals this one.
    pub fn copy(&self, alloc: Global) -> Result<VlSpec, OutOfMemory>
        ensures { IfOk result (λ copy. copy ≡ self.now) }
    {
        let view = copied_view(alloc, &self.view);
        let (view, schema, sources, params) = with_three(
            alloc,
            &self.view,
            view,
            &self.schema,
            &self.sources,
            &self.params,
        )?;
        Ok(VlSpec {
            schema,
            padding: self.padding,
            autosize: self.autosize,
            config: self.config,
            sources,
            params,
            view,
        })
    }
}
