//! The parts of a Vega specification.
ghost use Rattle.std.specs.Prelude.{◌≡◌, ◌++◌, reverse, IfOk, OnOk};
ghost use Rattle.vega_parts.specs.Parts.{signal_itself, signal_parts, leaf_parts, use_parts, is_value, is_size, guide_parts, mark_side};
ghost use Rattle.vega_parts.specs.Parts.{by_shape, parts_at, parts_of};
ghost use Rattle.vega_parts.specs.inner.Gathered.{parts_by};

use crate::around::{Around, noted};
use crate::data::push_data_parts;
use crate::expressions::push_expression_parts;
use crate::facets::push_facet_parts;
use crate::label_format::push_label_format_parts;
use crate::lengths::push_sort_parts;
use crate::marks::{push_mark_parts, push_plot_parts};
use crate::names::push_used_member;
use crate::part::{Part, Used};
use crate::scales::{for_size, push_legend_parts, push_scale_parts};
use crate::selections::push_update_parts;
use crate::signals::{push_mark_names, push_on_in_group, push_selectors, push_signal_names};
use crate::transforms::push_transform_parts;
use json_exact::Json;
use spec_schema::Schema;
use spec_walk::{Visitor, walk};
use std::alloc::Global;
use text_kit::{OutOfMemory, Seq};
use vega_schema::{
    AXIS, CHANNEL, DATA, EXPRESSION, EXTENT, FACET, LABEL_FORMAT, LEGEND, MARK, MARK_FROM,
    REFERENCE, SCALE, SCALE_DOMAIN, SIGNAL, SIZE_CHANNEL, SIZE_EXPRESSION, SIZE_VALUE, SORT, TOP,
    TRANSFORM, VALUE, WORDS_CHANNEL, WORDS_VALUE, vega_schema,
};

// Adds what a signal gives of itself.
fn push_signal_itself(
    alloc: Global,
    trail: &[Around],
    tree: &Json,
    out: &mut Seq<Part>,
) -> Result<(), OutOfMemory>
    ensures { OnOk result (out.new ≡ out.old ++ signal_itself (reverse trail.now) tree.now) }
{
    push_signal_names(alloc, trail, tree, out)?;
    push_on_in_group(alloc, trail, tree, out)?;
    push_mark_names(alloc, trail, tree, out)
}

// Adds what a signal gives.
fn push_signal_parts(
    alloc: Global,
    trail: &[Around],
    tree: &Json,
    out: &mut Seq<Part>,
) -> Result<(), OutOfMemory>
    ensures { OnOk result (out.new ≡ out.old ++ signal_parts (reverse trail.now) tree.now) }
{
    push_signal_itself(alloc, trail, tree, out)?;
    push_selectors(alloc, trail, tree, out)?;
    push_update_parts(alloc, trail, tree, out)
}

// Adds what a value gives that holds no others.
fn push_leaf_parts(
    alloc: Global,
    shape: u16,
    trail: &[Around],
    tree: &Json,
    out: &mut Seq<Part>,
) -> Result<(), OutOfMemory>
    ensures { OnOk result (out.new ≡ out.old ++ leaf_parts shape (reverse trail.now) tree.now) }
{
    if shape == EXPRESSION {
        push_expression_parts(alloc, false, trail, tree, out)
    } else if shape == SIZE_EXPRESSION {
        push_expression_parts(alloc, true, trail, tree, out)
    } else if shape == LABEL_FORMAT {
        push_label_format_parts(alloc, trail, tree, out)
    } else {
        Ok(())
    }
}

// Adds what a value gives that has a member which uses a name.
fn push_use_parts(
    alloc: Global,
    shape: u16,
    trail: &[Around],
    tree: &Json,
    out: &mut Seq<Part>,
) -> Result<(), OutOfMemory>
    ensures { OnOk result (out.new ≡ out.old ++ use_parts shape (reverse trail.now) tree.now) }
{
    if shape == EXTENT {
        push_used_member(alloc, Used::Signal, "signal", trail, tree, out)
    } else if shape == SCALE_DOMAIN || shape == REFERENCE {
        push_used_member(alloc, Used::Domain, "data", trail, tree, out)
    } else if shape == MARK_FROM {
        push_used_member(alloc, Used::MarkRows, "data", trail, tree, out)
    } else {
        push_leaf_parts(alloc, shape, trail, tree, out)
    }
}

// Whether it is the shape of a value of a channel, or of an item of a list of them.
fn is_value(shape: u16) -> bool
    ensures { result ≡ is_value shape }
{
    shape == CHANNEL || shape == VALUE || shape == WORDS_CHANNEL || shape == WORDS_VALUE
}

// Whether it is that of one of a channel that gives the size of a plot.
fn is_size(shape: u16) -> bool
    ensures { result ≡ is_size shape }
{
    shape == SIZE_CHANNEL || shape == SIZE_VALUE
}

// Adds what the value of a channel, an axis or a legend gives.
fn push_guide_parts(
    alloc: Global,
    shape: u16,
    trail: &[Around],
    tree: &Json,
    out: &mut Seq<Part>,
) -> Result<(), OutOfMemory>
    ensures { OnOk result (out.new ≡ out.old ++ guide_parts shape (reverse trail.now) tree.now) }
{
    if is_value(shape) || shape == AXIS {
        push_used_member(alloc, Used::Scale, "scale", trail, tree, out)
    } else if is_size(shape) {
        push_used_member(alloc, for_size(trail), "scale", trail, tree, out)
    } else if shape == LEGEND {
        push_legend_parts(alloc, trail, tree, out)
    } else {
        push_use_parts(alloc, shape, trail, tree, out)
    }
}

// Adds what the top, a mark, a facet or a scale gives.
fn push_mark_side(
    alloc: Global,
    shape: u16,
    trail: &[Around],
    tree: &Json,
    out: &mut Seq<Part>,
) -> Result<(), OutOfMemory>
    ensures { OnOk result (out.new ≡ out.old ++ mark_side shape (reverse trail.now) tree.now) }
{
    if shape == TOP {
        push_plot_parts(alloc, trail, out)
    } else if shape == MARK {
        push_mark_parts(alloc, trail, tree, out)
    } else if shape == FACET {
        push_facet_parts(alloc, trail, tree, out)
    } else if shape == SCALE {
        push_scale_parts(alloc, trail, tree, out)
    } else {
        push_guide_parts(alloc, shape, trail, tree, out)
    }
}

// Adds what a value of a shape gives.
fn push_by_shape(
    alloc: Global,
    shape: u16,
    trail: &[Around],
    tree: &Json,
    out: &mut Seq<Part>,
) -> Result<(), OutOfMemory>
    ensures { OnOk result (out.new ≡ out.old ++ by_shape shape (reverse trail.now) tree.now) }
{
    if shape == DATA {
        push_data_parts(alloc, trail, tree, out)
    } else if shape == TRANSFORM {
        push_transform_parts(alloc, trail, tree, out)
    } else if shape == SORT {
        push_sort_parts(alloc, trail, tree, out)
    } else if shape == SIGNAL {
        push_signal_parts(alloc, trail, tree, out)
    } else {
        push_mark_side(alloc, shape, trail, tree, out)
    }
}

// Adds what the visit of a value gives.
fn push_parts_at(
    alloc: Global,
    trail: &[Around],
    tree: &Json,
    out: &mut Seq<Part>,
) -> Result<(), OutOfMemory>
    ensures { OnOk result (out.new ≡ out.old ++ parts_at (reverse trail.now) tree.now) }
{
    match trail {
        [.., here] => push_by_shape(alloc, here.shape, trail, tree, out),
        [] => Ok(()),
    }
}

// The values round the next one, from the top on, and the parts so far.
#[derive(Drop)]
struct Gathering {
    trail: Seq<Around>,
    parts: Seq<Part>,
}

impl Visitor for Gathering {
    ghost use Rattle.std.specs.Prelude.{reverse};
    ghost use Rattle.vega_parts.specs.Trails.{noted as note_of};
    ghost use Rattle.vega_parts.specs.Parts.{parts_at};
    ghost use Rattle.vega_parts.specs.declared.part.Part.{Part};
    ghost use Rattle.vega_parts.specs.declared.around.Around.{Around};

    ghost Note = { Around };

    ghost Part = { Part };

    ghost noted = { note_of };

    ghost visit = { parts_at };

    ghost trail = { λ g. reverse g.trail };

    ghost gathered = { λ g. g.parts };

    fn enter(
        &mut self,
        alloc: Global,
        number: usize,
        shape: u16,
        tree: &Json,
    ) -> Result<(), OutOfMemory> {
        self.trail.push(noted(number, shape, tree))?;
        push_parts_at(alloc, self.trail.as_slice(), tree, &mut self.parts)
    }

    fn leave(&mut self) {
        let _ = self.trail.pop();
    }
}

// The parts of a specification, as a walk by a schema gives them.
fn parts_by(alloc: Global, schema: &Schema, tree: &Json) -> Result<Seq<Part>, OutOfMemory>
    ensures { IfOk result (λ parts. parts ≡ parts_by schema.now tree.now) }
{
    let mut gathering = Gathering {
        trail: Seq::new(alloc),
        parts: Seq::new(alloc),
    };
    walk(alloc, schema, tree, 0, TOP, &mut gathering)?;
    let Gathering { trail: _, parts } = gathering;
    Ok(parts)
}

/// The parts of a specification, in the order of the text.
pub fn parts_of(alloc: Global, tree: &Json) -> Result<Seq<Part>, OutOfMemory>
    ensures { IfOk result (λ parts. parts ≡ parts_of tree.now) }
{
    let schema = vega_schema(alloc)?;
    let parts = parts_by(alloc, &schema, tree);
    drop(schema);
    parts
}
