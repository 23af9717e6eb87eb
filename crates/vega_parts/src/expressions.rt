//! What expressions give.
ghost use Rattle.std.specs.Prelude.{◌≡◌, ◌++◌, reverse, Option, OnOk};
ghost use Rattle.expr_reading.specs.Mentions.{parameters_in, selections_in, scales_in};
ghost use Rattle.vega_parts.specs.declared.part.Used.TheVariants.{Signal, Store, Scale};
ghost use Rattle.vega_parts.specs.Names.{used_names};
ghost use Rattle.vega_parts.specs.Expressions.{names_in, read_parts, expression_parts};

use crate::around::{Around, place_of};
use crate::members::text_in;
use crate::names::{push_fault, push_used_names};
use crate::part::{Part, Used};
use expr_reading::{expression_of, parameters_of, scales_of, selections_of};
use expr_syntax::{Expr, has_domain_length};
use json_exact::Json;
use spec_schema::SpecKind;
use std::alloc::Global;
use text_kit::{OutOfMemory, Seq};

// Adds the signals in an expression.
fn push_parameters(
    alloc: Global,
    trail: &[Around],
    e: &Expr,
    out: &mut Seq<Part>,
) -> Result<(), OutOfMemory>
    ensures { OnOk result (out.new ≡ out.old ++ used_names Signal (reverse trail.now) (parameters_in e.now)) }
{
    let names = parameters_of(alloc, e)?;
    push_used_names(alloc, Used::Signal, trail, names.as_slice(), out)
}

// Adds the stores in an expression.
fn push_selections(
    alloc: Global,
    trail: &[Around],
    e: &Expr,
    out: &mut Seq<Part>,
) -> Result<(), OutOfMemory>
    ensures { OnOk result (out.new ≡ out.old ++ used_names Store (reverse trail.now) (selections_in e.now)) }
{
    let names = selections_of(alloc, e)?;
    push_used_names(alloc, Used::Store, trail, names.as_slice(), out)
}

// Adds the scales in an expression.
fn push_scales(
    alloc: Global,
    trail: &[Around],
    e: &Expr,
    out: &mut Seq<Part>,
) -> Result<(), OutOfMemory>
    ensures { OnOk result (out.new ≡ out.old ++ used_names Scale (reverse trail.now) (scales_in e.now)) }
{
    let names = scales_of(alloc, e)?;
    push_used_names(alloc, Used::Scale, trail, names.as_slice(), out)
}

// Adds the names in an expression.
fn push_names_in(
    alloc: Global,
    trail: &[Around],
    e: &Expr,
    out: &mut Seq<Part>,
) -> Result<(), OutOfMemory>
    ensures { OnOk result (out.new ≡ out.old ++ names_in (reverse trail.now) e.now) }
{
    push_parameters(alloc, trail, e, out)?;
    push_selections(alloc, trail, e, out)?;
    push_scales(alloc, trail, e, out)
}

// Adds what an expression gives by its reading.
fn push_read_parts(
    alloc: Global,
    lengths: bool,
    trail: &[Around],
    e: &Option<Expr>,
    out: &mut Seq<Part>,
) -> Result<(), OutOfMemory>
    ensures { OnOk result (out.new ≡ out.old ++ read_parts lengths (reverse trail.now) e.now) }
{
    match e {
        Some(e) => {
            if has_domain_length(e) && !lengths {
                push_fault(place_of(alloc, trail)?, SpecKind::Wrong, out)
            } else {
                push_names_in(alloc, trail, e, out)
            }
        }
        None => push_fault(place_of(alloc, trail)?, SpecKind::Wrong, out),
    }
}

/// Adds what an expression gives, by whether lengths of domains may stand in it.
pub fn push_expression_parts(
    alloc: Global,
    lengths: bool,
    trail: &[Around],
    tree: &Json,
    out: &mut Seq<Part>,
) -> Result<(), OutOfMemory>
    ensures { OnOk result (out.new ≡ out.old ++ expression_parts lengths (reverse trail.now) tree.now) }
{
    match text_in(tree) {
        Some(text) => {
            let e = expression_of(alloc, text)?;
            let pushed = push_read_parts(alloc, lengths, trail, &e, out);
            drop(e);
            pushed
        }
        None => Ok(()),
    }
}
