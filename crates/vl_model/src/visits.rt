//! The visits that find faults of texts.
ghost use Rattle.std.specs.Prelude.{◌≡◌, ◌++◌, map, reverse, IfOk, OnOk};
ghost use Rattle.vl_model.specs.Visits.{place_of, fault_in, faults_by, faults_seen, text_faults};

use crate::texts::text_fault;
use json_exact::Json;
use spec_schema::SpecKind;
use spec_walk::{Visitor, walk};
use std::alloc::Global;
use text_kit::{OutOfMemory, Seq};
use tree_readers::text_in;
use vl_schema::{TOP, vl_schema};

/// A fault and where it stands.
#[derive(Drop)]
pub struct PlacedFault {
    /// Where it stands: from the top on, the number of each child among its parent's children, counted from 0.
    pub place: Seq<usize>,
    /// Of which kind it is.
    pub kind: SpecKind,
}

/// What is noted of a value on the way down to others.
#[derive(Clone, Copy)]
pub struct Around {
    /// Its number among its parent's children, counted from 0.
    pub number: usize,
    /// Its shape.
    pub shape: u16,
}

// The numbers of some values.
fn numbers(alloc: Global, trail: &[Around]) -> Result<Seq<usize>, OutOfMemory>
    ensures { IfOk result (λ place. place ≡ map (λ a. a.number) trail.now) }
{
    let mut place = Seq::with_capacity(alloc, trail.len())?;
    for around in trail {
        place.push(around.number)?;
    }
    Ok(place)
}

// Where the innermost value of a trail stands.
#[tactic(auto, using(crate::proofs::TrailLemmas::place_forward))]
fn place_of(alloc: Global, trail: &[Around]) -> Result<Seq<usize>, OutOfMemory>
    ensures { IfOk result (λ place. place ≡ place_of (reverse trail.now)) }
{
    match trail {
        [_, below @ ..] => numbers(alloc, below),
        [] => Ok(Seq::new(alloc)),
    }
}

// What is wrong with a value of a shape, where it is a text.
fn fault_in(alloc: Global, shape: u16, tree: &Json) -> Result<Option<SpecKind>, OutOfMemory>
    ensures { IfOk result (λ kind. kind ≡ fault_in shape tree.now) }
{
    match text_in(tree) {
        Some(text) => text_fault(alloc, shape, text.as_str()),
        None => Ok(None),
    }
}

// Adds the fault of a value of a shape.
fn push_fault(
    alloc: Global,
    shape: u16,
    trail: &[Around],
    tree: &Json,
    out: &mut Seq<PlacedFault>,
) -> Result<(), OutOfMemory>
    ensures { OnOk result (out.new ≡ out.old ++ faults_by shape (place_of (reverse trail.now)) tree.now) }
{
    match fault_in(alloc, shape, tree)? {
        Some(kind) => {
            let place = place_of(alloc, trail)?;
            out.push(PlacedFault { place, kind })
        }
        None => Ok(()),
    }
}

// Adds the fault of the innermost value of a trail.
fn push_seen(
    alloc: Global,
    trail: &[Around],
    tree: &Json,
    out: &mut Seq<PlacedFault>,
) -> Result<(), OutOfMemory>
    ensures { OnOk result (out.new ≡ out.old ++ faults_seen (reverse trail.now) tree.now) }
{
    match trail {
        [.., here] => push_fault(alloc, here.shape, trail, tree, out),
        [] => Ok(()),
    }
}

// The values round the next one, from the top on, and the faults that were found so far.
#[derive(Drop)]
struct Texts {
    trail: Seq<Around>,
    faults: Seq<PlacedFault>,
}

impl Visitor for Texts {
    ghost use Rattle.std.specs.Prelude.{reverse};
    ghost use Rattle.vl_model.specs.Visits.{noted as note_of, faults_seen};
    ghost use Rattle.vl_model.specs.declared.visits.Around.{Around};
    ghost use Rattle.vl_model.specs.declared.visits.PlacedFault.{PlacedFault};

    ghost Note = { Around };

    ghost Part = { PlacedFault };

    ghost noted = { note_of };

    ghost visit = { faults_seen };

    ghost trail = { λ t. reverse t.trail };

    ghost gathered = { λ t. t.faults };

    fn enter(
        &mut self,
        alloc: Global,
        number: usize,
        shape: u16,
        tree: &Json,
    ) -> Result<(), OutOfMemory> {
        self.trail.push(Around { number, shape })?;
        push_seen(alloc, self.trail.as_slice(), tree, &mut self.faults)
    }

    fn leave(&mut self) {
        let _ = self.trail.pop();
    }
}

/// The faults of all texts, in their order.
#[tactic(auto, unfolding(crate::specs::Visits::text_faults))]
pub fn text_faults(alloc: Global, tree: &Json) -> Result<Seq<PlacedFault>, OutOfMemory>
    ensures { IfOk result (λ faults. faults ≡ text_faults tree.now) }
{
    let schema = vl_schema(alloc)?;
    let mut texts = Texts {
        trail: Seq::new(alloc),
        faults: Seq::new(alloc),
    };
    walk(alloc, &schema, tree, 0, TOP, &mut texts)?;
    let Texts { trail: _, faults } = texts;
    Ok(faults)
}
