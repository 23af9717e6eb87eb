// The visits that find data and parameters.
ghost use Rattle.std.specs.Prelude.{◌≡◌, ◌++◌, map, reverse, IfOk, OnOk};
ghost use Rattle.vl_building.specs.Gather.{place_of, param_at, params_in, data_seen, params_seen, items_of, gathered};

use crate::data::{DataAt, ParamAt, data_at};
use crate::marks::param_of;
use crate::places::child;
use crate::several::{both, push_made};
use json_exact::Json;
use spec_walk::{Visitor, walk};
use std::alloc::Global;
use text_kit::{OutOfMemory, Seq};
use tree_readers::members_of;
use vl_schema::{DATA, PARAMETERS, TOP, vl_schema};

/// What is noted of a value on the way down to others.
#[derive(Clone, Copy)]
pub struct Around {
    /// Its number among its parent's children, counted from 0.
    pub number: usize,
    /// Its shape.
    pub shape: u16,
}

/// What a walk through a specification finds.
pub trait Found: Sized {
    ghost use Rattle.std.specs.Prelude.{List};
    ghost use Rattle.json_exact.specs.declared.json.Json.{Json};
    ghost use Rattle.vl_building.specs.declared.gather.Around.{Around};

    ghost seen: { List Around → Json → List Self };

    /// Adds what the visit of the innermost value of a trail finds.
    fn push_seen(
        alloc: Global,
        trail: &[Around],
        tree: &Json,
        out: &mut Seq<Self>,
    ) -> Result<(), OutOfMemory>
        ensures { OnOk result (out.new ≡ out.old ++ seen (reverse trail.now) tree.now) };
}

// The numbers of some values.
fn numbers(alloc: Global, trail: &[Around]) -> Result<Seq<usize>, OutOfMemory>
    ensures { IfOk result (λ place. place ≡ map (λ a. a.number) trail.now) }
{
    let mut place = Seq::with_capacity(alloc, trail.len())?;
    for around in trail {
        place.push(around.number)?;
    }
    Ok(place)
}

// Where the innermost value of a trail stands.
#[tactic(auto, using(crate::proofs::TrailLemmas::place_forward))]
fn place_of(alloc: Global, trail: &[Around]) -> Result<Seq<usize>, OutOfMemory>
    ensures { IfOk result (λ place. place ≡ place_of (reverse trail.now)) }
{
    match trail {
        [_, below @ ..] => numbers(alloc, below),
        [] => Ok(Seq::new(alloc)),
    }
}

/// The items of a value, none where it is no list.
pub fn items_of(tree: &Json) -> &[Json]
    ensures { result.now ≡ items_of tree.now }
{
    match tree {
        Json::List(items) => items.as_slice(),
        Json::Null
        | Json::Flag(_)
        | Json::Number(_)
        | Json::Huge
        | Json::Text(_)
        | Json::Object(_) => &[],
    }
}

// The parameter that an item of a list at a place is.
fn param_at(
    alloc: Global,
    place: &[usize],
    number: usize,
    tree: &Json,
) -> Result<ParamAt, OutOfMemory>
    ensures { IfOk result (λ found. found ≡ param_at place.now (number, tree.now)) }
{
    let (place, param) = both(
        child(alloc, place, number),
        param_of(alloc, members_of(tree)),
    )?;
    Ok(ParamAt { place, param })
}

// Adds the parameters of a list at a place.
fn push_list(
    alloc: Global,
    place: &[usize],
    items: &[Json],
    out: &mut Seq<ParamAt>,
) -> Result<(), OutOfMemory>
    ensures { OnOk result (out.new ≡ out.old ++ params_in place.now items.now) }
{
    for (number, tree) in items.iter().enumerate() {
        push_made(out, param_at(alloc, place, number, tree))?;
    }
    Ok(())
}

impl Found for DataAt {
    ghost seen = { data_seen };

    fn push_seen(
        alloc: Global,
        trail: &[Around],
        tree: &Json,
        out: &mut Seq<DataAt>,
    ) -> Result<(), OutOfMemory> {
        match trail {
            [.., here] if here.shape == DATA => {
                let place = place_of(alloc, trail)?;
                push_made(out, data_at(alloc, place, members_of(tree)))
            }
            _ => Ok(()),
        }
    }
}

impl Found for ParamAt {
    ghost seen = { params_seen };

    fn push_seen(
        alloc: Global,
        trail: &[Around],
        tree: &Json,
        out: &mut Seq<ParamAt>,
    ) -> Result<(), OutOfMemory> {
        match trail {
            [.., here] if here.shape == PARAMETERS => {
                let place = place_of(alloc, trail)?;
                push_list(alloc, place.as_slice(), items_of(tree), out)
            }
            _ => Ok(()),
        }
    }
}

// The values round the next one, from the top on, and what was gathered so far.
#[derive(Drop)]
struct Gathering<T> {
    trail: Seq<Around>,
    parts: Seq<T>,
}

impl<T: Found> Visitor for Gathering<T> {
    ghost use Rattle.std.specs.Prelude.{reverse};
    ghost use Rattle.vl_building.specs.Gather.{noted as note_of};
    ghost use Rattle.vl_building.specs.declared.gather.Around.{Around};

    ghost Note = { Around };

    ghost Part = { T };

    ghost noted = { note_of };

    ghost visit = { T.seen };

    ghost trail = { λ g. reverse g.trail };

    ghost gathered = { λ g. g.parts };

    fn enter(
        &mut self,
        alloc: Global,
        number: usize,
        shape: u16,
        tree: &Json,
    ) -> Result<(), OutOfMemory> {
        self.trail.push(Around { number, shape })?;
        T::push_seen(alloc, self.trail.as_slice(), tree, &mut self.parts)
    }

    fn leave(&mut self) {
        let _ = self.trail.pop();
    }
}

/// The data of a specification, or its parameters, in the order of the text.
pub fn gathered<T: Found + Drop>(alloc: Global, tree: &Json) -> Result<Seq<T>, OutOfMemory>
    ensures { IfOk result (λ parts. parts ≡ gathered T.seen tree.now) }
{
    let schema = vl_schema(alloc)?;
    let mut gathering = Gathering {
        trail: Seq::new(alloc),
        parts: Seq::new(alloc),
    };
    let walked = walk(alloc, &schema, tree, 0, TOP, &mut gathering);
    drop(schema);
    walked?;
    let Gathering { trail: _, parts } = gathering;
    Ok(parts)
}
