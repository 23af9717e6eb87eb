//! What goes through a specification by its parts, knows where it is, and keeps the earliest fault.
ghost use Rattle.std.specs.Prelude.{◌≡◌, [], ◌∷◌, None, Some, OnOk};
ghost use Rattle.spec_schema.specs.Order.{earlier as earlier_fault};
ghost use Rattle.spec_walk.specs.declared.places.Step.TheVariants as step;
ghost use Rattle.vl_trails.specs.Faults.{fault_at, fault_if};
ghost use Rattle.vl_trails.specs.Judging.{entered, left, after};
ghost use Rattle.vl_trails.specs.Trails.{to_item, to_member};

use crate::fault::Broken;
use crate::placing::placed_as;
use json_exact::Json;
use spec_schema::{Fault, SpecKind, earlier};
use spec_walk::Step;
use std::alloc::Global;
use text_kit::{OutOfMemory, Seq, Text};

/// Where one is in a specification, and the earliest fault so far.
pub struct Judging<'t> {
    /// The tree that says the specification.
    pub tree: &'t Json,
    /// The steps from the top to the part where one is.
    pub trail: Seq<Step>,
    /// The earliest fault so far.
    pub first: Option<Fault>,
}

impl Drop for Judging<'_> {
    fn drop(self) {
        let Judging {
            tree: _,
            trail: _,
            first: _,
        } = self;
    }
}

// Keeps the earlier of two faults.
fn keep_earlier(first: &mut Option<Fault>, fault: Fault)
    ensures { first.new ≡ earlier_fault first.old (Some fault) }
{
    *first = earlier(first.take(), Some(fault));
}

impl<'t> Judging<'t> {
    /// At the top of a tree, with no fault so far.
    pub fn new(alloc: Global, tree: &'t Json) -> Judging<'t>
        ensures tree { result.tree.now ≡ tree.now }
        ensures trail { result.trail ≡ [] }
        ensures first { result.first ≡ None }
    {
        Judging {
            tree,
            trail: Seq::new(alloc),
            first: None,
        }
    }

    /// One step further, to a member.
    pub fn enter(&mut self, alloc: Global, name: &str) -> Result<(), OutOfMemory>
        ensures { OnOk result (self.new ≡ entered self.old (step.Name name.now)) }
    {
        let name = Text::of(alloc, name)?;
        self.trail.push(Step::Name(name))
    }

    /// One step further, to an item.
    pub fn enter_item(&mut self, number: usize) -> Result<(), OutOfMemory>
        ensures { OnOk result (self.new ≡ entered self.old (step.Number number)) }
    {
        self.trail.push(Step::Number(number))
    }

    /// Back by one step.
    pub fn leave(&mut self)
        ensures { self.new ≡ left self.old }
    {
        let outer = self.trail.len().saturating_sub(1);
        self.trail.truncate(outer);
    }

    // Keeps a fault of the part where one is, if it is the earliest.
    fn keep(&mut self, alloc: Global, kind: SpecKind) -> Result<(), OutOfMemory>
        ensures { OnOk result (self.new ≡ after self.old (fault_at kind self.old.trail ∷ [])) }
    {
        let what = Broken::Value(kind);
        let fault = placed_as(alloc, self.tree, self.trail.as_slice(), &what)?;
        keep_earlier(&mut self.first, fault);
        Ok(())
    }

    /// The part where one is has a fault of this kind, where a test says so.
    #[tactic(auto, using(crate::proofs::WayLemmas::after_none))]
    pub fn judge(&mut self, alloc: Global, test: bool, kind: SpecKind) -> Result<(), OutOfMemory>
        ensures { OnOk result (self.new ≡ after self.old (fault_if test kind self.old.trail)) }
    {
        if test { self.keep(alloc, kind) } else { Ok(()) }
    }

    /// A member of the object where one is has a fault of this kind, where a test says so.
    #[tactic(auto, using(crate::proofs::WayLemmas::there_and_back))]
    pub fn judge_member(
        &mut self,
        alloc: Global,
        name: &str,
        test: bool,
        kind: SpecKind,
    ) -> Result<(), OutOfMemory>
        ensures { OnOk result (self.new ≡ after self.old (fault_if test kind (to_member self.old.trail name.now))) }
    {
        self.enter(alloc, name)?;
        self.judge(alloc, test, kind)?;
        self.leave();
        Ok(())
    }

    /// An item of the list where one is has a fault of this kind, where a test says so.
    #[tactic(auto, using(crate::proofs::WayLemmas::there_and_back))]
    pub fn judge_item(
        &mut self,
        alloc: Global,
        number: usize,
        test: bool,
        kind: SpecKind,
    ) -> Result<(), OutOfMemory>
        ensures { OnOk result (self.new ≡ after self.old (fault_if test kind (to_item self.old.trail number))) }
    {
        self.enter_item(number)?;
        self.judge(alloc, test, kind)?;
        self.leave();
        Ok(())
    }
}
