//! Faults of rules.
use spec_schema::SpecKind;
use spec_walk::Step;
use text_kit::{Seq, Text};

/// A fault of a rule.
pub struct RuleFault {
    /// The steps from the top to the value where it stands.
    pub trail: Seq<Step>,
    /// What is at fault there.
    pub what: Broken,
}

/// What is at fault.
pub enum Broken {
    /// The value, in this way.
    Value(SpecKind),
    /// A member that has to be there: its number among the rules of the object, counted from 0, and its name.
    Missing(usize, Text),
}

impl Drop for RuleFault {
    fn drop(self) {
        let RuleFault { trail: _, what: _ } = self;
    }
}

impl Drop for Broken {
    fn drop(self) {
        match self {
            Broken::Value(_) => {}
            Broken::Missing(_, _) => {}
        }
    }
}
