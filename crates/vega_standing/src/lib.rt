//! What specifications keep that are read: they break no rule, and so they keep what charts ask.
#![tactic(auto)]

mod laws;

pub use laws::{
    accepted_keep_rules, accepted_keep_selections, accepted_signals_are_in_order,
    accepted_signals_settle, files_keep_rules, folds_are_kept, objects_are_kept, rules_are_kept,
};
