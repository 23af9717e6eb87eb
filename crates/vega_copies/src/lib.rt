//! What comes of rows in whole Vega specifications: the copies of their groups, the lists and values for which names stand in each, how many
//! plots stand in facets, and whether a specification keeps the rules that charts ask.
#![tactic(auto)]

mod alike;
mod apart;
mod copies;
mod counts;
mod facts;
mod folds;
mod found;
mod levels;
mod made;
mod marks;
mod names;
mod objects;
mod paths;
mod tested;

pub use copies::facet_in;
pub use counts::count_plots;
pub use facts::{CopyFacts, MarkFacts, Step, facts_of};
pub use levels::{level_with, with_level};
pub use made::{CopiesMade, CopyMade, made_in};
pub use marks::{count_groups_of, count_marks_of, first_unit, is_group, marks_in};
pub use names::{Level, NamesAt};
pub use objects::scales_in;
pub use paths::levels_on;
pub use tested::keeps_rules;
