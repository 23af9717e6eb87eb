//! The names of the cells that definitions of channels make in the rows of a unit: of aggregates, bins, units of time and stacks.
#![tactic(auto)]

mod names;

pub use names::{
    COUNT, bin_name, bin_settings, bins_in, end_name, end_of_field, has_end, most_bins, name_of,
    stack_start, unit_name,
};
