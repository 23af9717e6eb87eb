//! Laws of compiled specifications, the first part of their equality with the direct meaning: the names that are made are apart, signals have the values
//! of parameters, the steps of a unit are the transforms of its list, the lists at the top are the rows of units, and those in copies are the parts of panels.
#![tactic(auto)]

mod link_laws;
mod list_laws;
mod name_laws;
mod part_laws;
mod state_laws;
mod step_laws;
mod top_laws;
mod value_laws;

pub use link_laws::{begun_are_linked, rows_are_linked};
pub use list_laws::{
    begun_go_on, begun_stand, facet_units_rise, few_views_have_few_units, grid_numbers_rise,
    others_stand, plans_are_small, units_are_numbered, units_come_first, units_stand,
};
pub use name_laws::{
    made_names_are_new, made_names_differ, plan_scales_are_named, scale_names_differ,
};
pub use part_laws::{
    copies_are_choices, copies_are_panels, covered_have_cells, directed_cells_are_these,
    drag_lists_leave, fields_are_mentioned, fields_are_told, fields_in_own_orders,
    first_cells_are_these, followers_are_covered, inner_lists_are_parted, key_lists_leave,
    lists_are_parted, lists_of_begun_are_covered, lists_that_add_none_are_covered,
    made_lists_are_covered, mentioned_are_outside, panels_in_own_orders, panels_stay_covered,
    parts_are_covered, rows_left_read_ids, scale_lists_add_none, scale_lists_are_parted,
    scale_lists_leave, stands_where_all_stand, steps_cover, steps_read_ids, transforms_add_none,
    transforms_follow, units_are_parted,
};
pub use state_laws::{
    chart_states_are_of_params, chart_states_have_top, names_of_params_differ, params_are_written,
    sources_are_written,
};
pub use step_laws::{all_steps_agree, plans_fit, steps_agree};
pub use top_laws::{top_is_linked, top_is_units_and_others};
pub use value_laws::{
    begun_lack_alike, commands_read_alike, inside_adds_nothing, names_at_top_are_these,
    nothing_is_added, null_signal_is_null, signals_are_kept_alike, signals_settle_alike,
    stores_of_states_are_apart, units_lack_alike, values_are_alike,
};
