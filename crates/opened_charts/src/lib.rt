//! What tests of runs share: charts of the first form, engines of them, and what these write.
#![tactic(auto)]

mod charts;

pub use charts::{
    chart_of, form_of, is_replied, is_written, opened, opened_without_ids, played_on,
};
