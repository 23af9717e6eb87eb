//! The compiler: the Vega specification of a Vega-Lite specification, which is the plan of its chart written down. It infers nothing: what the
//! specification means is in the plan.
#![tactic(auto)]

mod assembled;
mod channels;
mod domains;
mod drags;
mod exprs;
mod facets;
mod guides;
mod keys;
mod lists;
mod made;
mod marks;
mod mentioned;
mod names;
mod numbers;
mod ranked;
mod ranks;
mod scales;
mod several;
mod signals;
mod sizes;
mod sources;
mod stems;
mod steps;
mod views;

pub use assembled::written;
