//! The scales of a Vega specification, from its lists of rows: the cells or the numbers of their domains, the ends of their ranges or
//! their colours and signs, and their paddings.
#![tactic(auto)]

mod columns;
mod domains;
mod entries;
mod evaluation;
mod known;
mod laws;
mod numbers;
mod ranges;
mod scaled;
mod scales;

pub use domains::discrete_domain;
pub use known::{domain_by_rank, domain_of_cells, domain_of_numbers};
pub use laws::{laws_of_domains, laws_of_known_domains, laws_of_scales};
pub use scaled::{Scaled, domain_size};
pub use scales::{
    domain_length, domain_of, is_built, is_discrete, is_domain_built, is_ordinal, scale_of,
    scale_over,
};
