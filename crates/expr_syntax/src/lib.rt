//! The expressions of charts: their tokens, and the trees that they read as.
#![tactic(auto)]

mod calls;
mod domains;
mod errors;
mod expr;
mod forms;
mod fronts;
mod names;
mod parser;
mod reading;
mod scanner;
mod tall;
mod token;
mod token_text;
mod writer;

pub use calls::{TextCall, text_call};
pub use domains::{expressions_are_read, has_domain_length};
pub use errors::ExprError;
pub use expr::{BinOp, Expr};
pub use names::names_of;
pub use reading::{one_reading, read};
pub use writer::{what_was_written_is_read, write};
