//! What stands in the values of a tree, and under the names of the members of its objects.
#![tactic(auto)]

mod parts;
mod values;

pub use parts::{
    cell_at, flag_at, has_member, items_at, members_at, needed_members, needed_text, number_at,
    text_at, two_texts_at, word_at,
};
pub use values::{
    cell_in, flag_in, items_in, member_value, members_in, members_of, number_in, text_in, text_of,
};
