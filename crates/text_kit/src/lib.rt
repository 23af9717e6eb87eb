//! Text, lists and boxed values that contracts see as what they hold: a text as its bytes, a list
//! as its elements, a boxed value as the value. No pointer or capacity stands in a value of these
//! types, so a contract can say that one value equals what a definition gives.
#![tactic(auto)]

mod boxed;
mod copies;
mod memory;
mod seq;
mod several;
mod text;

pub use boxed::Boxed;
pub use copies::{Copies, copy_list};
pub use memory::OutOfMemory;
pub use seq::Seq;
pub use several::{
    beside, beside_three, copied_five, copied_four, copied_seven, copied_six, copied_three,
    copied_two,
};
pub use text::Text;
