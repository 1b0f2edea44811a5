//! The kinds of the values in slots after terms, as far as they are known.
#![tactic(auto)]

mod asking;
mod ends;
mod frame;
mod heads;
mod kinds;
mod leaving;
mod passing;
mod straight;

pub use frame::StaticFrame;
pub use kinds::{Kinds, kind_of_constant, kind_of_operator};
pub use passing::go_to_head;
pub use straight::pass_straight;
