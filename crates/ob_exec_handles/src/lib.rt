//! Requests that run nothing, and what a request puts into handles.
#![tactic(auto)]

mod answered;
mod changing;
mod delta;
mod disowning;
mod giving;
mod marking;
mod owning;
mod putting;
mod seeing;
mod spending;
mod spent;
mod states;

pub use answered::{Answered, refused, unchanged};
pub use delta::delta_with;
pub use disowning::disown;
pub use giving::{give, handle_on};
pub use marking::{Mark, is_marked};
pub use owning::owner;
pub use putting::Named;
pub use seeing::see;
pub use spending::{spent_on_disown, spent_on_give, spent_on_owner, spent_on_see};
pub use spent::{ReadItem, Spent, read_handle, read_item, read_new_name};
pub use states::state_told;
