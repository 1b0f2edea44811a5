//! Values, objects and handles, what a store holds, and what a run changes of it.
#![tactic(auto)]

mod applied;
mod block;
mod changed;
mod content;
mod delta;
mod edit;
mod fields;
mod handles;
mod laws;
mod object;
mod ordered;
mod overlay;
mod reads;
mod same;
mod sequence;
mod value;

pub use block::Block;
pub use content::{Content, apply, reserve};
pub use delta::Delta;
pub use edit::Edit;
pub use fields::Fields;
pub use laws::{
    handles_are_changed, plain_fields_follow, plain_handles_follow, plain_objects_follow,
    same_objects_are_equal, unread_entries_stay,
};
pub use object::{Handle, Object};
pub use ordered::add_handle;
pub use overlay::{MakeError, Overlay};
pub use sequence::Sequence;
pub use value::{RcStr, Value};
