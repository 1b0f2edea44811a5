//! Types in instances of generic contracts: what they are called, whether they have a fault, and which instance they need.
#![tactic(auto)]

mod around;
mod bounds;
mod conditions;
mod copies;
mod heads;
mod meeting;
mod naming;
mod permissions;
mod printing;

pub use around::{AroundType, OwnInstance, is_param, is_same};
pub use bounds::is_refused;
pub use conditions::{is_generic, is_nothing, is_own, takes_nothing};
pub use copies::{copy_argument, copy_instance, copy_written};
pub use heads::Heads;
pub use meeting::{instance_of_with, meet, meet_argument};
pub use naming::{argument_in, written_in};
pub use permissions::perm_in;
pub use printing::printed_name;
