//! Permissions: what fits, what the giver keeps, what is held after two branches, and how a permission on a contract
//! is said for its interface. A set of states is a number here, whose bit i says whether state i is in it.
#![tactic(auto)]

mod laws;
mod naming;
mod permission;
mod states;

pub use laws::{fitting_laws, joining_laws, mask_laws, naming_laws};
pub use naming::{for_contract, for_interface};
pub use permission::{
    FitFault, Loses, fits, give, join, matches, owned, possible, shared, unowned, within, without,
};
pub use states::{all_states, anywhere, contains, interface_states, meets, only, subset, union};
