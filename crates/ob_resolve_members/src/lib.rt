//! The faults of the parts of a contract: names that are given twice, types, fields, parameters and lists; and whether a
//! contract has what its interface asks.
#![tactic(auto)]

mod declared_name;
mod distinct;
mod fields;
mod held;
mod interfaces;
mod listed;
mod matching;
mod params;
mod permissions;
mod transactions;
mod written;

pub use declared_name::DeclaredName;
pub use distinct::{note_names, note_names_within};
pub use fields::{walk_field_at_top, walk_fields_inside};
pub use interfaces::meets;
pub use listed::walk_listed;
pub use params::walk_params;
pub use written::{is_unowned, span_of_perm, walk_result};
