//! The faults of single sites: the least fault so far, and one function for each kind of site.
#![tactic(auto)]

mod least;
mod naming;
mod values;

pub use least::{Least, note_if};
pub use naming::{
    note_contract, note_declared, note_field, note_interface, note_itself, note_local, note_object,
    note_own_perm, note_own_state, note_own_states, note_perm, note_public_transaction, note_state,
    note_states, note_transaction, note_variable,
};
pub use values::{
    note_assigned, note_count, note_end, note_kind, note_reached, note_reference, note_return,
    note_value,
};
