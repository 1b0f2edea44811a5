//! The run of a request as plain data, apart from any store: opened, paused within its units, or answered; and one slice of it on
//! what a store holds at the moment. Laws: what a run has read is all that it depends on, and what it changes it has read; taken to
//! its end in any slices a run is the invocation of its request; and what it has of a store, while it is paused, is what it has changed.
#![tactic(auto)]

mod laws;
mod locality;

pub use laws::{
    requests_are_local, requests_read_changes, slices_come_to_the_invocation,
    slices_take_their_units, unchanged_is_of_the_moment, what_is_held_is_laid_back,
};
pub use locality::{changes_are_read, entries_are_local, runs_are_local, steps_are_local};
