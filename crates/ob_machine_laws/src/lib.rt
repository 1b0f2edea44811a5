//! Laws of the machine's steps: how they add up in slices, how long a run can last, what each of them keeps, and that it
//! doesn't matter what was read.
#![tactic(auto)]

mod examples;
mod laws;

pub use examples::{runs_worked_out, steps_worked_out};
pub use laws::{
    locks_are_sets, reads_dont_matter, runs_end, slices_add_up, sound_runs, steps_keep,
    steps_lower_the_measure, tables_agree, unread_stay,
};
