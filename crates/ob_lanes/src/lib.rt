//! Batches of requests in lanes: each lane runs a request in slices, and what has read something that a commit changes runs again.
#![tactic(auto)]

mod batch;
mod lane_run;
mod lanes;
mod laws;
mod listed;
mod lists;
mod readers;
mod slicing;
mod stale;
mod starting;
mod turning;

pub use lanes::{Lanes, Turn};
pub use laws::schedules_are_seen;
