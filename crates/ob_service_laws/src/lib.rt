//! Laws of a program that is served: its lanes are serializable by the source meaning, its runs end, each disk is a store or is refused,
//! and a sure disk fails no call.
#![tactic(auto)]

mod laws;

pub use laws::{calls_of_sure_disks_succeed, each_disk, entered_runs_end, lanes_go_as_the_source};
