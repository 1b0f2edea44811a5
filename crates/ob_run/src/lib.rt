//! The top call: what the words of a command line ask for, done over files, a source, a sink and a disk.
#![tactic(auto)]

mod auditing;
mod counting;
mod counts;
mod examined;
mod holding;
mod kinds;
mod machine;
mod refusal;
mod serving;
mod telling;
mod top;
mod trying;

pub use examined::{Examined, Opened};
pub use refusal::{StoreRefusal, store_line};
pub use top::{run, sure_runs_name_no_fault};
