//! The session: lines in, replies out, on a store.
#![tactic(auto)]

mod answering;
mod batches;
mod committing;
mod laws;
mod limits;
mod lines;
mod serving;
mod turns;

pub use batches::{answer_turn, lanes_of};
pub use laws::{batches_keep_their_order, lines_are_asked, sessions_are_kept};
pub use limits::Limits;
pub use serving::{Served, serve};
