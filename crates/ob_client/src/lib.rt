//! What a client of a session has: the lines of requests, the replies that lines tell, and the lines of the trial.
#![tactic(auto)]

mod replies;
mod reply_laws;
mod requests;
mod trial;

pub use replies::read_reply;
pub use reply_laws::replies_are_told;
pub use requests::{request_line, request_lines_ask};
pub use trial::trial_lines;
