//! Request lines and replies.
#![tactic(auto)]

mod lines;
mod reading;
mod refusal;
mod reply;
mod request;
mod writing;

pub use lines::{incoming_is_asked, read_request, requests_are_asked};
pub use reading::WireError;
pub use refusal::Refusal;
pub use reply::{Answer, Cause, Outcome, Reply, Shown, ShownField, ShownValue};
pub use request::{Arg, Incoming, Op, Request};
pub use writing::reply_bytes;
