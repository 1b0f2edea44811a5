//! What the payloads of a journal say of a store, what a disk represents, and why it is refused.
#![tactic(auto)]

mod laws;

pub use laws::{one_content, one_refusal, one_saying};
