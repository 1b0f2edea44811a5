//! What a person is told of words that are no command: the first word that is no part of one, and what may be meant. Nothing is
//! claimed of what is said but that it has a bound.
#![tactic(auto)]

mod fault;
mod parts;
mod telling;

pub use telling::explain_words;
