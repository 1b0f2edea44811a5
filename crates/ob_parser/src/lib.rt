//! From the tokens of a program to its tree, by recursive descent.
//!
//! Each function takes one row of the grammar from the front of the tokens, and answers what is left. `room` is how
//! many more parts may be open inside one another.
#![tactic(auto)]

mod contracts;
mod members;
mod parsing;
mod simple;
mod statements;

pub use parsing::{ParseError, parse};
