//! The canonical layout of a program. Each function writes the tokens of one part after what is written already.
#![tactic(auto)]

mod contract;
mod expr;
mod member;
mod name;
mod operator;
mod stmt;
mod token;

pub use contract::print;
