//! Faults of words and signs, and of the grammar, in words: what is allowed at a place, and what could stand there.
#![tactic(auto)]

mod brackets;
mod expected;
mod forms;
mod fronts;
mod helping;
mod hints;
mod numbers;
mod parts;
mod rules;
mod slips;
mod spelling;
mod spots;
mod trying;

pub use expected::explain_grammar;
pub use spelling::explain_token;
pub use spots::begins_contract;
