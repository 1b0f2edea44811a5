//! Silica, the core that bodies are lowered to (Coblenz et al., TOPLAS 42(3), 2020, "Silica"): its terms, with copies
//! of all of them and their plain data.
#![tactic(auto)]

mod body;
mod place;
mod term;

pub use body::{TermBody, term_body_loses_nothing};
pub use place::{Constant, Given, Operand, Place};
pub use term::{Form, SilicaOperator, Term};
