//! Lowering: from bodies with numbers in place of names to the terms of Silica, with one slot after the other (Coblenz et
//! al., TOPLAS 42(3), 2020, "Silica"; that temporaries have numbers is this project's own).
#![tactic(auto)]

mod bodies;
mod error;
mod expressions;
mod position;
mod rows;
mod simple;
mod statements;
mod values;

pub use bodies::lower;
pub use error::LowerError;
