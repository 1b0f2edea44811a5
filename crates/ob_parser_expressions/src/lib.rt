//! Names, permissions, types, parameters and expressions, from the front of tokens.
//!
//! Each function takes one row of the grammar from the front of the tokens, and answers what is left. `room` is how
//! many more parts may be open inside one another.
#![tactic(auto)]

mod expressions;
mod halt;
mod levels;
mod names;
mod parameters;
mod parts;
mod primaries;
mod tokens;

pub use expressions::{EXPRESSION_FIRST, creation, expression, named_call, this_call};
pub use halt::Halt;
pub use names::{
    VALUE_TYPES, mode_word, name_list, name_part, named, permission, reference, subject, type_node,
    value_type,
};
pub use parameters::{TYPES, listed_part, params};
pub use parts::{before, ended, with};
pub use tokens::{
    Symbol, fixed, opens, refused, span_between, starts_with, starts_with_both, starts_with_one_of,
};
