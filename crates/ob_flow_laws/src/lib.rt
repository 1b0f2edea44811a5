//! Laws of the permission rules: a body has one outcome, terms derive one part after another, what holds where a
//! form derives, and what its premises tell.
#![tactic(auto)]

mod rules;

pub use rules::{
    forms_pass, one_outcome, premises_hold, returns_meet_exits, terms_in_turn, terms_pass,
};
