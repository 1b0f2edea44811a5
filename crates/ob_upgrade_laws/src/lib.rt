//! A store at rest for a program is one for a program that matches it. Programs match, or one mismatch holds, and a program matches itself.
#![tactic(auto)]

mod laws;

pub use laws::{
    namesakes_are_there, one_mismatch, programs_match_themselves, upgraded_objects_fail_alike,
    upgraded_stores_are_at_rest,
};
