//! The laws of verified code: where the machine runs it, it never leaves its slots, its code or its kinds.
#![tactic(auto)]

mod laws;

pub use laws::{
    verified_code_goes_on, verified_code_keeps_to_itself, verified_jumps_lead_ahead_or_to_unit,
};
