//! That emitted code is verified: the verifier finds nothing wrong with the image of a well-formed program.
#![tactic(auto)]

mod laws;

pub use laws::{
    checked_programs_are_well_formed, emitted_code_implements_interfaces, emitted_code_is_verified,
    emitted_slots_fit,
};
