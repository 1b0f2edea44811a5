//! The verifier of code: the first fault of an image, or that it has none (this project's own; the form is that of Leroy, "Java
//! bytecode verification", J. Automated Reasoning 30, 2003).
#![tactic(auto)]

mod answers;
mod calls;
mod conditions;
mod frame;
mod image;
mod interfaces;
mod kinds;
mod known;
mod needs;
mod numbers;
mod pass;
mod rows;
mod slots;
mod survey;
mod transactions;
mod verifying;

pub use numbers::{
    BAD_CALL, BAD_FIELD, BAD_JUMP, BAD_SLOT, FALLS_OFF, KIND_MISMATCH, NO_FUEL_MARK, fault_of,
    name_of, number_of,
};
pub use verifying::{Verified, VerifyError, verify};
