//! The verifier's conditions on an image's code, and what it finds out about the slots of each body (this project's own;
//! the form is that of Leroy, "Java bytecode verification", J. Automated Reasoning 30, 2003).
#![tactic(auto)]

mod laws;

pub use laws::{
    bodies_found, first_fault_of_body, first_fault_of_image, fitting_slots_meet_needs,
    one_slot_kinds, one_verdict, verified_bodies, verified_bodies_keep_kinds,
    verified_bodies_name_what_is_there,
};

/// What is wrong with the code of a body, at an instruction or at the end of the body.
#[derive(Clone, Copy)]
pub enum CodeFault {
    /// An instruction leads to a place outside the body.
    BadJump,
    /// A slot that the body doesn't have is named, or that of `this` is set; or the body lacks slots for its parameters.
    BadSlot,
    /// On some way there a slot is unset or of another kind than the operand needs, or two ways hold kinds in it that have
    /// nothing in common.
    KindMismatch,
    /// A field is named that the contract doesn't have.
    BadField,
    /// A contract, state, body, number of arguments or result is named that there isn't.
    BadCall,
    /// A way leads to the end of the body.
    FallsOff,
    /// An instruction leads behind, or to itself, and no `unit` stands there.
    NoFuelMark,
}
