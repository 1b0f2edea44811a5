//! The laws of emitted images: what an image says of its program, and that an invocation asks for no more.
#![tactic(auto)]

mod laws;

pub use laws::{
    emitted_jumps_lead_ahead_or_to_unit, emitted_tables_agree, invocations_ignore_names,
};
