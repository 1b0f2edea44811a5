//! The check of permissions: whether a body derives by the permission rules, or the fault of the first premise that fails
//! (Coblenz et al., TOPLAS 42(3), 2020, "Silica").
#![tactic(auto)]

mod bodies;
mod branches;
mod calling;
mod changing;
mod joining;
mod returning;
mod straight;
mod testing;
mod trace;

pub use bodies::check;
pub use ob_flow_context::FlowError;
pub use ob_flow_premises::is_as_at_head;
pub use trace::{Letting, LettingAt, Stop, Trace};
