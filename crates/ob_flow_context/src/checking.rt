//! The answer to a premise.
ghost use Rattle.ob_flow_spec.specs.Premises.{one};
ghost use Rattle.ob_flow_context.specs.Checking.{MeetsPremises};

use ob_base::{ProgramFault, Span, TextError};

/// Why a body isn't passed: its fault is that of the first premise that fails.
pub type FlowError = TextError;

/// Asks for one premise.
pub fn must(number: u16, span: Span, holds: bool) -> Result<(), FlowError>
    ensures { MeetsPremises result (one number span holds) }
{
    if holds {
        Ok(())
    } else {
        Err(FlowError::Fault(ProgramFault { number, span }))
    }
}
