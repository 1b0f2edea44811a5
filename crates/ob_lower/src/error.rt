//! Why a body has no terms.
ghost use Rattle.std.specs.Prelude.{◌≡◌};
ghost use Rattle.ob_lower.specs.Lowering.{error_of};

use ob_base::{LIMIT, ProgramFault, TextError};
use ob_lower_parts::Stopped;

/// Why a body has no terms: its fault is that it needs more slots than it may have.
pub type LowerError = TextError;

/// What is told of a stop. A body that isn't well-formed counts as want of memory.
pub fn error_of(stopped: Stopped) -> LowerError
    ensures { result ≡ error_of stopped }
{
    match stopped {
        Stopped::Full(span) => LowerError::Fault(ProgramFault {
            number: LIMIT,
            span,
        }),
        Stopped::NotWellFormed | Stopped::Memory => LowerError::Memory,
    }
}
