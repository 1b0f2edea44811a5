//! Why bytes aren't a payload of a content.
use ob_base::{Memory, NameError};
use ob_format::Halt;

/// Why nothing was read of a payload.
#[derive(Clone, Copy)]
pub enum PayloadError {
    /// The bytes say nothing that a payload may say.
    Bad,
    /// Memory ran out.
    Memory,
}

impl From<Memory> for PayloadError {
    ghost use Rattle.std.specs.Prelude.{◌≡◌};
    ghost use Rattle.ob_store_payload.specs.declared.error.PayloadError.TheVariants.{Memory};

    ghost from_gives = { λ _ e. e ≡ Memory };

    fn from(_: Memory) -> PayloadError {
        PayloadError::Memory
    }
}

impl From<NameError> for PayloadError {
    ghost use Rattle.std.specs.Prelude.{◌≡◌};
    ghost use Rattle.ob_store_payload.specs.Errors.{name_error};

    ghost from_gives = { λ name e. e ≡ name_error name };

    fn from(error: NameError) -> PayloadError {
        match error {
            NameError::Bad => PayloadError::Bad,
            NameError::Memory => PayloadError::Memory,
        }
    }
}

impl From<Halt> for PayloadError {
    ghost use Rattle.std.specs.Prelude.{◌≡◌};
    ghost use Rattle.ob_store_payload.specs.Errors.{halt_error};

    ghost from_gives = { λ halt e. e ≡ halt_error halt };

    fn from(halt: Halt) -> PayloadError {
        match halt {
            Halt::Stop { .. } => PayloadError::Bad,
            Halt::Memory => PayloadError::Memory,
        }
    }
}
