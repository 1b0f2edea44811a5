//! Why a stage has nothing to give of a text.
use crate::{Memory, ProgramFault};
use std::alloc::AllocError;

/// Why a stage has nothing to give of a program's text: the text has a fault, or memory ran out. Each stage gives this type a
/// name of its own.
#[derive(Clone, Copy)]
pub enum TextError {
    /// The first fault of the text that the stage looks for.
    Fault(ProgramFault),
    /// Memory ran out.
    Memory,
}

impl From<AllocError> for TextError {
    ghost use Rattle.std.specs.Prelude.{◌≡◌};
    ghost use Rattle.ob_base.specs.declared.text_error.TextError.TheVariants.{Memory};

    ghost from_gives = { λ _ e. e ≡ Memory };

    fn from(_: AllocError) -> TextError {
        TextError::Memory
    }
}

impl From<Memory> for TextError {
    ghost use Rattle.std.specs.Prelude.{◌≡◌};
    ghost use Rattle.ob_base.specs.declared.text_error.TextError.TheVariants.{Memory};

    ghost from_gives = { λ _ e. e ≡ Memory };

    fn from(_: Memory) -> TextError {
        TextError::Memory
    }
}
