//! Why lowering stops in the midst of a body.
use ob_base::{Memory, Span};
use std::alloc::AllocError;

/// Why lowering stops in the midst of a body.
#[derive(Clone, Copy)]
pub enum Stopped {
    /// One more slot than there are is needed here.
    Full(Span),
    /// Something isn't there that the body names, which is so in no body that is well-formed.
    NotWellFormed,
    /// Memory ran out.
    Memory,
}

impl From<Memory> for Stopped {
    ghost use Rattle.std.specs.Prelude.{◌≡◌};
    ghost use Rattle.ob_lower_parts.specs.declared.error.Stopped.TheVariants.{Memory};

    ghost from_gives = { λ _ e. e ≡ Memory };

    fn from(_: Memory) -> Stopped {
        Stopped::Memory
    }
}

impl From<AllocError> for Stopped {
    ghost use Rattle.std.specs.Prelude.{◌≡◌};
    ghost use Rattle.ob_lower_parts.specs.declared.error.Stopped.TheVariants.{Memory};

    ghost from_gives = { λ _ e. e ≡ Memory };

    fn from(_: AllocError) -> Stopped {
        Stopped::Memory
    }
}
