//! Why it isn't told what a program needs.
use ob_base::{Memory, TextError};

/// Why it isn't told what a program needs.
#[derive(Clone, Copy)]
pub enum WalkError {
    /// Its instances are made of more text than they may be.
    TooMuch,
    /// Memory ran out.
    Memory,
}

impl From<Memory> for WalkError {
    ghost use Rattle.std.specs.Prelude.{◌≡◌};
    ghost use Rattle.ob_generic_walk.specs.declared.error.WalkError.TheVariants.{Memory};

    ghost from_gives = { λ _ e. e ≡ Memory };

    fn from(_: Memory) -> WalkError {
        WalkError::Memory
    }
}

// Too much text counts as want of memory: the text has no fault by that.
impl From<WalkError> for TextError {
    ghost use Rattle.std.specs.Prelude.{◌≡◌};
    ghost use Rattle.ob_base.specs.declared.text_error.TextError.TheVariants.{Memory};

    ghost from_gives = { λ _ e. e ≡ Memory };

    fn from(_: WalkError) -> TextError {
        TextError::Memory
    }
}
