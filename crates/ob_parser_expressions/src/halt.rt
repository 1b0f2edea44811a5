//! Why a row of the grammar wasn't read.
use ob_base::Memory;
use std::alloc::AllocError;

/// Why a row wasn't read, and how many tokens are left from the refused one on: none, where one more was expected.
#[derive(Clone, Copy)]
pub enum Halt {
    /// Nothing that begins as the tokens before this one goes on with it.
    Expected { left: usize },
    /// With this token too many parts are open.
    TooDeep { left: usize },
    /// Memory ran out.
    Memory,
}

impl From<Memory> for Halt {
    ghost use Rattle.std.specs.Prelude.{◌≡◌};
    ghost use Rattle.ob_parser_expressions.specs.declared.halt.Halt.TheVariants.{Memory};

    ghost from_gives = { λ _ e. e ≡ Memory };

    fn from(_: Memory) -> Halt {
        Halt::Memory
    }
}

impl From<AllocError> for Halt {
    ghost use Rattle.std.specs.Prelude.{◌≡◌};
    ghost use Rattle.ob_parser_expressions.specs.declared.halt.Halt.TheVariants.{Memory};

    ghost from_gives = { λ _ e. e ≡ Memory };

    fn from(_: AllocError) -> Halt {
        Halt::Memory
    }
}
