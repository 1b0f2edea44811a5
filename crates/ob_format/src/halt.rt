//! Why reading stopped.
ghost use Rattle.std.specs.Prelude.{◌≡◌, length};

use std::alloc::AllocError;

/// Why nothing was read.
#[derive(Clone, Copy)]
pub enum Halt {
    /// With the first byte of these nothing goes on; or one more was wanted, and none is left.
    Stop {
        /// How many bytes are left, from the refused one on.
        left: usize,
    },
    /// Memory ran out.
    Memory,
}

impl From<AllocError> for Halt {
    ghost use Rattle.std.specs.Prelude.{◌≡◌};
    ghost use Rattle.ob_format.specs.declared.halt.Halt.TheVariants.{Memory};

    ghost from_gives = { λ _ e. e ≡ Memory };

    fn from(_: AllocError) -> Halt {
        Halt::Memory
    }
}

/// Nothing goes on with the first of these bytes.
pub fn refused(bytes: &[u8]) -> Halt
    ensures { result ≡ Halt.Stop (length bytes.now) }
{
    Halt::Stop { left: bytes.len() }
}
