//! Why a part of a step gives nothing.
use ob_base::Memory;
use std::alloc::{AllocError, AllocFailed};

/// Why a part of a step gives nothing.
#[derive(Clone, Copy)]
pub enum Off {
    /// Memory ran out.
    Memory,
    /// There is no step.
    NoStep,
}

impl From<Memory> for Off {
    ghost use Rattle.std.specs.Prelude.{◌≡◌};
    ghost use Rattle.ob_machine_parts.specs.declared.off.Off.TheVariants.{Memory};

    ghost from_gives = { λ _ e. e ≡ Memory };

    fn from(_: Memory) -> Off {
        Off::Memory
    }
}

impl From<AllocError> for Off {
    ghost use Rattle.std.specs.Prelude.{◌≡◌};
    ghost use Rattle.ob_machine_parts.specs.declared.off.Off.TheVariants.{Memory};

    ghost from_gives = { λ _ e. e ≡ Memory };

    fn from(_: AllocError) -> Off {
        Off::Memory
    }
}

impl<T: Drop> From<AllocFailed<T>> for Off {
    ghost use Rattle.std.specs.Prelude.{◌≡◌};
    ghost use Rattle.ob_machine_parts.specs.declared.off.Off.TheVariants.{Memory};

    ghost from_gives = { λ _ e. e ≡ Memory };

    fn from(_: AllocFailed<T>) -> Off {
        Off::Memory
    }
}
