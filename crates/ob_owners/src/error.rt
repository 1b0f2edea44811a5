//! Why a store isn't one at rest.
use ob_base::{Memory, ObjectId};

/// Why a store wasn't found to be at rest.
#[derive(Clone, Copy)]
pub enum RestError {
    /// The object of this number fails, and none before it does.
    NotAtRest(ObjectId),
    /// Memory ran out.
    Memory,
}

impl From<Memory> for RestError {
    ghost use Rattle.std.specs.Prelude.{◌≡◌};
    ghost use Rattle.ob_owners.specs.declared.error.RestError.TheVariants.{Memory};

    ghost from_gives = { λ _ e. e ≡ Memory };

    fn from(_: Memory) -> RestError {
        RestError::Memory
    }
}
