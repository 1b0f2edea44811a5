//! What tells owners.
ghost use Rattle.std.specs.Prelude.{◌≡◌, ℕ, Option, option_map, IfOk};
ghost use Rattle.ob_rest_spec.specs.Incoming.{StorePlace};
ghost use Rattle.ob_owners.specs.Spots.{place_of};

use crate::spot::Spot;
use ob_base::{Memory, ObjectId};
use std::alloc::Global;

/// What tells the place that owns an object.
pub trait Index {
    /// The place that owns the object of a number, if one does.
    ghost owner: { Self → ℕ → Option StorePlace };

    /// The place that owns the object of this number, if one does.
    fn find(&self, alloc: Global, id: ObjectId) -> Result<Option<Spot>, Memory>
        ensures { IfOk result (λ spot. option_map place_of spot ≡ owner self.now id.0) };
}
