//! How many slots the bodies of an image have, each in a byte.
ghost use Rattle.std.specs.Prelude.{All};
ghost use Rattle.ob_verify_spec.specs.Laws.{SlotsFitByte};
ghost use Rattle.ob_verify.specs.Slots.{FitsByte};

use ob_code::{BodyCode, Image};

// How many slots a body has, in a byte.
fn slots_of(body: &BodyCode) -> u8
    ensures { FitsByte body.now }
{
    body.slots
}

// Reads how many slots each of these bodies has.
fn read_slots_of(bodies: &[BodyCode])
    ensures { All FitsByte bodies.now }
{
    for body in bodies {
        let _slots = slots_of(body);
    }
}

/// Reads how many slots each body of an image has, so that it is known that a byte says it.
pub fn read_slots(image: &Image)
    ensures { SlotsFitByte image.now }
{
    let contracts = image.contracts.as_slice();
    for own in contracts {
        read_slots_of(own.bodies.as_slice());
    }
}
