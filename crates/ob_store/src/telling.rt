//! A store tells the owners of its objects.
ghost use Rattle.std.specs.Prelude.{◌≡◌, ◌<◌, option_map, option_copied, IfOk};
ghost use Rattle.ob_owners.specs.Indexes.{told_owner};
ghost use Rattle.ob_owners.specs.Spots.{place_of};

use crate::store::Store;
use ob_base::{Duplicate, Memory, ObjectId, both};
use ob_links::Steps;
use ob_owners::{Index, Owners, Spot};
use std::alloc::Global;
use std::marker::Brand;
use std::sync::ledger::{Blank, Ledger};

fn copy_spot(alloc: Global, spot: &Spot) -> Result<Spot, Memory>
    ensures { IfOk result (λ copy. copy ≡ spot.now) }
{
    match spot {
        Spot::Field(id, field) => Ok(Spot::Field(*id, *field)),
        Spot::Handle(who, name) => {
            let (who, name) = both(who.copy(alloc), name.copy(alloc))?;
            Ok(Spot::Handle(who, name))
        }
    }
}

fn copy_found(alloc: Global, found: Option<&Spot>) -> Result<Option<Spot>, Memory>
    ensures { IfOk result (λ copy. copy ≡ option_copied found.entry) }
{
    match found {
        Some(spot) => Ok(Some(copy_spot(alloc, spot)?)),
        None => Ok(None),
    }
}

// The place of the owner of an object, as an index tells it, with a new ledger for the steps.
fn tell_owner<L: Ledger>(
    alloc: Global,
    owners: &Owners,
    id: ObjectId,
    blank: Blank,
) -> Result<Option<Spot>, Memory>
    requires name { blank.name ≡ L.name }
    requires parts { (blank.parts ≡ L.parts) × (0 < L.parts) }
    ensures { IfOk result (λ spot. option_map place_of spot ≡ told_owner owners.now id.0) }
{
    let mut steps = Steps::<L>::new(blank);
    copy_found(alloc, owners.owner(id, &mut steps))
}

impl Index for Store {
    ghost owner = { λ s n. told_owner s.owners n };

    fn find(&self, alloc: Global, id: ObjectId) -> Result<Option<Spot>, Memory> {
        tell_owner::<Brand>(alloc, &self.owners, id, Blank::new(1))
    }
}
