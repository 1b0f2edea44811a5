//! Owning places put into the lists of their objects, and taken out of them.
ghost use Rattle.std.specs.Prelude.{◌≡◌, ◌≤◌, ◌<◌, suc, [], ◌∷◌, map, length};
ghost use Rattle.ob_owners.specs.Moving.{with_first_places, with_places, without_places};
ghost use Rattle.ob_owners.specs.Noting.{with_change_at};
ghost use Rattle.ob_owners.specs.Order.{with_place, without_place};
ghost use Rattle.ob_owners.specs.Owning.{owning_of};
ghost use Rattle.ob_owners.specs.Spots.{place_of};

use crate::gathering::Owning;
use crate::places::Places;
use ob_links::Steps;
use std::sync::ledger::Ledger;

// Puts a place before the others of its object, if there is a list of it.
fn put_first<L: Ledger>(places: &mut Places, owning: Owning, steps: &mut Steps<L>)
    requires room { 0 < places.old.room }
    ensures lists { places.new.lists ≡ with_change_at owning.object.0 (λ xs. place_of owning.spot ∷ xs) places.old.lists }
    ensures room { places.old.room ≤ suc places.new.room }
{
    let count = places.count_lists();
    let Owning { object, spot } = owning;
    if object.0 < count {
        places.put_first(object.0, spot, steps);
    }
}

/// Puts places, which stand in order, into the lists of their objects, each before those that are there. There must be room for them.
pub fn put_all_first<L: Ledger>(
    places: &mut Places,
    mut gathered: Vec<Owning>,
    steps: &mut Steps<L>,
)
    requires room { length gathered.items ≤ places.old.room }
    ensures { places.new.lists ≡ with_first_places (map owning_of gathered.items) places.old.lists }
{
    while let Some(owning) = gathered.pop() {
        put_first(places, owning, steps);
    }
}

// Puts a place among those of its object, if there is a list of it.
fn put<L: Ledger>(places: &mut Places, owning: Owning, steps: &mut Steps<L>)
    requires room { 0 < places.old.room }
    ensures lists { places.new.lists ≡ with_change_at owning.object.0 (with_place (place_of owning.spot)) places.old.lists }
    ensures room { places.old.room ≤ suc places.new.room }
{
    let count = places.count_lists();
    let Owning { object, spot } = owning;
    if object.0 < count {
        places.put(object.0, spot, steps);
    }
}

/// Puts places into the lists of their objects, and leaves none. There must be room for them.
pub fn put_all<L: Ledger>(places: &mut Places, coming: &mut Vec<Owning>, steps: &mut Steps<L>)
    requires room { length coming.old.items ≤ places.old.room }
    ensures lists { places.new.lists ≡ with_places (map owning_of coming.old.items) places.old.lists }
    ensures none { coming.new.items ≡ [] }
{
    while let Some(owning) = coming.pop() {
        put(places, owning, steps);
    }
}

// Takes a place out of the list of its object, if there is one.
fn take<L: Ledger>(places: &mut Places, owning: &Owning, steps: &mut Steps<L>)
    ensures lists { places.new.lists ≡ with_change_at owning.now.object.0 (without_place (place_of owning.now.spot)) places.old.lists }
    ensures room { places.new.room ≡ places.old.room }
{
    let count = places.count_lists();
    if owning.object.0 < count {
        places.take(owning.object.0, &owning.spot, steps);
    }
}

/// Takes places out of the lists of their objects, and leaves none.
pub fn take_all<L: Ledger>(places: &mut Places, going: &mut Vec<Owning>, steps: &mut Steps<L>)
    ensures lists { places.new.lists ≡ without_places (map owning_of going.old.items) places.old.lists }
    ensures none { going.new.items ≡ [] }
    ensures room { places.new.room ≡ places.old.room }
{
    while let Some(owning) = going.pop() {
        take(places, &owning, steps);
    }
}
