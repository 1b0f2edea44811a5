//! The order of places.
ghost use Rattle.std.specs.Prelude.{◌≡◌};
ghost use Rattle.std.specs.Ordering.{nat_cmp, ordering_then, is_lt, is_eq};
ghost use Rattle.ob_heap_spec.specs.Contents.{name_order};
ghost use Rattle.ob_rest_spec.specs.Incoming.{stored_field, stored_handle};
ghost use Rattle.ob_owners.specs.Order.{place_order};
ghost use Rattle.ob_owners.specs.Spots.{place_of};

use crate::spot::Spot;
use ob_base::{FieldId, Label, ObjectId};
use std::cmp::Ordering;

// The order of two fields of objects.
fn field_order(id: ObjectId, field: FieldId, other_id: ObjectId, other: FieldId) -> Ordering
    ensures { result ≡ ordering_then (nat_cmp id.0 other_id.0) (nat_cmp field.0 other.0) }
{
    id.0.cmp(&other_id.0).then(field.0.cmp(&other.0))
}

// The order of two names of handles.
fn handle_order(who: &Label, name: &Label, other_who: &Label, other: &Label) -> Ordering
    ensures { result ≡ name_order (record { who = who.now; name = name.now }) (record { who = other_who.now; name = other.now }) }
{
    let first = who.as_bytes().cmp(other_who.as_bytes());
    let second = name.as_bytes().cmp(other.as_bytes());
    first.then(second)
}

// How a field of an object stands to a place.
fn order_of_field(id: ObjectId, field: FieldId, other: &Spot) -> Ordering
    ensures { result ≡ place_order (stored_field id.0 field.0) (place_of other.now) }
{
    match other {
        Spot::Field(other_id, other) => field_order(id, field, *other_id, *other),
        Spot::Handle(_, _) => Ordering::Less,
    }
}

// How a handle stands to a place.
fn order_of_handle(who: &Label, name: &Label, other: &Spot) -> Ordering
    ensures { result ≡ place_order (stored_handle (record { who = who.now; name = name.now })) (place_of other.now) }
{
    match other {
        Spot::Field(_, _) => Ordering::Greater,
        Spot::Handle(other_who, other) => handle_order(who, name, other_who, other),
    }
}

// How a place stands to another one.
fn order_of(spot: &Spot, other: &Spot) -> Ordering
    ensures { result ≡ place_order (place_of spot.now) (place_of other.now) }
{
    match spot {
        Spot::Field(id, field) => order_of_field(*id, *field, other),
        Spot::Handle(who, name) => order_of_handle(who, name, other),
    }
}

/// Whether a place comes before another one.
pub fn is_before(spot: &Spot, other: &Spot) -> bool
    ensures { result ≡ is_lt (place_order (place_of spot.now) (place_of other.now)) }
{
    order_of(spot, other) == Ordering::Less
}

/// Whether two places are the same.
pub fn is_same(spot: &Spot, other: &Spot) -> bool
    ensures { result ≡ is_eq (place_order (place_of spot.now) (place_of other.now)) }
{
    order_of(spot, other) == Ordering::Equal
}
