//! Places of a list, looked for along it.
ghost use Rattle.std.specs.Prelude.{◌≡◌, ◌<◌, [], length, false, IfSome, slice_index_or};
ghost use Rattle.std.specs.Option.{option_map_or};
ghost use Rattle.std.specs.Ordering.{is_lt, is_eq};
ghost use Rattle.slab.specs.Slab.{get};
ghost use Rattle.ob_links.specs.Lists.{joined as pairs_of, AreApart};
ghost use Rattle.ob_owners.specs.Order.{place_order, node_by};
ghost use Rattle.ob_owners.specs.Places.{AreKeyed};
ghost use Rattle.ob_owners.specs.Spots.{place_of};

use crate::order::{is_before, is_same};
use crate::spot::Spot;
use ob_links::{Links, NodeId, Steps};
use slab::Slab;
use std::sync::ledger::Ledger;

// Whether the place of a key comes after another one.
fn comes_after(spots: &Slab<Spot>, key: u64, spot: &Spot) -> bool
    ensures { result ≡ option_map_or (λ q. is_lt (place_order (place_of spot.now) (place_of q))) (get spots.now key) false }
{
    match spots.get(key as usize) {
        Some(other) => is_before(spot, other),
        None => false,
    }
}

// Whether the place of a key is this one.
fn is_place(spots: &Slab<Spot>, key: u64, spot: &Spot) -> bool
    ensures { result ≡ option_map_or (λ q. is_eq (place_order (place_of spot.now) (place_of q))) (get spots.now key) false }
{
    match spots.get(key as usize) {
        Some(other) => is_same(spot, other),
        None => false,
    }
}

/// The node of the first place of a list that comes after another one, if there is one.
pub fn node_past<L: Ledger>(
    links: &Links,
    spots: &Slab<Spot>,
    list: u32,
    spot: &Spot,
    steps: &mut Steps<L>,
) -> Option<NodeId>
    requires list { list < length links.now.lists }
    ensures node { result ≡ node_by (λ q. is_lt (place_order (place_of spot.now) (place_of q))) spots.now (slice_index_or links.now.lists list []) }
    ensures apart { IfSome result (λ n. AreApart (pairs_of links.now.lists)) }
{
    let mut at = links.first(list, steps);
    while let Some(node) = at {
        if comes_after(spots, links.item(node), spot) {
            return Some(node);
        }
        at = links.after(node, steps);
    }
    None
}

/// The node of a place in a list, if it is there.
pub fn node_of<L: Ledger>(
    links: &Links,
    spots: &Slab<Spot>,
    list: u32,
    spot: &Spot,
    steps: &mut Steps<L>,
) -> Option<NodeId>
    requires list { list < length links.now.lists }
    ensures node { result ≡ node_by (λ q. is_eq (place_order (place_of spot.now) (place_of q))) spots.now (slice_index_or links.now.lists list []) }
    ensures apart { IfSome result (λ n. AreApart (pairs_of links.now.lists)) }
{
    let mut at = links.first(list, steps);
    while let Some(node) = at {
        if is_place(spots, links.item(node), spot) {
            return Some(node);
        }
        at = links.after(node, steps);
    }
    None
}
