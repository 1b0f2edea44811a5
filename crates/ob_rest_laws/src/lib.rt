//! Laws of a store at rest: no object fails in any of the six ways; each asset has one owner, unless it is marked;
//! which object fails first is worked out; the owner of an object is the first of its owning places; which changes keep
//! a store at rest; and the empty store is at rest.
#![tactic(auto)]

mod laws;

pub use laws::{
    assets_have_one_owner, at_rest_is_asked_way_by_way, empty_store_is_at_rest,
    first_failing_object_is_told, owner_is_first_owning_place, owners_add_up,
    quiet_changes_keep_rest,
};
