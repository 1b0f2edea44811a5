//! Whether values and objects are the same.
ghost use Rattle.std.specs.Prelude.{◌≡◌, ◌&&◌, not, nat_eq, true, slice_get, option_map, Some};
ghost use Rattle.ob_heap.specs.Differences.{same_value, same_fields, same_object, same_state, is_other};
ghost use Rattle.ob_heap.specs.Plain.{object_of};

use crate::object::Object;
use crate::value::Value;
use ob_base::{FieldId, StateId};

fn is_same_value(one: &Value, other: &Value) -> bool
    ensures { result ≡ same_value one.now other.now }
{
    match (one, other) {
        (Value::Int(one), Value::Int(other)) => *one == *other,
        (Value::Bool(one), Value::Bool(other)) => *one == *other,
        (Value::Text(one), Value::Text(other)) => {
            one.as_str().as_bytes() == other.as_str().as_bytes()
        }
        (Value::Object(one), Value::Object(other)) => one.0 == other.0,
        _ => false,
    }
}

fn is_same_state(one: Option<StateId>, other: Option<StateId>) -> bool
    ensures { result ≡ same_state one other }
{
    match (one, other) {
        (None, None) => true,
        (Some(one), Some(other)) => one.0 == other.0,
        _ => false,
    }
}

fn is_same_item(one: &(FieldId, Value), other: &(FieldId, Value)) -> bool
    ensures { result ≡ (nat_eq one.now.0.0 other.now.0.0 && same_value one.now.1 other.now.1) }
{
    one.0.0 == other.0.0 && is_same_value(&one.1, &other.1)
}

#[tactic(auto, using(crate::proofs::SameLemmas::sames))]
fn are_same_fields(one: &[(FieldId, Value)], other: &[(FieldId, Value)]) -> bool
    ensures { result ≡ same_fields one.now other.now }
{
    if one.len() != other.len() {
        return false;
    }
    for place in 0..one.len() {
        if !is_same_item(&one[place], &other[place]) {
            return false;
        }
    }
    true
}

/// Whether two objects are the same.
pub fn is_same(one: &Object, other: &Object) -> bool
    ensures { result ≡ same_object one.now other.now }
{
    one.contract.0 == other.contract.0
        && is_same_state(one.state, other.state)
        && one.shared == other.shared
        && one.disowned == other.disowned
        && are_same_fields(one.fields.as_slice(), other.fields.as_slice())
}

// Whether two objects differ. Then they do so as plain data, too.
fn differs(one: &Object, other: &Object) -> bool
    ensures differs { result ≡ not (same_object one.now other.now) }
    ensures plain { result ≡ true → ¬ (object_of one.now ≡ object_of other.now) }
{
    // `count` says that the numbers of the fields ascend.
    let _one = one.fields.count();
    let _other = other.fields.count();
    !is_same(one, other)
}

/// Whether an object isn't the one that a base has at its number. A number past the base has none to differ from.
pub fn is_other(base: &[Object], id: u32, object: &Object) -> bool
    ensures other { result ≡ is_other base.now id object.now }
    ensures plain { result ≡ true → ¬ (option_map object_of (slice_get base.now id) ≡ Some (object_of object.now)) }
{
    match base.get(id as usize) {
        Some(before) => differs(before, object),
        None => false,
    }
}
