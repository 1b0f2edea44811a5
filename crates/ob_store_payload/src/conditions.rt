//! Whether what bytes say may be said of a content.
ghost use Rattle.std.specs.Prelude.{◌≡◌, ◌<◌, ◌≤◌, ◌&&◌, ◌^◌, true, false, length, Option, All, IsTrue, MatchOption};
ghost use Rattle.std.specs.List.{list_all, enumerate_from};
ghost use Rattle.std.specs.Ordering.{is_lt};
ghost use Rattle.ob_base.specs.Names.{is_label, is_text};
ghost use Rattle.ob_base.specs.Numbers.{is_int};
ghost use Rattle.ob_base.specs.Limits.{most_handles, most_objects};
ghost use Rattle.ob_base.specs.declared.id.ObjectId.{ObjectId as ObjectNumber};
ghost use Rattle.ob_base.specs.declared.name.Label.{Label as LabelBytes};
ghost use Rattle.ob_heap.specs.Ascending.{IsAscending};
ghost use Rattle.ob_heap.specs.Contents.{content_of};
ghost use Rattle.ob_heap.specs.Deltas.{AreNext, IsDelta, label_order, with_handles};
ghost use Rattle.ob_heap.specs.Differences.{with_objects};
ghost use Rattle.ob_heap.specs.Plain.{object_of, value_of};
ghost use Rattle.ob_heap.specs.declared.object.Object.{Object as StoredObject};
ghost use Rattle.ob_heap.specs.declared.object.Handle.{Handle as StoredHandle};
ghost use Rattle.ob_heap_spec.specs.Contents.{IsObject};
ghost use Rattle.ob_code_table.specs.ImageTables.{contract_of_code, field_of_code, table_of_image, type_of_code};
ghost use Rattle.ob_store_laws.specs.Recorded.{changes_of, content_with, handle_change};
ghost use Rattle.ob_store_payload.specs.Values.{HasItsValues};
ghost use Rattle.ob_store_payload.specs.Conditions.{are_handles, are_in_order, counted_with, is_field_value, is_handle_change, is_object, is_state_of, is_value_of, may_be_said};
ghost use Rattle.ob_store_spec.specs.Changes.{AreChangesOf};

use ob_base::{LONGEST_STRING, Label, MOST_HANDLES, MOST_OBJECTS, ObjectId, StateId};
use ob_code::{ContractCode, FieldCode, Image, TypeCode, is_interface};
use ob_code_table::contract_at;
use ob_heap::{Content, Delta, Handle, Object, RcStr, Value};
use ob_owners::available;
use std::cmp::Ordering;

/// How many objects there are after these, where they ascend, each once, and new ones have the next numbers.
pub fn count_after(content: &Content, objects: &[(ObjectId, Object)]) -> Option<usize>
    ensures { MatchOption result (¬ (IsAscending (λ (e : ObjectNumber × StoredObject). e.0.0) objects.now × AreNext (length content.now.objects) objects.now))
        (λ count. IsAscending (λ (e : ObjectNumber × StoredObject). e.0.0) objects.now × AreNext (length content.now.objects) objects.now
        × (count ≡ length (with_objects content.now.objects objects.now))) }
{
    let mut least = 0;
    let mut count = content.objects().len();
    for entry in objects {
        let number = entry.0.0 as usize;
        if number < least || number > count {
            return None;
        }
        if number == count {
            count += 1;
        }
        least = number + 1;
    }
    Some(count)
}

// Whether a number is an `int`: each of 64 bits is.
fn is_int(number: i64) -> bool
    ensures { result ≡ is_int number }
{
    true
}

fn is_text(text: &RcStr) -> bool
    ensures { result ≡ is_text text.now }
{
    text.as_str().len() <= LONGEST_STRING
}

// Whether a value is one of a kind, where there are so many objects.
fn is_value_of(count: usize, kind: TypeCode, value: &Value) -> bool
    ensures { result ≡ is_value_of count (type_of_code kind) (value_of value.now) }
{
    match (kind, value) {
        (TypeCode::Int, Value::Int(number)) => is_int(*number),
        (TypeCode::Bool, Value::Bool(_)) => true,
        (TypeCode::Text, Value::Text(text)) => is_text(text),
        (TypeCode::Reference(_, _), Value::Object(id)) => (id.0 as usize) < count,
        _ => false,
    }
}

// Whether the field at a place isn't available, or its value is one of its kind.
fn is_field_value(
    count: usize,
    contract: &ContractCode,
    object: &Object,
    place: usize,
    field: &FieldCode,
) -> bool
    ensures { result ≡ is_field_value count (contract_of_code contract.now) (object_of object.now) (place, field_of_code field.now) }
{
    match available(contract, object, place) {
        Some(entry) => is_value_of(count, field.of, &entry.1),
        None => true,
    }
}

fn are_field_values(count: usize, contract: &ContractCode, object: &Object) -> bool
    ensures { result ≡ list_all (is_field_value count (contract_of_code contract.now) (object_of object.now)) (enumerate_from 0 (contract_of_code contract.now).fields) }
{
    for (place, field) in contract.fields.as_slice().iter().enumerate() {
        if !is_field_value(count, contract, object, place, field) {
            return false;
        }
    }
    true
}

// Whether an object of a contract may be in a state, or in none.
fn is_state_of(contract: &ContractCode, state: Option<StateId>) -> bool
    ensures { result ≡ is_state_of (contract_of_code contract.now) state }
{
    match state {
        Some(state) => (state.0 as usize) < contract.states.len(),
        None => contract.states.len() == 0,
    }
}

// Whether an object is one of the contract that it names, where there are so many objects.
fn is_object(code: &Image, count: usize, object: &Object) -> bool
    ensures { result ≡ is_object (table_of_image code.now) count (object_of object.now) }
{
    match contract_at(code, object.contract) {
        Some(contract) => {
            !is_interface(contract)
                && is_state_of(contract, object.state)
                && are_field_values(count, contract, object)
        }
        None => false,
    }
}

fn are_objects(code: &Image, count: usize, objects: &[(ObjectId, Object)]) -> bool
    ensures { result ≡ list_all (λ (e : ObjectNumber × StoredObject). is_object (table_of_image code.now) count (object_of e.1)) objects.now }
{
    objects.iter().all(|entry| is_object(code, count, &entry.1))
}

/// The order of two names of handles.
pub fn order(name: &(Label, Label), other: &(Label, Label)) -> Ordering
    ensures { result ≡ label_order name.now other.now }
{
    let who = name.0.as_bytes().cmp(other.0.as_bytes());
    who.then(name.1.as_bytes().cmp(other.1.as_bytes()))
}

fn is_before(name: &(Label, Label), other: &(Label, Label)) -> bool
    ensures { result ≡ is_lt (label_order name.now other.now) }
{
    order(name, other) == Ordering::Less
}

// Whether changes of handles stand in the order of their names, each once.
fn are_in_order(handles: &[((Label, Label), Option<Handle>)]) -> bool
    ensures { result ≡ are_in_order handles.now }
{
    for place in 1..handles.len() {
        if !is_before(&handles[place - 1].0, &handles[place].0) {
            return false;
        }
    }
    true
}

// Whether a label is one, which each is.
fn is_label(label: &Label) -> bool
    ensures { result ≡ is_label label.now }
{
    !label.as_bytes().is_empty()
}

// Whether a handle's name is two labels, and it is on one of so many objects, if it is there.
fn is_handle_change(count: usize, name: &(Label, Label), handle: Option<Handle>) -> bool
    ensures { result ≡ is_handle_change count (handle_change (name.now, handle)) }
{
    if !is_label(&name.0) || !is_label(&name.1) {
        return false;
    }
    match handle {
        Some(handle) => (handle.object.0 as usize) < count,
        None => true,
    }
}

fn are_handle_changes(count: usize, handles: &[((Label, Label), Option<Handle>)]) -> bool
    ensures { result ≡ list_all (λ (e : (LabelBytes × LabelBytes) × Option StoredHandle). is_handle_change count (handle_change e)) handles.now }
{
    handles
        .iter()
        .all(|entry| is_handle_change(count, &entry.0, entry.1))
}

// How many handles there are after one that was there before, or not, is there, or not.
fn counted_with(count: usize, before: Option<Handle>, after: Option<Handle>) -> usize
    requires { count < 2 ^ 63 }
    ensures { result ≡ counted_with before after count }
{
    match (before, after) {
        (None, Some(_)) => count + 1,
        (Some(_), None) => count.saturating_sub(1),
        _ => count,
    }
}

/// How many handles there are after changes of them.
pub fn count_handles_after(content: &Content, handles: &[((Label, Label), Option<Handle>)]) -> usize
    requires few { length content.now.handles ≤ most_handles }
    requires order { IsTrue (are_in_order handles.now) }
    ensures { result ≡ length (with_handles content.now.handles handles.now) }
{
    let mut count = content.count_handles();
    for entry in handles {
        let before = content.handle(&entry.0.0, &entry.0.1);
        count = counted_with(count, before, entry.1);
    }
    count
}

// Whether changes of handles may be said of a content, where there are so many objects after them.
fn are_handles(
    content: &Content,
    count: usize,
    handles: &[((Label, Label), Option<Handle>)],
) -> bool
    requires { length content.now.handles ≤ most_handles }
    ensures { result ≡ are_handles content.now.handles count handles.now }
{
    if !are_in_order(handles) || !are_handle_changes(count, handles) {
        return false;
    }
    count_handles_after(content, handles) <= MOST_HANDLES
}

// Whether a delta whose objects come to so many may be said of a content.
fn may_be_said(code: &Image, content: &Content, count: usize, delta: &Delta) -> bool
    requires { length content.now.handles ≤ most_handles }
    ensures { result ≡ may_be_said (table_of_image code.now) content.now.handles count delta.now }
{
    if count > MOST_OBJECTS || !are_objects(code, count, delta.objects.as_slice()) {
        return false;
    }
    are_handles(content, count, delta.handles.as_slice())
}

/// Whether what a delta says are changes of a content, by the class table of an image (this project's own).
pub fn are_changes(code: &Image, content: &Content, delta: &Delta) -> bool
    requires few { length content.now.handles ≤ most_handles }
    requires values { All (λ (e : ObjectNumber × StoredObject). HasItsValues (table_of_image code.now) (object_of e.1)) delta.now.objects }
    ensures yes { result ≡ true → AreChangesOf (table_of_image code.now) (content_of content.now) (changes_of (table_of_image code.now) delta.now) }
    ensures no { result ≡ false → ¬ (AreChangesOf (table_of_image code.now) (content_of content.now) (changes_of (table_of_image code.now) delta.now)) }
    ensures delta { result ≡ true → IsDelta content.now delta.now }
    ensures objects { result ≡ true → All (λ (e : ObjectNumber × StoredObject). IsObject (table_of_image code.now) (content_with content.now delta.now).objects (object_of e.1)) delta.now.objects }
{
    match count_after(content, delta.objects.as_slice()) {
        Some(count) => may_be_said(code, content, count, delta),
        None => false,
    }
}
