//! Objects of the store, as the run has left them, and what a run does to them.
ghost use Rattle.std.specs.Prelude.{◌≡◌, ◌<◌, length, true, OnOk, IfOk};
ghost use Rattle.std.specs.Option.{option_map_or};
ghost use Rattle.ob_heap_spec.specs.Contents.{object_at};
ghost use Rattle.ob_heap_spec.specs.Objects.{with_field, unfinished, Object as PlainObject};
ghost use Rattle.ob_heap_spec.specs.Worlds.{read_object, edit_object, SameWorld};
ghost use Rattle.ob_heap_spec.specs.Marks.{mark_shared, mark_disowned};
ghost use Rattle.ob_heap.specs.Overlays.{laid_over, objects_over, is_read, KeepsUnread, no_object, only};
ghost use Rattle.ob_heap.specs.Plain.{object_of, value_of, fields_of};
ghost use Rattle.ob_machine_parts.specs.Editing.{with_state, shared_now, disowned_now};
ghost use Rattle.ob_machine_parts.specs.Making.{Makes};
ghost use Rattle.ob_machine_parts.specs.Giving.{Gives};
ghost use Rattle.ob_machine_parts.specs.Guards.{Guarded};
ghost use Rattle.ob_machine_parts.specs.Shown.{world_with};
ghost use Rattle.ob_machine_parts.specs.Units.{Metered};

use crate::off::Off;
use ob_base::{ContractId, Duplicate, FieldId, Memory, ObjectId, StateId};
use ob_heap::{Content, Edit, Fields, MakeError, Object, Overlay, Value};
use std::alloc::Global;

/// The object of a number.
#[tactic(auto, using(crate::proofs::WorldLemmas::finding))]
pub fn find<'a>(base: &'a Content, overlay: &'a Overlay, id: ObjectId) -> Result<&'a Object, Off>
    ensures object { Gives result (object_at (objects_over base.now.objects overlay.now) id.0) (λ o. object_of o.now) }
    ensures within { OnOk result (id.0 < length (laid_over base.now.objects overlay.now)) }
{
    match overlay.look(base, id) {
        Some(object) => Ok(object),
        None => Err(Off::NoStep),
    }
}

/// A copy of the value of a field.
pub fn field_value(alloc: Global, object: &Object, field: FieldId) -> Result<Value, Off>
    ensures { Gives result ((object_of object.now).fields field.0) value_of }
{
    match object.fields.get(field) {
        Some(value) => Ok(value.copy(alloc)?),
        None => Err(Off::NoStep),
    }
}

/// The object of a number is read.
pub fn note(base: &Content, overlay: &mut Overlay, id: ObjectId) -> Result<(), Memory>
    ensures world { OnOk result ((g : Guarded) (u : Metered) → SameWorld (read_object (world_with g u base.now.objects overlay.old) id.0) (world_with g u base.now.objects overlay.new)) }
    ensures objects { OnOk result (laid_over base.now.objects overlay.new ≡ laid_over base.now.objects overlay.old) }
    ensures unread { OnOk result (KeepsUnread no_object overlay.old overlay.new) }
    ensures read { OnOk result (id.0 < length base.now.objects → is_read id.0 overlay.new ≡ true) }
{
    overlay.note(base, id)
}

/// A field of the object of a number gets a value.
pub fn set_field(
    alloc: Global,
    base: &Content,
    overlay: &mut Overlay,
    id: ObjectId,
    field: FieldId,
    value: Value,
) -> Result<(), Memory>
    requires { id.0 < length (laid_over base.now.objects overlay.old) }
    ensures world { OnOk result ((g : Guarded) (u : Metered) → world_with g u base.now.objects overlay.new ≡ edit_object (with_field field.0 (value_of value)) id.0 (world_with g u base.now.objects overlay.old)) }
    ensures unread { OnOk result (KeepsUnread (only (length base.now.objects) id.0) overlay.old overlay.new) }
{
    overlay.edit(alloc, base, id, Edit::Field(field, value))
}

/// The object of a number gets a state, and these fields in place of its own.
pub fn set_state(
    alloc: Global,
    base: &Content,
    overlay: &mut Overlay,
    id: ObjectId,
    state: StateId,
    fields: Fields,
) -> Result<(), Memory>
    requires { id.0 < length (laid_over base.now.objects overlay.old) }
    ensures world { OnOk result ((g : Guarded) (u : Metered) → world_with g u base.now.objects overlay.new ≡ edit_object (with_state state (fields_of fields)) id.0 (world_with g u base.now.objects overlay.old)) }
    ensures unread { OnOk result (KeepsUnread (only (length base.now.objects) id.0) overlay.old overlay.new) }
{
    overlay.edit(alloc, base, id, Edit::State(state, fields))
}

fn set_shared(
    alloc: Global,
    base: &Content,
    overlay: &mut Overlay,
    id: ObjectId,
) -> Result<(), Memory>
    requires { id.0 < length (laid_over base.now.objects overlay.old) }
    ensures world { OnOk result ((g : Guarded) (u : Metered) → world_with g u base.now.objects overlay.new ≡ edit_object shared_now id.0 (world_with g u base.now.objects overlay.old)) }
    ensures unread { OnOk result ((id.0 < length base.now.objects → is_read id.0 overlay.old ≡ true) → KeepsUnread no_object overlay.old overlay.new) }
{
    overlay.edit(alloc, base, id, Edit::Shared)
}

fn set_disowned(
    alloc: Global,
    base: &Content,
    overlay: &mut Overlay,
    id: ObjectId,
) -> Result<(), Memory>
    requires { id.0 < length (laid_over base.now.objects overlay.old) }
    ensures world { OnOk result ((g : Guarded) (u : Metered) → world_with g u base.now.objects overlay.new ≡ edit_object disowned_now id.0 (world_with g u base.now.objects overlay.old)) }
    ensures unread { OnOk result ((id.0 < length base.now.objects → is_read id.0 overlay.old ≡ true) → KeepsUnread no_object overlay.old overlay.new) }
{
    overlay.edit(alloc, base, id, Edit::Disowned)
}

fn is_shared(base: &Content, overlay: &Overlay, id: ObjectId) -> bool
    ensures { result ≡ option_map_or (λ (o : PlainObject). o.shared) (object_at (objects_over base.now.objects overlay.now) id.0) true }
{
    match overlay.look(base, id) {
        Some(object) => object.shared,
        None => true,
    }
}

fn is_disowned(base: &Content, overlay: &Overlay, id: ObjectId) -> bool
    ensures { result ≡ option_map_or (λ (o : PlainObject). o.disowned) (object_at (objects_over base.now.objects overlay.now) id.0) true }
{
    match overlay.look(base, id) {
        Some(object) => object.disowned,
        None => true,
    }
}

/// The object of a number is marked as shared, and is read.
pub fn mark_shared(
    alloc: Global,
    base: &Content,
    overlay: &mut Overlay,
    id: ObjectId,
) -> Result<(), Memory>
    ensures world { OnOk result ((g : Guarded) (u : Metered) → SameWorld (mark_shared id.0 (world_with g u base.now.objects overlay.old)) (world_with g u base.now.objects overlay.new)) }
    ensures unread { OnOk result (KeepsUnread no_object overlay.old overlay.new) }
{
    note(base, overlay, id)?;
    if is_shared(base, overlay, id) {
        return Ok(());
    }
    set_shared(alloc, base, overlay, id)
}

/// The object of a number is marked as disowned, and is read.
pub fn mark_disowned(
    alloc: Global,
    base: &Content,
    overlay: &mut Overlay,
    id: ObjectId,
) -> Result<(), Memory>
    requires { id.0 < length (laid_over base.now.objects overlay.old) }
    ensures world { OnOk result ((g : Guarded) (u : Metered) → SameWorld (mark_disowned id.0 (world_with g u base.now.objects overlay.old)) (world_with g u base.now.objects overlay.new)) }
    ensures unread { OnOk result (KeepsUnread no_object overlay.old overlay.new) }
{
    note(base, overlay, id)?;
    if is_disowned(base, overlay, id) {
        return Ok(());
    }
    set_disowned(alloc, base, overlay, id)
}

// An object before its constructor has run.
fn unfinished(alloc: Global, contract: ContractId) -> Object
    ensures { object_of result ≡ unfinished contract }
{
    Object {
        contract,
        state: None,
        fields: Fields::new(alloc),
        shared: false,
        disowned: false,
    }
}

/// Makes an object, with the next number, which is read; none where there are as many objects as there may be.
pub fn make(
    alloc: Global,
    base: &Content,
    overlay: &mut Overlay,
    contract: ContractId,
) -> Result<Option<ObjectId>, Memory>
    ensures made { IfOk result (λ id. Makes base.now.objects contract overlay.old overlay.new id) }
    ensures unread { OnOk result (KeepsUnread no_object overlay.old overlay.new) }
{
    match overlay.make(base, unfinished(alloc, contract)) {
        Ok(id) => Ok(Some(id)),
        Err(MakeError::Full) => Ok(None),
        Err(MakeError::Memory) => Err(Memory),
    }
}
