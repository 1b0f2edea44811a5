//! Objects of a store that change.
ghost use Rattle.std.specs.Prelude.{◌≡◌, ◌≤◌, List, [], ◌∷◌, Some, map, length, slice_get, IfOk};
ghost use Rattle.ob_base.specs.Limits.{most_objects};
ghost use Rattle.ob_heap.specs.declared.object.Object.{Object as StoredObject};
ghost use Rattle.ob_heap.specs.Overlays.{laid_over, objects_over};
ghost use Rattle.ob_heap.specs.Plain.{object_of};
ghost use Rattle.ob_exec_handles.specs.Marking.{with_mark};
ghost use Rattle.ob_exec_handles.specs.Parts.{ObjectsLead};

use crate::marking::{Mark, has_mark, marked};
use ob_base::{Duplicate, Memory, ObjectId};
use ob_heap::{Content, Delta, Object, Overlay, Sequence};
use std::alloc::Global;

/// What a run changed of the objects.
pub fn changed_objects(
    alloc: Global,
    base: &Content,
    overlay: &Overlay,
) -> Result<Sequence<(ObjectId, Object)>, Memory>
    requires { length (laid_over base.now.objects overlay.now) ≤ most_objects }
    ensures { IfOk result (λ changes. ObjectsLead base.now.objects changes (objects_over base.now.objects overlay.now)) }
{
    let delta = overlay.delta(alloc, base)?;
    let Delta {
        objects,
        handles: _,
    } = delta;
    Ok(objects)
}

// One object that is another now.
fn one_object(
    alloc: Global,
    id: ObjectId,
    object: Object,
) -> Result<Sequence<(ObjectId, Object)>, Memory>
    ensures { IfOk result (λ changes. changes ≡ (id, object) ∷ []) }
{
    let mut objects = Sequence::new(alloc);
    objects.push((id, object))?;
    Ok(objects)
}

// What differs where an object is marked.
fn marked_object(
    alloc: Global,
    mark: Mark,
    id: ObjectId,
    object: &Object,
) -> Result<Sequence<(ObjectId, Object)>, Memory>
    ensures { IfOk result (λ changes. (base : List StoredObject) → slice_get base id.0 ≡ Some object.now → ObjectsLead base changes (with_mark mark id.0 (map object_of base))) }
{
    if has_mark(mark, object) {
        return Ok(Sequence::new(alloc));
    }
    let copy = object.copy(alloc)?;
    let objects = one_object(alloc, id, marked(mark, copy))?;
    Ok(objects)
}

/// What differs among the objects of a store where that of a number is marked.
pub fn marked_objects(
    alloc: Global,
    base: &Content,
    mark: Mark,
    id: ObjectId,
) -> Result<Sequence<(ObjectId, Object)>, Memory>
    ensures { IfOk result (λ changes. ObjectsLead base.now.objects changes (with_mark mark id.0 (map object_of base.now.objects))) }
{
    match base.object(id) {
        Some(object) => marked_object(alloc, mark, id, object),
        None => Ok(Sequence::new(alloc)),
    }
}
