//! The lists of a content as a delta changes them.
ghost use Rattle.std.specs.Prelude.{◌≡◌, [], ◌∷◌, ◌<◌, ◌≤◌, suc, length};
ghost use Rattle.std.specs.Vec.{vec_capacity};
ghost use Rattle.ob_heap.specs.Deltas.{with_change, with_handles};
ghost use Rattle.ob_heap.specs.Differences.{with_objects};

use crate::handles::Handles;
use crate::object::{Handle, Object};
use ob_base::{Label, ObjectId};

/// How many objects there are after these changes.
#[tactic(auto, using(crate::proofs::DeltasLemmas::counts))]
pub fn count_with(objects: &[Object], changes: &[(ObjectId, Object)]) -> usize
    ensures { result ≡ length (with_objects objects.now changes.now) }
{
    let mut count = objects.len();
    for change in changes {
        if change.0.0 as usize >= count {
            count += 1;
        }
    }
    count
}

fn set_object(objects: &mut Vec<Object>, id: ObjectId, object: Object)
    requires { length (with_objects objects.old.items ((id, object) ∷ [])) ≤ vec_capacity objects.old }
    ensures items { objects.new.items ≡ with_objects objects.old.items ((id, object) ∷ []) }
    ensures capacity { vec_capacity objects.old ≤ vec_capacity objects.new }
{
    let place = id.0 as usize;
    if place < objects.len() {
        objects[place] = object;
        return;
    }
    match objects.push(object) {
        Ok(()) => {}
        Err(_) => unreachable!(),
    }
}

/// The objects are set, or put behind the others.
#[tactic(auto, using(crate::proofs::DeltasLemmas::counts))]
pub fn set_objects(objects: &mut Vec<Object>, changes: Vec<(ObjectId, Object)>)
    requires { length (with_objects objects.old.items changes.items) ≤ vec_capacity objects.old }
    ensures { objects.new.items ≡ with_objects objects.old.items changes.items }
{
    for (id, object) in changes {
        set_object(objects, id, object);
    }
}

fn change_handle(handles: &mut Handles, name: (Label, Label), change: Option<Handle>)
    requires { 0 < handles.old.room }
    ensures handles { handles.new.handles ≡ with_change name change handles.old.handles }
    ensures room { handles.old.room ≤ suc handles.new.room }
{
    match change {
        Some(handle) => handles.put(name, handle),
        None => handles.remove(&name),
    }
}

/// The handles are put or removed. It takes no memory.
pub fn change_handles(handles: &mut Handles, changes: Vec<((Label, Label), Option<Handle>)>)
    requires { length changes.items ≤ handles.old.room }
    ensures { handles.new.handles ≡ with_handles handles.old.handles changes.items }
{
    for (name, change) in changes {
        change_handle(handles, name, change);
    }
}
