//! Marks on the objects of a store.
ghost use Rattle.std.specs.Prelude.{◌≡◌, ◌<◌, false, [], ◌∷◌, map, length, OnOk};
ghost use Rattle.ob_heap.specs.declared.object.Object.{Object};
ghost use Rattle.ob_heap.specs.Edits.{with_edit};
ghost use Rattle.ob_heap.specs.Overlays.{laid_over, objects_over};
ghost use Rattle.ob_heap.specs.Contents.{named_of};
ghost use Rattle.ob_heap.specs.Plain.{object_of};
ghost use Rattle.ob_exec_handles.specs.Marking.{has_mark, marked, is_marked, with_mark, with_put_marks};

use crate::putting::Named;
use ob_base::{Memory, Mode, ObjectId};
use ob_heap::{Content, Edit, Object, Overlay};
use std::alloc::Global;

/// A mark on an object (Coblenz et al., TOPLAS 42(3), 2020, "Permissions"; marks are this project's own).
#[derive(Clone, Copy)]
pub enum Mark {
    /// A reference to it is shared, or was.
    Shared,
    /// Its owner gave it up.
    Disowned,
}

/// Whether an object has a mark.
pub fn has_mark(mark: Mark, object: &Object) -> bool
    ensures { result ≡ has_mark mark (object_of object.now) }
{
    match mark {
        Mark::Shared => object.shared,
        Mark::Disowned => object.disowned,
    }
}

/// The object with a mark.
pub fn marked(mark: Mark, object: Object) -> Object
    ensures { object_of result ≡ marked mark (object_of object) }
{
    let mut object = object;
    match mark {
        Mark::Shared => object.shared = true,
        Mark::Disowned => object.disowned = true,
    }
    object
}

// What is done to an object that gets a mark.
fn edit_of(mark: Mark) -> Edit
    ensures { (o : Object) → object_of (with_edit result o) ≡ marked mark (object_of o) }
{
    match mark {
        Mark::Shared => Edit::Shared,
        Mark::Disowned => Edit::Disowned,
    }
}

/// Whether the object of a number has a mark already; where there is no object there is none to set.
pub fn is_marked(base: &Content, overlay: &Overlay, mark: Mark, id: ObjectId) -> bool
    ensures { result ≡ is_marked mark id.0 (objects_over base.now.objects overlay.now) }
{
    match overlay.look(base, id) {
        Some(object) => has_mark(mark, object),
        None => true,
    }
}

// The object of a number gets a mark that it doesn't have.
fn set_mark(
    alloc: Global,
    base: &Content,
    overlay: &mut Overlay,
    mark: Mark,
    id: ObjectId,
) -> Result<(), Memory>
    requires within { id.0 < length (laid_over base.now.objects overlay.old) }
    requires other { is_marked mark id.0 (objects_over base.now.objects overlay.old) ≡ false }
    ensures { OnOk result (objects_over base.now.objects overlay.new ≡ with_mark mark id.0 (objects_over base.now.objects overlay.old)) }
{
    overlay.edit(alloc, base, id, edit_of(mark))
}

// The object of a number is marked.
fn mark_object(
    alloc: Global,
    base: &Content,
    overlay: &mut Overlay,
    mark: Mark,
    id: ObjectId,
) -> Result<(), Memory>
    ensures { OnOk result (objects_over base.now.objects overlay.new ≡ with_mark mark id.0 (objects_over base.now.objects overlay.old)) }
{
    if is_marked(base, overlay, mark, id) {
        return Ok(());
    }
    set_mark(alloc, base, overlay, mark, id)
}

// A reference that is put into a Shared handle marks its object.
fn mark_put(alloc: Global, base: &Content, overlay: &mut Overlay, put: &Named) -> Result<(), Memory>
    ensures { OnOk result (objects_over base.now.objects overlay.new ≡ with_put_marks (objects_over base.now.objects overlay.old) (named_of put.now ∷ [])) }
{
    match put.1.mode {
        Mode::Shared => mark_object(alloc, base, overlay, Mark::Shared, put.1.object),
        Mode::Owned | Mode::Unowned => Ok(()),
    }
}

/// Each reference that is put into a Shared handle marks its object, one after another.
pub fn mark_puts(
    alloc: Global,
    base: &Content,
    overlay: &mut Overlay,
    puts: &[Named],
) -> Result<(), Memory>
    ensures { OnOk result (objects_over base.now.objects overlay.new ≡ with_put_marks (objects_over base.now.objects overlay.old) (map named_of puts.now)) }
{
    for put in puts {
        mark_put(alloc, base, overlay, put)?;
    }
    Ok(())
}
