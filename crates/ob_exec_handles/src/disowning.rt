//! A handle is given up.
ghost use Rattle.std.specs.Prelude.{◌≡◌, [], ◌∷◌, Some, None, List, IfOk};
ghost use Rattle.ob_heap.specs.Contents.{content_of, handle_at};
ghost use Rattle.ob_heap.specs.Plain.{handle_of};
ghost use Rattle.ob_heap_spec.specs.Worlds.{ReadItem};
ghost use Rattle.ob_invocation_spec.specs.Handles.{handle_name};
ghost use Rattle.ob_invocation_spec.specs.Invocation.{disowned_world, disown_handle, invoke_disown};
ghost use Rattle.ob_rest_spec.specs.Modes.{is_owned};
ghost use Rattle.ob_exec_handles.specs.Coming.{ComesTo};
ghost use Rattle.ob_exec_handles.specs.Parts.{ObjectsLead};

use crate::answered::{Answered, refused};
use crate::changing::marked_objects;
use crate::marking::Mark;
use ob_base::{Duplicate, Label, Memory, Mode, ObjectId, both};
use ob_heap::{Content, Delta, Handle, Object, Sequence};
use ob_wire::{Answer, Outcome, Refusal};
use std::alloc::Global;

// Whether it is the owner's mode.
fn is_owned(mode: Mode) -> bool
    ensures { result ≡ is_owned mode }
{
    match mode {
        Mode::Owned => true,
        Mode::Shared | Mode::Unowned => false,
    }
}

// What differs among the objects where a handle is given up: the object of an Owned one is marked as disowned.
fn disowned(
    alloc: Global,
    base: &Content,
    handle: Handle,
) -> Result<Sequence<(ObjectId, Object)>, Memory>
    ensures { IfOk result (λ changes. ObjectsLead base.now.objects changes (disowned_world (content_of base.now) (handle_of handle)).objects) }
{
    if is_owned(handle.mode) {
        return marked_objects(alloc, base, Mark::Disowned, handle.object);
    }
    Ok(Sequence::new(alloc))
}

// What differs among the handles where that of a name goes.
fn removed(
    alloc: Global,
    who: &Label,
    on: &Label,
) -> Result<Sequence<((Label, Label), Option<Handle>)>, Memory>
    ensures { IfOk result (λ changes. changes ≡ ((who.now, on.now), None) ∷ []) }
{
    let name = both(who.copy(alloc), on.copy(alloc))?;
    let mut handles = Sequence::new(alloc);
    handles.push((name, None))?;
    Ok(handles)
}

fn disown_handle(
    alloc: Global,
    base: &Content,
    who: &Label,
    on: &Label,
    handle: Handle,
) -> Result<Answered, Memory>
    requires { handle_at (handle_name who.now on.now) base.now.handles ≡ Some handle }
    ensures { IfOk result (λ a. (reads : List ReadItem) → ComesTo (disown_handle (content_of base.now) (handle_name who.now on.now) (handle_of handle) reads) base.now a.answer a.delta) }
{
    let objects = disowned(alloc, base, handle)?;
    let handles = removed(alloc, who, on)?;
    Ok(Answered {
        answer: Answer::Ok(Outcome::Nothing),
        delta: Delta { objects, handles },
    })
}

/// The client gives up its handle of this name.
pub fn disown(alloc: Global, base: &Content, who: &Label, on: &Label) -> Result<Answered, Memory>
    ensures { IfOk result (λ a. ComesTo (invoke_disown (content_of base.now) (handle_name who.now on.now)) base.now a.answer a.delta) }
{
    match base.handle(who, on) {
        Some(handle) => disown_handle(alloc, base, who, on, handle),
        None => Ok(refused(alloc, Refusal::NoHandle)),
    }
}
