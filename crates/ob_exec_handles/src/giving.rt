//! A handle is given.
ghost use Rattle.std.specs.Prelude.{◌≡◌, ◌++◌, [], ◌∷◌, ℕ, List, map, option_map, IfOk};
ghost use Rattle.ob_heap.specs.Contents.{content_of, named_of};
ghost use Rattle.ob_heap.specs.Plain.{handle_of, object_of};
ghost use Rattle.ob_invocation_spec.specs.Checks.{refusal_of};
ghost use Rattle.ob_invocation_spec.specs.Entering.{handle_in};
ghost use Rattle.ob_heap_spec.specs.Handles.{put_handles};
ghost use Rattle.ob_invocation_spec.specs.Handles.{handle_name, serves, are_handles_full};
ghost use Rattle.ob_invocation_spec.specs.Invocation.{giver_after, invoke_give};
ghost use Rattle.ob_invocation_spec.specs.Refusals.{is_taken};
ghost use Rattle.ob_rest_spec.specs.Modes.{is_shared};
ghost use Rattle.ob_wire.specs.Refusals.{refusal_told};
ghost use Rattle.ob_exec_handles.specs.Coming.{ComesTo, LeadsTo};
ghost use Rattle.ob_exec_handles.specs.Giving.{left_checks, with_given};
ghost use Rattle.ob_exec_handles.specs.Parts.{ObjectsLead};

use crate::answered::{Answered, refused};
use crate::changing::marked_objects;
use crate::marking::Mark;
use crate::putting::{Named, changes_with};
use ob_base::{Duplicate, Items, Label, MOST_HANDLES, Memory, Mode, ObjectId, both};
use ob_heap::{Content, Delta, Handle, Object, Sequence};
use ob_wire::{Answer, Outcome, Refusal};
use std::alloc::Global;

// Whether a handle of the first mode serves where the second is wanted.
fn serves(mode: Mode, wanted: Mode) -> bool
    ensures { result ≡ serves mode wanted }
{
    match (mode, wanted) {
        (Mode::Owned, Mode::Owned) => true,
        (Mode::Owned, Mode::Shared) => true,
        (Mode::Owned, Mode::Unowned) => true,
        (Mode::Shared, Mode::Owned) => false,
        (Mode::Shared, Mode::Shared) => true,
        (Mode::Shared, Mode::Unowned) => true,
        (Mode::Unowned, Mode::Owned) => false,
        (Mode::Unowned, Mode::Shared) => false,
        (Mode::Unowned, Mode::Unowned) => true,
    }
}

// Whether a client has a handle of this name.
#[tactic(auto, using(crate::proofs::InvokingLemmas::plain))]
fn is_taken(base: &Content, who: &Label, name: &Label) -> bool
    ensures { result ≡ is_taken (content_of base.now) (handle_name who.now name.now) }
{
    base.handle(who, name).is_some()
}

// Whether there are as many handles as there may be.
#[tactic(auto, using(crate::proofs::InvokingLemmas::plain))]
fn are_handles_full(base: &Content) -> bool
    ensures { result ≡ are_handles_full (content_of base.now) }
{
    base.count_handles() >= MOST_HANDLES
}

/// Why a handle that is there isn't given, if it isn't.
pub fn refusal(
    base: &Content,
    handle: Handle,
    to: &Label,
    into: &Label,
    mode: Mode,
) -> Option<Refusal>
    ensures { (on : List ℕ) → result ≡ option_map refusal_told (refusal_of (left_checks (content_of base.now) (handle_of handle) (record { on = on; to = to.now; into = into.now; mode = mode }))) }
{
    if !serves(handle.mode, mode) {
        return Some(Refusal::Permission);
    }
    if is_taken(base, to, into) {
        return Some(Refusal::IntoTaken);
    }
    if are_handles_full(base) {
        return Some(Refusal::HandlesFull);
    }
    None
}

/// A client's handle on an object, with its name.
pub fn handle_on(
    alloc: Global,
    who: &Label,
    name: &Label,
    object: ObjectId,
    mode: Mode,
) -> Result<Named, Memory>
    ensures { IfOk result (λ put. named_of put ≡ handle_in (handle_name who.now name.now) object.0 mode) }
{
    let name = both(who.copy(alloc), name.copy(alloc))?;
    Ok((name, Handle { object, mode }))
}

// The same, alone.
fn one_handle(
    alloc: Global,
    who: &Label,
    name: &Label,
    object: ObjectId,
    mode: Mode,
) -> Result<Items<Named>, Memory>
    ensures { IfOk result (λ puts. map named_of puts ≡ handle_in (handle_name who.now name.now) object.0 mode ∷ []) }
{
    let mut puts = Items::new(alloc);
    let put = handle_on(alloc, who, name, object, mode)?;
    puts.push(put)?;
    Ok(puts)
}

// Handles that are put, and one more.
fn with_put(puts: Items<Named>, put: Named) -> Result<Items<Named>, Memory>
    ensures { IfOk result (λ all. all ≡ puts ++ put ∷ []) }
{
    let mut all = puts;
    all.push(put)?;
    Ok(all)
}

// What the giver's handle becomes, if it becomes another.
fn giver_after(
    alloc: Global,
    who: &Label,
    on: &Label,
    object: ObjectId,
    mode: Mode,
) -> Result<Items<Named>, Memory>
    ensures { IfOk result (λ puts. map named_of puts ≡ giver_after (handle_name who.now on.now) object.0 mode) }
{
    match mode {
        Mode::Owned => one_handle(alloc, who, on, object, Mode::Unowned),
        Mode::Shared => one_handle(alloc, who, on, object, Mode::Shared),
        Mode::Unowned => Ok(Items::new(alloc)),
    }
}

// Whether it is the mode of one of those that share the object.
fn is_shared(mode: Mode) -> bool
    ensures { result ≡ is_shared mode }
{
    match mode {
        Mode::Shared => true,
        Mode::Owned | Mode::Unowned => false,
    }
}

// What differs among the objects where one is given.
fn given_objects(
    alloc: Global,
    base: &Content,
    object: ObjectId,
    mode: Mode,
) -> Result<Sequence<(ObjectId, Object)>, Memory>
    ensures { IfOk result (λ changes. ObjectsLead base.now.objects changes (with_given mode object.0 (map object_of base.now.objects))) }
{
    if is_shared(mode) {
        return marked_objects(alloc, base, Mark::Shared, object);
    }
    Ok(Sequence::new(alloc))
}

// What differs where an object is given and these handles are put.
fn given(
    alloc: Global,
    base: &Content,
    object: ObjectId,
    mode: Mode,
    puts: &Items<Named>,
) -> Result<Delta, Memory>
    ensures { IfOk result (λ delta. LeadsTo base.now delta (record { objects = with_given mode object.0 (map object_of base.now.objects); handles = put_handles (map named_of base.now.handles) (map named_of puts.now) })) }
{
    let objects = given_objects(alloc, base, object, mode)?;
    let handles = changes_with(alloc, base, puts.as_slice())?;
    Ok(Delta { objects, handles })
}

/// The client `who` gives the client `to` a handle `into` on the object of its handle `on`, in this mode.
pub fn give(
    alloc: Global,
    base: &Content,
    who: &Label,
    on: &Label,
    to: &Label,
    into: &Label,
    mode: Mode,
) -> Result<Answered, Memory>
    ensures { IfOk result (λ a. ComesTo (invoke_give (content_of base.now) who.now (record { on = on.now; to = to.now; into = into.now; mode = mode })) base.now a.answer a.delta) }
{
    let Some(handle) = base.handle(who, on) else {
        return Ok(refused(alloc, Refusal::NoHandle));
    };
    if let Some(refusal) = refusal(base, handle, to, into, mode) {
        return Ok(refused(alloc, refusal));
    }
    let left = giver_after(alloc, who, on, handle.object, mode)?;
    let put = handle_on(alloc, to, into, handle.object, mode)?;
    let puts = with_put(left, put)?;
    let delta = given(alloc, base, handle.object, mode, &puts)?;
    Ok(Answered {
        answer: Answer::Ok(Outcome::Nothing),
        delta,
    })
}
