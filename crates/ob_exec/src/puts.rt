//! What handles become where a `new` or a `call` is done.
ghost use Rattle.std.specs.Prelude.{◌≡◌, ◌↔◌, ◌++◌, ◌∷◌, [], ℕ, List, Some, map, flat_map, option_map, IsTrue, IfOk, OnOk};
ghost use Rattle.std.specs.Option.{option_map_or};
ghost use Rattle.ob_heap.specs.Contents.{content_of, named_of};
ghost use Rattle.ob_heap.specs.Overlays.{objects_over};
ghost use Rattle.ob_heap.specs.Plain.{handle_of, value_of};
ghost use Rattle.ob_heap_spec.specs.Handles.{NamedHandle, handle_at};
ghost use Rattle.ob_invocation_spec.specs.Handles.{handle_name};
ghost use Rattle.ob_invocation_spec.specs.Entering.{put_after_use, put_given};
ghost use Rattle.ob_exec_entries.specs.Entering.{use_of};
ghost use Rattle.ob_exec.specs.Putting.{put_in, stays_as, AllStand, LeaveTheSame};

use ob_base::{Items, Label, Memory, Mode};
use ob_exec_entries::HandleUse;
use ob_exec_handles::{Mark, Named, handle_on, is_marked};
use ob_heap::{Content, Handle, Overlay, Value};
use std::alloc::Global;

// The mode that the handle of a use becomes, if it changes.
fn mode_after(used: &HandleUse) -> Option<Mode>
    ensures { (who : List ℕ) → put_after_use (use_of who used.now) ≡ put_in (handle_name who used.now.name) used.now.handle.object.0 result }
{
    match used.entry.mode {
        Mode::Owned => match used.handle.mode {
            Mode::Owned => Some(used.exit.mode),
            Mode::Shared => None,
            Mode::Unowned => None,
        },
        Mode::Shared => Some(Mode::Shared),
        Mode::Unowned => None,
    }
}

// Whether nothing changes where a handle becomes one in a mode: it is in that mode, and if it is Shared its object is marked.
fn stays_as(content: &Content, overlay: &Overlay, handle: Handle, mode: Mode) -> bool
    ensures { result ≡ stays_as (objects_over content.now.objects overlay.now) handle mode }
{
    match (handle.mode, mode) {
        (Mode::Owned, Mode::Owned) => true,
        (Mode::Shared, Mode::Shared) => is_marked(content, overlay, Mark::Shared, handle.object),
        (Mode::Unowned, Mode::Unowned) => true,
        _ => false,
    }
}

// Whether a handle needn't be put that becomes one in a mode: nothing has changed so far, and nothing changes by it.
fn is_needless(
    puts: &Items<Named>,
    content: &Content,
    overlay: &Overlay,
    handle: Handle,
    mode: Mode,
) -> bool
    ensures { IsTrue result ↔ ((puts.now ≡ []) × IsTrue (stays_as (objects_over content.now.objects overlay.now) handle mode)) }
{
    puts.is_empty() && stays_as(content, overlay, handle, mode)
}

// What the handle of a use becomes is put behind the others, unless it needn't be.
fn put_use(
    puts: &mut Items<Named>,
    alloc: Global,
    content: &Content,
    overlay: &Overlay,
    who: &Label,
    used: &HandleUse,
) -> Result<(), Memory>
    requires { handle_at (content_of content.now) (handle_name who.now used.now.name) ≡ Some (handle_of used.now.handle) }
    ensures { OnOk result ((all : List NamedHandle) → LeaveTheSame content.now overlay.now all (map named_of puts.old)
        → LeaveTheSame content.now overlay.now (all ++ put_after_use (use_of who.now used.now)) (map named_of puts.new)) }
{
    // `count_handles` says that names stand in order.
    let _count = content.count_handles();
    let Some(mode) = mode_after(used) else {
        return Ok(());
    };
    if is_needless(puts, content, overlay, used.handle, mode) {
        return Ok(());
    }
    let put = handle_on(alloc, who, &used.name, used.handle.object, mode)?;
    puts.push(put)?;
    Ok(())
}

// What the handles of uses become.
fn put_uses(
    alloc: Global,
    content: &Content,
    overlay: &Overlay,
    who: &Label,
    uses: &Items<HandleUse>,
) -> Result<Items<Named>, Memory>
    requires { AllStand (content_of content.now) (map (use_of who.now) uses.now) }
    ensures { IfOk result (λ puts. LeaveTheSame content.now overlay.now (flat_map put_after_use (map (use_of who.now) uses.now)) (map named_of puts)) }
{
    let mut puts = Items::new(alloc);
    for used in uses.as_slice() {
        put_use(&mut puts, alloc, content, overlay, who, used)?;
    }
    Ok(puts)
}

// The handle on the reference that is given is put behind the others.
fn put_given(
    puts: &mut Items<Named>,
    alloc: Global,
    who: &Label,
    into: &Label,
    given: Option<Mode>,
    value: &Option<Value>,
) -> Result<(), Memory>
    ensures { OnOk result (map named_of puts.new ≡ map named_of puts.old ++ put_given (handle_name who.now into.now) given (option_map value_of value.now)) }
{
    if let (Some(mode), Some(Value::Object(object))) = (given, value) {
        puts.push(handle_on(alloc, who, into, *object, mode)?)?;
    }
    Ok(())
}

// The same, if the request has a name for it.
fn put_into(
    puts: &mut Items<Named>,
    alloc: Global,
    who: &Label,
    into: &Option<Label>,
    given: Option<Mode>,
    value: &Option<Value>,
) -> Result<(), Memory>
    ensures { OnOk result (map named_of puts.new ≡ map named_of puts.old
        ++ option_map_or (λ name. put_given (handle_name who.now name) given (option_map value_of value.now)) into.now []) }
{
    match into {
        Some(into) => put_given(puts, alloc, who, into, given, value),
        None => Ok(()),
    }
}

/// What handles become: those of the uses, and then the one on what is given, if the request has a name for it. What would change
/// nothing needn't be among them.
pub fn puts_after(
    alloc: Global,
    content: &Content,
    overlay: &Overlay,
    who: &Label,
    uses: &Items<HandleUse>,
    into: &Option<Label>,
    given: Option<Mode>,
    value: &Option<Value>,
) -> Result<Items<Named>, Memory>
    requires { AllStand (content_of content.now) (map (use_of who.now) uses.now) }
    ensures { IfOk result (λ puts. LeaveTheSame content.now overlay.now
        (flat_map put_after_use (map (use_of who.now) uses.now)
        ++ option_map_or (λ name. put_given (handle_name who.now name) given (option_map value_of value.now)) into.now []) (map named_of puts)) }
{
    let mut puts = put_uses(alloc, content, overlay, who, uses)?;
    put_into(&mut puts, alloc, who, into, given, value)?;
    Ok(puts)
}
