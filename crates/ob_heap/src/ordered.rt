//! Handles in the order of their names, in one list.
ghost use Rattle.std.specs.Prelude.{◌≡◌, ◌≤◌, length, OnOk};
ghost use Rattle.std.specs.Ordering.{is_eq, is_lt};
ghost use Rattle.std.specs.Vec.{vec_capacity};
ghost use Rattle.ob_heap_spec.specs.Contents.{name_order};
ghost use Rattle.ob_heap.specs.Blocks.{starts_after};
ghost use Rattle.ob_heap.specs.Contents.{name_of, handle_at, place_of_name, IsInOrder};
ghost use Rattle.ob_heap.specs.Deltas.{is_name_at, with_handle, without_handle};

use crate::object::Handle;
use ob_base::{Label, Memory};
use std::cmp::Ordering;

fn is_before(handle: &((Label, Label), Handle), who: &Label, name: &Label) -> bool
    ensures { result ≡ is_lt (name_order (name_of handle.now.0) (record { who = who.now; name = name.now })) }
{
    order(handle, who, name) == Ordering::Less
}

fn has_name(handle: &((Label, Label), Handle), who: &Label, name: &Label) -> bool
    ensures { result ≡ is_eq (name_order (name_of handle.now.0) (record { who = who.now; name = name.now })) }
{
    order(handle, who, name) == Ordering::Equal
}

fn order(handle: &((Label, Label), Handle), who: &Label, name: &Label) -> Ordering
    ensures { result ≡ name_order (name_of handle.now.0) (record { who = who.now; name = name.now }) }
{
    let first = handle.0.0.as_bytes().cmp(who.as_bytes());
    let second = handle.0.1.as_bytes().cmp(name.as_bytes());
    first.then(second)
}

// The place of the first handle whose name doesn't come before this one, or the end.
#[tactic(auto, using(crate::proofs::HandlesLemmas::places))]
fn place_of(handles: &[((Label, Label), Handle)], who: &Label, name: &Label) -> usize
    requires { IsInOrder handles.now }
    ensures { result ≡ place_of_name (record { who = who.now; name = name.now }) handles.now }
{
    let mut low = 0;
    let mut high = handles.len();
    while low < high {
        let middle = low + (high - low) / 2;
        if is_before(&handles[middle], who, name) {
            low = middle + 1;
        } else {
            high = middle;
        }
    }
    low
}

/// Whether the first name of these handles comes after this one.
pub fn starts_after(handles: &[((Label, Label), Handle)], who: &Label, name: &Label) -> bool
    ensures { result ≡ starts_after (record { who = who.now; name = name.now }) handles.now }
{
    match handles {
        [] => false,
        [first, ..] => order(first, who, name) == Ordering::Greater,
    }
}

/// The handle of this name, in time logarithmic in the number of handles.
pub fn find(handles: &[((Label, Label), Handle)], who: &Label, name: &Label) -> Option<Handle>
    requires { IsInOrder handles.now }
    ensures { result ≡ handle_at (record { who = who.now; name = name.now }) handles.now }
{
    let place = place_of(handles, who, name);
    if place >= handles.len() {
        return None;
    }
    let handle = &handles[place];
    if has_name(handle, who, name) {
        return Some(handle.1);
    }
    None
}

// Whether the place is that of the handle of this name.
fn has_at(handles: &[((Label, Label), Handle)], place: usize, who: &Label, name: &Label) -> bool
    ensures { result ≡ is_name_at (record { who = who.now; name = name.now }) handles.now place }
{
    match handles.get(place) {
        Some(handle) => has_name(handle, who, name),
        None => false,
    }
}

/// The handle is put among these, for which there is room; another of its name goes.
#[tactic(auto, using(crate::proofs::DeltasLemmas::changes))]
pub fn put_handle(handles: &mut Vec<((Label, Label), Handle)>, name: (Label, Label), handle: Handle)
    requires order { IsInOrder handles.old.items }
    requires room { length (with_handle name handle handles.old.items) ≤ vec_capacity handles.old }
    ensures items { handles.new.items ≡ with_handle name handle handles.old.items }
    ensures capacity { vec_capacity handles.old ≤ vec_capacity handles.new }
{
    let place = place_of(handles.as_slice(), &name.0, &name.1);
    if has_at(handles.as_slice(), place, &name.0, &name.1) {
        handles[place].1 = handle;
        return;
    }
    match handles.insert(place, (name, handle)) {
        Ok(()) => {}
        Err(_) => unreachable!(),
    }
}

/// The handle of the name goes, if there is one.
#[tactic(auto, using(crate::proofs::DeltasLemmas::changes))]
pub fn remove_handle(handles: &mut Vec<((Label, Label), Handle)>, name: &(Label, Label))
    requires { IsInOrder handles.old.items }
    ensures items { handles.new.items ≡ without_handle name.now handles.old.items }
    ensures capacity { vec_capacity handles.old ≤ vec_capacity handles.new }
{
    let place = place_of(handles.as_slice(), &name.0, &name.1);
    if has_at(handles.as_slice(), place, &name.0, &name.1) {
        let _removed = handles.remove(place);
    }
}

/// The handle is put among these; another of its name goes.
#[tactic(auto, using(crate::proofs::DeltasLemmas::changes))]
pub fn add_handle(
    handles: &mut Vec<((Label, Label), Handle)>,
    name: (Label, Label),
    handle: Handle,
) -> Result<(), Memory>
    requires { IsInOrder handles.old.items }
    ensures put { OnOk result (handles.new.items ≡ with_handle name handle handles.old.items) }
    ensures order { IsInOrder handles.new.items }
{
    handles.reserve(1)?;
    put_handle(handles, name, handle);
    Ok(())
}
