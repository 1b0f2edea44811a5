//! Handles that are put among those of a store.
ghost use Rattle.std.specs.Prelude.{◌≡◌, [], ◌∷◌, ◌++◌, map, IfOk, OnOk};
ghost use Rattle.ob_heap.specs.Contents.{named_of, IsInOrder};
ghost use Rattle.ob_heap.specs.Deltas.{with_handles};
ghost use Rattle.ob_heap_spec.specs.Handles.{put_handles};
ghost use Rattle.ob_exec_handles.specs.Parts.{HandlesLead};
ghost use Rattle.ob_exec_handles.specs.Putting.{same_mode, same_handle, stands_so, changes_by, other_puts};

use ob_base::{Duplicate, Label, Memory, Mode, both};
use ob_heap::{Content, Handle, Sequence, add_handle};
use std::alloc::Global;

/// A handle with its name.
pub type Named = ((Label, Label), Handle);

fn is_same_mode(a: Mode, b: Mode) -> bool
    ensures { result ≡ same_mode a b }
{
    match (a, b) {
        (Mode::Owned, Mode::Owned) => true,
        (Mode::Shared, Mode::Shared) => true,
        (Mode::Unowned, Mode::Unowned) => true,
        _ => false,
    }
}

fn is_same(a: Handle, b: Handle) -> bool
    ensures { result ≡ same_handle a b }
{
    a.object.0 == b.object.0 && is_same_mode(a.mode, b.mode)
}

// Whether a name denotes this handle already.
fn stands_so(base: &Content, put: &Named) -> bool
    ensures { result ≡ stands_so base.now.handles put.now }
{
    match base.handle(&put.0.0, &put.0.1) {
        Some(handle) => is_same(handle, put.1),
        None => false,
    }
}

/// A copy of a name.
pub fn copy_name(alloc: Global, name: &(Label, Label)) -> Result<(Label, Label), Memory>
    ensures { IfOk result (λ copy. copy ≡ name.now) }
{
    both(name.0.copy(alloc), name.1.copy(alloc))
}

// The handles that are put, as a store of these alone has them: in the order of their names, under each the last.
fn last_puts(alloc: Global, puts: &[Named]) -> Result<Vec<Named>, Memory>
    ensures last { IfOk result (λ last. last.items ≡ with_handles [] (changes_by puts.now)) }
    ensures order { IfOk result (λ last. IsInOrder last.items) }
{
    let mut last = Vec::new(alloc);
    for put in puts {
        let name = copy_name(alloc, &put.0)?;
        add_handle(&mut last, name, put.1)?;
    }
    Ok(last)
}

// Adds a handle that is put, where it changes something.
fn add_other(
    changes: &mut Sequence<((Label, Label), Option<Handle>)>,
    alloc: Global,
    base: &Content,
    put: &Named,
) -> Result<(), Memory>
    ensures { OnOk result (changes.new ≡ changes.old ++ changes_by (other_puts base.now.handles (put.now ∷ []))) }
{
    if stands_so(base, put) {
        return Ok(());
    }
    let name = copy_name(alloc, &put.0)?;
    changes.push((name, Some(put.1)))
}

// Those of these handles that change something.
fn others(
    alloc: Global,
    base: &Content,
    puts: &[Named],
) -> Result<Sequence<((Label, Label), Option<Handle>)>, Memory>
    ensures { IfOk result (λ changes. changes ≡ changes_by (other_puts base.now.handles puts.now)) }
{
    let mut changes = Sequence::new(alloc);
    for put in puts {
        add_other(&mut changes, alloc, base, put)?;
    }
    Ok(changes)
}

/// What differs among the handles of a store where these are put among them, one after another.
pub fn changes_with(
    alloc: Global,
    base: &Content,
    puts: &[Named],
) -> Result<Sequence<((Label, Label), Option<Handle>)>, Memory>
    ensures { IfOk result (λ changes. HandlesLead base.now.handles changes (put_handles (map named_of base.now.handles) (map named_of puts.now))) }
{
    // `count_handles` says that names stand in order.
    let _count = base.count_handles();
    let last = last_puts(alloc, puts)?;
    let changes = others(alloc, base, last.as_slice())?;
    Ok(changes)
}
