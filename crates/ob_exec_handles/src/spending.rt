//! What requests that run nothing take and read.
ghost use Rattle.std.specs.Prelude.{◌≡◌, ◌++◌, [], ◌∷◌, ℕ, map, option_map, option_to_list, IfOk, OnOk};
ghost use Rattle.std.specs.Option.{option_and_then};
ghost use Rattle.ob_heap.specs.Contents.{content_of, handle_at};
ghost use Rattle.ob_heap.specs.declared.object.Handle.{Handle as StoredHandle};
ghost use Rattle.ob_invocation_spec.specs.Checks.{refusal_of};
ghost use Rattle.ob_invocation_spec.specs.Handles.{handle_name, handle_reads};
ghost use Rattle.ob_invocation_spec.specs.Invocation.{invoke_disown, invoke_give, invoke_see, invoke_owner};
ghost use Rattle.ob_invocation_spec.specs.Refusals.{give_checks};
ghost use Rattle.ob_invocation_spec.specs.Showing.{place_item};
ghost use Rattle.ob_owners.specs.Spots.{place_of, owner_place};
ghost use Rattle.ob_table.specs.Tables.{ClassTable};
ghost use Rattle.ob_wire.specs.Refusals.{refusal_told};
ghost use Rattle.ob_exec_handles.specs.Coming.{IsInLimits};
ghost use Rattle.ob_exec_handles.specs.Spending.{item_of, name_reads, HasRead, SpendsSo};

use crate::giving::refusal;
use crate::spent::{ReadItem, Spent, read_handle, read_item, read_new_name};
use ob_base::{Items, Label, Memory, Mode};
use ob_heap::Content;
use ob_owners::{Index, Spot};
use ob_wire::Refusal;
use std::alloc::Global;

// What is spent where a client's handle is looked up for its object.
fn spent_on_handle(alloc: Global, base: &Content, who: &Label, on: &Label) -> Result<Spent, Memory>
    ensures { IfOk result (λ s. HasRead (handle_reads (content_of base.now) (handle_name who.now on.now)) s) }
{
    let mut reads = Items::new(alloc);
    read_handle(&mut reads, alloc, base, who, on)?;
    Ok(Spent { taken: 0, reads })
}

/// What a `disown` of the client's handle of this name takes and reads.
pub fn spent_on_disown(
    alloc: Global,
    base: &Content,
    who: &Label,
    on: &Label,
) -> Result<Spent, Memory>
    ensures { IfOk result (λ s. SpendsSo (invoke_disown (content_of base.now) (handle_name who.now on.now)) s) }
{
    spent_on_handle(alloc, base, who, on)
}

/// What a `see` of the client's handle of this name takes and reads, if it doesn't go wrong.
pub fn spent_on_see(alloc: Global, base: &Content, who: &Label, on: &Label) -> Result<Spent, Memory>
    ensures { (table : ClassTable) → IsInLimits (invoke_see table (content_of base.now) (handle_name who.now on.now))
        → IfOk result (λ s. SpendsSo (invoke_see table (content_of base.now) (handle_name who.now on.now)) s) }
{
    spent_on_handle(alloc, base, who, on)
}

// Why a handle isn't given, if it isn't.
fn refusal_of_give(
    base: &Content,
    who: &Label,
    on: &Label,
    to: &Label,
    into: &Label,
    mode: Mode,
) -> Option<Refusal>
    ensures { result ≡ option_map refusal_told (refusal_of (give_checks (content_of base.now) who.now (record { on = on.now; to = to.now; into = into.now; mode = mode }))) }
{
    match base.handle(who, on) {
        Some(handle) => refusal(base, handle, to, into, mode),
        None => Some(Refusal::NoHandle),
    }
}

// What is read by the checks of a `give`, by why it is refused, if it is.
fn read_give(
    reads: &mut Items<ReadItem>,
    alloc: Global,
    base: &Content,
    who: &Label,
    on: &Label,
    to: &Label,
    into: &Label,
    why: Option<Refusal>,
) -> Result<(), Memory>
    ensures { OnOk result (map item_of reads.new ≡ (map item_of reads.old ++ handle_reads (content_of base.now) (handle_name who.now on.now)) ++ name_reads (handle_name to.now into.now) why) }
{
    read_handle(reads, alloc, base, who, on)?;
    read_new_name(reads, alloc, to, into, why)
}

/// What a `give` by the client `who` to the client `to` takes and reads.
pub fn spent_on_give(
    alloc: Global,
    base: &Content,
    who: &Label,
    on: &Label,
    to: &Label,
    into: &Label,
    mode: Mode,
) -> Result<Spent, Memory>
    ensures { IfOk result (λ s. SpendsSo (invoke_give (content_of base.now) who.now (record { on = on.now; to = to.now; into = into.now; mode = mode })) s) }
{
    let why = refusal_of_give(base, who, on, to, into, mode);
    let mut reads = Items::new(alloc);
    read_give(&mut reads, alloc, base, who, on, to, into, why)?;
    Ok(Spent { taken: 0, reads })
}

// The place of the owner of the object of the client's handle of a name.
fn owner_of<I: Index>(
    alloc: Global,
    base: &Content,
    index: &I,
    who: &Label,
    on: &Label,
) -> Result<Option<Spot>, Memory>
    ensures { IfOk result (λ spot. option_map place_of spot ≡ option_and_then (λ (h : StoredHandle). I.owner index.now h.object.0) (handle_at (handle_name who.now on.now) base.now.handles)) }
{
    match base.handle(who, on) {
        Some(handle) => index.find(alloc, handle.object),
        None => Ok(None),
    }
}

// A place is read.
fn read_spot(reads: &mut Items<ReadItem>, spot: Spot) -> Result<(), Memory>
    ensures { OnOk result (map item_of reads.new ≡ map item_of reads.old ++ place_item (place_of spot) ∷ []) }
{
    match spot {
        Spot::Field(id, _) => read_item(reads, ReadItem::Object(id)),
        Spot::Handle(who, name) => read_item(reads, ReadItem::Handle(who, name)),
    }
}

// A place is read, if there is one.
fn read_place(reads: &mut Items<ReadItem>, spot: Option<Spot>) -> Result<(), Memory>
    ensures { OnOk result (map item_of reads.new ≡ map item_of reads.old ++ option_to_list (option_map place_item (option_map place_of spot))) }
{
    match spot {
        Some(spot) => read_spot(reads, spot),
        None => Ok(()),
    }
}

/// What an `owner` of the object of the client's handle of this name takes and reads, if it doesn't go wrong. The index tells the owners
/// of the store's objects.
pub fn spent_on_owner<I: Index>(
    alloc: Global,
    base: &Content,
    index: &I,
    who: &Label,
    on: &Label,
) -> Result<Spent, Memory>
    ensures { (table : ClassTable) → ((n : ℕ) → I.owner index.now n ≡ owner_place table (content_of base.now) n)
        → IsInLimits (invoke_owner table (content_of base.now) (handle_name who.now on.now))
        → IfOk result (λ s. SpendsSo (invoke_owner table (content_of base.now) (handle_name who.now on.now)) s) }
{
    let place = owner_of(alloc, base, index, who, on)?;
    let mut reads = Items::new(alloc);
    read_handle(&mut reads, alloc, base, who, on)?;
    read_place(&mut reads, place)?;
    Ok(Spent { taken: 0, reads })
}
