//! What a request takes and reads.
ghost use Rattle.std.specs.Prelude.{◌≡◌, ◌++◌, ◌∷◌, [], map, not, IfOk, OnOk};
ghost use Rattle.ob_heap.specs.Contents.{content_of};
ghost use Rattle.ob_heap_spec.specs.Worlds.{handle_item};
ghost use Rattle.ob_invocation_spec.specs.Handles.{handle_name, handle_reads};
ghost use Rattle.ob_invocation_spec.specs.Refusals.{is_no_handle};
ghost use Rattle.ob_exec_handles.specs.Spending.{item_of, looks_up_name, counts_handles, looked_up, counted, name_reads};

use ob_base::{Duplicate, Items, Label, Memory, ObjectId, both};
use ob_heap::Content;
use ob_wire::Refusal;
use std::alloc::Global;

/// An item of a store that is read (this project's own).
#[derive(Drop)]
pub enum ReadItem {
    /// The object of this number.
    Object(ObjectId),
    /// Which number is the next.
    Next,
    /// What this client's name for a handle denotes.
    Handle(Label, Label),
    /// Whether there are as many handles as there may be.
    HandlesFull,
}

/// What a request takes and reads.
#[derive(Drop)]
pub struct Spent {
    /// How many units it takes.
    pub taken: u32,
    /// What it reads, in no order, and some of it more than once.
    pub reads: Items<ReadItem>,
}

/// An item is read.
pub fn read_item(reads: &mut Items<ReadItem>, item: ReadItem) -> Result<(), Memory>
    ensures { OnOk result (map item_of reads.new ≡ map item_of reads.old ++ item_of item ∷ []) }
{
    reads.push(item)?;
    Ok(())
}

// What a client's name for a handle denotes.
fn handle_item(alloc: Global, who: &Label, name: &Label) -> Result<ReadItem, Memory>
    ensures { IfOk result (λ item. item_of item ≡ handle_item (handle_name who.now name.now)) }
{
    let (client, called) = both(who.copy(alloc), name.copy(alloc))?;
    Ok(ReadItem::Handle(client, called))
}

// What a client's name for a handle denotes is read.
fn read_name(
    reads: &mut Items<ReadItem>,
    alloc: Global,
    who: &Label,
    name: &Label,
) -> Result<(), Memory>
    ensures { OnOk result (map item_of reads.new ≡ map item_of reads.old ++ handle_item (handle_name who.now name.now) ∷ []) }
{
    let item = handle_item(alloc, who, name)?;
    read_item(reads, item)
}

/// A client's handle of a name is looked up for its object: what the name denotes is read, and the object. The answer is whether
/// there is such a handle.
pub fn read_handle(
    reads: &mut Items<ReadItem>,
    alloc: Global,
    base: &Content,
    who: &Label,
    name: &Label,
) -> Result<bool, Memory>
    ensures there { IfOk result (λ there. there ≡ not (is_no_handle (content_of base.now) (handle_name who.now name.now))) }
    ensures reads { OnOk result (map item_of reads.new ≡ map item_of reads.old ++ handle_reads (content_of base.now) (handle_name who.now name.now)) }
{
    read_name(reads, alloc, who, name)?;
    match base.handle(who, name) {
        Some(handle) => {
            read_item(reads, ReadItem::Object(handle.object))?;
            Ok(true)
        }
        None => Ok(false),
    }
}

// Whether the name is looked up of a handle that is to be made, by why the request is refused, if it is.
fn looks_up_name(why: Option<Refusal>) -> bool
    ensures { result ≡ looks_up_name why }
{
    matches!(why, None | Some(Refusal::IntoTaken | Refusal::HandlesFull))
}

// Whether the handles are counted then.
fn counts_handles(why: Option<Refusal>) -> bool
    ensures { result ≡ counts_handles why }
{
    matches!(why, None | Some(Refusal::HandlesFull))
}

// What a client's name for a handle denotes is read, if it is looked up.
fn read_looked_up(
    reads: &mut Items<ReadItem>,
    alloc: Global,
    who: &Label,
    name: &Label,
    is_looked_up: bool,
) -> Result<(), Memory>
    ensures { OnOk result (map item_of reads.new ≡ map item_of reads.old ++ looked_up (handle_name who.now name.now) is_looked_up) }
{
    if is_looked_up {
        read_name(reads, alloc, who, name)
    } else {
        Ok(())
    }
}

// Whether there are as many handles as there may be is read, if they are counted.
fn read_counted(reads: &mut Items<ReadItem>, is_counted: bool) -> Result<(), Memory>
    ensures { OnOk result (map item_of reads.new ≡ map item_of reads.old ++ counted is_counted) }
{
    if is_counted {
        read_item(reads, ReadItem::HandlesFull)
    } else {
        Ok(())
    }
}

/// What is read of the name for a handle that is to be made, by why the request is refused, if it is: what the name denotes, and
/// whether there may be one more handle.
pub fn read_new_name(
    reads: &mut Items<ReadItem>,
    alloc: Global,
    who: &Label,
    name: &Label,
    why: Option<Refusal>,
) -> Result<(), Memory>
    ensures { OnOk result (map item_of reads.new ≡ map item_of reads.old ++ name_reads (handle_name who.now name.now) why) }
{
    let is_looked_up = looks_up_name(why);
    let is_counted = counts_handles(why);
    read_looked_up(reads, alloc, who, name, is_looked_up)?;
    read_counted(reads, is_counted)
}
