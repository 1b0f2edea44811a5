//! All that a content holds after a delta, as bytes.
ghost use Rattle.std.specs.Prelude.{◌≡◌, ◌≤◌, ◌++◌, ◌^◌, ◌∷◌, [], List, suc, length, map, AllPairs, Some, IfOk, OnOk};
ghost use Rattle.std.specs.declared.cmp.Ordering.TheVariants.{Less};
ghost use Rattle.ob_base.specs.declared.id.ObjectId.{ObjectId as ObjectNumber};
ghost use Rattle.ob_code_table.specs.ImageTables.{table_of_image};
ghost use Rattle.ob_format_spec.specs.Combinators.{counted, each_bytes};
ghost use Rattle.ob_heap.specs.Ascending.{IsAscending};
ghost use Rattle.ob_heap.specs.Blocks.{joined};
ghost use Rattle.ob_heap.specs.Contents.{named_of};
ghost use Rattle.ob_heap.specs.Deltas.{AreNext, IsDelta, label_order, with_handles};
ghost use Rattle.ob_heap.specs.Differences.{with_objects};
ghost use Rattle.ob_heap.specs.Plain.{object_of};
ghost use Rattle.ob_heap.specs.declared.object.Object.{Object as StoredObject};
ghost use Rattle.ob_store_laws.specs.Recorded.{content_with, handle_change, object_change};
ghost use Rattle.ob_store_payload.specs.Whole.{GoesOn, KeptChange, KeptHandle, course, handle_rows, left_by, objects_with};
ghost use Rattle.ob_store_spec.specs.Between.{all_of, stored_from};
ghost use Rattle.ob_store_spec.specs.Payloads.{handle as handle_format, object as object_format, payload as payload_format};

use crate::conditions::{count_after, count_handles_after, order};
use crate::values::put_object;
use crate::writing::put_held;
use ob_base::{Label, MOST_HANDLES, Memory, ObjectId, put_u32};
use ob_code::Image;
use ob_format::put_text_bytes;
use ob_heap::{Block, Content, Delta, Handle, Object};
use std::cmp::Ordering;

// Appends the object of a number, or the first of these changes in its place if that has the same number. Answers the changes to come.
fn put_next_object<'a>(
    out: &mut Vec<u8>,
    code: &Image,
    id: ObjectId,
    object: &Object,
    changes: &'a [(ObjectId, Object)],
) -> Result<&'a [(ObjectId, Object)], Memory>
    ensures { IfOk result (λ rest. (os : List StoredObject) → out.old.items ++ objects_with (table_of_image code.now) id.0 (object.now ∷ os) changes.now
        ≡ out.new.items ++ objects_with (table_of_image code.now) (suc id.0) os rest.now) }
{
    match changes {
        [first, rest @ ..] => {
            if first.0.0 == id.0 {
                put_object(out, code, first.0, &first.1)?;
                return Ok(rest);
            }
        }
        [] => {}
    }
    put_object(out, code, id, object)?;
    Ok(changes)
}

// Appends objects, each with its number.
fn put_numbered(
    out: &mut Vec<u8>,
    code: &Image,
    objects: &[(ObjectId, Object)],
) -> Result<(), Memory>
    ensures { OnOk result (out.new.items ≡ out.old.items
        ++ each_bytes (object_format (table_of_image code.now)).bytes (map (object_change (table_of_image code.now)) objects.now)) }
{
    for entry in objects {
        put_object(out, code, entry.0, &entry.1)?;
    }
    Ok(())
}

// Appends objects, with those of a delta in the places of their numbers and behind them.
fn put_objects_with(
    out: &mut Vec<u8>,
    code: &Image,
    objects: &[Object],
    changes: &[(ObjectId, Object)],
) -> Result<(), Memory>
    requires { length objects.now ≤ 2 ^ 32 }
    ensures { OnOk result (out.new.items ≡ out.old.items ++ objects_with (table_of_image code.now) 0 objects.now changes.now) }
{
    let mut rest = changes;
    for (place, object) in objects.iter().enumerate() {
        rest = put_next_object(out, code, ObjectId(place as u32), object, rest)?;
    }
    put_numbered(out, code, rest)
}

// How many objects there are after those of a delta.
fn count_objects(content: &Content, changes: &[(ObjectId, Object)]) -> usize
    requires ascending { IsAscending (λ (e : ObjectNumber × StoredObject). e.0.0) changes.now }
    requires next { AreNext (length content.now.objects) changes.now }
    ensures { result ≡ length (with_objects content.now.objects changes.now) }
{
    match count_after(content, changes) {
        Some(count) => count,
        None => unreachable!(),
    }
}

// Appends the count of the objects after a delta, and the objects.
fn put_objects(
    out: &mut Vec<u8>,
    code: &Image,
    content: &Content,
    changes: &[(ObjectId, Object)],
) -> Result<(), Memory>
    requires ascending { IsAscending (λ (e : ObjectNumber × StoredObject). e.0.0) changes.now }
    requires next { AreNext (length content.now.objects) changes.now }
    ensures { OnOk result (out.new.items ≡ out.old.items ++ (counted (object_format (table_of_image code.now))).bytes
        (stored_from (table_of_image code.now) 0 (map object_of (with_objects content.now.objects changes.now)))) }
{
    let count = count_objects(content, changes);
    if count > 0xffff_ffff {
        return Err(Memory);
    }
    put_u32(out, count as u32)?;
    put_objects_with(out, code, content.objects(), changes)?;
    Ok(())
}

// Appends a handle with its name.
#[tactic(auto, using(crate::proofs::Spellings::label_fits), unfolding(ob_store_spec::specs::Payloads::handle))]
fn put_handle(out: &mut Vec<u8>, name: &(Label, Label), handle: Handle) -> Result<(), Memory>
    ensures { OnOk result (out.new.items ≡ out.old.items ++ handle_rows (named_of (name.now, handle) ∷ [])) }
{
    put_text_bytes(out, name.0.as_bytes())?;
    put_text_bytes(out, name.1.as_bytes())?;
    put_held(out, Some(handle))
}

// Appends the handle that a change leaves, if it leaves one.
fn put_left(out: &mut Vec<u8>, name: &(Label, Label), change: Option<Handle>) -> Result<(), Memory>
    ensures { OnOk result (out.new.items ≡ out.old.items ++ handle_rows (left_by (handle_change (name.now, change)))) }
{
    match change {
        Some(handle) => put_handle(out, name, handle),
        None => Ok(()),
    }
}

// Appends what changes leave before a handle's name, and the handle, or what a change of it leaves. Answers the changes to come.
fn put_next_handle<'a>(
    out: &mut Vec<u8>,
    handle: &((Label, Label), Handle),
    changes: &'a [((Label, Label), Option<Handle>)],
) -> Result<&'a [((Label, Label), Option<Handle>)], Memory>
    ensures { IfOk result (λ rest. (hs : List KeptHandle) → GoesOn (course out.old.items (handle.now ∷ hs) changes.now) (course out.new.items hs rest.now)) }
{
    for (place, change) in changes.iter().enumerate() {
        match order(&change.0, &handle.0) {
            Ordering::Less => put_left(out, &change.0, change.1)?,
            Ordering::Equal => {
                put_left(out, &change.0, change.1)?;
                return Ok(&changes[place + 1..]);
            }
            Ordering::Greater => {
                put_handle(out, &handle.0, handle.1)?;
                return Ok(&changes[place..]);
            }
        }
    }
    put_handle(out, &handle.0, handle.1)?;
    Ok(&changes[changes.len()..])
}

// Appends handles with changes up to the last of them. Answers the changes to come.
fn put_some_handles<'a>(
    out: &mut Vec<u8>,
    handles: &[((Label, Label), Handle)],
    changes: &'a [((Label, Label), Option<Handle>)],
) -> Result<&'a [((Label, Label), Option<Handle>)], Memory>
    ensures { IfOk result (λ rest. (hs : List KeptHandle) → GoesOn (course out.old.items (handles.now ++ hs) changes.now) (course out.new.items hs rest.now)) }
{
    let mut rest = changes;
    for handle in handles {
        rest = put_next_handle(out, handle, rest)?;
    }
    Ok(rest)
}

// Appends the handles that changes leave.
fn put_all_left(
    out: &mut Vec<u8>,
    changes: &[((Label, Label), Option<Handle>)],
) -> Result<(), Memory>
    ensures { OnOk result (GoesOn (course out.old.items [] changes.now) (course out.new.items [] [])) }
{
    for change in changes {
        put_left(out, &change.0, change.1)?;
    }
    Ok(())
}

// Appends the handles of blocks after changes.
fn put_handles_with(
    out: &mut Vec<u8>,
    blocks: &[Block],
    changes: &[((Label, Label), Option<Handle>)],
) -> Result<(), Memory>
    ensures { OnOk result (GoesOn (course out.old.items (joined blocks.now) changes.now) (course out.new.items [] [])) }
{
    let mut rest = changes;
    for block in blocks {
        rest = put_some_handles(out, block.as_slice(), rest)?;
    }
    put_all_left(out, rest)?;
    Ok(())
}

// Appends the count of the handles after changes, and the handles. `Memory` also where there are more than there may be.
fn put_handles(
    out: &mut Vec<u8>,
    content: &Content,
    changes: &[((Label, Label), Option<Handle>)],
) -> Result<(), Memory>
    requires { AllPairs (λ (a b : KeptChange). label_order a.0 b.0 ≡ Less) changes.now }
    ensures { OnOk result (out.new.items ≡ out.old.items ++ (counted handle_format).bytes
        (map (λ h. (h.0, Some h.1)) (map named_of (with_handles content.now.handles changes.now)))) }
{
    if content.count_handles() > MOST_HANDLES {
        return Err(Memory);
    }
    let count = count_handles_after(content, changes);
    if count > 0xffff_ffff {
        return Err(Memory);
    }
    put_u32(out, count as u32)?;
    put_handles_with(out, content.handle_blocks(), changes)?;
    Ok(())
}

/// Appends the payload that says all that a content holds after a delta, which isn't applied (this project's own). It goes through the
/// content once, and takes no memory but the payload's. `Memory` also where there are more handles than there may be, more objects than
/// 32 bits count, or a longer text than they say; some bytes of the payload are then appended.
#[tactic(auto, unfolding(ob_store_spec::specs::Payloads::payload))]
pub fn put_whole(
    out: &mut Vec<u8>,
    code: &Image,
    content: &Content,
    delta: &Delta,
) -> Result<(), Memory>
    requires { IsDelta content.now delta.now }
    ensures { OnOk result (out.new.items ≡ out.old.items
        ++ (payload_format (table_of_image code.now)).bytes (all_of (table_of_image code.now) (content_with content.now delta.now))) }
{
    put_objects(out, code, content, delta.objects.as_slice())?;
    put_handles(out, content, delta.handles.as_slice())?;
    Ok(())
}
