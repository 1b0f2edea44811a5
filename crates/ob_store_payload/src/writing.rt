//! What differs after a delta, as bytes.
ghost use Rattle.std.specs.Prelude.{◌≡◌, ◌==◌, ◌&&◌, ◌++◌, not, map, filter, Option, option_map, IfOk, OnOk};
ghost use Rattle.std.specs.Str.{bytes_eq};
ghost use Rattle.ob_code.specs.Images.{number_of_mode, mode as mode_format};
ghost use Rattle.ob_format_spec.specs.Texts.{text};
ghost use Rattle.ob_heap.specs.Contents.{content_of, name_of};
ghost use Rattle.ob_heap.specs.Deltas.{IsDelta};
ghost use Rattle.ob_heap.specs.Plain.{handle_of, object_of};
ghost use Rattle.ob_heap_spec.specs.Contents.{IsContent, Handle as PlainHandle};
ghost use Rattle.ob_code_table.specs.ImageTables.{table_of_image};
ghost use Rattle.ob_store_laws.specs.Recorded.{content_with, object_change, handle_change};
ghost use Rattle.ob_store_payload.specs.Rows.{AreRows, AreWithRow};
ghost use Rattle.ob_store_payload.specs.Writing.{IsPayload};
ghost use Rattle.ob_store_spec.specs.Between.{changes_between, stored_object, is_stored_so, is_held_so};
ghost use Rattle.ob_store_spec.specs.Payloads.{StoredObject, held as held_format, handle as handle_format, object as object_format};

use crate::rows::Rows;
use crate::values::put_object;
use ob_base::{Label, Memory, Mode, ObjectId, put_u8, put_u32};
use ob_code::Image;
use ob_format::put_text_bytes;
use ob_heap::{Content, Delta, Handle, Object};
use std::alloc::Global;

fn object_bytes(
    alloc: Global,
    code: &Image,
    id: ObjectId,
    object: &Object,
) -> Result<Vec<u8>, Memory>
    ensures { IfOk result (λ bytes. bytes.items ≡ (object_format (table_of_image code.now)).bytes (stored_object (table_of_image code.now) id.0 (object_of object.now))) }
{
    let mut bytes = Vec::new(alloc);
    put_object(&mut bytes, code, id, object)?;
    Ok(bytes)
}

fn are_same(bytes: &[u8], others: &[u8]) -> bool
    ensures { result ≡ bytes_eq bytes.now others.now }
{
    bytes == others
}

// Whether a content has an object of this number with these bytes.
fn is_stored_so(
    alloc: Global,
    code: &Image,
    content: &Content,
    id: ObjectId,
    bytes: &[u8],
) -> Result<bool, Memory>
    ensures { IfOk result (λ same. (o : StoredObject) → o.number ≡ id.0 → bytes.now ≡ (object_format (table_of_image code.now)).bytes o
        → same ≡ is_stored_so (table_of_image code.now) (content_of content.now).objects o) }
{
    match content.object(id) {
        Some(before) => {
            let stored = object_bytes(alloc, code, id, before)?;
            Ok(are_same(stored.as_slice(), bytes))
        }
        None => Ok(false),
    }
}

// Adds an object, where it isn't stored so in a content.
fn add_object(
    rows: &mut Rows,
    alloc: Global,
    code: &Image,
    content: &Content,
    id: ObjectId,
    object: &Object,
) -> Result<(), Memory>
    ensures { OnOk result (AreWithRow (object_format (table_of_image code.now)).bytes
        (λ o. not (is_stored_so (table_of_image code.now) (content_of content.now).objects o))
        (object_change (table_of_image code.now) (id, object.now)) rows.old rows.new) }
{
    let bytes = object_bytes(alloc, code, id, object)?;
    if is_stored_so(alloc, code, content, id, bytes.as_slice())? {
        return Ok(());
    }
    rows.add(bytes.as_slice())?;
    Ok(())
}

// The objects that aren't stored so in a content.
fn changed_objects(
    alloc: Global,
    code: &Image,
    content: &Content,
    objects: &[(ObjectId, Object)],
) -> Result<Rows, Memory>
    ensures { IfOk result (AreRows (object_format (table_of_image code.now)).bytes
        (filter (λ o. not (is_stored_so (table_of_image code.now) (content_of content.now).objects o)) (map (object_change (table_of_image code.now)) objects.now))) }
{
    let mut rows = Rows::new(alloc);
    for entry in objects {
        add_object(&mut rows, alloc, code, content, entry.0, &entry.1)?;
    }
    Ok(rows)
}

fn number_of_mode(mode: Mode) -> u8
    ensures { result ≡ number_of_mode mode }
{
    match mode {
        Mode::Owned => 0,
        Mode::Shared => 1,
        Mode::Unowned => 2,
    }
}

#[tactic(auto, using(ob_code::proofs::Spellings::mode_bytes))]
fn put_mode(out: &mut Vec<u8>, mode: Mode) -> Result<(), Memory>
    ensures { OnOk result (out.new.items ≡ out.old.items ++ mode_format.bytes mode) }
{
    put_u8(out, number_of_mode(mode))
}

/// Appends a handle as it is then, or that it is none.
#[tactic(auto, unfolding(ob_store_spec::specs::Payloads::held, ob_store_spec::specs::Payloads::hold))]
pub fn put_held(out: &mut Vec<u8>, value: Option<Handle>) -> Result<(), Memory>
    ensures { OnOk result (out.new.items ≡ out.old.items ++ held_format.bytes (option_map handle_of value)) }
{
    match value {
        Some(handle) => {
            put_u8(out, 1)?;
            put_u32(out, handle.object.0)?;
            put_mode(out, handle.mode)
        }
        None => put_u8(out, 0),
    }
}

fn held_bytes(alloc: Global, value: Option<Handle>) -> Result<Vec<u8>, Memory>
    ensures { IfOk result (λ bytes. bytes.items ≡ held_format.bytes (option_map handle_of value)) }
{
    let mut bytes = Vec::new(alloc);
    put_held(&mut bytes, value)?;
    Ok(bytes)
}

// Whether a name denotes what has these bytes in a content.
fn is_held_so(
    alloc: Global,
    content: &Content,
    name: &(Label, Label),
    bytes: &[u8],
) -> Result<bool, Memory>
    ensures { IfOk result (λ same. (h : Option PlainHandle) → bytes.now ≡ held_format.bytes h → same ≡ is_held_so (content_of content.now) (name_of name.now, h)) }
{
    let before = held_bytes(alloc, content.handle(&name.0, &name.1))?;
    Ok(are_same(before.as_slice(), bytes))
}

// A handle's name, and these bytes of what it is.
#[tactic(auto, using(crate::proofs::Spellings::label_fits))]
fn handle_bytes(alloc: Global, name: &(Label, Label), held: &[u8]) -> Result<Vec<u8>, Memory>
    ensures { IfOk result (λ bytes. bytes.items ≡ text.bytes name.now.0 ++ (text.bytes name.now.1 ++ held.now)) }
{
    let mut bytes = Vec::new(alloc);
    put_text_bytes(&mut bytes, name.0.as_bytes())?;
    put_text_bytes(&mut bytes, name.1.as_bytes())?;
    bytes.extend_from_slice(held)?;
    Ok(bytes)
}

// Adds a handle, or that it is none, where its name doesn't denote that in a content.
#[tactic(auto, unfolding(ob_store_spec::specs::Payloads::handle))]
fn add_handle(
    rows: &mut Rows,
    alloc: Global,
    content: &Content,
    name: &(Label, Label),
    value: Option<Handle>,
) -> Result<(), Memory>
    ensures { OnOk result (AreWithRow handle_format.bytes (λ h. not (is_held_so (content_of content.now) h)) (handle_change (name.now, value)) rows.old rows.new) }
{
    let held = held_bytes(alloc, value)?;
    if is_held_so(alloc, content, name, held.as_slice())? {
        return Ok(());
    }
    let row = handle_bytes(alloc, name, held.as_slice())?;
    rows.add(row.as_slice())?;
    Ok(())
}

// The handles whose names denote something else in a content.
fn changed_handles(
    alloc: Global,
    content: &Content,
    handles: &[((Label, Label), Option<Handle>)],
) -> Result<Rows, Memory>
    ensures { IfOk result (AreRows handle_format.bytes (filter (λ h. not (is_held_so (content_of content.now) h)) (map handle_change handles.now))) }
{
    let mut rows = Rows::new(alloc);
    for entry in handles {
        add_handle(&mut rows, alloc, content, &entry.0, entry.1)?;
    }
    Ok(rows)
}

fn are_empty(objects: &Rows, handles: &Rows) -> bool
    ensures { result ≡ (objects.now.count == 0 && handles.now.count == 0) }
{
    objects.count == 0 && handles.count == 0
}

/// The payload that says what differs after a delta, or `None` where nothing does (this project's own). `Memory` also where there are
/// more changes, or is a longer text, than 32 bits count.
#[tactic(auto, unfolding(ob_store_spec::specs::Payloads::payload))]
pub fn put_payload(
    alloc: Global,
    code: &Image,
    content: &Content,
    delta: &Delta,
) -> Result<Option<Vec<u8>>, Memory>
    requires content { IsContent (table_of_image code.now) (content_of content.now) }
    requires delta { IsDelta content.now delta.now }
    ensures { IfOk result (IsPayload (table_of_image code.now) (changes_between (table_of_image code.now) (content_of content.now) (content_with content.now delta.now))) }
{
    let objects = changed_objects(alloc, code, content, delta.objects.as_slice())?;
    let handles = changed_handles(alloc, content, delta.handles.as_slice())?;
    if are_empty(&objects, &handles) {
        return Ok(None);
    }
    let mut bytes = Vec::new(alloc);
    objects.put(&mut bytes)?;
    handles.put(&mut bytes)?;
    Ok(Some(bytes))
}
