//! The places that own objects, gathered one after another.
ghost use Rattle.std.specs.Prelude.{◌≡◌, ℕ, [], ◌∷◌, ◌++◌, map, flat_map, option_map, option_copied, IfOk, OnOk};
ghost use Rattle.std.specs.Option.{option_to_list};
ghost use Rattle.std.specs.List.{enumerate_from};
ghost use Rattle.ob_heap.specs.Blocks.{joined};
ghost use Rattle.ob_heap.specs.Contents.{content_of, name_of, named_of};
ghost use Rattle.ob_heap.specs.Plain.{object_of, handle_of};
ghost use Rattle.ob_code_table.specs.ImageTables.{contract_of_code, table_of_image};
ghost use Rattle.ob_rest_spec.specs.Incoming.{stored_field};
ghost use Rattle.ob_owners.specs.Owning.{owning_of, owning_by_field, owning_by_handle, owning_by_object, all_owning, objects_coming, handles_coming, objects_going, handles_going, coming_places, going_places};
ghost use Rattle.ob_owners.specs.Referring.{field_reference_of, references_by};
ghost use Rattle.ob_owners.specs.Spots.{place_of};
ghost use Rattle.ob_owners.specs.declared.spot.Spot.TheVariants.{Handle as HandleAt};

use crate::mode::is_owned;
use crate::references::{FieldReference, reference_at};
use crate::spot::Spot;
use ob_base::{Duplicate, FieldId, Label, Memory, ObjectId, both};
use ob_code::{ContractCode, Image};
use ob_heap::{Block, Content, Delta, Handle, Object};
use std::alloc::Global;

/// A place that owns an object.
#[derive(Drop)]
pub struct Owning {
    /// The object.
    pub object: ObjectId,
    /// The place.
    pub spot: Spot,
}

// Adds a place that owns an object.
fn add_place(found: &mut Vec<Owning>, object: ObjectId, spot: Spot) -> Result<(), Memory>
    ensures { OnOk result (map owning_of found.new.items ≡ map owning_of found.old.items ++ record { object = object.0; place = place_of spot } ∷ []) }
{
    found.push(Owning { object, spot })?;
    Ok(())
}

// The field at a place of the object of a number. There are always fewer than 2^32 objects, and at most 64 fields of each.
fn field_spot(holder: usize, place: usize) -> Result<Spot, Memory>
    ensures { IfOk result (λ spot. place_of spot ≡ stored_field holder place) }
{
    if holder > 0xffff_ffff || place > 0xff {
        return Err(Memory);
    }
    Ok(Spot::Field(ObjectId(holder as u32), FieldId(place as u8)))
}

// Adds the reference in the field at a place of an object, if it owns its object.
fn add_reference(
    found: &mut Vec<Owning>,
    holder: usize,
    place: usize,
    reference: FieldReference,
) -> Result<(), Memory>
    ensures { OnOk result (map owning_of found.new.items ≡ map owning_of found.old.items ++ owning_by_field (field_reference_of holder place reference)) }
{
    if is_owned(reference.perm.mode) {
        let spot = field_spot(holder, place)?;
        return add_place(found, reference.object, spot);
    }
    Ok(())
}

// The same where there is a reference in the field.
fn add_field(
    found: &mut Vec<Owning>,
    holder: usize,
    place: usize,
    reference: Option<FieldReference>,
) -> Result<(), Memory>
    ensures { OnOk result (map owning_of found.new.items ≡ map owning_of found.old.items ++ flat_map owning_by_field (option_to_list (option_map (field_reference_of holder place) reference))) }
{
    match reference {
        Some(reference) => add_reference(found, holder, place, reference),
        None => Ok(()),
    }
}

// Adds the owning fields of an object of a contract.
fn add_fields(
    found: &mut Vec<Owning>,
    contract: &ContractCode,
    holder: usize,
    object: &Object,
) -> Result<(), Memory>
    ensures { OnOk result (map owning_of found.new.items ≡ map owning_of found.old.items ++ flat_map owning_by_field (references_by (contract_of_code contract.now) holder (object_of object.now))) }
{
    for (place, field) in contract.fields.as_slice().iter().enumerate() {
        let reference = reference_at(contract, object, place, field);
        add_field(found, holder, place, reference)?;
    }
    Ok(())
}

// Adds the owning fields of an object.
fn add_object(
    found: &mut Vec<Owning>,
    code: &Image,
    holder: usize,
    object: &Object,
) -> Result<(), Memory>
    ensures { OnOk result (map owning_of found.new.items ≡ map owning_of found.old.items ++ owning_by_object (table_of_image code.now) (holder, object_of object.now)) }
{
    match code.contracts.get(object.contract.0 as usize) {
        Some(contract) => add_fields(found, contract, holder, object),
        None => Ok(()),
    }
}

// Adds the owning fields of all objects.
fn add_objects(found: &mut Vec<Owning>, code: &Image, objects: &[Object]) -> Result<(), Memory>
    ensures { OnOk result (map owning_of found.new.items ≡ map owning_of found.old.items ++ flat_map (owning_by_object (table_of_image code.now)) (enumerate_from 0 (map object_of objects.now))) }
{
    for (holder, object) in objects.iter().enumerate() {
        add_object(found, code, holder, object)?;
    }
    Ok(())
}

// Adds the owning fields of the objects of a delta.
fn add_objects_coming(
    found: &mut Vec<Owning>,
    code: &Image,
    changes: &[(ObjectId, Object)],
) -> Result<(), Memory>
    ensures { OnOk result (map owning_of found.new.items ≡ map owning_of found.old.items ++ flat_map (owning_by_object (table_of_image code.now)) (objects_coming changes.now)) }
{
    for change in changes {
        add_object(found, code, change.0.0 as usize, &change.1)?;
    }
    Ok(())
}

// Adds the owning fields of an object, if there is one.
fn add_object_there(
    found: &mut Vec<Owning>,
    code: &Image,
    holder: usize,
    object: Option<&Object>,
) -> Result<(), Memory>
    ensures { OnOk result (map owning_of found.new.items ≡ map owning_of found.old.items ++ flat_map (owning_by_object (table_of_image code.now)) (option_to_list (option_map (λ o. (holder, object_of o)) (option_copied object.entry)))) }
{
    match object {
        Some(object) => add_object(found, code, holder, object),
        None => Ok(()),
    }
}

// Adds the owning fields of the objects of a content that a delta replaces.
fn add_objects_going(
    found: &mut Vec<Owning>,
    code: &Image,
    content: &Content,
    changes: &[(ObjectId, Object)],
) -> Result<(), Memory>
    ensures { OnOk result (map owning_of found.new.items ≡ map owning_of found.old.items ++ flat_map (owning_by_object (table_of_image code.now)) (objects_going content.now changes.now)) }
{
    for change in changes {
        add_object_there(found, code, change.0.0 as usize, content.object(change.0))?;
    }
    Ok(())
}

// A handle as a place.
fn handle_spot(alloc: Global, who: &Label, name: &Label) -> Result<Spot, Memory>
    ensures { IfOk result (λ spot. spot ≡ HandleAt who.now name.now) }
{
    let (who, name) = both(who.copy(alloc), name.copy(alloc))?;
    Ok(Spot::Handle(who, name))
}

// Adds a handle, if it owns its object.
fn add_handle(
    found: &mut Vec<Owning>,
    alloc: Global,
    name: &(Label, Label),
    handle: Handle,
) -> Result<(), Memory>
    ensures { OnOk result (map owning_of found.new.items ≡ map owning_of found.old.items ++ owning_by_handle (name_of name.now, handle_of handle)) }
{
    if is_owned(handle.mode) {
        let spot = handle_spot(alloc, &name.0, &name.1)?;
        return add_place(found, handle.object, spot);
    }
    Ok(())
}

// The same where there is a handle.
fn add_handle_there(
    found: &mut Vec<Owning>,
    alloc: Global,
    name: &(Label, Label),
    handle: Option<Handle>,
) -> Result<(), Memory>
    ensures { OnOk result (map owning_of found.new.items ≡ map owning_of found.old.items ++ flat_map owning_by_handle (option_to_list (option_map (λ h. (name_of name.now, handle_of h)) handle))) }
{
    match handle {
        Some(handle) => add_handle(found, alloc, name, handle),
        None => Ok(()),
    }
}

// Adds the owning handles of a block.
fn add_handles(
    found: &mut Vec<Owning>,
    alloc: Global,
    handles: &[((Label, Label), Handle)],
) -> Result<(), Memory>
    ensures { OnOk result (map owning_of found.new.items ≡ map owning_of found.old.items ++ flat_map owning_by_handle (map named_of handles.now)) }
{
    for handle in handles {
        add_handle(found, alloc, &handle.0, handle.1)?;
    }
    Ok(())
}

// Adds the owning handles of blocks, one after another.
fn add_blocks(found: &mut Vec<Owning>, alloc: Global, blocks: &[Block]) -> Result<(), Memory>
    ensures { OnOk result (map owning_of found.new.items ≡ map owning_of found.old.items ++ flat_map owning_by_handle (map named_of (joined blocks.now))) }
{
    for block in blocks {
        add_handles(found, alloc, block.as_slice())?;
    }
    Ok(())
}

// Adds the owning handles of a delta.
fn add_handles_coming(
    found: &mut Vec<Owning>,
    alloc: Global,
    changes: &[((Label, Label), Option<Handle>)],
) -> Result<(), Memory>
    ensures { OnOk result (map owning_of found.new.items ≡ map owning_of found.old.items ++ flat_map owning_by_handle (handles_coming changes.now)) }
{
    for change in changes {
        add_handle_there(found, alloc, &change.0, change.1)?;
    }
    Ok(())
}

// Adds the owning handles of a content that a delta replaces or removes.
fn add_handles_going(
    found: &mut Vec<Owning>,
    alloc: Global,
    content: &Content,
    changes: &[((Label, Label), Option<Handle>)],
) -> Result<(), Memory>
    ensures { OnOk result (map owning_of found.new.items ≡ map owning_of found.old.items ++ flat_map owning_by_handle (handles_going content.now changes.now)) }
{
    for change in changes {
        let handle = content.handle(&change.0.0, &change.0.1);
        add_handle_there(found, alloc, &change.0, handle)?;
    }
    Ok(())
}

/// The owning places of a content, in the order of the incoming references.
pub fn gather_all(alloc: Global, code: &Image, content: &Content) -> Result<Vec<Owning>, Memory>
    ensures { IfOk result (λ found. map owning_of found.items ≡ all_owning (table_of_image code.now) (content_of content.now)) }
{
    let mut found = Vec::new(alloc);
    add_objects(&mut found, code, content.objects())?;
    add_blocks(&mut found, alloc, content.handle_blocks())?;
    Ok(found)
}

/// The owning places that come with a delta.
pub fn gather_coming(alloc: Global, code: &Image, delta: &Delta) -> Result<Vec<Owning>, Memory>
    ensures { IfOk result (λ found. map owning_of found.items ≡ coming_places (table_of_image code.now) delta.now) }
{
    let mut found = Vec::new(alloc);
    add_objects_coming(&mut found, code, delta.objects.as_slice())?;
    add_handles_coming(&mut found, alloc, delta.handles.as_slice())?;
    Ok(found)
}

/// The owning places of a content that go with a delta.
pub fn gather_going(
    alloc: Global,
    code: &Image,
    content: &Content,
    delta: &Delta,
) -> Result<Vec<Owning>, Memory>
    ensures { IfOk result (λ found. map owning_of found.items ≡ going_places (table_of_image code.now) content.now delta.now) }
{
    let mut found = Vec::new(alloc);
    add_objects_going(&mut found, code, content, delta.objects.as_slice())?;
    add_handles_going(&mut found, alloc, content, delta.handles.as_slice())?;
    Ok(found)
}
