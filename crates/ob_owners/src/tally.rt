//! What the places of a store say of each object, noted in one pass over them.
ghost use Rattle.std.specs.Prelude.{◌≡◌, ℕ, map, option_map, IfOk};
ghost use Rattle.std.specs.Option.{option_to_list};
ghost use Rattle.ob_heap.specs.Blocks.{joined};
ghost use Rattle.ob_heap.specs.Contents.{content_of, named_of};
ghost use Rattle.ob_heap.specs.Plain.{object_of, handle_of};
ghost use Rattle.ob_heap_spec.specs.Contents.{HandleName};
ghost use Rattle.ob_code_table.specs.ImageTables.{contract_of_code, table_of_image};
ghost use Rattle.ob_rest_spec.specs.Modes.{is_shared};
ghost use Rattle.ob_rest_spec.specs.References.{references_of, field_references};
ghost use Rattle.ob_owners.specs.Referring.{field_reference_of, references_by};
ghost use Rattle.ob_owners.specs.Tallies.{AreTallies};
ghost use Rattle.ob_owners.specs.Noting.{empty_tally, one_owner_more, with_holding, tallies_with, after_holdings, holding_of_field, holding_of_handle, holdings};

use crate::mode::is_owned;
use crate::references::{FieldReference, reference_at};
use crate::seen::is_in_states;
use ob_base::{Label, Memory, Mode, ObjectId};
use ob_code::{ContractCode, Image};
use ob_heap::{Block, Content, Handle, Object};
use std::alloc::Global;

/// How many places own an object.
#[derive(Clone, Copy)]
pub enum OwnerCount {
    /// None does.
    Zero,
    /// One does.
    One,
    /// More than one do.
    Many,
}

/// What the places that refer to an object say of it.
#[derive(Clone, Copy)]
pub struct Tally {
    /// How many of them own it.
    pub owners: OwnerCount,
    /// Whether one of them shares it.
    pub shared: bool,
    /// Whether it is outside the states with which a field that owns it is declared.
    pub outside: bool,
}

/// How a place holds an object.
#[derive(Clone, Copy)]
pub struct Holding {
    /// The object.
    pub object: ObjectId,
    /// Whether the place owns it, shares it or has no say.
    pub mode: Mode,
    /// Whether the place owns it as a field, and it is outside the states with which the field is declared.
    pub outside: bool,
}

// The tally of an object to which no place refers.
fn empty_tally() -> Tally
    ensures { result ≡ empty_tally }
{
    Tally {
        owners: OwnerCount::Zero,
        shared: false,
        outside: false,
    }
}

// One owner more.
fn one_owner_more(owners: OwnerCount) -> OwnerCount
    ensures { result ≡ one_owner_more owners }
{
    match owners {
        OwnerCount::Zero => OwnerCount::One,
        OwnerCount::One | OwnerCount::Many => OwnerCount::Many,
    }
}

// Whether it is the mode of one of those that share the object.
fn is_shared(mode: Mode) -> bool
    ensures { result ≡ is_shared mode }
{
    match mode {
        Mode::Shared => true,
        Mode::Owned | Mode::Unowned => false,
    }
}

// A tally with one place more.
fn with_holding(tally: Tally, holding: Holding) -> Tally
    ensures { result ≡ with_holding holding tally }
{
    let owners = if is_owned(holding.mode) {
        one_owner_more(tally.owners)
    } else {
        tally.owners
    };
    Tally {
        owners,
        shared: tally.shared || is_shared(holding.mode),
        outside: tally.outside || holding.outside,
    }
}

// Notes one place more.
fn note(tallies: &mut [Tally], holding: Holding)
    ensures { tallies.new ≡ tallies_with holding tallies.old }
{
    let place = holding.object.0 as usize;
    if place < tallies.len() {
        tallies[place] = with_holding(tallies[place], holding);
    }
}

// Whether a field owns its object, which is in none of the states with which the field is declared.
fn is_outside(code: &Image, objects: &[Object], reference: FieldReference) -> bool
    ensures { (holder k : ℕ) → result ≡ (holding_of_field (table_of_image code.now) (map object_of objects.now) (field_reference_of holder k reference)).outside }
{
    match objects.get(reference.object.0 as usize) {
        Some(object) => {
            is_owned(reference.perm.mode)
                && !is_in_states(code, reference.contract, reference.perm, object)
        }
        None => false,
    }
}

// How a field holds the object to which it refers.
fn holding_of_field(code: &Image, objects: &[Object], reference: FieldReference) -> Holding
    ensures { (holder k : ℕ) → result ≡ holding_of_field (table_of_image code.now) (map object_of objects.now) (field_reference_of holder k reference) }
{
    Holding {
        object: reference.object,
        mode: reference.perm.mode,
        outside: is_outside(code, objects, reference),
    }
}

// Notes the reference that was found in a field, if there is one.
fn note_found(
    code: &Image,
    objects: &[Object],
    found: Option<FieldReference>,
    tallies: &mut [Tally],
)
    ensures { (holder k : ℕ) → tallies.new ≡ after_holdings (map (holding_of_field (table_of_image code.now) (map object_of objects.now)) (option_to_list (option_map (field_reference_of holder k) found))) tallies.old }
{
    if let Some(reference) = found {
        note(tallies, holding_of_field(code, objects, reference));
    }
}

// Notes the references in the fields of an object of a contract.
fn note_fields(
    code: &Image,
    objects: &[Object],
    contract: &ContractCode,
    object: &Object,
    tallies: &mut [Tally],
)
    ensures { (holder : ℕ) → tallies.new ≡ after_holdings (map (holding_of_field (table_of_image code.now) (map object_of objects.now)) (references_by (contract_of_code contract.now) holder (object_of object.now))) tallies.old }
{
    for (place, field) in contract.fields.as_slice().iter().enumerate() {
        let found = reference_at(contract, object, place, field);
        note_found(code, objects, found, tallies);
    }
}

// Notes the references in the fields of an object.
fn note_object(code: &Image, objects: &[Object], object: &Object, tallies: &mut [Tally])
    ensures { (holder : ℕ) → tallies.new ≡ after_holdings (map (holding_of_field (table_of_image code.now) (map object_of objects.now)) (references_of (table_of_image code.now) holder (object_of object.now))) tallies.old }
{
    if let Some(contract) = code.contracts.get(object.contract.0 as usize) {
        note_fields(code, objects, contract, object, tallies);
    }
}

// Notes the references in the fields of all objects.
fn note_objects(code: &Image, objects: &[Object], tallies: &mut [Tally])
    ensures { tallies.new ≡ after_holdings (map (holding_of_field (table_of_image code.now) (map object_of objects.now)) (field_references (table_of_image code.now) (map object_of objects.now))) tallies.old }
{
    for object in objects {
        note_object(code, objects, object, tallies);
    }
}

// How a handle holds its object.
fn holding_of_handle(handle: Handle) -> Holding
    ensures { (name : HandleName) → result ≡ holding_of_handle (name, handle_of handle) }
{
    Holding {
        object: handle.object,
        mode: handle.mode,
        outside: false,
    }
}

// Notes the handles.
fn note_handles(handles: &[((Label, Label), Handle)], tallies: &mut [Tally])
    ensures { tallies.new ≡ after_holdings (map holding_of_handle (map named_of handles.now)) tallies.old }
{
    for handle in handles {
        note(tallies, holding_of_handle(handle.1));
    }
}

// Notes the handles of blocks, one after another.
fn note_blocks(blocks: &[Block], tallies: &mut [Tally])
    ensures { tallies.new ≡ after_holdings (map holding_of_handle (map named_of (joined blocks.now))) tallies.old }
{
    for block in blocks {
        note_handles(block.as_slice(), tallies);
    }
}

// Notes all places of a store.
fn note_places(code: &Image, content: &Content, tallies: &mut [Tally])
    ensures { tallies.new ≡ after_holdings (holdings (table_of_image code.now) (content_of content.now)) tallies.old }
{
    note_objects(code, content.objects(), tallies);
    note_blocks(content.handle_blocks(), tallies);
}

/// The tally of each object, by one pass over the fields of the objects and one over the handles.
pub fn tallies(alloc: Global, code: &Image, content: &Content) -> Result<Vec<Tally>, Memory>
    ensures { IfOk result (λ ts. AreTallies (table_of_image code.now) (content_of content.now) ts.items) }
{
    let mut tallies = vec![in alloc; empty_tally(); content.objects().len()]?;
    note_places(code, content, tallies.as_mut_slice());
    Ok(tallies)
}
