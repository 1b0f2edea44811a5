//! Whether a store is at rest.
ghost use Rattle.std.specs.Prelude.{◌≡◌, ◌≤◌, ℕ, false, not, map, length, option_map, OnOk};
ghost use Rattle.std.specs.List.{list_any};
ghost use Rattle.std.specs.Option.{option_map_or};
ghost use Rattle.ob_base.specs.Limits.{most_objects, most_handles};
ghost use Rattle.ob_heap.specs.Contents.{content_of};
ghost use Rattle.ob_heap.specs.Plain.{object_of};
ghost use Rattle.ob_heap_spec.specs.Contents.{IsContent};
ghost use Rattle.ob_code_table.specs.ImageTables.{contract_of_code, table_of_image};
ghost use Rattle.ob_rest_spec.specs.AtRest.{IsStoreAtRest, first_failing_object};
ghost use Rattle.ob_rest_spec.specs.Failing.{refers_as_declared};
ghost use Rattle.ob_owners.specs.Answers.{IsRestAnswer};
ghost use Rattle.ob_owners.specs.Referring.{field_reference_of, references_by};
ghost use Rattle.ob_owners.specs.Tallies.{AreTallies, refers_to_other, fails_by_owners, fails_tallied};

use crate::error::RestError;
use crate::references::{FieldReference, reference_at};
use crate::seen::{is_asset, serves_as};
use crate::tally::{OwnerCount, Tally, tallies};
use ob_base::ObjectId;
use ob_code::{ContractCode, Image};
use ob_heap::{Content, Object};
use std::alloc::Global;

// Whether a reference is to an object of the declared contract, or of one that implements it.
fn refers_as_declared(code: &Image, objects: &[Object], reference: FieldReference) -> bool
    ensures { (holder k : ℕ) → result ≡ refers_as_declared (table_of_image code.now) (map object_of objects.now) (field_reference_of holder k reference) }
{
    match objects.get(reference.object.0 as usize) {
        Some(object) => serves_as(code, reference.contract, object.contract),
        None => false,
    }
}

// Whether what was found in a field refers to an object of another contract than is declared.
fn is_other(code: &Image, objects: &[Object], found: Option<FieldReference>) -> bool
    ensures { (holder k : ℕ) → result ≡ option_map_or (λ r. not (refers_as_declared (table_of_image code.now) (map object_of objects.now) r)) (option_map (field_reference_of holder k) found) false }
{
    match found {
        Some(reference) => !refers_as_declared(code, objects, reference),
        None => false,
    }
}

// The same for some field of an object of a contract.
fn refers_to_other_by(
    code: &Image,
    objects: &[Object],
    contract: &ContractCode,
    object: &Object,
) -> bool
    ensures { (holder : ℕ) → result ≡ list_any (λ r. not (refers_as_declared (table_of_image code.now) (map object_of objects.now) r)) (references_by (contract_of_code contract.now) holder (object_of object.now)) }
{
    for (place, field) in contract.fields.as_slice().iter().enumerate() {
        if is_other(code, objects, reference_at(contract, object, place, field)) {
            return true;
        }
    }
    false
}

// The same for some field of an object.
fn refers_to_other(code: &Image, objects: &[Object], object: &Object) -> bool
    ensures { (holder : ℕ) → result ≡ refers_to_other (table_of_image code.now) (map object_of objects.now) holder (object_of object.now) }
{
    match code.contracts.get(object.contract.0 as usize) {
        Some(contract) => refers_to_other_by(code, objects, contract, object),
        None => false,
    }
}

// Whether an object fails by its owners and its marks.
fn fails_by_owners(owners: OwnerCount, asset: bool, object: &Object) -> bool
    ensures { result ≡ fails_by_owners owners asset (object_of object.now) }
{
    let marked = object.shared || object.disowned;
    match owners {
        OwnerCount::Zero => asset && !marked,
        OwnerCount::One => marked,
        OwnerCount::Many => true,
    }
}

// Whether an object fails, by its tally and its own fields.
fn fails(code: &Image, objects: &[Object], object: &Object, tally: Tally) -> bool
    ensures { (holder : ℕ) → result ≡ fails_tallied (table_of_image code.now) (map object_of objects.now) holder (object_of object.now) tally }
{
    fails_by_owners(tally.owners, is_asset(code, object), object)
        || (!object.shared && tally.shared)
        || tally.outside
        || refers_to_other(code, objects, object)
}

// The number of the first object that fails by these tallies.
fn first_failing(code: &Image, content: &Content, tallies: &[Tally]) -> Option<usize>
    requires { AreTallies (table_of_image code.now) (content_of content.now) tallies.now }
    ensures { result ≡ first_failing_object (table_of_image code.now) (content_of content.now) }
{
    let objects = content.objects();
    for (place, object) in objects.iter().enumerate() {
        if fails(code, objects, object, tallies[place]) {
            return Some(place);
        }
    }
    None
}

/// Whether each object of a store is at rest: it has no more than one owner and isn't marked as shared or disowned besides,
/// has one if it is an asset without a mark, is marked as shared if a place shares it, is in one of the states with which a
/// field that owns it is declared, and its own fields refer to objects of the contracts with which they are declared
/// (Coblenz et al., TOPLAS 42(3), 2020, "Permissions" and "Assets"). It takes one pass over all places and one over all
/// objects.
///
/// # Errors
///
/// `NotAtRest` with the first object that fails, exactly where one does; `Memory` where memory runs out.
pub fn check_at_rest(alloc: Global, code: &Image, content: &Content) -> Result<(), RestError>
    requires { length content.now.objects ≤ most_objects }
    ensures answer { IsRestAnswer (table_of_image code.now) (content_of content.now) result }
    ensures store { OnOk result (IsContent (table_of_image code.now) (content_of content.now)
        → length content.now.handles ≤ most_handles → IsStoreAtRest (table_of_image code.now) (content_of content.now)) }
{
    let tallies = tallies(alloc, code, content)?;
    if let Some(place) = first_failing(code, content, tallies.as_slice()) {
        return Err(RestError::NotAtRest(ObjectId(place as u32)));
    }
    Ok(())
}
