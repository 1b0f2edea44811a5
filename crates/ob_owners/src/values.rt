//! The values of the fields that are available in an object's state.
ghost use Rattle.std.specs.Prelude.{◌≡◌, None, option_map, option_copied, IfSome, if◌then◌else◌};
ghost use Rattle.ob_base.specs.declared.id.FieldId.{FieldId as FieldNumber};
ghost use Rattle.ob_heap.specs.declared.value.Value.{Value as FieldValue};
ghost use Rattle.ob_heap.specs.Plain.{object_of, value_of};
ghost use Rattle.ob_code_table.specs.ImageTables.{contract_of_code};
ghost use Rattle.ob_code_table.specs.Images.{is_available_in};
ghost use Rattle.ob_rest_spec.specs.References.{available_value};
ghost use Rattle.ob_owners.specs.Entries.{entry_at};

use ob_base::FieldId;
use ob_code::{ContractCode, FieldCode};
use ob_code_table::is_available_in;
use ob_heap::{Object, Value};

// The value of the field at a place, with the field's number.
fn find(items: &[(FieldId, Value)], place: usize) -> Option<&(FieldId, Value)>
    ensures { option_copied result ≡ entry_at place items.now }
{
    for item in items {
        if item.0.0 as usize == place {
            return Some(item);
        }
    }
    None
}

// The same where the field is available in the object's state.
fn available_in<'a>(
    object: &'a Object,
    place: usize,
    field: &FieldCode,
) -> Option<&'a (FieldId, Value)>
    ensures { option_copied result ≡ (if is_available_in object.now.state field.now then entry_at place object.now.fields else None) }
{
    if is_available_in(object.state, field) {
        return find(object.fields.as_slice(), place);
    }
    None
}

/// The value of the field at a place among a contract's fields, with the field's number, where it is available in the
/// object's state.
pub fn available<'a>(
    contract: &ContractCode,
    object: &'a Object,
    place: usize,
) -> Option<&'a (FieldId, Value)>
    ensures value { option_map (λ (e : FieldNumber × FieldValue). value_of e.1) (option_copied result) ≡ available_value (contract_of_code contract.now) (object_of object.now) place }
    ensures number { IfSome (option_copied result) (λ (e : FieldNumber × FieldValue). e.0.0 ≡ place) }
{
    match contract.fields.get(place) {
        Some(field) => available_in(object, place, field),
        None => None,
    }
}
