//! The references that stand in the available fields of an object.
ghost use Rattle.std.specs.Prelude.{◌≡◌, ℕ, option_map};
ghost use Rattle.std.specs.Option.{option_and_then};
ghost use Rattle.ob_heap.specs.Plain.{object_of, value_of};
ghost use Rattle.ob_code_table.specs.ImageTables.{contract_of_code, type_of_code};
ghost use Rattle.ob_rest_spec.specs.References.{reference_of, available_value};
ghost use Rattle.ob_owners.specs.Referring.{object_referred, number_of_object, field_reference_of};

use crate::values::available;
use ob_base::{ContractId, ObjectId};
use ob_code::{ContractCode, FieldCode, PermCode, TypeCode};
use ob_heap::{Object, Value};

/// A reference that stands in a field.
#[derive(Clone, Copy)]
pub struct FieldReference {
    /// The contract or interface with which the field is declared.
    pub contract: ContractId,
    /// The permission with which the field is declared.
    pub perm: PermCode,
    /// The object to which it refers.
    pub object: ObjectId,
}

// The object to which a value refers.
fn object_referred(value: &Value) -> Option<ObjectId>
    ensures { option_map number_of_object result ≡ object_referred (value_of value.now) }
{
    match value {
        Value::Object(id) => Some(*id),
        Value::Int(_) | Value::Bool(_) | Value::Text(_) => None,
    }
}

// The object to which the value of the field at a place refers.
fn object_held(contract: &ContractCode, object: &Object, place: usize) -> Option<ObjectId>
    ensures { option_map number_of_object result ≡ option_and_then object_referred (available_value (contract_of_code contract.now) (object_of object.now) place) }
{
    match available(contract, object, place) {
        Some(entry) => object_referred(&entry.1),
        None => None,
    }
}

/// The reference in the field at a place among a contract's fields, if its value is one.
pub fn reference_at(
    contract: &ContractCode,
    object: &Object,
    place: usize,
    field: &FieldCode,
) -> Option<FieldReference>
    ensures { (holder : ℕ) → option_map (field_reference_of holder place) result ≡ reference_of holder place (type_of_code field.now.of) (available_value (contract_of_code contract.now) (object_of object.now) place) }
{
    let TypeCode::Reference(declared, perm) = field.of else {
        return None;
    };
    let object = object_held(contract, object, place)?;
    Some(FieldReference {
        contract: declared,
        perm,
        object,
    })
}
