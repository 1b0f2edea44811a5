//! An object is shown.
ghost use Rattle.std.specs.Prelude.{◌≡◌, ◌++◌, ℕ, List, map, option_map, option_to_list, IfOk, OnOk};
ghost use Rattle.ob_heap.specs.Contents.{content_of};
ghost use Rattle.ob_heap.specs.Plain.{object_of, value_of};
ghost use Rattle.ob_heap_spec.specs.Values.{Value as PlainValue};
ghost use Rattle.ob_invocation_spec.specs.Handles.{handle_name};
ghost use Rattle.ob_invocation_spec.specs.Invocation.{invoke_see};
ghost use Rattle.ob_invocation_spec.specs.Showing.{shown_fields, shown_object, shown_at};
ghost use Rattle.ob_code_table.specs.ImageTables.{contract_of_code, table_of_image};
ghost use Rattle.ob_rest_spec.specs.References.{available_value};
ghost use Rattle.ob_wire.specs.Meanings.{value_shown, field_shown, object_shown};
ghost use Rattle.ob_exec_handles.specs.Coming.{ComesTo, IsInLimits};

use crate::answered::{Answered, refused, unchanged};
use crate::states::{state_name, text_of};
use ob_base::{Duplicate, Items, Label, Memory, ObjectId};
use ob_code::{ContractCode, FieldCode, Image};
use ob_code_table::contract_at;
use ob_heap::{Content, Object, Value};
use ob_owners::available;
use ob_wire::{Answer, Outcome, Refusal, Shown, ShownField, ShownValue};
use std::alloc::Global;

// A value as it is shown.
fn shown_value(alloc: Global, value: &Value) -> Result<ShownValue, Memory>
    ensures { IfOk result (λ shown. shown ≡ value_shown (value_of value.now)) }
{
    match value {
        Value::Int(number) => Ok(ShownValue::Int(*number)),
        Value::Bool(truth) => Ok(ShownValue::Bool(*truth)),
        Value::Text(text) => Ok(ShownValue::Text(text.copy(alloc)?)),
        Value::Object(object) => Ok(ShownValue::Object(*object)),
    }
}

// A field as it is shown.
fn shown_field(alloc: Global, field: &FieldCode, value: &Value) -> Result<ShownField, Memory>
    ensures { IfOk result (λ shown. shown ≡ field_shown (field.now.name, value_of value.now)) }
{
    let name = text_of(alloc, &field.name)?;
    let value = shown_value(alloc, value)?;
    Ok(ShownField { name, value })
}

// Adds a field that is available, as it is shown.
fn add_field(
    fields: &mut Items<ShownField>,
    alloc: Global,
    contract: &ContractCode,
    object: &Object,
    place: usize,
    field: &FieldCode,
) -> Result<(), Memory>
    ensures { OnOk result (fields.new ≡ fields.old ++ map field_shown (option_to_list (option_map (λ (value : PlainValue). (field.now.name, value)) (available_value (contract_of_code contract.now) (object_of object.now) place)))) }
{
    match available(contract, object, place) {
        Some(entry) => {
            fields.push(shown_field(alloc, field, &entry.1)?)?;
            Ok(())
        }
        None => Ok(()),
    }
}

// The available fields of an object, as they are shown, by their numbers.
fn shown_fields(
    alloc: Global,
    contract: &ContractCode,
    object: &Object,
) -> Result<Items<ShownField>, Memory>
    ensures { IfOk result (λ fields. fields ≡ map field_shown (shown_fields (contract_of_code contract.now) (object_of object.now))) }
{
    let mut fields = Items::new(alloc);
    for (place, field) in contract.fields.as_slice().iter().enumerate() {
        add_field(&mut fields, alloc, contract, object, place, field)?;
    }
    Ok(fields)
}

// An object of a contract, as it is shown.
fn shown_object(
    alloc: Global,
    contract: &ContractCode,
    id: ObjectId,
    object: &Object,
) -> Result<Shown, Memory>
    ensures { IfOk result (λ shown. shown ≡ object_shown (shown_object (contract_of_code contract.now) id.0 (object_of object.now))) }
{
    let name = text_of(alloc, &contract.name)?;
    let state = state_name(alloc, contract, object.state)?;
    let fields = shown_fields(alloc, contract, object)?;
    Ok(Shown {
        object: id,
        contract: name,
        state,
        shared: object.shared,
        disowned: object.disowned,
        fields,
    })
}

// The object of a number, as it is shown.
fn shown_at(
    alloc: Global,
    code: &Image,
    base: &Content,
    id: ObjectId,
) -> Result<Option<Shown>, Memory>
    ensures { IfOk result (λ shown. shown ≡ option_map object_shown (shown_at (table_of_image code.now) (map object_of base.now.objects) id.0)) }
{
    let Some(object) = base.object(id) else {
        return Ok(None);
    };
    match contract_at(code, object.contract) {
        Some(contract) => Ok(Some(shown_object(alloc, contract, id, object)?)),
        None => Ok(None),
    }
}

/// The object of the client's handle of this name is shown.
pub fn see(
    alloc: Global,
    code: &Image,
    base: &Content,
    who: &Label,
    on: &Label,
) -> Result<Answered, Memory>
    requires { IsInLimits (invoke_see (table_of_image code.now) (content_of base.now) (handle_name who.now on.now)) }
    ensures { IfOk result (λ a. ComesTo (invoke_see (table_of_image code.now) (content_of base.now) (handle_name who.now on.now)) base.now a.answer a.delta) }
{
    let Some(handle) = base.handle(who, on) else {
        return Ok(refused(alloc, Refusal::NoHandle));
    };
    match shown_at(alloc, code, base, handle.object)? {
        Some(shown) => Ok(unchanged(alloc, Answer::Ok(Outcome::See(shown)))),
        None => unreachable!(),
    }
}
