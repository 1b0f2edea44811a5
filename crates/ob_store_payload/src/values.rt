//! Objects as bytes.
ghost use Rattle.std.specs.Prelude.{◌≡◌, ◌++◌, OnOk};
ghost use Rattle.std.specs.Option.{option_to_list};
ghost use Rattle.ob_base.specs.Bytes.{u8_bytes};
ghost use Rattle.ob_format_spec.specs.Combinators.{each_bytes};
ghost use Rattle.ob_format_spec.specs.Texts.{text as text_format};
ghost use Rattle.ob_heap.specs.Plain.{object_of, value_of};
ghost use Rattle.ob_code_table.specs.ImageTables.{contract_of_code, table_of_image};
ghost use Rattle.ob_rest_spec.specs.References.{available_value};
ghost use Rattle.ob_store_spec.specs.Between.{values_from, stored_object};
ghost use Rattle.ob_store_spec.specs.Payloads.{byte_of_state, number_of_marks, number_of_truth, marks, truth, object_head, value as value_format, object as object_format};
ghost use Rattle.ob_table.specs.Tables.{contract_at};

use ob_base::{Memory, ObjectId, StateId, put_i64, put_u8, put_u32};
use ob_code::{ContractCode, Image};
use ob_code_table::contract_at;
use ob_format::put_text_bytes;
use ob_heap::{Object, RcStr, Value};
use ob_owners::available;

// Appends the byte of a text's kind and the text. `Memory` also for a text whose length 32 bits don't say: no value of the language is one.
fn put_text(out: &mut Vec<u8>, text: &RcStr) -> Result<(), Memory>
    ensures { OnOk result (out.new.items ≡ out.old.items ++ (u8_bytes 2 ++ text_format.bytes text.now)) }
{
    let bytes = text.as_str().as_bytes();
    if bytes.len() > 0xffff_ffff {
        return Err(Memory);
    }
    put_u8(out, 2)?;
    put_text_bytes(out, bytes)
}

fn number_of_truth(truth: bool) -> u8
    ensures { result ≡ number_of_truth truth }
{
    if truth { 1 } else { 0 }
}

#[tactic(auto, using(crate::proofs::Spellings::truth_bytes))]
fn put_truth(out: &mut Vec<u8>, given: bool) -> Result<(), Memory>
    ensures { OnOk result (out.new.items ≡ out.old.items ++ truth.bytes given) }
{
    put_u8(out, number_of_truth(given))
}

#[tactic(auto, unfolding(ob_store_spec::specs::Payloads::value))]
fn put_value(out: &mut Vec<u8>, value: &Value) -> Result<(), Memory>
    ensures { OnOk result (out.new.items ≡ out.old.items ++ value_format.bytes (value_of value.now)) }
{
    match value {
        Value::Int(number) => {
            put_u8(out, 0)?;
            put_i64(out, *number)
        }
        Value::Bool(truth) => {
            put_u8(out, 1)?;
            put_truth(out, *truth)
        }
        Value::Text(text) => put_text(out, text),
        Value::Object(id) => {
            put_u8(out, 3)?;
            put_u32(out, id.0)
        }
    }
}

fn byte_of_state(state: Option<StateId>) -> u8
    ensures { result ≡ byte_of_state state }
{
    match state {
        Some(state) => state.0,
        None => 255,
    }
}

fn number_of_marks(shared: bool, disowned: bool) -> u8
    ensures { result ≡ number_of_marks (shared, disowned) }
{
    match (shared, disowned) {
        (false, false) => 0,
        (true, false) => 1,
        (false, true) => 2,
        (true, true) => 3,
    }
}

#[tactic(auto, using(crate::proofs::Spellings::marks_bytes))]
fn put_marks(out: &mut Vec<u8>, shared: bool, disowned: bool) -> Result<(), Memory>
    ensures { OnOk result (out.new.items ≡ out.old.items ++ marks.bytes (shared, disowned)) }
{
    put_u8(out, number_of_marks(shared, disowned))
}

#[tactic(auto, unfolding(ob_store_spec::specs::Payloads::object_head, ob_store_spec::specs::Payloads::state))]
fn put_head(out: &mut Vec<u8>, id: ObjectId, object: &Object) -> Result<(), Memory>
    ensures { OnOk result (out.new.items ≡ out.old.items
        ++ object_head.bytes (id.0, (object.now.contract, (object.now.state, (object.now.shared, object.now.disowned))))) }
{
    put_u32(out, id.0)?;
    put_u32(out, object.contract.0)?;
    put_u8(out, byte_of_state(object.state))?;
    put_marks(out, object.shared, object.disowned)
}

// Appends the value of the field at a place, where it is available.
fn put_available(
    out: &mut Vec<u8>,
    contract: &ContractCode,
    object: &Object,
    place: usize,
) -> Result<(), Memory>
    ensures { OnOk result (out.new.items ≡ out.old.items
        ++ each_bytes value_format.bytes (option_to_list (available_value (contract_of_code contract.now) (object_of object.now) place))) }
{
    match available(contract, object, place) {
        Some(entry) => put_value(out, &entry.1),
        None => Ok(()),
    }
}

fn put_values(out: &mut Vec<u8>, contract: &ContractCode, object: &Object) -> Result<(), Memory>
    ensures { OnOk result (out.new.items ≡ out.old.items
        ++ each_bytes value_format.bytes (values_from 0 (contract_of_code contract.now).fields object.now.state (object_of object.now).fields)) }
{
    for place in 0..contract.fields.len() {
        put_available(out, contract, object, place)?;
    }
    Ok(())
}

/// Appends an object with its number, or some bytes of it where memory runs out.
#[tactic(auto, unfolding(ob_store_spec::specs::Payloads::object))]
pub fn put_object(
    out: &mut Vec<u8>,
    code: &Image,
    id: ObjectId,
    object: &Object,
) -> Result<(), Memory>
    ensures { OnOk result (out.new.items ≡ out.old.items
        ++ (object_format (table_of_image code.now)).bytes (stored_object (table_of_image code.now) id.0 (object_of object.now))) }
{
    put_head(out, id, object)?;
    match contract_at(code, object.contract) {
        Some(contract) => put_values(out, contract, object),
        None => Ok(()),
    }
}
