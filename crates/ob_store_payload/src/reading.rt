//! What differs after a delta, from bytes.
ghost use Rattle.std.specs.Option.{option_map_or};
ghost use Rattle.ob_table.specs.Tables.{contract_at};
ghost use Rattle.ob_table.specs.declared.contract.Contract.{Contract};
ghost use Rattle.std.specs.Prelude.{◌≡◌, ℕ, [], length, map, filter, Some, is_some, option_map, All, IfOk, IsTrue};
ghost use Rattle.std.specs.Str.{IsUtf8};
ghost use Rattle.ob_format_spec.specs.Combinators.{integer as integer_format, number as number_format, read_as, times, counted};
ghost use Rattle.ob_format_spec.specs.Texts.{text as text_format};
ghost use Rattle.ob_format.specs.Answering.{Answers};
ghost use Rattle.ob_base.specs.Names.{is_label};
ghost use Rattle.ob_heap.specs.Plain.{value_of, handle_of, object_of, fields_of};
ghost use Rattle.ob_heap_spec.specs.Values.{int_value, bool_value, text_value, reference};
ghost use Rattle.ob_code_table.specs.ImageTables.{contract_of_code, field_of_code, table_of_image};
ghost use Rattle.ob_code_table.specs.Images.{is_available_in};
ghost use Rattle.ob_code.specs.Images.{mode as mode_format};
ghost use Rattle.ob_store_laws.specs.Recorded.{object_change, handle_change, changes_of};
ghost use Rattle.ob_store_payload.specs.Answering.{AnswersAs, AnswersField, AnswersOnly, IsLabelled};
ghost use Rattle.ob_store_payload.specs.Values.{HasItsValues};
ghost use Rattle.ob_store_spec.specs.Between.{values_from};
ghost use Rattle.ob_store_spec.specs.Payloads.{state_of_byte, available_count, object_head};
ghost use Rattle.ob_store_spec.specs.Payloads.{state as state_format, marks as marks_format, truth as truth_format, value as value_format};
ghost use Rattle.ob_store_spec.specs.Payloads.{object as object_format, hold as hold_format, held as held_format, handle as handle_format, payload as payload_format};
ghost use Rattle.ob_heap_spec.specs.Objects.{is_available, has_field};

use crate::error::PayloadError;
use ob_base::{ContractId, FieldId, Label, Memory, Mode, ObjectId, StateId};
use ob_code::{ContractCode, FieldCode, Image};
use ob_code_table::{contract_at, is_available_in};
use ob_format::{Halt, any_byte, integer, number, refused, text};
use ob_heap::{Delta, Fields, Handle, Object, RcStr, Sequence, Value};
use std::alloc::Global;

// A text of its own with these bytes.
fn text_of(alloc: Global, bytes: &[u8]) -> Result<RcStr, Memory>
    requires { IsUtf8 bytes.now }
    ensures { IfOk result (λ text. text ≡ bytes.now) }
{
    match str::from_utf8(bytes) {
        Ok(text) => RcStr::from_str(alloc, text),
        Err(_) => unreachable!(),
    }
}

fn read_int(bytes: &[u8]) -> Result<(Value, &[u8]), Halt>
    ensures { AnswersAs value_of result (read_as int_value integer_format.read bytes.now) }
{
    let (number, rest) = integer(bytes)?;
    Ok((Value::Int(number), rest))
}

#[tactic(auto, unfolding(ob_store_spec::specs::Payloads::truth))]
fn read_truth(bytes: &[u8]) -> Result<(Value, &[u8]), Halt>
    ensures { AnswersAs value_of result (read_as bool_value truth_format.read bytes.now) }
{
    match bytes {
        [0, rest @ ..] => Ok((Value::Bool(false), rest)),
        [1, rest @ ..] => Ok((Value::Bool(true), rest)),
        _ => Err(refused(bytes)),
    }
}

fn read_text(alloc: Global, bytes: &[u8]) -> Result<(Value, &[u8]), Halt>
    ensures { AnswersAs value_of result (read_as text_value text_format.read bytes.now) }
{
    let (found, rest) = text(alloc, bytes)?;
    match text_of(alloc, found.as_slice()) {
        Ok(text) => Ok((Value::Text(text), rest)),
        Err(_) => Err(Halt::Memory),
    }
}

fn read_reference(bytes: &[u8]) -> Result<(Value, &[u8]), Halt>
    ensures { AnswersAs value_of result (read_as reference number_format.read bytes.now) }
{
    let (id, rest) = number(bytes)?;
    Ok((Value::Object(ObjectId(id)), rest))
}

#[tactic(auto, unfolding(ob_store_spec::specs::Payloads::value))]
fn value(alloc: Global, bytes: &[u8]) -> Result<(Value, &[u8]), Halt>
    ensures { AnswersAs value_of result (value_format.read bytes.now) }
{
    match bytes {
        [0, rest @ ..] => read_int(rest),
        [1, rest @ ..] => read_truth(rest),
        [2, rest @ ..] => read_text(alloc, rest),
        [3, rest @ ..] => read_reference(rest),
        _ => Err(refused(bytes)),
    }
}

fn state_of_byte(byte: u8) -> Option<StateId>
    ensures { result ≡ state_of_byte byte }
{
    if byte == 255 {
        None
    } else {
        Some(StateId(byte))
    }
}

#[tactic(auto, unfolding(ob_store_spec::specs::Payloads::state))]
fn state(bytes: &[u8]) -> Result<(Option<StateId>, &[u8]), Halt>
    ensures { Answers result (state_format.read bytes.now) }
{
    let (byte, rest) = any_byte(bytes)?;
    Ok((state_of_byte(byte), rest))
}

#[tactic(auto, unfolding(ob_store_spec::specs::Payloads::marks))]
fn marks(bytes: &[u8]) -> Result<((bool, bool), &[u8]), Halt>
    ensures { Answers result (marks_format.read bytes.now) }
{
    match bytes {
        [0, rest @ ..] => Ok(((false, false), rest)),
        [1, rest @ ..] => Ok(((true, false), rest)),
        [2, rest @ ..] => Ok(((false, true), rest)),
        [3, rest @ ..] => Ok(((true, true), rest)),
        _ => Err(refused(bytes)),
    }
}

// Reads the value of a field at a place, where the field is available. One past the numbers of 8 bits can't be kept, so it is
// refused as want of memory.
fn field<'a>(
    alloc: Global,
    fields: &mut Fields,
    state: Option<StateId>,
    field: &FieldCode,
    place: usize,
    bytes: &'a [u8],
) -> Result<&'a [u8], Halt>
    ensures { AnswersField (is_available_in state field.now) place fields.old fields.new bytes.now result }
{
    if !is_available_in(state, field) {
        return Ok(bytes);
    }
    if place > 0xff {
        return Err(Halt::Memory);
    }
    let (value, rest) = value(alloc, bytes)?;
    match fields.put(FieldId(place as u8), value) {
        Ok(()) => Ok(rest),
        Err(_) => Err(Halt::Memory),
    }
}

// Reads the values of the fields that are available in a state.
fn fields<'a>(
    alloc: Global,
    contract: &ContractCode,
    state: Option<StateId>,
    bytes: &'a [u8],
) -> Result<(Fields, &'a [u8]), Halt>
    ensures read { AnswersAs (λ kept. values_from 0 (contract_of_code contract.now).fields state (fields_of kept)) result
        ((times value_format (length (filter (is_available state) (contract_of_code contract.now).fields))).read bytes.now) }
    ensures values { IfOk result (λ x. (k : ℕ) → is_some (fields_of x.0 k) ≡ has_field (contract_of_code contract.now) state k) }
{
    let mut kept = Fields::new(alloc);
    let mut rest = bytes;
    for (place, declared) in contract.fields.as_slice().iter().enumerate() {
        rest = field(alloc, &mut kept, state, declared, place, rest)?;
    }
    Ok((kept, rest))
}

#[tactic(auto, unfolding(ob_store_spec::specs::Payloads::object_head))]
fn head(bytes: &[u8]) -> Result<((u32, (ContractId, (Option<StateId>, (bool, bool)))), &[u8]), Halt>
    ensures { Answers result (object_head.read bytes.now) }
{
    let (id, rest) = number(bytes)?;
    let (contract, rest) = number(rest)?;
    let (state, rest) = state(rest)?;
    let (marks, rest) = marks(rest)?;
    Ok(((id, (ContractId(contract), (state, marks))), rest))
}

// Reads the values of an object of the contract of a number.
fn fields_of<'a>(
    alloc: Global,
    code: &Image,
    id: ContractId,
    state: Option<StateId>,
    bytes: &'a [u8],
) -> Result<(Fields, &'a [u8]), Halt>
    ensures read { AnswersAs (λ kept. option_map_or (λ c. values_from 0 c.fields state (fields_of kept)) (contract_at (table_of_image code.now) id) []) result
        ((times value_format (available_count (table_of_image code.now) id state)).read bytes.now) }
    ensures values { IfOk result (λ x. (c : Contract) → contract_at (table_of_image code.now) id ≡ Some c
        → (k : ℕ) → is_some (fields_of x.0 k) ≡ has_field c state k) }
{
    match contract_at(code, id) {
        Some(contract) => fields(alloc, contract, state, bytes),
        None => Ok((Fields::new(alloc), bytes)),
    }
}

// Reads an object with its number. One of no contract of the program has no values.
#[tactic(auto, unfolding(ob_store_spec::specs::Payloads::object))]
fn object<'a>(
    alloc: Global,
    code: &Image,
    bytes: &'a [u8],
) -> Result<((ObjectId, Object), &'a [u8]), Halt>
    ensures read { AnswersAs (object_change (table_of_image code.now)) result ((object_format (table_of_image code.now)).read bytes.now) }
    ensures values { IfOk result (λ x. HasItsValues (table_of_image code.now) (object_of x.0.1)) }
{
    let ((id, (contract, (state, (shared, disowned)))), rest) = head(bytes)?;
    let (fields, rest) = fields_of(alloc, code, contract, state, rest)?;
    let object = Object {
        contract,
        state,
        fields,
        shared,
        disowned,
    };
    Ok(((ObjectId(id), object), rest))
}

// Reads so many objects, each with its number.
fn so_many_objects<'a>(
    alloc: Global,
    code: &Image,
    count: u32,
    bytes: &'a [u8],
) -> Result<(Sequence<(ObjectId, Object)>, &'a [u8]), Halt>
    ensures read { AnswersAs (map (object_change (table_of_image code.now))) result ((times (object_format (table_of_image code.now)) count).read bytes.now) }
    ensures values { IfOk result (λ x. All (λ e. HasItsValues (table_of_image code.now) (object_of e.1)) x.0) }
{
    let mut objects = Sequence::new(alloc);
    let mut rest = bytes;
    'objects: for _ in 0..count {
        let (next, after) = object(alloc, code, rest)?;
        match objects.push(next) {
            Ok(()) => {}
            Err(_) => return Err(Halt::Memory),
        }
        rest = after;
    }
    Ok((objects, rest))
}

// Reads a count of objects and the objects, each with its number.
fn objects<'a>(
    alloc: Global,
    code: &Image,
    bytes: &'a [u8],
) -> Result<(Sequence<(ObjectId, Object)>, &'a [u8]), Halt>
    ensures read { AnswersAs (map (object_change (table_of_image code.now))) result ((counted (object_format (table_of_image code.now))).read bytes.now) }
    ensures values { IfOk result (λ x. All (λ e. HasItsValues (table_of_image code.now) (object_of e.1)) x.0) }
{
    let (count, rest) = number(bytes)?;
    so_many_objects(alloc, code, count, rest)
}

#[tactic(auto, unfolding(ob_store_spec::specs::Payloads::hold))]
fn hold(bytes: &[u8]) -> Result<(Handle, &[u8]), Halt>
    ensures { AnswersAs handle_of result (hold_format.read bytes.now) }
{
    let (object, rest) = number(bytes)?;
    let (mode, rest) = mode(rest)?;
    let handle = Handle {
        object: ObjectId(object),
        mode,
    };
    Ok((handle, rest))
}

#[tactic(auto, unfolding(ob_store_spec::specs::Payloads::held))]
fn held(bytes: &[u8]) -> Result<(Option<Handle>, &[u8]), Halt>
    ensures { AnswersAs (option_map handle_of) result (held_format.read bytes.now) }
{
    match bytes {
        [0, rest @ ..] => Ok((None, rest)),
        [1, rest @ ..] => {
            let (handle, rest) = hold(rest)?;
            Ok((Some(handle), rest))
        }
        _ => Err(refused(bytes)),
    }
}

#[tactic(auto, unfolding(ob_code::specs::Images::mode))]
fn mode(bytes: &[u8]) -> Result<(Mode, &[u8]), Halt>
    ensures { Answers result (mode_format.read bytes.now) }
{
    match bytes {
        [0, rest @ ..] => Ok((Mode::Owned, rest)),
        [1, rest @ ..] => Ok((Mode::Shared, rest)),
        [2, rest @ ..] => Ok((Mode::Unowned, rest)),
        _ => Err(refused(bytes)),
    }
}

// A label, or `Bad` where no text stands there, or one that is none.
fn label(alloc: Global, bytes: &[u8]) -> Result<(Label, &[u8]), PayloadError>
    ensures { AnswersOnly (λ l. l) (λ t. IsTrue (is_label t)) result (text_format.read bytes.now) }
{
    let (found, rest) = text(alloc, bytes)?;
    let label = Label::of(alloc, found.as_slice())?;
    Ok((label, rest))
}

// A handle with its name, or that there is none of the name; or `Bad` where none stands there whose name is two labels.
#[tactic(auto, unfolding(ob_store_spec::specs::Payloads::handle))]
fn handle(
    alloc: Global,
    bytes: &[u8],
) -> Result<(((Label, Label), Option<Handle>), &[u8]), PayloadError>
    ensures { AnswersOnly handle_change IsLabelled result (handle_format.read bytes.now) }
{
    let (who, rest) = label(alloc, bytes)?;
    let (name, rest) = label(alloc, rest)?;
    let (held, rest) = held(rest)?;
    Ok((((who, name), held), rest))
}

// Reads so many handles, each with its name.
fn so_many_handles(
    alloc: Global,
    count: u32,
    bytes: &[u8],
) -> Result<(Sequence<((Label, Label), Option<Handle>)>, &[u8]), PayloadError>
    ensures { AnswersOnly (map handle_change) (All IsLabelled) result ((times handle_format count).read bytes.now) }
{
    let mut handles = Sequence::new(alloc);
    let mut rest = bytes;
    'handles: for _ in 0..count {
        let (next, after) = handle(alloc, rest)?;
        handles.push(next)?;
        rest = after;
    }
    Ok((handles, rest))
}

// Reads a count of handles and the handles, each with its name.
fn handles(
    alloc: Global,
    bytes: &[u8],
) -> Result<(Sequence<((Label, Label), Option<Handle>)>, &[u8]), PayloadError>
    ensures { AnswersOnly (map handle_change) (All IsLabelled) result ((counted handle_format).read bytes.now) }
{
    let (count, rest) = number(bytes)?;
    so_many_handles(alloc, count, rest)
}

/// Reads the delta that a payload says at the front of bytes, and answers the bytes after it too. Each of its objects has a value in
/// each available field, and in no other. `Bad` where no payload stands there whose handles are named by labels.
#[tactic(auto, unfolding(ob_store_spec::specs::Payloads::payload))]
pub fn delta<'a>(
    alloc: Global,
    code: &Image,
    bytes: &'a [u8],
) -> Result<(Delta, &'a [u8]), PayloadError>
    ensures read { AnswersOnly (changes_of (table_of_image code.now)) (λ c. All IsLabelled c.handles) result ((payload_format (table_of_image code.now)).read bytes.now) }
    ensures values { IfOk result (λ x. All (λ e. HasItsValues (table_of_image code.now) (object_of e.1)) x.0.objects) }
{
    let (objects, rest) = objects(alloc, code, bytes)?;
    let (handles, rest) = handles(alloc, rest)?;
    Ok((Delta { objects, handles }, rest))
}
