//! The replies that lines tell.
ghost use Rattle.std.specs.Prelude.{◌≡◌, ◌≤◌, ◌↔◌, option_map, IsTrue, IfOk, IsErrOf};
ghost use Rattle.serde_json.specs.Data.{depth};
ghost use Rattle.serde_json.specs.Read.{max_depth};
ghost use Rattle.serde_json.specs.View.{view, number_view, members_view};
ghost use Rattle.ob_wire.specs.Requests.{IsNoJson};
ghost use Rattle.ob_wire.specs.Reading.{Answers};
ghost use Rattle.ob_wire.specs.Replies.{reply_json};
ghost use Rattle.ob_client.specs.Told.{has_no_request, is_id_of, is_answer, Tells, TellsNothing};
ghost use Rattle.ob_client.specs.ReplyReading.{text_of, text_in, label_in, truth_in, int_of, size_in, number_in, object_in, text_if_in, value_in, field_in, fields_of, fields_in, shown_in, handle_in, place_in, told_in, outcome_in, state_in, room_in, cause_in, refusal_numbered, refused_in, answer_in, id_in, reply_in, IsToldBy, ReadsReply};

use ob_base::{Items, Label, Memory, ObjectId};
use ob_heap::RcStr;
use ob_wire::{
    Answer, Cause, Outcome, Refusal, Reply, Shown, ShownField, ShownValue, WireError, reply_bytes,
};
use serde_json::{Map, Number, Value};
use std::alloc::Global;

fn text_of(alloc: Global, text: &str) -> Result<RcStr, WireError>
    ensures { Answers result (text_of text.now) }
{
    Ok(RcStr::from_str(alloc, text)?)
}

fn text_in(alloc: Global, found: Option<&Value>) -> Result<RcStr, WireError>
    ensures { Answers result (text_in (option_map (λ v. view v.now) found.entry)) }
{
    match found.and_then(Value::as_str) {
        Some(text) => text_of(alloc, text),
        None => Err(WireError::Shape),
    }
}

fn label_in(alloc: Global, found: Option<&Value>) -> Result<Label, WireError>
    ensures { Answers result (label_in (option_map (λ v. view v.now) found.entry)) }
{
    match found.and_then(Value::as_str) {
        Some(text) => Ok(Label::of(alloc, text.as_bytes())?),
        None => Err(WireError::Shape),
    }
}

fn truth_in(found: Option<&Value>) -> Result<bool, WireError>
    ensures { Answers result (truth_in (option_map (λ v. view v.now) found.entry)) }
{
    found.and_then(Value::as_bool).ok_or(WireError::Shape)
}

fn int_of(number: &Number) -> Result<i64, WireError>
    ensures { Answers result (int_of (number_view number.now)) }
{
    number.as_i64().ok_or(WireError::Shape)
}

fn size_in(found: Option<&Value>) -> Result<u64, WireError>
    ensures { Answers result (size_in (option_map (λ v. view v.now) found.entry)) }
{
    found.and_then(Value::as_u64).ok_or(WireError::Shape)
}

fn number_in(found: Option<&Value>) -> Result<u32, WireError>
    ensures { Answers result (number_in (option_map (λ v. view v.now) found.entry)) }
{
    let number = size_in(found)?;
    if number > u32::MAX as u64 {
        return Err(WireError::Shape);
    }
    Ok(number as u32)
}

fn object_in(found: Option<&Value>) -> Result<ObjectId, WireError>
    ensures { Answers result (object_in (option_map (λ v. view v.now) found.entry)) }
{
    Ok(ObjectId(number_in(found)?))
}

fn text_if_in(alloc: Global, found: Option<&Value>) -> Result<Option<RcStr>, WireError>
    ensures { Answers result (text_if_in (option_map (λ v. view v.now) found.entry)) }
{
    match found {
        None | Some(Value::Null) => Ok(None),
        Some(_) => Ok(Some(text_in(alloc, found)?)),
    }
}

fn value_in(alloc: Global, value: &Value) -> Result<ShownValue, WireError>
    ensures { Answers result (value_in (view value.now)) }
{
    match value {
        Value::Bool(truth) => Ok(ShownValue::Bool(*truth)),
        Value::Number(number) => Ok(ShownValue::Int(int_of(number)?)),
        Value::String(text) => Ok(ShownValue::Text(text_of(alloc, text.as_str())?)),
        Value::Object(_) => Ok(ShownValue::Object(object_in(value.get("object"))?)),
        Value::Null | Value::Array(_) => Err(WireError::Shape),
    }
}

fn field_in(alloc: Global, name: &str, value: &Value) -> Result<ShownField, WireError>
    ensures { Answers result (field_in name.now (view value.now)) }
{
    let name = text_of(alloc, name)?;
    let value = value_in(alloc, value)?;
    Ok(ShownField { name, value })
}

#[tactic(auto, using(crate::proofs::ReplyLines::none_before, crate::proofs::ReplyLines::one_more_field, crate::proofs::ReplyLines::no_field, crate::proofs::ReplyLines::all_fields))]
fn fields_of(alloc: Global, members: &Map<String, Value>) -> Result<Items<ShownField>, WireError>
    ensures { Answers result (fields_of (members_view members.now.entries)) }
{
    let mut fields = Items::new(alloc);
    for (name, value) in members {
        fields.push(field_in(alloc, name.as_str(), value)?)?;
    }
    Ok(fields)
}

fn fields_in(alloc: Global, found: Option<&Value>) -> Result<Items<ShownField>, WireError>
    ensures { Answers result (fields_in (option_map (λ v. view v.now) found.entry)) }
{
    match found.and_then(Value::as_object) {
        Some(members) => fields_of(alloc, members),
        None => Err(WireError::Shape),
    }
}

fn shown_in(alloc: Global, value: &Value) -> Result<Shown, WireError>
    ensures { Answers result (shown_in (view value.now)) }
{
    let object = object_in(value.get("object"))?;
    let contract = text_in(alloc, value.get("contract"))?;
    let state = text_if_in(alloc, value.get("state"))?;
    let shared = truth_in(value.get("shared"))?;
    let disowned = truth_in(value.get("disowned"))?;
    let fields = fields_in(alloc, value.get("fields"))?;
    Ok(Shown {
        object,
        contract,
        state,
        shared,
        disowned,
        fields,
    })
}

fn handle_in(alloc: Global, pair: &Value) -> Result<Outcome, WireError>
    ensures { Answers result (handle_in (view pair.now)) }
{
    let who = label_in(alloc, pair.get(0usize))?;
    let name = label_in(alloc, pair.get(1usize))?;
    Ok(Outcome::Handle(who, name))
}

fn place_in(alloc: Global, pair: &Value) -> Result<Outcome, WireError>
    ensures { Answers result (place_in (view pair.now)) }
{
    let object = object_in(pair.get(0usize))?;
    let name = text_in(alloc, pair.get(1usize))?;
    Ok(Outcome::Field(object, name))
}

// What an object tells: an object as it is shown, an owning place, or an object by its number.
fn told_in(alloc: Global, value: &Value) -> Result<Outcome, WireError>
    ensures { Answers result (told_in (view value.now)) }
{
    if value.get("contract").is_some() {
        return Ok(Outcome::See(shown_in(alloc, value)?));
    }
    match (value.get("handle"), value.get("field")) {
        (Some(pair), _) => handle_in(alloc, pair),
        (None, Some(pair)) => place_in(alloc, pair),
        (None, None) => Ok(Outcome::Object(object_in(value.get("object"))?)),
    }
}

fn outcome_in(alloc: Global, value: &Value) -> Result<Outcome, WireError>
    ensures { Answers result (outcome_in (view value.now)) }
{
    match value {
        Value::Null => Ok(Outcome::Nothing),
        Value::Bool(truth) => Ok(Outcome::Bool(*truth)),
        Value::Number(number) => Ok(Outcome::Int(int_of(number)?)),
        Value::String(text) => Ok(Outcome::Text(text_of(alloc, text.as_str())?)),
        Value::Object(_) => told_in(alloc, value),
        Value::Array(_) => Err(WireError::Shape),
    }
}

fn state_in(alloc: Global, value: &Value) -> Result<Cause, WireError>
    ensures { Answers result (state_in (view value.now)) }
{
    let object = object_in(value.get("object"))?;
    let state = text_if_in(alloc, value.get("state"))?;
    Ok(Cause::State(object, state))
}

fn room_in(value: &Value) -> Result<Cause, WireError>
    ensures { Answers result (room_in (view value.now)) }
{
    let need = size_in(value.get("need"))?;
    let size = size_in(value.get("size"))?;
    Ok(Cause::Room(need, size))
}

fn cause_in(alloc: Global, value: &Value) -> Result<Cause, WireError>
    ensures { Answers result (cause_in (view value.now)) }
{
    match value.get("abort").and_then(Value::as_str) {
        Some("revert") => Ok(Cause::Revert(text_in(alloc, value.get("text"))?)),
        Some("state") => state_in(alloc, value),
        Some("reentry") => Ok(Cause::Reentry(object_in(value.get("object"))?)),
        Some("overflow") => Ok(Cause::Overflow(number_in(value.get("line"))?)),
        Some("fuel") => Ok(Cause::Fuel),
        Some("full") => Ok(Cause::Full),
        Some("room") => room_in(value),
        _ => Err(WireError::Shape),
    }
}

fn refusal_numbered(number: u64) -> Option<Refusal>
    ensures { result ≡ refusal_numbered number }
{
    match number {
        1 => Some(Refusal::LongLine),
        2 => Some(Refusal::Json),
        3 => Some(Refusal::Shape),
        4 => Some(Refusal::BatchSize),
        5 => Some(Refusal::NoHandle),
        6 => Some(Refusal::NoContract),
        7 => Some(Refusal::NotMain),
        8 => Some(Refusal::NoTransaction),
        9 => Some(Refusal::ArgCount),
        10 => Some(Refusal::ArgKind),
        11 => Some(Refusal::Permission),
        12 => Some(Refusal::Repeated),
        13 => Some(Refusal::IntoMissing),
        14 => Some(Refusal::IntoNeedless),
        15 => Some(Refusal::IntoTaken),
        16 => Some(Refusal::HandlesFull),
        _ => None,
    }
}

fn refused_in(found: Option<&Value>) -> Result<Answer, WireError>
    ensures { Answers result (refused_in (option_map (λ v. view v.now) found.entry)) }
{
    match refusal_numbered(size_in(found)?) {
        Some(refusal) => Ok(Answer::Refused(refusal)),
        None => Err(WireError::Shape),
    }
}

fn answer_in(alloc: Global, value: &Value) -> Result<Answer, WireError>
    ensures { Answers result (answer_in (view value.now)) }
{
    let refused = value.get("refused");
    match (value.get("ok"), refused) {
        (Some(given), _) => Ok(Answer::Ok(outcome_in(alloc, given)?)),
        (None, Some(_)) => refused_in(refused),
        (None, None) => Ok(Answer::Abort(cause_in(alloc, value)?)),
    }
}

fn id_in(found: Option<&Value>) -> Result<Option<i64>, WireError>
    ensures { Answers result (id_in (option_map (λ v. view v.now) found.entry)) }
{
    match found {
        Some(Value::Null) => Ok(None),
        Some(Value::Number(number)) => match number.as_i64() {
            Some(id) => Ok(Some(id)),
            None => Err(WireError::Shape),
        },
        _ => Err(WireError::Shape),
    }
}

// Whether an answer is to a line that has no request.
fn has_no_request(answer: &Answer) -> bool
    ensures { result ≡ has_no_request answer.now }
{
    match answer {
        Answer::Refused(refusal) => matches!(
            refusal,
            Refusal::LongLine | Refusal::Json | Refusal::Shape | Refusal::BatchSize
        ),
        Answer::Ok(_) | Answer::Abort(_) => false,
    }
}

fn is_id_of(answer: &Answer, id: Option<i64>) -> bool
    ensures { result ≡ is_id_of answer.now id }
{
    match id {
        Some(id) => !has_no_request(answer) && id >= 0,
        None => has_no_request(answer),
    }
}

fn reply_in(alloc: Global, value: &Value) -> Result<Reply, WireError>
    ensures { Answers result (reply_in (view value.now)) }
{
    let answer = answer_in(alloc, value)?;
    let id = id_in(value.get("id"))?;
    if !is_id_of(&answer, id) {
        return Err(WireError::Shape);
    }
    Ok(Reply { id, answer })
}

// Whether a value is that of a reply: it has the same line.
fn is_of(alloc: Global, value: &Value, reply: &Reply) -> Result<bool, Memory>
    requires shallow { depth (view value.now) ≤ max_depth }
    requires numbered { IsTrue (is_id_of reply.now.answer reply.now.id) }
    requires formed { IsTrue (is_answer reply.now.answer) }
    ensures { IfOk result (λ same. IsTrue same ↔ (view value.now ≡ reply_json reply.now)) }
{
    let mut text = value.to_string(alloc)?;
    text.push('\n')?;
    let line = reply_bytes(alloc, reply)?;
    Ok(text.as_bytes() == line.as_slice())
}

#[tactic(auto, using(crate::proofs::ReplyLines::none_read, crate::proofs::ReplyLines::other_read, crate::proofs::ReplyLines::told_read, crate::proofs::ReplyLines::formed_read))]
fn told(alloc: Global, value: &Value) -> Result<Reply, WireError>
    requires { depth (view value.now) ≤ max_depth }
    ensures { IsToldBy result (view value.now) }
{
    let reply = reply_in(alloc, value)?;
    if !is_of(alloc, value, &reply)? {
        return Err(WireError::Shape);
    }
    Ok(reply)
}

fn find_reply(alloc: Global, line: &[u8]) -> Result<Reply, WireError>
    ensures { ReadsReply result line.now }
{
    match Value::from_slice(alloc, line) {
        Ok(value) => told(alloc, &value),
        Err(error) => {
            if error.is_memory() {
                return Err(WireError::Memory);
            }
            Err(WireError::Json)
        }
    }
}

/// The reply that a line tells. A line may have blanks, and its keys may stand in any order: a JSON object has none, so the fields of an
/// object that is shown are given in the order of their names.
pub fn read_reply(alloc: Global, line: &[u8]) -> Result<Reply, WireError>
    ensures told { IfOk result (λ reply. Tells line.now reply) }
    ensures no_json { IsErrOf result WireError.Json → IsNoJson line.now }
    ensures no_reply { IsErrOf result WireError.Shape → TellsNothing line.now }
    ensures no_batch_size { ¬ (IsErrOf result WireError.BatchSize) }
{
    find_reply(alloc, line)
}
