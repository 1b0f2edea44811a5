//! The line of a reply.
ghost use Rattle.std.specs.Prelude.{◌≡◌, codes, false, string_bytes, IfOk};
ghost use Rattle.serde_json.specs.Data.{string, member, no_members};
ghost use Rattle.serde_json.specs.View.{view, members_view};
ghost use Rattle.serde_json.specs.Written.{has_float, compact_text};
ghost use Rattle.ob_wire.specs.Replies.{id_json, text_json, number_json, object_json, value_json, with_fields, shown_json, outcome_json, abort_with, abort_json, reply_json, reply_line};
ghost use Rattle.ob_wire.specs.declared.reply.Outcome.TheVariants.{Handle, Field};
ghost use Rattle.ob_wire.specs.declared.reply.Cause.TheVariants as cause;

use crate::{Answer, Cause, Outcome, Reply, Shown, ShownField, ShownValue};
use ob_base::{Label, Memory, ObjectId};
use ob_heap::RcStr;
use serde_json::{Map, Value, json, put};
use std::alloc::{AllocError, Global};

fn id_value(id: Option<i64>) -> Value
    ensures { view result ≡ id_json id }
{
    match id {
        Some(id) => Value::from(id),
        None => Value::Null,
    }
}

fn object_value(alloc: Global, object: ObjectId) -> Result<Value, AllocError>
    ensures { IfOk result (λ value. view value ≡ object_json object) }
{
    json!(in alloc; {"object": object.0})
}

fn text_value(alloc: Global, text: &RcStr) -> Result<Value, AllocError>
    ensures { IfOk result (λ value. view value ≡ string text.now) }
{
    json!(in alloc; text.as_str())
}

fn state_value(alloc: Global, state: &Option<RcStr>) -> Result<Value, AllocError>
    ensures { IfOk result (λ value. view value ≡ text_json state.now) }
{
    match state {
        Some(state) => text_value(alloc, state),
        None => Ok(Value::Null),
    }
}

fn field_value(alloc: Global, value: &ShownValue) -> Result<Value, AllocError>
    ensures { IfOk result (λ it. view it ≡ value_json value.now) }
{
    match value {
        ShownValue::Int(number) => Ok(Value::from(*number)),
        ShownValue::Bool(truth) => Ok(Value::Bool(*truth)),
        ShownValue::Text(text) => text_value(alloc, text),
        ShownValue::Object(object) => object_value(alloc, *object),
    }
}

fn fields_map(alloc: Global, fields: &[ShownField]) -> Result<Map<String, Value>, AllocError>
    ensures { IfOk result (λ map. members_view map.entries ≡ with_fields no_members fields.now) }
{
    let mut map = Map::new(alloc);
    for field in fields {
        let value = field_value(alloc, &field.value)?;
        put(&mut map, alloc, field.name.as_str(), value)?;
    }
    Ok(map)
}

fn shown_value(alloc: Global, shown: &Shown) -> Result<Value, AllocError>
    ensures { IfOk result (λ value. view value ≡ shown_json shown.now) }
{
    let fields = Value::Object(fields_map(alloc, shown.fields.as_slice())?);
    let state = state_value(alloc, &shown.state)?;
    json!(in alloc; {
        "contract": shown.contract.as_str(),
        "disowned": shown.disowned,
        "fields": fields,
        "object": shown.object.0,
        "shared": shown.shared,
        "state": state
    })
}

// The text of a label.
fn label_text(label: &Label) -> &str
    ensures { result.now ≡ label.now }
{
    match str::from_utf8(label.as_bytes()) {
        Ok(text) => text,
        Err(_) => unreachable!(),
    }
}

fn handle_value(alloc: Global, who: &Label, name: &Label) -> Result<Value, AllocError>
    ensures { IfOk result (λ value. view value ≡ outcome_json (Handle who.now name.now)) }
{
    json!(in alloc; {"handle": [label_text(who), label_text(name)]})
}

fn place_value(alloc: Global, object: ObjectId, name: &RcStr) -> Result<Value, AllocError>
    ensures { IfOk result (λ value. view value ≡ outcome_json (Field object name.now)) }
{
    json!(in alloc; {"field": [object.0, name.as_str()]})
}

fn outcome_value(alloc: Global, outcome: &Outcome) -> Result<Value, AllocError>
    ensures { IfOk result (λ value. view value ≡ outcome_json outcome.now) }
{
    match outcome {
        Outcome::Nothing => Ok(Value::Null),
        Outcome::Int(number) => Ok(Value::from(*number)),
        Outcome::Bool(truth) => Ok(Value::Bool(*truth)),
        Outcome::Text(text) => text_value(alloc, text),
        Outcome::Object(object) => object_value(alloc, *object),
        Outcome::See(shown) => shown_value(alloc, shown),
        Outcome::Handle(who, name) => handle_value(alloc, who, name),
        Outcome::Field(object, name) => place_value(alloc, *object, name),
    }
}

fn revert_value(alloc: Global, id: Option<i64>, text: &RcStr) -> Result<Value, AllocError>
    ensures { IfOk result (λ value. view value ≡ abort_json (id_json id) (cause.Revert text.now)) }
{
    json!(in alloc; {"abort": "revert", "id": id_value(id), "text": text.as_str()})
}

// An abort that tells an object.
fn object_abort(
    alloc: Global,
    id: Option<i64>,
    word: &str,
    object: ObjectId,
) -> Result<Value, AllocError>
    ensures { IfOk result (λ value. view value ≡ abort_with word.now (id_json id) (member (codes "object") (number_json object) no_members)) }
{
    json!(in alloc; {"abort": word, "id": id_value(id), "object": object.0})
}

fn state_abort(
    alloc: Global,
    id: Option<i64>,
    object: ObjectId,
    state: &Option<RcStr>,
) -> Result<Value, AllocError>
    ensures { IfOk result (λ value. view value ≡ abort_json (id_json id) (cause.State object state.now)) }
{
    match state {
        Some(state) => {
            json!(in alloc; {"abort": "state", "id": id_value(id), "object": object.0, "state": state.as_str()})
        }
        None => object_abort(alloc, id, "state", object),
    }
}

fn overflow_value(alloc: Global, id: Option<i64>, line: u32) -> Result<Value, AllocError>
    ensures { IfOk result (λ value. view value ≡ abort_json (id_json id) (cause.Overflow line)) }
{
    json!(in alloc; {"abort": "overflow", "id": id_value(id), "line": line})
}

fn room_value(alloc: Global, id: Option<i64>, need: u64, size: u64) -> Result<Value, AllocError>
    ensures { IfOk result (λ value. view value ≡ abort_json (id_json id) (cause.Room need size)) }
{
    json!(in alloc; {"abort": "room", "id": id_value(id), "need": need, "size": size})
}

// An abort that tells nothing.
fn plain_abort(alloc: Global, id: Option<i64>, word: &str) -> Result<Value, AllocError>
    ensures { IfOk result (λ value. view value ≡ abort_with word.now (id_json id) no_members) }
{
    json!(in alloc; {"abort": word, "id": id_value(id)})
}

fn abort_value(alloc: Global, id: Option<i64>, cause: &Cause) -> Result<Value, AllocError>
    ensures { IfOk result (λ value. view value ≡ abort_json (id_json id) cause.now) }
{
    match cause {
        Cause::Revert(text) => revert_value(alloc, id, text),
        Cause::State(object, state) => state_abort(alloc, id, *object, state),
        Cause::Reentry(object) => object_abort(alloc, id, "reentry", *object),
        Cause::Overflow(line) => overflow_value(alloc, id, *line),
        Cause::Fuel => plain_abort(alloc, id, "fuel"),
        Cause::Full => plain_abort(alloc, id, "full"),
        Cause::Room(need, size) => room_value(alloc, id, *need, *size),
    }
}

fn reply_value(alloc: Global, reply: &Reply) -> Result<Value, AllocError>
    ensures { IfOk result (λ value. view value ≡ reply_json reply.now) }
{
    match &reply.answer {
        Answer::Ok(outcome) => {
            let value = outcome_value(alloc, outcome)?;
            json!(in alloc; {"id": id_value(reply.id), "ok": value})
        }
        Answer::Abort(cause) => abort_value(alloc, reply.id, cause),
        Answer::Refused(refusal) => {
            let number = refusal.number();
            json!(in alloc; {"id": id_value(reply.id), "refused": number})
        }
    }
}

// The compact text of a JSON value, whose numbers are whole.
fn compact_text(alloc: Global, value: &Value) -> Result<String, Memory>
    ensures { IfOk result (λ text. has_float (view value.now) ≡ false → string_bytes text ≡ compact_text (view value.now)) }
{
    Ok(value.to_string(alloc)?)
}

/// The line of a reply: one JSON object, compact, with its keys in the order of their bytes (RFC 8259), and a newline.
pub fn reply_bytes(alloc: Global, reply: &Reply) -> Result<Vec<u8>, Memory>
    ensures { IfOk result (λ bytes. bytes.items ≡ reply_line reply.now) }
{
    let value = reply_value(alloc, reply)?;
    let mut text = compact_text(alloc, &value)?;
    text.push('\n')?;
    Ok(text.into_bytes())
}
