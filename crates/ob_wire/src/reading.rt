//! The request that a JSON value asks.
ghost use Rattle.std.specs.Prelude.{◌≡◌, option_copied, IfOk};
ghost use Rattle.std.specs.List.{list_any, list_all};
ghost use Rattle.std.specs.BTreeMap.{keys};
ghost use Rattle.std.specs.String.{string_bytes};
ghost use Rattle.std.specs.Str.{bytes_eq};
ghost use Rattle.serde_json.specs.View.{view, items_view, number_view};
ghost use Rattle.serde_json.specs.Find.{as_i64};
ghost use Rattle.ob_wire.specs.Requests.{keys_of, number_argument, text_argument, handle_named, argument_of, arguments_of};
ghost use Rattle.ob_wire.specs.Reading.{has_only, has_one, ref_in, label_at, label_if_at, id_at, args_at, mode_named, mode_at, new_in, call_in, give_in, on_in, op_in, request_in, Answers};

use crate::{Arg, Op, Request};
use ob_base::{Items, Label, Memory, Mode, NameError, Text};
use serde_json::{Map, Number, Value};
use std::alloc::{AllocError, Global};

/// Why a line asks nothing, or, where replies are read, is none.
#[derive(Clone, Copy)]
pub enum WireError {
    /// It is no JSON.
    Json,
    /// It is JSON, but neither a request nor an array of requests; or, where a reply is read, no reply.
    Shape,
    /// It is an array of none or of more than `MOST_REQUESTS` requests.
    BatchSize,
    /// Memory ran out.
    Memory,
}

impl From<AllocError> for WireError {
    ghost use Rattle.std.specs.Prelude.{◌≡◌};
    ghost use Rattle.ob_wire.specs.declared.reading.WireError.TheVariants.{Memory};

    ghost from_gives = { λ _ e. e ≡ Memory };

    fn from(_: AllocError) -> WireError {
        WireError::Memory
    }
}

impl From<Memory> for WireError {
    ghost use Rattle.std.specs.Prelude.{◌≡◌};
    ghost use Rattle.ob_wire.specs.declared.reading.WireError.TheVariants.{Memory};

    ghost from_gives = { λ _ e. e ≡ Memory };

    fn from(_: Memory) -> WireError {
        WireError::Memory
    }
}

impl From<NameError> for WireError {
    ghost use Rattle.std.specs.Prelude.{◌≡◌};
    ghost use Rattle.ob_wire.specs.Errors.{wire_error};

    ghost from_gives = { λ name e. e ≡ wire_error name };

    fn from(error: NameError) -> WireError {
        match error {
            NameError::Bad => WireError::Shape,
            NameError::Memory => WireError::Memory,
        }
    }
}

// Which keys a request may have, by what it asks.
#[derive(Clone, Copy)]
enum RequestKeys {
    // Those of a `new`.
    New,
    // Those of a `call`.
    Call,
    // Those of a `give`.
    Give,
    // Those of a request that names a handle and has nothing else to say.
    Handle,
}

fn is_key(allowed: RequestKeys, key: &str) -> bool
    ensures { result ≡ list_any (bytes_eq key.now) (keys_of allowed) }
{
    match allowed {
        RequestKeys::New => matches!(key, "args" | "contract" | "id" | "into" | "op" | "who"),
        RequestKeys::Call => matches!(key, "args" | "id" | "into" | "on" | "op" | "tx" | "who"),
        RequestKeys::Give => matches!(key, "as" | "id" | "into" | "on" | "op" | "to" | "who"),
        RequestKeys::Handle => matches!(key, "id" | "on" | "op" | "who"),
    }
}

fn are_keys(allowed: RequestKeys, members: &Map<String, Value>) -> bool
    ensures { result ≡ list_all (λ key. list_any (bytes_eq (string_bytes key)) (keys_of allowed)) (keys members.now) }
{
    members.keys().all(|key| is_key(allowed, key.as_str()))
}

// Whether the value is an object with no keys but the allowed ones.
fn has_only(allowed: RequestKeys, value: &Value) -> bool
    ensures { result ≡ has_only (keys_of allowed) (view value.now) }
{
    match value.as_object() {
        Some(members) => are_keys(allowed, members),
        None => false,
    }
}

// The string of 1 to 64 bytes at a key.
fn label_at(alloc: Global, value: &Value, key: &str) -> Result<Label, WireError>
    ensures { Answers result (label_at key.now (view value.now)) }
{
    let Some(text) = value.get(key).and_then(Value::as_str) else {
        return Err(WireError::Shape);
    };
    Ok(Label::of(alloc, text.as_bytes())?)
}

// The string of 1 to 64 bytes at a key that may be absent.
fn label_if_at(alloc: Global, value: &Value, key: &str) -> Result<Option<Label>, WireError>
    ensures { Answers result (label_if_at key.now (view value.now)) }
{
    if value.get(key).is_none() {
        return Ok(None);
    }
    let label = label_at(alloc, value, key)?;
    Ok(Some(label))
}

// The whole number from 0 at the key `id`.
fn id_at(value: &Value) -> Result<i64, WireError>
    ensures { Answers result (id_at (view value.now)) }
{
    match value.get("id").and_then(Value::as_i64) {
        Some(id) if id >= 0 => Ok(id),
        _ => Err(WireError::Shape),
    }
}

fn number_argument(number: &Number) -> Arg
    ensures { result ≡ number_argument (as_i64 (number_view number.now)) }
{
    match number.as_i64() {
        Some(number) => Arg::Int(number),
        None => Arg::Other,
    }
}

fn text_argument(alloc: Global, text: &str) -> Result<Arg, Memory>
    ensures { IfOk result (λ arg. arg ≡ text_argument text.now) }
{
    match Text::of(alloc, text.as_bytes()) {
        Ok(text) => Ok(Arg::Text(text)),
        Err(NameError::Bad) => Ok(Arg::Other),
        Err(NameError::Memory) => Err(Memory),
    }
}

// Whether the value is an object with one member.
fn has_one(value: &Value) -> bool
    ensures { result ≡ has_one (view value.now) }
{
    match value.as_object() {
        Some(members) => members.len() == 1,
        None => false,
    }
}

// The string in `{"ref":name}`.
fn ref_in(value: &Value) -> Option<&str>
    ensures { option_copied result ≡ ref_in (view value.now) }
{
    if !has_one(value) {
        return None;
    }
    value.get("ref").and_then(Value::as_str)
}

fn handle_argument(alloc: Global, value: &Value) -> Result<Arg, Memory>
    ensures { IfOk result (λ arg. arg ≡ handle_named (ref_in (view value.now))) }
{
    let Some(name) = ref_in(value) else {
        return Ok(Arg::Other);
    };
    match Label::of(alloc, name.as_bytes()) {
        Ok(name) => Ok(Arg::Handle(name)),
        Err(NameError::Bad) => Ok(Arg::Other),
        Err(NameError::Memory) => Err(Memory),
    }
}

fn argument(alloc: Global, value: &Value) -> Result<Arg, Memory>
    ensures { IfOk result (λ arg. arg ≡ argument_of (view value.now)) }
{
    match value {
        Value::Bool(truth) => Ok(Arg::Bool(*truth)),
        Value::Number(number) => Ok(number_argument(number)),
        Value::String(text) => text_argument(alloc, text.as_str()),
        Value::Object(_) => handle_argument(alloc, value),
        Value::Null | Value::Array(_) => Ok(Arg::Other),
    }
}

fn arguments(alloc: Global, values: &[Value]) -> Result<Items<Arg>, Memory>
    ensures { IfOk result (λ args. args ≡ arguments_of (items_view values.now)) }
{
    let mut args = Items::new(alloc);
    for value in values {
        args.push(argument(alloc, value)?)?;
    }
    Ok(args)
}

// The arguments at the key `args`, which may be absent.
fn args_at(alloc: Global, value: &Value) -> Result<Items<Arg>, WireError>
    ensures { Answers result (args_at (view value.now)) }
{
    let Some(found) = value.get("args") else {
        return Ok(Items::new(alloc));
    };
    let Some(values) = found.as_array() else {
        return Err(WireError::Shape);
    };
    let args = arguments(alloc, values)?;
    Ok(args)
}

fn mode_named(word: &str) -> Option<Mode>
    ensures { result ≡ mode_named word.now }
{
    match word {
        "owned" => Some(Mode::Owned),
        "shared" => Some(Mode::Shared),
        "unowned" => Some(Mode::Unowned),
        _ => None,
    }
}

// The mode at the key `as`.
fn mode_at(value: &Value) -> Result<Mode, WireError>
    ensures { Answers result (mode_at (view value.now)) }
{
    let Some(word) = value.get("as").and_then(Value::as_str) else {
        return Err(WireError::Shape);
    };
    mode_named(word).ok_or(WireError::Shape)
}

fn new_in(alloc: Global, value: &Value) -> Result<Op, WireError>
    ensures { Answers result (new_in (view value.now)) }
{
    if !has_only(RequestKeys::New, value) {
        return Err(WireError::Shape);
    }
    let contract = label_at(alloc, value, "contract")?;
    let args = args_at(alloc, value)?;
    let into = label_if_at(alloc, value, "into")?;
    Ok(Op::New {
        contract,
        args,
        into,
    })
}

fn call_in(alloc: Global, value: &Value) -> Result<Op, WireError>
    ensures { Answers result (call_in (view value.now)) }
{
    if !has_only(RequestKeys::Call, value) {
        return Err(WireError::Shape);
    }
    let on = label_at(alloc, value, "on")?;
    let tx = label_at(alloc, value, "tx")?;
    let args = args_at(alloc, value)?;
    let into = label_if_at(alloc, value, "into")?;
    Ok(Op::Call { on, tx, args, into })
}

fn give_in(alloc: Global, value: &Value) -> Result<Op, WireError>
    ensures { Answers result (give_in (view value.now)) }
{
    if !has_only(RequestKeys::Give, value) {
        return Err(WireError::Shape);
    }
    let on = label_at(alloc, value, "on")?;
    let to = label_at(alloc, value, "to")?;
    let into = label_at(alloc, value, "into")?;
    let mode = mode_at(value)?;
    Ok(Op::Give { on, to, into, mode })
}

// The handle of a request that has nothing else to say.
fn on_in(alloc: Global, value: &Value) -> Result<Label, WireError>
    ensures { Answers result (on_in (view value.now)) }
{
    if !has_only(RequestKeys::Handle, value) {
        return Err(WireError::Shape);
    }
    label_at(alloc, value, "on")
}

fn op_in(alloc: Global, value: &Value) -> Result<Op, WireError>
    ensures { Answers result (op_in (view value.now)) }
{
    match value.get("op").and_then(Value::as_str) {
        Some("new") => new_in(alloc, value),
        Some("call") => call_in(alloc, value),
        Some("give") => give_in(alloc, value),
        Some("disown") => Ok(Op::Disown {
            on: on_in(alloc, value)?,
        }),
        Some("see") => Ok(Op::See {
            on: on_in(alloc, value)?,
        }),
        Some("owner") => Ok(Op::Owner {
            on: on_in(alloc, value)?,
        }),
        _ => Err(WireError::Shape),
    }
}

/// The request that a JSON value asks.
pub fn request_in(alloc: Global, value: &Value) -> Result<Request, WireError>
    ensures { Answers result (request_in (view value.now)) }
{
    let id = id_at(value)?;
    let who = label_at(alloc, value, "who")?;
    let op = op_in(alloc, value)?;
    Ok(Request { id, who, op })
}
