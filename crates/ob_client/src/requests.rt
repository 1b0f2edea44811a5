//! The lines of requests.
ghost use Rattle.std.specs.Prelude.{◌≡◌, false, [], ◌∷◌, IsTrue, IfOk, OnOk};
ghost use Rattle.std.specs.Str.{IsUtf8};
ghost use Rattle.serde_json.specs.Data.{no_members};
ghost use Rattle.ob_wire.specs.declared.request.Op.TheVariants.{Give};
ghost use Rattle.serde_json.specs.View.{view, items_view, members_view};
ghost use Rattle.serde_json.specs.Written.{has_float, compact_text};
ghost use Rattle.ob_wire.specs.Requests.{word_of, word_of_mode};
ghost use Rattle.ob_wire.specs.Requests.{Asks};
ghost use Rattle.ob_wire.specs.declared.request.Request.{Request as RequestOf};
ghost use Rattle.ob_client.specs.Sendable.{is_sendable};
ghost use Rattle.ob_client.specs.RequestLines.{argument_json, arguments_json, text_pair, args_pairs, into_pairs, common_pairs, op_pairs, with_pairs, request_json, request_line};

use ob_base::{Label, Memory, Mode, Text};
use ob_wire::{Arg, Op, Request};
use serde_json::{Map, Value, json, put};
use std::alloc::{AllocError, Global};

// The text that bytes are.
fn text_of(bytes: &[u8]) -> &str
    requires { IsUtf8 bytes.now }
    ensures { result.now ≡ bytes.now }
{
    match str::from_utf8(bytes) {
        Ok(text) => text,
        Err(_) => unreachable!(),
    }
}

fn label_text(label: &Label) -> &str
    ensures { result.now ≡ label.now }
{
    text_of(label.as_bytes())
}

fn string_text(text: &Text) -> &str
    ensures { result.now ≡ text.now }
{
    text_of(text.as_bytes())
}

fn argument_value(alloc: Global, arg: &Arg) -> Result<Value, AllocError>
    ensures { IfOk result (λ value. view value ≡ argument_json arg.now) }
{
    match arg {
        Arg::Int(number) => Ok(Value::from(*number)),
        Arg::Bool(truth) => Ok(Value::Bool(*truth)),
        Arg::Text(text) => json!(in alloc; string_text(text)),
        Arg::Handle(name) => json!(in alloc; {"ref": label_text(name)}),
        Arg::Other => Ok(Value::Null),
    }
}

#[tactic(auto, using(crate::proofs::RequestValues::goes_on, crate::proofs::RequestValues::none_left))]
fn argument_values(alloc: Global, args: &[Arg]) -> Result<Vec<Value>, AllocError>
    ensures { IfOk result (λ values. items_view values.items ≡ arguments_json args.now) }
{
    let mut values = Vec::new(alloc);
    for arg in args {
        values.push(argument_value(alloc, arg)?)?;
    }
    Ok(values)
}

/// Puts a string at a key.
pub fn put_text(
    map: &mut Map<String, Value>,
    alloc: Global,
    key: &str,
    text: &str,
) -> Result<(), AllocError>
    ensures { OnOk result (members_view map.new.entries ≡ with_pairs (members_view map.old.entries) (text_pair key.now text.now ∷ [])) }
{
    let value = json!(in alloc; text)?;
    put(map, alloc, key, value)
}

fn put_label(
    map: &mut Map<String, Value>,
    alloc: Global,
    key: &str,
    label: &Label,
) -> Result<(), AllocError>
    ensures { OnOk result (members_view map.new.entries ≡ with_pairs (members_view map.old.entries) (text_pair key.now label.now ∷ [])) }
{
    put_text(map, alloc, key, label_text(label))
}

// Puts the arguments, if there are any.
fn put_args(map: &mut Map<String, Value>, alloc: Global, args: &[Arg]) -> Result<(), AllocError>
    ensures { OnOk result (members_view map.new.entries ≡ with_pairs (members_view map.old.entries) (args_pairs args.now)) }
{
    if args.is_empty() {
        return Ok(());
    }
    let values = argument_values(alloc, args)?;
    put(map, alloc, "args", Value::Array(values))
}

// Puts the name of the new handle, if there is one.
fn put_into(
    map: &mut Map<String, Value>,
    alloc: Global,
    into: &Option<Label>,
) -> Result<(), AllocError>
    ensures { OnOk result (members_view map.new.entries ≡ with_pairs (members_view map.old.entries) (into_pairs into.now)) }
{
    match into {
        Some(into) => put_label(map, alloc, "into", into),
        None => Ok(()),
    }
}

fn word_of_mode(mode: Mode) -> &'static str
    ensures { result.now ≡ word_of_mode mode }
{
    match mode {
        Mode::Owned => "owned",
        Mode::Shared => "shared",
        Mode::Unowned => "unowned",
    }
}

fn word_of(op: &Op) -> &'static str
    ensures { result.now ≡ word_of op.now }
{
    match op {
        Op::New { .. } => "new",
        Op::Call { .. } => "call",
        Op::Disown { .. } => "disown",
        Op::Give { .. } => "give",
        Op::See { .. } => "see",
        Op::Owner { .. } => "owner",
    }
}

fn put_give(
    map: &mut Map<String, Value>,
    alloc: Global,
    on: &Label,
    to: &Label,
    into: &Label,
    mode: Mode,
) -> Result<(), AllocError>
    ensures { OnOk result (members_view map.new.entries
        ≡ with_pairs (members_view map.old.entries) (op_pairs (Give on.now to.now into.now mode))) }
{
    put_label(map, alloc, "on", on)?;
    put_label(map, alloc, "to", to)?;
    put_label(map, alloc, "into", into)?;
    put_text(map, alloc, "as", word_of_mode(mode))
}

// Puts what the request of an operation has beside its number, its word and its client.
fn put_op(map: &mut Map<String, Value>, alloc: Global, op: &Op) -> Result<(), AllocError>
    ensures { OnOk result (members_view map.new.entries ≡ with_pairs (members_view map.old.entries) (op_pairs op.now)) }
{
    match op {
        Op::New {
            contract,
            args,
            into,
        } => {
            put_label(map, alloc, "contract", contract)?;
            put_args(map, alloc, args.as_slice())?;
            put_into(map, alloc, into)
        }
        Op::Call { on, tx, args, into } => {
            put_label(map, alloc, "on", on)?;
            put_label(map, alloc, "tx", tx)?;
            put_args(map, alloc, args.as_slice())?;
            put_into(map, alloc, into)
        }
        Op::Give { on, to, into, mode } => put_give(map, alloc, on, to, into, *mode),
        Op::Disown { on } | Op::See { on } | Op::Owner { on } => put_label(map, alloc, "on", on),
    }
}

/// A map with what each request has: its number, the word for its operation, and its client.
pub fn common_map(
    alloc: Global,
    id: i64,
    word: &str,
    who: &str,
) -> Result<Map<String, Value>, AllocError>
    ensures { IfOk result (λ map. members_view map.entries ≡ with_pairs no_members (common_pairs id word.now who.now)) }
{
    let mut map = Map::new(alloc);
    put(&mut map, alloc, "id", Value::from(id))?;
    put_text(&mut map, alloc, "op", word)?;
    put_text(&mut map, alloc, "who", who)?;
    Ok(map)
}

fn request_value(alloc: Global, request: &Request) -> Result<Value, AllocError>
    ensures { IfOk result (λ value. view value ≡ request_json request.now) }
{
    let who = label_text(&request.who);
    let mut map = common_map(alloc, request.id, word_of(&request.op), who)?;
    put_op(&mut map, alloc, &request.op)?;
    Ok(Value::Object(map))
}

/// The compact text of a JSON value, whose numbers are whole.
pub fn value_bytes(alloc: Global, value: &Value) -> Result<Vec<u8>, Memory>
    ensures { IfOk result (λ bytes. has_float (view value.now) ≡ false → bytes.items ≡ compact_text (view value.now)) }
{
    Ok(value.to_string(alloc)?.into_bytes())
}

#[tactic(auto, using(crate::proofs::RequestValues::request_whole))]
/// The line of a request, without a newline: one JSON object, compact, with its keys in the order of their bytes (RFC 8259). An
/// argument that is of no kind is written as `null`.
pub fn request_line(alloc: Global, request: &Request) -> Result<Vec<u8>, Memory>
    ensures { IfOk result (λ bytes. bytes.items ≡ request_line request.now) }
{
    let value = request_value(alloc, request)?;
    value_bytes(alloc, &value)
}

/// The law of these lines: a request that can be sent is what its line asks.
pub fn request_lines_ask()
    ensures { (request : RequestOf) → IsTrue (is_sendable request) → Asks (request_line request) request }
{}
