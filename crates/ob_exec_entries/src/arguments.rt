//! Arguments: whether they are of their parameters' types, and what comes of them.
ghost use Rattle.std.specs.Prelude.{◌≡◌, ◌++◌, ℕ, List, map, OnOk, option_to_list, filter_map, zip, not, Option, option_map, is_none, IfOk, Bool, false};
ghost use Rattle.std.specs.List.{list_any};
ghost use Rattle.std.specs.Option.{option_map_or};
ghost use Rattle.ob_heap.specs.Contents.{content_of};
ghost use Rattle.ob_heap.specs.Plain.{value_of as plain_value, handle_of};
ghost use Rattle.ob_heap_spec.specs.Objects.{Object as PlainObject};
ghost use Rattle.ob_heap_spec.specs.Values.{int_value, bool_value, text_value, reference};
ghost use Rattle.ob_heap_spec.specs.Handles.{handle_at};
ghost use Rattle.ob_invocation_spec.specs.Entries.{value_of, used_for, use_of_argument};
ghost use Rattle.ob_invocation_spec.specs.Handles.{handle_name};
ghost use Rattle.ob_invocation_spec.specs.Refusals.{is_of_type, is_argument_for};
ghost use Rattle.ob_code_table.specs.ImageTables.{type_of_param, exit_of_param, param_of_code, table_of_image};
ghost use Rattle.ob_table.specs.Tables.{ClassTable};
ghost use Rattle.ob_wire.specs.Meanings.{argument_meant};
ghost use Rattle.ob_exec_entries.specs.Entering.{use_of};
ghost use Rattle.ob_exec_entries.specs.Arguments.{names_no_handle, uses_of};

use crate::entered::HandleUse;
use crate::lookups::serves_as;
use ob_base::{Duplicate, Items, Label, Memory, ObjectId, Text};
use ob_code::{Image, ParamCode};
use ob_heap::{Content, Handle, RcStr, Value};
use ob_wire::Arg;
use std::alloc::Global;

/// The client's handle of a name.
#[tactic(auto, using(crate::proofs::HandleLemmas::handles))]
pub fn find_handle(content: &Content, who: &Label, name: &Label) -> Option<Handle>
    ensures { option_map handle_of result ≡ handle_at (content_of content.now) (handle_name who.now name.now) }
{
    content.handle(who, name)
}

// NoHandle.

fn names_no_handle(content: &Content, who: &Label, arg: &Arg) -> bool
    ensures { result ≡ names_no_handle (content_of content.now) who.now arg.now }
{
    match arg {
        Arg::Handle(name) => find_handle(content, who, name).is_none(),
        _ => false,
    }
}

/// Whether an argument names a handle that isn't there.
pub fn lack_handle(content: &Content, who: &Label, args: &[Arg]) -> bool
    ensures { result ≡ list_any (names_no_handle (content_of content.now) who.now) args.now }
{
    args.iter().any(|arg| names_no_handle(content, who, arg))
}

// ArgKind.

fn is_int_for(param: &ParamCode, number: i64) -> bool
    ensures { (table : ClassTable) (objects : List PlainObject) → result ≡ is_of_type table objects (type_of_param param.now) (int_value number) }
{
    matches!(param, ParamCode::Int)
}

fn is_bool_for(param: &ParamCode, truth: bool) -> bool
    ensures { (table : ClassTable) (objects : List PlainObject) → result ≡ is_of_type table objects (type_of_param param.now) (bool_value truth) }
{
    let _given = truth;
    matches!(param, ParamCode::Bool)
}

fn is_text_for(param: &ParamCode, text: &Text) -> bool
    ensures { (table : ClassTable) (objects : List PlainObject) → result ≡ is_of_type table objects (type_of_param param.now) (text_value text.now) }
{
    let _bytes = text.as_bytes();
    matches!(param, ParamCode::Text)
}

fn is_object_for(code: &Image, content: &Content, param: &ParamCode, id: ObjectId) -> bool
    ensures { result ≡ is_of_type (table_of_image code.now) (content_of content.now).objects (type_of_param param.now) (reference id.0) }
{
    match param {
        ParamCode::Reference(declared, _, _) => match content.object(id) {
            Some(object) => serves_as(code, *declared, object.contract),
            None => false,
        },
        _ => false,
    }
}

fn is_handle_for(
    code: &Image,
    content: &Content,
    who: &Label,
    param: &ParamCode,
    name: &Label,
) -> bool
    ensures { result ≡ is_argument_for (table_of_image code.now) (content_of content.now) who.now (param_of_code param.now) (argument_meant (Arg.Handle name.now)) }
{
    match find_handle(content, who, name) {
        Some(handle) => is_object_for(code, content, param, handle.object),
        None => false,
    }
}

// Whether an argument is of a parameter's type.
fn is_argument_for(
    code: &Image,
    content: &Content,
    who: &Label,
    param: &ParamCode,
    arg: &Arg,
) -> bool
    ensures { result ≡ is_argument_for (table_of_image code.now) (content_of content.now) who.now (param_of_code param.now) (argument_meant arg.now) }
{
    match arg {
        Arg::Int(number) => is_int_for(param, *number),
        Arg::Bool(truth) => is_bool_for(param, *truth),
        Arg::Text(text) => is_text_for(param, text),
        Arg::Handle(name) => is_handle_for(code, content, who, param, name),
        Arg::Other => false,
    }
}

/// Whether an argument isn't of its parameter's type.
pub fn have_other_kind(
    code: &Image,
    content: &Content,
    who: &Label,
    params: &[ParamCode],
    args: &[Arg],
) -> bool
    ensures { result ≡ list_any (λ pair. not (is_argument_for (table_of_image code.now) (content_of content.now) who.now (param_of_code pair.0) (argument_meant pair.1))) (zip params.now args.now) }
{
    params.iter().zip(args).any(|(param, arg)| !is_argument_for(code, content, who, param, arg))
}

// The uses of handles.

fn used_for(
    alloc: Global,
    param: &ParamCode,
    name: &Label,
    handle: Handle,
) -> Result<Option<HandleUse>, Memory>
    ensures { IfOk result (λ u. (who : List ℕ) → option_map (use_of who) u ≡ used_for (type_of_param param.now) (exit_of_param param.now) (handle_name who name.now) (handle_of handle)) }
{
    match param {
        ParamCode::Reference(contract, entry, exit) => Ok(Some(HandleUse {
            name: name.copy(alloc)?,
            handle,
            contract: *contract,
            entry: *entry,
            exit: *exit,
        })),
        _ => Ok(None),
    }
}

// The use of the handle that an argument names, if it names one.
fn use_of_argument(
    alloc: Global,
    content: &Content,
    who: &Label,
    param: &ParamCode,
    arg: &Arg,
) -> Result<Option<HandleUse>, Memory>
    ensures { IfOk result (λ u. option_map (use_of who.now) u ≡ use_of_argument (content_of content.now) who.now (param_of_code param.now) (argument_meant arg.now)) }
{
    match arg {
        Arg::Handle(name) => match find_handle(content, who, name) {
            Some(handle) => used_for(alloc, param, name, handle),
            None => Ok(None),
        },
        _ => Ok(None),
    }
}

/// Adds a use, if one was found.
pub fn add_use(uses: &mut Items<HandleUse>, found: Option<HandleUse>) -> Result<(), Memory>
    ensures { OnOk result (uses.new ≡ uses.old ++ option_to_list found) }
{
    if let Some(found) = found {
        uses.push(found)?;
    }
    Ok(())
}

/// The uses of handles for arguments, in their order.
pub fn uses_of(
    alloc: Global,
    content: &Content,
    who: &Label,
    params: &[ParamCode],
    args: &[Arg],
) -> Result<Items<HandleUse>, Memory>
    ensures { IfOk result (λ uses. map (use_of who.now) uses ≡ uses_of (content_of content.now) who.now params.now args.now) }
{
    let mut uses = Items::new(alloc);
    for (param, arg) in params.iter().zip(args) {
        add_use(&mut uses, use_of_argument(alloc, content, who, param, arg)?)?;
    }
    Ok(uses)
}

// The values.

fn text_of(alloc: Global, text: &Text) -> Result<RcStr, Memory>
    ensures { IfOk result (λ shared. shared ≡ text.now) }
{
    match str::from_utf8(text.as_bytes()) {
        Ok(text) => RcStr::from_str(alloc, text),
        Err(_) => unreachable!(),
    }
}

fn value_of(
    alloc: Global,
    content: &Content,
    who: &Label,
    arg: &Arg,
) -> Result<Option<Value>, Memory>
    ensures { IfOk result (λ v. option_map plain_value v ≡ value_of (content_of content.now) who.now (argument_meant arg.now)) }
{
    match arg {
        Arg::Int(number) => Ok(Some(Value::Int(*number))),
        Arg::Bool(truth) => Ok(Some(Value::Bool(*truth))),
        Arg::Text(text) => Ok(Some(Value::Text(text_of(alloc, text)?))),
        Arg::Handle(name) => Ok(value_of_name(content, who, name)),
        Arg::Other => Ok(None),
    }
}

fn value_of_name(content: &Content, who: &Label, name: &Label) -> Option<Value>
    ensures { option_map plain_value result ≡ option_map (λ h. reference h.object) (handle_at (content_of content.now) (handle_name who.now name.now)) }
{
    match find_handle(content, who, name) {
        Some(handle) => Some(Value::Object(handle.object)),
        None => None,
    }
}

fn add_value(values: &mut Items<Value>, found: Option<Value>) -> Result<(), Memory>
    ensures { OnOk result (values.new ≡ values.old ++ option_to_list found) }
{
    if let Some(found) = found {
        values.push(found)?;
    }
    Ok(())
}

/// The values of the arguments, in their order.
pub fn values_of(
    alloc: Global,
    content: &Content,
    who: &Label,
    args: &[Arg],
) -> Result<Items<Value>, Memory>
    ensures { IfOk result (λ values. map plain_value values ≡ filter_map (value_of (content_of content.now) who.now) (map argument_meant args.now)) }
{
    let mut values = Items::new(alloc);
    for arg in args {
        add_value(&mut values, value_of(alloc, content, who, arg)?)?;
    }
    Ok(values)
}
