//! The rows of an image, from and to bytes.
ghost use Rattle.std.specs.Prelude.{◌≡◌, ◌++◌, OnOk};
ghost use Rattle.ob_base.specs.Bytes.{u8_bytes};
ghost use Rattle.ob_format_spec.specs.Ids.{contract_id};
ghost use Rattle.ob_format_spec.specs.Texts.{text};
ghost use Rattle.ob_format.specs.Answering.{Answers};
ghost use Rattle.ob_code.specs.Images.{number_of_mode, mode, permission, reference, type_code, reference_param, result_type};

use crate::image::{BodyCode, ContractCode, FieldCode, ParamCode, PermCode, TypeCode};
use crate::text::CodeText;
use ob_base::{ContractId, Memory, Mode, put_i64, put_u8, put_u32};
use ob_format::{
    Halt, Part, any_byte, byte_below, counted, integer, number, put_counted, put_text_bytes,
    refused, text,
};
use std::alloc::Global;

#[tactic(auto, unfolding(crate::specs::Images::mode))]
fn mode(bytes: &[u8]) -> Result<(Mode, &[u8]), Halt>
    ensures { Answers result (mode.read bytes.now) }
{
    match bytes {
        [0, rest @ ..] => Ok((Mode::Owned, rest)),
        [1, rest @ ..] => Ok((Mode::Shared, rest)),
        [2, rest @ ..] => Ok((Mode::Unowned, rest)),
        _ => Err(refused(bytes)),
    }
}

#[tactic(auto, unfolding(crate::specs::Images::permission))]
fn permission(bytes: &[u8]) -> Result<(PermCode, &[u8]), Halt>
    ensures { Answers result (permission.read bytes.now) }
{
    let (mode, rest) = mode(bytes)?;
    let (states, rest) = integer(rest)?;
    Ok((PermCode { mode, states }, rest))
}

#[tactic(auto, unfolding(crate::specs::Images::reference))]
fn reference(bytes: &[u8]) -> Result<(TypeCode, &[u8]), Halt>
    ensures { Answers result (reference.read bytes.now) }
{
    let (contract, rest) = number(bytes)?;
    let (held, rest) = permission(rest)?;
    Ok((TypeCode::Reference(ContractId(contract), held), rest))
}

#[tactic(auto, unfolding(crate::specs::Images::type_code))]
fn type_code(bytes: &[u8]) -> Result<(TypeCode, &[u8]), Halt>
    ensures { Answers result (type_code.read bytes.now) }
{
    match bytes {
        [0, rest @ ..] => Ok((TypeCode::Int, rest)),
        [1, rest @ ..] => Ok((TypeCode::Bool, rest)),
        [2, rest @ ..] => Ok((TypeCode::Text, rest)),
        [3, rest @ ..] => reference(rest),
        _ => Err(refused(bytes)),
    }
}

#[tactic(auto, unfolding(crate::specs::Images::reference_param))]
fn reference_param(bytes: &[u8]) -> Result<(ParamCode, &[u8]), Halt>
    ensures { Answers result (reference_param.read bytes.now) }
{
    let (contract, rest) = number(bytes)?;
    let (entry, rest) = permission(rest)?;
    let (exit, rest) = permission(rest)?;
    Ok((
        ParamCode::Reference(ContractId(contract), entry, exit),
        rest,
    ))
}

#[tactic(auto, unfolding(crate::specs::Images::result_type))]
fn result_type(bytes: &[u8]) -> Result<(Option<TypeCode>, &[u8]), Halt>
    ensures { Answers result (result_type.read bytes.now) }
{
    match bytes {
        [0, rest @ ..] => Ok((None, rest)),
        [1, rest @ ..] => {
            let (of, rest) = type_code(rest)?;
            Ok((Some(of), rest))
        }
        _ => Err(refused(bytes)),
    }
}

// The byte of a mode.
fn number_of_mode(mode: Mode) -> u8
    ensures { result ≡ number_of_mode mode }
{
    match mode {
        Mode::Owned => 0,
        Mode::Shared => 1,
        Mode::Unowned => 2,
    }
}

#[tactic(auto, using(crate::proofs::Spellings::mode_bytes))]
fn put_mode(out: &mut Vec<u8>, value: Mode) -> Result<(), Memory>
    ensures { OnOk result (out.new.items ≡ out.old.items ++ mode.bytes value) }
{
    put_u8(out, number_of_mode(value))
}

#[tactic(auto, unfolding(crate::specs::Images::permission))]
fn put_permission(out: &mut Vec<u8>, value: PermCode) -> Result<(), Memory>
    ensures { OnOk result (out.new.items ≡ out.old.items ++ permission.bytes value) }
{
    put_mode(out, value.mode)?;
    put_i64(out, value.states)
}

// Appends the byte of a reference type, the contract and the permission.
fn put_reference(out: &mut Vec<u8>, contract: ContractId, held: PermCode) -> Result<(), Memory>
    ensures { OnOk result (out.new.items ≡ out.old.items ++ (u8_bytes 3 ++ (contract_id.bytes contract ++ permission.bytes held))) }
{
    put_u8(out, 3)?;
    put_u32(out, contract.0)?;
    put_permission(out, held)
}

#[tactic(auto, unfolding(crate::specs::Images::type_code, crate::specs::Images::reference))]
fn put_type(out: &mut Vec<u8>, value: TypeCode) -> Result<(), Memory>
    ensures { OnOk result (out.new.items ≡ out.old.items ++ type_code.bytes value) }
{
    match value {
        TypeCode::Int => put_u8(out, 0),
        TypeCode::Bool => put_u8(out, 1),
        TypeCode::Text => put_u8(out, 2),
        TypeCode::Reference(contract, held) => put_reference(out, contract, held),
    }
}

#[tactic(auto, unfolding(crate::specs::Images::result_type))]
fn put_result(out: &mut Vec<u8>, value: Option<TypeCode>) -> Result<(), Memory>
    ensures { OnOk result (out.new.items ≡ out.old.items ++ result_type.bytes value) }
{
    match value {
        None => put_u8(out, 0),
        Some(of) => {
            put_u8(out, 1)?;
            put_type(out, of)
        }
    }
}

// Appends the name of a body, its marks and its permissions.
fn put_head(out: &mut Vec<u8>, value: &BodyCode) -> Result<(), Memory>
    requires { text.fits value.now.name }
    ensures { OnOk result (out.new.items ≡ out.old.items
        ++ (text.bytes value.now.name ++ (u8_bytes value.now.flags ++ (permission.bytes value.now.entry ++ permission.bytes value.now.exit)))) }
{
    value.name.put(out)?;
    put_u8(out, value.flags)?;
    put_permission(out, value.entry)?;
    put_permission(out, value.exit)
}

impl Part for CodeText {
    ghost use Rattle.ob_format_spec.specs.Texts.{text};

    ghost format = { text };

    fn read(alloc: Global, bytes: &[u8]) -> Result<(CodeText, &[u8]), Halt> {
        let (bytes, rest) = text(alloc, bytes)?;
        Ok((CodeText::of(bytes), rest))
    }

    fn put(&self, out: &mut Vec<u8>) -> Result<(), Memory> {
        put_text_bytes(out, self.as_bytes())
    }
}

impl Part for ParamCode {
    ghost use Rattle.ob_code.specs.Images.{param};

    ghost format = { param };

    #[tactic(auto, unfolding(crate::specs::Images::param))]
    fn read(_alloc: Global, bytes: &[u8]) -> Result<(ParamCode, &[u8]), Halt> {
        match bytes {
            [0, rest @ ..] => Ok((ParamCode::Int, rest)),
            [1, rest @ ..] => Ok((ParamCode::Bool, rest)),
            [2, rest @ ..] => Ok((ParamCode::Text, rest)),
            [3, rest @ ..] => reference_param(rest),
            _ => Err(refused(bytes)),
        }
    }

    #[tactic(auto, unfolding(crate::specs::Images::param, crate::specs::Images::reference_param))]
    fn put(&self, out: &mut Vec<u8>) -> Result<(), Memory> {
        match self {
            ParamCode::Int => put_u8(out, 0),
            ParamCode::Bool => put_u8(out, 1),
            ParamCode::Text => put_u8(out, 2),
            ParamCode::Reference(contract, entry, exit) => {
                put_reference(out, *contract, *entry)?;
                put_permission(out, *exit)
            }
        }
    }
}

impl Part for FieldCode {
    ghost use Rattle.ob_code.specs.Images.{field};

    ghost format = { field };

    #[tactic(auto, unfolding(crate::specs::Images::field))]
    fn read(alloc: Global, bytes: &[u8]) -> Result<(FieldCode, &[u8]), Halt> {
        let (name, rest) = CodeText::read(alloc, bytes)?;
        let (of, rest) = type_code(rest)?;
        let (available, rest) = integer(rest)?;
        let field = FieldCode {
            name,
            of,
            available,
        };
        Ok((field, rest))
    }

    #[tactic(auto, unfolding(crate::specs::Images::field))]
    fn put(&self, out: &mut Vec<u8>) -> Result<(), Memory> {
        self.name.put(out)?;
        put_type(out, self.of)?;
        put_i64(out, self.available)
    }
}

impl Part for BodyCode {
    ghost use Rattle.ob_code.specs.Images.{body};

    ghost format = { body };

    #[tactic(auto, unfolding(crate::specs::Images::body))]
    fn read(alloc: Global, bytes: &[u8]) -> Result<(BodyCode, &[u8]), Halt> {
        let (name, rest) = CodeText::read(alloc, bytes)?;
        let (flags, rest) = byte_below(8, rest)?;
        let (entry, rest) = permission(rest)?;
        let (exit, rest) = permission(rest)?;
        let (params, rest) = counted(alloc, rest)?;
        let (result, rest) = result_type(rest)?;
        let (slots, rest) = any_byte(rest)?;
        let (instructions, rest) = counted(alloc, rest)?;
        let body = BodyCode {
            name,
            flags,
            entry,
            exit,
            params,
            result,
            slots,
            instructions,
        };
        Ok((body, rest))
    }

    #[tactic(auto, unfolding(crate::specs::Images::body))]
    fn put(&self, out: &mut Vec<u8>) -> Result<(), Memory> {
        put_head(out, self)?;
        put_counted(out, &self.params)?;
        put_result(out, self.result)?;
        put_u8(out, self.slots)?;
        put_counted(out, &self.instructions)
    }
}

impl Part for ContractCode {
    ghost use Rattle.ob_code.specs.Images.{contract};

    ghost format = { contract };

    #[tactic(auto, unfolding(crate::specs::Images::contract))]
    fn read(alloc: Global, bytes: &[u8]) -> Result<(ContractCode, &[u8]), Halt> {
        let (name, rest) = CodeText::read(alloc, bytes)?;
        let (flags, rest) = byte_below(8, rest)?;
        let (implements, rest) = number(rest)?;
        let (states, rest) = counted(alloc, rest)?;
        let (fields, rest) = counted(alloc, rest)?;
        let (bodies, rest) = counted(alloc, rest)?;
        let contract = ContractCode {
            name,
            flags,
            implements,
            states,
            fields,
            bodies,
        };
        Ok((contract, rest))
    }

    #[tactic(auto, unfolding(crate::specs::Images::contract))]
    fn put(&self, out: &mut Vec<u8>) -> Result<(), Memory> {
        self.name.put(out)?;
        put_u8(out, self.flags)?;
        put_u32(out, self.implements)?;
        put_counted(out, &self.states)?;
        put_counted(out, &self.fields)?;
        put_counted(out, &self.bodies)
    }
}
