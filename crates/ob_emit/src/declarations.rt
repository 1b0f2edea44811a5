//! What an image declares of contracts.
ghost use Rattle.std.specs.Prelude.{◌≡◌, map, option_map, IfOk};
ghost use Rattle.ob_emit_spec.specs.EmittedImages.{perm_code, type_code, param_code, field_code, mark_if};
ghost use Rattle.ob_emit_spec.specs.EmittedImages.{body_marks, contract_marks, implements_code};

use crate::operands::is_shared;
use ob_base::{ContractId, Items, Memory, Name, Perm, Text};
use ob_code::{CodeText, FieldCode, ParamCode, PermCode, TypeCode};
use ob_table::{Contract, Field, Param, ResolvedType, Signature};
use std::alloc::Global;

/// A permission. One with states past the bit 62 counts as want of memory.
pub fn perm_code(p: Perm) -> Result<PermCode, Memory>
    ensures { IfOk result (λ code. code ≡ perm_code p) }
{
    let Ok(states) = i64::try_from(p.states) else {
        return Err(Memory);
    };
    Ok(PermCode {
        mode: p.mode,
        states,
    })
}

// The type of a field or a result.
fn type_code(of: ResolvedType) -> Result<TypeCode, Memory>
    ensures { IfOk result (λ code. code ≡ type_code of) }
{
    match of {
        ResolvedType::Int => Ok(TypeCode::Int),
        ResolvedType::Bool => Ok(TypeCode::Bool),
        ResolvedType::Text => Ok(TypeCode::Text),
        ResolvedType::Reference(contract, permission) => {
            Ok(TypeCode::Reference(contract, perm_code(permission)?))
        }
    }
}

/// The type of a result, if there is one.
pub fn result_code(of: Option<ResolvedType>) -> Result<Option<TypeCode>, Memory>
    ensures { IfOk result (λ code. code ≡ option_map type_code of) }
{
    match of {
        Some(of) => Ok(Some(type_code(of)?)),
        None => Ok(None),
    }
}

// A parameter, without its name.
fn param_code(param: &Param) -> Result<ParamCode, Memory>
    ensures { IfOk result (λ code. code ≡ param_code param.now) }
{
    match param.of {
        ResolvedType::Int => Ok(ParamCode::Int),
        ResolvedType::Bool => Ok(ParamCode::Bool),
        ResolvedType::Text => Ok(ParamCode::Text),
        ResolvedType::Reference(contract, permission) => {
            let entry = perm_code(permission)?;
            let exit = perm_code(param.exit)?;
            Ok(ParamCode::Reference(contract, entry, exit))
        }
    }
}

/// Parameters, without their names.
pub fn params_code(alloc: Global, params: &[Param]) -> Result<Items<ParamCode>, Memory>
    ensures { IfOk result (λ code. code ≡ map param_code params.now) }
{
    let mut code = Items::new(alloc);
    for param in params {
        code.push(param_code(param)?)?;
    }
    Ok(code)
}

/// A text.
#[tactic(auto, using(crate::proofs::CodeLemmas::text_is_utf8))]
pub fn text_code(alloc: Global, text: &Text) -> Result<CodeText, Memory>
    ensures { IfOk result (λ code. code ≡ text.now) }
{
    let bytes = Items::from_slice(alloc, text.as_bytes())?;
    Ok(CodeText::of(bytes))
}

// A name.
#[tactic(auto, using(ob_weight_laws::proofs::Parts::name_is_utf8))]
fn name_code(alloc: Global, name: &Name) -> Result<CodeText, Memory>
    ensures { IfOk result (λ code. code ≡ name.now) }
{
    let bytes = Items::from_slice(alloc, name.as_bytes())?;
    Ok(CodeText::of(bytes))
}

/// The names of states.
pub fn states_code(alloc: Global, states: &[Name]) -> Result<Items<CodeText>, Memory>
    ensures { IfOk result (λ code. code ≡ states.now) }
{
    let mut code = Items::new(alloc);
    for state in states {
        code.push(name_code(alloc, state)?)?;
    }
    Ok(code)
}

// A field.
fn field_code(alloc: Global, field: &Field) -> Result<FieldCode, Memory>
    ensures { IfOk result (λ code. code ≡ field_code field.now) }
{
    let Ok(available) = i64::try_from(field.available) else {
        return Err(Memory);
    };
    let of = type_code(field.of)?;
    Ok(FieldCode {
        name: name_code(alloc, &field.name)?,
        of,
        available,
    })
}

/// Fields. One with states past the bit 62 counts as want of memory.
pub fn fields_code(alloc: Global, fields: &[Field]) -> Result<Items<FieldCode>, Memory>
    ensures { IfOk result (λ code. code ≡ map field_code fields.now) }
{
    let mut code = Items::new(alloc);
    for field in fields {
        code.push(field_code(alloc, field)?)?;
    }
    Ok(code)
}

/// The marks of a body.
pub fn body_marks(constructs: bool, signature: &Signature) -> u8
    ensures { result ≡ body_marks constructs signature.now }
{
    let private = if signature.private { 1 } else { 0 };
    let constructor = if constructs { 2 } else { 0 };
    let shared = if !constructs && is_shared(signature.entry) {
        4
    } else {
        0
    };
    private + constructor + shared
}

/// The marks of a contract.
pub fn contract_marks(own: &Contract) -> u8
    ensures { result ≡ contract_marks own.now }
{
    let asset = if own.asset { 1 } else { 0 };
    let main = if own.main { 2 } else { 0 };
    let interface = if own.interface { 4 } else { 0 };
    asset + main + interface
}

/// The number of an interface plus 1, and 0 for none. A number of 32 bits that is followed by none counts as want of memory.
pub fn implements_code(implements: Option<ContractId>) -> Result<u32, Memory>
    ensures { IfOk result (λ n. n ≡ implements_code implements) }
{
    match implements {
        Some(id) => id.0.checked_add(1).ok_or(Memory),
        None => Ok(0),
    }
}
