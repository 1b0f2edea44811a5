//! The code of bodies, contract by contract.
ghost use Rattle.std.specs.Prelude.{◌≡◌, map, take, drop, option_map, slice_get, IfOk};
ghost use Rattle.std.specs.Option.{option_copied};
ghost use Rattle.ob_silica.specs.TermsView.{silica_body_of};
ghost use Rattle.ob_emit_spec.specs.EmittedImages.{signed_body, code_of_body, emitted_body};
ghost use Rattle.ob_weight_laws.specs.Bodies.{count_bodies, bodies_in_order, contract_in_order, contracts_in_order};

use crate::code::Code;
use crate::declarations::{
    body_marks, contract_marks, fields_code, implements_code, params_code, perm_code, result_code,
    states_code, text_code,
};
use crate::frame::{EmissionFrame, is_constructor};
use crate::scratch::count_slots;
use crate::terms::emit_terms;
use ob_base::{ContractId, Items, Memory, TxId};
use ob_code::{BodyCode, ContractCode, Image, Instruction};
use ob_silica::TermBody;
use ob_silica_kinds::Kinds;
use ob_table::{Contract, Signature, Table};
use std::alloc::Global;

// The code of a body.
#[tactic(auto, using(crate::proofs::Placed::body_placed))]
fn code_of_body(
    alloc: Global,
    table: &Table,
    id: ContractId,
    own: &Contract,
    tx: TxId,
    signature: &Signature,
    body: &TermBody,
) -> Result<Items<Instruction>, Memory>
    ensures { IfOk result (λ code. code
        ≡ code_of_body table.now id own.now tx signature.now (silica_body_of body.now)) }
{
    let frame = EmissionFrame::new(table, id, own, tx, signature, body);
    let mut kinds = Kinds::at_start(alloc, id, signature.params.as_slice())?;
    let mut code = Code::new(alloc);
    emit_terms(body.terms.as_slice(), &frame, &mut kinds, &mut code)?;
    Ok(code.into_instructions())
}

// A body with this signature, with so many slots and this code.
fn signed_body(
    alloc: Global,
    constructs: bool,
    signature: &Signature,
    slots: u8,
    instructions: Items<Instruction>,
) -> Result<BodyCode, Memory>
    ensures { IfOk result (λ code. code ≡ signed_body constructs signature.now slots instructions) }
{
    let entry = perm_code(signature.entry)?;
    let exit = perm_code(signature.exit)?;
    let result = result_code(signature.result)?;
    let name = text_code(alloc, &signature.name)?;
    let params = params_code(alloc, signature.params.as_slice())?;
    Ok(BodyCode {
        name,
        flags: body_marks(constructs, signature),
        entry,
        exit,
        params,
        result,
        slots,
        instructions,
    })
}

// A constructor or transaction with its body; one of an interface has none.
fn emit_body(
    alloc: Global,
    table: &Table,
    id: ContractId,
    own: &Contract,
    tx: TxId,
    signature: &Signature,
    body: Option<&TermBody>,
) -> Result<BodyCode, Memory>
    ensures { IfOk result (λ code. code
        ≡ emitted_body table.now id own.now tx signature.now (option_map silica_body_of (option_copied body.entry))) }
{
    let constructs = is_constructor(table, id, tx.0);
    match body {
        None => signed_body(alloc, constructs, signature, 0, Items::new(alloc)),
        Some(body) => {
            let slots = count_slots(body.slots, body.terms.as_slice())?;
            let code = code_of_body(alloc, table, id, own, tx, signature, body)?;
            signed_body(alloc, constructs, signature, slots, code)
        }
    }
}

// The body of a number.
#[tactic(auto, using(crate::proofs::BodiesLemmas::body_got))]
fn body_at(bodies: &[TermBody], number: usize) -> Option<&TermBody>
    ensures body { option_copied result ≡ slice_get bodies.now number }
    ensures terms { option_map silica_body_of (option_copied result) ≡ slice_get (map silica_body_of bodies.now) number }
{
    bodies.get(number)
}

// The constructor and the transactions of a contract, whose bodies stand at their numbers.
fn emit_bodies(
    alloc: Global,
    table: &Table,
    id: ContractId,
    own: &Contract,
    signatures: &[Signature],
    bodies: &[TermBody],
) -> Result<Items<BodyCode>, Memory>
    ensures { IfOk result (λ code. code ≡ bodies_in_order table.now (map silica_body_of bodies.now) id own.now 0 signatures.now) }
{
    let mut code = Items::new(alloc);
    let mut number: u32 = 0;
    for signature in signatures {
        let tx = TxId(number);
        let body = body_at(bodies, number as usize);
        code.push(emit_body(alloc, table, id, own, tx, signature, body)?)?;
        number = number.checked_add(1).ok_or(Memory)?;
    }
    Ok(code)
}

// A contract with these bodies.
fn emit_contract(
    alloc: Global,
    table: &Table,
    id: ContractId,
    own: &Contract,
    bodies: &[TermBody],
) -> Result<ContractCode, Memory>
    ensures { IfOk result (λ code. code ≡ contract_in_order table.now (map silica_body_of bodies.now) id own.now) }
{
    let implements = implements_code(own.implements)?;
    let name = text_code(alloc, &own.name)?;
    let states = states_code(alloc, own.states.as_slice())?;
    let fields = fields_code(alloc, own.fields.as_slice())?;
    let bodies = emit_bodies(alloc, table, id, own, own.transactions.as_slice(), bodies)?;
    Ok(ContractCode {
        name,
        flags: contract_marks(own),
        implements,
        states,
        fields,
        bodies,
    })
}

// How many bodies a contract has; an interface has none.
fn count_bodies(own: &Contract) -> usize
    ensures { result ≡ count_bodies own.now }
{
    if own.interface {
        0
    } else {
        own.transactions.len()
    }
}

// The bodies of a contract, which come first, and those after them.
#[tactic(auto, using(crate::proofs::BodiesLemmas::parts))]
fn split_bodies<'a>(own: &Contract, bodies: &'a [TermBody]) -> (&'a [TermBody], &'a [TermBody])
    ensures first { map silica_body_of result.0.now ≡ take (count_bodies own.now) (map silica_body_of bodies.now) }
    ensures rest { map silica_body_of result.1.now ≡ drop (count_bodies own.now) (map silica_body_of bodies.now) }
{
    let count = count_bodies(own).min(bodies.len());
    (&bodies[..count], &bodies[count..])
}

// The contracts and interfaces with their bodies, which stand one after another.
fn emit_contracts(
    alloc: Global,
    table: &Table,
    contracts: &[Contract],
    bodies: &[TermBody],
) -> Result<Items<ContractCode>, Memory>
    ensures { IfOk result (λ code. code ≡ contracts_in_order table.now (map silica_body_of bodies.now) 0 contracts.now) }
{
    let mut code = Items::new(alloc);
    let mut number: u32 = 0;
    let mut rest = bodies;
    for own in contracts {
        let (mine, others) = split_bodies(own, rest);
        code.push(emit_contract(alloc, table, ContractId(number), own, mine)?)?;
        rest = others;
        number = number.checked_add(1).ok_or(Memory)?;
    }
    Ok(code)
}

/// The image of a class table and the terms of its bodies, which stand in their order.
pub fn emit_image(alloc: Global, table: &Table, bodies: &[TermBody]) -> Result<Image, Memory>
    ensures { IfOk result (λ image. image
        ≡ record { contracts = contracts_in_order table.now (map silica_body_of bodies.now) 0 table.now.contracts }) }
{
    let contracts = emit_contracts(alloc, table, table.contracts(), bodies)?;
    Ok(Image { contracts })
}
