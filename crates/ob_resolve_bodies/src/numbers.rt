//! The numbers of things in the class table. What denotes nothing has the number 0. A number past its type counts as
//! want of memory: a program within its limits has none.
ghost use Rattle.std.specs.Prelude.{◌≡◌, ◌+◌, Some, IfOk, if◌then◌else◌};
ghost use Rattle.ob_tree.specs.MembersView.{contract_of};
ghost use Rattle.ob_resolve_spec.specs.Kinds.{contract_of_kind};
ghost use Rattle.ob_resolve_spec.specs.Numbers.{contract_id, state_id, field_id, transaction_id};
ghost use Rattle.ob_resolve_spec.specs.Bodies.{id_of_kind};
ghost use Rattle.ob_resolve_scope.specs.Types.{program_of};

use ob_base::{ContractId, FieldId, Memory, StateId, TxId};
use ob_resolve_scope::AroundBody;
use ob_resolve_spec::InferredKind;
use ob_tree::NamePart;

/// The number, in 32 bits.
pub fn wide(number: usize) -> Result<u32, Memory>
    ensures { IfOk result (λ n. n ≡ number) }
{
    u32::try_from(number).ok().ok_or(Memory)
}

/// The number, in 8 bits.
pub fn narrow(number: usize) -> Result<u8, Memory>
    ensures { IfOk result (λ n. n ≡ number) }
{
    u8::try_from(number).ok().ok_or(Memory)
}

/// The number of a contract or an interface.
pub fn contract_id(number: Option<usize>) -> Result<ContractId, Memory>
    ensures { IfOk result (λ id. id ≡ contract_id number) }
{
    Ok(ContractId(wide(number.unwrap_or(0))?))
}

/// The number of the contract or interface to which references of this kind refer.
pub fn id_of_kind(kind: InferredKind) -> Result<ContractId, Memory>
    ensures { IfOk result (λ id. id ≡ id_of_kind kind) }
{
    match kind {
        InferredKind::Reference(number) => Ok(ContractId(wide(number)?)),
        _ => Ok(ContractId(0)),
    }
}

/// The number of the first state of this name of the contract to which references of this kind refer.
#[tactic(auto, using(crate::proofs::NumbersLemmas::unwrap_or_and_then))]
pub fn state_id(
    around: &AroundBody<'_>,
    kind: InferredKind,
    name: &NamePart,
) -> Result<StateId, Memory>
    ensures { IfOk result (λ id. id ≡ state_id (contract_of_kind (program_of around.now.program) kind) name.now.name) }
{
    match kind {
        InferredKind::Reference(contract) => {
            let types = around.declared().types();
            let number = types.state(contract, name.name.as_bytes()).unwrap_or(0);
            Ok(StateId(narrow(number)?))
        }
        _ => Ok(StateId(0)),
    }
}

/// The number of the first state of this name of the contract around.
pub fn own_state_id(around: &AroundBody<'_>, name: &NamePart) -> Result<StateId, Memory>
    ensures { IfOk result (λ id. id ≡ state_id (Some (contract_of around.now.own)) name.now.name) }
{
    Ok(StateId(narrow(around.state(name.name.as_bytes()).unwrap_or(0))?))
}

/// The number of the first field of this name of the contract around.
pub fn field_id(around: &AroundBody<'_>, name: &NamePart) -> Result<FieldId, Memory>
    ensures { IfOk result (λ id. id ≡ field_id (contract_of around.now.own) name.now.name) }
{
    Ok(FieldId(narrow(around.field(name.name.as_bytes()).unwrap_or(0))?))
}

/// The number of the transaction at this place among a contract's transactions. They stand after the constructor,
/// which has the number 0; an interface has none.
pub fn numbered_transaction(interface: bool, place: usize) -> Result<TxId, Memory>
    ensures { IfOk result (λ id. id ≡ record { 0 = place + (if interface then 0 else 1) }) }
{
    let place = wide(place)?;
    if interface {
        return Ok(TxId(place));
    }
    Ok(TxId(place.checked_add(1).ok_or(Memory)?))
}

/// The number of the first transaction of this name of the contract to which references of this kind refer.
#[tactic(auto, using(crate::proofs::NumbersLemmas::unwrap_or_and_then))]
pub fn transaction_id(
    around: &AroundBody<'_>,
    kind: InferredKind,
    name: &NamePart,
) -> Result<TxId, Memory>
    ensures { IfOk result (λ id. id ≡ transaction_id (contract_of_kind
        (program_of around.now.program) kind) name.now.name) }
{
    let InferredKind::Reference(contract) = kind else {
        return Ok(TxId(0));
    };
    let declared = around.declared();
    match declared.types().node(contract) {
        None => Ok(TxId(0)),
        Some(node) => {
            let place = declared
                .transaction(contract, name.name.as_bytes())
                .unwrap_or(0);
            numbered_transaction(node.interface, place)
        }
    }
}
