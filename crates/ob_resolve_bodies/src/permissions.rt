//! Permissions over the numbers of states.
ghost use Rattle.std.specs.Prelude.{◌≡◌, Some, map, length, slice_get, option_and_then, IfOk};
ghost use Rattle.ob_tree.specs.MembersView.{contract_of};
ghost use Rattle.ob_perm.specs.Masks.{mask_of};
ghost use Rattle.ob_table_spec.specs.Names.{number_of};
ghost use Rattle.ob_resolve_spec.specs.Declarations.{declared_contract, state_names};
ghost use Rattle.ob_resolve_spec.specs.Kinds.{contract_of_kind};
ghost use Rattle.ob_resolve_spec.specs.Numbers.{numbers_of_states, whole, perm_on};
ghost use Rattle.ob_resolve_scope.specs.Types.{program_of};
ghost use Rattle.ob_resolve_bodies.specs.States.{HasStates};

use ob_base::{Memory, Mode, Perm, StateId};
use ob_perm::{all_states, interface_states, only, union};
use ob_resolve_scope::{AroundBody, Types};
use ob_resolve_spec::InferredKind;
use ob_tree::{ContractNode, NamePart, PermNode};

// How many states a contract has. More than 32, or two of one name, count as want of memory: a program without faults
// has neither.
fn count_of_states(types: &Types<'_>, contract: usize, node: &ContractNode) -> Result<u8, Memory>
    requires { slice_get types.now contract ≡ Some node.now }
    ensures { IfOk result (λ count. HasStates (contract_of node.now) count) }
{
    match (types.count_of_states(contract), types.states(contract)) {
        (Some(count), Some(names)) if count <= 32 && names.len() == count => { Ok(count as u8) }
        _ => Err(Memory),
    }
}

// All states of a contract; of an interface also any that it doesn't name.
fn whole(types: &Types<'_>, contract: usize, node: &ContractNode) -> Result<u64, Memory>
    requires { slice_get types.now contract ≡ Some node.now }
    ensures { IfOk result (λ mask. mask ≡ mask_of (whole (contract_of node.now))) }
{
    let count = count_of_states(types, contract, node)?;
    if node.interface {
        Ok(interface_states(count))
    } else {
        Ok(all_states(count))
    }
}

// The number of the first state of this name.
#[tactic(auto, using(crate::proofs::StatesLemmas::state_number))]
fn state_number(
    types: &Types<'_>,
    contract: usize,
    node: &ContractNode,
    name: &NamePart,
) -> Option<usize>
    requires { slice_get types.now contract ≡ Some node.now }
    ensures { result ≡ number_of name.now.name (state_names (contract_of node.now)) }
{
    types.state(contract, name.name.as_bytes())
}

// The states of a contract that have one of these names.
fn states_named(
    types: &Types<'_>,
    contract: usize,
    node: &ContractNode,
    names: &[NamePart],
) -> Result<u64, Memory>
    requires { slice_get types.now contract ≡ Some node.now }
    ensures { IfOk result (λ mask. mask ≡ mask_of (numbers_of_states (state_names (contract_of node.now))
        (map (λ s. s.name) names.now))) }
{
    let _count = count_of_states(types, contract, node)?;
    let mut states = 0;
    for name in names {
        if let Some(number) = state_number(types, contract, node, name) {
            states = union(states, only(StateId(number as u8)));
        }
    }
    Ok(states)
}

// A permission on a contract.
fn perm_of_contract(
    types: &Types<'_>,
    contract: usize,
    node: &ContractNode,
    perm: &PermNode,
) -> Result<Perm, Memory>
    requires { slice_get types.now contract ≡ Some node.now }
    ensures { IfOk result (λ p. p ≡ perm_on (Some (contract_of node.now)) perm.now) }
{
    let states = match perm {
        PermNode::Mode(Mode::Owned, _) => whole(types, contract, node)?,
        PermNode::Mode(mode, _) => {
            return Ok(Perm {
                mode: *mode,
                states: 0,
            });
        }
        PermNode::States(names) => states_named(types, contract, node, names.as_slice())?,
    };
    Ok(Perm {
        mode: Mode::Owned,
        states,
    })
}

/// The states of the contract around that have one of these names.
pub fn own_states_named(around: &AroundBody<'_>, names: &[NamePart]) -> Result<u64, Memory>
    ensures { IfOk result (λ mask. mask ≡ mask_of (numbers_of_states (state_names (contract_of around.now.own))
        (map (λ s. s.name) names.now))) }
{
    let types = around.declared().types();
    states_named(types, around.number(), around.node(), names)
}

/// A permission on the contract around, as it stands in the table.
pub fn own_perm_on(around: &AroundBody<'_>, perm: &PermNode) -> Result<Perm, Memory>
    ensures { IfOk result (λ p. p ≡ perm_on (Some (contract_of around.now.own)) perm.now) }
{
    let types = around.declared().types();
    perm_of_contract(types, around.number(), around.node(), perm)
}

/// A permission on the contract of this number, as it stands in the table.
pub fn perm_on(types: &Types<'_>, contract: Option<usize>, perm: &PermNode) -> Result<Perm, Memory>
    ensures { IfOk result (λ p. p ≡ perm_on (option_and_then (declared_contract (program_of types.now)) contract) perm.now) }
{
    if let Some(contract) = contract {
        if let Some(node) = types.node(contract) {
            return perm_of_contract(types, contract, node, perm);
        }
    }
    Ok(Perm {
        mode: Mode::Unowned,
        states: 0,
    })
}

/// A permission on the contract to which references of this kind refer.
pub fn perm_on_kind(types: &Types<'_>, kind: InferredKind, perm: &PermNode) -> Result<Perm, Memory>
    ensures { IfOk result (λ p. p ≡ perm_on (contract_of_kind (program_of types.now) kind) perm.now) }
{
    match kind {
        InferredKind::Reference(contract) => perm_on(types, Some(contract), perm),
        _ => perm_on(types, None, perm),
    }
}
