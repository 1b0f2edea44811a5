//! The types of contracts and of instances.
ghost use Rattle.std.specs.Prelude.{◌≡◌, [], ◌∷◌, map, flat_map, option_map, OnOk};
ghost use Rattle.std.specs.Option.{option_map_or};
ghost use Rattle.ob_tree.specs.NamesView.{named_of};
ghost use Rattle.ob_tree.specs.MembersView.{contract_of};
ghost use Rattle.ob_generic_spec.specs.Heads.{heads_of};
ghost use Rattle.ob_generic_spec.specs.Uses.{used, types_in_contract, uses_in_contract};
ghost use Rattle.ob_generic_spec.specs.Instances.{visits_at, plain_visits, around_instance, instance_visits};
ghost use Rattle.ob_generic_spec.specs.declared.role.Role.TheVariants.{Anywhere};
ghost use Rattle.ob_generic_walk.specs.Seen.{seen, met};

use crate::found::Found;
use crate::members::walk_members;
use crate::visiting::visit;
use ob_base::Memory;
use ob_generic_names::{AroundType, Heads, OwnInstance};
use ob_generic_spec::{Instance, Role};
use ob_tree::{ContractNode, NamedNode};
use std::alloc::Global;

fn walk_implements(
    implements: &Option<NamedNode>,
    alloc: Global,
    around: &AroundType<'_>,
    found: &mut Found,
) -> Result<(), Memory>
    ensures { OnOk result (found.new ≡ met around.now found.old
        (option_map_or (λ of. used Anywhere of ∷ []) (option_map named_of implements.now) [])) }
{
    match implements {
        None => Ok(()),
        Some(of) => visit(of, Role::Anywhere, alloc, around, found),
    }
}

#[tactic(auto, using(crate::proofs::WalkTurns::turns))]
fn walk_contract(
    node: &ContractNode,
    alloc: Global,
    around: &AroundType<'_>,
    found: &mut Found,
) -> Result<(), Memory>
    ensures { OnOk result (found.new ≡ met around.now found.old (types_in_contract (contract_of node.now))) }
{
    walk_implements(&node.implements, alloc, around, found)?;
    walk_members(node.members.as_slice(), alloc, around, found)
}

#[tactic(auto, using(crate::proofs::ContractTurns::turns))]
fn walk_plain(
    node: &ContractNode,
    alloc: Global,
    heads: &Heads,
    found: &mut Found,
) -> Result<(), Memory>
    ensures { OnOk result (found.new ≡ seen found.old (plain_visits heads.now (contract_of node.now))) }
{
    if node.param.is_some() {
        return Ok(());
    }
    walk_contract(node, alloc, &AroundType::new(heads, None), found)
}

/// The types of the contracts and interfaces that aren't generic.
#[tactic(auto, using(crate::proofs::ContractTurns::turns))]
pub fn walk_plains(
    nodes: &[ContractNode],
    alloc: Global,
    heads: &Heads,
    found: &mut Found,
) -> Result<(), Memory>
    ensures { OnOk result (found.new ≡ seen found.old (flat_map (plain_visits heads.now) (map contract_of nodes.now))) }
{
    for node in nodes {
        walk_plain(node, alloc, heads, found)?;
    }
    Ok(())
}

#[tactic(auto, using(crate::proofs::ContractTurns::turns))]
fn walk_generic(
    node: &ContractNode,
    instance: &Instance,
    alloc: Global,
    heads: &Heads,
    found: &mut Found,
) -> Result<(), Memory>
    ensures { OnOk result (found.new ≡ seen found.old
        (visits_at (around_instance heads.now (contract_of node.now) instance.now) (uses_in_contract (contract_of node.now)))) }
{
    let own = match &node.param {
        None => None,
        Some(param) => Some(OwnInstance::new(instance, &node.name, param)),
    };
    walk_contract(node, alloc, &AroundType::new(heads, own), found)
}

/// The types of an instance.
#[tactic(auto, using(crate::proofs::ContractTurns::turns))]
pub fn walk_instance(
    nodes: &[ContractNode],
    instance: &Instance,
    alloc: Global,
    heads: &Heads,
    found: &mut Found,
) -> Result<(), Memory>
    requires { heads.now ≡ heads_of (map contract_of nodes.now) }
    ensures { OnOk result (found.new ≡ seen found.old (instance_visits (map contract_of nodes.now) instance.now)) }
{
    match nodes.get(instance.contract) {
        None => Ok(()),
        Some(node) => walk_generic(node, instance, alloc, heads, found),
    }
}
