//! Contracts in the tree of the instances.
ghost use Rattle.std.specs.Prelude.{◌≡◌, ◌++◌, map, flat_map, OnOk, IfOk};
ghost use Rattle.ob_tree.specs.MembersView.{contract_of, tree_of};
ghost use Rattle.ob_generic_spec.specs.Instances.{own_of};
ghost use Rattle.ob_generic_spec.specs.InstanceTrees.{contract_in, plain_contracts, instance_contracts};

use crate::members::members_in;
use crate::naming::{implements_in, own_name};
use ob_base::{Items, Memory, both};
use ob_generic_names::OwnInstance;
use ob_generic_spec::Instance;
use ob_tree::{ContractNode, Tree};
use sqlite_items::at;
use std::alloc::Global;

fn contract_in(
    node: &ContractNode,
    alloc: Global,
    own: &Option<OwnInstance<'_>>,
) -> Result<ContractNode, Memory>
    ensures { IfOk result (λ c. contract_of c ≡ contract_in own.now (contract_of node.now)) }
{
    let ((name, implements), members) = both(
        both(
            own_name(&node.name, alloc, own),
            implements_in(&node.implements, alloc, own),
        ),
        members_in(node.members.as_slice(), alloc, own),
    )?;
    Ok(ContractNode {
        main: node.main,
        asset: node.asset,
        interface: node.interface,
        name,
        param: None,
        implements,
        members,
        span: node.span,
        end: node.end,
    })
}

#[tactic(auto, using(crate::proofs::Turns::contracts))]
fn put_plain(
    node: &ContractNode,
    alloc: Global,
    out: &mut Items<ContractNode>,
) -> Result<(), Memory>
    ensures { OnOk result (map contract_of out.new ≡ map contract_of out.old ++ plain_contracts (contract_of node.now)) }
{
    if node.param.is_some() {
        return Ok(());
    }
    out.push(contract_in(node, alloc, &None)?)?;
    Ok(())
}

#[tactic(auto, using(crate::proofs::Turns::contracts))]
fn put_plains(
    nodes: &[ContractNode],
    alloc: Global,
    out: &mut Items<ContractNode>,
) -> Result<(), Memory>
    ensures { OnOk result (map contract_of out.new
        ≡ map contract_of out.old ++ flat_map plain_contracts (map contract_of nodes.now)) }
{
    for node in nodes {
        put_plain(node, alloc, out)?;
    }
    Ok(())
}

fn instance_in(
    node: &ContractNode,
    instance: &Instance,
    alloc: Global,
) -> Result<ContractNode, Memory>
    ensures { let generic = contract_of node.now in
        IfOk result (λ c. contract_of c ≡ contract_in (own_of generic instance.now) generic) }
{
    let own = match &node.param {
        None => None,
        Some(param) => Some(OwnInstance::new(instance, &node.name, param)),
    };
    contract_in(node, alloc, &own)
}

#[tactic(auto, using(crate::proofs::Turns::contracts))]
fn put_instance(
    nodes: &[ContractNode],
    instance: &Instance,
    alloc: Global,
    out: &mut Items<ContractNode>,
) -> Result<(), Memory>
    ensures { OnOk result (map contract_of out.new
        ≡ map contract_of out.old ++ instance_contracts (map contract_of nodes.now) instance.now) }
{
    match at(nodes, instance.contract) {
        None => Ok(()),
        Some(node) => {
            out.push(instance_in(node, instance, alloc)?)?;
            Ok(())
        }
    }
}

#[tactic(auto, using(crate::proofs::Turns::contracts))]
fn put_instances(
    nodes: &[ContractNode],
    instances: &[Instance],
    alloc: Global,
    out: &mut Items<ContractNode>,
) -> Result<(), Memory>
    ensures { OnOk result (map contract_of out.new
        ≡ map contract_of out.old ++ flat_map (instance_contracts (map contract_of nodes.now)) instances.now) }
{
    for instance in instances {
        put_instance(nodes, instance, alloc, out)?;
    }
    Ok(())
}

/// The contracts and interfaces that aren't generic, and then these instances.
#[tactic(auto, using(crate::proofs::Turns::contracts))]
pub fn make_tree(
    nodes: &[ContractNode],
    instances: &[Instance],
    alloc: Global,
) -> Result<Tree, Memory>
    ensures { let program = map contract_of nodes.now in
        IfOk result (λ t. tree_of t
        ≡ flat_map plain_contracts program ++ flat_map (instance_contracts program) instances.now) }
{
    let mut contracts = Items::new(alloc);
    put_plains(nodes, alloc, &mut contracts)?;
    put_instances(nodes, instances, alloc, &mut contracts)?;
    Ok(Tree { contracts })
}
