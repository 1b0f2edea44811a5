//! What types ask of the contracts and interfaces of a program.
ghost use Rattle.std.specs.Prelude.{◌≡◌, ◌++◌, map, flat_map, OnOk, IfOk};
ghost use Rattle.ob_tree.specs.MembersView.{member_of, contract_of};
ghost use Rattle.ob_resolve_spec.specs.Declarations.{states_of_member};
ghost use Rattle.ob_generic_spec.specs.Heads.{head_of, heads_of};

use ob_base::{Duplicate, Items, Memory, Text, both, copy_option};
use ob_generic_names::Heads;
use ob_generic_spec::Head;
use ob_tree::{ContractNode, Member};
use std::alloc::Global;

fn put_state(member: &Member, alloc: Global, states: &mut Items<Text>) -> Result<(), Memory>
    ensures { OnOk result (states.new ≡ states.old ++ map (λ s. s.name) (states_of_member (member_of member.now))) }
{
    match member {
        Member::State { name, .. } => {
            states.push(name.name.copy(alloc)?)?;
            Ok(())
        }
        Member::Field(_) | Member::Constructor { .. } | Member::Transaction { .. } => Ok(()),
    }
}

#[tactic(auto, using(crate::proofs::DeclaringTurns::turns))]
fn states_of(members: &[Member], alloc: Global) -> Result<Items<Text>, Memory>
    ensures { IfOk result (λ states. states ≡ map (λ s. s.name) (flat_map states_of_member (map member_of members.now))) }
{
    let mut states = Items::new(alloc);
    for member in members {
        put_state(member, alloc, &mut states)?;
    }
    Ok(states)
}

fn head_of(node: &ContractNode, alloc: Global) -> Result<Head, Memory>
    ensures { IfOk result (λ h. h ≡ head_of (contract_of node.now)) }
{
    let ((name, param), states) = both(
        both(node.name.copy(alloc), copy_option(alloc, &node.param)),
        states_of(node.members.as_slice(), alloc),
    )?;
    Ok(Head {
        name,
        asset: node.asset,
        param,
        states,
    })
}

#[tactic(auto, using(crate::proofs::DeclaringTurns::turns))]
fn heads_of(nodes: &[ContractNode], alloc: Global) -> Result<Items<Head>, Memory>
    ensures { IfOk result (λ heads. heads ≡ heads_of (map contract_of nodes.now)) }
{
    let mut heads = Items::new(alloc);
    for node in nodes {
        heads.push(head_of(node, alloc)?)?;
    }
    Ok(heads)
}

/// The heads of a program's contracts and interfaces.
pub fn declare(nodes: &[ContractNode], alloc: Global) -> Result<Heads, Memory>
    ensures { IfOk result (λ heads. heads ≡ heads_of (map contract_of nodes.now)) }
{
    Heads::new(alloc, heads_of(nodes, alloc)?)
}
