//! What transactions ask of those that answer them: their types, in which each state of a permission stands once. So a
//! long permission is walked once, and not for each contract that answers.
ghost use Rattle.std.specs.Prelude.{◌≡◌, [], ◌∷◌, ◌++◌, map, flat_map, is_some, option_map, IfOk, OnOk, if◌then◌else◌};
ghost use Rattle.ob_tree.specs.Names.{ref_type};
ghost use Rattle.ob_tree.specs.NamesView.{ref_of, type_of};
ghost use Rattle.ob_tree.specs.MembersView.{formal_of, member_of, contract_of};
ghost use Rattle.ob_table_spec.specs.Names.{firsts};
ghost use Rattle.ob_resolve_spec.specs.Declarations.{transactions_of_member, transactions_of};
ghost use Rattle.ob_resolve_scope.specs.Numbered.{find, added};
ghost use Rattle.ob_resolve_scope.specs.Types.{program_of};
ghost use Rattle.ob_resolve_scope.specs.Once.{perm_once, type_once, formal_once, asked_of, parts_of};

use crate::names::Names;
use ob_base::{Duplicate, Items, Memory, both};
use ob_tree::{ContractNode, FormalNode, Member, NamePart, PermNode, RefNode, TypeNode};
use std::alloc::Global;

/// The parameters and the result of a transaction, with each state of a permission once.
#[derive(Drop)]
pub struct Asked {
    /// The parameters, with `this`.
    pub params: Items<FormalNode>,
    /// The type of the result, if there is one.
    pub result: Option<TypeNode>,
}

// Adds a state, unless one of its name was seen.
fn add_state(
    state: &NamePart,
    alloc: Global,
    place: usize,
    seen: &mut Names,
    once: &mut Items<NamePart>,
) -> Result<(), Memory>
    ensures seen { OnOk result (seen.new ≡ added seen.old state.now.name place) }
    ensures once { OnOk result (once.new ≡ once.old
        ++ (if is_some (find state.now.name seen.old) then [] else state.now ∷ [])) }
{
    let name = state.name.as_bytes();
    if seen.find(name).is_none() {
        once.push(state.copy(alloc)?)?;
    }
    seen.add(alloc, name, place)
}

// The states, of which each name's first is kept.
#[tactic(auto, using(crate::proofs::OnceTurns::states))]
fn states_once(states: &[NamePart], alloc: Global) -> Result<Items<NamePart>, Memory>
    ensures { IfOk result (λ once. once ≡ firsts (λ s. s.name) states.now) }
{
    let mut seen = Names::new(alloc);
    let mut once = Items::new(alloc);
    for place in 0..states.len() {
        add_state(&states[place], alloc, place, &mut seen, &mut once)?;
    }
    Ok(once)
}

fn perm_once(perm: &PermNode, alloc: Global) -> Result<PermNode, Memory>
    ensures { IfOk result (λ once. once ≡ perm_once perm.now) }
{
    match perm {
        PermNode::Mode(mode, span) => Ok(PermNode::Mode(*mode, *span)),
        PermNode::States(states) => Ok(PermNode::States(states_once(states.as_slice(), alloc)?)),
    }
}

fn exit_once(exit: &Option<PermNode>, alloc: Global) -> Result<Option<PermNode>, Memory>
    ensures { IfOk result (λ once. once ≡ option_map perm_once exit.now) }
{
    match exit {
        None => Ok(None),
        Some(exit) => Ok(Some(perm_once(exit, alloc)?)),
    }
}

#[tactic(auto, using(crate::proofs::OnceTurns::types))]
fn ref_once(of: &RefNode, alloc: Global) -> Result<RefNode, Memory>
    ensures { IfOk result (λ once. ref_type (ref_of once) ≡ type_once (ref_type (ref_of of.now))) }
{
    let (of, perm) = both(of.of.copy(alloc), perm_once(&of.perm, alloc))?;
    Ok(RefNode { of, perm })
}

fn type_once(of: &TypeNode, alloc: Global) -> Result<TypeNode, Memory>
    ensures { IfOk result (λ once. type_of once ≡ type_once (type_of of.now)) }
{
    match of {
        TypeNode::Reference(of) => Ok(TypeNode::Reference(ref_once(of, alloc)?)),
        TypeNode::Int(span) => Ok(TypeNode::Int(*span)),
        TypeNode::Bool(span) => Ok(TypeNode::Bool(*span)),
        TypeNode::Text(span) => Ok(TypeNode::Text(*span)),
    }
}

fn formal_once(formal: &FormalNode, alloc: Global) -> Result<FormalNode, Memory>
    ensures { IfOk result (λ once. formal_of once ≡ formal_once (formal_of formal.now)) }
{
    let ((of, exit), name) = both(
        both(type_once(&formal.of, alloc), exit_once(&formal.exit, alloc)),
        formal.name.copy(alloc),
    )?;
    Ok(FormalNode { of, exit, name })
}

#[tactic(auto, using(crate::proofs::OnceTurns::formals_turn))]
fn formals_once(formals: &[FormalNode], alloc: Global) -> Result<Items<FormalNode>, Memory>
    ensures { IfOk result (λ once. map formal_of once ≡ map formal_once (map formal_of formals.now)) }
{
    let mut once = Items::new(alloc);
    for formal in formals {
        once.push(formal_once(formal, alloc)?)?;
    }
    Ok(once)
}

fn result_once(gives: &Option<TypeNode>, alloc: Global) -> Result<Option<TypeNode>, Memory>
    ensures { IfOk result (λ once. option_map type_of once ≡ option_map type_once (option_map type_of gives.now)) }
{
    match gives {
        None => Ok(None),
        Some(of) => Ok(Some(type_once(of, alloc)?)),
    }
}

// The parameters and the result of a transaction.
fn asked_parts(
    params: &[FormalNode],
    gives: &Option<TypeNode>,
    alloc: Global,
) -> Result<Asked, Memory>
    ensures { IfOk result (λ asked. parts_of asked ≡ record {
      params = map formal_once (map formal_of params.now);
      result = option_map type_once (option_map type_of gives.now);
    }) }
{
    let (params, result) = both(formals_once(params, alloc), result_once(gives, alloc))?;
    Ok(Asked { params, result })
}

// What a member asks, if it is a transaction.
#[tactic(auto, using(crate::proofs::OnceTurns::asked_push))]
fn add_asked(member: &Member, alloc: Global, asked: &mut Items<Asked>) -> Result<(), Memory>
    ensures { OnOk result (map parts_of asked.new ≡ map parts_of asked.old ++ map asked_of (transactions_of_member (member_of member.now))) }
{
    match member {
        Member::Transaction { params, result, .. } => {
            Ok(asked.push(asked_parts(params.as_slice(), result, alloc)?)?)
        }
        _ => Ok(()),
    }
}

// What the transactions among members ask.
#[tactic(auto, using(crate::proofs::OnceTurns::asked_turn))]
fn asked_of(members: &[Member], alloc: Global) -> Result<Items<Asked>, Memory>
    ensures { IfOk result (λ asked. map parts_of asked
        ≡ map asked_of (flat_map transactions_of_member (map member_of members.now))) }
{
    let mut asked = Items::new(alloc);
    for member in members {
        add_asked(member, alloc, &mut asked)?;
    }
    Ok(asked)
}

/// What the transactions of each contract and interface ask.
#[tactic(auto, using(crate::proofs::OnceTurns::all_asked_turn))]
pub fn all_asked(nodes: &[ContractNode], alloc: Global) -> Result<Items<Items<Asked>>, Memory>
    ensures { IfOk result (λ all. map (map parts_of) all ≡ map (λ c. map asked_of (transactions_of c)) (program_of nodes.now)) }
{
    let mut all = Items::new(alloc);
    for node in nodes {
        all.push(asked_of(node.members.as_slice(), alloc)?)?;
    }
    Ok(all)
}
