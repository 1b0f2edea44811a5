//! The contracts of a program and their states, and what written types denote.
ghost use Rattle.std.specs.Prelude.{◌≡◌, false, length, map, flat_map, slice_get, is_some, option_map, option_and_then, IfOk, OnOk};
ghost use Rattle.std.specs.List.{list_all};
ghost use Rattle.std.specs.Option.{option_copied, option_map_or};
ghost use Rattle.ob_tree.specs.NamesView.{ref_of, type_of};
ghost use Rattle.ob_tree.specs.StmtsView.{local_of};
ghost use Rattle.ob_tree.specs.Members.{Contract};
ghost use Rattle.ob_tree.specs.MembersView.{member_of, contract_of};
ghost use Rattle.ob_table_spec.specs.Names.{number_of};
ghost use Rattle.ob_resolve_spec.specs.Declarations.{declared_contract, number_of_contract, states_of_member, state_names};
ghost use Rattle.ob_resolve_spec.specs.Permissions.{is_of};
ghost use Rattle.ob_resolve_scope.specs.Types.{program_of, states_named, with_states, referring, interface_at};
ghost use Rattle.ob_resolve_spec.specs.Kinds.{kind_of_name, kind_of_ref, kind_of_type, kind_of_local, kind_of_result, interface_of, implements, differs};
ghost use Rattle.ob_resolve_scope.specs.Numbered.{find, numbered};

use crate::members::States;
use crate::names::Names;
use ob_base::{Items, Memory};
use ob_resolve_spec::InferredKind;
use ob_tree::{ContractNode, LocalType, Member, NamePart, PermNode, RefNode, TypeNode};
use std::alloc::Global;
use std::marker::Model;

/// The contracts and interfaces of a program by name, and the states of each.
#[derive(Drop)]
pub struct Types<'a> {
    nodes: &'a [ContractNode],
    contracts: Names,
    states: Items<States>,
}

impl<'a> Model for Types<'a> {
    ghost use Rattle.std.specs.Prelude.{List};
    ghost use Rattle.ob_tree.specs.declared.contract.ContractNode.{ContractNode};
    ghost use Rattle.ob_resolve_scope.specs.Types.{AreTypes};
    ghost use Rattle.std.specs.Coded.{codes};
    ghost use Rattle.ob_tree.specs.contracts.name.NamedNode as named;
    ghost use Rattle.ob_tree.specs.contracts.name.RefNode as reference;
    ghost use Rattle.ob_tree.specs.contracts.expr.Expr as expr;
    ghost use Rattle.ob_tree.specs.contracts.expr.CallNode as call;
    ghost use Rattle.ob_tree.specs.contracts.stmt.Stmt as stmt;
    ghost use Rattle.ob_tree.specs.contracts.stmt.Block as block;

    ghost Value = { List ContractNode };

    ghost coded = { Prim.hlevel (
      codes,
      named.the_row.coded,
      reference.the_row.coded,
      expr.the_row.coded,
      call.the_row.coded,
      stmt.the_row.coded,
      block.the_row.coded,
    ) };

    ghost view = { λ t. t.nodes.now };

    ghost invariant = { λ t. AreTypes t.nodes.now t.contracts t.states };
}

// Whether each of these states is one of the names.
fn are_named(states: &[NamePart], names: &Names) -> bool
    ensures { result ≡ list_all (λ s. is_some (find s.name names.now)) states.now }
{
    for state in states {
        if names.find(state.name.as_bytes()).is_none() {
            return false;
        }
    }
    true
}

#[tactic(auto, using(crate::proofs::TypesLemmas::types))]
fn is_named(perm: &PermNode, names: &Names) -> bool
    ensures { (c : Contract) → names.now ≡ numbered (state_names c) → result ≡ is_of c perm.now }
{
    match perm {
        PermNode::Mode(_, _) => true,
        PermNode::States(states) => are_named(states.as_slice(), names),
    }
}

impl<'a> Types<'a> {
    /// How many contracts and interfaces there are.
    pub fn len(&self) -> usize
        ensures { result ≡ length self.now }
    {
        self.nodes.len()
    }

    /// The contracts and interfaces, as they are written.
    pub fn nodes(&self) -> &'a [ContractNode]
        ensures { result.now ≡ self.now }
    {
        self.nodes
    }

    /// The contract or interface of this number, as it is written.
    pub fn node(&self, number: usize) -> Option<&'a ContractNode>
        ensures { option_copied result ≡ slice_get self.now number }
    {
        self.nodes.get(number)
    }

    /// The number of the first contract or interface of this name.
    #[tactic(auto, using(crate::proofs::TypesLemmas::types))]
    pub fn find(&self, name: &[u8]) -> Option<usize>
        ensures { result ≡ number_of_contract (program_of self.now) name.now }
    {
        self.contracts.find(name)
    }

    #[tactic(auto, using(crate::proofs::TypesLemmas::types))]
    fn states_at(&self, contract: usize) -> Option<&States>
        ensures { option_copied result ≡ option_map (λ c. states_named (state_names c))
            (declared_contract (program_of self.now) contract) }
    {
        self.states.get(contract)
    }

    /// The numbers of a contract's states by name.
    pub fn states(&self, contract: usize) -> Option<&Names>
        ensures { option_copied result ≡ option_map (λ c. numbered (state_names c))
            (declared_contract (program_of self.now) contract) }
    {
        match self.states_at(contract) {
            Some(states) => Some(&states.names),
            None => None,
        }
    }

    /// How many states the contract of this number names.
    pub fn count_of_states(&self, contract: usize) -> Option<usize>
        ensures { result ≡ option_map (λ c. length (state_names c)) (declared_contract (program_of self.now) contract) }
    {
        match self.states_at(contract) {
            Some(states) => Some(states.count),
            None => None,
        }
    }

    /// The number of the first state of this name of a contract.
    pub fn state(&self, contract: usize, name: &[u8]) -> Option<usize>
        ensures { result ≡ option_and_then (λ c. number_of name.now (state_names c))
            (declared_contract (program_of self.now) contract) }
    {
        match self.states(contract) {
            Some(names) => names.find(name),
            None => None,
        }
    }

    /// Whether each state that a permission names is one of the contract's.
    #[tactic(auto, using(crate::proofs::TypesLemmas::types))]
    pub fn is_of(&self, contract: usize, perm: &PermNode) -> bool
        ensures { result ≡ option_map_or (λ c. is_of c perm.now) (declared_contract (program_of self.now) contract) false }
    {
        match self.states(contract) {
            Some(names) => is_named(perm, names),
            None => false,
        }
    }

    /// A reference to the contract of this name.
    pub fn kind_of_name(&self, name: &[u8]) -> InferredKind
        ensures { result ≡ kind_of_name (program_of self.now) name.now }
    {
        match self.find(name) {
            Some(contract) => InferredKind::Reference(contract),
            None => InferredKind::Unknown,
        }
    }

    // A reference to this contract with this permission, which must be one of that contract.
    fn referring(&self, contract: Option<usize>, perm: &PermNode) -> InferredKind
        ensures { result ≡ referring (program_of self.now) contract perm.now }
    {
        match contract {
            None => InferredKind::Unknown,
            Some(contract) => {
                if self.is_of(contract, perm) {
                    InferredKind::Reference(contract)
                } else {
                    InferredKind::Unknown
                }
            }
        }
    }

    /// A reference to the contract of this name, with a permission of that contract.
    #[tactic(auto, using(crate::proofs::TypesLemmas::kinds))]
    pub fn kind_of_ref(&self, of: &RefNode) -> InferredKind
        ensures { result ≡ kind_of_ref (program_of self.now) (ref_of of.now) }
    {
        self.referring(self.find(of.of.name.as_bytes()), &of.perm)
    }

    /// The kind of a type.
    pub fn kind_of_type(&self, of: &TypeNode) -> InferredKind
        ensures { result ≡ kind_of_type (program_of self.now) (type_of of.now) }
    {
        match of {
            TypeNode::Int(_) => InferredKind::Int,
            TypeNode::Bool(_) => InferredKind::Bool,
            TypeNode::Text(_) => InferredKind::Text,
            TypeNode::Reference(of) => self.kind_of_ref(of),
        }
    }

    /// The kind of a local variable's type.
    #[tactic(auto, using(crate::proofs::TypesLemmas::kinds))]
    pub fn kind_of_local(&self, of: &LocalType) -> InferredKind
        ensures { result ≡ kind_of_local (program_of self.now) (local_of of.now) }
    {
        match of {
            LocalType::Int(_) => InferredKind::Int,
            LocalType::Bool(_) => InferredKind::Bool,
            LocalType::Text(_) => InferredKind::Text,
            LocalType::Named(of) => self.kind_of_name(of.name.as_bytes()),
        }
    }

    /// The kind of a result, which may be missing.
    pub fn kind_of_result(&self, of: &Option<TypeNode>) -> InferredKind
        ensures { result ≡ kind_of_result (program_of self.now) (option_map type_of of.now) }
    {
        match of {
            None => InferredKind::Nothing,
            Some(of) => self.kind_of_type(of),
        }
    }

    /// Whether the contract of this number is an interface.
    #[tactic(auto, using(crate::proofs::TypesLemmas::types))]
    pub fn is_interface(&self, contract: usize) -> bool
        ensures { result ≡ option_map_or (λ c. c.interface) (declared_contract (program_of self.now) contract) false }
    {
        match self.node(contract) {
            Some(node) => node.interface,
            None => false,
        }
    }

    fn interface_at(&self, contract: Option<usize>) -> Option<usize>
        ensures { result ≡ interface_at (program_of self.now) contract }
    {
        match contract {
            None => None,
            Some(contract) => {
                if self.is_interface(contract) {
                    Some(contract)
                } else {
                    None
                }
            }
        }
    }

    #[tactic(auto, using(crate::proofs::TypesLemmas::kinds))]
    fn implemented(&self, node: &ContractNode) -> Option<usize>
        ensures { result ≡ interface_of (program_of self.now) (contract_of node.now) }
    {
        match &node.implements {
            None => None,
            Some(named) => self.interface_at(self.find(named.name.as_bytes())),
        }
    }

    /// The interface that the contract of this number implements.
    #[tactic(auto, using(crate::proofs::TypesLemmas::types))]
    pub fn interface_of(&self, contract: usize) -> Option<usize>
        ensures { result ≡ option_and_then (interface_of (program_of self.now))
            (declared_contract (program_of self.now) contract) }
    {
        match self.node(contract) {
            None => None,
            Some(node) => self.implemented(node),
        }
    }

    fn implements(&self, contract: usize, interface: usize) -> bool
        ensures { result ≡ implements (program_of self.now) contract interface }
    {
        match self.interface_of(contract) {
            None => false,
            Some(implemented) => interface == implemented,
        }
    }

    /// Whether a value of the second kind can't stand where one of the first is needed.
    pub fn differs(&self, wanted: InferredKind, has: InferredKind) -> bool
        ensures { result ≡ differs (program_of self.now) wanted has }
    {
        match (wanted, has) {
            (InferredKind::Unknown, _) => false,
            (_, InferredKind::Unknown) => false,
            (InferredKind::Int, InferredKind::Int) => false,
            (InferredKind::Bool, InferredKind::Bool) => false,
            (InferredKind::Text, InferredKind::Text) => false,
            (InferredKind::Reference(wanted), InferredKind::Reference(has)) => {
                !(wanted == has || self.implements(has, wanted))
            }
            _ => true,
        }
    }
}

// The names of contracts.
#[tactic(auto, using(crate::proofs::BuildLemmas::contracts_turn))]
fn contract_names(nodes: &[ContractNode], alloc: Global) -> Result<Names, Memory>
    ensures { IfOk result (λ names. names ≡ numbered (map (λ c. c.name) (program_of nodes.now))) }
{
    let mut names = Names::new(alloc);
    for number in 0..nodes.len() {
        names.add(alloc, nodes[number].name.as_bytes(), number)?;
    }
    Ok(names)
}

// The state that a member names.
fn add_state(member: &Member, alloc: Global, states: &mut States) -> Result<(), Memory>
    ensures { OnOk result (states.new ≡ with_states states.old
        (map (λ s. s.name) (states_of_member (member_of member.now)))) }
{
    match member {
        Member::State { name, .. } => {
            let count = states.count.checked_add(1).ok_or(Memory)?;
            states.names.add(alloc, name.name.as_bytes(), states.count)?;
            states.count = count;
            Ok(())
        }
        _ => Ok(()),
    }
}

// The states that members name.
#[tactic(auto, using(crate::proofs::BuildLemmas::states_turn))]
fn states_of(members: &[Member], alloc: Global) -> Result<States, Memory>
    ensures { IfOk result (λ states. states ≡ states_named
        (map (λ s. s.name) (flat_map states_of_member (map member_of members.now)))) }
{
    let mut states = States {
        names: Names::new(alloc),
        count: 0,
    };
    for member in members {
        add_state(member, alloc, &mut states)?;
    }
    Ok(states)
}

// The states of each contract.
#[tactic(auto, using(crate::proofs::BuildLemmas::all_states_turn))]
fn all_states(nodes: &[ContractNode], alloc: Global) -> Result<Items<States>, Memory>
    ensures { IfOk result (λ all. all ≡ map (λ c. states_named (state_names c)) (program_of nodes.now)) }
{
    let mut all = Items::new(alloc);
    for node in nodes {
        all.push(states_of(node.members.as_slice(), alloc)?)?;
    }
    Ok(all)
}

impl<'a> Types<'a> {
    /// The contracts and interfaces of a program.
    pub fn new(alloc: Global, nodes: &'a [ContractNode]) -> Result<Types<'a>, Memory>
        ensures { IfOk result (λ types. types ≡ nodes.now) }
    {
        Ok(Types {
            nodes,
            contracts: contract_names(nodes, alloc)?,
            states: all_states(nodes, alloc)?,
        })
    }
}
