//! What the contracts of a program declare.
ghost use Rattle.std.specs.Prelude.{◌≡◌, [], ◌∷◌, ◌++◌, length, map, flat_map, option_map, option_and_then, slice_get, IfOk, OnOk};
ghost use Rattle.std.specs.Option.{option_copied, option_map_or};
ghost use Rattle.ob_tree.specs.MembersView.{formal_of, member_of, contract_of};
ghost use Rattle.ob_table_spec.specs.Names.{number_of};
ghost use Rattle.ob_resolve_spec.specs.Declarations.{declared_contract, fields_of_member, field_names, transactions_of_member, transactions_of, transaction_named, constructors_of_member, constructor_of};
ghost use Rattle.ob_resolve_spec.specs.Kinds.{kinds_of_params};
ghost use Rattle.ob_resolve_spec.specs.Scopes.{kind_of_field};
ghost use Rattle.ob_resolve_spec.specs.declared.kind.InferredKind.TheVariants.{Unknown};
ghost use Rattle.ob_resolve_scope.specs.Numbered.{find, added, numbered_from, numbered};
ghost use Rattle.ob_resolve_scope.specs.Types.{program_of};
ghost use Rattle.ob_resolve_scope.specs.Once.{asked_of, parts_of};
ghost use Rattle.ob_resolve_scope.specs.Members.{kind_of_declaration, kind_of_node, members_of, heading_of, position_in, positions_from, params_of_first};

use crate::asked::{Asked, all_asked};
use crate::members::{Heading, Members};
use crate::names::Names;
use crate::types::Types;
use ob_base::{Items, Memory, both};
use ob_resolve_spec::InferredKind;
use ob_tree::{ContractNode, FieldNode, FormalNode, Member, Subject};
use std::alloc::Global;
use std::marker::Model;

/// The contracts and interfaces of a program, and what each declares.
#[derive(Drop)]
pub struct Declared<'a> {
    types: Types<'a>,
    members: Items<Members>,
    asked: Items<Items<Asked>>,
}

impl<'a> Model for Declared<'a> {
    ghost use Rattle.std.specs.Prelude.{◌≡◌, List, map};
    ghost use Rattle.ob_tree.specs.declared.contract.ContractNode.{ContractNode};
    ghost use Rattle.ob_resolve_scope.specs.Types.{program_of};
    ghost use Rattle.ob_resolve_spec.specs.Declarations.{transactions_of};
    ghost use Rattle.ob_resolve_scope.specs.Members.{members_of};
    ghost use Rattle.ob_resolve_scope.specs.Once.{asked_of, parts_of};
    ghost use Rattle.std.specs.Coded.{codes};
    ghost use Rattle.ob_tree.specs.contracts.name.NamedNode as named;
    ghost use Rattle.ob_tree.specs.contracts.name.RefNode as reference;
    ghost use Rattle.ob_tree.specs.contracts.expr.Expr as expr;
    ghost use Rattle.ob_tree.specs.contracts.expr.CallNode as call;
    ghost use Rattle.ob_tree.specs.contracts.stmt.Stmt as stmt;
    ghost use Rattle.ob_tree.specs.contracts.stmt.Block as block;

    ghost Value = { List ContractNode };

    ghost coded = { Prim.hlevel (
      codes,
      named.the_row.coded,
      reference.the_row.coded,
      expr.the_row.coded,
      call.the_row.coded,
      stmt.the_row.coded,
      block.the_row.coded,
    ) };

    ghost view = { λ d. d.types };

    ghost invariant = { λ d. (d.members ≡ map (members_of (program_of d.types)) (program_of d.types))
        × (map (map parts_of) d.asked ≡ map (λ c. map asked_of (transactions_of c)) (program_of d.types)) };
}

// The kind of a field.
fn kind_in(members: &Members, name: &[u8]) -> InferredKind
    ensures { result ≡ option_map_or (λ k. k) (option_and_then (slice_get members.now.kinds)
        (find name.now members.now.fields)) Unknown }
{
    match members.fields.find(name) {
        Some(number) => match members.kinds.get(number) {
            Some(kind) => *kind,
            None => InferredKind::Unknown,
        },
        None => InferredKind::Unknown,
    }
}

// A transaction.
fn heading_in<'a>(members: &'a Members, name: &[u8]) -> Option<&'a Heading>
    ensures { option_copied result ≡ option_and_then (slice_get members.now.headings)
        (find name.now members.now.transactions) }
{
    match members.transactions.find(name) {
        Some(number) => members.headings.get(number),
        None => None,
    }
}

impl<'a> Declared<'a> {
    /// The contracts and their states.
    pub fn types(&self) -> &Types<'a>
        ensures { result.now ≡ self.now }
    {
        &self.types
    }

    /// What the contract or interface of this number declares.
    #[tactic(auto, using(crate::proofs::MembersLemmas::members))]
    pub fn members(&self, contract: usize) -> Option<&Members>
        ensures { option_copied result ≡ option_map (members_of (program_of self.now))
            (declared_contract (program_of self.now) contract) }
    {
        self.members.get(contract)
    }

    /// What the transactions of the contract or interface of this number ask.
    #[tactic(auto, using(crate::proofs::OnceTurns::asking))]
    pub fn asked(&self, contract: usize) -> Option<&Items<Asked>>
        ensures { option_map (map parts_of) (option_copied result) ≡ option_map (λ c. map asked_of (transactions_of c))
            (declared_contract (program_of self.now) contract) }
    {
        self.asked.get(contract)
    }

    /// The number of the first field of this name.
    pub fn field(&self, contract: usize, name: &[u8]) -> Option<usize>
        ensures { result ≡ option_and_then (λ c. number_of name.now (field_names c))
            (declared_contract (program_of self.now) contract) }
    {
        match self.members(contract) {
            Some(members) => members.fields.find(name),
            None => None,
        }
    }

    /// Its kind.
    pub fn kind_of_field(&self, contract: usize, name: &[u8]) -> InferredKind
        ensures { result ≡ option_map_or (λ c. kind_of_field (program_of self.now) c name.now)
            (declared_contract (program_of self.now) contract) Unknown }
    {
        match self.members(contract) {
            Some(members) => kind_in(members, name),
            None => InferredKind::Unknown,
        }
    }

    /// The place of the first transaction of this name among the transactions.
    pub fn transaction(&self, contract: usize, name: &[u8]) -> Option<usize>
        ensures { result ≡ option_and_then (λ c. number_of name.now (map (λ t. t.name.name) (transactions_of c)))
            (declared_contract (program_of self.now) contract) }
    {
        match self.members(contract) {
            Some(members) => members.transactions.find(name),
            None => None,
        }
    }

    /// The first transaction of this name.
    pub fn heading(&self, contract: usize, name: &[u8]) -> Option<&Heading>
        ensures { option_copied result ≡ option_map (heading_of (program_of self.now))
            (option_and_then (λ c. transaction_named c name.now) (declared_contract (program_of self.now) contract)) }
    {
        match self.members(contract) {
            Some(members) => heading_in(members, name),
            None => None,
        }
    }
}

// The kinds of parameters.
#[tactic(auto, using(crate::proofs::BuildLemmas::turns))]
fn param_kinds(
    params: &[FormalNode],
    types: &Types<'_>,
    alloc: Global,
) -> Result<Items<InferredKind>, Memory>
    ensures { IfOk result (λ kinds. kinds ≡ kinds_of_params (program_of types.now) (map formal_of params.now)) }
{
    let mut kinds = Items::new(alloc);
    for param in params {
        if let Subject::Name(_) = &param.name {
            kinds.push(types.kind_of_type(&param.of))?;
        }
    }
    Ok(kinds)
}

// One more field.
fn add_field(
    field: &FieldNode,
    types: &Types<'_>,
    alloc: Global,
    names: &mut Names,
    kinds: &mut Items<InferredKind>,
) -> Result<(), Memory>
    ensures names { OnOk result (names.new ≡ added names.old field.now.name.name (length kinds.old)) }
    ensures kinds { OnOk result (kinds.new ≡ kinds.old ++ kind_of_node (program_of types.now) field.now ∷ []) }
{
    names.add(alloc, field.name.name.as_bytes(), kinds.len())?;
    Ok(kinds.push(types.kind_of_type(&field.of))?)
}

// More fields.
#[tactic(auto, using(crate::proofs::BuildLemmas::field_names_turn, crate::proofs::BuildLemmas::field_kinds_turn))]
fn add_fields(
    fields: &[FieldNode],
    types: &Types<'_>,
    alloc: Global,
    names: &mut Names,
    kinds: &mut Items<InferredKind>,
) -> Result<(), Memory>
    ensures names { OnOk result (names.new ≡ numbered_from names.old (length kinds.old)
        (map (λ f. f.name.name) fields.now)) }
    ensures kinds { OnOk result (kinds.new ≡ kinds.old ++ map (kind_of_node (program_of types.now)) fields.now) }
{
    for field in fields {
        add_field(field, types, alloc, names, kinds)?;
    }
    Ok(())
}

// The fields that a member declares.
#[tactic(auto, using(crate::proofs::BuildLemmas::parts))]
fn add_fields_of_member(
    member: &Member,
    types: &Types<'_>,
    alloc: Global,
    names: &mut Names,
    kinds: &mut Items<InferredKind>,
) -> Result<(), Memory>
    ensures names { OnOk result (names.new ≡ numbered_from names.old (length kinds.old)
        (map (λ f. f.field.name.name) (fields_of_member (member_of member.now)))) }
    ensures kinds { OnOk result (kinds.new ≡ kinds.old ++ map (kind_of_declaration (program_of types.now))
        (fields_of_member (member_of member.now))) }
{
    match member {
        Member::State { fields, .. } => add_fields(fields.as_slice(), types, alloc, names, kinds),
        Member::Field(field) => add_field(field, types, alloc, names, kinds),
        Member::Constructor { .. } => Ok(()),
        Member::Transaction { .. } => Ok(()),
    }
}

// The fields that members declare, with their kinds.
#[tactic(auto, using(crate::proofs::BuildLemmas::fields_names_turn, crate::proofs::BuildLemmas::fields_kinds_turn))]
fn fields_of(
    members: &[Member],
    types: &Types<'_>,
    alloc: Global,
) -> Result<(Names, Items<InferredKind>), Memory>
    ensures names { IfOk result (λ fields. fields.0
        ≡ numbered (map (λ f. f.field.name.name) (flat_map fields_of_member (map member_of members.now)))) }
    ensures kinds { IfOk result (λ fields. fields.1
        ≡ map (kind_of_declaration (program_of types.now)) (flat_map fields_of_member (map member_of members.now))) }
{
    let mut names = Names::new(alloc);
    let mut kinds = Items::new(alloc);
    for member in members {
        add_fields_of_member(member, types, alloc, &mut names, &mut kinds)?;
    }
    Ok((names, kinds))
}

// The transaction that a member is.
fn add_transaction(
    member: &Member,
    types: &Types<'_>,
    alloc: Global,
    names: &mut Names,
    headings: &mut Items<Heading>,
) -> Result<(), Memory>
    ensures names { OnOk result (names.new ≡ numbered_from names.old (length headings.old)
        (map (λ t. t.name.name) (transactions_of_member (member_of member.now)))) }
    ensures headings { OnOk result (headings.new ≡ headings.old ++ map (heading_of (program_of types.now))
        (transactions_of_member (member_of member.now))) }
{
    match member {
        Member::Transaction {
            private,
            name,
            params,
            result,
            ..
        } => {
            names.add(alloc, name.name.as_bytes(), headings.len())?;
            Ok(headings.push(Heading {
                private: *private,
                params: param_kinds(params.as_slice(), types, alloc)?,
                result: types.kind_of_result(result),
            })?)
        }
        _ => Ok(()),
    }
}

// The transactions among members.
#[tactic(auto, using(crate::proofs::BuildLemmas::transactions_names_turn, crate::proofs::BuildLemmas::headings_turn))]
fn transactions_of(
    members: &[Member],
    types: &Types<'_>,
    alloc: Global,
) -> Result<(Names, Items<Heading>), Memory>
    ensures names { IfOk result (λ made. made.0 ≡ numbered
        (map (λ t. t.name.name) (flat_map transactions_of_member (map member_of members.now)))) }
    ensures headings { IfOk result (λ made. made.1 ≡ map (heading_of (program_of types.now))
        (flat_map transactions_of_member (map member_of members.now))) }
{
    let mut names = Names::new(alloc);
    let mut headings = Items::new(alloc);
    for member in members {
        add_transaction(member, types, alloc, &mut names, &mut headings)?;
    }
    Ok((names, headings))
}

// The place of a member, if it is a transaction.
#[tactic(auto, using(crate::proofs::BuildLemmas::parts))]
fn add_place(member: &Member, place: usize, places: &mut Items<usize>) -> Result<(), Memory>
    ensures { OnOk result (places.new ≡ places.old ++ position_in place (member_of member.now)) }
{
    match member {
        Member::Transaction { .. } => Ok(places.push(place)?),
        _ => Ok(()),
    }
}

// The places of the members that are transactions.
#[tactic(auto, using(crate::proofs::BuildLemmas::places_turn))]
fn places_of(members: &[Member], alloc: Global) -> Result<Items<usize>, Memory>
    ensures { IfOk result (λ places. places ≡ positions_from 0 (map member_of members.now)) }
{
    let mut places = Items::new(alloc);
    for place in 0..members.len() {
        add_place(&members[place], place, &mut places)?;
    }
    Ok(places)
}

// The parameters of a member that is a constructor of the contract of this name.
#[tactic(auto, using(crate::proofs::BuildLemmas::parts))]
fn constructor_params<'a>(member: &'a Member, name: &[u8]) -> Option<&'a Items<FormalNode>>
    ensures { option_map (map formal_of) (option_copied result)
        ≡ params_of_first name.now (constructors_of_member (member_of member.now)) }
{
    match member {
        Member::Constructor { of, params, .. } => {
            if of.name.as_bytes() == name {
                Some(params)
            } else {
                None
            }
        }
        _ => None,
    }
}

// The parameters of the first constructor among the members of the contract of this name.
#[tactic(auto, using(crate::proofs::BuildLemmas::constructors_turn))]
fn first_constructor<'a>(members: &'a [Member], name: &[u8]) -> Option<&'a Items<FormalNode>>
    ensures { option_map (map formal_of) (option_copied result)
        ≡ params_of_first name.now (flat_map constructors_of_member (map member_of members.now)) }
{
    for member in members {
        if let Some(params) = constructor_params(member, name) {
            return Some(params);
        }
    }
    None
}

// The kinds of the parameters of a contract's constructor.
#[tactic(auto, using(crate::proofs::BuildLemmas::parts))]
fn constructor_kinds(
    node: &ContractNode,
    types: &Types<'_>,
    alloc: Global,
) -> Result<Items<InferredKind>, Memory>
    ensures { IfOk result (λ kinds. kinds ≡ kinds_of_params (program_of types.now)
        (constructor_of (contract_of node.now)).params) }
{
    match first_constructor(node.members.as_slice(), node.name.as_bytes()) {
        Some(params) => param_kinds(params.as_slice(), types, alloc),
        None => Ok(Items::new(alloc)),
    }
}

// What a contract declares.
fn members_of(node: &ContractNode, types: &Types<'_>, alloc: Global) -> Result<Members, Memory>
    ensures { IfOk result (λ members. members ≡ members_of (program_of types.now) (contract_of node.now)) }
{
    let members = node.members.as_slice();
    match (
        fields_of(members, types, alloc),
        transactions_of(members, types, alloc),
        places_of(members, alloc),
        constructor_kinds(node, types, alloc),
    ) {
        (Ok((fields, kinds)), Ok((transactions, headings)), Ok(places), Ok(constructor)) => {
            Ok(Members {
                fields,
                kinds,
                transactions,
                headings,
                places,
                constructor,
            })
        }
        _ => Err(Memory),
    }
}

// What each contract declares.
#[tactic(auto, using(crate::proofs::BuildLemmas::all_members_turn))]
fn all_members(
    nodes: &[ContractNode],
    types: &Types<'_>,
    alloc: Global,
) -> Result<Items<Members>, Memory>
    ensures { IfOk result (λ all. all ≡ map (members_of (program_of types.now)) (program_of nodes.now)) }
{
    let mut all = Items::new(alloc);
    for node in nodes {
        all.push(members_of(node, types, alloc)?)?;
    }
    Ok(all)
}

impl<'a> Declared<'a> {
    /// What these contracts and interfaces declare.
    pub fn new(alloc: Global, nodes: &'a [ContractNode]) -> Result<Declared<'a>, Memory>
        ensures { IfOk result (λ declared. declared ≡ nodes.now) }
    {
        let types = Types::new(alloc, nodes)?;
        let (members, asked) = both(all_members(nodes, &types, alloc), all_asked(nodes, alloc))?;
        Ok(Declared {
            types,
            members,
            asked,
        })
    }
}
