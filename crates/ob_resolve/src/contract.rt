//! Contracts and interfaces.
ghost use Rattle.std.specs.Prelude.{◌≡◌, [], ◌∷◌, ◌++◌, option_map, option_and_then, OnOk};
ghost use Rattle.std.specs.Option.{option_map_or};
ghost use Rattle.ob_base.specs.Limits.{most_states, most_fields, most_transactions};
ghost use Rattle.ob_tree.specs.NamesView.{named_of};
ghost use Rattle.ob_tree.specs.MembersView.{contract_of};
ghost use Rattle.ob_resolve_spec.specs.Declarations.{part_of_named, declared_contract, states_of, fields_of, constructors_of, transactions_of};
ghost use Rattle.ob_resolve_spec.specs.Visible.{an_interface};
ghost use Rattle.ob_resolve_spec.specs.Sites.{names_thing, implements_interface};
ghost use Rattle.ob_resolve_spec.specs.TypeSites.{declared_sites, limit_sites};
ghost use Rattle.ob_resolve_spec.specs.MemberSites.{declaration_sites, interface_sites, contract_sites};
ghost use Rattle.ob_resolve_scope.specs.Types.{program_of};
ghost use Rattle.ob_resolve_members.specs.Parts.{visible_around};
ghost use Rattle.ob_resolve_sites.specs.Noted.{noted};

use crate::member::walk_members;
use crate::names::{constructor_names, field_names, state_names, transaction_names};
use ob_base::{INTERFACE_MISMATCH, MOST_FIELDS, MOST_STATES, MOST_TRANSACTIONS, Memory};
use ob_resolve_members::{meets, note_names, note_names_within};
use ob_resolve_scope::{AroundBody, Scope};
use ob_resolve_sites::{Least, note_if, note_interface};
use ob_tree::{ContractNode, NamedNode};
use std::alloc::Global;

/// The names of states, and how many there are.
#[tactic(auto, using(crate::proofs::ContractLemmas::contracts))]
fn note_states(alloc: Global, own: &ContractNode, least: &mut Least) -> Result<(), Memory>
    ensures { OnOk result (least.new ≡ noted least.old (declared_sites (λ s. s) [] (states_of (contract_of own.now)) ++ limit_sites (λ s. s) most_states (states_of (contract_of own.now)))) }
{
    let names = state_names(alloc, own.members.as_slice())?;
    note_names_within(alloc, MOST_STATES, names.as_slice(), least)
}

/// The names of fields, and how many there are.
#[tactic(auto, using(crate::proofs::ContractLemmas::contracts))]
fn note_fields(alloc: Global, own: &ContractNode, least: &mut Least) -> Result<(), Memory>
    ensures { OnOk result (least.new ≡ noted least.old (declared_sites (λ f. f.field.name) [] (fields_of (contract_of own.now)) ++ limit_sites (λ f. f.field.name) most_fields (fields_of (contract_of own.now)))) }
{
    let names = field_names(alloc, own.members.as_slice())?;
    note_names_within(alloc, MOST_FIELDS, names.as_slice(), least)
}

/// There is one constructor at most.
#[tactic(auto, using(crate::proofs::ContractLemmas::contracts))]
fn note_constructors(alloc: Global, own: &ContractNode, least: &mut Least) -> Result<(), Memory>
    ensures { OnOk result (least.new ≡ noted least.old (declared_sites (λ m. part_of_named m.of) [] (constructors_of (contract_of own.now)))) }
{
    let names = constructor_names(alloc, own.name.as_bytes(), own.members.as_slice())?;
    note_names(alloc, None, names.as_slice(), least)
}

/// The names of transactions, and how many there are.
#[tactic(auto, using(crate::proofs::ContractLemmas::contracts))]
fn note_transactions(alloc: Global, own: &ContractNode, least: &mut Least) -> Result<(), Memory>
    ensures { OnOk result (least.new ≡ noted least.old (declared_sites (λ t. t.name) [] (transactions_of (contract_of own.now)) ++ limit_sites (λ t. t.name) most_transactions (transactions_of (contract_of own.now)))) }
{
    let names = transaction_names(alloc, own.members.as_slice())?;
    note_names_within(alloc, MOST_TRANSACTIONS, names.as_slice(), least)
}

/// What a contract declares: states, fields, constructors and transactions.
#[tactic(auto, using(crate::proofs::ContractLemmas::contracts))]
fn note_declarations(alloc: Global, own: &ContractNode, least: &mut Least) -> Result<(), Memory>
    ensures { OnOk result (least.new ≡ noted least.old (declaration_sites (contract_of own.now))) }
{
    note_states(alloc, own, least)?;
    note_fields(alloc, own, least)?;
    note_constructors(alloc, own, least)?;
    note_transactions(alloc, own, least)
}

/// The name after `implements`, if there is one.
fn note_implements(
    alloc: Global,
    around: &AroundBody<'_>,
    implements: &Option<NamedNode>,
    least: &mut Least,
)
    ensures { least.new ≡ noted least.old (option_map_or (λ named. names_thing an_interface (visible_around around.now) (part_of_named named) ∷ []) (option_map named_of implements.now) []) }
{
    match implements {
        None => {}
        Some(of) => note_interface(least, around, &Scope::new(alloc), of),
    }
}

/// The contract around has what the interface of this number asks.
#[tactic(auto, using(crate::proofs::ContractLemmas::contracts))]
fn note_meets(
    alloc: Global,
    around: &AroundBody<'_>,
    interface: usize,
    least: &mut Least,
) -> Result<(), Memory>
    ensures { OnOk result (least.new ≡ noted least.old (option_map_or (λ i. implements_interface (program_of around.now.program) i (contract_of around.now.own) around.now.own.span ∷ []) (declared_contract (program_of around.now.program) interface) [])) }
{
    let met = meets(alloc, around, interface)?;
    note_if(least, !met, INTERFACE_MISMATCH, around.node().span);
    Ok(())
}

/// The interface that the contract around names, and what it asks.
#[tactic(auto, using(crate::proofs::ContractLemmas::contracts))]
fn walk_interface(alloc: Global, around: &AroundBody<'_>, least: &mut Least) -> Result<(), Memory>
    ensures { OnOk result (least.new ≡ noted least.old (interface_sites (program_of around.now.program) (contract_of around.now.own))) }
{
    note_implements(alloc, around, &around.node().implements, least);
    match around.declared().types().interface_of(around.number()) {
        None => Ok(()),
        Some(interface) => note_meets(alloc, around, interface, least),
    }
}

/// The contract or interface around: what it declares, its interface, and each member.
#[tactic(auto, using(crate::proofs::ContractLemmas::contracts))]
pub fn walk_contract(
    alloc: Global,
    around: &AroundBody<'_>,
    least: &mut Least,
) -> Result<(), Memory>
    ensures { OnOk result (least.new ≡ noted least.old (contract_sites (program_of around.now.program) (contract_of around.now.own))) }
{
    note_declarations(alloc, around.node(), least)?;
    walk_interface(alloc, around, least)?;
    walk_members(alloc, around, around.node().members.as_slice(), least)
}
