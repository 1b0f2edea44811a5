//! A whole program.
ghost use Rattle.ob_base.specs.Faults as faults;
ghost use Rattle.std.specs.Prelude.{◌≡◌, ◌&&◌, ◌||◌, [], None, OnOk, IfOk, flat_map};
ghost use Rattle.std.specs.Option.{option_map_or};
ghost use Rattle.ob_resolve_spec.specs.Declarations.{declared_contract};
ghost use Rattle.ob_resolve_spec.specs.MemberSites.{main_sites, contract_sites, sites_of};
ghost use Rattle.ob_resolve_scope.specs.Types.{program_of};
ghost use Rattle.ob_resolve_sites.specs.Noted.{noted_if, noted};

use crate::contract::walk_contract;
use crate::names::contract_names;
use ob_base::{MOST_CONTRACTS, Memory, ProgramFault, TWO_MAINS};
use ob_resolve_members::note_names_within;
use ob_resolve_scope::{AroundBody, Declared};
use ob_resolve_sites::{Least, note_if};
use ob_resolve_spec::InferredKind;
use ob_tree::ContractNode;
use std::alloc::Global;

fn note_main(least: &mut Least, seen: bool, node: &ContractNode)
    ensures { least.new ≡ noted_if least.old (node.now.main && seen) faults.two_mains node.now.span }
{
    note_if(least, node.main && seen, TWO_MAINS, node.span);
}

fn either(a: bool, b: bool) -> bool
    ensures { result ≡ (a || b) }
{
    a || b
}

/// The main contracts, one after another.
#[tactic(auto, using(crate::proofs::ProgramLemmas::programs))]
fn walk_mains(nodes: &[ContractNode], least: &mut Least)
    ensures { least.new ≡ noted least.old (main_sites (program_of nodes.now)) }
{
    let mut seen = false;
    for node in nodes {
        note_main(least, seen, node);
        seen = either(seen, node.main);
    }
}

#[tactic(auto, using(crate::proofs::ProgramLemmas::programs))]
fn walk_contract_at(
    alloc: Global,
    declared: &Declared<'_>,
    number: usize,
    least: &mut Least,
) -> Result<(), Memory>
    ensures { OnOk result (least.new ≡ noted least.old (option_map_or (contract_sites (program_of declared.now)) (declared_contract (program_of declared.now) number) [])) }
{
    match AroundBody::new(declared, number, InferredKind::Nothing) {
        None => Ok(()),
        Some(around) => walk_contract(alloc, &around, least),
    }
}

/// The first fault of the contract or interface of this number among those that don't hang on which others there are: not that of its
/// name, of a second `main`, or of a limit on contracts.
pub fn fault_of_contract(
    alloc: Global,
    declared: &Declared<'_>,
    number: usize,
) -> Result<Option<ProgramFault>, Memory>
    ensures { IfOk result (λ least. least ≡ noted None (option_map_or (contract_sites (program_of declared.now)) (declared_contract (program_of declared.now) number) [])) }
{
    let mut least = None;
    walk_contract_at(alloc, declared, number, &mut least)?;
    Ok(least)
}

#[tactic(auto, using(crate::proofs::ProgramLemmas::programs))]
fn walk_contracts(alloc: Global, declared: &Declared<'_>, least: &mut Least) -> Result<(), Memory>
    ensures { OnOk result (least.new ≡ noted least.old (flat_map (contract_sites (program_of declared.now)) (program_of declared.now))) }
{
    for number in 0..declared.types().len() {
        walk_contract_at(alloc, declared, number, least)?;
    }
    Ok(())
}

#[tactic(auto, using(crate::proofs::ProgramLemmas::programs))]
fn walk_program(alloc: Global, declared: &Declared<'_>, least: &mut Least) -> Result<(), Memory>
    ensures { OnOk result (least.new ≡ noted least.old (sites_of (program_of declared.now))) }
{
    let nodes = declared.types().nodes();
    let names = contract_names(alloc, nodes)?;
    note_names_within(alloc, MOST_CONTRACTS, names.as_slice(), least)?;
    walk_mains(nodes, least);
    walk_contracts(alloc, declared, least)
}

/// The least fault of a program, if there is one: the one of the least place, and of the least number at that place.
pub fn find_least(alloc: Global, declared: &Declared<'_>) -> Result<Least, Memory>
    ensures { IfOk result (λ l. l ≡ noted None (sites_of (program_of declared.now))) }
{
    let mut least = None;
    walk_program(alloc, declared, &mut least)?;
    Ok(least)
}
