//! The faults of heads: second contracts of one name, bounds, and generic main contracts.
ghost use Rattle.std.specs.Prelude.{◌≡◌, [], map, OnOk};
ghost use Rattle.std.specs.Option.{option_map_or};
ghost use Rattle.ob_tree.specs.MembersView.{contract_of};
ghost use Rattle.ob_table_spec.specs.Names.{in_order};
ghost use Rattle.ob_generic_spec.specs.TypeSites.{bound_sites, head_sites};
ghost use Rattle.ob_generic_walk.specs.Noted.{noted};
ghost use Rattle.ob_generic_walk.specs.HeadNotes.{is_second, with_generic, head_noted, heads_noted};

use ob_base::{DUPLICATE, Memory, PARAM_COUNT, UNKNOWN_NAME};
use ob_generic_names::is_same;
use ob_resolve_scope::Names;
use ob_resolve_sites::{Least, note_if};
use ob_tree::{ContractNode, ParamNode};
use std::alloc::Global;

// Whether a contract or an interface of this name stands before, generic if this one isn't.
fn is_second(node: &ContractNode, all: &Names, generics: &Names) -> bool
    ensures { result ≡ is_second all.now generics.now (contract_of node.now) }
{
    let name = node.name.as_bytes();
    if node.param.is_some() {
        all.find(name).is_some()
    } else {
        generics.find(name).is_some()
    }
}

fn note_bound(param: &ParamNode, least: &mut Least)
    ensures { least.new ≡ noted least.old (bound_sites param.now) }
{
    if let Some((name, _)) = &param.bound {
        let is_other = !is_same(param.perm.name.as_bytes(), name.name.as_bytes());
        note_if(least, is_other, UNKNOWN_NAME, name.span);
    }
}

fn note_param(param: &Option<ParamNode>, least: &mut Least)
    ensures { least.new ≡ noted least.old (option_map_or bound_sites param.now []) }
{
    if let Some(param) = param {
        note_bound(param, least);
    }
}

fn note_head(node: &ContractNode, is_second: bool, least: &mut Least)
    ensures { least.new ≡ head_noted least.old is_second (contract_of node.now) }
{
    note_if(least, is_second, DUPLICATE, node.span);
    let is_generic_main = node.main && node.param.is_some();
    note_if(least, is_generic_main, PARAM_COUNT, node.span);
    note_param(&node.param, least);
}

fn add_generic(node: &ContractNode, alloc: Global, generics: &mut Names) -> Result<(), Memory>
    ensures { OnOk result (generics.new ≡ with_generic generics.old (contract_of node.now)) }
{
    if node.param.is_some() {
        generics.add(alloc, node.name.as_bytes(), 0)?;
    }
    Ok(())
}

#[tactic(auto, using(crate::proofs::HeadTurns::turns))]
fn walk_heads(nodes: &[ContractNode], alloc: Global, least: &mut Least) -> Result<(), Memory>
    ensures { OnOk result (least.new ≡ heads_noted least.old [] [] (map contract_of nodes.now)) }
{
    let mut all = Names::new(alloc);
    let mut generics = Names::new(alloc);
    for node in nodes {
        let is_second = is_second(node, &all, &generics);
        note_head(node, is_second, least);
        all.add(alloc, node.name.as_bytes(), 0)?;
        add_generic(node, alloc, &mut generics)?;
    }
    Ok(())
}

/// Notes the faults of the heads of a program.
#[tactic(auto, using(crate::proofs::HeadTurns::heads))]
pub fn note_heads(nodes: &[ContractNode], alloc: Global, least: &mut Least) -> Result<(), Memory>
    ensures { OnOk result (least.new ≡ noted least.old (in_order head_sites (map contract_of nodes.now))) }
{
    walk_heads(nodes, alloc, least)
}
