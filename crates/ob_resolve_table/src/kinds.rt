//! Types and names as they stand in the table (Coblenz et al., TOPLAS 42(3), 2020, "Types").
ghost use Rattle.std.specs.Prelude.{◌≡◌, option_map, IfOk};
ghost use Rattle.ob_tree.specs.NamesView.{ref_of, type_of};
ghost use Rattle.ob_resolve_spec.specs.TableOf.{resolved_type, written_at_end, exit_of_type};
ghost use Rattle.ob_resolve_scope.specs.Types.{program_of};
ghost use Rattle.ob_resolve_table.specs.Parts.{perm_on_ref};

use ob_base::{Memory, Mode, Name, Perm, Text};
use ob_resolve_bodies::{contract_id, perm_on};
use ob_resolve_scope::Types;
use ob_table::ResolvedType;
use ob_tree::{PermNode, RefNode, TypeNode};
use std::alloc::Global;

/// The permission of one that has no say.
pub const UNOWNED: Perm = Perm {
    mode: Mode::Unowned,
    states: 0,
};

/// A name of the table. Each name of a program's text is one: any other bytes count as want of memory.
pub fn table_name(name: &Text, alloc: Global) -> Result<Name, Memory>
    ensures { IfOk result (λ copy. copy ≡ name.now) }
{
    match Name::of(alloc, name.as_bytes()) {
        Ok(name) => Ok(name),
        Err(_) => Err(Memory),
    }
}

/// The permission at the end, which is that at the start unless another is written.
pub fn written_at_end<'a>(entry: &'a PermNode, exit: &'a Option<PermNode>) -> &'a PermNode
    ensures { result.now ≡ written_at_end entry.now exit.now }
{
    match exit {
        None => entry,
        Some(exit) => exit,
    }
}

/// A permission on the contract that a reference's type names.
#[tactic(auto, using(ob_tree::specs::MembersView::views))]
pub fn perm_of_ref(types: &Types<'_>, of: &RefNode, perm: &PermNode) -> Result<Perm, Memory>
    ensures { IfOk result (λ p. p ≡ perm_on_ref (program_of types.now) (ref_of of.now) perm.now) }
{
    perm_on(types, types.find(of.of.name.as_bytes()), perm)
}

/// A type with its permission.
#[tactic(auto, using(ob_tree::specs::MembersView::views))]
pub fn resolved_type(types: &Types<'_>, of: &TypeNode) -> Result<ResolvedType, Memory>
    ensures { IfOk result (λ kind. kind ≡ resolved_type (program_of types.now) (type_of of.now)) }
{
    match of {
        TypeNode::Int(_) => Ok(ResolvedType::Int),
        TypeNode::Bool(_) => Ok(ResolvedType::Bool),
        TypeNode::Text(_) => Ok(ResolvedType::Text),
        TypeNode::Reference(of) => {
            let contract = contract_id(types.find(of.of.name.as_bytes()))?;
            Ok(ResolvedType::Reference(contract, perm_of_ref(types, of, &of.perm)?))
        }
    }
}

/// The permission at the end of a parameter of this type: of a value, Unowned.
#[tactic(auto, using(ob_tree::specs::MembersView::views))]
pub fn exit_of_type(
    types: &Types<'_>,
    of: &TypeNode,
    exit: &Option<PermNode>,
) -> Result<Perm, Memory>
    ensures { IfOk result (λ p. p ≡ exit_of_type (program_of types.now) (type_of of.now) exit.now) }
{
    match of {
        TypeNode::Int(_) | TypeNode::Bool(_) | TypeNode::Text(_) => Ok(UNOWNED),
        TypeNode::Reference(of) => perm_of_ref(types, of, written_at_end(&of.perm, exit)),
    }
}

/// A type that may be missing.
pub fn table_kind_if(
    types: &Types<'_>,
    of: &Option<TypeNode>,
) -> Result<Option<ResolvedType>, Memory>
    ensures { IfOk result (λ kind. kind ≡ option_map (resolved_type (program_of types.now)) (option_map type_of of.now)) }
{
    match of {
        None => Ok(None),
        Some(of) => Ok(Some(resolved_type(types, of)?)),
    }
}
