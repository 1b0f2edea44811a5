//! Fields.
ghost use Rattle.std.specs.Prelude.{◌≡◌, [], ◌∷◌, ◌++◌, false, map, flat_map};
ghost use Rattle.std.specs.Option.{option_map_or};
ghost use Rattle.ob_tree.specs.NamesView.{type_of};
ghost use Rattle.ob_tree.specs.MembersView.{field_of, contract_of};
ghost use Rattle.ob_resolve_spec.specs.Declarations.{declared_contract};
ghost use Rattle.ob_resolve_spec.specs.Permissions.{known_permission};
ghost use Rattle.ob_resolve_spec.specs.Sites.{is_inside_state, names_state, holds_object};
ghost use Rattle.ob_resolve_spec.specs.MemberSites.{holder_sites, field_sites};
ghost use Rattle.ob_resolve_scope.specs.Types.{program_of};
ghost use Rattle.ob_resolve_sites.specs.Noted.{noted_at, noted};
ghost use Rattle.ob_resolve_members.specs.Parts.{inside_sites};

use crate::written::{is_owning, walk_type};
use ob_base::{NON_ASSET_OWNER, Span, WRONG_KIND};
use ob_resolve_scope::{AroundBody, Types};
use ob_resolve_sites::{Least, note_if, note_own_states};
use ob_tree::{FieldNode, PermNode, TypeNode};
use std::alloc::Global;

#[tactic(auto, using(crate::proofs::FieldLemmas::fields))]
fn is_asset(types: &Types<'_>, contract: usize) -> bool
    ensures { result ≡ option_map_or (λ c. c.asset) (declared_contract (program_of types.now) contract) false }
{
    match types.node(contract) {
        None => false,
        Some(node) => node.asset,
    }
}

/// A field of the contract around refers to the contract of this number with this permission.
#[tactic(auto, using(crate::proofs::FieldLemmas::fields))]
fn note_holds(
    least: &mut Least,
    around: &AroundBody<'_>,
    contract: usize,
    perm: &PermNode,
    span: Span,
)
    ensures { least.new ≡ noted least.old (option_map_or (λ c. option_map_or (λ p. holds_object (contract_of around.now.own) c p span ∷ []) (known_permission c perm.now) []) (declared_contract (program_of around.now.program) contract) []) }
{
    let types = around.declared().types();
    let owned = is_asset(types, contract) && types.is_of(contract, perm) && is_owning(perm);
    note_if(least, !around.node().asset && owned, NON_ASSET_OWNER, span);
}

/// Whose object a field of this type refers to, and how.
#[tactic(auto, using(crate::proofs::FieldLemmas::fields))]
fn walk_holder(around: &AroundBody<'_>, of: &TypeNode, span: Span, least: &mut Least)
    ensures { least.new ≡ noted least.old (holder_sites (program_of around.now.program) (contract_of around.now.own) (type_of of.now) span) }
{
    match of {
        TypeNode::Int(_) => {}
        TypeNode::Bool(_) => {}
        TypeNode::Text(_) => {}
        TypeNode::Reference(of) => match around.declared().types().find(of.of.name.as_bytes()) {
            None => {}
            Some(contract) => note_holds(least, around, contract, &of.perm, span),
        },
    }
}

/// A field: its type, and whom it owns.
#[tactic(auto, using(ob_resolve_sites::specs::Noted::notes))]
fn walk_field(alloc: Global, around: &AroundBody<'_>, field: &FieldNode, least: &mut Least)
    ensures { least.new ≡ noted least.old (field_sites (program_of around.now.program) (contract_of around.now.own) (field_of field.now)) }
{
    walk_type(alloc, around, &field.of, least);
    walk_holder(around, &field.of, field.name.span, least);
}

/// A field at the top of a contract.
pub fn walk_field_at_top(
    alloc: Global,
    around: &AroundBody<'_>,
    field: &FieldNode,
    least: &mut Least,
)
    ensures { least.new ≡ noted least.old (map (names_state (contract_of around.now.own)) field.now.available ++ field_sites (program_of around.now.program) (contract_of around.now.own) (field_of field.now)) }
{
    note_own_states(least, around, field.available.as_slice());
    walk_field(alloc, around, field, least);
}

/// A field inside a state has no `available in`.
#[tactic(auto, using(crate::proofs::FieldLemmas::fields))]
fn note_inside_state(least: &mut Least, field: &FieldNode)
    ensures { least.new ≡ noted_at least.old (is_inside_state field.now.available field.now.name.span) }
{
    note_if(
        least,
        !field.available.is_empty(),
        WRONG_KIND,
        field.name.span,
    );
}

fn walk_field_inside(alloc: Global, around: &AroundBody<'_>, field: &FieldNode, least: &mut Least)
    ensures { least.new ≡ noted least.old (inside_sites (program_of around.now.program) (contract_of around.now.own) (field_of field.now)) }
{
    note_inside_state(least, field);
    walk_field(alloc, around, field, least);
}

/// The fields inside a state.
#[tactic(auto, using(crate::proofs::FieldLemmas::fields))]
pub fn walk_fields_inside(
    alloc: Global,
    around: &AroundBody<'_>,
    fields: &[FieldNode],
    least: &mut Least,
)
    ensures { least.new ≡ noted least.old (flat_map (inside_sites (program_of around.now.program) (contract_of around.now.own)) (map field_of fields.now)) }
{
    for field in fields {
        walk_field_inside(alloc, around, field, least);
    }
}
