//! The types in members.
ghost use Rattle.std.specs.Prelude.{◌≡◌, [], map, flat_map, option_map, OnOk};
ghost use Rattle.std.specs.Option.{option_map_or};
ghost use Rattle.ob_tree.specs.NamesView.{ref_of, type_of};
ghost use Rattle.ob_tree.specs.StmtsView.{block_of};
ghost use Rattle.ob_tree.specs.MembersView.{field_of, formal_of, listed_of, member_of};
ghost use Rattle.ob_generic_spec.specs.Uses.{types_in_ref, types_in_type, types_in_field, types_in_formal, types_in_listed, types_in_block, types_in_member};
ghost use Rattle.ob_generic_spec.specs.declared.role.Role.TheVariants.{OfOwn, Anywhere};
ghost use Rattle.ob_generic_walk.specs.Seen.{met};

use crate::found::Found;
use crate::statements::walk_block;
use crate::visiting::visit;
use ob_base::Memory;
use ob_generic_names::AroundType;
use ob_generic_spec::Role;
use ob_tree::{Block, FieldNode, FormalNode, ListedNode, Member, RefNode, Subject, TypeNode};
use std::alloc::Global;

#[tactic(auto, using(ob_tree::specs::NamesView::name_views))]
fn walk_ref(
    of: &RefNode,
    role: Role,
    alloc: Global,
    around: &AroundType<'_>,
    found: &mut Found,
) -> Result<(), Memory>
    ensures { OnOk result (found.new ≡ met around.now found.old (types_in_ref role (ref_of of.now))) }
{
    visit(&of.of, role, alloc, around, found)
}

fn walk_type(
    of: &TypeNode,
    role: Role,
    alloc: Global,
    around: &AroundType<'_>,
    found: &mut Found,
) -> Result<(), Memory>
    ensures { OnOk result (found.new ≡ met around.now found.old (types_in_type role (type_of of.now))) }
{
    match of {
        TypeNode::Int(_) | TypeNode::Bool(_) | TypeNode::Text(_) => Ok(()),
        TypeNode::Reference(of) => walk_ref(of, role, alloc, around, found),
    }
}

fn walk_field(
    field: &FieldNode,
    alloc: Global,
    around: &AroundType<'_>,
    found: &mut Found,
) -> Result<(), Memory>
    ensures { OnOk result (found.new ≡ met around.now found.old (types_in_field (field_of field.now))) }
{
    walk_type(&field.of, Role::Anywhere, alloc, around, found)
}

#[tactic(auto, using(crate::proofs::WalkTurns::turns))]
fn walk_fields(
    fields: &[FieldNode],
    alloc: Global,
    around: &AroundType<'_>,
    found: &mut Found,
) -> Result<(), Memory>
    ensures { OnOk result (found.new ≡ met around.now found.old (flat_map types_in_field (map field_of fields.now))) }
{
    for field in fields {
        walk_field(field, alloc, around, found)?;
    }
    Ok(())
}

fn walk_formal(
    formal: &FormalNode,
    alloc: Global,
    around: &AroundType<'_>,
    found: &mut Found,
) -> Result<(), Memory>
    ensures { OnOk result (found.new ≡ met around.now found.old (types_in_formal (formal_of formal.now))) }
{
    match &formal.name {
        Subject::This(_) => walk_type(&formal.of, Role::OfOwn, alloc, around, found),
        Subject::Name(_) => walk_type(&formal.of, Role::Anywhere, alloc, around, found),
    }
}

#[tactic(auto, using(crate::proofs::WalkTurns::turns))]
fn walk_formals(
    formals: &[FormalNode],
    alloc: Global,
    around: &AroundType<'_>,
    found: &mut Found,
) -> Result<(), Memory>
    ensures { OnOk result (found.new ≡ met around.now found.old (flat_map types_in_formal (map formal_of formals.now))) }
{
    for formal in formals {
        walk_formal(formal, alloc, around, found)?;
    }
    Ok(())
}

#[tactic(auto, using(crate::proofs::WalkTurns::turns))]
fn walk_listed(
    listed: &[ListedNode],
    alloc: Global,
    around: &AroundType<'_>,
    found: &mut Found,
) -> Result<(), Memory>
    ensures { OnOk result (found.new ≡ met around.now found.old (flat_map types_in_listed (map listed_of listed.now))) }
{
    for one in listed {
        walk_ref(&one.of, Role::Anywhere, alloc, around, found)?;
    }
    Ok(())
}

fn walk_result(
    result_type: &Option<TypeNode>,
    alloc: Global,
    around: &AroundType<'_>,
    found: &mut Found,
) -> Result<(), Memory>
    ensures { OnOk result (found.new
        ≡ met around.now found.old (option_map_or (types_in_type Anywhere) (option_map type_of result_type.now) [])) }
{
    match result_type {
        None => Ok(()),
        Some(of) => walk_type(of, Role::Anywhere, alloc, around, found),
    }
}

fn walk_body(
    body: &Option<Block>,
    alloc: Global,
    around: &AroundType<'_>,
    found: &mut Found,
) -> Result<(), Memory>
    ensures { OnOk result (found.new
        ≡ met around.now found.old (option_map_or types_in_block (option_map block_of body.now) [])) }
{
    match body {
        None => Ok(()),
        Some(body) => walk_block(body, alloc, around, found),
    }
}

#[tactic(auto, using(crate::proofs::WalkTurns::turns))]
fn walk_member(
    member: &Member,
    alloc: Global,
    around: &AroundType<'_>,
    found: &mut Found,
) -> Result<(), Memory>
    ensures { OnOk result (found.new ≡ met around.now found.old (types_in_member (member_of member.now))) }
{
    match member {
        Member::State { fields, .. } => walk_fields(fields.as_slice(), alloc, around, found),
        Member::Field(field) => walk_field(field, alloc, around, found),
        Member::Constructor {
            of,
            params,
            body,
            ..
        } => {
            visit(of, Role::OfOwn, alloc, around, found)?;
            walk_formals(params.as_slice(), alloc, around, found)?;
            walk_block(body, alloc, around, found)
        }
        Member::Transaction {
            listed,
            params,
            result,
            body,
            ..
        } => {
            walk_listed(listed.as_slice(), alloc, around, found)?;
            walk_formals(params.as_slice(), alloc, around, found)?;
            walk_result(result, alloc, around, found)?;
            walk_body(body, alloc, around, found)
        }
    }
}

/// The types in the members of a contract or an interface.
#[tactic(auto, using(crate::proofs::WalkTurns::turns))]
pub fn walk_members(
    members: &[Member],
    alloc: Global,
    around: &AroundType<'_>,
    found: &mut Found,
) -> Result<(), Memory>
    ensures { OnOk result (found.new ≡ met around.now found.old (flat_map types_in_member (map member_of members.now))) }
{
    for member in members {
        walk_member(member, alloc, around, found)?;
    }
    Ok(())
}
