//! Members.
ghost use Rattle.std.specs.Prelude.{◌≡◌, [], map, flat_map, option_map, OnOk};
ghost use Rattle.std.specs.Option.{option_map_or};
ghost use Rattle.ob_tree.specs.Members.{constructor_member};
ghost use Rattle.ob_tree.specs.NamesView.{named_of, type_of};
ghost use Rattle.ob_tree.specs.StmtsView.{block_of};
ghost use Rattle.ob_tree.specs.MembersView.{formal_of, listed_of, member_of, contract_of};
ghost use Rattle.ob_resolve_spec.specs.Declarations.{part_of_named};
ghost use Rattle.ob_resolve_spec.specs.Permissions.{known_permission};
ghost use Rattle.ob_resolve_spec.specs.Kinds.{kind_of_result};
ghost use Rattle.ob_resolve_spec.specs.Visible.{itself};
ghost use Rattle.ob_resolve_spec.specs.Sites.{names_thing, gives_object};
ghost use Rattle.ob_resolve_spec.specs.MemberSites.{body_of_params_sites, member_sites};
ghost use Rattle.ob_resolve_scope.specs.Types.{program_of};
ghost use Rattle.ob_resolve_spec.specs.declared.kind.InferredKind.TheVariants.{Nothing};
ghost use Rattle.ob_resolve_sites.specs.Noted.{noted_at, noted};
ghost use Rattle.ob_resolve_members.specs.Parts.{visible_around};
ghost use Rattle.ob_resolve.specs.Transactions.{transaction_sites};

use ob_base::{BAD_EXIT, Memory, Span};
use ob_resolve_members::{
    is_unowned, span_of_perm, walk_field_at_top, walk_fields_inside, walk_listed, walk_params,
    walk_result,
};
use ob_resolve_scope::{AroundBody, Scope};
use ob_resolve_sites::{Least, note_if, note_itself, note_own_perm};
use ob_resolve_spec::InferredKind;
use ob_resolve_statements::walk_body;
use ob_tree::{Block, FormalNode, ListedNode, Member, NamedNode, PermNode, TypeNode};
use std::alloc::Global;

/// The name of a constructor.
fn note_constructor_name(alloc: Global, around: &AroundBody<'_>, of: &NamedNode, least: &mut Least)
    ensures { least.new ≡ noted_at least.old (names_thing itself (visible_around around.now) (part_of_named (named_of of.now))) }
{
    note_itself(least, around, &Scope::new(alloc), of);
}

/// A constructor of the contract around gives this.
#[tactic(auto, using(crate::proofs::MemberLemmas::members))]
fn note_given(least: &mut Least, around: &AroundBody<'_>, perm: &PermNode, span: Span)
    ensures { least.new ≡ noted_at least.old (gives_object (known_permission (contract_of around.now.own) perm.now) span) }
{
    note_if(least, is_unowned(perm), BAD_EXIT, span);
}

/// The body of a constructor has no result.
fn walk_constructor_body(
    alloc: Global,
    around: &AroundBody<'_>,
    params: &[FormalNode],
    body: &Block,
    least: &mut Least,
) -> Result<(), Memory>
    ensures { OnOk result (least.new ≡ noted least.old (body_of_params_sites (program_of around.now.program) (contract_of around.now.own) Nothing (map formal_of params.now) (block_of body.now))) }
{
    walk_body(
        alloc,
        &around.giving(InferredKind::Nothing),
        params,
        body,
        least,
    )
}

#[tactic(auto, using(crate::proofs::MemberLemmas::members))]
fn walk_constructor(
    alloc: Global,
    around: &AroundBody<'_>,
    of: &NamedNode,
    perm: &PermNode,
    params: &[FormalNode],
    body: &Block,
    span: Span,
    least: &mut Least,
) -> Result<(), Memory>
    ensures { OnOk result (least.new ≡ noted least.old (member_sites (program_of around.now.program) (contract_of around.now.own) (constructor_member (named_of of.now) perm.now (map formal_of params.now) (block_of body.now) span))) }
{
    note_constructor_name(alloc, around, of, least);
    note_given(least, around, perm, span_of_perm(span, perm));
    note_own_perm(least, around, perm);
    walk_params(alloc, around, true, params, least)?;
    walk_constructor_body(alloc, around, params, body, least)
}

/// The body of a transaction, which an interface doesn't write.
fn walk_transaction_body(
    alloc: Global,
    around: &AroundBody<'_>,
    params: &[FormalNode],
    gives: &Option<TypeNode>,
    body: &Option<Block>,
    least: &mut Least,
) -> Result<(), Memory>
    ensures { OnOk result (least.new ≡ noted least.old (option_map_or (body_of_params_sites (program_of around.now.program) (contract_of around.now.own) (kind_of_result (program_of around.now.program) (option_map type_of gives.now)) (map formal_of params.now)) (option_map block_of body.now) [])) }
{
    match body {
        None => Ok(()),
        Some(body) => {
            let kind = around.declared().types().kind_of_result(gives);
            walk_body(alloc, &around.giving(kind), params, body, least)
        }
    }
}

#[tactic(auto, using(crate::proofs::MemberLemmas::members))]
fn walk_transaction(
    alloc: Global,
    around: &AroundBody<'_>,
    listed: &[ListedNode],
    params: &[FormalNode],
    gives: &Option<TypeNode>,
    body: &Option<Block>,
    least: &mut Least,
) -> Result<(), Memory>
    ensures { OnOk result (least.new ≡ noted least.old (transaction_sites (program_of around.now.program) (contract_of around.now.own) (map listed_of listed.now) (map formal_of params.now) (option_map type_of gives.now) (option_map block_of body.now))) }
{
    walk_listed(alloc, around, listed, least)?;
    walk_params(alloc, around, false, params, least)?;
    walk_result(alloc, around, gives, least);
    walk_transaction_body(alloc, around, params, gives, body, least)
}

#[tactic(auto, using(crate::proofs::MemberLemmas::members))]
fn walk_member(
    alloc: Global,
    around: &AroundBody<'_>,
    member: &Member,
    least: &mut Least,
) -> Result<(), Memory>
    ensures { OnOk result (least.new ≡ noted least.old (member_sites (program_of around.now.program) (contract_of around.now.own) (member_of member.now))) }
{
    match member {
        Member::State { fields, .. } => {
            walk_fields_inside(alloc, around, fields.as_slice(), least);
            Ok(())
        }
        Member::Field(field) => {
            walk_field_at_top(alloc, around, field, least);
            Ok(())
        }
        Member::Constructor {
            of,
            perm,
            params,
            body,
            span,
        } => walk_constructor(
            alloc,
            around,
            of,
            perm,
            params.as_slice(),
            body,
            *span,
            least,
        ),
        Member::Transaction {
            listed,
            params,
            result,
            body,
            ..
        } => walk_transaction(
            alloc,
            around,
            listed.as_slice(),
            params.as_slice(),
            result,
            body,
            least,
        ),
    }
}

/// Members of the contract around.
#[tactic(auto, using(crate::proofs::MemberLemmas::members))]
pub fn walk_members(
    alloc: Global,
    around: &AroundBody<'_>,
    members: &[Member],
    least: &mut Least,
) -> Result<(), Memory>
    ensures { OnOk result (least.new ≡ noted least.old (flat_map (member_sites (program_of around.now.program) (contract_of around.now.own)) (map member_of members.now))) }
{
    for member in members {
        walk_member(alloc, around, member, least)?;
    }
    Ok(())
}
