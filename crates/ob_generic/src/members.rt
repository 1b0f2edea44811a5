//! Members in the tree of the instances.
ghost use Rattle.std.specs.Prelude.{◌≡◌, map, option_map, IfOk};
ghost use Rattle.ob_tree.specs.NamesView.{named_of, type_of};
ghost use Rattle.ob_tree.specs.StmtsView.{block_of};
ghost use Rattle.ob_tree.specs.Members.{state_member, constructor_member, transaction_member};
ghost use Rattle.ob_tree.specs.MembersView.{field_of, formal_of, listed_of, member_of};
ghost use Rattle.ob_generic_spec.specs.Uses.{role_of_param};
ghost use Rattle.ob_generic_spec.specs.InstanceTypes.{type_in};
ghost use Rattle.ob_generic_spec.specs.InstanceBodies.{block_in};
ghost use Rattle.ob_generic_spec.specs.InstanceTrees.{field_in, formal_in, listed_in, member_in};
ghost use Rattle.ob_generic_spec.specs.declared.role.Role.TheVariants.{Anywhere};

use crate::naming::{exit_in, named_in, ref_in, type_in};
use crate::statements::block_in;
use ob_base::{Duplicate, Items, Memory, Span, both, copy_items};
use ob_generic_names::{OwnInstance, perm_in};
use ob_generic_spec::Role;
use ob_tree::{
    Block, FieldNode, FormalNode, ListedNode, Member, NamePart, NamedNode, PermNode, Subject,
    TypeNode,
};
use std::alloc::Global;

fn field_in(
    field: &FieldNode,
    alloc: Global,
    own: &Option<OwnInstance<'_>>,
) -> Result<FieldNode, Memory>
    ensures { IfOk result (λ f. field_of f ≡ field_in own.now (field_of field.now)) }
{
    let ((of, name), available) = both(
        both(
            type_in(&field.of, Role::Anywhere, alloc, own),
            field.name.copy(alloc),
        ),
        copy_items(alloc, &field.available),
    )?;
    Ok(FieldNode {
        of,
        name,
        available,
    })
}

#[tactic(auto, using(crate::proofs::Turns::turns))]
fn fields_in(
    fields: &[FieldNode],
    alloc: Global,
    own: &Option<OwnInstance<'_>>,
) -> Result<Items<FieldNode>, Memory>
    ensures { IfOk result (λ fs. map field_of fs ≡ map (field_in own.now) (map field_of fields.now)) }
{
    let mut out = Items::new(alloc);
    for field in fields {
        out.push(field_in(field, alloc, own)?)?;
    }
    Ok(out)
}

fn role_of_param(name: &Subject) -> Role
    ensures { result ≡ role_of_param name.now }
{
    match name {
        Subject::This(_) => Role::OfOwn,
        Subject::Name(_) => Role::Anywhere,
    }
}

fn formal_in(
    formal: &FormalNode,
    alloc: Global,
    own: &Option<OwnInstance<'_>>,
) -> Result<FormalNode, Memory>
    ensures { IfOk result (λ f. formal_of f ≡ formal_in own.now (formal_of formal.now)) }
{
    let ((of, exit), name) = both(
        both(
            type_in(&formal.of, role_of_param(&formal.name), alloc, own),
            exit_in(&formal.exit, alloc, own),
        ),
        formal.name.copy(alloc),
    )?;
    Ok(FormalNode { of, exit, name })
}

#[tactic(auto, using(crate::proofs::Turns::turns))]
fn formals_in(
    formals: &[FormalNode],
    alloc: Global,
    own: &Option<OwnInstance<'_>>,
) -> Result<Items<FormalNode>, Memory>
    ensures { IfOk result (λ fs. map formal_of fs ≡ map (formal_in own.now) (map formal_of formals.now)) }
{
    let mut out = Items::new(alloc);
    for formal in formals {
        out.push(formal_in(formal, alloc, own)?)?;
    }
    Ok(out)
}

fn one_listed_in(
    listed: &ListedNode,
    alloc: Global,
    own: &Option<OwnInstance<'_>>,
) -> Result<ListedNode, Memory>
    ensures { IfOk result (λ l. listed_of l ≡ listed_in own.now (listed_of listed.now)) }
{
    let ((of, exit), name) = both(
        both(
            ref_in(&listed.of, Role::Anywhere, alloc, own),
            exit_in(&listed.exit, alloc, own),
        ),
        listed.name.copy(alloc),
    )?;
    Ok(ListedNode { of, exit, name })
}

#[tactic(auto, using(crate::proofs::Turns::turns))]
fn listed_in(
    listed: &[ListedNode],
    alloc: Global,
    own: &Option<OwnInstance<'_>>,
) -> Result<Items<ListedNode>, Memory>
    ensures { IfOk result (λ ls. map listed_of ls ≡ map (listed_in own.now) (map listed_of listed.now)) }
{
    let mut out = Items::new(alloc);
    for one in listed {
        out.push(one_listed_in(one, alloc, own)?)?;
    }
    Ok(out)
}

fn result_in(
    of: &Option<TypeNode>,
    alloc: Global,
    own: &Option<OwnInstance<'_>>,
) -> Result<Option<TypeNode>, Memory>
    ensures { IfOk result (λ t. option_map type_of t ≡ option_map (type_in own.now Anywhere) (option_map type_of of.now)) }
{
    match of {
        None => Ok(None),
        Some(of) => Ok(Some(type_in(of, Role::Anywhere, alloc, own)?)),
    }
}

fn body_in(
    body: &Option<Block>,
    alloc: Global,
    own: &Option<OwnInstance<'_>>,
) -> Result<Option<Block>, Memory>
    ensures { IfOk result (λ b. option_map block_of b ≡ option_map (block_in own.now) (option_map block_of body.now)) }
{
    match body {
        None => Ok(None),
        Some(body) => Ok(Some(block_in(body, alloc, own)?)),
    }
}

fn state_in(
    name: &NamePart,
    fields: &[FieldNode],
    span: Span,
    alloc: Global,
    own: &Option<OwnInstance<'_>>,
) -> Result<Member, Memory>
    ensures { IfOk result (λ m. member_of m ≡ member_in own.now (state_member name.now (map field_of fields.now) span)) }
{
    let (name, fields) = both(name.copy(alloc), fields_in(fields, alloc, own))?;
    Ok(Member::State { name, fields, span })
}

fn constructor_in(
    of: &NamedNode,
    perm: &PermNode,
    params: &[FormalNode],
    body: &Block,
    span: Span,
    alloc: Global,
    own: &Option<OwnInstance<'_>>,
) -> Result<Member, Memory>
    ensures { IfOk result (λ m. member_of m ≡ member_in own.now
        (constructor_member (named_of of.now) perm.now (map formal_of params.now) (block_of body.now) span)) }
{
    let ((of, perm), (params, body)) = both(
        both(
            named_in(of, Role::OfOwn, alloc, own),
            perm_in(perm, alloc, own),
        ),
        both(formals_in(params, alloc, own), block_in(body, alloc, own)),
    )?;
    Ok(Member::Constructor {
        of,
        perm,
        params,
        body,
        span,
    })
}

fn transaction_in(
    private: bool,
    listed: &[ListedNode],
    name: &NamePart,
    params: &[FormalNode],
    of: &Option<TypeNode>,
    body: &Option<Block>,
    span: Span,
    alloc: Global,
    own: &Option<OwnInstance<'_>>,
) -> Result<Member, Memory>
    ensures { IfOk result (λ m. member_of m ≡ member_in own.now
        (transaction_member private (map listed_of listed.now) name.now (map formal_of params.now)
        (option_map type_of of.now) (option_map block_of body.now) span)) }
{
    let ((listed, (name, params)), (result, body)) = both(
        both(
            listed_in(listed, alloc, own),
            both(name.copy(alloc), formals_in(params, alloc, own)),
        ),
        both(result_in(of, alloc, own), body_in(body, alloc, own)),
    )?;
    Ok(Member::Transaction {
        private,
        listed,
        name,
        params,
        result,
        body,
        span,
    })
}

fn member_in(
    member: &Member,
    alloc: Global,
    own: &Option<OwnInstance<'_>>,
) -> Result<Member, Memory>
    ensures { IfOk result (λ m. member_of m ≡ member_in own.now (member_of member.now)) }
{
    match member {
        Member::State { name, fields, span } => {
            state_in(name, fields.as_slice(), *span, alloc, own)
        }
        Member::Field(field) => Ok(Member::Field(field_in(field, alloc, own)?)),
        Member::Constructor {
            of,
            perm,
            params,
            body,
            span,
        } => constructor_in(of, perm, params.as_slice(), body, *span, alloc, own),
        Member::Transaction {
            private,
            listed,
            name,
            params,
            result,
            body,
            span,
        } => transaction_in(
            *private,
            listed.as_slice(),
            name,
            params.as_slice(),
            result,
            body,
            *span,
            alloc,
            own,
        ),
    }
}

/// The members of a contract, or of an instance.
#[tactic(auto, using(crate::proofs::Turns::turns))]
pub fn members_in(
    members: &[Member],
    alloc: Global,
    own: &Option<OwnInstance<'_>>,
) -> Result<Items<Member>, Memory>
    ensures { IfOk result (λ ms. map member_of ms ≡ map (member_in own.now) (map member_of members.now)) }
{
    let mut out = Items::new(alloc);
    for member in members {
        out.push(member_in(member, alloc, own)?)?;
    }
    Ok(out)
}
