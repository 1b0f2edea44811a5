//! Members of contracts and interfaces.
ghost use Rattle.std.specs.Prelude.{◌≡◌, true, map, option_map, OnOk, string_bytes};
ghost use Rattle.std.specs.List.{flat_map};
ghost use Rattle.ob_tree.specs.NamesView.{named_of, ref_of, type_of};
ghost use Rattle.ob_tree.specs.StmtsView.{block_of};
ghost use Rattle.ob_tree.specs.MembersView.{field_of, formal_of, listed_of, member_of};
ghost use Rattle.ob_tree_print.specs.MemberTokens.{tokens_of_available, tokens_of_field, tokens_of_fields, tokens_of_formal, tokens_of_formals, tokens_of_params, tokens_of_listed, tokens_of_list, tokens_of_private, tokens_of_result, tokens_of_body, tokens_of_constructor, tokens_of_access, tokens_of_head, tokens_of_member};
ghost use Rattle.ob_tree_print.specs.Written.{written};

use crate::name::{put_exit, put_named, put_names, put_perm, put_ref, put_type};
use crate::stmt::put_block;
use crate::token::{put_part, put_sign, put_sign_unless, put_subject, put_word, put_word_if};
use ob_base::Memory;
use ob_lexer::{Sign, Word};
use ob_tree::{
    Block, FieldNode, FormalNode, ListedNode, Member, NamePart, NamedNode, PermNode, TypeNode,
};

#[tactic(auto, using(crate::specs::Written::choices))]
fn put_available(out: &mut String, states: &[NamePart]) -> Result<(), Memory>
    ensures { OnOk result (string_bytes out.new ≡ written (string_bytes out.old) (tokens_of_available states.now)) }
{
    match states {
        [] => Ok(()),
        _ => {
            put_word(out, Word::Available)?;
            put_word(out, Word::In)?;
            put_names(out, Sign::Comma, states)
        }
    }
}

#[tactic(auto, using(crate::specs::Written::writes))]
fn put_field(out: &mut String, field: &FieldNode) -> Result<(), Memory>
    ensures { OnOk result (string_bytes out.new ≡ written (string_bytes out.old) (tokens_of_field (field_of field.now))) }
{
    put_type(out, &field.of)?;
    put_part(out, &field.name)?;
    put_available(out, field.available.as_slice())?;
    put_sign(out, Sign::Semicolon)
}

#[tactic(auto, using(crate::specs::Written::turns))]
fn put_each_field(out: &mut String, fields: &[FieldNode]) -> Result<(), Memory>
    ensures { OnOk result (string_bytes out.new ≡ written (string_bytes out.old) (flat_map tokens_of_field (map field_of fields.now))) }
{
    for field in fields {
        put_field(out, field)?;
    }
    Ok(())
}

#[tactic(auto, using(crate::specs::Written::choices))]
fn put_fields(out: &mut String, fields: &[FieldNode]) -> Result<(), Memory>
    ensures { OnOk result (string_bytes out.new ≡ written (string_bytes out.old) (tokens_of_fields (map field_of fields.now))) }
{
    match fields {
        [] => put_sign(out, Sign::Semicolon),
        _ => {
            put_sign(out, Sign::OpenBrace)?;
            put_each_field(out, fields)?;
            put_sign(out, Sign::CloseBrace)
        }
    }
}

#[tactic(auto, using(crate::specs::Written::writes))]
fn put_formal(out: &mut String, formal: &FormalNode) -> Result<(), Memory>
    ensures { OnOk result (string_bytes out.new ≡ written (string_bytes out.old) (tokens_of_formal (formal_of formal.now))) }
{
    put_type(out, &formal.of)?;
    put_exit(out, &formal.exit)?;
    put_subject(out, &formal.name)
}

#[tactic(auto, using(crate::specs::Written::turns))]
fn put_formals(out: &mut String, formals: &[FormalNode]) -> Result<(), Memory>
    ensures { OnOk result (string_bytes out.new ≡ written (string_bytes out.old) (tokens_of_formals true (map formal_of formals.now))) }
{
    let mut first = true;
    for formal in formals {
        put_sign_unless(out, first, Sign::Comma)?;
        put_formal(out, formal)?;
        first = false;
    }
    Ok(())
}

#[tactic(auto, using(crate::specs::Written::writes))]
fn put_params(out: &mut String, params: &[FormalNode]) -> Result<(), Memory>
    ensures { OnOk result (string_bytes out.new ≡ written (string_bytes out.old) (tokens_of_params (map formal_of params.now))) }
{
    put_sign(out, Sign::OpenParen)?;
    put_formals(out, params)?;
    put_sign(out, Sign::CloseParen)
}

#[tactic(auto, using(crate::specs::Written::writes))]
fn put_listed(out: &mut String, listed: &ListedNode) -> Result<(), Memory>
    ensures { OnOk result (string_bytes out.new ≡ written (string_bytes out.old) (tokens_of_listed (listed_of listed.now))) }
{
    put_ref(&listed.of, out)?;
    put_exit(out, &listed.exit)?;
    put_part(out, &listed.name)
}

#[tactic(auto, using(crate::specs::Written::turns))]
fn put_list(out: &mut String, list: &[ListedNode]) -> Result<(), Memory>
    ensures { OnOk result (string_bytes out.new ≡ written (string_bytes out.old) (tokens_of_list true (map listed_of list.now))) }
{
    let mut first = true;
    for listed in list {
        put_sign_unless(out, first, Sign::Comma)?;
        put_listed(out, listed)?;
        first = false;
    }
    Ok(())
}

#[tactic(auto, using(crate::specs::Written::choices))]
fn put_private(out: &mut String, list: &[ListedNode]) -> Result<(), Memory>
    ensures { OnOk result (string_bytes out.new ≡ written (string_bytes out.old) (tokens_of_private (map listed_of list.now))) }
{
    match list {
        [] => Ok(()),
        _ => {
            put_sign(out, Sign::OpenParen)?;
            put_list(out, list)?;
            put_sign(out, Sign::CloseParen)
        }
    }
}

#[tactic(auto, using(crate::specs::Written::writes), unfolding(crate::specs::MemberTokens::tokens_of_access))]
fn put_access(out: &mut String, private: bool, list: &[ListedNode]) -> Result<(), Memory>
    ensures { OnOk result (string_bytes out.new ≡ written (string_bytes out.old) (tokens_of_access private (map listed_of list.now))) }
{
    put_word_if(out, private, Word::Private)?;
    put_private(out, list)
}

#[tactic(auto, using(crate::specs::Written::writes))]
fn put_result(out: &mut String, of: &Option<TypeNode>) -> Result<(), Memory>
    ensures { OnOk result (string_bytes out.new ≡ written (string_bytes out.old) (tokens_of_result (option_map type_of of.now))) }
{
    match of {
        None => Ok(()),
        Some(of) => {
            put_word(out, Word::Returns)?;
            put_type(out, of)
        }
    }
}

#[tactic(auto, using(crate::specs::Written::writes), unfolding(crate::specs::MemberTokens::tokens_of_head))]
fn put_head(
    out: &mut String,
    name: &NamePart,
    params: &[FormalNode],
    of: &Option<TypeNode>,
) -> Result<(), Memory>
    ensures { OnOk result (string_bytes out.new ≡ written (string_bytes out.old) (tokens_of_head name.now (map formal_of params.now) (option_map type_of of.now))) }
{
    put_word(out, Word::Transaction)?;
    put_part(out, name)?;
    put_params(out, params)?;
    put_result(out, of)
}

#[tactic(auto, using(crate::specs::Written::writes))]
fn put_body(out: &mut String, body: &Option<Block>) -> Result<(), Memory>
    ensures { OnOk result (string_bytes out.new ≡ written (string_bytes out.old) (tokens_of_body (option_map block_of body.now))) }
{
    match body {
        None => put_sign(out, Sign::Semicolon),
        Some(block) => put_block(block, out),
    }
}

#[tactic(auto, using(crate::specs::Written::writes), unfolding(crate::specs::MemberTokens::tokens_of_constructor))]
fn put_constructor(
    out: &mut String,
    of: &NamedNode,
    perm: &PermNode,
    params: &[FormalNode],
) -> Result<(), Memory>
    ensures { OnOk result (string_bytes out.new ≡ written (string_bytes out.old) (tokens_of_constructor (named_of of.now) perm.now (map formal_of params.now))) }
{
    put_named(of, out)?;
    put_sign(out, Sign::At)?;
    put_perm(out, perm)?;
    put_params(out, params)
}

/// A member of a contract or an interface, up to its `;` or its closing brace.
#[tactic(auto, using(crate::specs::Written::writes))]
pub fn put_member(out: &mut String, member: &Member) -> Result<(), Memory>
    ensures { OnOk result (string_bytes out.new ≡ written (string_bytes out.old) (tokens_of_member (member_of member.now))) }
{
    match member {
        Member::State { name, fields, .. } => {
            put_word(out, Word::State)?;
            put_part(out, name)?;
            put_fields(out, fields.as_slice())
        }
        Member::Field(field) => put_field(out, field),
        Member::Constructor {
            of,
            perm,
            params,
            body,
            ..
        } => {
            put_constructor(out, of, perm, params.as_slice())?;
            put_block(body, out)
        }
        Member::Transaction {
            private,
            listed,
            name,
            params,
            result,
            body,
            ..
        } => {
            put_access(out, *private, listed.as_slice())?;
            put_head(out, name, params.as_slice(), result)?;
            put_body(out, body)
        }
    }
}
