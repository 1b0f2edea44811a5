//! The parameters of transactions and constructors, and the fields that a private transaction lists:
//!
//! ```text
//! params = param {"," param}
//! param  = type [">>" perm] (NAME | "this")
//! listed = ref [">>" perm] NAME
//! ```

ghost use Rattle.std.specs.Prelude.{map};
ghost use Rattle.ob_lexer.specs.declared.token.Sign.TheVariants.{Comma};
ghost use Rattle.ob_tree.specs.MembersView.{formal_of, listed_of};
ghost use Rattle.ob_parser_spec.specs.NameReaders.{read_item, read_parted};
ghost use Rattle.ob_parser_spec.specs.MemberReaders.{types, read_exit, read_param, read_listed, read_maybe_parted};
ghost use Rattle.ob_parser_spec.specs.ContractReaders.{read_parens, listed_after};
ghost use Rattle.ob_parser_spec.specs.AllReaders.{all_refs};
ghost use Rattle.ob_parser_expressions.specs.Answering.{Answers, as_it_is};

use crate::halt::Halt;
use crate::names::{name_part, permission, reference, subject, type_node};
use crate::parts::{before, with};
use crate::tokens::{Symbol, fixed, starts_with, starts_with_one_of};
use ob_base::Items;
use ob_lexer::{Sign, Token, Word};
use ob_tree::{FormalNode, ListedNode, PermNode};
use std::alloc::Global;

/// What a type begins with.
pub const TYPES: [Symbol; 4] = [
    Symbol::Word(Word::Int),
    Symbol::Word(Word::Bool),
    Symbol::Word(Word::String),
    Symbol::Name,
];

/// `[">>" perm]`
fn exit(alloc: Global, tokens: &[Token]) -> Result<(Option<PermNode>, &[Token]), Halt>
    ensures { Answers as_it_is result (read_exit tokens.now) }
{
    if !starts_with(tokens, Symbol::Sign(Sign::DoubleGreater)) {
        return Ok((None, tokens));
    }
    let (_, rest) = fixed(Symbol::Sign(Sign::DoubleGreater), tokens)?;
    let (perm, rest) = permission(alloc, rest)?;
    Ok((Some(perm), rest))
}

/// `param`
fn param(alloc: Global, room: u8, tokens: &[Token]) -> Result<(FormalNode, &[Token]), Halt>
    ensures { Answers formal_of result (read_param (all_refs room) tokens.now) }
{
    let (of, rest) = type_node(alloc, room, tokens)?;
    let (of, exit, rest) = with(of, exit(alloc, rest))?;
    let ((of, exit), name, rest) = with((of, exit), subject(alloc, rest))?;
    Ok((FormalNode { of, exit, name }, rest))
}

/// `"," param`
fn next_param(alloc: Global, room: u8, tokens: &[Token]) -> Result<(FormalNode, &[Token]), Halt>
    ensures { Answers formal_of result (read_item Comma (read_param (all_refs room)) tokens.now) }
{
    let (_, rest) = fixed(Symbol::Sign(Sign::Comma), tokens)?;
    param(alloc, room, rest)
}

/// `params`
fn param_list(
    alloc: Global,
    room: u8,
    tokens: &[Token],
) -> Result<(Items<FormalNode>, &[Token]), Halt>
    ensures { Answers (map formal_of) result (read_parted Comma (read_param (all_refs room)) tokens.now) }
{
    let (first, rest) = param(alloc, room, tokens)?;
    let mut params = Items::new(alloc);
    params.push(first)?;
    let mut rest = rest;
    'params: while starts_with(rest, Symbol::Sign(Sign::Comma)) {
        let (param, after) = next_param(alloc, room, rest)?;
        params.push(param)?;
        rest = after;
    }
    Ok((params, rest))
}

/// `[params]`
pub fn params(
    alloc: Global,
    room: u8,
    tokens: &[Token],
) -> Result<(Items<FormalNode>, &[Token]), Halt>
    ensures { Answers (map formal_of) result (read_maybe_parted types Comma (read_param (all_refs room)) tokens.now) }
{
    if !starts_with_one_of(tokens, &TYPES) {
        return Ok((Items::new(alloc), tokens));
    }
    param_list(alloc, room, tokens)
}

/// `listed`
fn listed(alloc: Global, room: u8, tokens: &[Token]) -> Result<(ListedNode, &[Token]), Halt>
    ensures { Answers listed_of result (read_listed (all_refs room) tokens.now) }
{
    let (of, rest) = reference(alloc, room, tokens)?;
    let (of, exit, rest) = with(of, exit(alloc, rest))?;
    let ((of, exit), name, rest) = with((of, exit), name_part(alloc, rest))?;
    Ok((ListedNode { of, exit, name }, rest))
}

/// `"," listed`
fn next_listed(alloc: Global, room: u8, tokens: &[Token]) -> Result<(ListedNode, &[Token]), Halt>
    ensures { Answers listed_of result (read_item Comma (read_listed (all_refs room)) tokens.now) }
{
    let (_, rest) = fixed(Symbol::Sign(Sign::Comma), tokens)?;
    listed(alloc, room, rest)
}

/// `listed {"," listed}`
fn listed_list(
    alloc: Global,
    room: u8,
    tokens: &[Token],
) -> Result<(Items<ListedNode>, &[Token]), Halt>
    ensures { Answers (map listed_of) result (read_parted Comma (read_listed (all_refs room)) tokens.now) }
{
    let (first, rest) = listed(alloc, room, tokens)?;
    let mut list = Items::new(alloc);
    list.push(first)?;
    let mut rest = rest;
    'list: while starts_with(rest, Symbol::Sign(Sign::Comma)) {
        let (more, after) = next_listed(alloc, room, rest)?;
        list.push(more)?;
        rest = after;
    }
    Ok((list, rest))
}

/// `"(" listed {"," listed} ")"`
fn listed_in_parens(
    alloc: Global,
    room: u8,
    tokens: &[Token],
) -> Result<(Items<ListedNode>, &[Token]), Halt>
    ensures { Answers (map listed_of) result (read_parens (read_parted Comma (read_listed (all_refs room))) tokens.now) }
{
    let (_, rest) = fixed(Symbol::Sign(Sign::OpenParen), tokens)?;
    let (list, rest) = listed_list(alloc, room, rest)?;
    before(list, Symbol::Sign(Sign::CloseParen), rest)
}

/// `["(" listed {"," listed} ")"]`
pub fn listed_part(
    alloc: Global,
    room: u8,
    tokens: &[Token],
) -> Result<(Items<ListedNode>, &[Token]), Halt>
    ensures { Answers (map listed_of) result (listed_after (all_refs room) tokens.now) }
{
    if !starts_with(tokens, Symbol::Sign(Sign::OpenParen)) {
        return Ok((Items::new(alloc), tokens));
    }
    listed_in_parens(alloc, room, tokens)
}
