//! The members of contracts and interfaces:
//!
//! ```text
//! member      = "state" NAME (";" | "{" {field} "}") | field | constructor | transaction
//! field       = type NAME ["available" "in" NAME {"," NAME}] ";"
//! constructor = named "@" perm "(" [params] ")" block
//! head        = "transaction" NAME "(" [params] ")" ["returns" type]
//! transaction = ["private" ["(" listed {"," listed} ")"]] head block
//! ```
//!
//! The members of an interface are states without fields and heads, with `;` after each.

ghost use Rattle.std.specs.Prelude.{◌≡◌, map, option_map};
ghost use Rattle.ob_tree.specs.NamesView.{ref_of, type_of};
ghost use Rattle.ob_tree.specs.MembersView.{field_of, member_of};
ghost use Rattle.ob_parser_spec.specs.Readers.{◌>>=◌ as ◌then◌, done, name_if, read_token, read_both, read_many};
ghost use Rattle.ob_parser_spec.specs.MemberReaders.{types, field_of as made_field, read_states, read_available, read_field, read_result, read_head};
ghost use Rattle.ob_parser_spec.specs.ContractReaders.{read_braced, read_fields, read_state, read_privacy, read_transaction, read_value_field, read_constructed, read_held, read_member_tail, member_after, read_after_ref, read_member, read_bare_state, read_promise, read_interface_member};
ghost use Rattle.ob_parser_spec.specs.AllReaders.{all_refs, all_blocks};
ghost use Rattle.ob_parser_spec.specs.StmtReaders.{read_sign};
ghost use Rattle.ob_lexer.specs.declared.token.Sign.TheVariants.{Semicolon};
ghost use Rattle.ob_parser.specs.Parts.{access_part, head_part, tail_part};
ghost use Rattle.ob_parser_expressions.specs.Answering.{Answers, as_it_is};

use crate::statements::block;
use ob_base::{Items, Span};
use ob_lexer::{Sign, Token, Word};
use ob_parser_expressions::{
    Halt, Symbol, TYPES, VALUE_TYPES, before, ended, fixed, listed_part, name_list, name_part,
    params, reference, span_between, starts_with, starts_with_one_of, type_node, value_type, with,
};
use ob_tree::{Block, FieldNode, FormalNode, ListedNode, Member, NamePart, RefNode, TypeNode};
use std::alloc::Global;

/// What stands before the head of a transaction.
#[derive(Drop)]
struct AccessPart {
    private: bool,
    listed: Items<ListedNode>,
}

/// A transaction up to its block.
#[derive(Drop)]
struct HeadPart {
    name: NamePart,
    params: Items<FormalNode>,
    result: Option<TypeNode>,
}

/// What stands after `named "@" perm`: the rest of a constructor or of a field.
#[derive(Drop)]
enum TailPart {
    Constructed {
        params: Items<FormalNode>,
        body: Block,
    },
    Held {
        name: NamePart,
        available: Items<NamePart>,
    },
}

/// What a transaction begins with.
const TRANSACTION_FIRST: [Symbol; 2] = [
    Symbol::Word(Word::Private),
    Symbol::Word(Word::Transaction),
];

// ---- fields

/// `"available" "in" NAME {"," NAME}`
fn states(alloc: Global, tokens: &[Token]) -> Result<(Items<NamePart>, &[Token]), Halt>
    ensures { Answers as_it_is result (read_states tokens.now) }
{
    let (_, rest) = fixed(Symbol::Word(Word::Available), tokens)?;
    let (_, rest) = fixed(Symbol::Word(Word::In), rest)?;
    name_list(alloc, Sign::Comma, rest)
}

/// `["available" "in" NAME {"," NAME}]`
fn available(alloc: Global, tokens: &[Token]) -> Result<(Items<NamePart>, &[Token]), Halt>
    ensures { Answers as_it_is result (read_available tokens.now) }
{
    if !starts_with(tokens, Symbol::Word(Word::Available)) {
        return Ok((Items::new(alloc), tokens));
    }
    states(alloc, tokens)
}

/// `NAME ["available" "in" NAME {"," NAME}] ";"`, after the type of the field.
fn field_of_type(
    alloc: Global,
    of: TypeNode,
    tokens: &[Token],
) -> Result<(FieldNode, &[Token]), Halt>
    ensures { Answers field_of result (read_both (read_token name_if) (read_both read_available (read_sign Semicolon)) tokens.now
        then (λ parts left. done (made_field (type_of of, parts)) left)) }
{
    let (name, rest) = name_part(alloc, tokens)?;
    let (name, available, rest) = with(name, available(alloc, rest))?;
    let field = FieldNode {
        of,
        name,
        available,
    };
    before(field, Symbol::Sign(Sign::Semicolon), rest)
}

/// `field`
fn field(alloc: Global, room: u8, tokens: &[Token]) -> Result<(FieldNode, &[Token]), Halt>
    ensures { Answers field_of result (read_field (all_refs room) tokens.now) }
{
    let (of, rest) = type_node(alloc, room, tokens)?;
    field_of_type(alloc, of, rest)
}

/// `field`, of a type that has no permission.
fn value_field(alloc: Global, tokens: &[Token]) -> Result<(FieldNode, &[Token]), Halt>
    ensures { Answers field_of result (read_value_field tokens.now) }
{
    let (of, rest) = value_type(tokens)?;
    field_of_type(alloc, of, rest)
}

/// `{field}`
fn field_list(
    alloc: Global,
    room: u8,
    tokens: &[Token],
) -> Result<(Items<FieldNode>, &[Token]), Halt>
    ensures { Answers (map field_of) result (read_many types (read_field (all_refs room)) tokens.now) }
{
    let mut fields = Items::new(alloc);
    let mut rest = tokens;
    'fields: while starts_with_one_of(rest, &TYPES) {
        let (field, after) = field(alloc, room, rest)?;
        fields.push(field)?;
        rest = after;
    }
    Ok((fields, rest))
}

// ---- states

/// `"{" {field} "}"`
fn braced_fields(
    alloc: Global,
    room: u8,
    tokens: &[Token],
) -> Result<(Items<FieldNode>, &[Token]), Halt>
    ensures { Answers (map field_of) result (read_braced (all_refs room) tokens.now) }
{
    let (_, rest) = fixed(Symbol::Sign(Sign::OpenBrace), tokens)?;
    let (fields, rest) = field_list(alloc, room, rest)?;
    before(fields, Symbol::Sign(Sign::CloseBrace), rest)
}

/// `";" | "{" {field} "}"`
fn state_fields(
    alloc: Global,
    room: u8,
    tokens: &[Token],
) -> Result<(Items<FieldNode>, &[Token]), Halt>
    ensures { Answers (map field_of) result (read_fields (all_refs room) tokens.now) }
{
    if starts_with(tokens, Symbol::Sign(Sign::Semicolon)) {
        let (_, rest) = fixed(Symbol::Sign(Sign::Semicolon), tokens)?;
        return Ok((Items::new(alloc), rest));
    }
    braced_fields(alloc, room, tokens)
}

/// `"state" NAME (";" | "{" {field} "}")`
fn state(alloc: Global, room: u8, tokens: &[Token]) -> Result<(Member, &[Token]), Halt>
    ensures { Answers member_of result (read_state (all_refs room) tokens.now) }
{
    let (_, rest) = fixed(Symbol::Word(Word::State), tokens)?;
    let (name, rest) = name_part(alloc, rest)?;
    let (name, fields, rest) = with(name, state_fields(alloc, room, rest))?;
    let span = span_between(tokens, rest);
    Ok((Member::State { name, fields, span }, rest))
}

/// `"state" NAME ";"`
fn bare_state(alloc: Global, tokens: &[Token]) -> Result<(Member, &[Token]), Halt>
    ensures { Answers member_of result (read_bare_state tokens.now) }
{
    let (_, rest) = fixed(Symbol::Word(Word::State), tokens)?;
    let (name, rest) = name_part(alloc, rest)?;
    let (name, span, rest) = ended(name, tokens, rest)?;
    Ok((
        Member::State {
            name,
            fields: Items::new(alloc),
            span,
        },
        rest,
    ))
}

// ---- transactions

/// `["private" ["(" listed {"," listed} ")"]]`
fn access(alloc: Global, room: u8, tokens: &[Token]) -> Result<(AccessPart, &[Token]), Halt>
    ensures { Answers access_part result (read_privacy (all_refs room) tokens.now) }
{
    if !starts_with(tokens, Symbol::Word(Word::Private)) {
        return Ok((
            AccessPart {
                private: false,
                listed: Items::new(alloc),
            },
            tokens,
        ));
    }
    let (_, rest) = fixed(Symbol::Word(Word::Private), tokens)?;
    let (listed, rest) = listed_part(alloc, room, rest)?;
    Ok((
        AccessPart {
            private: true,
            listed,
        },
        rest,
    ))
}

/// `["returns" type]`
fn returned(alloc: Global, room: u8, tokens: &[Token]) -> Result<(Option<TypeNode>, &[Token]), Halt>
    ensures { Answers (option_map type_of) result (read_result (all_refs room) tokens.now) }
{
    if !starts_with(tokens, Symbol::Word(Word::Returns)) {
        return Ok((None, tokens));
    }
    let (_, rest) = fixed(Symbol::Word(Word::Returns), tokens)?;
    let (of, rest) = type_node(alloc, room, rest)?;
    Ok((Some(of), rest))
}

/// `head`
fn head(alloc: Global, room: u8, tokens: &[Token]) -> Result<(HeadPart, &[Token]), Halt>
    ensures { Answers head_part result (read_head (all_refs room) tokens.now) }
{
    let (_, rest) = fixed(Symbol::Word(Word::Transaction), tokens)?;
    let (name, rest) = name_part(alloc, rest)?;
    let (name, rest) = before(name, Symbol::Sign(Sign::OpenParen), rest)?;
    let (name, params, rest) = with(name, params(alloc, room, rest))?;
    let (parts, rest) = before((name, params), Symbol::Sign(Sign::CloseParen), rest)?;
    let ((name, params), result_type, rest) = with(parts, returned(alloc, room, rest))?;
    Ok((
        HeadPart {
            name,
            params,
            result: result_type,
        },
        rest,
    ))
}

/// `transaction`
fn transaction(alloc: Global, room: u8, tokens: &[Token]) -> Result<(Member, &[Token]), Halt>
    ensures { Answers member_of result (read_transaction (all_refs room) (all_blocks room) tokens.now) }
{
    let (access, rest) = access(alloc, room, tokens)?;
    let (access, head, rest) = with(access, head(alloc, room, rest))?;
    let ((access, head), body, rest) = with((access, head), block(alloc, room, rest))?;
    Ok((
        Member::Transaction {
            private: access.private,
            listed: access.listed,
            name: head.name,
            params: head.params,
            result: head.result,
            body: Some(body),
            span: span_between(tokens, rest),
        },
        rest,
    ))
}

/// `head ";"`
fn promise(alloc: Global, room: u8, tokens: &[Token]) -> Result<(Member, &[Token]), Halt>
    ensures { Answers member_of result (read_promise (all_refs room) tokens.now) }
{
    let (head, rest) = head(alloc, room, tokens)?;
    let (head, span, rest) = ended(head, tokens, rest)?;
    Ok((
        Member::Transaction {
            private: false,
            listed: Items::new(alloc),
            name: head.name,
            params: head.params,
            result: head.result,
            body: None,
            span,
        },
        rest,
    ))
}

// ---- constructors, and fields whose type is a reference

/// `"(" [params] ")" block`
fn constructed(alloc: Global, room: u8, tokens: &[Token]) -> Result<(TailPart, &[Token]), Halt>
    ensures { Answers tail_part result (read_constructed (all_refs room) (all_blocks room) tokens.now) }
{
    let (_, rest) = fixed(Symbol::Sign(Sign::OpenParen), tokens)?;
    let (params, rest) = params(alloc, room, rest)?;
    let (params, rest) = before(params, Symbol::Sign(Sign::CloseParen), rest)?;
    let (params, body, rest) = with(params, block(alloc, room, rest))?;
    Ok((TailPart::Constructed { params, body }, rest))
}

/// `NAME ["available" "in" NAME {"," NAME}] ";"`
fn held(alloc: Global, tokens: &[Token]) -> Result<(TailPart, &[Token]), Halt>
    ensures { Answers tail_part result (read_held tokens.now) }
{
    let (name, rest) = name_part(alloc, tokens)?;
    let (name, available, rest) = with(name, available(alloc, rest))?;
    before(
        TailPart::Held { name, available },
        Symbol::Sign(Sign::Semicolon),
        rest,
    )
}

/// What stands after `named "@" perm`.
fn tail(alloc: Global, room: u8, tokens: &[Token]) -> Result<(TailPart, &[Token]), Halt>
    ensures { Answers tail_part result (read_member_tail (all_refs room) (all_blocks room) tokens.now) }
{
    if starts_with(tokens, Symbol::Sign(Sign::OpenParen)) {
        return constructed(alloc, room, tokens);
    }
    held(alloc, tokens)
}

/// The constructor or the field that these parts make.
fn member_after(of: RefNode, tail: TailPart, span: Span) -> Member
    ensures { member_of result ≡ member_after ((ref_of of, tail_part tail), span) }
{
    match tail {
        TailPart::Constructed { params, body } => Member::Constructor {
            of: of.of,
            perm: of.perm,
            params,
            body,
            span,
        },
        TailPart::Held { name, available } => Member::Field(FieldNode {
            of: TypeNode::Reference(of),
            name,
            available,
        }),
    }
}

/// `field | constructor`, where a name comes first.
fn after_reference(alloc: Global, room: u8, tokens: &[Token]) -> Result<(Member, &[Token]), Halt>
    ensures { Answers member_of result (read_after_ref (all_refs room) (all_blocks room) tokens.now) }
{
    let (of, rest) = reference(alloc, room, tokens)?;
    let (of, tail, rest) = with(of, tail(alloc, room, rest))?;
    let span = span_between(tokens, rest);
    Ok((member_after(of, tail, span), rest))
}

// ---- members

/// `member`
pub fn member(alloc: Global, room: u8, tokens: &[Token]) -> Result<(Member, &[Token]), Halt>
    ensures { Answers member_of result (read_member (all_refs room) (all_blocks room) tokens.now) }
{
    if starts_with(tokens, Symbol::Word(Word::State)) {
        return state(alloc, room, tokens);
    }
    if starts_with_one_of(tokens, &TRANSACTION_FIRST) {
        return transaction(alloc, room, tokens);
    }
    if starts_with_one_of(tokens, &VALUE_TYPES) {
        let (field, rest) = value_field(alloc, tokens)?;
        return Ok((Member::Field(field), rest));
    }
    after_reference(alloc, room, tokens)
}

/// `"state" NAME ";" | head ";"`
pub fn interface_member(
    alloc: Global,
    room: u8,
    tokens: &[Token],
) -> Result<(Member, &[Token]), Halt>
    ensures { Answers member_of result (read_interface_member (all_refs room) tokens.now) }
{
    if starts_with(tokens, Symbol::Word(Word::State)) {
        return bare_state(alloc, tokens);
    }
    promise(alloc, room, tokens)
}
