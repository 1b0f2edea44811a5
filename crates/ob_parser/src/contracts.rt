//! Contracts, interfaces and programs:
//!
//! ```text
//! program   = {contract | interface}
//! contract  = ["main"] ["asset"] "contract" NAME [generic] ["implements" named] "{" {member} "}"
//! interface = ["asset"] "interface" NAME [generic] "{" {"state" NAME ";" | head ";"} "}"
//! generic   = "[" ["asset"] NAME "@" NAME ["where" NAME "is" mode] "]"
//! ```

ghost use Rattle.std.specs.Prelude.{◌≡◌, map, option_map};
ghost use Rattle.ob_tree.specs.NamesView.{named_of};
ghost use Rattle.ob_tree.specs.MembersView.{member_of, contract_of};
ghost use Rattle.ob_parser_spec.specs.Readers.{read_as, read_many};
ghost use Rattle.ob_parser_spec.specs.NameReaders.{read_named};
ghost use Rattle.ob_parser_spec.specs.ContractReaders.{member_first, read_member, promise_first, read_interface_member, read_flag, read_bound, read_generic, read_maybe_generic, read_title, read_body, read_implements, read_contract_kind, read_interface_kind, read_kind, contract_of as made_contract, read_main, read_other, read_contract};
ghost use Rattle.ob_parser_spec.specs.AllReaders.{all_refs, all_blocks, all_programs};
ghost use Rattle.ob_parser_spec.specs.StmtReaders.{read_sign};
ghost use Rattle.ob_lexer.specs.declared.token.Sign.TheVariants.{CloseBrace};
ghost use Rattle.ob_parser.specs.Parts.{title_part, body_parts, kind_part};
ghost use Rattle.ob_parser_expressions.specs.Answering.{Answers, as_it_is};

use crate::members::{interface_member, member};
use ob_base::{Items, Mode, Span};
use ob_lexer::{Sign, Token, Word};
use ob_parser_expressions::{
    Halt, Symbol, before, fixed, mode_word, name_part, named, span_between, starts_with,
    starts_with_one_of, with,
};
use ob_tree::{ContractNode, Member, NamePart, NamedNode, ParamNode};
use std::alloc::Global;

/// The name of a contract or an interface, and its type parameter.
#[derive(Drop)]
struct TitlePart {
    name: NamePart,
    param: Option<ParamNode>,
}

/// A contract or an interface from that word on.
#[derive(Drop)]
struct KindPart {
    interface: bool,
    title: TitlePart,
    implements: Option<NamedNode>,
    members: Items<Member>,
    /// The place of the closing brace.
    end: Span,
}

/// What a member of a contract begins with.
const MEMBER_FIRST: [Symbol; 7] = [
    Symbol::Word(Word::State),
    Symbol::Word(Word::Private),
    Symbol::Word(Word::Transaction),
    Symbol::Word(Word::Int),
    Symbol::Word(Word::Bool),
    Symbol::Word(Word::String),
    Symbol::Name,
];

/// What a member of an interface begins with.
const PROMISE_FIRST: [Symbol; 2] = [Symbol::Word(Word::State), Symbol::Word(Word::Transaction)];

/// What a contract or an interface begins with.
const CONTRACT_FIRST: [Symbol; 4] = [
    Symbol::Word(Word::Main),
    Symbol::Word(Word::Asset),
    Symbol::Word(Word::Contract),
    Symbol::Word(Word::Interface),
];

// ---- type parameters

/// `[word]`
fn flag(word: Word, tokens: &[Token]) -> Result<(bool, &[Token]), Halt>
    ensures { Answers as_it_is result (read_flag word tokens.now) }
{
    if !starts_with(tokens, Symbol::Word(word)) {
        return Ok((false, tokens));
    }
    let (_, rest) = fixed(Symbol::Word(word), tokens)?;
    Ok((true, rest))
}

/// `["where" NAME "is" mode]`
fn bound(alloc: Global, tokens: &[Token]) -> Result<(Option<(NamePart, Mode)>, &[Token]), Halt>
    ensures { Answers as_it_is result (read_bound tokens.now) }
{
    if !starts_with(tokens, Symbol::Word(Word::Where)) {
        return Ok((None, tokens));
    }
    let (_, rest) = fixed(Symbol::Word(Word::Where), tokens)?;
    let (name, rest) = name_part(alloc, rest)?;
    let (name, rest) = before(name, Symbol::Word(Word::Is), rest)?;
    match mode_word(rest) {
        Ok((mode, _, rest)) => Ok((Some((name, mode)), rest)),
        Err(halt) => Err(halt),
    }
}

/// `generic`
fn generic(alloc: Global, tokens: &[Token]) -> Result<(ParamNode, &[Token]), Halt>
    ensures { Answers as_it_is result (read_generic tokens.now) }
{
    let (_, rest) = fixed(Symbol::Sign(Sign::OpenBracket), tokens)?;
    let (asset, rest) = flag(Word::Asset, rest)?;
    let (name, rest) = name_part(alloc, rest)?;
    let (name, rest) = before(name, Symbol::Sign(Sign::At), rest)?;
    let (name, perm, rest) = with(name, name_part(alloc, rest))?;
    let (names, bound, rest) = with((name, perm), bound(alloc, rest))?;
    let (parts, rest) = before((names, bound), Symbol::Sign(Sign::CloseBracket), rest)?;
    let ((name, perm), bound) = parts;
    Ok((
        ParamNode {
            asset,
            name,
            perm,
            bound,
            span: span_between(tokens, rest),
        },
        rest,
    ))
}

/// `[generic]`
fn optional_generic(alloc: Global, tokens: &[Token]) -> Result<(Option<ParamNode>, &[Token]), Halt>
    ensures { Answers as_it_is result (read_maybe_generic tokens.now) }
{
    if !starts_with(tokens, Symbol::Sign(Sign::OpenBracket)) {
        return Ok((None, tokens));
    }
    let (param, rest) = generic(alloc, tokens)?;
    Ok((Some(param), rest))
}

// ---- the parts of a contract

/// `NAME [generic]`
fn title(alloc: Global, tokens: &[Token]) -> Result<(TitlePart, &[Token]), Halt>
    ensures { Answers title_part result (read_title tokens.now) }
{
    let (name, rest) = name_part(alloc, tokens)?;
    let (name, param, rest) = with(name, optional_generic(alloc, rest))?;
    Ok((TitlePart { name, param }, rest))
}

/// `["implements" named]`
fn implemented(
    alloc: Global,
    room: u8,
    tokens: &[Token],
) -> Result<(Option<NamedNode>, &[Token]), Halt>
    ensures { Answers (option_map named_of) result (read_implements (read_named all_refs room) tokens.now) }
{
    if !starts_with(tokens, Symbol::Word(Word::Implements)) {
        return Ok((None, tokens));
    }
    let (_, rest) = fixed(Symbol::Word(Word::Implements), tokens)?;
    let (of, rest) = named(alloc, room, rest)?;
    Ok((Some(of), rest))
}

/// `{member}`
fn member_list(alloc: Global, room: u8, tokens: &[Token]) -> Result<(Items<Member>, &[Token]), Halt>
    ensures { Answers (map member_of) result (read_many member_first (read_member (all_refs room) (all_blocks room)) tokens.now) }
{
    let mut members = Items::new(alloc);
    let mut rest = tokens;
    'members: while starts_with_one_of(rest, &MEMBER_FIRST) {
        let (member, after) = member(alloc, room, rest)?;
        members.push(member)?;
        rest = after;
    }
    Ok((members, rest))
}

/// `{"state" NAME ";" | head ";"}`
fn promise_list(
    alloc: Global,
    room: u8,
    tokens: &[Token],
) -> Result<(Items<Member>, &[Token]), Halt>
    ensures { Answers (map member_of) result (read_many promise_first (read_interface_member (all_refs room)) tokens.now) }
{
    let mut members = Items::new(alloc);
    let mut rest = tokens;
    'members: while starts_with_one_of(rest, &PROMISE_FIRST) {
        let (member, after) = interface_member(alloc, room, rest)?;
        members.push(member)?;
        rest = after;
    }
    Ok((members, rest))
}

/// Members with the place of the brace that closes them.
fn closed(
    members: Items<Member>,
    tokens: &[Token],
) -> Result<((Items<Member>, Span), &[Token]), Halt>
    ensures { Answers body_parts result (read_as (λ end. (map member_of members, end)) (read_sign CloseBrace) tokens.now) }
{
    match fixed(Symbol::Sign(Sign::CloseBrace), tokens) {
        Ok((end, rest)) => Ok(((members, end), rest)),
        Err(halt) => Err(halt),
    }
}

/// `"{" {member} "}"`, with the place of the closing brace.
fn contract_body(
    alloc: Global,
    room: u8,
    tokens: &[Token],
) -> Result<((Items<Member>, Span), &[Token]), Halt>
    ensures { Answers body_parts result (read_body member_first (read_member (all_refs room) (all_blocks room)) tokens.now) }
{
    let (_, rest) = fixed(Symbol::Sign(Sign::OpenBrace), tokens)?;
    let (members, rest) = member_list(alloc, room, rest)?;
    closed(members, rest)
}

/// `"{" {"state" NAME ";" | head ";"} "}"`, with the place of the closing brace.
fn interface_body(
    alloc: Global,
    room: u8,
    tokens: &[Token],
) -> Result<((Items<Member>, Span), &[Token]), Halt>
    ensures { Answers body_parts result (read_body promise_first (read_interface_member (all_refs room)) tokens.now) }
{
    let (_, rest) = fixed(Symbol::Sign(Sign::OpenBrace), tokens)?;
    let (members, rest) = promise_list(alloc, room, rest)?;
    closed(members, rest)
}

/// `"contract" NAME [generic] ["implements" named] "{" {member} "}"`
fn contract_kind(alloc: Global, room: u8, tokens: &[Token]) -> Result<(KindPart, &[Token]), Halt>
    ensures { Answers kind_part result (read_contract_kind (read_named all_refs room) (all_refs room) (all_blocks room) tokens.now) }
{
    let (_, rest) = fixed(Symbol::Word(Word::Contract), tokens)?;
    let (title, rest) = title(alloc, rest)?;
    let (title, implements, rest) = with(title, implemented(alloc, room, rest))?;
    let (named, body, rest) = with((title, implements), contract_body(alloc, room, rest))?;
    let (title, implements) = named;
    let (members, end) = body;
    Ok((
        KindPart {
            interface: false,
            title,
            implements,
            members,
            end,
        },
        rest,
    ))
}

/// `"interface" NAME [generic] "{" {"state" NAME ";" | head ";"} "}"`
fn interface_kind(alloc: Global, room: u8, tokens: &[Token]) -> Result<(KindPart, &[Token]), Halt>
    ensures { Answers kind_part result (read_interface_kind (all_refs room) tokens.now) }
{
    let (_, rest) = fixed(Symbol::Word(Word::Interface), tokens)?;
    let (title, rest) = title(alloc, rest)?;
    let (title, (members, end), rest) = with(title, interface_body(alloc, room, rest))?;
    Ok((
        KindPart {
            interface: true,
            title,
            implements: None,
            members,
            end,
        },
        rest,
    ))
}

/// A contract or an interface from that word on.
fn kind(alloc: Global, room: u8, tokens: &[Token]) -> Result<(KindPart, &[Token]), Halt>
    ensures { Answers kind_part result (read_kind (read_named all_refs room) (all_refs room) (all_blocks room) tokens.now) }
{
    if starts_with(tokens, Symbol::Word(Word::Contract)) {
        return contract_kind(alloc, room, tokens);
    }
    interface_kind(alloc, room, tokens)
}

// ---- contracts and programs

/// The contract or the interface that these parts make.
fn contract_node(main: bool, asset: bool, kind: KindPart) -> ContractNode
    ensures { contract_of result ≡ made_contract main (asset, kind_part kind) }
{
    let KindPart {
        interface,
        title,
        implements,
        members,
        end,
    } = kind;
    let TitlePart { name, param } = title;
    let NamePart { name, span } = name;
    ContractNode {
        main,
        asset,
        interface,
        name,
        param,
        implements,
        members,
        span,
        end,
    }
}

/// `"main" ["asset"] "contract" ..`
fn main_contract(
    alloc: Global,
    room: u8,
    tokens: &[Token],
) -> Result<(ContractNode, &[Token]), Halt>
    ensures { Answers contract_of result (read_main (read_named all_refs room) (all_refs room) (all_blocks room) tokens.now) }
{
    let (_, rest) = fixed(Symbol::Word(Word::Main), tokens)?;
    let (asset, rest) = flag(Word::Asset, rest)?;
    let (kind, rest) = contract_kind(alloc, room, rest)?;
    Ok((contract_node(true, asset, kind), rest))
}

/// `["asset"] ("contract" .. | "interface" ..)`
fn other_contract(
    alloc: Global,
    room: u8,
    tokens: &[Token],
) -> Result<(ContractNode, &[Token]), Halt>
    ensures { Answers contract_of result (read_other (read_named all_refs room) (all_refs room) (all_blocks room) tokens.now) }
{
    let (asset, rest) = flag(Word::Asset, tokens)?;
    let (kind, rest) = kind(alloc, room, rest)?;
    Ok((contract_node(false, asset, kind), rest))
}

/// `contract | interface`
fn contract(alloc: Global, room: u8, tokens: &[Token]) -> Result<(ContractNode, &[Token]), Halt>
    ensures { Answers contract_of result (read_contract (read_named all_refs room) (all_refs room) (all_blocks room) tokens.now) }
{
    if starts_with(tokens, Symbol::Word(Word::Main)) {
        return main_contract(alloc, room, tokens);
    }
    other_contract(alloc, room, tokens)
}

/// `program`, and what is after it.
pub fn program(
    alloc: Global,
    room: u8,
    tokens: &[Token],
) -> Result<(Items<ContractNode>, &[Token]), Halt>
    ensures { Answers (map contract_of) result (all_programs room tokens.now) }
{
    let mut contracts = Items::new(alloc);
    let mut rest = tokens;
    'contracts: while starts_with_one_of(rest, &CONTRACT_FIRST) {
        let (contract, after) = contract(alloc, room, rest)?;
        contracts.push(contract)?;
        rest = after;
    }
    Ok((contracts, rest))
}
