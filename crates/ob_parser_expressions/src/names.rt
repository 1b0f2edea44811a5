//! Names, permissions and types:
//!
//! ```text
//! mode  = "Owned" | "Unowned" | "Shared"
//! perm  = mode | NAME {"|" NAME}
//! named = NAME ["[" ref "]"]
//! ref   = named "@" perm
//! type  = "int" | "bool" | "string" | ref
//! ```

ghost use Rattle.std.specs.Prelude.{◌≡◌, option_map, IfOk, IfErr};
ghost use Rattle.ob_tree.specs.NamesView.{named_of, ref_of, type_of};
ghost use Rattle.ob_parser_spec.specs.Readers.{one_among, begin_with, name_if, read_token};
ghost use Rattle.ob_parser_spec.specs.NameReaders.{read_counted, read_parted, read_item, read_argument, read_named, symbol_of_mode, kinds_of_modes, mode_if, mode_with_span, read_perm};
ghost use Rattle.ob_parser_spec.specs.MemberReaders.{subject_if, value_type_if, read_type};
ghost use Rattle.ob_parser_spec.specs.AllReaders.{all_refs};
ghost use Rattle.ob_parser_expressions.specs.Answering.{Answers, AnswersBoth, as_it_is};
ghost use Rattle.ob_lexer.specs.declared.token.Sign.TheVariants.{OpenBracket, CloseBracket};
ghost use Rattle.ob_parser_expressions.specs.declared.halt.Halt.TheVariants.{Memory};

use crate::halt::Halt;
use crate::parts::{before, with};
use crate::tokens::{
    Symbol, fixed, is_symbol, opens, refused, span_between, starts_with, starts_with_one_of,
};
use ob_base::{Boxed, Items, Mode, Name, Span, Text};
use ob_lexer::{Sign, Token, TokenKind, Word};
use ob_tree::{MODES, NamePart, NamedNode, PermNode, RefNode, Subject, TypeNode, word_of_mode};
use std::alloc::Global;

// Each name is a text, so only memory can be missing.
fn text_of(alloc: Global, name: &Name) -> Result<Text, Halt>
    ensures ok { IfOk result (λ text. text ≡ name.now) }
    ensures err { IfErr result (λ e. e ≡ Memory) }
{
    match Text::of(alloc, name.as_bytes()) {
        Ok(text) => Ok(text),
        Err(_) => Err(Halt::Memory),
    }
}

/// `NAME`
pub fn name_part(alloc: Global, tokens: &[Token]) -> Result<(NamePart, &[Token]), Halt>
    ensures { Answers as_it_is result (read_token name_if tokens.now) }
{
    match tokens {
        [token, rest @ ..] => match &token.kind {
            TokenKind::Name(name) => {
                let name = text_of(alloc, name)?;
                Ok((
                    NamePart {
                        name,
                        span: token.span,
                    },
                    rest,
                ))
            }
            _ => Err(refused(tokens)),
        },
        [] => Err(refused(tokens)),
    }
}

/// `separator NAME`
fn next_name(alloc: Global, separator: Sign, tokens: &[Token]) -> Result<(NamePart, &[Token]), Halt>
    ensures { Answers as_it_is result (read_item separator (read_token name_if) tokens.now) }
{
    let (_, rest) = fixed(Symbol::Sign(separator), tokens)?;
    name_part(alloc, rest)
}

/// `NAME {separator NAME}`
pub fn name_list(
    alloc: Global,
    separator: Sign,
    tokens: &[Token],
) -> Result<(Items<NamePart>, &[Token]), Halt>
    ensures { Answers as_it_is result (read_parted separator (read_token name_if) tokens.now) }
{
    let (first, rest) = name_part(alloc, tokens)?;
    let mut names = Items::new(alloc);
    names.push(first)?;
    let mut rest = rest;
    'names: while starts_with(rest, Symbol::Sign(separator)) {
        let (name, after) = next_name(alloc, separator, rest)?;
        names.push(name)?;
        rest = after;
    }
    Ok((names, rest))
}

/// `NAME | "this"`
pub fn subject(alloc: Global, tokens: &[Token]) -> Result<(Subject, &[Token]), Halt>
    ensures { Answers as_it_is result (read_token subject_if tokens.now) }
{
    match tokens {
        [
            Token {
                kind: TokenKind::Word(Word::This),
                span,
            },
            rest @ ..,
        ] => Ok((Subject::This(*span), rest)),
        _ => {
            let (name, rest) = name_part(alloc, tokens)?;
            Ok((Subject::Name(name), rest))
        }
    }
}

// The mode among these that a token is.
fn mode_among(modes: &[Mode], token: &Token) -> Option<Mode>
    ensures { result ≡ one_among symbol_of_mode modes.now token.now }
{
    for mode in modes {
        if is_symbol(token, Symbol::Word(word_of_mode(*mode))) {
            return Some(*mode);
        }
    }
    None
}

fn starts_with_mode(tokens: &[Token]) -> bool
    ensures { result ≡ begin_with kinds_of_modes tokens.now }
{
    match tokens {
        [token, ..] => mode_among(&MODES, token).is_some(),
        [] => false,
    }
}

/// `mode`
pub fn mode_word(tokens: &[Token]) -> Result<(Mode, Span, &[Token]), Halt>
    ensures { AnswersBoth mode_with_span result (read_token mode_if tokens.now) }
{
    match tokens {
        [token, rest @ ..] => match mode_among(&MODES, token) {
            Some(mode) => Ok((mode, token.span, rest)),
            None => Err(refused(tokens)),
        },
        [] => Err(refused(tokens)),
    }
}

/// The words of the types that have no permission.
pub const VALUE_TYPES: [Symbol; 3] = [
    Symbol::Word(Word::Int),
    Symbol::Word(Word::Bool),
    Symbol::Word(Word::String),
];

/// `perm`
pub fn permission(alloc: Global, tokens: &[Token]) -> Result<(PermNode, &[Token]), Halt>
    ensures { Answers as_it_is result (read_perm tokens.now) }
{
    if starts_with_mode(tokens) {
        let (mode, span, rest) = mode_word(tokens)?;
        return Ok((PermNode::Mode(mode, span), rest));
    }
    let (states, rest) = name_list(alloc, Sign::Bar, tokens)?;
    Ok((PermNode::States(states), rest))
}

/// `"[" ref "]"`
#[cycle(named)]
fn bracketed(alloc: Global, room: u8, tokens: &[Token]) -> Result<(RefNode, &[Token]), Halt>
    ensures { Answers ref_of result (read_counted OpenBracket room all_refs CloseBracket tokens.now) }
{
    let (_, rest) = opens(room, Symbol::Sign(Sign::OpenBracket), tokens)?;
    let (of, rest) = reference(alloc, room - 1, rest)?;
    before(of, Symbol::Sign(Sign::CloseBracket), rest)
}

/// `["[" ref "]"]`
#[cycle(named)]
fn argument(
    alloc: Global,
    room: u8,
    tokens: &[Token],
) -> Result<(Option<Boxed<RefNode>>, &[Token]), Halt>
    ensures { Answers (option_map ref_of) result (read_argument all_refs room tokens.now) }
{
    if !starts_with(tokens, Symbol::Sign(Sign::OpenBracket)) {
        return Ok((None, tokens));
    }
    let (of, rest) = bracketed(alloc, room, tokens)?;
    Ok((Some(Boxed::new(alloc, of)?), rest))
}

/// `named`
#[cycle(named)]
pub fn named(alloc: Global, room: u8, tokens: &[Token]) -> Result<(NamedNode, &[Token]), Halt>
    ensures { Answers named_of result (read_named all_refs room tokens.now) }
{
    let (part, rest) = name_part(alloc, tokens)?;
    let (argument, rest) = argument(alloc, room, rest)?;
    Ok((
        NamedNode {
            name: part.name,
            argument,
            span: span_between(tokens, rest),
        },
        rest,
    ))
}

/// `ref`
#[cycle(named)]
pub fn reference(alloc: Global, room: u8, tokens: &[Token]) -> Result<(RefNode, &[Token]), Halt>
    ensures { Answers ref_of result (all_refs room tokens.now) }
{
    let (of, rest) = named(alloc, room, tokens)?;
    let (of, rest) = before(of, Symbol::Sign(Sign::At), rest)?;
    let (of, perm, rest) = with(of, permission(alloc, rest))?;
    Ok((RefNode { of, perm }, rest))
}

/// `"int" | "bool" | "string"`
pub fn value_type(tokens: &[Token]) -> Result<(TypeNode, &[Token]), Halt>
    ensures { Answers type_of result (read_token value_type_if tokens.now) }
{
    match tokens {
        [token, rest @ ..] => match &token.kind {
            TokenKind::Word(Word::Int) => Ok((TypeNode::Int(token.span), rest)),
            TokenKind::Word(Word::Bool) => Ok((TypeNode::Bool(token.span), rest)),
            TokenKind::Word(Word::String) => Ok((TypeNode::Text(token.span), rest)),
            _ => Err(refused(tokens)),
        },
        [] => Err(refused(tokens)),
    }
}

/// `type`
pub fn type_node(alloc: Global, room: u8, tokens: &[Token]) -> Result<(TypeNode, &[Token]), Halt>
    ensures { Answers type_of result (read_type (all_refs room) tokens.now) }
{
    if starts_with_one_of(tokens, &VALUE_TYPES) {
        return value_type(tokens);
    }
    let (of, rest) = reference(alloc, room, tokens)?;
    Ok((TypeNode::Reference(of), rest))
}
