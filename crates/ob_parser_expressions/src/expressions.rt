//! Expressions:
//!
//! ```text
//! expr    = and {"||" and}
//! and     = eq {"&&" eq}
//! eq      = rel [("==" | "!=") rel]
//! rel     = add [("<" | "<=" | ">" | ">=") add]
//! add     = mul {("+" | "-") mul}
//! mul     = unary {("*" | "/" | "%") unary}
//! unary   = ("!" | "-") unary | primary
//! primary = NUMBER | STRING | "true" | "false" | NAME | "this" | call | new | "(" expr ")"
//! call    = [(NAME | "this") "."] NAME "(" [expr {"," expr}] ")"
//! new     = "new" named "(" [expr {"," expr}] ")"
//! ```
//!
//! An operator stays open up to the end of the outermost row that it stands in. So a binary row answers, too, how many
//! operators are read in it, which is at most its room.
ghost use Rattle.std.specs.Prelude.{◌+◌, ◌≤◌, map, IfOk};
ghost use Rattle.ob_lexer.specs.declared.token.Sign.TheVariants.{Comma};
ghost use Rattle.ob_tree.specs.ExprsView.{expr_of, exprs_of};
ghost use Rattle.ob_parser_spec.specs.Readers.{read_as, read_opened};
ghost use Rattle.ob_parser_spec.specs.NameReaders.{read_parted};
ghost use Rattle.ob_parser_spec.specs.Operators.{operator_if, signs_of_level};
ghost use Rattle.ob_parser_spec.specs.Chains.{with_step, read_chain, read_single};
ghost use Rattle.ob_parser_spec.specs.Primaries.{uncounted, read_group, read_arguments, read_applied, read_new, read_method, read_this, read_tail, read_name, read_primary};
ghost use Rattle.ob_parser_spec.specs.StmtReaders.{read_called_name, read_called_this};
ghost use Rattle.ob_parser_spec.specs.AllReaders.{all_refs, all_unary, all_counted, all_exprs};
ghost use Rattle.ob_parser_expressions.specs.Levels.{number_of_level, read_row, read_operand};
ghost use Rattle.ob_parser_expressions.specs.Answering.{Answers, AnswersBoth};
ghost use Rattle.ob_parser_expressions.specs.ExprAnswers.{with_count, with_none, tail_of, method_parts, step_of};

use crate::halt::Halt;
use crate::levels::{
    Level, opens_operator, opens_unary, repeats, starts_with_operator, starts_with_unary, tighter,
};
use crate::names::{name_part, named};
use crate::parts::before;
use crate::primaries::{Operation, TailPart, binary, called, called_this, literal, moved, negated};
use crate::tokens::{Symbol, fixed, opens, span_between, starts_with, starts_with_one_of};
use ob_base::{Items, Span};
use ob_lexer::{Sign, Token, Word};
use ob_tree::{Expr, NamePart};
use std::alloc::Global;

/// What an expression begins with.
pub const EXPRESSION_FIRST: [Symbol; 10] = [
    Symbol::Sign(Sign::Not),
    Symbol::Sign(Sign::Minus),
    Symbol::Sign(Sign::OpenParen),
    Symbol::Word(Word::New),
    Symbol::Name,
    Symbol::Word(Word::This),
    Symbol::Number,
    Symbol::Text,
    Symbol::Word(Word::True),
    Symbol::Word(Word::False),
];

/// What follows a name that begins a call.
const TAIL_FIRST: [Symbol; 2] = [Symbol::Sign(Sign::Dot), Symbol::Sign(Sign::OpenParen)];

// ---- rows of binary operators

/// `expr`
#[cycle(expr)]
pub fn expression(alloc: Global, room: u8, tokens: &[Token]) -> Result<(Expr, &[Token]), Halt>
    ensures { Answers expr_of result (all_exprs room tokens.now) }
{
    let (expr, _, rest) = row(alloc, Level::Or, room, tokens)?;
    Ok((expr, rest))
}

/// A row of binary operators, and how many are read in it.
#[cycle(expr)]
fn row(
    alloc: Global,
    level: Level,
    room: u8,
    tokens: &[Token],
) -> Result<(Expr, u8, &[Token]), Halt>
    ensures read { AnswersBoth with_count result (read_row level room tokens.now) }
    ensures few { IfOk result (λ x. x.1 ≤ room) }
{
    if repeats(level) {
        chain(alloc, level, room, tokens)
    } else {
        single(alloc, level, room, tokens)
    }
}

/// A row with any number of operators.
#[cycle(expr)]
fn chain(
    alloc: Global,
    level: Level,
    room: u8,
    tokens: &[Token],
) -> Result<(Expr, u8, &[Token]), Halt>
    ensures read { AnswersBoth with_count result
        (read_chain (signs_of_level (number_of_level level)) (operator_if (number_of_level level)) (read_operand level) room tokens.now) }
    ensures few { IfOk result (λ x. x.1 ≤ room) }
{
    let (first, before, rest) = operand(alloc, level, room, tokens)?;
    let mut expr = first;
    let mut count = before;
    let mut rest = rest;
    'operators: while starts_with_operator(level, rest) {
        let (whole, more, after) = extended(alloc, level, room - count, expr, rest)?;
        expr = whole;
        count += more;
        rest = after;
    }
    Ok((expr, count, rest))
}

/// A row with one operator at most.
#[cycle(expr)]
fn single(
    alloc: Global,
    level: Level,
    room: u8,
    tokens: &[Token],
) -> Result<(Expr, u8, &[Token]), Halt>
    ensures read { AnswersBoth with_count result
        (read_single (signs_of_level (number_of_level level)) (operator_if (number_of_level level)) (read_operand level) room tokens.now) }
    ensures few { IfOk result (λ x. x.1 ≤ room) }
{
    let (left, count, rest) = operand(alloc, level, room, tokens)?;
    if !starts_with_operator(level, rest) {
        return Ok((left, count, rest));
    }
    let (expr, more, rest) = extended(alloc, level, room - count, left, rest)?;
    Ok((expr, count + more, rest))
}

/// What stands between the operators of a row.
#[cycle(expr)]
fn operand(
    alloc: Global,
    level: Level,
    room: u8,
    tokens: &[Token],
) -> Result<(Expr, u8, &[Token]), Halt>
    ensures read { AnswersBoth with_count result (read_operand level room tokens.now) }
    ensures few { IfOk result (λ x. x.1 ≤ room) }
{
    match tighter(level) {
        Some(next) => row(alloc, next, room, tokens),
        None => unary(alloc, room, tokens),
    }
}

/// An operator and the operand after it, in the room that the operators before them leave.
#[cycle(expr)]
fn operation(
    alloc: Global,
    level: Level,
    room: u8,
    tokens: &[Token],
) -> Result<(Operation, u8, &[Token]), Halt>
    ensures read { AnswersBoth step_of result (read_opened (operator_if (number_of_level level)) 1 room (read_operand level) tokens.now) }
    ensures few { IfOk result (λ x. x.1 + 1 ≤ room) }
{
    let (operator, sign, rest) = opens_operator(level, room, tokens)?;
    let (right, after, rest) = operand(alloc, level, room - 1, rest)?;
    Ok((
        Operation {
            operator,
            sign,
            right,
        },
        after,
        rest,
    ))
}

/// An operation after its left operand, and how many operators are read for it.
#[cycle(expr)]
fn extended(
    alloc: Global,
    level: Level,
    room: u8,
    left: Expr,
    tokens: &[Token],
) -> Result<(Expr, u8, &[Token]), Halt>
    ensures read { AnswersBoth with_count result
        (read_as (with_step (expr_of left, 0)) (read_opened (operator_if (number_of_level level)) 1 room (read_operand level)) tokens.now) }
    ensures few { IfOk result (λ x. x.1 ≤ room) }
{
    match operation(alloc, level, room, tokens) {
        Ok((operation, after, rest)) => match binary(alloc, left, operation) {
            Ok(expr) => Ok((expr, 1 + after, rest)),
            Err(halt) => Err(halt),
        },
        Err(halt) => Err(halt),
    }
}

// ---- operands

/// `unary`
#[cycle(expr)]
fn unary(alloc: Global, room: u8, tokens: &[Token]) -> Result<(Expr, u8, &[Token]), Halt>
    ensures read { AnswersBoth with_count result (all_unary room tokens.now) }
    ensures few { IfOk result (λ x. x.1 ≤ room) }
{
    if starts_with_unary(tokens) {
        let (operator, sign, rest) = opens_unary(room, tokens)?;
        let (operand, count, rest) = unary(alloc, room - 1, rest)?;
        let expr = negated(alloc, operator, sign, operand, span_between(tokens, rest))?;
        return Ok((expr, count, rest));
    }
    let (expr, rest) = primary(alloc, room, tokens)?;
    Ok((expr, 0, rest))
}

/// `primary`
#[cycle(expr)]
fn primary(alloc: Global, room: u8, tokens: &[Token]) -> Result<(Expr, &[Token]), Halt>
    ensures { Answers with_none result (read_primary all_refs all_counted room tokens.now) }
{
    if starts_with(tokens, Symbol::Sign(Sign::OpenParen)) {
        return group(alloc, room, tokens);
    }
    if starts_with(tokens, Symbol::Word(Word::New)) {
        return new(alloc, room, tokens);
    }
    if starts_with(tokens, Symbol::Name) {
        return name(alloc, room, tokens);
    }
    if starts_with(tokens, Symbol::Word(Word::This)) {
        return this(alloc, room, tokens);
    }
    literal(alloc, tokens)
}

/// `"(" expr ")"`
#[cycle(expr)]
fn group(alloc: Global, room: u8, tokens: &[Token]) -> Result<(Expr, &[Token]), Halt>
    ensures { Answers with_none result (read_group all_counted room tokens.now) }
{
    let (_, rest) = opens(room, Symbol::Sign(Sign::OpenParen), tokens)?;
    let (expr, _, rest) = row(alloc, Level::Or, room - 1, rest)?;
    let (expr, rest) = before(expr, Symbol::Sign(Sign::CloseParen), rest)?;
    Ok((moved(span_between(tokens, rest), expr), rest))
}

/// `new`
#[cycle(expr)]
fn new(alloc: Global, room: u8, tokens: &[Token]) -> Result<(Expr, &[Token]), Halt>
    ensures { Answers with_none result (read_new all_refs all_counted room tokens.now) }
{
    let (_, rest) = fixed(Symbol::Word(Word::New), tokens)?;
    let (of, rest) = named(alloc, room, rest)?;
    let (args, rest) = applied(alloc, room, rest)?;
    Ok((
        Expr::New {
            of,
            args,
            span: span_between(tokens, rest),
        },
        rest,
    ))
}

/// `NAME`, or a call that begins with one.
#[cycle(expr)]
fn name(alloc: Global, room: u8, tokens: &[Token]) -> Result<(Expr, &[Token]), Halt>
    ensures { Answers with_none result (read_name all_counted room tokens.now) }
{
    let (name, rest) = name_part(alloc, tokens)?;
    if !starts_with_one_of(rest, &TAIL_FIRST) {
        let span = span_between(tokens, rest);
        return Ok((Expr::Name { name, span }, rest));
    }
    let (tail, rest) = tail(alloc, room, rest)?;
    Ok((called(name, tail, span_between(tokens, rest)), rest))
}

/// `"this"`, or a call that begins with it.
#[cycle(expr)]
fn this(alloc: Global, room: u8, tokens: &[Token]) -> Result<(Expr, &[Token]), Halt>
    ensures { Answers with_none result (read_this all_counted room tokens.now) }
{
    let (token, rest) = fixed(Symbol::Word(Word::This), tokens)?;
    if !starts_with(rest, Symbol::Sign(Sign::Dot)) {
        let span = span_between(tokens, rest);
        return Ok((Expr::This { token, span }, rest));
    }
    let (_, (name, args), rest) = method(alloc, room, rest)?;
    Ok((
        called_this(token, name, args, span_between(tokens, rest)),
        rest,
    ))
}

// ---- calls

/// What stands after the name that begins a call.
#[cycle(expr)]
fn tail(alloc: Global, room: u8, tokens: &[Token]) -> Result<(TailPart, &[Token]), Halt>
    ensures { Answers tail_of result (read_tail all_counted room tokens.now) }
{
    if starts_with(tokens, Symbol::Sign(Sign::Dot)) {
        let (_, (name, args), rest) = method(alloc, room, tokens)?;
        return Ok((TailPart::Method { name, args }, rest));
    }
    let (args, rest) = applied(alloc, room, tokens)?;
    Ok((TailPart::Applied { args }, rest))
}

/// `"." NAME "(" [expr {"," expr}] ")"`, with the place of the dot.
#[cycle(expr)]
fn method(
    alloc: Global,
    room: u8,
    tokens: &[Token],
) -> Result<(Span, (NamePart, Items<Expr>), &[Token]), Halt>
    ensures { AnswersBoth method_parts result (read_method all_counted room tokens.now) }
{
    let (dot, rest) = fixed(Symbol::Sign(Sign::Dot), tokens)?;
    let (name, rest) = name_part(alloc, rest)?;
    let (args, rest) = applied(alloc, room, rest)?;
    Ok((dot, (name, args), rest))
}

/// `"(" [expr {"," expr}] ")"`
#[cycle(expr)]
fn applied(alloc: Global, room: u8, tokens: &[Token]) -> Result<(Items<Expr>, &[Token]), Halt>
    ensures { Answers exprs_of result (read_applied all_counted room tokens.now) }
{
    let (_, rest) = opens(room, Symbol::Sign(Sign::OpenParen), tokens)?;
    let (args, rest) = arguments(alloc, room - 1, rest)?;
    before(args, Symbol::Sign(Sign::CloseParen), rest)
}

/// `[expr {"," expr}]`
#[cycle(expr)]
fn arguments(alloc: Global, room: u8, tokens: &[Token]) -> Result<(Items<Expr>, &[Token]), Halt>
    ensures { Answers exprs_of result (read_arguments (all_counted room) tokens.now) }
{
    if !starts_with_one_of(tokens, &EXPRESSION_FIRST) {
        return Ok((Items::new(alloc), tokens));
    }
    list(alloc, room, tokens)
}

/// `expr {"," expr}`
#[cycle(expr)]
fn list(alloc: Global, room: u8, tokens: &[Token]) -> Result<(Items<Expr>, &[Token]), Halt>
    ensures { Answers (map expr_of) result (read_parted Comma (all_exprs room) tokens.now) }
{
    let (first, rest) = expression(alloc, room, tokens)?;
    let mut args = Items::new(alloc);
    args.push(first)?;
    let mut rest = rest;
    'arguments: while starts_with(rest, Symbol::Sign(Sign::Comma)) {
        let (_, after) = fixed(Symbol::Sign(Sign::Comma), rest)?;
        let (arg, after) = expression(alloc, room, after)?;
        args.push(arg)?;
        rest = after;
    }
    Ok((args, rest))
}

// ---- what begins statements, too

/// A call that begins with a name.
pub fn named_call(alloc: Global, room: u8, tokens: &[Token]) -> Result<(Expr, &[Token]), Halt>
    ensures { Answers expr_of result (read_called_name all_counted room tokens.now) }
{
    let (name, rest) = name_part(alloc, tokens)?;
    let (tail, rest) = tail(alloc, room, rest)?;
    Ok((called(name, tail, span_between(tokens, rest)), rest))
}

/// A call of `this`.
pub fn this_call(alloc: Global, room: u8, tokens: &[Token]) -> Result<(Expr, &[Token]), Halt>
    ensures { Answers expr_of result (read_called_this all_counted room tokens.now) }
{
    let (token, rest) = fixed(Symbol::Word(Word::This), tokens)?;
    let (_, (name, args), rest) = method(alloc, room, rest)?;
    Ok((
        called_this(token, name, args, span_between(tokens, rest)),
        rest,
    ))
}

/// `new`
pub fn creation(alloc: Global, room: u8, tokens: &[Token]) -> Result<(Expr, &[Token]), Halt>
    ensures { Answers expr_of result (read_as uncounted (read_new all_refs all_counted room) tokens.now) }
{
    new(alloc, room, tokens)
}
