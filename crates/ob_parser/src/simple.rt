//! Statements that have no blocks:
//!
//! ```text
//! ("int" | "bool" | "string" | named) NAME "=" expr ";"
//! NAME "=" expr ";"
//! NAME "::" NAME "=" expr ";"
//! "->" NAME ["(" [NAME "=" expr {"," NAME "=" expr}] ")"] ";"
//! (call | new) ";"
//! "return" [expr] ";"
//! "revert" [expr] ";"
//! "disown" NAME ";"
//! "[" (NAME | "this") "@" perm "]" ";"
//! ```

ghost use Rattle.std.specs.Prelude.{option_map, map, [], ◌∷◌};
ghost use Rattle.ob_tree.specs.Stmts.{named_local, declare_stmt, change_stmt};
ghost use Rattle.ob_tree.specs.ExprsView.{expr_of};
ghost use Rattle.ob_tree.specs.StmtsView.{local_of, given_of, stmt_of};
ghost use Rattle.ob_parser_spec.specs.Symbols.{a_name, a_word, number};
ghost use Rattle.ob_parser_spec.specs.Readers.{◌>>=◌ as ◌then◌, done, name_if, span_between, read_token, read_both, read_either, read_as, read_maybe};
ghost use Rattle.ob_parser_spec.specs.NameReaders.{read_named, read_item, read_parted};
ghost use Rattle.ob_parser_spec.specs.Primaries.{uncounted, expr_first, read_new};
ghost use Rattle.ob_parser_spec.specs.MemberReaders.{read_maybe_parted};
ghost use Rattle.ob_parser_spec.specs.StmtReaders.{read_sign, value_local_if, read_assigned, read_declare, read_assign, read_stage, read_given, read_enclosed_given, read_all_given, read_change, read_called_name, read_called_this, read_call, read_return, read_revert, read_disown, read_assert, read_after_name, read_simple};
ghost use Rattle.ob_parser_spec.specs.AllReaders.{all_refs, all_counted, all_exprs};
ghost use Rattle.ob_parser_expressions.specs.Answering.{Answers};
ghost use Rattle.ob_parser.specs.CodeStatements.{named_value};
ghost use Rattle.ob_lexer.specs.declared.token.Sign.TheVariants.{Comma, Semicolon};
ghost use Rattle.ob_lexer.specs.declared.token.Word.TheVariants.{This};

use ob_base::Items;
use ob_lexer::{Sign, Token, TokenKind, Word};
use ob_parser_expressions::{
    EXPRESSION_FIRST, Halt, Symbol, VALUE_TYPES, before, creation, ended, expression, fixed,
    name_part, named, named_call, permission, refused, span_between, starts_with, starts_with_both,
    starts_with_one_of, subject, this_call, with,
};
use ob_tree::{Expr, GivenNode, LocalType, NamePart, Stmt};
use std::alloc::Global;

// ---- parts

/// `"=" expr ";"`
fn assigned(alloc: Global, room: u8, tokens: &[Token]) -> Result<(Expr, &[Token]), Halt>
    ensures { Answers expr_of result (read_assigned (all_exprs room) tokens.now) }
{
    let (_, rest) = fixed(Symbol::Sign(Sign::Equals), tokens)?;
    let (value, rest) = expression(alloc, room, rest)?;
    before(value, Symbol::Sign(Sign::Semicolon), rest)
}

/// The parts of `NAME "=" expr ";"`.
fn name_assigned(
    alloc: Global,
    room: u8,
    tokens: &[Token],
) -> Result<((NamePart, Expr), &[Token]), Halt>
    ensures { Answers named_value result (read_both (read_token name_if) (read_assigned (all_exprs room)) tokens.now) }
{
    let (name, rest) = name_part(alloc, tokens)?;
    let (name, value, rest) = with(name, assigned(alloc, room, rest))?;
    Ok(((name, value), rest))
}

/// `[expr]`
fn optional_value(
    alloc: Global,
    room: u8,
    tokens: &[Token],
) -> Result<(Option<Expr>, &[Token]), Halt>
    ensures { Answers (option_map expr_of) result (read_maybe expr_first (all_exprs room) tokens.now) }
{
    if !starts_with_one_of(tokens, &EXPRESSION_FIRST) {
        return Ok((None, tokens));
    }
    let (value, rest) = expression(alloc, room, tokens)?;
    Ok((Some(value), rest))
}

/// `"int" | "bool" | "string"`
fn value_local(tokens: &[Token]) -> Result<(LocalType, &[Token]), Halt>
    ensures { Answers local_of result (read_token value_local_if tokens.now) }
{
    match tokens {
        [token, rest @ ..] => match &token.kind {
            TokenKind::Word(Word::Int) => Ok((LocalType::Int(token.span), rest)),
            TokenKind::Word(Word::Bool) => Ok((LocalType::Bool(token.span), rest)),
            TokenKind::Word(Word::String) => Ok((LocalType::Text(token.span), rest)),
            _ => Err(refused(tokens)),
        },
        [] => Err(refused(tokens)),
    }
}

// ---- values

/// `NAME "=" expr ";"`, after the type with which the declaration begins.
fn declared<'t>(
    alloc: Global,
    room: u8,
    of: LocalType,
    tokens: &[Token],
    rest: &'t [Token],
) -> Result<(Stmt, &'t [Token]), Halt>
    ensures { Answers stmt_of result (read_both (read_token name_if) (read_assigned (all_exprs room)) rest.now
        then (λ parts left. done (declare_stmt (local_of of) parts.0 parts.1 (span_between tokens.now left)) left)) }
{
    let ((name, value), rest) = name_assigned(alloc, room, rest)?;
    let span = span_between(tokens, rest);
    Ok((
        Stmt::Declare {
            of,
            name,
            value,
            span,
        },
        rest,
    ))
}

/// `("int" | "bool" | "string") NAME "=" expr ";"`
fn value_declaration(alloc: Global, room: u8, tokens: &[Token]) -> Result<(Stmt, &[Token]), Halt>
    ensures { Answers stmt_of result (read_declare (read_token value_local_if) (all_exprs room) tokens.now) }
{
    let (of, rest) = value_local(tokens)?;
    declared(alloc, room, of, tokens, rest)
}

/// `named NAME "=" expr ";"`
fn declaration(alloc: Global, room: u8, tokens: &[Token]) -> Result<(Stmt, &[Token]), Halt>
    ensures { Answers stmt_of result (read_declare (read_as named_local (read_named all_refs room)) (all_exprs room) tokens.now) }
{
    let (of, rest) = named(alloc, room, tokens)?;
    declared(alloc, room, LocalType::Named(of), tokens, rest)
}

/// `NAME "=" expr ";"`
fn assignment(alloc: Global, room: u8, tokens: &[Token]) -> Result<(Stmt, &[Token]), Halt>
    ensures { Answers stmt_of result (read_assign (all_exprs room) tokens.now) }
{
    let ((name, value), rest) = name_assigned(alloc, room, tokens)?;
    let span = span_between(tokens, rest);
    Ok((Stmt::Assign { name, value, span }, rest))
}

/// `NAME "::" NAME "=" expr ";"`
fn staging(alloc: Global, room: u8, tokens: &[Token]) -> Result<(Stmt, &[Token]), Halt>
    ensures { Answers stmt_of result (read_stage (all_exprs room) tokens.now) }
{
    let (state, rest) = name_part(alloc, tokens)?;
    let (state, rest) = before(state, Symbol::Sign(Sign::DoubleColon), rest)?;
    let (state, (field, value), rest) = with(state, name_assigned(alloc, room, rest))?;
    let span = span_between(tokens, rest);
    Ok((
        Stmt::Stage {
            state,
            field,
            value,
            span,
        },
        rest,
    ))
}

// ---- changes of state

/// `NAME "=" expr`
fn given(alloc: Global, room: u8, tokens: &[Token]) -> Result<(GivenNode, &[Token]), Halt>
    ensures { Answers given_of result (read_given (all_exprs room) tokens.now) }
{
    let (field, rest) = name_part(alloc, tokens)?;
    let (field, rest) = before(field, Symbol::Sign(Sign::Equals), rest)?;
    let (field, value, rest) = with(field, expression(alloc, room, rest))?;
    Ok((GivenNode { field, value }, rest))
}

/// `"," NAME "=" expr`
fn next_given(alloc: Global, room: u8, tokens: &[Token]) -> Result<(GivenNode, &[Token]), Halt>
    ensures { Answers given_of result (read_item Comma (read_given (all_exprs room)) tokens.now) }
{
    let (_, rest) = fixed(Symbol::Sign(Sign::Comma), tokens)?;
    given(alloc, room, rest)
}

/// `NAME "=" expr {"," NAME "=" expr}`
fn given_list(
    alloc: Global,
    room: u8,
    tokens: &[Token],
) -> Result<(Items<GivenNode>, &[Token]), Halt>
    ensures { Answers (map given_of) result (read_parted Comma (read_given (all_exprs room)) tokens.now) }
{
    let (first, rest) = given(alloc, room, tokens)?;
    let mut list = Items::new(alloc);
    list.push(first)?;
    let mut rest = rest;
    'list: while starts_with(rest, Symbol::Sign(Sign::Comma)) {
        let (more, after) = next_given(alloc, room, rest)?;
        list.push(more)?;
        rest = after;
    }
    Ok((list, rest))
}

/// `[NAME "=" expr {"," NAME "=" expr}]`
fn optional_given_list(
    alloc: Global,
    room: u8,
    tokens: &[Token],
) -> Result<(Items<GivenNode>, &[Token]), Halt>
    ensures { Answers (map given_of) result (read_maybe_parted (number a_name ∷ []) Comma (read_given (all_exprs room)) tokens.now) }
{
    if !starts_with(tokens, Symbol::Name) {
        return Ok((Items::new(alloc), tokens));
    }
    given_list(alloc, room, tokens)
}

/// `"(" [NAME "=" expr {"," NAME "=" expr}] ")"`
fn enclosed_given(
    alloc: Global,
    room: u8,
    tokens: &[Token],
) -> Result<(Items<GivenNode>, &[Token]), Halt>
    ensures { Answers (map given_of) result (read_enclosed_given (all_exprs room) tokens.now) }
{
    let (_, rest) = fixed(Symbol::Sign(Sign::OpenParen), tokens)?;
    let (list, rest) = optional_given_list(alloc, room, rest)?;
    before(list, Symbol::Sign(Sign::CloseParen), rest)
}

/// `["(" [NAME "=" expr {"," NAME "=" expr}] ")"]`
fn all_given(
    alloc: Global,
    room: u8,
    tokens: &[Token],
) -> Result<(Items<GivenNode>, &[Token]), Halt>
    ensures { Answers (map given_of) result (read_all_given (all_exprs room) tokens.now) }
{
    if !starts_with(tokens, Symbol::Sign(Sign::OpenParen)) {
        return Ok((Items::new(alloc), tokens));
    }
    enclosed_given(alloc, room, tokens)
}

/// `["(" [NAME "=" expr {"," NAME "=" expr}] ")"] ";"`, after the state to which the change leads.
fn changed<'t>(
    alloc: Global,
    room: u8,
    state: NamePart,
    tokens: &[Token],
    rest: &'t [Token],
) -> Result<(Stmt, &'t [Token]), Halt>
    ensures { Answers stmt_of result (read_both (read_all_given (all_exprs room)) (read_sign Semicolon) rest.now
        then (λ parts left. done (change_stmt state parts.0 (span_between tokens.now left)) left)) }
{
    let (given, rest) = all_given(alloc, room, rest)?;
    let (given, span, rest) = ended(given, tokens, rest)?;
    Ok((Stmt::Change { state, given, span }, rest))
}

/// `"->" NAME ["(" [NAME "=" expr {"," NAME "=" expr}] ")"] ";"`
fn change(alloc: Global, room: u8, tokens: &[Token]) -> Result<(Stmt, &[Token]), Halt>
    ensures { Answers stmt_of result (read_change (all_exprs room) tokens.now) }
{
    let (_, rest) = fixed(Symbol::Sign(Sign::Arrow), tokens)?;
    let (state, rest) = name_part(alloc, rest)?;
    changed(alloc, room, state, tokens, rest)
}

// ---- calls

/// `call | new`
fn call(alloc: Global, room: u8, tokens: &[Token]) -> Result<(Expr, &[Token]), Halt>
    ensures { Answers expr_of result (read_either (number a_name ∷ []) (read_called_name all_counted room)
        (read_either (number (a_word This) ∷ []) (read_called_this all_counted room) (read_as uncounted (read_new all_refs all_counted room))) tokens.now) }
{
    if starts_with(tokens, Symbol::Name) {
        return named_call(alloc, room, tokens);
    }
    if starts_with(tokens, Symbol::Word(Word::This)) {
        return this_call(alloc, room, tokens);
    }
    creation(alloc, room, tokens)
}

/// `(call | new) ";"`
fn call_statement(alloc: Global, room: u8, tokens: &[Token]) -> Result<(Stmt, &[Token]), Halt>
    ensures { Answers stmt_of result (read_call (read_either (number a_name ∷ []) (read_called_name all_counted room)
        (read_either (number (a_word This) ∷ []) (read_called_this all_counted room) (read_as uncounted (read_new all_refs all_counted room)))) tokens.now) }
{
    let (value, rest) = call(alloc, room, tokens)?;
    let (value, span, rest) = ended(value, tokens, rest)?;
    Ok((Stmt::Call { value, span }, rest))
}

// ---- statements that begin with a word or a sign

/// `"return" [expr] ";"`
fn returning(alloc: Global, room: u8, tokens: &[Token]) -> Result<(Stmt, &[Token]), Halt>
    ensures { Answers stmt_of result (read_return (all_exprs room) tokens.now) }
{
    let (_, rest) = fixed(Symbol::Word(Word::Return), tokens)?;
    let (value, rest) = optional_value(alloc, room, rest)?;
    let (value, span, rest) = ended(value, tokens, rest)?;
    Ok((Stmt::Return { value, span }, rest))
}

/// `"revert" [expr] ";"`
fn reverting(alloc: Global, room: u8, tokens: &[Token]) -> Result<(Stmt, &[Token]), Halt>
    ensures { Answers stmt_of result (read_revert (all_exprs room) tokens.now) }
{
    let (_, rest) = fixed(Symbol::Word(Word::Revert), tokens)?;
    let (text, rest) = optional_value(alloc, room, rest)?;
    let (text, span, rest) = ended(text, tokens, rest)?;
    Ok((Stmt::Revert { text, span }, rest))
}

/// `"disown" NAME ";"`
fn disowning(alloc: Global, tokens: &[Token]) -> Result<(Stmt, &[Token]), Halt>
    ensures { Answers stmt_of result (read_disown tokens.now) }
{
    let (_, rest) = fixed(Symbol::Word(Word::Disown), tokens)?;
    let (name, rest) = name_part(alloc, rest)?;
    let (name, span, rest) = ended(name, tokens, rest)?;
    Ok((Stmt::Disown { name, span }, rest))
}

/// `"[" (NAME | "this") "@" perm "]" ";"`
fn assertion(alloc: Global, tokens: &[Token]) -> Result<(Stmt, &[Token]), Halt>
    ensures { Answers stmt_of result (read_assert tokens.now) }
{
    let (_, rest) = fixed(Symbol::Sign(Sign::OpenBracket), tokens)?;
    let (subject, rest) = subject(alloc, rest)?;
    let (subject, rest) = before(subject, Symbol::Sign(Sign::At), rest)?;
    let (subject, perm, rest) = with(subject, permission(alloc, rest))?;
    let (parts, rest) = before((subject, perm), Symbol::Sign(Sign::CloseBracket), rest)?;
    let ((subject, perm), span, rest) = ended(parts, tokens, rest)?;
    Ok((
        Stmt::Assert {
            subject,
            perm,
            span,
        },
        rest,
    ))
}

// ---- which statement

/// The first token of what begins with a name.
const NAMES: [Symbol; 1] = [Symbol::Name];

/// What is after the name where it begins a call.
const CALL_SIGNS: [Symbol; 2] = [Symbol::Sign(Sign::Dot), Symbol::Sign(Sign::OpenParen)];

/// A statement that begins with a name: what is after the name says which.
fn after_name(alloc: Global, room: u8, tokens: &[Token]) -> Result<(Stmt, &[Token]), Halt>
    ensures { Answers stmt_of result (read_after_name all_refs all_counted room tokens.now) }
{
    if starts_with_both(tokens, &NAMES, &[Symbol::Sign(Sign::Equals)]) {
        return assignment(alloc, room, tokens);
    }
    if starts_with_both(tokens, &NAMES, &[Symbol::Sign(Sign::DoubleColon)]) {
        return staging(alloc, room, tokens);
    }
    if starts_with_both(tokens, &NAMES, &CALL_SIGNS) {
        return call_statement(alloc, room, tokens);
    }
    declaration(alloc, room, tokens)
}

/// A statement that has no blocks.
pub fn simple(alloc: Global, room: u8, tokens: &[Token]) -> Result<(Stmt, &[Token]), Halt>
    ensures { Answers stmt_of result (read_simple all_refs all_counted room tokens.now) }
{
    if starts_with(tokens, Symbol::Name) {
        return after_name(alloc, room, tokens);
    }
    if starts_with_one_of(tokens, &VALUE_TYPES) {
        return value_declaration(alloc, room, tokens);
    }
    if starts_with(tokens, Symbol::Word(Word::This)) {
        return call_statement(alloc, room, tokens);
    }
    if starts_with(tokens, Symbol::Word(Word::New)) {
        return call_statement(alloc, room, tokens);
    }
    if starts_with(tokens, Symbol::Sign(Sign::Arrow)) {
        return change(alloc, room, tokens);
    }
    if starts_with(tokens, Symbol::Word(Word::Return)) {
        return returning(alloc, room, tokens);
    }
    if starts_with(tokens, Symbol::Word(Word::Revert)) {
        return reverting(alloc, room, tokens);
    }
    if starts_with(tokens, Symbol::Word(Word::Disown)) {
        return disowning(alloc, tokens);
    }
    assertion(alloc, tokens)
}
