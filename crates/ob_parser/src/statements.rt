//! Statements and blocks:
//!
//! ```text
//! block = "{" {stmt} "}"
//! stmt  = "if" "(" (NAME | "this") "in" NAME ")" block ["else" (block | if)]
//!       | "if" "(" expr ")" block ["else" (block | if)]
//!       | "while" "(" expr ")" block
//!       | a statement that has no blocks
//! ```
//!
//! `else if` represents a block with that `if`, which is open from its `if` up to the end of that statement.

ghost use Rattle.std.specs.Prelude.{◌≡◌, IfOk, IfErr};
ghost use Rattle.ob_tree.specs.Stmts.{while_stmt, block_with, and_stmt, no_stmts};
ghost use Rattle.ob_tree.specs.ExprsView.{expr_of};
ghost use Rattle.ob_tree.specs.StmtsView.{stmt_of, stmts_of, block_of, else_of};
ghost use Rattle.ob_parser_spec.specs.StmtRows.{end_of_else};
ghost use Rattle.ob_parser_spec.specs.StmtReaders.{read_tested, read_question, if_with, read_if, read_chained, read_block_or_if, read_alternative, read_while, read_stmt};
ghost use Rattle.ob_parser_spec.specs.AllReaders.{all_refs, all_counted, all_exprs, all_branches, all_loops, all_stmts, all_blocks};
ghost use Rattle.ob_parser_expressions.specs.Answering.{Answers};
ghost use Rattle.ob_parser.specs.CodeStatements.{question_of, branches_of, loop_of};
ghost use Rattle.ob_parser_expressions.specs.declared.halt.Halt.TheVariants.{Memory};

use crate::simple::simple;
use ob_base::{Items, Span};
use ob_lexer::{Sign, Token, Word};
use ob_parser_expressions::{
    Halt, Symbol, before, expression, fixed, name_part, opens, span_between, starts_with,
    starts_with_both, starts_with_one_of, subject, with,
};
use ob_tree::{Block, Expr, NamePart, Stmt, Subject};
use std::alloc::Global;

/// What stands between the parentheses after `if`.
#[derive(Drop)]
enum QuestionPart {
    Test { subject: Subject, state: NamePart },
    Condition(Expr),
}

/// What stands after `if`.
#[derive(Drop)]
struct BranchesPart {
    question: QuestionPart,
    then: Block,
    otherwise: Option<Block>,
}

/// What stands after `while`.
#[derive(Drop)]
struct LoopPart {
    condition: Expr,
    body: Block,
}

// ---- nodes

/// The place of the last closing brace.
fn end_of(branches: &BranchesPart) -> Span
    ensures { result ≡ end_of_else (block_of branches.now.then) (else_of branches.now.otherwise) }
{
    match &branches.otherwise {
        Some(otherwise) => otherwise.end,
        None => branches.then.end,
    }
}

/// An `if` at this place.
fn asked(branches: BranchesPart, span: Span) -> Stmt
    ensures { stmt_of result ≡ if_with (question_of branches.question) (block_of branches.then) (else_of branches.otherwise) span }
{
    let BranchesPart {
        question,
        then,
        otherwise,
    } = branches;
    match question {
        QuestionPart::Test { subject, state } => Stmt::Test {
            subject,
            state,
            then,
            otherwise,
            span,
        },
        QuestionPart::Condition(condition) => Stmt::If {
            condition,
            then,
            otherwise,
            span,
        },
    }
}

/// A `while` at this place.
fn repeated(turns: LoopPart, span: Span) -> Stmt
    ensures { stmt_of result ≡ while_stmt (expr_of turns.condition) (block_of turns.body) span }
{
    let LoopPart { condition, body } = turns;
    Stmt::While {
        condition,
        body,
        span,
    }
}

/// The block that `else if` represents.
fn block_of_one(alloc: Global, statement: Stmt, end: Span) -> Result<Block, Halt>
    ensures ok { IfOk result (λ block. block_of block ≡ block_with (and_stmt (stmt_of statement) no_stmts) end) }
    ensures err { IfErr result (λ e. e ≡ Memory) }
{
    let mut statements = Items::new(alloc);
    statements.push(statement)?;
    Ok(Block { statements, end })
}

// ---- questions

/// `(NAME | "this") "in" NAME`
fn test(alloc: Global, tokens: &[Token]) -> Result<(QuestionPart, &[Token]), Halt>
    ensures { Answers question_of result (read_tested tokens.now) }
{
    let (subject, rest) = subject(alloc, tokens)?;
    let (subject, rest) = before(subject, Symbol::Word(Word::In), rest)?;
    let (subject, state, rest) = with(subject, name_part(alloc, rest))?;
    Ok((QuestionPart::Test { subject, state }, rest))
}

/// What may be asked for its state.
const SUBJECTS: [Symbol; 2] = [Symbol::Name, Symbol::Word(Word::This)];

/// `(NAME | "this") "in" NAME | expr`
fn question(alloc: Global, room: u8, tokens: &[Token]) -> Result<(QuestionPart, &[Token]), Halt>
    ensures { Answers question_of result (read_question (all_exprs room) tokens.now) }
{
    if starts_with_both(tokens, &SUBJECTS, &[Symbol::Word(Word::In)]) {
        return test(alloc, tokens);
    }
    let (condition, rest) = expression(alloc, room, tokens)?;
    Ok((QuestionPart::Condition(condition), rest))
}

// ---- statements with blocks

/// What a statement begins with.
const STATEMENT_FIRST: [Symbol; 13] = [
    Symbol::Word(Word::If),
    Symbol::Word(Word::While),
    Symbol::Name,
    Symbol::Word(Word::Int),
    Symbol::Word(Word::Bool),
    Symbol::Word(Word::String),
    Symbol::Word(Word::This),
    Symbol::Word(Word::New),
    Symbol::Sign(Sign::Arrow),
    Symbol::Word(Word::Return),
    Symbol::Word(Word::Revert),
    Symbol::Word(Word::Disown),
    Symbol::Sign(Sign::OpenBracket),
];

/// `block`
#[cycle(stmt)]
pub fn block(alloc: Global, room: u8, tokens: &[Token]) -> Result<(Block, &[Token]), Halt>
    ensures { Answers block_of result (all_blocks room tokens.now) }
{
    let (_, rest) = opens(room, Symbol::Sign(Sign::OpenBrace), tokens)?;
    let (statements, rest) = statement_list(alloc, room - 1, rest)?;
    let close = fixed(Symbol::Sign(Sign::CloseBrace), rest);
    let (statements, end, rest) = with(statements, close)?;
    Ok((Block { statements, end }, rest))
}

/// `{stmt}`
#[cycle(stmt)]
fn statement_list(
    alloc: Global,
    room: u8,
    tokens: &[Token],
) -> Result<(Items<Stmt>, &[Token]), Halt>
    ensures { Answers stmts_of result (all_stmts room tokens.now) }
{
    let mut statements = Items::new(alloc);
    let mut rest = tokens;
    'statements: while starts_with_one_of(rest, &STATEMENT_FIRST) {
        let (statement, after) = statement(alloc, room, rest)?;
        statements.push(statement)?;
        rest = after;
    }
    Ok((statements, rest))
}

/// `stmt`
#[cycle(stmt)]
fn statement(alloc: Global, room: u8, tokens: &[Token]) -> Result<(Stmt, &[Token]), Halt>
    ensures { Answers stmt_of result (read_stmt all_refs all_counted all_branches all_loops room tokens.now) }
{
    if starts_with(tokens, Symbol::Word(Word::If)) {
        return if_statement(alloc, room, tokens);
    }
    if starts_with(tokens, Symbol::Word(Word::While)) {
        return while_statement(alloc, room, tokens);
    }
    simple(alloc, room, tokens)
}

/// `"if" "(" ((NAME | "this") "in" NAME | expr) ")" block ["else" (block | if)]`
#[cycle(stmt)]
fn if_statement(alloc: Global, room: u8, tokens: &[Token]) -> Result<(Stmt, &[Token]), Halt>
    ensures { Answers stmt_of result (read_if all_branches room tokens.now) }
{
    let (_, rest) = fixed(Symbol::Word(Word::If), tokens)?;
    let (branches, rest) = after_if(alloc, room, rest)?;
    Ok((asked(branches, span_between(tokens, rest)), rest))
}

/// `"(" ((NAME | "this") "in" NAME | expr) ")" block ["else" (block | if)]`
#[cycle(stmt)]
fn after_if(alloc: Global, room: u8, tokens: &[Token]) -> Result<(BranchesPart, &[Token]), Halt>
    ensures { Answers branches_of result (all_branches room tokens.now) }
{
    let (_, rest) = fixed(Symbol::Sign(Sign::OpenParen), tokens)?;
    let (question, rest) = question(alloc, room, rest)?;
    let (question, rest) = before(question, Symbol::Sign(Sign::CloseParen), rest)?;
    let (question, then, rest) = with(question, block(alloc, room, rest))?;
    let (parts, otherwise, rest) = with((question, then), alternative(alloc, room, rest))?;
    let (question, then) = parts;
    Ok((
        BranchesPart {
            question,
            then,
            otherwise,
        },
        rest,
    ))
}

/// `"while" "(" expr ")" block`
#[cycle(stmt)]
fn while_statement(alloc: Global, room: u8, tokens: &[Token]) -> Result<(Stmt, &[Token]), Halt>
    ensures { Answers stmt_of result (read_while all_loops room tokens.now) }
{
    let (_, rest) = fixed(Symbol::Word(Word::While), tokens)?;
    let (turns, rest) = after_while(alloc, room, rest)?;
    Ok((repeated(turns, span_between(tokens, rest)), rest))
}

/// `"(" expr ")" block`
#[cycle(stmt)]
fn after_while(alloc: Global, room: u8, tokens: &[Token]) -> Result<(LoopPart, &[Token]), Halt>
    ensures { Answers loop_of result (all_loops room tokens.now) }
{
    let (_, rest) = fixed(Symbol::Sign(Sign::OpenParen), tokens)?;
    let (condition, rest) = expression(alloc, room, rest)?;
    let (condition, rest) = before(condition, Symbol::Sign(Sign::CloseParen), rest)?;
    let (condition, body, rest) = with(condition, block(alloc, room, rest))?;
    Ok((LoopPart { condition, body }, rest))
}

/// `["else" (block | if)]`
#[cycle(stmt)]
fn alternative(alloc: Global, room: u8, tokens: &[Token]) -> Result<(Option<Block>, &[Token]), Halt>
    ensures { Answers else_of result (read_alternative all_stmts all_branches room tokens.now) }
{
    if !starts_with(tokens, Symbol::Word(Word::Else)) {
        return Ok((None, tokens));
    }
    let (_, rest) = fixed(Symbol::Word(Word::Else), tokens)?;
    let (block, rest) = block_or_if(alloc, room, rest)?;
    Ok((Some(block), rest))
}

/// `block | if`
#[cycle(stmt)]
fn block_or_if(alloc: Global, room: u8, tokens: &[Token]) -> Result<(Block, &[Token]), Halt>
    ensures { Answers block_of result (read_block_or_if all_stmts all_branches room tokens.now) }
{
    if starts_with(tokens, Symbol::Sign(Sign::OpenBrace)) {
        return block(alloc, room, tokens);
    }
    chained(alloc, room, tokens)
}

/// `if`, after an `else`.
#[cycle(stmt)]
fn chained(alloc: Global, room: u8, tokens: &[Token]) -> Result<(Block, &[Token]), Halt>
    ensures { Answers block_of result (read_chained all_branches room tokens.now) }
{
    let (_, rest) = opens(room, Symbol::Word(Word::If), tokens)?;
    let (branches, rest) = after_if(alloc, room - 1, rest)?;
    let end = end_of(&branches);
    let statement = asked(branches, span_between(tokens, rest));
    Ok((block_of_one(alloc, statement, end)?, rest))
}
