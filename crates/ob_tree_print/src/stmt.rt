//! Statements.
ghost use Rattle.std.specs.Prelude.{◌≡◌, true, map, option_map, OnOk, string_bytes};
ghost use Rattle.ob_tree.specs.ExprsView.{expr_of};
ghost use Rattle.ob_tree.specs.StmtsView.{local_of, given_of, stmt_of, stmts_of, block_of, else_of};
ghost use Rattle.ob_tree_print.specs.StmtTokens.{tokens_of_local, tokens_of_setting, tokens_of_value, tokens_of_given, tokens_of_change, tokens_of_membership, tokens_of_test, tokens_of_claim, tokens_of_condition, tokens_of_while, tokens_of_stmt, tokens_of_block, tokens_of_else, tokens_of_stmts};
ghost use Rattle.ob_tree_print.specs.Written.{written};

use crate::expr::put_expr;
use crate::name::{put_named, put_perm};
use crate::token::{put_part, put_sign, put_sign_unless, put_subject, put_word};
use ob_base::Memory;
use ob_lexer::{Sign, Word};
use ob_tree::{Block, Expr, GivenNode, LocalType, NamePart, PermNode, Stmt, Subject};

#[tactic(auto, using(crate::specs::Written::writes))]
fn put_local(out: &mut String, of: &LocalType) -> Result<(), Memory>
    ensures { OnOk result (string_bytes out.new ≡ written (string_bytes out.old) (tokens_of_local (local_of of.now))) }
{
    match of {
        LocalType::Int(_) => put_word(out, Word::Int),
        LocalType::Bool(_) => put_word(out, Word::Bool),
        LocalType::Text(_) => put_word(out, Word::String),
        LocalType::Named(of) => put_named(of, out),
    }
}

#[tactic(auto, using(crate::specs::Written::writes))]
fn put_setting(out: &mut String, value: &Expr) -> Result<(), Memory>
    ensures { OnOk result (string_bytes out.new ≡ written (string_bytes out.old) (tokens_of_setting (expr_of value.now))) }
{
    put_sign(out, Sign::Equals)?;
    put_expr(value, out)?;
    put_sign(out, Sign::Semicolon)
}

#[tactic(auto, using(crate::specs::Written::writes))]
fn put_value(out: &mut String, value: &Option<Expr>) -> Result<(), Memory>
    ensures { OnOk result (string_bytes out.new ≡ written (string_bytes out.old) (tokens_of_value (option_map expr_of value.now))) }
{
    match value {
        None => Ok(()),
        Some(value) => put_expr(value, out),
    }
}

#[tactic(auto, using(crate::specs::Written::turns))]
fn put_given(out: &mut String, given: &[GivenNode]) -> Result<(), Memory>
    ensures { OnOk result (string_bytes out.new ≡ written (string_bytes out.old) (tokens_of_given true (map given_of given.now))) }
{
    let mut first = true;
    for one in given {
        put_sign_unless(out, first, Sign::Comma)?;
        put_part(out, &one.field)?;
        put_sign(out, Sign::Equals)?;
        put_expr(&one.value, out)?;
        first = false;
    }
    Ok(())
}

#[tactic(auto, using(crate::specs::Written::choices))]
fn put_change(out: &mut String, given: &[GivenNode]) -> Result<(), Memory>
    ensures { OnOk result (string_bytes out.new ≡ written (string_bytes out.old) (tokens_of_change (map given_of given.now))) }
{
    match given {
        [] => Ok(()),
        _ => {
            put_sign(out, Sign::OpenParen)?;
            put_given(out, given)?;
            put_sign(out, Sign::CloseParen)
        }
    }
}

#[tactic(auto, using(crate::specs::Written::writes), unfolding(crate::specs::StmtTokens::tokens_of_membership))]
fn put_membership(out: &mut String, subject: &Subject, state: &NamePart) -> Result<(), Memory>
    ensures { OnOk result (string_bytes out.new ≡ written (string_bytes out.old) (tokens_of_membership subject.now state.now)) }
{
    put_subject(out, subject)?;
    put_word(out, Word::In)?;
    put_part(out, state)
}

#[tactic(auto, using(crate::specs::Written::writes), unfolding(crate::specs::StmtTokens::tokens_of_test))]
fn put_test(out: &mut String, subject: &Subject, state: &NamePart) -> Result<(), Memory>
    ensures { OnOk result (string_bytes out.new ≡ written (string_bytes out.old) (tokens_of_test subject.now state.now)) }
{
    put_word(out, Word::If)?;
    put_sign(out, Sign::OpenParen)?;
    put_membership(out, subject, state)?;
    put_sign(out, Sign::CloseParen)
}

#[tactic(auto, using(crate::specs::Written::writes), unfolding(crate::specs::StmtTokens::tokens_of_condition))]
fn put_condition(out: &mut String, condition: &Expr) -> Result<(), Memory>
    ensures { OnOk result (string_bytes out.new ≡ written (string_bytes out.old) (tokens_of_condition (expr_of condition.now))) }
{
    put_word(out, Word::If)?;
    put_sign(out, Sign::OpenParen)?;
    put_expr(condition, out)?;
    put_sign(out, Sign::CloseParen)
}

#[tactic(auto, using(crate::specs::Written::writes), unfolding(crate::specs::StmtTokens::tokens_of_while))]
fn put_while(out: &mut String, condition: &Expr) -> Result<(), Memory>
    ensures { OnOk result (string_bytes out.new ≡ written (string_bytes out.old) (tokens_of_while (expr_of condition.now))) }
{
    put_word(out, Word::While)?;
    put_sign(out, Sign::OpenParen)?;
    put_expr(condition, out)?;
    put_sign(out, Sign::CloseParen)
}

#[tactic(auto, using(crate::specs::Written::writes), unfolding(crate::specs::StmtTokens::tokens_of_claim))]
fn put_claim(out: &mut String, subject: &Subject, perm: &PermNode) -> Result<(), Memory>
    ensures { OnOk result (string_bytes out.new ≡ written (string_bytes out.old) (tokens_of_claim subject.now perm.now)) }
{
    put_sign(out, Sign::OpenBracket)?;
    put_subject(out, subject)?;
    put_sign(out, Sign::At)?;
    put_perm(out, perm)?;
    put_sign(out, Sign::CloseBracket)
}

#[cycle(print_stmt)]
#[tactic(auto, using(crate::specs::Written::turns))]
fn put_statements(statements: &[Stmt], out: &mut String) -> Result<(), Memory>
    ensures { OnOk result (string_bytes out.new ≡ written (string_bytes out.old) (tokens_of_stmts (stmts_of statements.now))) }
{
    for statement in statements {
        put_stmt(statement, out)?;
    }
    Ok(())
}

/// A block: its statements in braces.
#[cycle(print_stmt)]
#[tactic(auto, using(crate::specs::Written::block_prints))]
pub fn put_block(block: &Block, out: &mut String) -> Result<(), Memory>
    ensures { OnOk result (string_bytes out.new ≡ written (string_bytes out.old) (tokens_of_block (block_of block.now))) }
{
    put_sign(out, Sign::OpenBrace)?;
    put_statements(block.statements.as_slice(), out)?;
    put_sign(out, Sign::CloseBrace)
}

#[cycle(print_stmt)]
#[tactic(auto, using(crate::specs::Written::block_prints))]
fn put_else(otherwise: &Option<Block>, out: &mut String) -> Result<(), Memory>
    ensures { OnOk result (string_bytes out.new ≡ written (string_bytes out.old) (tokens_of_else (else_of otherwise.now))) }
{
    match otherwise {
        None => Ok(()),
        Some(block) => {
            put_word(out, Word::Else)?;
            put_block(block, out)
        }
    }
}

#[cycle(print_stmt)]
#[tactic(auto, using(crate::specs::Written::stmt_prints))]
fn put_stmt(statement: &Stmt, out: &mut String) -> Result<(), Memory>
    ensures { OnOk result (string_bytes out.new ≡ written (string_bytes out.old) (tokens_of_stmt (stmt_of statement.now))) }
{
    match statement {
        Stmt::Declare {
            of,
            name,
            value,
            ..
        } => {
            put_local(out, of)?;
            put_part(out, name)?;
            put_setting(out, value)
        }
        Stmt::Assign { name, value, .. } => {
            put_part(out, name)?;
            put_setting(out, value)
        }
        Stmt::Stage {
            state,
            field,
            value,
            ..
        } => {
            put_part(out, state)?;
            put_sign(out, Sign::DoubleColon)?;
            put_part(out, field)?;
            put_setting(out, value)
        }
        Stmt::Change { state, given, .. } => {
            put_sign(out, Sign::Arrow)?;
            put_part(out, state)?;
            put_change(out, given.as_slice())?;
            put_sign(out, Sign::Semicolon)
        }
        Stmt::Call { value, .. } => {
            put_expr(value, out)?;
            put_sign(out, Sign::Semicolon)
        }
        Stmt::Test {
            subject,
            state,
            then,
            otherwise,
            ..
        } => {
            put_test(out, subject, state)?;
            put_block(then, out)?;
            put_else(otherwise, out)
        }
        Stmt::If {
            condition,
            then,
            otherwise,
            ..
        } => {
            put_condition(out, condition)?;
            put_block(then, out)?;
            put_else(otherwise, out)
        }
        Stmt::While {
            condition,
            body,
            ..
        } => {
            put_while(out, condition)?;
            put_block(body, out)
        }
        Stmt::Return { value, .. } => {
            put_word(out, Word::Return)?;
            put_value(out, value)?;
            put_sign(out, Sign::Semicolon)
        }
        Stmt::Revert { text, .. } => {
            put_word(out, Word::Revert)?;
            put_value(out, text)?;
            put_sign(out, Sign::Semicolon)
        }
        Stmt::Disown { name, .. } => {
            put_word(out, Word::Disown)?;
            put_part(out, name)?;
            put_sign(out, Sign::Semicolon)
        }
        Stmt::Assert { subject, perm, .. } => {
            put_claim(out, subject, perm)?;
            put_sign(out, Sign::Semicolon)
        }
    }
}
