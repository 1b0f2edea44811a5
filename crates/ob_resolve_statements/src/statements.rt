//! The faults of statements and bodies.
ghost use Rattle.std.specs.Prelude.{◌≡◌, [], ◌&&◌, ◌||◌, false, map, OnOk, IfOk, IsOkAnd, MatchResult, is_ok};
ghost use Rattle.ob_tree.specs.ExprsView.{expr_of};
ghost use Rattle.ob_tree.specs.StmtsView.{given_of, stmt_of, stmts_of, block_of, else_of};
ghost use Rattle.ob_tree.specs.MembersView.{contract_of, formal_of};
ghost use Rattle.ob_resolve_spec.specs.Scopes.{past, locals_in_block, locals_in_else, after_stmt};
ghost use Rattle.ob_resolve_spec.specs.Reached.{ends, block_ends, else_ends, one_ends};
ghost use Rattle.ob_resolve_spec.specs.StatementSites.{given_sites, change_sites, stmt_sites, block_sites, body_sites, else_sites, stmts_sites};
ghost use Rattle.ob_resolve_spec.specs.MemberSites.{body_of_params_sites};
ghost use Rattle.ob_resolve_scope.specs.Types.{program_of};
ghost use Rattle.ob_resolve_scope.specs.Around.{around_of};
ghost use Rattle.ob_resolve_sites.specs.Noted.{noted, names_in};
ghost use Rattle.ob_resolve_statements.specs.Walked.{after_stmts, row_with, rest_of_row, row_kept};

use crate::expressions::{walk_expr, walk_reference, walk_value};
use crate::parts::{
    leave_row, span_of_stmt, walk_assert, walk_assign, walk_declare, walk_return, walk_revert,
    walk_tested,
};
use ob_base::Memory;
use ob_resolve_scope::{AroundBody, Names, Scope, scope_of_params};
use ob_resolve_sites::{Least, note_declared, note_end, note_field, note_own_state, note_reached};
use ob_resolve_spec::InferredKind;
use ob_tree::{Block, Expr, FormalNode, GivenNode, NamePart, Stmt};
use std::alloc::Global;

// A value for a field, after a row of others.
#[tactic(auto, using(ob_tree::specs::MembersView::views, crate::proofs::StatementLemmas::statements))]
fn walk_given(
    field: &NamePart,
    value: &Expr,
    around: &AroundBody<'_>,
    alloc: Global,
    scope: &Scope,
    row: &mut Names,
    least: &mut Least,
) -> Result<(), Memory>
    ensures sites { OnOk result (least.new ≡ noted least.old
        (given_sites (around_of around.now) scope.now (names_in row.old) field.now (expr_of value.now))) }
    ensures row { OnOk result (row.new ≡ row_with row.old field.now.name) }
{
    let name = field.name.as_bytes();
    note_declared(least, row, field);
    note_field(least, around, field);
    walk_value(around.kind_of_field(name), value, around, scope, least);
    row.add(alloc, name, row.len())
}

#[tactic(auto, using(ob_tree::specs::MembersView::views, crate::proofs::StatementLemmas::statements))]
fn walk_change(
    given: &[GivenNode],
    around: &AroundBody<'_>,
    alloc: Global,
    scope: &Scope,
    row: &mut Names,
    least: &mut Least,
) -> Result<(), Memory>
    ensures { OnOk result (least.new ≡ noted least.old
        (change_sites (around_of around.now) scope.now (names_in row.old) (map given_of given.now))) }
{
    for one in given {
        walk_given(&one.field, &one.value, around, alloc, scope, row, least)?;
    }
    Ok(())
}

// Whether both branches end, exactly if both could be walked over.
fn both_end(then: Result<bool, Memory>, otherwise: Result<bool, Memory>) -> Result<bool, Memory>
    ensures { MatchResult result (λ end. IsOkAnd then (λ a. IsOkAnd otherwise (λ b. end ≡ a && b)))
        (λ _. is_ok then && is_ok otherwise ≡ false) }
{
    match (then, otherwise) {
        (Ok(then), Ok(otherwise)) => Ok(then && otherwise),
        _ => Err(Memory),
    }
}

// A statement that doesn't end, exactly if it could be walked over.
fn goes_on(walked: Result<(), Memory>) -> Result<bool, Memory>
    ensures { MatchResult result (λ ends. IsOkAnd walked (λ _. ends ≡ false)) (λ _. is_ok walked ≡ false) }
{
    match walked {
        Ok(()) => Ok(false),
        Err(error) => Err(error),
    }
}

// A `while`, which doesn't end even where its block does, exactly if the block could be walked over.
fn past_loop(block: Result<bool, Memory>) -> Result<bool, Memory>
    ensures { MatchResult result (λ ends. IsOkAnd block (λ _. ends ≡ false)) (λ _. is_ok block ≡ false) }
{
    match block {
        Ok(_) => Ok(false),
        Err(error) => Err(error),
    }
}

fn either(a: bool, b: bool) -> bool
    ensures { result ≡ a || b }
{
    a || b
}

/// A statement after a row of staged ones; whether it ends there.
#[cycle(walk)]
#[tactic(auto, using(ob_tree::specs::StmtsView::stmt_views, ob_resolve_sites::specs::Noted::notes, crate::proofs::StatementLemmas::past_both))]
fn walk_stmt(
    statement: &Stmt,
    around: &AroundBody<'_>,
    alloc: Global,
    scope: &mut Scope,
    row: &mut Names,
    least: &mut Least,
) -> Result<bool, Memory>
    ensures sites { OnOk result (least.new ≡ noted least.old
        (stmt_sites (around_of around.now) scope.old (names_in row.old) (stmt_of statement.now))) }
    ensures scope { OnOk result (scope.new ≡ after_stmt (around_of around.now) scope.old (stmt_of statement.now)) }
    ensures row { OnOk result (row_kept row.new (stmt_of statement.now) ≡ rest_of_row row.old (stmt_of statement.now)) }
    ensures ends { IfOk result (λ b. b ≡ ends (stmt_of statement.now)) }
{
    match statement {
        Stmt::Declare {
            of,
            name,
            value,
            ..
        } => goes_on(walk_declare(of, name, value, around, alloc, scope, least)),
        Stmt::Assign { name, value, .. } => {
            walk_assign(name, value, around, scope, least);
            Ok(false)
        }
        Stmt::Stage {
            state,
            field,
            value,
            ..
        } => {
            note_own_state(least, around, state);
            goes_on(walk_given(field, value, around, alloc, scope, row, least))
        }
        Stmt::Change { state, given, .. } => {
            note_own_state(least, around, state);
            goes_on(walk_change(given.as_slice(), around, alloc, scope, row, least))
        }
        Stmt::Call { value, .. } => {
            walk_expr(value, around, scope, least);
            Ok(false)
        }
        Stmt::Test {
            subject,
            state,
            then,
            otherwise,
            span,
        } => {
            walk_tested(subject, state, *span, around, scope, least);
            let then = walk_block(then, around, alloc, scope, least);
            let otherwise = walk_else(otherwise, around, alloc, scope, least);
            both_end(then, otherwise)
        }
        Stmt::If {
            condition,
            then,
            otherwise,
            ..
        } => {
            walk_value(InferredKind::Bool, condition, around, scope, least);
            let then = walk_block(then, around, alloc, scope, least);
            let otherwise = walk_else(otherwise, around, alloc, scope, least);
            both_end(then, otherwise)
        }
        Stmt::While {
            condition,
            body,
            ..
        } => {
            walk_value(InferredKind::Bool, condition, around, scope, least);
            let body = walk_block(body, around, alloc, scope, least);
            past_loop(body)
        }
        Stmt::Return { value, span } => {
            walk_return(value, *span, around, scope, least);
            Ok(true)
        }
        Stmt::Revert { text, .. } => {
            walk_revert(text, around, scope, least);
            Ok(true)
        }
        Stmt::Disown { name, .. } => {
            walk_reference(name, name.span, around, scope, least);
            Ok(false)
        }
        Stmt::Assert { subject, perm, .. } => {
            walk_assert(subject, perm, around, scope, least);
            Ok(false)
        }
    }
}

#[cycle(walk)]
#[tactic(auto, using(ob_tree::specs::StmtsView::stmt_views))]
fn walk_else(
    otherwise: &Option<Block>,
    around: &AroundBody<'_>,
    alloc: Global,
    scope: &mut Scope,
    least: &mut Least,
) -> Result<bool, Memory>
    ensures sites { OnOk result (least.new ≡ noted least.old
        (else_sites (around_of around.now) scope.old (else_of otherwise.now))) }
    ensures scope { OnOk result (scope.new ≡ past scope.old (locals_in_else (else_of otherwise.now))) }
    ensures ends { IfOk result (λ b. b ≡ else_ends (else_of otherwise.now)) }
{
    match otherwise {
        None => Ok(false),
        Some(block) => walk_block(block, around, alloc, scope, least),
    }
}

/// A block, whose locals are visible in it alone; whether its end isn't reached.
#[cycle(walk)]
#[tactic(auto, using(ob_tree::specs::StmtsView::stmt_views, crate::proofs::StatementLemmas::left_block))]
fn walk_block(
    block: &Block,
    around: &AroundBody<'_>,
    alloc: Global,
    scope: &mut Scope,
    least: &mut Least,
) -> Result<bool, Memory>
    ensures sites { OnOk result (least.new ≡ noted least.old
        (block_sites (around_of around.now) scope.old (block_of block.now))) }
    ensures scope { OnOk result (scope.new ≡ past scope.old (locals_in_block (block_of block.now))) }
    ensures ends { IfOk result (λ b. b ≡ block_ends (block_of block.now)) }
{
    let outer = scope.visible();
    let ended = walk_stmts(block.statements.as_slice(), around, alloc, scope, least)?;
    scope.leave(outer);
    Ok(ended)
}

/// The statements of a block; whether one of them ends there.
#[cycle(walk)]
#[tactic(auto, using(ob_tree::specs::StmtsView::stmt_views, crate::proofs::StatementLemmas::sites_turn, crate::proofs::StatementLemmas::scope_turn, crate::proofs::StatementLemmas::or_false, crate::proofs::StatementLemmas::ends_turn))]
fn walk_stmts(
    statements: &[Stmt],
    around: &AroundBody<'_>,
    alloc: Global,
    scope: &mut Scope,
    least: &mut Least,
) -> Result<bool, Memory>
    ensures sites { OnOk result (least.new ≡ noted least.old
        (stmts_sites (around_of around.now) scope.old [] false (stmts_of statements.now))) }
    ensures scope { OnOk result (scope.new ≡ after_stmts (around_of around.now) scope.old (stmts_of statements.now)) }
    ensures ends { IfOk result (λ b. b ≡ one_ends (stmts_of statements.now)) }
{
    let mut row = Names::new(alloc);
    let mut ended = false;
    for statement in statements {
        note_reached(least, ended, span_of_stmt(statement));
        let ends = walk_stmt(statement, around, alloc, scope, &mut row, least)?;
        leave_row(statement, alloc, &mut row);
        ended = either(ended, ends);
    }
    Ok(ended)
}

// A body in this scope.
#[tactic(auto, using(ob_tree::specs::StmtsView::stmt_views, ob_resolve_sites::specs::Noted::notes))]
fn walk_body_in(
    alloc: Global,
    around: &AroundBody<'_>,
    scope: &mut Scope,
    body: &Block,
    least: &mut Least,
) -> Result<(), Memory>
    ensures { OnOk result (least.new ≡ noted least.old
        (body_sites (around_of around.now) scope.old (block_of body.now))) }
{
    let ended = walk_block(body, around, alloc, scope, least)?;
    note_end(least, around.result(), ended, body.end);
    Ok(())
}

/// Notes the faults of a body with these parameters, in its contract.
pub fn walk_body(
    alloc: Global,
    around: &AroundBody<'_>,
    params: &[FormalNode],
    body: &Block,
    least: &mut Least,
) -> Result<(), Memory>
    ensures { OnOk result (least.new ≡ noted least.old
        (body_of_params_sites (program_of around.now.program) (contract_of around.now.own) around.now.result
        (map formal_of params.now) (block_of body.now))) }
{
    let mut scope = scope_of_params(alloc, around.declared().types(), params)?;
    walk_body_in(alloc, around, &mut scope, body, least)
}
