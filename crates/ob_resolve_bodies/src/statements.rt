//! Statements with numbers in place of names (the Obsidian language documentation, "Statements").
ghost use Rattle.std.specs.Prelude.{◌≡◌, ◌+◌, map, option_map, IfOk, IsOkAnd, OnOk};
ghost use Rattle.ob_tree.specs.ExprsView.{expr_of};
ghost use Rattle.ob_tree.specs.Stmts.{declare_stmt, assign_stmt, stage_stmt, change_stmt, call_stmt, return_stmt, revert_stmt, disown_stmt, assert_stmt};
ghost use Rattle.ob_tree.specs.StmtsView.{local_of, given_of, stmt_of, stmts_of, block_of, else_of};
ghost use Rattle.ob_table.specs.Statements.{resolved_test, resolved_if, resolved_while};
ghost use Rattle.ob_table.specs.ExpressionsView.{expression_of};
ghost use Rattle.ob_table.specs.StatementsView.{given_field_of, statement_of, statements_of, resolved_block_of};
ghost use Rattle.ob_table.specs.StatementsView.{otherwise_of};
ghost use Rattle.ob_resolve_spec.specs.Kinds.{contract_of_kind};
ghost use Rattle.ob_resolve_spec.specs.Numbers.{state_id};
ghost use Rattle.ob_resolve_spec.specs.Scopes.{kind_of_subject, past, after_stmt, locals_in_block, locals_in_else};
ghost use Rattle.ob_resolve_spec.specs.Bodies.{seen_subject, resolved_local, resolved_expr, resolved_given, resolved_stmt};
ghost use Rattle.ob_resolve_spec.specs.Bodies.{resolved_stmts, block_resolved, else_resolved};
ghost use Rattle.ob_resolve_scope.specs.Types.{program_of};
ghost use Rattle.ob_resolve_scope.specs.Around.{around_of};
ghost use Rattle.ob_resolve_bodies.specs.Resolved.{after_stmts};

use crate::expressions::{resolve_expr, seen_at, seen_subject};
use crate::numbers::{field_id, own_state_id, state_id, wide};
use crate::permissions::perm_on_kind;
use ob_base::{ContractId, Items, Memory, Span, StateId};
use ob_resolve_scope::{AroundBody, Scope, kind_of_subject};
use ob_resolve_spec::InferredKind;
use ob_table::{Kind, ResolvedBlock, ResolvedExpr, ResolvedGiven, ResolvedStmt, SeenAt};
use ob_tree::{Block, Expr, GivenNode, LocalType, NamePart, PermNode, Stmt, Subject};
use std::alloc::Global;

fn resolved_local(kind: InferredKind) -> Result<Kind, Memory>
    ensures { IfOk result (λ of. of ≡ resolved_local kind) }
{
    match kind {
        InferredKind::Int | InferredKind::Nothing | InferredKind::Unknown => Ok(Kind::Int),
        InferredKind::Bool => Ok(Kind::Bool),
        InferredKind::Text => Ok(Kind::Text),
        InferredKind::Reference(number) => Ok(Kind::Reference(ContractId(wide(number)?))),
    }
}

// The number of the next variable.
fn next_local(scope: &Scope) -> Result<u32, Memory>
    ensures { IfOk result (λ local. local ≡ scope.now.count + 1) }
{
    wide(scope.count())?.checked_add(1).ok_or(Memory)
}

#[tactic(auto, using(ob_tree::specs::MembersView::views, ob_table::specs::StatementsView::resolved_views))]
fn resolve_declare(
    of: &LocalType,
    name: &NamePart,
    value: &Expr,
    span: Span,
    around: &AroundBody<'_>,
    scope: &mut Scope,
    alloc: Global,
) -> Result<ResolvedStmt, Memory>
    ensures value { IfOk result (λ x. statement_of x ≡ resolved_stmt (around_of around.now) scope.old
        (declare_stmt (local_of of.now) name.now (expr_of value.now) span)) }
    ensures scope { OnOk result (scope.new ≡ after_stmt (around_of around.now) scope.old
        (declare_stmt (local_of of.now) name.now (expr_of value.now) span)) }
{
    let local = next_local(scope)?;
    let kind = around.declared().types().kind_of_local(of);
    let of = resolved_local(kind)?;
    let value = resolve_expr(value, around, scope, alloc)?;
    scope.add_local(alloc, &name.name, kind)?;
    Ok(ResolvedStmt::Declare {
        local,
        name: name.span,
        of,
        value,
        span,
    })
}

#[tactic(auto, using(ob_table::specs::StatementsView::resolved_views))]
fn resolve_assign(
    name: &NamePart,
    value: &Expr,
    span: Span,
    around: &AroundBody<'_>,
    scope: &Scope,
    alloc: Global,
) -> Result<ResolvedStmt, Memory>
    ensures { IfOk result (λ x. statement_of x ≡ resolved_stmt (around_of around.now) scope.now
        (assign_stmt name.now (expr_of value.now) span)) }
{
    let target = seen_at(around, scope, name)?;
    let value = resolve_expr(value, around, scope, alloc)?;
    Ok(ResolvedStmt::Assign {
        target,
        value,
        span,
    })
}

fn resolve_given(
    field: &NamePart,
    value: &Expr,
    around: &AroundBody<'_>,
    scope: &Scope,
    alloc: Global,
) -> Result<ResolvedGiven, Memory>
    ensures { IfOk result (λ g. given_field_of g ≡ resolved_given (around_of around.now) scope.now field.now
        (expr_of value.now)) }
{
    Ok(ResolvedGiven {
        field: field_id(around, field)?,
        span: field.span,
        value: resolve_expr(value, around, scope, alloc)?,
    })
}

#[tactic(auto, using(ob_table::specs::StatementsView::resolved_views))]
fn resolve_stage(
    state: &NamePart,
    field: &NamePart,
    value: &Expr,
    span: Span,
    around: &AroundBody<'_>,
    scope: &Scope,
    alloc: Global,
) -> Result<ResolvedStmt, Memory>
    ensures { IfOk result (λ x. statement_of x ≡ resolved_stmt (around_of around.now) scope.now
        (stage_stmt state.now field.now (expr_of value.now) span)) }
{
    let state = own_state_id(around, state)?;
    let given = resolve_given(field, value, around, scope, alloc)?;
    Ok(ResolvedStmt::Stage { state, given, span })
}

fn resolve_all_given(
    given: &[GivenNode],
    around: &AroundBody<'_>,
    scope: &Scope,
    alloc: Global,
) -> Result<Items<ResolvedGiven>, Memory>
    ensures { IfOk result (λ gs. map given_field_of gs ≡ map
        (λ g. resolved_given (around_of around.now) scope.now g.field g.value) (map given_of given.now)) }
{
    let mut resolved = Items::new(alloc);
    for one in given {
        resolved.push(resolve_given(&one.field, &one.value, around, scope, alloc)?)?;
    }
    Ok(resolved)
}

#[tactic(auto, using(ob_table::specs::StatementsView::resolved_views))]
fn resolve_change(
    state: &NamePart,
    given: &[GivenNode],
    span: Span,
    around: &AroundBody<'_>,
    scope: &Scope,
    alloc: Global,
) -> Result<ResolvedStmt, Memory>
    ensures { IfOk result (λ x. statement_of x ≡ resolved_stmt (around_of around.now) scope.now
        (change_stmt state.now (map given_of given.now) span)) }
{
    let state = own_state_id(around, state)?;
    let given = resolve_all_given(given, around, scope, alloc)?;
    Ok(ResolvedStmt::Change { state, given, span })
}

fn resolve_value(
    value: &Option<Expr>,
    around: &AroundBody<'_>,
    scope: &Scope,
    alloc: Global,
) -> Result<Option<ResolvedExpr>, Memory>
    ensures { IfOk result (λ e. option_map expression_of e
        ≡ option_map (resolved_expr (around_of around.now) scope.now) (option_map expr_of value.now)) }
{
    match value {
        None => Ok(None),
        Some(value) => Ok(Some(resolve_expr(value, around, scope, alloc)?)),
    }
}

// A call for what it does: what it gives isn't looked at.
#[tactic(auto, using(ob_table::specs::StatementsView::resolved_views))]
fn resolve_discard(
    value: &Expr,
    span: Span,
    around: &AroundBody<'_>,
    scope: &Scope,
    alloc: Global,
) -> Result<ResolvedStmt, Memory>
    ensures { IfOk result (λ x. statement_of x ≡ resolved_stmt (around_of around.now) scope.now
        (call_stmt (expr_of value.now) span)) }
{
    let value = resolve_expr(value, around, scope, alloc)?;
    Ok(ResolvedStmt::Call { value, span })
}

#[tactic(auto, using(ob_table::specs::StatementsView::resolved_views))]
fn resolve_return(
    value: &Option<Expr>,
    span: Span,
    around: &AroundBody<'_>,
    scope: &Scope,
    alloc: Global,
) -> Result<ResolvedStmt, Memory>
    ensures { IfOk result (λ x. statement_of x ≡ resolved_stmt (around_of around.now) scope.now
        (return_stmt (option_map expr_of value.now) span)) }
{
    let value = resolve_value(value, around, scope, alloc)?;
    Ok(ResolvedStmt::Return { value, span })
}

#[tactic(auto, using(ob_table::specs::StatementsView::resolved_views))]
fn resolve_revert(
    text: &Option<Expr>,
    span: Span,
    around: &AroundBody<'_>,
    scope: &Scope,
    alloc: Global,
) -> Result<ResolvedStmt, Memory>
    ensures { IfOk result (λ x. statement_of x ≡ resolved_stmt (around_of around.now) scope.now
        (revert_stmt (option_map expr_of text.now) span)) }
{
    let text = resolve_value(text, around, scope, alloc)?;
    Ok(ResolvedStmt::Revert { text, span })
}

#[tactic(auto, using(ob_table::specs::StatementsView::resolved_views))]
fn resolve_disown(
    name: &NamePart,
    span: Span,
    around: &AroundBody<'_>,
    scope: &Scope,
) -> Result<ResolvedStmt, Memory>
    ensures { IfOk result (λ x. statement_of x ≡ resolved_stmt (around_of around.now) scope.now
        (disown_stmt name.now span)) }
{
    let subject = seen_at(around, scope, name)?;
    Ok(ResolvedStmt::Disown { subject, span })
}

#[tactic(auto, using(ob_table::specs::StatementsView::resolved_views))]
fn resolve_assert(
    subject: &Subject,
    perm: &PermNode,
    span: Span,
    around: &AroundBody<'_>,
    scope: &Scope,
) -> Result<ResolvedStmt, Memory>
    ensures { IfOk result (λ x. statement_of x ≡ resolved_stmt (around_of around.now) scope.now
        (assert_stmt subject.now perm.now span)) }
{
    let kind = kind_of_subject(around, scope, subject);
    let perm = perm_on_kind(around.declared().types(), kind, perm)?;
    let subject = seen_subject(around, scope, subject)?;
    Ok(ResolvedStmt::Assert {
        subject,
        perm,
        span,
    })
}

// The subject of a test, and the number of its state.
fn resolve_tested(
    subject: &Subject,
    state: &NamePart,
    around: &AroundBody<'_>,
    scope: &Scope,
) -> Result<(SeenAt, StateId), Memory>
    ensures subject { IfOk result (λ tested. tested.0 ≡ seen_subject (around_of around.now) scope.now subject.now) }
    ensures state { IfOk result (λ tested. tested.1 ≡ state_id (contract_of_kind (program_of around.now.program)
        (kind_of_subject (around_of around.now) scope.now subject.now)) state.now.name) }
{
    let kind = kind_of_subject(around, scope, subject);
    let state = state_id(around, kind, state)?;
    let subject = seen_subject(around, scope, subject)?;
    Ok((subject, state))
}

// A test with these parts, if each of them could be made.
#[tactic(auto, using(ob_table::specs::StatementsView::statement_views))]
fn test_with(
    tested: Result<(SeenAt, StateId), Memory>,
    then: Result<ResolvedBlock, Memory>,
    otherwise: Result<Option<ResolvedBlock>, Memory>,
    span: Span,
) -> Result<ResolvedStmt, Memory>
    ensures { IfOk result (λ x. IsOkAnd tested (λ t. IsOkAnd then (λ b. IsOkAnd otherwise (λ o.
        statement_of x ≡ resolved_test t.0 t.1 (resolved_block_of b) (otherwise_of o) span)))) }
{
    match (tested, then, otherwise) {
        (Ok((subject, state)), Ok(then), Ok(otherwise)) => Ok(ResolvedStmt::Test {
            subject,
            state,
            then,
            otherwise,
            span,
        }),
        _ => Err(Memory),
    }
}

// An `if` with these parts, if each of them could be made.
#[tactic(auto, using(ob_table::specs::StatementsView::statement_views))]
fn if_with(
    condition: Result<ResolvedExpr, Memory>,
    then: Result<ResolvedBlock, Memory>,
    otherwise: Result<Option<ResolvedBlock>, Memory>,
    span: Span,
) -> Result<ResolvedStmt, Memory>
    ensures { IfOk result (λ x. IsOkAnd condition (λ e. IsOkAnd then (λ b. IsOkAnd otherwise (λ o.
        statement_of x ≡ resolved_if (expression_of e) (resolved_block_of b) (otherwise_of o) span)))) }
{
    match (condition, then, otherwise) {
        (Ok(condition), Ok(then), Ok(otherwise)) => Ok(ResolvedStmt::If {
            condition,
            then,
            otherwise,
            span,
        }),
        _ => Err(Memory),
    }
}

// A `while` with these parts, if each of them could be made.
#[tactic(auto, using(ob_table::specs::StatementsView::statement_views))]
fn while_with(
    condition: Result<ResolvedExpr, Memory>,
    body: Result<ResolvedBlock, Memory>,
    span: Span,
) -> Result<ResolvedStmt, Memory>
    ensures { IfOk result (λ x. IsOkAnd condition (λ e. IsOkAnd body (λ b.
        statement_of x ≡ resolved_while (expression_of e) (resolved_block_of b) span))) }
{
    match (condition, body) {
        (Ok(condition), Ok(body)) => Ok(ResolvedStmt::While {
            condition,
            body,
            span,
        }),
        _ => Err(Memory),
    }
}

/// A statement.
#[cycle(resolve_stmt)]
#[tactic(auto, using(crate::proofs::ScopeLemmas::statement))]
fn resolve_stmt(
    statement: &Stmt,
    around: &AroundBody<'_>,
    scope: &mut Scope,
    alloc: Global,
) -> Result<ResolvedStmt, Memory>
    ensures value { IfOk result (λ x. statement_of x ≡ resolved_stmt (around_of around.now) scope.old
        (stmt_of statement.now)) }
    ensures scope { OnOk result (scope.new ≡ after_stmt (around_of around.now) scope.old (stmt_of statement.now)) }
{
    match statement {
        Stmt::Declare {
            of,
            name,
            value,
            span,
        } => resolve_declare(of, name, value, *span, around, scope, alloc),
        Stmt::Assign { name, value, span } => {
            resolve_assign(name, value, *span, around, scope, alloc)
        }
        Stmt::Stage {
            state,
            field,
            value,
            span,
        } => resolve_stage(state, field, value, *span, around, scope, alloc),
        Stmt::Change { state, given, span } => {
            resolve_change(state, given.as_slice(), *span, around, scope, alloc)
        }
        Stmt::Call { value, span } => resolve_discard(value, *span, around, scope, alloc),
        Stmt::Test {
            subject,
            state,
            then,
            otherwise,
            span,
        } => {
            let tested = resolve_tested(subject, state, around, scope);
            let then = resolve_block(then, around, scope, alloc);
            let otherwise = resolve_else(otherwise, around, scope, alloc);
            test_with(tested, then, otherwise, *span)
        }
        Stmt::If {
            condition,
            then,
            otherwise,
            span,
        } => {
            let condition = resolve_expr(condition, around, scope, alloc);
            let then = resolve_block(then, around, scope, alloc);
            let otherwise = resolve_else(otherwise, around, scope, alloc);
            if_with(condition, then, otherwise, *span)
        }
        Stmt::While {
            condition,
            body,
            span,
        } => {
            let condition = resolve_expr(condition, around, scope, alloc);
            let body = resolve_block(body, around, scope, alloc);
            while_with(condition, body, *span)
        }
        Stmt::Return { value, span } => resolve_return(value, *span, around, scope, alloc),
        Stmt::Revert { text, span } => resolve_revert(text, *span, around, scope, alloc),
        Stmt::Disown { name, span } => resolve_disown(name, *span, around, scope),
        Stmt::Assert {
            subject,
            perm,
            span,
        } => resolve_assert(subject, perm, *span, around, scope),
    }
}

#[cycle(resolve_stmt)]
#[tactic(auto, using(crate::proofs::ScopeLemmas::statements))]
fn resolve_else(
    otherwise: &Option<Block>,
    around: &AroundBody<'_>,
    scope: &mut Scope,
    alloc: Global,
) -> Result<Option<ResolvedBlock>, Memory>
    ensures value { IfOk result (λ b. otherwise_of b ≡ else_resolved (around_of around.now) scope.old
        (else_of otherwise.now)) }
    ensures scope { OnOk result (scope.new ≡ past scope.old (locals_in_else (else_of otherwise.now))) }
{
    match otherwise {
        None => Ok(None),
        Some(block) => Ok(Some(resolve_block(block, around, scope, alloc)?)),
    }
}

#[cycle(resolve_stmt)]
#[tactic(auto, using(crate::proofs::ScopeLemmas::statements))]
fn resolve_block(
    block: &Block,
    around: &AroundBody<'_>,
    scope: &mut Scope,
    alloc: Global,
) -> Result<ResolvedBlock, Memory>
    ensures value { IfOk result (λ b. resolved_block_of b
        ≡ block_resolved (around_of around.now) scope.old (block_of block.now)) }
    ensures scope { OnOk result (scope.new ≡ past scope.old (locals_in_block (block_of block.now))) }
{
    let visible = scope.visible();
    let statements = resolve_stmts(block.statements.as_slice(), around, scope, alloc)?;
    scope.leave(visible);
    Ok(ResolvedBlock {
        statements,
        end: block.end,
    })
}

/// The statements of a block or a body.
#[cycle(resolve_stmt)]
#[tactic(auto, using(crate::proofs::ScopeLemmas::statements))]
pub fn resolve_stmts(
    statements: &[Stmt],
    around: &AroundBody<'_>,
    scope: &mut Scope,
    alloc: Global,
) -> Result<Items<ResolvedStmt>, Memory>
    ensures value { IfOk result (λ xs. statements_of xs
        ≡ resolved_stmts (around_of around.now) scope.old (stmts_of statements.now)) }
    ensures scope { OnOk result (scope.new ≡ after_stmts (around_of around.now) scope.old (stmts_of statements.now)) }
{
    let mut resolved = Items::new(alloc);
    for statement in statements {
        resolved.push(resolve_stmt(statement, around, scope, alloc)?)?;
    }
    Ok(resolved)
}
