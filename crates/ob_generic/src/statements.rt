//! Statements in the tree of the instances.
ghost use Rattle.std.specs.Prelude.{◌≡◌, map, option_map, IfOk};
ghost use Rattle.ob_tree.specs.ExprsView.{expr_of};
ghost use Rattle.ob_tree.specs.Stmts.{declare_stmt, assign_stmt, stage_stmt, change_stmt, call_stmt, test_stmt, if_stmt, while_stmt, return_stmt, revert_stmt, assert_stmt};
ghost use Rattle.ob_tree.specs.StmtsView.{local_of, given_of, stmt_of, block_of, else_of};
ghost use Rattle.ob_generic_spec.specs.InstanceBodies.{expr_in, stmt_in, block_in, else_in};

use crate::expressions::{expr_in, givens_in, value_in};
use crate::naming::local_in;
use ob_base::{Duplicate, Items, Memory, Span, both};
use ob_generic_names::{OwnInstance, perm_in};
use ob_tree::{Block, Expr, GivenNode, LocalType, NamePart, PermNode, Stmt, Subject};
use std::alloc::Global;

#[tactic(auto, using(ob_tree::specs::StmtsView::stmt_views))]
fn declare_in(
    of: &LocalType,
    name: &NamePart,
    value: &Expr,
    span: Span,
    alloc: Global,
    own: &Option<OwnInstance<'_>>,
) -> Result<Stmt, Memory>
    ensures { IfOk result (λ s. stmt_of s
        ≡ stmt_in own.now (declare_stmt (local_of of.now) name.now (expr_of value.now) span)) }
{
    let ((of, name), value) = both(
        both(local_in(of, alloc, own), name.copy(alloc)),
        expr_in(value, alloc, own),
    )?;
    Ok(Stmt::Declare {
        of,
        name,
        value,
        span,
    })
}

#[tactic(auto, using(ob_tree::specs::StmtsView::stmt_views))]
fn assign_in(
    name: &NamePart,
    value: &Expr,
    span: Span,
    alloc: Global,
    own: &Option<OwnInstance<'_>>,
) -> Result<Stmt, Memory>
    ensures { IfOk result (λ s. stmt_of s ≡ stmt_in own.now (assign_stmt name.now (expr_of value.now) span)) }
{
    let (name, value) = both(name.copy(alloc), expr_in(value, alloc, own))?;
    Ok(Stmt::Assign { name, value, span })
}

#[tactic(auto, using(ob_tree::specs::StmtsView::stmt_views))]
fn stage_in(
    state: &NamePart,
    field: &NamePart,
    value: &Expr,
    span: Span,
    alloc: Global,
    own: &Option<OwnInstance<'_>>,
) -> Result<Stmt, Memory>
    ensures { IfOk result (λ s. stmt_of s ≡ stmt_in own.now (stage_stmt state.now field.now (expr_of value.now) span)) }
{
    let ((state, field), value) = both(
        both(state.copy(alloc), field.copy(alloc)),
        expr_in(value, alloc, own),
    )?;
    Ok(Stmt::Stage {
        state,
        field,
        value,
        span,
    })
}

#[tactic(auto, using(ob_tree::specs::StmtsView::stmt_views))]
fn change_in(
    state: &NamePart,
    given: &[GivenNode],
    span: Span,
    alloc: Global,
    own: &Option<OwnInstance<'_>>,
) -> Result<Stmt, Memory>
    ensures { IfOk result (λ s. stmt_of s ≡ stmt_in own.now (change_stmt state.now (map given_of given.now) span)) }
{
    let (state, given) = both(state.copy(alloc), givens_in(given, alloc, own))?;
    Ok(Stmt::Change { state, given, span })
}

#[tactic(auto, using(ob_tree::specs::StmtsView::stmt_views))]
fn call_in(
    value: &Expr,
    span: Span,
    alloc: Global,
    own: &Option<OwnInstance<'_>>,
) -> Result<Stmt, Memory>
    ensures { IfOk result (λ s. stmt_of s ≡ stmt_in own.now (call_stmt (expr_of value.now) span)) }
{
    let value = expr_in(value, alloc, own)?;
    Ok(Stmt::Call { value, span })
}

#[tactic(auto, using(ob_tree::specs::StmtsView::stmt_views))]
fn return_in(
    value: &Option<Expr>,
    span: Span,
    alloc: Global,
    own: &Option<OwnInstance<'_>>,
) -> Result<Stmt, Memory>
    ensures { IfOk result (λ s. stmt_of s ≡ stmt_in own.now (return_stmt (option_map expr_of value.now) span)) }
{
    let value = value_in(value, alloc, own)?;
    Ok(Stmt::Return { value, span })
}

#[tactic(auto, using(ob_tree::specs::StmtsView::stmt_views))]
fn revert_in(
    text: &Option<Expr>,
    span: Span,
    alloc: Global,
    own: &Option<OwnInstance<'_>>,
) -> Result<Stmt, Memory>
    ensures { IfOk result (λ s. stmt_of s ≡ stmt_in own.now (revert_stmt (option_map expr_of text.now) span)) }
{
    let text = value_in(text, alloc, own)?;
    Ok(Stmt::Revert { text, span })
}

#[tactic(auto, using(ob_tree::specs::StmtsView::stmt_views))]
fn assert_in(
    subject: &Subject,
    perm: &PermNode,
    span: Span,
    alloc: Global,
    own: &Option<OwnInstance<'_>>,
) -> Result<Stmt, Memory>
    ensures { IfOk result (λ s. stmt_of s ≡ stmt_in own.now (assert_stmt subject.now perm.now span)) }
{
    let (subject, perm) = both(subject.copy(alloc), perm_in(perm, alloc, own))?;
    Ok(Stmt::Assert {
        subject,
        perm,
        span,
    })
}

// A test of a state with these branches.
#[tactic(auto, using(ob_tree::specs::StmtsView::stmt_views))]
fn test_with(
    subject: &Subject,
    state: &NamePart,
    branches: (Block, Option<Block>),
    span: Span,
    alloc: Global,
) -> Result<Stmt, Memory>
    ensures { IfOk result (λ s. stmt_of s
        ≡ test_stmt subject.now state.now (block_of branches.0) (else_of branches.1) span) }
{
    let (subject, state) = both(subject.copy(alloc), state.copy(alloc))?;
    let (then, otherwise) = branches;
    Ok(Stmt::Test {
        subject,
        state,
        then,
        otherwise,
        span,
    })
}

// A test of a condition with these branches.
#[tactic(auto, using(ob_tree::specs::StmtsView::stmt_views))]
fn if_with(
    condition: &Expr,
    branches: (Block, Option<Block>),
    span: Span,
    alloc: Global,
    own: &Option<OwnInstance<'_>>,
) -> Result<Stmt, Memory>
    ensures { IfOk result (λ s. stmt_of s
        ≡ if_stmt (expr_in own.now (expr_of condition.now)) (block_of branches.0) (else_of branches.1) span) }
{
    let condition = expr_in(condition, alloc, own)?;
    let (then, otherwise) = branches;
    Ok(Stmt::If {
        condition,
        then,
        otherwise,
        span,
    })
}

// A loop with this block.
#[tactic(auto, using(ob_tree::specs::StmtsView::stmt_views))]
fn while_with(
    condition: &Expr,
    body: Block,
    span: Span,
    alloc: Global,
    own: &Option<OwnInstance<'_>>,
) -> Result<Stmt, Memory>
    ensures { IfOk result (λ s. stmt_of s
        ≡ while_stmt (expr_in own.now (expr_of condition.now)) (block_of body) span) }
{
    let condition = expr_in(condition, alloc, own)?;
    Ok(Stmt::While {
        condition,
        body,
        span,
    })
}

#[cycle(instance)]
#[tactic(auto, using(ob_tree::specs::StmtsView::stmt_views, crate::proofs::Turns::turns))]
fn stmt_in(statement: &Stmt, alloc: Global, own: &Option<OwnInstance<'_>>) -> Result<Stmt, Memory>
    ensures { IfOk result (λ s. stmt_of s ≡ stmt_in own.now (stmt_of statement.now)) }
{
    match statement {
        Stmt::Declare {
            of,
            name,
            value,
            span,
        } => declare_in(of, name, value, *span, alloc, own),
        Stmt::Assign { name, value, span } => assign_in(name, value, *span, alloc, own),
        Stmt::Stage {
            state,
            field,
            value,
            span,
        } => stage_in(state, field, value, *span, alloc, own),
        Stmt::Change { state, given, span } => {
            change_in(state, given.as_slice(), *span, alloc, own)
        }
        Stmt::Call { value, span } => call_in(value, *span, alloc, own),
        Stmt::Test {
            subject,
            state,
            then,
            otherwise,
            span,
        } => {
            let branches = both(
                block_in(then, alloc, own),
                otherwise_in(otherwise, alloc, own),
            )?;
            test_with(subject, state, branches, *span, alloc)
        }
        Stmt::If {
            condition,
            then,
            otherwise,
            span,
        } => {
            let branches = both(
                block_in(then, alloc, own),
                otherwise_in(otherwise, alloc, own),
            )?;
            if_with(condition, branches, *span, alloc, own)
        }
        Stmt::While {
            condition,
            body,
            span,
        } => {
            let body = block_in(body, alloc, own)?;
            while_with(condition, body, *span, alloc, own)
        }
        Stmt::Return { value, span } => return_in(value, *span, alloc, own),
        Stmt::Revert { text, span } => revert_in(text, *span, alloc, own),
        Stmt::Disown { .. } => statement.copy(alloc),
        Stmt::Assert {
            subject,
            perm,
            span,
        } => assert_in(subject, perm, *span, alloc, own),
    }
}

#[cycle(instance)]
#[tactic(auto, using(ob_tree::specs::StmtsView::stmt_views, crate::proofs::Turns::turns))]
fn otherwise_in(
    block: &Option<Block>,
    alloc: Global,
    own: &Option<OwnInstance<'_>>,
) -> Result<Option<Block>, Memory>
    ensures { IfOk result (λ b. else_of b ≡ else_in own.now (else_of block.now)) }
{
    match block {
        None => Ok(None),
        Some(block) => Ok(Some(block_in(block, alloc, own)?)),
    }
}

/// A block.
#[cycle(instance)]
#[tactic(auto, using(ob_tree::specs::StmtsView::stmt_views, crate::proofs::Turns::turns))]
pub fn block_in(
    block: &Block,
    alloc: Global,
    own: &Option<OwnInstance<'_>>,
) -> Result<Block, Memory>
    ensures { IfOk result (λ b. block_of b ≡ block_in own.now (block_of block.now)) }
{
    let statements = stmts_in(block.statements.as_slice(), alloc, own)?;
    Ok(Block {
        statements,
        end: block.end,
    })
}

#[cycle(instance)]
#[tactic(auto, using(ob_tree::specs::StmtsView::stmt_views, crate::proofs::Turns::turns))]
fn stmts_in(
    statements: &[Stmt],
    alloc: Global,
    own: &Option<OwnInstance<'_>>,
) -> Result<Items<Stmt>, Memory>
    ensures { IfOk result (λ ss. map stmt_of ss ≡ map (stmt_in own.now) (map stmt_of statements.now)) }
{
    let mut out = Items::new(alloc);
    for statement in statements {
        out.push(stmt_in(statement, alloc, own)?)?;
    }
    Ok(out)
}
