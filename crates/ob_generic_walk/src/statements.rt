//! The types in statements.
ghost use Rattle.std.specs.Prelude.{◌≡◌, [], map, flat_map, option_map, OnOk};
ghost use Rattle.std.specs.Option.{option_map_or};
ghost use Rattle.ob_tree.specs.ExprsView.{expr_of};
ghost use Rattle.ob_tree.specs.StmtsView.{local_of, given_of, stmt_of, stmts_of, block_of, else_of};
ghost use Rattle.ob_generic_spec.specs.Uses.{types_in_local, types_in_expr, types_in_given, types_in_stmt, types_in_block, types_in_else, types_in_stmts};
ghost use Rattle.ob_generic_walk.specs.Seen.{met};

use crate::expressions::walk_expr;
use crate::found::Found;
use crate::visiting::visit;
use ob_base::Memory;
use ob_generic_names::AroundType;
use ob_generic_spec::Role;
use ob_tree::{Block, Expr, GivenNode, LocalType, Stmt};
use std::alloc::Global;

fn walk_local(
    of: &LocalType,
    alloc: Global,
    around: &AroundType<'_>,
    found: &mut Found,
) -> Result<(), Memory>
    ensures { OnOk result (found.new ≡ met around.now found.old (types_in_local (local_of of.now))) }
{
    match of {
        LocalType::Int(_) | LocalType::Bool(_) | LocalType::Text(_) => Ok(()),
        LocalType::Named(of) => visit(of, Role::Anywhere, alloc, around, found),
    }
}

#[tactic(auto, using(ob_tree::specs::MembersView::views, crate::proofs::WalkTurns::turns))]
fn walk_givens(
    given: &[GivenNode],
    alloc: Global,
    around: &AroundType<'_>,
    found: &mut Found,
) -> Result<(), Memory>
    ensures { OnOk result (found.new ≡ met around.now found.old (flat_map types_in_given (map given_of given.now))) }
{
    for one in given {
        walk_expr(&one.value, alloc, around, found)?;
    }
    Ok(())
}

fn walk_value(
    value: &Option<Expr>,
    alloc: Global,
    around: &AroundType<'_>,
    found: &mut Found,
) -> Result<(), Memory>
    ensures { OnOk result (found.new
        ≡ met around.now found.old (option_map_or types_in_expr (option_map expr_of value.now) [])) }
{
    match value {
        None => Ok(()),
        Some(value) => walk_expr(value, alloc, around, found),
    }
}

#[cycle(walk)]
#[tactic(auto, using(ob_tree::specs::StmtsView::stmt_views, crate::proofs::WalkTurns::turns))]
fn walk_stmt(
    statement: &Stmt,
    alloc: Global,
    around: &AroundType<'_>,
    found: &mut Found,
) -> Result<(), Memory>
    ensures { OnOk result (found.new ≡ met around.now found.old (types_in_stmt (stmt_of statement.now))) }
{
    match statement {
        Stmt::Declare { of, value, .. } => {
            walk_local(of, alloc, around, found)?;
            walk_expr(value, alloc, around, found)
        }
        Stmt::Assign { value, .. } => walk_expr(value, alloc, around, found),
        Stmt::Stage { value, .. } => walk_expr(value, alloc, around, found),
        Stmt::Call { value, .. } => walk_expr(value, alloc, around, found),
        Stmt::Change { given, .. } => walk_givens(given.as_slice(), alloc, around, found),
        Stmt::Test {
            then,
            otherwise,
            ..
        } => {
            walk_block(then, alloc, around, found)?;
            walk_else(otherwise, alloc, around, found)
        }
        Stmt::If {
            condition,
            then,
            otherwise,
            ..
        } => {
            walk_expr(condition, alloc, around, found)?;
            walk_block(then, alloc, around, found)?;
            walk_else(otherwise, alloc, around, found)
        }
        Stmt::While {
            condition,
            body,
            ..
        } => {
            walk_expr(condition, alloc, around, found)?;
            walk_block(body, alloc, around, found)
        }
        Stmt::Return { value, .. } => walk_value(value, alloc, around, found),
        Stmt::Revert { text, .. } => walk_value(text, alloc, around, found),
        Stmt::Disown { .. } | Stmt::Assert { .. } => Ok(()),
    }
}

#[cycle(walk)]
#[tactic(auto, using(ob_tree::specs::StmtsView::stmt_views))]
fn walk_else(
    otherwise: &Option<Block>,
    alloc: Global,
    around: &AroundType<'_>,
    found: &mut Found,
) -> Result<(), Memory>
    ensures { OnOk result (found.new ≡ met around.now found.old (types_in_else (else_of otherwise.now))) }
{
    match otherwise {
        None => Ok(()),
        Some(block) => walk_block(block, alloc, around, found),
    }
}

/// The types in a block.
#[cycle(walk)]
#[tactic(auto, using(ob_tree::specs::StmtsView::stmt_views))]
pub fn walk_block(
    block: &Block,
    alloc: Global,
    around: &AroundType<'_>,
    found: &mut Found,
) -> Result<(), Memory>
    ensures { OnOk result (found.new ≡ met around.now found.old (types_in_block (block_of block.now))) }
{
    walk_stmts(block.statements.as_slice(), alloc, around, found)
}

#[cycle(walk)]
#[tactic(auto, using(ob_tree::specs::StmtsView::stmt_views, crate::proofs::WalkTurns::turns))]
fn walk_stmts(
    statements: &[Stmt],
    alloc: Global,
    around: &AroundType<'_>,
    found: &mut Found,
) -> Result<(), Memory>
    ensures { OnOk result (found.new ≡ met around.now found.old (types_in_stmts (stmts_of statements.now))) }
{
    for statement in statements {
        walk_stmt(statement, alloc, around, found)?;
    }
    Ok(())
}
