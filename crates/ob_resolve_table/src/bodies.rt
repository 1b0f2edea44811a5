//! The bodies of a contract (the Obsidian language documentation, "Transactions").
ghost use Rattle.std.specs.Prelude.{◌≡◌, ◌+◌, [], ◌∷◌, ◌++◌, length, map, flat_map, option_map, IfOk, OnOk};
ghost use Rattle.std.specs.Option.{option_map_or};
ghost use Rattle.ob_tree.specs.NamesView.{type_of};
ghost use Rattle.ob_tree.specs.Stmts.{block_with};
ghost use Rattle.ob_tree.specs.StmtsView.{block_of, stmts_of};
ghost use Rattle.ob_tree.specs.MembersView.{formal_of, member_of, contract_of};
ghost use Rattle.ob_table.specs.StatementsView.{resolved_body_of, statements_of};
ghost use Rattle.ob_resolve_spec.specs.Declarations.{Transaction, transactions_of_member, constructor_of};
ghost use Rattle.ob_resolve_spec.specs.Kinds.{kind_of_result};
ghost use Rattle.ob_resolve_spec.specs.Scopes.{scope_of_params};
ghost use Rattle.ob_resolve_spec.specs.Bodies.{resolved_stmts};
ghost use Rattle.ob_resolve_spec.specs.TableOf.{body_with, constructor_body, transaction_bodies, bodies_of};
ghost use Rattle.ob_resolve_scope.specs.Types.{program_of};
ghost use Rattle.ob_resolve_scope.specs.Around.{around_of};
ghost use Rattle.ob_resolve_table.specs.Parts.{bodies_from};

use crate::constructors::written_constructor;
use ob_base::{Items, Memory, Span, TxId};
use ob_resolve_bodies::{contract_id, resolve_stmts, wide};
use ob_resolve_scope::{AroundBody, scope_of_params};
use ob_resolve_spec::InferredKind;
use ob_table::{Body, ResolvedStmt};
use ob_tree::{Block, FormalNode, Member, Stmt, TypeNode};
use std::alloc::Global;

// The statements of a body of the contract around, with these parameters.
fn statements_with(
    around: &AroundBody<'_>,
    params: &[FormalNode],
    statements: &[Stmt],
    alloc: Global,
) -> Result<Items<ResolvedStmt>, Memory>
    ensures { IfOk result (λ xs. statements_of xs ≡ resolved_stmts (around_of around.now)
        (scope_of_params (program_of around.now.program) (map formal_of params.now)) (stmts_of statements.now)) }
{
    let mut scope = scope_of_params(alloc, around.declared().types(), params)?;
    resolve_stmts(statements, around, &mut scope, alloc)
}

// The body at this number of the contract around, with these parameters.
#[tactic(auto, using(ob_tree::specs::MembersView::views))]
fn body_with(
    around: &AroundBody<'_>,
    tx: usize,
    params: &[FormalNode],
    statements: &[Stmt],
    end: Span,
    alloc: Global,
) -> Result<Body, Memory>
    ensures { IfOk result (λ b. resolved_body_of b ≡ body_with (program_of around.now.program)
        (contract_of around.now.own) tx around.now.result (map formal_of params.now)
        (block_with (stmts_of statements.now) end)) }
{
    let number = around
        .declared()
        .types()
        .find(around.node().name.as_bytes());
    let contract = contract_id(number)?;
    let tx = TxId(wide(tx)?);
    let statements = statements_with(around, params, statements, alloc)?;
    Ok(Body {
        contract,
        tx,
        statements,
        end,
    })
}

// The body of the constructor of the contract around, written or default.
#[tactic(auto, using(ob_tree::specs::MembersView::views))]
fn constructor_body(around: &AroundBody<'_>, alloc: Global) -> Result<Body, Memory>
    ensures { IfOk result (λ b. resolved_body_of b ≡ constructor_body (program_of around.now.program)
        (contract_of around.now.own) (constructor_of (contract_of around.now.own))) }
{
    let around = around.giving(InferredKind::Nothing);
    match written_constructor(&around) {
        Some(written) => {
            let statements = written.body.statements.as_slice();
            body_with(
                &around,
                0,
                written.params,
                statements,
                written.body.end,
                alloc,
            )
        }
        None => body_with(&around, 0, &[], &[], around.node().span, alloc),
    }
}

// The body of a transaction at this number.
#[tactic(auto, using(ob_tree::specs::MembersView::views))]
fn transaction_body(
    around: &AroundBody<'_>,
    tx: usize,
    params: &[FormalNode],
    gives: &Option<TypeNode>,
    body: &Block,
    alloc: Global,
) -> Result<Body, Memory>
    ensures { IfOk result (λ b. resolved_body_of b ≡ body_with (program_of around.now.program)
        (contract_of around.now.own) tx (kind_of_result (program_of around.now.program) (option_map type_of gives.now))
        (map formal_of params.now) (block_of body.now)) }
{
    let gives = around.declared().types().kind_of_result(gives);
    let statements = body.statements.as_slice();
    body_with(
        &around.giving(gives),
        tx,
        params,
        statements,
        body.end,
        alloc,
    )
}

// The body of a transaction at this number, where it has one.
fn add_transaction_body(
    around: &AroundBody<'_>,
    tx: usize,
    params: &[FormalNode],
    gives: &Option<TypeNode>,
    body: &Option<Block>,
    bodies: &mut Items<Body>,
    alloc: Global,
) -> Result<(), Memory>
    ensures { let program = program_of around.now.program in
        let kind = kind_of_result program (option_map type_of gives.now) in
        OnOk result (map resolved_body_of bodies.new ≡ map resolved_body_of bodies.old
        ++ option_map_or (λ b. body_with program (contract_of around.now.own) tx kind (map formal_of params.now) b
        ∷ []) (option_map block_of body.now) []) }
{
    match body {
        None => Ok(()),
        Some(body) => Ok(bodies.push(transaction_body(around, tx, params, gives, body, alloc)?)?),
    }
}

// The body of the transaction that a member is, if it is one, at this number; the number after it.
#[tactic(auto, using(crate::proofs::TableLemmas::turns))]
fn add_body(
    around: &AroundBody<'_>,
    member: &Member,
    tx: usize,
    bodies: &mut Items<Body>,
    alloc: Global,
) -> Result<usize, Memory>
    ensures next { IfOk result (λ next. next ≡ tx + length (transactions_of_member (member_of member.now))) }
    ensures bodies { OnOk result (map resolved_body_of bodies.new
        ≡ map resolved_body_of bodies.old ++ bodies_from (program_of around.now.program) (contract_of around.now.own) tx
        (transactions_of_member (member_of member.now))) }
{
    match member {
        Member::Transaction {
            params,
            result,
            body,
            ..
        } => {
            add_transaction_body(around, tx, params.as_slice(), result, body, bodies, alloc)?;
            tx.checked_add(1).ok_or(Memory)
        }
        _ => Ok(tx),
    }
}

// The bodies of the transactions among these members.
fn add_transaction_bodies(
    around: &AroundBody<'_>,
    members: &[Member],
    bodies: &mut Items<Body>,
    alloc: Global,
) -> Result<(), Memory>
    ensures { OnOk result (map resolved_body_of bodies.new
        ≡ map resolved_body_of bodies.old ++ bodies_from (program_of around.now.program) (contract_of around.now.own) 1
        (flat_map transactions_of_member (map member_of members.now))) }
{
    let mut tx = 1;
    for member in members {
        tx = add_body(around, member, tx, bodies, alloc)?;
    }
    Ok(())
}

/// The bodies of the contract around, its constructor's first; an interface has none.
pub fn add_bodies(
    around: &AroundBody<'_>,
    bodies: &mut Items<Body>,
    alloc: Global,
) -> Result<(), Memory>
    ensures { OnOk result (map resolved_body_of bodies.new
        ≡ map resolved_body_of bodies.old ++ bodies_of (program_of around.now.program) (contract_of around.now.own)) }
{
    let node = around.node();
    if node.interface {
        return Ok(());
    }
    bodies.push(constructor_body(around, alloc)?)?;
    add_transaction_bodies(around, node.members.as_slice(), bodies, alloc)
}
