//! Transactions that call themselves on each way through them.

use ob_base::{ContractId, Span, TxId};
use ob_table::{Body, ResolvedBlock, ResolvedCall, ResolvedExpr, ResolvedGiven, ResolvedStmt};

/// The transaction whose calls are looked for.
#[derive(Clone, Copy)]
struct Own {
    contract: ContractId,
    tx: TxId,
}

/// How a part of a body goes on.
#[derive(Clone, Copy)]
enum Way {
    /// It comes to a call of its own transaction, at this place.
    Calls(Span),
    /// It may end the transaction before such a call.
    Ends,
    /// What stands behind it decides.
    GoesOn,
}

fn is_own(call: &ResolvedCall, own: Own) -> bool {
    call.contract.0 == own.contract.0 && call.tx.0 == own.tx.0
}

// The place of the name, where an expression is a call of its own transaction.
fn own_name(expr: &ResolvedExpr, own: Own) -> Option<Span> {
    match expr {
        ResolvedExpr::Call { call, .. } => {
            if is_own(call, own) {
                Some(call.name)
            } else {
                None
            }
        }
        _ => None,
    }
}

// The place of a call of its own transaction that an expression always comes to. The right side of `&&` and `||` may be left out.
#[cycle(own_call)]
fn own_call(expr: &ResolvedExpr, own: Own) -> Option<Span> {
    if let Some(name) = own_name(expr, own) {
        return Some(name);
    }
    match expr {
        ResolvedExpr::Unary { operand, .. } => own_call(operand.get(), own),
        ResolvedExpr::Binary { left, right, .. } => {
            own_call(left.get(), own).or(own_call(right.get(), own))
        }
        ResolvedExpr::Logical { left, .. } => own_call(left.get(), own),
        ResolvedExpr::Call { call, .. } => own_call_among(call.args.as_slice(), own),
        ResolvedExpr::New { args, .. } => own_call_among(args.as_slice(), own),
        _ => None,
    }
}

#[cycle(own_call)]
fn own_call_among(exprs: &[ResolvedExpr], own: Own) -> Option<Span> {
    for expr in exprs {
        if let Some(name) = own_call(expr, own) {
            return Some(name);
        }
    }
    None
}

// The same of the fields that a change of state gives.
fn own_call_given(given: &[ResolvedGiven], own: Own) -> Option<Span> {
    for one in given {
        if let Some(name) = own_call(&one.value, own) {
            return Some(name);
        }
    }
    None
}

fn going_on(call: Option<Span>) -> Way {
    match call {
        Some(name) => Way::Calls(name),
        None => Way::GoesOn,
    }
}

// How a statement goes that ends the transaction, maybe with a value.
fn ending(value: &Option<ResolvedExpr>, own: Own) -> Way {
    let call = match value {
        Some(value) => own_call(value, own),
        None => None,
    };
    match call {
        Some(name) => Way::Calls(name),
        None => Way::Ends,
    }
}

// How a statement without blocks goes.
fn plain_way(stmt: &ResolvedStmt, own: Own) -> Way {
    match stmt {
        ResolvedStmt::Declare { value, .. } => going_on(own_call(value, own)),
        ResolvedStmt::Assign { value, .. } => going_on(own_call(value, own)),
        ResolvedStmt::Stage { given, .. } => going_on(own_call(&given.value, own)),
        ResolvedStmt::Change { given, .. } => going_on(own_call_given(given.as_slice(), own)),
        ResolvedStmt::Call { value, .. } => going_on(own_call(value, own)),
        ResolvedStmt::Return { value, .. } => ending(value, own),
        ResolvedStmt::Revert { text, .. } => ending(text, own),
        _ => Way::GoesOn,
    }
}

// How two branches go together.
fn both_ways(one: Way, other: Way) -> Way {
    match (one, other) {
        (Way::Ends, _) => Way::Ends,
        (_, Way::Ends) => Way::Ends,
        (Way::Calls(name), Way::Calls(_)) => Way::Calls(name),
        _ => Way::GoesOn,
    }
}

// How a condition and the branches behind it go.
fn behind(condition: Option<Span>, branches: Way) -> Way {
    match condition {
        Some(name) => Way::Calls(name),
        None => branches,
    }
}

#[cycle(stmt_way)]
fn block_way(block: &ResolvedBlock, own: Own) -> Way {
    way_through(block.statements.as_slice(), own)
}

#[cycle(stmt_way)]
fn otherwise_way(otherwise: &Option<ResolvedBlock>, own: Own) -> Way {
    match otherwise {
        Some(block) => block_way(block, own),
        None => Way::GoesOn,
    }
}

#[cycle(stmt_way)]
fn stmt_way(stmt: &ResolvedStmt, own: Own) -> Way {
    match stmt {
        ResolvedStmt::Test {
            then,
            otherwise,
            ..
        } => both_ways(block_way(then, own), otherwise_way(otherwise, own)),
        ResolvedStmt::If {
            condition,
            then,
            otherwise,
            ..
        } => {
            let branches = both_ways(block_way(then, own), otherwise_way(otherwise, own));
            behind(own_call(condition, own), branches)
        }
        // Its block may be left out.
        ResolvedStmt::While {
            condition,
            body,
            ..
        } => {
            let turn = both_ways(block_way(body, own), Way::GoesOn);
            behind(own_call(condition, own), turn)
        }
        _ => plain_way(stmt, own),
    }
}

#[cycle(stmt_way)]
fn way_through(statements: &[ResolvedStmt], own: Own) -> Way {
    for stmt in statements {
        match stmt_way(stmt, own) {
            Way::GoesOn => {}
            way => return way,
        }
    }
    Way::GoesOn
}

/// The place of the call by which a transaction calls itself on each way through it, if it does.
pub fn endless_call(body: &Body) -> Option<Span> {
    let own = Own {
        contract: body.contract,
        tx: body.tx,
    };
    match way_through(body.statements.as_slice(), own) {
        Way::Calls(name) => Some(name),
        _ => None,
    }
}
