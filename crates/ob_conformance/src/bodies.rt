//! The bodies of a class table in words: the kind of each statement and expression, its place, and its parts.
use crate::page::Page;
use ob_base::{ContractId, Span, StateId};
use ob_table::{
    Body, Kind, ResolvedBlock, ResolvedCall, ResolvedExpr, ResolvedGiven, ResolvedStmt, Seen,
    SeenAt,
};
use std::fmt::Debug;

fn put_seen(seen: SeenAt, page: &mut Page) {
    match seen.of {
        Seen::This => page.word("this"),
        Seen::Local(local) => {
            page.word("l");
            page.number(u64::from(local));
        }
        Seen::Field(field) => {
            page.word("f");
            page.number(u64::from(field.0));
        }
    }
    page.place(seen.span);
}

fn put_kind(kind: Kind, page: &mut Page) {
    match kind {
        Kind::Int => page.word("Int"),
        Kind::Bool => page.word("Bool"),
        Kind::Text => page.word("Text"),
        Kind::Reference(ContractId(contract)) => {
            page.word("Reference");
            page.number(u64::from(contract));
        }
    }
}

fn begin_operator<T: Debug>(word: &str, span: Span, operator: &T, sign: Span, page: &mut Page) {
    page.begin(word, span);
    page.name(operator);
    page.place(sign);
}

fn begin_call(call: &ResolvedCall, span: Span, page: &mut Page) {
    page.begin("Call", span);
    match call.receiver {
        Some(seen) => put_seen(seen, page),
        None => page.word("none"),
    }
    page.number(u64::from(call.contract.0));
    page.number(u64::from(call.tx.0));
    page.place(call.name);
}

// A value that is written in the text, or that a name denotes.
fn put_literal(expr: &ResolvedExpr, page: &mut Page) {
    match expr {
        ResolvedExpr::Number { value, span } => {
            page.begin("Number", *span);
            page.show(value);
        }
        ResolvedExpr::Text { value, span } => {
            page.begin("Text", *span);
            page.bytes(value.as_bytes());
        }
        ResolvedExpr::Bool { value, span } => {
            page.begin("Bool", *span);
            page.truth(*value);
        }
        ResolvedExpr::Seen { seen, span } => {
            page.begin("Seen", *span);
            put_seen(*seen, page);
        }
        // `put_expr` puts them.
        _ => {}
    }
}

#[cycle(show_expr)]
fn put_exprs(exprs: &[ResolvedExpr], page: &mut Page) {
    page.number(exprs.len() as u64);
    for expr in exprs {
        put_expr(expr, page);
    }
}

#[cycle(show_expr)]
fn put_expr(expr: &ResolvedExpr, page: &mut Page) {
    match expr {
        ResolvedExpr::Unary {
            operator,
            sign,
            operand,
            span,
        } => {
            begin_operator("Unary", *span, operator, *sign, page);
            put_expr(operand.get(), page);
        }
        ResolvedExpr::Binary {
            operator,
            sign,
            left,
            right,
            span,
        } => {
            begin_operator("Binary", *span, operator, *sign, page);
            put_expr(left.get(), page);
            put_expr(right.get(), page);
        }
        ResolvedExpr::Logical {
            operator,
            sign,
            left,
            right,
            span,
        } => {
            begin_operator("Binary", *span, operator, *sign, page);
            put_expr(left.get(), page);
            put_expr(right.get(), page);
        }
        ResolvedExpr::Call { call, span } => {
            begin_call(call, *span, page);
            put_exprs(call.args.as_slice(), page);
        }
        ResolvedExpr::New {
            contract,
            args,
            span,
        } => {
            page.begin("New", *span);
            page.number(u64::from(contract.0));
            put_exprs(args.as_slice(), page);
        }
        _ => put_literal(expr, page),
    }
}

fn put_given(given: &ResolvedGiven, page: &mut Page) {
    page.number(u64::from(given.field.0));
    page.place(given.span);
    put_expr(&given.value, page);
}

fn begin_change(word: &str, span: Span, state: StateId, count: usize, page: &mut Page) {
    page.begin(word, span);
    page.number(u64::from(state.0));
    page.number(count as u64);
}

// A word, and the value that belongs to it, or `none`.
fn put_with_value(word: &str, span: Span, value: &Option<ResolvedExpr>, page: &mut Page) {
    page.begin(word, span);
    match value {
        Some(value) => put_expr(value, page),
        None => page.word("none"),
    }
}

#[cycle(show_stmt)]
fn put_block(block: &ResolvedBlock, page: &mut Page) {
    page.place(block.end);
    page.number(block.statements.as_slice().len() as u64);
    for statement in block.statements.as_slice() {
        put_stmt(statement, page);
    }
}

#[cycle(show_stmt)]
fn put_otherwise(otherwise: &Option<ResolvedBlock>, page: &mut Page) {
    match otherwise {
        Some(block) => {
            page.word("otherwise");
            put_block(block, page);
        }
        None => page.word("none"),
    }
}

#[cycle(show_stmt)]
fn put_stmt(statement: &ResolvedStmt, page: &mut Page) {
    match statement {
        ResolvedStmt::Test {
            subject,
            state,
            then,
            otherwise,
            span,
        } => {
            page.begin("Test", *span);
            put_seen(*subject, page);
            page.number(u64::from(state.0));
            put_block(then, page);
            put_otherwise(otherwise, page);
        }
        ResolvedStmt::If {
            condition,
            then,
            otherwise,
            span,
        } => {
            page.begin("If", *span);
            put_expr(condition, page);
            put_block(then, page);
            put_otherwise(otherwise, page);
        }
        ResolvedStmt::While {
            condition,
            body,
            span,
        } => {
            page.begin("While", *span);
            put_expr(condition, page);
            put_block(body, page);
        }
        _ => put_simple(statement, page),
    }
}

// A statement without statements in it.
fn put_simple(statement: &ResolvedStmt, page: &mut Page) {
    match statement {
        ResolvedStmt::Stage { state, given, span } => {
            begin_change("Stage", *span, *state, 1, page);
            put_given(given, page);
        }
        ResolvedStmt::Change { state, given, span } => {
            begin_change("Change", *span, *state, given.as_slice().len(), page);
            for one in given.as_slice() {
                put_given(one, page);
            }
        }
        ResolvedStmt::Call { value, span } => {
            page.begin("Call", *span);
            put_expr(value, page);
        }
        ResolvedStmt::Return { value, span } => put_with_value("Return", *span, value, page),
        ResolvedStmt::Revert { text, span } => put_with_value("Revert", *span, text, page),
        _ => put_subject(statement, page),
    }
}

// A statement about a name.
fn put_subject(statement: &ResolvedStmt, page: &mut Page) {
    match statement {
        ResolvedStmt::Declare {
            local,
            name,
            of,
            value,
            span,
        } => {
            page.begin("Declare", *span);
            page.number(u64::from(*local));
            page.place(*name);
            put_kind(*of, page);
            put_expr(value, page);
        }
        ResolvedStmt::Assign {
            target,
            value,
            span,
        } => {
            page.begin("Assign", *span);
            put_seen(*target, page);
            put_expr(value, page);
        }
        ResolvedStmt::Disown { subject, span } => {
            page.begin("Disown", *span);
            put_seen(*subject, page);
        }
        ResolvedStmt::Assert {
            subject,
            perm,
            span,
        } => {
            page.begin("Assert", *span);
            put_seen(*subject, page);
            page.perm(*perm);
        }
        // `put_stmt` and `put_simple` put them.
        _ => {}
    }
}

/// Puts a body.
pub fn put_body(body: &Body, page: &mut Page) {
    page.number(u64::from(body.contract.0));
    page.number(u64::from(body.tx.0));
    page.place(body.end);
    page.number(body.statements.as_slice().len() as u64);
    for statement in body.statements.as_slice() {
        put_stmt(statement, page);
    }
}
