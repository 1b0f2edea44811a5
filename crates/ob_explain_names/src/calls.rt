//! Calls with too few or too many arguments.

use crate::kinds::put_kind;
use crate::mismatches::{expr_of, params_of_expr};
use crate::sites::Site;
use ob_explain_page::{Explanation, Words};
use ob_resolve_spec::InferredKind;
use ob_tree::{Expr, GivenNode, Stmt};

/// The arguments of a call or a `new`.
fn args_of(expr: &Expr) -> &[Expr] {
    match expr {
        Expr::Call { call, .. } => call.args.as_slice(),
        Expr::New { args, .. } => args.as_slice(),
        _ => &[],
    }
}

// Whether an expression is a call or a `new` whose name stands at a place.
fn is_call_at(expr: &Expr, place: u32) -> bool {
    match expr {
        Expr::Call { call, .. } => call.name.span.start == place,
        Expr::New { of, .. } => of.span.start == place,
        _ => false,
    }
}

// The call or `new` in an expression whose name stands at a place.
#[cycle(call_at)]
fn call_at(expr: &Expr, place: u32) -> Option<&Expr> {
    if is_call_at(expr, place) {
        return Some(expr);
    }
    match expr {
        Expr::Unary { operand, .. } => call_at(operand.get(), place),
        Expr::Binary { left, right, .. } => {
            call_at(left.get(), place).or(call_at(right.get(), place))
        }
        Expr::Call { call, .. } => call_among(call.args.as_slice(), place),
        Expr::New { args, .. } => call_among(args.as_slice(), place),
        _ => None,
    }
}

#[cycle(call_at)]
fn call_among(exprs: &[Expr], place: u32) -> Option<&Expr> {
    for expr in exprs {
        if let Some(found) = call_at(expr, place) {
            return Some(found);
        }
    }
    None
}

// The same of what fields are given.
fn call_given(given: &[GivenNode], place: u32) -> Option<&Expr> {
    for one in given {
        if let Some(found) = call_at(&one.value, place) {
            return Some(found);
        }
    }
    None
}

// The call at a place in a statement.
fn call_in(stmt: &Stmt, place: u32) -> Option<&Expr> {
    if let Stmt::Change { given, .. } = stmt {
        return call_given(given.as_slice(), place);
    }
    match expr_of(stmt) {
        Some(expr) => call_at(expr, place),
        None => None,
    }
}

// Kinds as a list in words.
fn put_kinds(words: &mut Words, site: &Site<'_>, kinds: &[InferredKind]) {
    for number in 0..kinds.len() {
        if number > 0 {
            words.put(", ");
        }
        put_kind(words, site.types(), kinds[number]);
    }
}

// A number of arguments in words.
fn put_count(words: &mut Words, count: usize) {
    match count {
        0 => words.put("no argument"),
        1 => words.put("one argument"),
        _ => {
            words.put_number(count as u64);
            words.put(" arguments");
        }
    }
}

// A call with so many arguments where these parameters are.
fn explain_args(told: &mut Explanation, site: &Site<'_>, given: usize, params: &[InferredKind]) {
    told.what.put_with("`{}` takes ", &[site.near.word()]);
    put_count(&mut told.what, params.len());
    told.what.put(", and ");
    put_count(&mut told.what, given);
    told.what.put(if given > 1 {
        " stand here"
    } else {
        " stands here"
    });
    explain_params(told, site, params);
}

// The parameters of what is called.
fn explain_params(told: &mut Explanation, site: &Site<'_>, params: &[InferredKind]) {
    if params.is_empty() {
        told.note
            .put("what is called has no parameters beside `this`.");
        return;
    }
    told.note.put("its parameters beside `this`: ");
    put_kinds(&mut told.note, site, params);
    told.note.put(".");
}

// A call or a `new` whose parameters are known.
fn explain_call(told: &mut Explanation, site: &Site<'_>, expr: &Expr) {
    if let Some(params) = params_of_expr(site, expr) {
        explain_args(told, site, args_of(expr).len(), params.as_slice());
    }
}

/// Another number of arguments than of parameters.
pub fn explain_count(told: &mut Explanation, site: &Site<'_>, place: u32) {
    let found = match site.statement {
        Some(stmt) => call_in(stmt, place),
        None => None,
    };
    if let Some(expr) = found {
        explain_call(told, site, expr);
    }
    if told.what.is_empty() {
        told.what.put_with(
            "`{}` is called with another number of arguments than it has parameters",
            &[site.near.word()],
        );
    }
}
