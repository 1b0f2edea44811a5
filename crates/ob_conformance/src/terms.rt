//! The terms of a text's bodies in words: the form of each, its place, and its parts.
use crate::page::Page;
use ob_base::{ContractId, Span, StateId};
use ob_silica::{Constant, Form, Given, Operand, Place, SilicaOperator, Term, TermBody};

fn put_named(place: Place, page: &mut Page) {
    match place {
        Place::This => page.word("this"),
        Place::Slot(slot) => {
            page.word("s");
            page.number(u64::from(slot));
        }
        Place::Field(field) => {
            page.word("f");
            page.number(u64::from(field.0));
        }
    }
}

// A place that a term reads, and what it represents in the text.
fn put_operand(operand: Operand, page: &mut Page) {
    put_named(operand.place, page);
    page.place(operand.span);
}

fn put_operands(operands: &[Operand], page: &mut Page) {
    page.number(operands.len() as u64);
    for operand in operands {
        put_operand(*operand, page);
    }
}

fn put_given(given: &[Given], page: &mut Page) {
    page.number(given.len() as u64);
    for one in given {
        page.number(u64::from(one.field.0));
        page.place(one.span);
        put_operand(one.from, page);
    }
}

fn put_result(slot: Option<u8>, page: &mut Page) {
    page.number_or_none(match slot {
        Some(slot) => Some(u32::from(slot)),
        None => None,
    });
}

fn put_constant(value: &Constant, page: &mut Page) {
    match value {
        Constant::Int(value) => {
            page.word("Int");
            page.show(value);
        }
        Constant::Bool(value) => {
            page.word("Bool");
            page.truth(*value);
        }
        Constant::Text(value) => {
            page.word("Text");
            page.bytes(value.as_bytes());
        }
    }
}

fn put_operator(operator: SilicaOperator, page: &mut Page) {
    match operator {
        SilicaOperator::Unary(operator) => page.name(&operator),
        SilicaOperator::Binary(operator) => page.name(&operator),
    }
}

fn begin_test(place: Operand, state: StateId, join: Span, page: &mut Page) {
    put_operand(place, page);
    page.number(u64::from(state.0));
    page.place(join);
}

// What stands behind the word and the place of a call or of `new`.
fn put_callee(form: &Form, page: &mut Page) {
    match form {
        Form::New {
            slot,
            contract,
            args,
        } => {
            page.number(u64::from(*slot));
            page.number(u64::from(contract.0));
            put_operands(args.as_slice(), page);
        }
        Form::Call {
            slot,
            receiver,
            contract,
            tx,
            args,
        } => {
            put_result(*slot, page);
            put_operand(*receiver, page);
            page.number(u64::from(contract.0));
            page.number(u64::from(tx.0));
            put_operands(args.as_slice(), page);
        }
        Form::CallThis { slot, tx, args } => {
            put_result(*slot, page);
            page.number(u64::from(tx.0));
            put_operands(args.as_slice(), page);
        }
        // Every other term calls nothing.
        _ => {}
    }
}

// What stands behind the word and the place of a term that gives a slot or a field another value.
fn put_setting(form: &Form, page: &mut Page) {
    match form {
        Form::Const { slot, value } => {
            page.number(u64::from(*slot));
            put_constant(value, page);
        }
        Form::Op {
            slot,
            operator,
            a,
            b,
            line,
        } => {
            page.number(u64::from(*slot));
            put_operator(*operator, page);
            put_operand(*a, page);
            put_operand(*b, page);
            page.number(u64::from(*line));
        }
        Form::Copy { to, from } => {
            put_named(*to, page);
            put_operand(*from, page);
        }
        Form::Move { to, from, contract } => {
            put_named(*to, page);
            put_operand(*from, page);
            page.number_or_none(match contract {
                Some(ContractId(number)) => Some(*number),
                None => None,
            });
        }
        Form::Change { state, given } => {
            page.number(u64::from(state.0));
            put_given(given.as_slice(), page);
        }
        Form::Drop { slot } => page.number(u64::from(*slot)),
        // Every other term gives none.
        _ => {}
    }
}

// What stands behind the word and the place of a term that reads a place alone.
fn put_reading(form: &Form, page: &mut Page) {
    match form {
        Form::Assert { place, perm } => {
            put_operand(*place, page);
            page.perm(*perm);
        }
        Form::Disown { place } => put_operand(*place, page),
        Form::Revert { text } => put_operand(*text, page),
        Form::Return { place: Some(place) } => put_operand(*place, page),
        Form::Return { place: None } => page.word("none"),
        // Every other term reads none, or does more.
        _ => {}
    }
}

// The word of a term.
fn word_of(form: &Form) -> &'static str {
    match form {
        Form::Unit => "Unit",
        Form::BadRow => "BadRow",
        Form::Const { .. } => "Const",
        Form::Op { .. } => "Op",
        Form::Copy { .. } => "Copy",
        Form::Move { .. } => "Move",
        Form::New { .. } => "New",
        Form::Call { .. } => "Call",
        Form::CallThis { .. } => "CallThis",
        Form::Change { .. } => "Change",
        Form::Assert { .. } => "Assert",
        Form::Disown { .. } => "Disown",
        Form::Revert { .. } => "Revert",
        Form::Drop { .. } => "Drop",
        Form::Return { .. } => "Return",
        Form::Test { .. } => "Test",
        Form::If { .. } => "If",
        Form::Loop { .. } => "Loop",
    }
}

#[cycle(show_term)]
fn put_terms(terms: &[Term], page: &mut Page) {
    page.number(terms.len() as u64);
    for term in terms {
        put_term(term, page);
    }
}

#[cycle(show_term)]
fn put_term(term: &Term, page: &mut Page) {
    page.begin(word_of(&term.form), term.span);
    put_callee(&term.form, page);
    put_setting(&term.form, page);
    put_reading(&term.form, page);
    match &term.form {
        Form::Test {
            place,
            state,
            then,
            otherwise,
            join,
        } => {
            begin_test(*place, *state, *join, page);
            put_terms(then.as_slice(), page);
            put_terms(otherwise.as_slice(), page);
        }
        Form::If {
            a,
            then,
            otherwise,
            join,
        } => {
            put_operand(*a, page);
            page.place(*join);
            put_terms(then.as_slice(), page);
            put_terms(otherwise.as_slice(), page);
        }
        Form::Loop {
            first,
            a,
            body,
            end,
        } => {
            put_operand(*a, page);
            page.place(*end);
            put_terms(first.as_slice(), page);
            put_terms(body.as_slice(), page);
        }
        _ => {}
    }
}

/// Puts how many bodies there are, and the terms of each.
pub fn put_bodies(bodies: &[TermBody], page: &mut Page) {
    page.number(bodies.len() as u64);
    for body in bodies {
        page.number(u64::from(body.contract.0));
        page.number(u64::from(body.tx.0));
        page.number(u64::from(body.slots));
        page.place(body.end);
        put_terms(body.terms.as_slice(), page);
    }
}
