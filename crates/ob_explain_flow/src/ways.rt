//! What happens to a place on the way to where a premise fails: which use took it from its owner, and which call on `this` let its
//! state be forgotten.

use crate::case::Case;
use crate::holding::{declared_at, say};
use crate::uses::{Role, Use, listed_in, losing, put_role, use_at};
use ob_base::{ContractId, FieldId, MOST_STATES, Mode, Perm, Span, StateId, TxId};
use ob_explain_page::Words;
use ob_flow_context::permission_of_type;
use ob_perm::{only, owned, subset, unowned};
use ob_silica::{Form, Given, Place, Term};
use ob_table::{Kind, Signature};

/// A use by which an owner lost what it held.
#[derive(Clone, Copy)]
pub struct Loss<'a> {
    // The place of the statement.
    at: Span,
    // The line of the text.
    line: u32,
    /// What it is used for.
    pub role: Role<'a>,
    // Whether it is shared from then on.
    shares: bool,
}

/// A call on `this`.
#[derive(Clone, Copy)]
pub struct OwnCall<'a> {
    /// The line of the text.
    pub line: u32,
    /// What is called.
    pub signature: &'a Signature,
    /// What is held of `this` before it.
    pub before: Perm,
}

/// What happened to a place.
#[derive(Clone, Copy)]
pub struct Way<'a> {
    /// What is held of it, where that can be told.
    pub held: Perm,
    // What is held of what the term before made or got.
    made: Perm,
    /// By which use its owner lost it.
    pub loss: Option<Loss<'a>>,
    /// Of `this`: the last call behind which it may be in other states than before it, if none was tested and it didn't change since.
    pub call: Option<OwnCall<'a>>,
}

// An owner's permission in a state.
fn in_state(state: StateId) -> Perm {
    if usize::from(state.0) < MOST_STATES {
        owned(only(state))
    } else {
        unowned()
    }
}

// What is held of what a constructor or transaction gives.
fn given_by(case: &Case<'_>, contract: ContractId, tx: TxId) -> Perm {
    let signature = match case.frame.table().contract(contract) {
        Some(contract) => contract.signature(tx),
        None => None,
    };
    match signature {
        Some(signature) if tx.0 == 0 => signature.exit,
        Some(signature) => match signature.result {
            Some(of) => permission_of_type(of),
            None => unowned(),
        },
        None => unowned(),
    }
}

// What is held of what a form makes or gets.
fn made_by(case: &Case<'_>, form: &Form) -> Perm {
    match form {
        Form::New { contract, .. } => given_by(case, *contract, TxId(0)),
        Form::Call { contract, tx, .. } => given_by(case, *contract, *tx),
        Form::CallThis { tx, .. } => given_by(case, case.frame.here(), *tx),
        _ => unowned(),
    }
}

// Whether a place is a field that is given.
fn gives(given: &[Given], place: Place) -> bool {
    for one in given {
        if place == Place::Field(one.field) {
            return true;
        }
    }
    false
}

// What a place holds that gets what is held so: a field what it is declared with.
fn declared(case: &Case<'_>, place: Place, held: Perm) -> Perm {
    match place {
        Place::Field(field) => case.frame.declared_permission(field),
        _ => held,
    }
}

// The slot that a form sets to what it makes or gets.
fn slot_made(form: &Form) -> Option<u8> {
    match form {
        Form::New { slot, .. } => Some(*slot),
        Form::Call { slot, .. } | Form::CallThis { slot, .. } => *slot,
        _ => None,
    }
}

// What is held of a place after a form that sets it.
fn set_by(case: &Case<'_>, form: &Form, place: Place, made: Perm) -> Option<Perm> {
    match form {
        Form::Move { to, from, .. } if *to == place => match case.entry_of(from.place) {
            Some(entry) => Some(declared(case, place, entry)),
            None => Some(declared(case, place, made)),
        },
        Form::Change { given, .. } if gives(given.as_slice(), place) => {
            Some(declared(case, place, made))
        }
        _ => match slot_made(form) {
            Some(slot) if place == Place::Slot(slot) => Some(made_by(case, form)),
            _ => None,
        },
    }
}

// The loss by a use in a statement.
fn loss_by<'a>(one: Use<'a>, at: Span) -> Loss<'a> {
    let shares = match one.left() {
        Some(perm) => perm.mode == Mode::Shared,
        None => false,
    };
    Loss {
        at,
        line: one.operand.span.line,
        role: one.role,
        shares,
    }
}

// What a form does to a place.
fn with_use<'a>(case: &Case<'a>, term: &Term, place: Place, way: Way<'a>) -> Way<'a> {
    let mut next = way;
    next.made = made_by(case, &term.form);
    if let Some(held) = set_by(case, &term.form, place, way.made) {
        next.held = held;
        next.loss = None;
    } else if way.held.mode == Mode::Owned {
        if let Some(one) = losing(case.frame, &term.form, term.span, place) {
            next.held = unowned();
            next.loss = Some(loss_by(one, term.span));
        }
    }
    next
}

// What a call on `this` leaves of a field that the transaction lists.
fn with_list<'a>(case: &Case<'a>, at: Span, tx: TxId, field: FieldId, way: Way<'a>) -> Way<'a> {
    let mut next = way;
    let Some(signature) = case.frame.own().signature(tx) else {
        return next;
    };
    let Some(listed) = listed_in(signature, field) else {
        return next;
    };
    next.held = listed.exit;
    if listed.exit.mode == Mode::Owned {
        next.loss = None;
    } else if way.held.mode == Mode::Owned {
        next.loss = Some(Loss {
            at,
            line: at.line,
            role: Role::Listed(signature, Kind::Reference(case.frame.here())),
            shares: listed.exit.mode == Mode::Shared,
        });
    }
    next
}

// What a form does to a field beside its uses.
fn with_field<'a>(case: &Case<'a>, term: &Term, field: FieldId, way: Way<'a>) -> Way<'a> {
    match &term.form {
        Form::CallThis { tx, .. } => with_list(case, term.span, *tx, field, way),
        _ => way,
    }
}

// What a call does to the state of `this`.
fn with_call<'a>(case: &Case<'a>, at: Span, tx: TxId, way: Way<'a>) -> Way<'a> {
    let mut next = way;
    if let Some(signature) = case.frame.own().signature(tx) {
        if !subset(signature.exit.states, way.held.states) {
            next.call = Some(OwnCall {
                line: at.line,
                signature,
                before: way.held,
            });
        }
        if signature.entry.mode == Mode::Owned {
            next.held = signature.exit;
        }
    }
    next
}

// What a form does to the state of `this`.
fn with_state<'a>(case: &Case<'a>, term: &Term, way: Way<'a>) -> Way<'a> {
    match &term.form {
        Form::Change { state, .. } => Way {
            held: in_state(*state),
            call: None,
            ..way
        },
        Form::CallThis { tx, .. } => with_call(case, term.span, *tx, way),
        _ => way,
    }
}

// What a form without branches does.
fn with_form<'a>(case: &Case<'a>, term: &Term, place: Place, way: Way<'a>) -> Way<'a> {
    let next = with_use(case, term, place, way);
    match place {
        Place::This if next.loss.is_none() => with_state(case, term, next),
        Place::Field(field) => with_field(case, term, field, next),
        _ => next,
    }
}

// The state for which a form tests a place.
fn tested_state(form: &Form, place: Place) -> Option<StateId> {
    match form {
        Form::Test {
            place: tested,
            state,
            ..
        } if tested.place == place => Some(*state),
        _ => None,
    }
}

// Where the first branch begins, in which a place is in the tested state.
fn within<'a>(way: Way<'a>, state: Option<StateId>) -> Way<'a> {
    match state {
        Some(state) if way.held.mode != Mode::Unowned => Way {
            held: in_state(state),
            call: None,
            ..way
        },
        _ => way,
    }
}

// Where the second branch begins, in which an owner's isn't in the tested state.
fn without<'a>(way: Way<'a>, state: Option<StateId>) -> Way<'a> {
    match state {
        Some(state) if way.held.mode == Mode::Owned => Way {
            held: owned(way.held.states & !in_state(state).states),
            ..way
        },
        _ => way,
    }
}

// What is held after two branches.
fn joined(first: Perm, second: Perm) -> Perm {
    match (first.mode, second.mode) {
        (Mode::Owned, Mode::Owned) => owned(first.states | second.states),
        (Mode::Owned, _) => second,
        _ => first,
    }
}

// Where two branches meet. A call before them counts on, if no branch tests or changes the state.
fn join<'a>(first: Way<'a>, second: Way<'a>, before: Option<OwnCall<'a>>) -> Way<'a> {
    let call = if first.call.is_some() && second.call.is_some() {
        before
    } else {
        None
    };
    Way {
        held: joined(first.held, second.held),
        made: unowned(),
        loss: if first.loss.is_some() {
            first.loss
        } else {
            second.loss
        },
        call,
    }
}

// What is shared before branches is shared after them.
fn shared_again<'a>(before: Way<'a>, after: Way<'a>) -> Way<'a> {
    if before.held.mode == Mode::Shared {
        Way {
            held: before.held,
            ..after
        }
    } else {
        after
    }
}

// Whether a form is a call on `this`, and the premise is asked of the same call.
fn is_call_asked(case: &Case<'_>, form: &Form) -> bool {
    match (form, case.form()) {
        (Form::CallThis { tx, .. }, Form::CallThis { tx: asked, .. }) => tx.0 == asked.0,
        _ => false,
    }
}

/// Where a term begins in the text: the place of a loop is where its block ends.
pub fn beginning_of(term: &Term) -> u32 {
    match &term.form {
        Form::Loop { first, .. } => match first.as_slice().first() {
            Some(first) => first.span.start,
            None => term.span.start,
        },
        _ => term.span.start,
    }
}

// Whether a term is the one of which the premise is asked, or stands behind it. The terms of one statement have the same place.
fn is_past(case: &Case<'_>, term: &Term) -> bool {
    let until = case.stop.term.span;
    let begin = beginning_of(term);
    if begin != until.start {
        return begin > until.start;
    }
    use_at(case.frame, &term.form, case.fault.span).is_some()
        || case.fault.span == until && is_call_asked(case, &term.form)
}

// Whether the premise is asked inside of a branch, up to this place of the text.
fn is_inside(case: &Case<'_>, terms: &[Term], end: Span) -> bool {
    let until = case.stop.term.span.start;
    match terms.first() {
        Some(first) => beginning_of(first) <= until && until < end.start,
        None => false,
    }
}

// Whether the premise is asked in the block of a loop, or where it ends.
fn is_in_turn(case: &Case<'_>, body: &[Term], end: Span) -> bool {
    is_inside(case, body, end) || case.fault.span == end
}

// Whether a branch returns or reverts.
fn is_ended(terms: &[Term]) -> bool {
    match terms.last() {
        Some(last) => match &last.form {
            Form::Return { .. } | Form::Revert { .. } => true,
            _ => false,
        },
        None => false,
    }
}

// Which of two branches lead to where the premise is asked.
#[derive(Clone, Copy)]
enum Side {
    First,
    Second,
    Both,
}

// The branches that lead there: the one inside of which it is asked, or else those that don't return or revert.
fn side_to_follow(case: &Case<'_>, then: &[Term], otherwise: &[Term], end: Span) -> Side {
    if is_inside(case, otherwise, end) {
        return Side::Second;
    }
    if is_inside(case, then, end) {
        return Side::First;
    }
    match (is_ended(then), is_ended(otherwise)) {
        (true, _) => Side::Second,
        (false, true) => Side::First,
        (false, false) => Side::Both,
    }
}

// What a term does.
#[cycle(follow)]
fn follow_term<'a>(case: &Case<'a>, term: &Term, place: Place, way: Way<'a>) -> Way<'a> {
    match &term.form {
        Form::Test {
            then,
            otherwise,
            join: end,
            ..
        }
        | Form::If {
            then,
            otherwise,
            join: end,
            ..
        } => {
            let state = tested_state(&term.form, place);
            let inside = within(way, state);
            let other = without(way, state);
            let after = match side_to_follow(case, then.as_slice(), otherwise.as_slice(), *end) {
                Side::First => follow(case, then.as_slice(), place, inside),
                Side::Second => follow(case, otherwise.as_slice(), place, other),
                Side::Both => {
                    let first = follow(case, then.as_slice(), place, inside);
                    let second = follow(case, otherwise.as_slice(), place, other);
                    join(first, second, other.call)
                }
            };
            shared_again(way, after)
        }
        Form::Loop {
            first,
            body,
            end,
            ..
        } => {
            let turn = follow(case, first.as_slice(), place, way);
            if is_in_turn(case, body.as_slice(), *end) {
                follow(case, body.as_slice(), place, turn)
            } else {
                turn
            }
        }
        _ => with_form(case, term, place, way),
    }
}

// What terms do, up to where the premise fails.
#[cycle(follow)]
fn follow<'a>(case: &Case<'a>, terms: &[Term], place: Place, way: Way<'a>) -> Way<'a> {
    let mut way = way;
    for term in terms {
        if is_past(case, term) {
            return way;
        }
        way = follow_term(case, term, place, way);
    }
    way
}

/// What happens to a place up to where the premise fails.
pub fn way_of<'a>(case: &Case<'a>, place: Place) -> Way<'a> {
    let held = match case.entry_of(place) {
        Some(entry) => entry,
        None => unowned(),
    };
    let way = Way {
        held,
        made: unowned(),
        loss: None,
        call: None,
    };
    follow(case, case.body.terms.as_slice(), place, way)
}

/// The variable into which it moves, if it is declared there.
pub fn variable_of<'a>(text: &'a [u8], loss: Loss<'_>) -> Option<&'a str> {
    match loss.role {
        Role::Slot(_) => declared_at(text, loss.at),
        _ => None,
    }
}

/// Says up to where a place, which these words name, was its owner's.
pub fn say_loss(case: &Case<'_>, words: &mut Words, name: &str, loss: Loss<'_>) {
    say(words, &[name, " was owned up to line "]);
    words.put_number(u64::from(loss.line));
    words.put(", where ");
    match loss.role {
        Role::Slot(_) => match variable_of(case.text, loss) {
            Some(variable) => say(words, &["it moves into `", variable, "`"]),
            None => words.put("it moves on"),
        },
        Role::Disowned => words.put("it is disowned"),
        role => {
            put_role(words, case.frame, role);
            words.put(if loss.shares {
                " shares it"
            } else {
                " takes it"
            });
        }
    }
    words.put(".");
}
