//! Fields that aren't there, have no value, or aren't held as they are declared.

use crate::case::Case;
use crate::exits::help_with_operator;
use crate::forgetting::{forgetting, put_remembering, say_forgotten};
use crate::holding::{
    first_of, first_state, name_of_body, name_of_field, put_held, put_states, put_type, say,
};
use crate::own::{help_with_this, is_unowned_at_entry, put_change, put_declared, say_why_this};
use crate::uses::{listed_in, use_at};
use crate::ways::way_of;
use ob_base::{FieldId, Mode, Perm, StateId};
use ob_explain_page::{Explanation, Words, word_of};
use ob_flow_context::{Context, kind_of};
use ob_perm::{meets, shared, subset};
use ob_silica::{Form, Given, Place};
use ob_table::Signature;

// What a field has to be held as, by the form of the term.
fn wanted_of_field(case: &Case<'_>, field: FieldId) -> Perm {
    match case.form() {
        Form::Return { .. } => case.frame.exit_of_field(case.frame.signature(), field),
        Form::CallThis { tx, .. } => match case.frame.own().signature(*tx) {
            Some(signature) => case.frame.entry_of_field(signature, field),
            None => case.frame.declared_permission(field),
        },
        _ => case.frame.declared_permission(field),
    }
}

// Whether a field isn't held so in a context.
fn differs_in(case: &Case<'_>, context: &Context, field: FieldId) -> bool {
    !context.is_held_as(Place::Field(field), wanted_of_field(case, field))
}

// The first field that may be there where `this` is held so, and isn't held as it has to be.
fn differing_under(case: &Case<'_>, this: Perm) -> Option<FieldId> {
    let may = case.frame.possible_under(this);
    for number in 0..case.frame.field_count() {
        let field = FieldId(number);
        if meets(may, case.frame.available(field)) && differs_in(case, case.context(), field) {
            return Some(field);
        }
    }
    None
}

// The first field that isn't held as it has to be where a body ends, or where `this` is called upon: there those count that may
// be there before the call.
fn differing_here(case: &Case<'_>) -> Option<FieldId> {
    let found = match case.form() {
        Form::CallThis { .. } => differing_under(case, way_of(case, Place::This).held),
        _ => None,
    };
    match found {
        Some(field) => Some(field),
        None => differing_under(case, case.context().permission(Place::This)),
    }
}

// Whether a test ends here after whose first branch `this` is Shared again: there more was known of its state.
fn is_shared_again(case: &Case<'_>) -> bool {
    let tests_this = match case.form() {
        Form::Test { place, .. } => place.place == Place::This,
        _ => false,
    };
    tests_this && case.context().permission(Place::This).mode == Mode::Shared
}

// Of a field that may not be there after two branches: what is known after the one in which it is there and isn't held as it is
// declared.
fn differing_branch<'a>(
    case: &Case<'a>,
    other: &'a Context,
    field: FieldId,
) -> Option<&'a Context> {
    let first = case.frame.accessible(case.context(), field);
    let second = case.frame.accessible(other, field);
    if first && second {
        None
    } else if (first || is_shared_again(case)) && differs_in(case, case.context(), field) {
        Some(case.context())
    } else if second && differs_in(case, other, field) {
        Some(other)
    } else {
        None
    }
}

// The first such field where branches join.
fn differing_at_join<'a>(case: &Case<'a>, other: &'a Context) -> Option<(FieldId, &'a Context)> {
    for number in 0..case.frame.field_count() {
        let field = FieldId(number);
        if let Some(context) = differing_branch(case, other, field) {
            return Some((field, context));
        }
    }
    None
}

// The field that isn't held as it has to be, with the context in which it isn't.
fn differing_field<'a>(case: &Case<'a>) -> Option<(FieldId, &'a Context)> {
    if let Some(other) = &case.trace.other {
        return differing_at_join(case, other);
    }
    let field = match case.form() {
        Form::Change { given, .. } => given_at(case, given.as_slice())?,
        _ => differing_here(case)?,
    };
    Some((field, case.context()))
}

fn name_of_called(signature: Option<&Signature>) -> &str {
    match signature {
        Some(signature) => word_of(signature.name.as_bytes()),
        None => "?",
    }
}

// Says where the field has to be so.
fn say_where(case: &Case<'_>, words: &mut Words) {
    match case.form() {
        Form::Return { .. } => {
            words.put("where ");
            case.put_body(words);
            words.put(" ends");
        }
        Form::CallThis { tx, .. } => {
            let name = name_of_called(case.frame.own().signature(*tx));
            say(words, &["where `", name, "` is called on `this`"]);
        }
        Form::Change { .. } => words.put("after this change of a shared `this`"),
        _ if case.is_at_operator() => {
            let shown = case.shown();
            say(
                words,
                &[
                    "on a way through this `",
                    shown,
                    "` after which the field may not be there",
                ],
            );
        }
        _ => words.put("where a branch ends after which the field may not be there"),
    }
}

// Says what a field is held as in a context, and what it has to be.
fn say_field(case: &Case<'_>, words: &mut Words, field: FieldId, context: &Context) {
    let table = case.frame.table();
    let place = Place::Field(field);
    let kind = kind_of(case.frame.type_of_field(field));
    say(
        words,
        &["the field `", name_of_field(case.frame, field), "` "],
    );
    if context.is_set(place) {
        words.put("is held as `");
        put_held(words, table, kind, context.permission(place));
        words.put("` ");
    } else {
        words.put("has no value ");
    }
    say_where(case, words);
    words.put(", and has to be `");
    put_held(words, table, kind, wanted_of_field(case, field));
    words.put("`");
}

// The transaction whose list counts where a field has to be held as it says: that which ends, or that which is called on `this`.
fn listing<'a>(case: &Case<'a>) -> Option<&'a Signature> {
    match case.form() {
        Form::Return { .. } => Some(case.frame.signature()),
        Form::CallThis { tx, .. } => case.frame.own().signature(*tx),
        _ => None,
    }
}

// Says by which declaration or list the field has to be so.
fn say_declared(case: &Case<'_>, field: FieldId, words: &mut Words) {
    let table = case.frame.table();
    let name = name_of_field(case.frame, field);
    let of = case.frame.type_of_field(field);
    match listing(case) {
        Some(signature) if listed_in(signature, field).is_some() => {
            let entry = case.frame.entry_of_field(signature, field);
            let exit = case.frame.exit_of_field(signature, field);
            let lister = word_of(signature.name.as_bytes());
            say(words, &["`", lister, "` lists it as `"]);
            put_declared(case, words, kind_of(of), entry, exit, name);
        }
        _ => {
            say(words, &["the field `", name, "` is declared as `"]);
            put_type(words, table, of);
        }
    }
    words.put("`.");
}

// How a field is emptied that has to be empty.
fn help_to_empty(case: &Case<'_>, field: FieldId, words: &mut Words) {
    words.put("give what it holds away before this, or `disown` it");
    let entry = case.frame.entry_of_field(case.frame.signature(), field);
    if let Form::Return { .. } = case.form() {
        words.put(if entry.mode == Mode::Owned {
            "; or leave the part from `>>` on out of the list"
        } else {
            "; or return what is to fill it, and fill it where this is called"
        });
    }
    words.put(".");
}

// How a field is listed that a transaction finds otherwise than it is declared, or leaves so.
fn help_with_list(case: &Case<'_>, field: FieldId, held: Perm, words: &mut Words) {
    let Some(signature) = listing(case) else {
        return;
    };
    if case.frame.constructs() || listed_in(signature, field).is_some() {
        return;
    }
    let kind = kind_of(case.frame.type_of_field(field));
    let name = name_of_field(case.frame, field);
    words.put("; or list it, as `private (");
    let before = match case.form() {
        Form::CallThis { .. } => held,
        _ => case.frame.entry_of_field(signature, field),
    };
    put_declared(case, words, kind, before, held, name);
    let called = word_of(signature.name.as_bytes());
    say(words, &[")` in front of the transaction `", called, "`"]);
}

// Whether a field is there in some states of `this` only.
fn is_of_states(case: &Case<'_>, field: FieldId) -> bool {
    let all = case.frame.possible_under(shared());
    !subset(all, case.frame.available(field))
}

// How a field is held as it has to be: what is owned in another state comes back into that one.
fn help_to_fill(case: &Case<'_>, field: FieldId, held: Perm, words: &mut Words) {
    let wanted = wanted_of_field(case, field);
    words.put(if held.mode == Mode::Owned && wanted.mode == Mode::Owned {
        "bring it back into that state"
    } else {
        "fill it again"
    });
    words.put(if case.trace.other.is_some() {
        " before that branch ends"
    } else {
        " before this"
    });
    if is_of_states(case, field) {
        words.put("; or change to a state that hasn't it");
    }
    help_with_list(case, field, held, words);
    words.put(".");
}

// How to mend a field that isn't as it has to be.
fn help_with_field(case: &Case<'_>, field: FieldId, held: Perm, words: &mut Words) {
    if let Form::Change { .. } = case.form() {
        words.put("give it an object that is held so, as by a test of its state before.");
    } else if wanted_of_field(case, field).mode == Mode::Unowned {
        help_to_empty(case, field, words);
    } else {
        help_to_fill(case, field, held, words);
    }
}

/// A field that isn't as it is declared.
pub fn explain_field(case: &Case<'_>, told: &mut Explanation) {
    let Some((field, context)) = differing_field(case) else {
        return told.what.put("a field isn't held as it is declared here");
    };
    say_field(case, &mut told.what, field, context);
    say_declared(case, field, &mut told.note);
    let held = context.permission(Place::Field(field));
    help_with_operator(case, &mut told.help);
    help_with_field(case, field, held, &mut told.help);
}

// The given field at the fault's place.
fn given_at(case: &Case<'_>, given: &[Given]) -> Option<FieldId> {
    for one in given {
        if one.span == case.fault.span {
            return Some(one.field);
        }
    }
    None
}

// The field to which a form copies or moves.
fn filled(form: &Form) -> Option<FieldId> {
    match form {
        Form::Copy {
            to: Place::Field(field),
            ..
        } => Some(*field),
        Form::Move {
            to: Place::Field(field),
            ..
        } => Some(*field),
        _ => None,
    }
}

// The field that is read or filled and of which it is asked whether it is there.
fn field_asked(case: &Case<'_>) -> Option<FieldId> {
    if let Some(one) = use_at(case.frame, case.form(), case.fault.span) {
        if let Place::Field(field) = one.operand.place {
            return Some(field);
        }
    }
    filled(case.form())
}

// The field at the fault's place that a change gives, with the name of its state.
fn given_to_state<'a>(case: &Case<'a>) -> Option<(FieldId, &'a str)> {
    match case.form() {
        Form::Change { state, given } => {
            let field = given_at(case, given.as_slice())?;
            Some((field, case.name_of_state(*state)))
        }
        _ => None,
    }
}

// Puts the states in which a field is there.
fn put_there(case: &Case<'_>, words: &mut Words, field: FieldId) {
    put_states(words, case.frame.own(), case.frame.available(field));
}

// A field that is given to a state that hasn't it.
fn explain_foreign(case: &Case<'_>, field: FieldId, to: &str, told: &mut Explanation) {
    let name = name_of_field(case.frame, field);
    say(&mut told.what, &["the state `", to, "` hasn't the field `"]);
    say(&mut told.what, &[name, "`, which is there in `"]);
    put_there(case, &mut told.what, field);
    told.what.put("`");
    told.help
        .put("leave it out, or declare the field in that state too.");
}

// Puts a test of `this` for a state in which a field is there.
fn put_test_of(case: &Case<'_>, field: FieldId, words: &mut Words) {
    let state = first_state(case.frame.own(), case.frame.available(field));
    say(words, &["`if (this in ", state, ") { .. }`"]);
}

// Puts how `this` is declared in a state in which a field is there.
fn put_asked(case: &Case<'_>, field: FieldId, words: &mut Words) {
    let own = case.frame.own();
    let state = first_state(own, case.frame.available(field));
    let contract = word_of(own.name.as_bytes());
    say(
        words,
        &["ask for the state by `", contract, "@", state, " this`"],
    );
}

// Puts a change to a state in which a field is there.
fn put_change_for(case: &Case<'_>, field: FieldId, words: &mut Words) {
    if let Some(state) = first_of(case.frame.own(), case.frame.available(field)) {
        put_change(case, words, state, &[]);
    }
}

// How a field is accessible that isn't there in any state in which `this` may be.
fn help_with_known(case: &Case<'_>, field: FieldId, words: &mut Words) {
    words.put("change to it before this, as by ");
    put_change_for(case, field, words);
    words.put("; or ");
    put_asked(case, field, words);
    words.put(".");
}

// How to come to a state in which a field is there.
fn help_with_access(case: &Case<'_>, field: FieldId, this: Perm, words: &mut Words) {
    if case.frame.constructs() {
        words.put("change to that state first: its fields get their values with it, as by ");
        put_change_for(case, field, words);
        return words.put(".");
    }
    let may = case.frame.possible_under(this);
    if !meets(may, case.frame.available(field)) {
        return help_with_known(case, field, words);
    }
    if this.mode == Mode::Unowned {
        help_with_this(case, words, shared(), shared());
        if !is_unowned_at_entry(case) {
            return words.put(".");
        }
        words.put(", and test it: ");
    } else {
        words.put("test it first: ");
    }
    put_test_of(case, field, words);
    words.put("; or ");
    match forgetting(case, case.frame.available(field)) {
        Some(call) => put_remembering(case, call, words),
        None => put_asked(case, field, words),
    }
    words.put(".");
}

/// A field that may not be there.
pub fn explain_accessible(case: &Case<'_>, told: &mut Explanation) {
    if let Some((field, to)) = given_to_state(case) {
        return explain_foreign(case, field, to, told);
    }
    let Some(field) = field_asked(case) else {
        return told
            .what
            .put("this field may not be there in the state here");
    };
    let name = name_of_field(case.frame, field);
    let this = case.context().permission(Place::This);
    say(&mut told.what, &["the field `", name, "` is there in `"]);
    put_there(case, &mut told.what, field);
    told.what.put("` only, and `this` may be in `");
    let may = case.frame.possible_under(this);
    put_states(&mut told.what, case.frame.own(), may);
    told.what.put("` here");
    match this.mode {
        Mode::Owned => {
            if let Some(call) = forgetting(case, case.frame.available(field)) {
                say_forgotten(case, call, &mut told.note);
            }
        }
        Mode::Shared => told.note.put("`this` is Shared here, so it may be in any of its states."),
        Mode::Unowned => {
            say_why_this(case, &mut told.note);
            told.note.put(" Then it may be in any of its states.");
        }
    }
    help_with_access(case, field, this, &mut told.help);
}

// The first field that has no value and needs one.
fn unset_field(case: &Case<'_>) -> Option<FieldId> {
    for number in 0..case.frame.field_count() {
        let field = FieldId(number);
        let is_set = case.context().is_set(Place::Field(field));
        if !is_set && case.frame.accessible(case.context(), field) {
            return Some(field);
        }
    }
    None
}

// The first field of a state that isn't given and has no value.
fn missing_field(case: &Case<'_>, state: StateId, given: &[Given]) -> Option<FieldId> {
    for number in 0..case.frame.field_count() {
        let field = FieldId(number);
        let is_given = given.iter().any(|one| one.field == field);
        let has = case.frame.accessible(case.context(), field)
            && case.context().is_set(Place::Field(field));
        if case.is_there(field, state) && !is_given && !has {
            return Some(field);
        }
    }
    None
}

fn name_of_some<'a>(case: &Case<'a>, field: Option<FieldId>) -> &'a str {
    match field {
        Some(field) => name_of_field(case.frame, field),
        None => "?",
    }
}

// Whether a field has a value in some of the states in which `this` may be.
fn may_have_value(case: &Case<'_>, field: Option<FieldId>) -> bool {
    match field {
        Some(field) => {
            case.frame.maybe_there(case.context(), field)
                && case.context().is_set(Place::Field(field))
        }
        None => false,
    }
}

// What has no value at a change of state.
fn explain_missing(case: &Case<'_>, state: StateId, given: &[Given], told: &mut Explanation) {
    let to = case.name_of_state(state);
    let field = missing_field(case, state, given);
    say(
        &mut told.what,
        &[
            "the state `",
            to,
            "` has the field `",
            name_of_some(case, field),
        ],
    );
    told.what.put(if may_have_value(case, field) {
        "`, which may have no value yet and isn't given here"
    } else {
        "`, which has no value yet and isn't given here"
    });
    told.help.put("write ");
    put_change(case, &mut told.help, state, given);
    told.help.put(".");
}

// What has no value where a constructor ends.
fn explain_unset(case: &Case<'_>, told: &mut Explanation) {
    let body = name_of_body(case.frame);
    let name = name_of_some(case, unset_field(case));
    say(&mut told.what, &["the constructor of `", body, "` ends"]);
    say(
        &mut told.what,
        &[", and the field `", name, "` has no value yet"],
    );
    if case.is_default() {
        let words = &mut told.help;
        return say(
            words,
            &[
                "write a constructor, as `",
                body,
                "@Owned() { ",
                name,
                " = ..; }`.",
            ],
        );
    }
    say(
        &mut told.help,
        &["write `", name, " = ..;` on each way to the end."],
    );
}

/// What has no value where it is used.
pub fn explain_no_value(case: &Case<'_>, told: &mut Explanation) {
    match use_at(case.frame, case.form(), case.fault.span) {
        Some(_) => {
            say(
                &mut told.what,
                &["`", case.shown(), "` has no value yet here"],
            );
            told.help.put("a constructor gives each field a value before it reads it.");
        }
        None => match case.form() {
            Form::Change { state, given } => {
                explain_missing(case, *state, given.as_slice(), told);
            }
            _ => explain_unset(case, told),
        },
    }
}
