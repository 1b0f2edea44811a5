//! Premises that are told by their number alone.

use crate::case::Case;
use crate::holding::{
    first_state, has_no_state, has_state_among, name_of_body, name_of_field, name_of_kind,
    put_held, put_written, say,
};
use crate::own::{is_unowned_at_entry, say_why_this};
use crate::permissions::put_test;
use crate::tested::{explain_tested, explain_under_test, explain_unowned};
use crate::uses::{Role, put_role, stands_before, taking, use_at};
use ob_base::{
    ASSERT_FAILS, BAD_TRANSITION, FieldId, Mode, Perm, TEST_TWICE, TEST_UNOWNED,
    THIS_IN_CONSTRUCTOR, UNDER_TEST, USED_TWICE, VIEW_CHANGES,
};
use ob_explain_page::{Explanation, Words, word_of};
use ob_silica::{Form, Place};
use ob_table::Kind;

// A transaction that doesn't hold `this` and changes it.
fn explain_view(case: &Case<'_>, told: &mut Explanation) {
    let body = name_of_body(case.frame);
    let own = word_of(case.frame.own().name.as_bytes());
    match case.form() {
        Form::Change { .. } => told
            .what
            .put("`this` is Unowned here, and its state changes"),
        _ => told
            .what
            .put("`this` is Unowned here, and a field of it is set"),
    }
    say_why_this(case, &mut told.note);
    if !is_unowned_at_entry(case) {
        return told.help.put("do it before that.");
    }
    say(&mut told.help, &["write `", own, "@Owned this`, `", own]);
    told.help
        .put("@Shared this` or a state as the first parameter of `");
    say(&mut told.help, &[body, "`."]);
}

// Whether an argument of a call on `this` is the first of its place: then the fault is that a field is lent.
fn is_lent(case: &Case<'_>, place: Place) -> bool {
    !stands_before(case.frame, case.form(), place, case.fault.span)
}

// A field that is lent to a call on `this`.
fn explain_lent(case: &Case<'_>, field: FieldId, told: &mut Explanation) {
    let name = name_of_field(case.frame, field);
    say(&mut told.what, &["the field `", name]);
    told.what.put("` is lent to a call on `this`, which might use it by its name too");
    say(
        &mut told.help,
        &[
            "leave the argument out, and use `",
            name,
            "` in the transaction called.",
        ],
    );
}

// Puts what takes a place that is used twice.
fn put_taking(case: &Case<'_>, words: &mut Words, place: Place) {
    let role = match taking(case.frame, case.form(), place) {
        Some(one) => one.role,
        None => Role::Other,
    };
    put_role(words, case.frame, role);
}

// One reference that is used twice.
fn explain_twice(case: &Case<'_>, told: &mut Explanation) {
    let place = match use_at(case.frame, case.form(), case.fault.span) {
        Some(one) => one.operand.place,
        None => Place::This,
    };
    match (case.form(), place) {
        (Form::Change { .. }, Place::This) => {
            told.what
                .put("`this` would own itself by one of its fields");
            told.help.put("give the field another object.");
        }
        (Form::CallThis { .. }, Place::Field(field)) if is_lent(case, place) => {
            explain_lent(case, field, told);
        }
        _ => {
            say(
                &mut told.what,
                &["`", case.shown(), "` is used twice here, and "],
            );
            put_taking(case, &mut told.what, place);
            told.what
                .put(" takes it: after that there is nothing to use");
            told.help.put("hand over another object.");
        }
    }
}

// How more is known of the state of what is asserted, if a test of it can tell.
fn help_with_test(case: &Case<'_>, place: Place, asserted: Perm, words: &mut Words) {
    let held = case.context().counted(place);
    if case.frame.constructs() && place == Place::This {
        return;
    }
    let Kind::Reference(id) = case.context().kind(place) else {
        return;
    };
    let Some(contract) = case.frame.table().contract(id) else {
        return;
    };
    let states = match held.mode {
        Mode::Owned => held.states & asserted.states,
        Mode::Shared => asserted.states,
        Mode::Unowned => 0,
    };
    if has_state_among(contract, states) {
        let state = first_state(contract, states);
        say(words, &[" For more, test the state before it: "]);
        put_test(case, words, case.shown(), state);
        words.put(".");
    }
}

// Which assertion holds where one isn't so.
fn help_with_assertion(case: &Case<'_>, place: Place, words: &mut Words) {
    let held = case.context().counted(place);
    let has_states = !case.frame.own().states.is_empty();
    if place == Place::This && has_states && has_no_state(held) {
        return words.put(
            "leave it out, or change the state before it: no permission says that an object has no state yet.",
        );
    }
    say(words, &["`[", case.shown(), " @ "]);
    put_written(words, case.frame.table(), case.context().kind(place), held);
    words.put("];` holds here.");
}

// An assertion that isn't so.
fn explain_assertion(case: &Case<'_>, told: &mut Explanation) {
    if let Form::Assert { place, perm } = case.form() {
        let kind = case.context().kind(place.place);
        say(&mut told.what, &["`", case.shown(), "` is held as `"]);
        case.put_held(&mut told.what, place.place);
        told.what.put("` here, and `");
        put_held(&mut told.what, case.frame.table(), kind, *perm);
        told.what.put("` is asserted");
        help_with_assertion(case, place.place, &mut told.help);
        help_with_test(case, place.place, *perm, &mut told.help);
    }
}

// A constructor that uses `this`.
fn explain_constructor(case: &Case<'_>, told: &mut Explanation) {
    let own = name_of_kind(case.frame.table(), Kind::Reference(case.frame.here()));
    say(&mut told.what, &["the constructor of `", own]);
    told.what.put("` uses `this`, which isn't whole before the constructor ends");
    told.help.put(
        "set fields by their names and change the state, without a test; what needs `this` is done once the object is made.",
    );
}

// A staged field without its change.
fn explain_staged(shown: &str, told: &mut Explanation) {
    say(&mut told.what, &["the field that is set here by `", shown]);
    told.what
        .put("::` isn't followed by the change to that state");
    told.help.put_with(
        "write `->{};` directly after it; where other fields of `{}` have no value yet, set these before it.",
        &[shown, shown],
    );
}

// What stands before the first `:` or blank.
fn first_word(text: &str) -> &str {
    match text.find(':') {
        Some(at) => text.get(..at).unwrap_or(text).trim(),
        None => text,
    }
}

/// Explains those premises that are told by their number alone.
pub fn explain_form(case: &Case<'_>, told: &mut Explanation) {
    match case.fault.number {
        TEST_UNOWNED => explain_unowned(case, told),
        TEST_TWICE => explain_tested(case, told),
        UNDER_TEST => explain_under_test(case, told),
        VIEW_CHANGES => explain_view(case, told),
        USED_TWICE => explain_twice(case, told),
        THIS_IN_CONSTRUCTOR => explain_constructor(case, told),
        ASSERT_FAILS => explain_assertion(case, told),
        BAD_TRANSITION => explain_staged(first_word(case.shown()), told),
        _ => {}
    }
}
