//! How what a field owns is kept at a change of state; and what to do where the field can't be reached, since the state isn't known.

use crate::case::Case;
use crate::holding::{first_of, first_state, name_of_field, put_states, say};
use ob_base::{FieldId, Mode};
use ob_explain_page::{Explanation, Words};
use ob_silica::{Form, Place};
use ob_table::{Kind, ResolvedType};

/// The field of a place, if it can't be reached here since `this` may be in a state that hasn't it.
pub fn hidden_field(case: &Case<'_>, place: Place) -> Option<FieldId> {
    let Place::Field(field) = place else {
        return None;
    };
    if case.frame.constructs() || case.frame.accessible(case.context(), field) {
        None
    } else {
        Some(field)
    }
}

// Says what isn't known of the state of `this`.
fn say_unknown(case: &Case<'_>, words: &mut Words) {
    let this = case.context().permission(Place::This);
    if this.mode == Mode::Shared {
        return words.put(
            "`this` is Shared here, so it may be in any of its states; what a test tells of it holds in the branch of that test alone.",
        );
    }
    words.put("`this` may be in `");
    put_states(words, case.frame.own(), case.frame.possible_under(this));
    words.put("` here.");
}

// Puts the change, as `->S;`, with dots in place of the fields that it gives.
fn put_changing(case: &Case<'_>, words: &mut Words) {
    if let Form::Change { state, given } = case.form() {
        let end = if given.is_empty() { ";" } else { "(..);" };
        say(words, &["->", case.name_of_state(*state), end]);
    }
}

/// How a field is given with a change where it may own something and can't be reached: in a state that hasn't it.
pub fn help_to_change(case: &Case<'_>, field: FieldId, told: &mut Explanation) {
    say_unknown(case, &mut told.note);
    let this = case.context().permission(Place::This);
    let without = case.frame.possible_under(this) & !case.frame.available(field);
    let Some(state) = first_of(case.frame.own(), without) else {
        return;
    };
    let words = &mut told.help;
    words.put("change in the branch of a test: `if (this in ");
    say(words, &[case.name_of_state(state), ") { "]);
    put_changing(case, words);
    words.put(" } else { revert \"..\"; }`.");
}

// Whether the transaction returns an owner of what a field is of.
fn returns(case: &Case<'_>, field: FieldId) -> bool {
    let kind = case.context().kind(Place::Field(field));
    match (kind, case.frame.signature().result) {
        (Kind::Reference(own), Some(ResolvedType::Reference(id, perm))) => {
            own.0 == id.0 && perm.mode == Mode::Owned
        }
        _ => false,
    }
}

// Puts how what a field owns moves into a variable before the change, and on after it.
fn put_moving(case: &Case<'_>, field: FieldId, words: &mut Words) {
    let of = case.contract_of(Place::Field(field));
    let name = name_of_field(case.frame, field);
    say(words, &[of, " moved = ", name, "; "]);
    put_changing(case, words);
    words.put(if returns(case, field) {
        " return moved;"
    } else {
        " disown moved;"
    });
}

/// How what a field owns is kept at a change to a state that hasn't the field.
pub fn help_to_move(case: &Case<'_>, field: FieldId, told: &mut Explanation) {
    let is_hidden = hidden_field(case, Place::Field(field)).is_some();
    if is_hidden {
        say_unknown(case, &mut told.note);
        told.help.put("test the state, and ");
    }
    told.help.put(
        "move it into a variable first, and then give it to an owner, return it, put it into a field, or let it go on purpose by `disown`, as by `",
    );
    if is_hidden {
        let state = first_state(case.frame.own(), case.frame.available(field));
        say(&mut told.help, &["if (this in ", state, ") { "]);
    }
    put_moving(case, field, &mut told.help);
    told.help.put(if is_hidden {
        " } else { revert \"..\"; }`."
    } else {
        "`."
    });
}
