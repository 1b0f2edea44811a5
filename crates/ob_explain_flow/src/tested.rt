//! Tests of states, and what stands in a branch whose condition tests the state of a shared object.

use crate::case::Case;
use crate::holding::{name_of_field, name_of_kind, say};
use crate::permissions::{help_to_hold, help_with_entry, say_why};
use crate::uses::{Role, Use, put_role, use_at, use_of_this};
use ob_base::{FieldId, Mode, StateId};
use ob_explain_page::{Explanation, Words};
use ob_flow_context::{is_tested, kind_of};
use ob_perm::{owned, shared};
use ob_silica::{Form, Given, Operand, Place};
use ob_table::{Kind, ResolvedType};

// The use of what is tested: it wants one that shares.
fn testing<'a>(case: &Case<'a>, operand: Operand) -> Use<'a> {
    let wanted = match case.context().kind(operand.place) {
        Kind::Reference(id) => Some(ResolvedType::Reference(id, shared())),
        _ => None,
    };
    Use {
        operand,
        role: Role::Other,
        wanted,
    }
}

/// A place of which no owner and none that shares tests the state.
pub fn explain_unowned(case: &Case<'_>, told: &mut Explanation) {
    let Form::Test { place: operand, .. } = case.form() else {
        return;
    };
    say(&mut told.what, &["`", case.shown(), "` is held as `"]);
    case.put_held(&mut told.what, operand.place);
    told.what.put("` here, and only an owner or one that shares can test a state");
    say_why(case, operand.place, &mut told.note);
    help_to_hold(case, testing(case, *operand), owned(0), &mut told.help);
}

/// A test inside a test of the same place.
pub fn explain_tested(case: &Case<'_>, told: &mut Explanation) {
    let Form::Test { place, .. } = case.form() else {
        return;
    };
    say(
        &mut told.what,
        &[
            "`",
            case.shown(),
            "` is under test already, by an `if` around this one, and held as `",
        ],
    );
    case.put_held(&mut told.what, place.place);
    told.what.put("` here");
    told.help.put("leave this test out, or test it in the `else` of that `if`, or after it.");
}

// The field under test that a change of state ends or gives.
fn changed_field(case: &Case<'_>, state: StateId, given: &[Given]) -> Option<FieldId> {
    for one in given {
        if one.span == case.fault.span {
            return Some(one.field);
        }
    }
    for place in case.stop.tested.as_slice() {
        if let Place::Field(field) = place {
            if !case.is_there(*field, state) {
                return Some(*field);
            }
        }
    }
    None
}

// The innermost field under test.
fn tested_field(case: &Case<'_>) -> Option<FieldId> {
    let mut found = None;
    for place in case.stop.tested.as_slice() {
        if let Place::Field(field) = place {
            found = Some(*field);
        }
    }
    found
}

// The field under test because of which a form as a whole can't stand in the branch.
fn held_back(case: &Case<'_>) -> Option<FieldId> {
    match case.form() {
        Form::Change { state, given } => changed_field(case, *state, given.as_slice()),
        Form::CallThis { .. } => tested_field(case),
        Form::Move {
            to: Place::Field(field),
            ..
        } => Some(*field),
        _ => None,
    }
}

// Says what a form does to a field under test.
fn say_held_back(case: &Case<'_>, field: FieldId, words: &mut Words) {
    let name = name_of_field(case.frame, field);
    match case.form() {
        Form::Change { state, .. } if case.is_there(field, *state) => {
            say(words, &["this gives the field `", name, "` another object"]);
        }
        Form::Change { state, .. } => {
            let state = case.name_of_state(*state);
            say(words, &["`->", state, "` ends the field `", name, "`"]);
        }
        Form::CallThis { .. } => {
            say(words, &["a call on `this` may use the field `", name, "`"]);
        }
        _ => say(words, &["this gives the field `", name, "` another object"]),
    }
    words.put(", which the `if` around tests");
}

// How to test a copy of a field.
fn help_with_copy(case: &Case<'_>, field: FieldId, words: &mut Words) {
    let name = name_of_field(case.frame, field);
    let kind = kind_of(case.frame.type_of_field(field));
    let of = name_of_kind(case.frame.table(), kind);
    say(
        words,
        &["copy it before that `if`, as by `", of, " copy = ", name],
    );
    words.put(";`, and test `copy` in its place.");
}

// What a use would do with what is under test.
fn doing(one: Use<'_>) -> &'static str {
    if matches!(one.role, Role::Disowned) {
        return "`disown` would give it up";
    }
    match one.left() {
        Some(perm) if perm.mode == Mode::Shared => " would share it",
        _ => " would take it",
    }
}

// Says what an operand under test is used for.
fn say_lent(case: &Case<'_>, one: Use<'_>, words: &mut Words) {
    let shown = match one.operand.place {
        Place::This => "this",
        _ => case.shown(),
    };
    say(words, &["`", shown, "` is under test in this branch, and "]);
    if !matches!(one.role, Role::Disowned) {
        put_role(words, case.frame, one.role);
    }
    words.put(doing(one));
}

// An operand that is under test.
fn explain_lent(case: &Case<'_>, one: Use<'_>, told: &mut Explanation) {
    say_lent(case, one, &mut told.what);
    told.note.put(
        "a shared object whose state is tested is lent to the branch: it stays there, and comes back at the branch's end.",
    );
    let takes = match one.permission() {
        Some(perm) => perm.mode == Mode::Owned,
        None => matches!(one.role, Role::Disowned),
    };
    if takes {
        help_with_entry(case, one, &mut told.help);
    } else {
        told.help.put("do it before the `if` or after the branch, where it is shared.");
    }
}

// The use at the fault's place of what is under test.
fn lent<'a>(case: &Case<'a>) -> Option<Use<'a>> {
    let one = use_at(case.frame, case.form(), case.fault.span)?;
    if is_tested(case.stop.tested.as_slice(), one.operand.place) {
        Some(one)
    } else {
        None
    }
}

// What is under test and isn't a field.
fn explain_other(case: &Case<'_>, told: &mut Explanation) {
    if let Some(one) = use_of_this(case.frame, case.form(), case.fault.span) {
        return explain_lent(case, one, told);
    }
    say(&mut told.what, &["`", case.shown()]);
    told.what.put(
        "` can't stand here: what the `if` around tests stays as it is until that branch ends",
    );
    told.help.put("do it before the `if` or after the branch.");
}

/// Something under test that would be handed on or changed.
pub fn explain_under_test(case: &Case<'_>, told: &mut Explanation) {
    if let Some(one) = lent(case) {
        return explain_lent(case, one, told);
    }
    match held_back(case) {
        Some(field) => {
            say_held_back(case, field, &mut told.what);
            help_with_copy(case, field, &mut told.help);
        }
        None => explain_other(case, told),
    }
}
