//! What is held doesn't serve where it is given: it isn't owned, or it isn't shared either.

use crate::case::Case;
use crate::holding::{first_state, has_state_among, name_of_field, put_type, say};
use crate::known::explain_state;
use crate::own::{help_with_this, put_declared, put_this, say_why_this, wants_asset};
use crate::uses::{Role, Use, put_role, use_at, use_of_this};
use crate::ways::{Loss, say_loss, variable_of, way_of};
use ob_base::{FieldId, Mode, Perm, WRONG_STATE, is_letter_or_digit};
use ob_explain_page::{Explanation, Words, word_of};
use ob_perm::{owned, shared};
use ob_silica::Place;
use ob_table::{Kind, Param, ResolvedType};

// Whether a place is a field that owns, of an Unowned `this`.
fn is_under_unowned(case: &Case<'_>, place: Place) -> bool {
    let context = case.context();
    let owns = context.permission(place).mode == Mode::Owned;
    owns && matches!(place, Place::Field(_)) && context.counted(place).mode != Mode::Owned
}

// Says as what a parameter is taken.
fn say_param(case: &Case<'_>, param: &Param, words: &mut Words) {
    case.put_body(words);
    say(
        words,
        &[" takes `", word_of(param.name.as_bytes()), "` as `"],
    );
    put_type(words, case.frame.table(), param.of);
    words.put("`.");
}

// Whether the list of a private transaction says something else of a field at the start than its declaration.
fn is_listed(case: &Case<'_>, field: FieldId) -> bool {
    let entry = case.frame.entry_of_field(case.frame.signature(), field);
    entry.mode != case.frame.declared_permission(field).mode
}

// Says as what a field is declared, or listed.
fn say_field(case: &Case<'_>, field: FieldId, words: &mut Words) {
    let name = name_of_field(case.frame, field);
    if is_listed(case, field) {
        case.put_body(words);
        say(words, &[" lists the field `", name, "` otherwise."]);
        return;
    }
    say(words, &["the field `", name, "` is declared as `"]);
    put_type(words, case.frame.table(), case.frame.type_of_field(field));
    words.put("`.");
}

// Says as what a place comes in.
fn say_entry(case: &Case<'_>, place: Place, words: &mut Words) {
    match place {
        Place::This => say_why_this(case, words),
        Place::Field(field) => say_field(case, field, words),
        Place::Slot(slot) => match case.param_of(slot) {
            Some(param) => say_param(case, param, words),
            None => words.put(
                "what it held was given on before, or came to it from one that wasn't the owner.",
            ),
        },
    }
}

/// Says why a place isn't held as it is wanted.
pub fn say_why(case: &Case<'_>, place: Place, words: &mut Words) {
    if is_under_unowned(case, place) {
        say_why_this(case, words);
        return words.put(" What the fields of an Unowned object own counts as Unowned.");
    }
    match way_of(case, place).loss {
        Some(loss) => say_loss(case, words, "it", loss),
        None => say_entry(case, place, words),
    }
}

// What to do where a place was lost before.
fn help_with_loss(case: &Case<'_>, loss: Loss<'_>, words: &mut Words) {
    words.put("use it before that");
    if let Some(name) = variable_of(case.text, loss) {
        say(
            words,
            &[", or `", name, "` in its place while that owns it"],
        );
    }
    words.put(", or another object.");
}

/// Whether what is wanted of an operand is wanted on its own contract or interface, so that the states have the same numbers.
pub fn is_of_its_own(case: &Case<'_>, one: Use<'_>) -> bool {
    match (case.context().kind(one.operand.place), one.wanted) {
        (Kind::Reference(own), Some(ResolvedType::Reference(id, _))) => own.0 == id.0,
        _ => false,
    }
}

// A permission of what is wanted, for the operand's own contract: of another one's states nothing is said.
fn said(case: &Case<'_>, one: Use<'_>, perm: Option<Perm>) -> Perm {
    match perm {
        Some(perm) if perm.mode != Mode::Owned || is_of_its_own(case, one) => perm,
        _ => owned(0),
    }
}

// The permission that serves.
fn serving(case: &Case<'_>, one: Use<'_>) -> Perm {
    said(case, one, one.permission())
}

// What is left of it.
fn left(case: &Case<'_>, one: Use<'_>) -> Perm {
    match one.left() {
        Some(perm) => said(case, one, Some(perm)),
        None => serving(case, one),
    }
}

/// How to declare a parameter so that it serves; the sentence goes on.
pub fn help_with_param(case: &Case<'_>, one: Use<'_>, param: &Param, words: &mut Words) {
    words.put("declare `");
    let kind = case.context().kind(one.operand.place);
    let name = word_of(param.name.as_bytes());
    put_declared(case, words, kind, serving(case, one), left(case, one), name);
    words.put("` in ");
    case.put_body(words);
}

// How to declare or list a field so that it serves.
fn help_with_field(case: &Case<'_>, one: Use<'_>, field: FieldId, words: &mut Words) {
    let kind = case.context().kind(one.operand.place);
    let name = name_of_field(case.frame, field);
    let entry = serving(case, one);
    if is_listed(case, field) {
        words.put("list it as `");
        put_declared(case, words, kind, entry, left(case, one), name);
        return words.put("`.");
    }
    words.put("declare the field as `");
    put_declared(case, words, kind, entry, entry, name);
    words.put("`");
    if entry.mode == Mode::Owned && wants_asset(case, field) {
        words.put(", in an `asset contract`");
    }
    words.put(".");
}

/// How a place serves that comes in so that it doesn't.
pub fn help_with_entry(case: &Case<'_>, one: Use<'_>, words: &mut Words) {
    match one.operand.place {
        Place::This => {
            help_with_this(case, words, serving(case, one), left(case, one));
            words.put(".");
        }
        Place::Field(field) => help_with_field(case, one, field, words),
        Place::Slot(slot) => match case.param_of(slot) {
            Some(param) => {
                help_with_param(case, one, param, words);
                words.put(".");
            }
            None => words.put("give what is held so: a new object, or one that its owner gives."),
        },
    }
}

// The state for which a shared object can be tested, so that it serves in the branch: there it has to stay.
fn state_to_test<'a>(case: &Case<'a>, one: Use<'_>) -> Option<&'a str> {
    let Some(ResolvedType::Reference(id, wanted)) = one.wanted else {
        return None;
    };
    let contract = case.frame.table().contract(id)?;
    let stays = one.left()?.mode == Mode::Owned;
    if stays && wanted.mode == Mode::Owned && has_state_among(contract, wanted.states) {
        Some(first_state(contract, wanted.states))
    } else {
        None
    }
}

/// What an operand is called, if it has a name.
pub fn named<'a>(case: &Case<'a>, place: Place) -> Option<&'a str> {
    if place == Place::This {
        return Some("this");
    }
    let shown = case.shown();
    if shown.bytes().all(|byte| is_letter_or_digit(byte)) {
        Some(shown)
    } else {
        None
    }
}

/// Puts a test of a state around the statement.
pub fn put_test(case: &Case<'_>, words: &mut Words, name: &str, state: &str) {
    let inside = match case.call_shown() {
        Some(shown) => shown,
        None => "..",
    };
    say(
        words,
        &["`if (", name, " in ", state, ") { ", inside, " }`"],
    );
}

// How a shared object serves where an owner is wanted: by a test, for which `this` has to be held where it is a field. Whether it can.
fn help_with_test(case: &Case<'_>, one: Use<'_>, words: &mut Words) -> bool {
    let place = one.operand.place;
    if case.context().permission(place).mode != Mode::Shared {
        return false;
    }
    let (Some(name), Some(state)) = (named(case, place), state_to_test(case, one)) else {
        return false;
    };
    let this = case.context().permission(Place::This).mode;
    if this == Mode::Unowned && matches!(place, Place::Field(_)) {
        help_with_this(case, words, shared(), shared());
        words.put(", and test the field: ");
    } else {
        words.put("test it, for in the branch it is owned: ");
    }
    put_test(case, words, name, state);
    words.put(".");
    true
}

/// How to get what is wanted; `under` is what is to be held of `this`, where its field counts as Unowned.
pub fn help_to_hold(case: &Case<'_>, one: Use<'_>, under: Perm, words: &mut Words) {
    let place = one.operand.place;
    if is_under_unowned(case, place) {
        help_with_this(case, words, under, under);
        return words.put(".");
    }
    if help_with_test(case, one, words) {
        return;
    }
    match way_of(case, place).loss {
        Some(loss) => help_with_loss(case, loss, words),
        None => help_with_entry(case, one, words),
    }
}

// Says what an operand is held as, and what is wanted.
fn say_use(case: &Case<'_>, one: Use<'_>, words: &mut Words) {
    say(words, &["`", case.shown(), "` is held as `"]);
    case.put_held(words, one.operand.place);
    let Some(of) = one.wanted else {
        return words.put("` here, and `disown` wants an owner");
    };
    words.put("` here, and ");
    put_role(words, case.frame, one.role);
    words.put(" wants `");
    put_type(words, case.frame.table(), of);
    words.put("`");
}

// Says what `this` is held as, and what a call on it wants.
fn say_use_of_this(case: &Case<'_>, one: Use<'_>, words: &mut Words) {
    words.put("`this` is held as `");
    case.put_held(words, Place::This);
    words.put("` here, and the transaction `");
    if let Role::Receiver(signature, _) = one.role {
        words.put(word_of(signature.name.as_bytes()));
    }
    words.put("` wants `");
    put_this(case, words, serving(case, one));
    words.put("` of its `this`");
}

// What is behind it, and how to mend it.
fn explain_use(case: &Case<'_>, one: Use<'_>, told: &mut Explanation) {
    if case.fault.number == WRONG_STATE {
        return explain_state(case, one, told);
    }
    say_why(case, one.operand.place, &mut told.note);
    help_to_hold(case, one, shared(), &mut told.help);
}

/// What is held doesn't serve where it is given.
pub fn explain_permission(case: &Case<'_>, told: &mut Explanation) {
    if let Some(one) = use_at(case.frame, case.form(), case.fault.span) {
        say_use(case, one, &mut told.what);
        explain_use(case, one, told);
    } else if let Some(one) = use_of_this(case.frame, case.form(), case.fault.span) {
        say_use_of_this(case, one, &mut told.what);
        explain_use(case, one, told);
    }
}
