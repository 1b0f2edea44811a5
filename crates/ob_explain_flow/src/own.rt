//! `this`: why it isn't held, and how it would be.

use crate::case::Case;
use crate::holding::{name_of_body, name_of_field, put_held, put_permission, say};
use crate::ways::{beginning_of, say_loss, way_of};
use ob_base::{FieldId, Mode, Perm, StateId, is_letter_or_digit};
use ob_explain_page::Words;
use ob_flow_context::kind_of;
use ob_silica::{Given, Place};
use ob_table::Kind;

// What stands behind the last `transaction` before the first statement of the body.
fn head_of<'a>(case: &Case<'a>) -> Option<&'a str> {
    let begin = beginning_of(case.body.terms.as_slice().first()?) as usize;
    let front = case.text.get(..begin)?;
    for at in (0..front.len()).rev() {
        if let Some(rest) = front.get(at..) {
            if let Some(head) = rest.strip_prefix(b"transaction") {
                return str::from_utf8(head).ok();
            }
        }
    }
    None
}

// What stands between the name of the transaction and the end of its first parameter.
fn first_parameter<'a>(case: &Case<'a>) -> Option<&'a str> {
    let (name, behind) = head_of(case)?.split_once('(')?;
    let (params, _) = behind.split_once(')')?;
    if name.trim() != name_of_body(case.frame) {
        return None;
    }
    match params.split_once(',') {
        Some((first, _)) => Some(first),
        None => Some(params),
    }
}

// Whether the text has no `this` among the parameters, as far as that is sure.
fn lacks_this(case: &Case<'_>) -> bool {
    let Some(param) = first_parameter(case) else {
        return false;
    };
    let Some(front) = param.trim().strip_suffix("this") else {
        return true;
    };
    match front.as_bytes().last() {
        Some(byte) => is_letter_or_digit(*byte),
        None => false,
    }
}

/// Whether the body began with an Unowned `this`.
pub fn is_unowned_at_entry(case: &Case<'_>) -> bool {
    case.frame.signature().entry.mode == Mode::Unowned
}

// Whether the statement at hand gives `this` away before it comes to what the fault is about, where no statement before did.
fn is_given_here(case: &Case<'_>) -> bool {
    case.context().permission(Place::This).mode == Mode::Unowned && !is_unowned_at_entry(case)
}

/// Says why `this` isn't an owner's: it isn't named, it is named otherwise, or it was given away.
pub fn say_why_this(case: &Case<'_>, words: &mut Words) {
    if let Some(loss) = way_of(case, Place::This).loss {
        return say_loss(case, words, "`this`", loss);
    }
    if is_given_here(case) {
        return words.put("this statement hands `this` on first.");
    }
    let name = name_of_body(case.frame);
    if lacks_this(case) {
        return say(
            words,
            &["`", name, "` doesn't name `this`, so it is Unowned."],
        );
    }
    say(words, &["`", name, "` takes `this` as `"]);
    put_this(case, words, case.frame.signature().entry);
    words.put("`.");
}

/// Puts a permission on `this`, as `C@Owned`.
pub fn put_this(case: &Case<'_>, words: &mut Words, perm: Perm) {
    let kind = Kind::Reference(case.frame.here());
    put_held(words, case.frame.table(), kind, perm);
}

/// Puts how `this` or a parameter is declared, as `C@On >> Off x`.
pub fn put_declared(
    case: &Case<'_>,
    words: &mut Words,
    kind: Kind,
    entry: Perm,
    exit: Perm,
    name: &str,
) {
    put_held(words, case.frame.table(), kind, entry);
    if entry.mode != exit.mode || entry.states != exit.states {
        words.put(" >> ");
        put_permission(words, case.frame.table(), kind, exit);
    }
    say(words, &[" ", name]);
}

/// Says how `this` is declared so that it is held with such a permission at the start, and this one at the end; the sentence goes on.
pub fn help_with_this(case: &Case<'_>, words: &mut Words, entry: Perm, exit: Perm) {
    if way_of(case, Place::This).loss.is_some() {
        return words.put("do it before that");
    }
    if is_given_here(case) {
        return words.put("put it into a variable before this statement, and hand that over");
    }
    words.put("write `");
    let kind = Kind::Reference(case.frame.here());
    put_declared(case, words, kind, entry, exit, "this");
    let name = name_of_body(case.frame);
    say(words, &["` as the first parameter of `", name, "`"]);
}

// Whether a field has its value in a state without being given with the change to it.
fn keeps(case: &Case<'_>, field: FieldId) -> bool {
    case.context().is_set(Place::Field(field)) && case.frame.accessible(case.context(), field)
}

// Whether a change to a state gives a field, as it is written or as it has to be.
fn is_given(case: &Case<'_>, state: StateId, given: &[Given], field: FieldId) -> bool {
    for one in given {
        if one.field == field {
            return true;
        }
    }
    case.is_there(field, state) && !keeps(case, field)
}

/// Puts a change to a state of `this`, with the fields that it gives and those that it has to give.
pub fn put_change(case: &Case<'_>, words: &mut Words, state: StateId, given: &[Given]) {
    say(words, &["`->", case.name_of_state(state)]);
    let mut is_first = true;
    for number in 0..case.frame.field_count() {
        let field = FieldId(number);
        if is_given(case, state, given, field) {
            words.put(if is_first { "(" } else { ", " });
            say(words, &[name_of_field(case.frame, field), " = .."]);
            is_first = false;
        }
    }
    words.put(if is_first { ";`" } else { ");`" });
}

/// Whether a field's contract has to be an asset for it to own what it refers to.
pub fn wants_asset(case: &Case<'_>, field: FieldId) -> bool {
    let kind = kind_of(case.frame.type_of_field(field));
    case.frame.is_asset(kind) && !case.frame.own().asset
}
