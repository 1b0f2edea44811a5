//! Which place it is of which a premise speaks that is asked of many: where a body ends, where branches join, and at a change of state.

use crate::case::Case;
use crate::forgetting::{forgetting, put_remembering, say_forgotten};
use crate::holding::{
    first_of, has_no_state, has_state_among, name_of_kind, put_held, put_type, put_written, say,
};
use crate::own::put_change;
use crate::unreached::{help_to_change, help_to_move, hidden_field};
use crate::uses::Role;
use crate::ways::way_of;
use ob_base::{FieldId, Mode, Perm, StateId};
use ob_explain_page::{Explanation, Words, word_of};
use ob_flow_context::{Context, kind_of, permission_of_type};
use ob_perm::unowned;
use ob_silica::{Form, Given, Place};
use ob_table::Param;

// Whether a place owns an asset that is let go where the body ends.
fn is_lost(case: &Case<'_>, slot: u8) -> bool {
    let owns = case.frame.owns_asset(case.context(), Place::Slot(slot));
    match case.param_of(slot) {
        Some(param) => owns && param.exit.mode == Mode::Unowned,
        None => owns && (slot > 0 || case.frame.signature().exit.mode == Mode::Unowned),
    }
}

// The first place that owns an asset where the body ends: variables come before parameters, and `this` is last.
fn lost_at_end(case: &Case<'_>) -> Option<Place> {
    let count = case.frame.signature().params.len();
    for slot in 1..case.frame.slots() {
        if usize::from(slot) > count && is_lost(case, slot) {
            return Some(Place::Slot(slot));
        }
    }
    for slot in 1..case.frame.slots() {
        if is_lost(case, slot) {
            return Some(Place::Slot(slot));
        }
    }
    if is_lost(case, 0) {
        Some(Place::This)
    } else {
        None
    }
}

// The field that owns an asset and isn't there in the new state.
fn lost_in_change(case: &Case<'_>, state: StateId) -> Option<Place> {
    for number in 0..case.frame.field_count() {
        let field = FieldId(number);
        let stays = case.is_there(field, state);
        let owns = case.frame.owns_asset(case.context(), Place::Field(field));
        if !stays && owns && case.frame.maybe_there(case.context(), field) {
            return Some(Place::Field(field));
        }
    }
    None
}

// The given field that may be there and still owns an asset.
fn overwritten(case: &Case<'_>, given: &[Given]) -> Option<Place> {
    for one in given {
        let place = Place::Field(one.field);
        let owns = case.frame.owns_asset(case.context(), place);
        if owns && case.frame.maybe_there(case.context(), one.field) {
            return Some(place);
        }
    }
    None
}

// The place that still owns an asset, of 404 and 405.
fn owner(case: &Case<'_>) -> Option<Place> {
    match case.form() {
        Form::Drop { slot } => Some(Place::Slot(*slot)),
        Form::Move { to, .. } => Some(*to),
        Form::Change { state, given } => match overwritten(case, given.as_slice()) {
            Some(place) => Some(place),
            None => lost_in_change(case, *state),
        },
        _ => lost_at_end(case),
    }
}

// Says where an asset would be lost.
fn say_lost(case: &Case<'_>, words: &mut Words) {
    match case.form() {
        Form::Drop { .. } => words.put(" here, where it ends, and then nobody has that asset"),
        Form::Change { state, .. } => say(
            words,
            &[
                ", and the state `",
                case.name_of_state(*state),
                "` hasn't this field: then nobody has that asset",
            ],
        ),
        _ => {
            words.put(" where ");
            case.put_body(words);
            words.put(" ends here, and then nobody has that asset");
        }
    }
}

// Puts that a place still owns what its contract is called, or may own it.
fn say_owner(case: &Case<'_>, words: &mut Words, place: Place) {
    case.put_place(words, place);
    words.put(match hidden_field(case, place) {
        Some(_) => " may own ",
        None => " still owns ",
    });
    words.put_a(case.contract_of(place));
}

// How `this` isn't lost at the end.
fn help_with_lost_this(case: &Case<'_>, words: &mut Words) {
    let own = case.contract_of(Place::This);
    say(
        words,
        &[
            "let `this` be owned at the end too, as by `",
            own,
            "@Owned this`; or give it up: `",
            own,
            " me = this; disown me;`.",
        ],
    );
}

// How what a place owns isn't lost.
fn help_with_lost(case: &Case<'_>, words: &mut Words, place: Place) {
    words.put(if case.has_name(place) {
        "before this, "
    } else {
        "put it into a variable, and then "
    });
    words.put(
        "give it to an owner, return it, put it into a field, or let it go on purpose by `disown`.",
    );
}

/// An asset that would be lost.
pub fn explain_lost(case: &Case<'_>, told: &mut Explanation) {
    let Some(place) = owner(case) else {
        return told.what.put("an asset would be lost here");
    };
    say_owner(case, &mut told.what, place);
    say_lost(case, &mut told.what);
    case.say_declared(&mut told.note, place);
    match place {
        Place::This => help_with_lost_this(case, &mut told.help),
        Place::Field(field) => help_to_move(case, field, told),
        Place::Slot(_) => help_with_lost(case, &mut told.help, place),
    }
}

/// An asset that would be overwritten.
pub fn explain_overwritten(case: &Case<'_>, told: &mut Explanation) {
    let Some(place) = owner(case) else {
        return told.what.put("an asset would be overwritten here");
    };
    say_owner(case, &mut told.what, place);
    told.what
        .put(", which this would overwrite: the asset would be lost");
    if let Some(field) = hidden_field(case, place) {
        return help_to_change(case, field, told);
    }
    told.help.put("move what ");
    case.put_place(&mut told.help, place);
    told.help.put(" holds elsewhere first, as into a variable that is given on or returned.");
}

// Whether a place owns an asset after one branch, and doesn't after the other.
fn is_lost_by_branch(case: &Case<'_>, other: &Context, place: Place) -> bool {
    case.frame.owns_asset(case.context(), place) != case.frame.owns_asset(other, place)
}

// The first such place.
fn lost_by_branch(case: &Case<'_>, other: &Context) -> Option<Place> {
    for slot in 1..case.frame.slots() {
        if is_lost_by_branch(case, other, Place::Slot(slot)) {
            return Some(Place::Slot(slot));
        }
    }
    for number in 0..case.frame.field_count() {
        let place = Place::Field(FieldId(number));
        if is_lost_by_branch(case, other, place) {
            return Some(place);
        }
    }
    None
}

// Puts where branches join, and what chooses between them; the sentence goes on.
fn put_join(case: &Case<'_>, words: &mut Words) {
    if case.is_at_operator() {
        say(
            words,
            &[" after this `", case.shown(), "` if its left side"],
        );
    } else {
        words.put(" at the end of this `if` if the condition");
    }
}

// Of `&&` and `||`, when the right side is run.
fn say_operator(case: &Case<'_>, words: &mut Words) {
    if case.is_at_operator() {
        let shown = case.shown();
        say(
            words,
            &[
                "the right side of `",
                shown,
                "` is run only if the left side ",
            ],
        );
        words.put(if shown == "&&" {
            "holds."
        } else {
            "doesn't hold."
        });
    }
}

/// Where branches join at `&&` or `||`, puts that an `if` can take its place; the sentence goes on.
pub fn help_with_operator(case: &Case<'_>, words: &mut Words) {
    if case.is_at_operator() {
        let shown = case.shown();
        say(
            words,
            &[
                "write an `if` in place of this `",
                shown,
                "`, in front of the statement, and there ",
            ],
        );
    }
}

// Says after which branch a place still owns, and after which it doesn't.
fn say_branches(case: &Case<'_>, other: &Context, words: &mut Words, place: Place) {
    let owns_first = case.frame.owns_asset(case.context(), place);
    let context = if owns_first { case.context() } else { other };
    let of = name_of_kind(case.frame.table(), context.kind(place));
    case.put_place(words, place);
    words.put(" still owns ");
    words.put_a(of);
    put_join(case, words);
    words.put(if owns_first {
        " holds, and no longer if it doesn't"
    } else {
        " doesn't hold, and no longer if it does"
    });
}

/// An asset that one branch keeps and the other doesn't.
pub fn explain_branches(case: &Case<'_>, told: &mut Explanation) {
    if let Some(other) = &case.trace.other {
        if let Some(place) = lost_by_branch(case, other) {
            say_branches(case, other, &mut told.what, place);
            say_operator(case, &mut told.note);
            help_with_operator(case, &mut told.help);
            return told.help.put(
                "do with the asset the same in both branches (give it on, keep it, or `disown` it), or `revert` in one of them; where there is no `else`, write `else { revert \"..\"; }`.",
            );
        }
    }
    told.what
        .put("an asset is kept by one branch and not by the other");
}

/// `this` held differently after two branches.
pub fn explain_this(case: &Case<'_>, told: &mut Explanation) {
    let Some(other) = &case.trace.other else {
        return told
            .what
            .put("what is held of `this` differs between the branches");
    };
    let this = Place::This;
    told.what.put("`this` is held as `");
    case.put_held(&mut told.what, this);
    told.what.put("`");
    put_join(case, &mut told.what);
    told.what.put(" holds, and as `");
    let perm = other.counted(this);
    put_held(&mut told.what, case.frame.table(), other.kind(this), perm);
    told.what.put("` if it doesn't");
    say_operator(case, &mut told.note);
    help_with_operator(case, &mut told.help);
    told.help.put(match case.frame.signature().exit.mode {
        Mode::Owned => "hand `this` on in none of the branches, or `revert` where you do.",
        _ => {
            "hand `this` on in the same way in both branches, or `revert` in the one that doesn't; where there is no `else`, write `else { revert \"..\"; }`."
        }
    });
}

// The place that isn't left as was promised, with what was: a parameter, or `this`.
fn differing_exit(case: &Case<'_>) -> (Place, Perm) {
    for slot in 1..case.frame.slots() {
        if let Some(param) = case.param_of(slot) {
            let place = Place::Slot(slot);
            let exit = param.exit;
            if exit.mode != Mode::Unowned && !case.context().is_held_as(place, exit) {
                return (place, exit);
            }
        }
    }
    (Place::This, case.frame.signature().exit)
}

// Puts what a place has to be left as.
fn put_wanted(case: &Case<'_>, words: &mut Words, place: Place, exit: Perm) {
    put_held(words, case.frame.table(), case.context().kind(place), exit);
}

// Puts the permission that a place is held with.
fn put_last(case: &Case<'_>, words: &mut Words, place: Place) {
    let context = case.context();
    let perm = context.counted(place);
    put_written(words, case.frame.table(), context.kind(place), perm);
}

// Says in which state the object is that a constructor makes.
fn say_made(case: &Case<'_>, words: &mut Words) {
    let held = case.context().permission(Place::This);
    if !has_no_state(held) {
        words.put("its object is `");
        case.put_held(words, Place::This);
        return words.put("` here");
    }
    words.put(if has_state_among(case.frame.own(), held.states) {
        "its object may have no state yet here"
    } else {
        "its object has no state yet here"
    });
}

// The state that `this` is in at the end of a constructor isn't one that it gives.
fn explain_given(case: &Case<'_>, exit: Perm, told: &mut Explanation) {
    case.put_body(&mut told.what);
    told.what.put(" gives `");
    put_wanted(case, &mut told.what, Place::This, exit);
    told.what.put("`, and ");
    say_made(case, &mut told.what);
    let Some(state) = first_of(case.frame.own(), case.frame.possible_under(exit)) else {
        return;
    };
    if case.is_default() {
        let own = word_of(case.frame.own().name.as_bytes());
        let to = case.name_of_state(state);
        let words = &mut told.help;
        say(
            words,
            &[
                "write a constructor, `",
                own,
                "@",
                to,
                "() { .. }`, which changes to a state, as by ",
            ],
        );
        put_change(case, words, state, &[]);
        return words.put(".");
    }
    told.help.put("change to a state that it gives, as by ");
    put_change(case, &mut told.help, state, &[]);
    told.help.put(", on each way to the end.");
}

// How `this` comes into a state that was promised, or another one is promised.
fn help_with_change(case: &Case<'_>, exit: Perm, words: &mut Words) {
    if let Some(state) = first_of(case.frame.own(), exit.states) {
        words.put("change to that state before the end, as by ");
        put_change(case, words, state, &[]);
        words.put(", or ");
    }
    words.put("write `>> ");
    put_last(case, words, Place::This);
    words.put("` at `this`.");
}

// How to mend an exit of `this`.
fn help_with_this(case: &Case<'_>, exit: Perm, words: &mut Words) {
    if case.context().permission(Place::This).mode != Mode::Owned {
        words.put("write `>> ");
        put_last(case, words, Place::This);
        return words.put("` at `this`, if that is what is meant to be left of it.");
    }
    match forgetting(case, exit.states) {
        Some(call) => {
            put_remembering(case, call, words);
            words.put(", or write `>> ");
            put_last(case, words, Place::This);
            words.put("` at `this`.");
        }
        None => help_with_change(case, exit, words),
    }
}

// Says what is declared of a place, or which call let the state of `this` be forgotten.
fn say_behind(case: &Case<'_>, place: Place, exit: Perm, words: &mut Words) {
    let call = match place {
        Place::This => forgetting(case, exit.states),
        _ => None,
    };
    match call {
        Some(call) => say_forgotten(case, call, words),
        None => case.say_declared(words, place),
    }
}

// The parameter of a transaction that shared what a place owned, with the name of that transaction.
fn shared_by<'a>(case: &Case<'a>, place: Place) -> Option<(&'a str, &'a Param)> {
    let loss = way_of(case, place).loss?;
    let Role::Argument(param, signature, _) = loss.role else {
        return None;
    };
    let name = word_of(signature.name.as_bytes());
    if permission_of_type(param.of).mode == Mode::Shared && !name.is_empty() {
        Some((name, param))
    } else {
        None
    }
}

// How a transaction that shares what it is given leaves it to its owner; the sentence goes on.
fn help_with_sharing(case: &Case<'_>, words: &mut Words, name: &str, param: &Param) {
    let table = case.frame.table();
    let taken = word_of(param.name.as_bytes());
    say(words, &["`", name, "` takes `"]);
    say(words, &[taken, "` as `"]);
    put_type(words, table, param.of);
    words.put("`, which shares it for good: let it take `");
    put_held(words, table, kind_of(param.of), unowned());
    say(words, &[" ", taken, "`; or, in "]);
    case.put_body(words);
    words.put(", ");
}

// How a parameter is declared as it is left.
fn help_with_param(case: &Case<'_>, place: Place, param: &Param, words: &mut Words) {
    words.put("declare it as `");
    put_type(words, case.frame.table(), param.of);
    words.put(" >> ");
    put_last(case, words, place);
    say(
        words,
        &[
            " ",
            word_of(param.name.as_bytes()),
            "`, if that is what is meant to be left of it.",
        ],
    );
}

// How to mend an exit.
fn help_with_exit(case: &Case<'_>, place: Place, exit: Perm, words: &mut Words) {
    let param = match place {
        Place::Slot(slot) => case.param_of(slot),
        _ => None,
    };
    let Some(param) = param else {
        return help_with_this(case, exit, words);
    };
    if let Some((name, sharing)) = shared_by(case, place) {
        help_with_sharing(case, words, name, sharing);
    }
    help_with_param(case, place, param, words);
}

/// What is held at the end and isn't what was promised.
pub fn explain_exit(case: &Case<'_>, told: &mut Explanation) {
    let (place, exit) = differing_exit(case);
    if case.frame.constructs() && matches!(place, Place::This) {
        return explain_given(case, exit, told);
    }
    let param = match place {
        Place::Slot(slot) => case.param_of(slot),
        _ => None,
    };
    let name = match param {
        Some(param) => word_of(param.name.as_bytes()),
        None => "this",
    };
    say(&mut told.what, &["`", name, "` is held as `"]);
    case.put_held(&mut told.what, place);
    told.what.put("` where ");
    case.put_body(&mut told.what);
    told.what.put(" ends, and ");
    case.put_body(&mut told.what);
    told.what.put(" promises `");
    put_wanted(case, &mut told.what, place, exit);
    told.what.put("` of it");
    say_behind(case, place, exit, &mut told.note);
    help_with_exit(case, place, exit, &mut told.help);
}
