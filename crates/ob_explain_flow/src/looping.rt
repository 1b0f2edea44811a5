//! A turn of a loop that ends otherwise than it began.

use crate::case::Case;
use crate::forgetting::{forgetting, put_remembering, say_forgotten};
use crate::holding::{first_of, name_of_field, put_held, put_states, say};
use crate::own::put_change;
use crate::ways::{say_loss, way_of};
use ob_base::{FieldId, Mode, Perm};
use ob_explain_page::{Explanation, Words};
use ob_flow::is_as_at_head;
use ob_flow_context::{Context, Known};
use ob_silica::Place;
use ob_table::{Contract, Kind};

// What differs: a place, and what is known of it at the head of the loop and at the end of the turn.
#[derive(Clone, Copy)]
struct Difference {
    place: Place,
    head: Option<Known>,
    end: Option<Known>,
}

// The mode in which a place is held, if it is known.
fn mode_of(known: Option<Known>) -> Option<Mode> {
    match known {
        Some(known) => Some(known.permission.mode),
        None => None,
    }
}

// A place, if it isn't at the end of the turn as at the head.
fn differing(case: &Case<'_>, end: &Context, place: Place) -> Option<Difference> {
    let difference = Difference {
        place,
        head: case.context().get(place),
        end: end.get(place),
    };
    if is_as_at_head(case.frame, difference.head, difference.end) {
        None
    } else {
        Some(difference)
    }
}

// The first such slot; `this` is the first of all.
fn differing_slot(case: &Case<'_>, end: &Context) -> Option<Difference> {
    for slot in 0..case.frame.slots().max(1) {
        let place = if slot == 0 {
            Place::This
        } else {
            Place::Slot(slot)
        };
        let difference = differing(case, end, place);
        if difference.is_some() {
            return difference;
        }
    }
    None
}

// The first such place: fields come after slots.
fn differing_place(case: &Case<'_>, end: &Context) -> Option<Difference> {
    let difference = differing_slot(case, end);
    if difference.is_some() {
        return difference;
    }
    for number in 0..case.frame.field_count() {
        let difference = differing(case, end, Place::Field(FieldId(number)));
        if difference.is_some() {
            return difference;
        }
    }
    None
}

// The name of a place in the text, without its quotes.
fn name_of<'a>(case: &Case<'a>, place: Place) -> &'a str {
    match place {
        Place::This => "this",
        Place::Field(field) => name_of_field(case.frame, field),
        Place::Slot(slot) => case.name_of_slot(slot).unwrap_or("it"),
    }
}

// Puts a place as it is called in the text.
fn put_name(case: &Case<'_>, words: &mut Words, place: Place) {
    if matches!(place, Place::Field(_)) {
        words.put("the field ");
    }
    say(words, &["`", name_of(case, place), "`"]);
}

// Puts a kind with a permission, as `C@Owned`, between quotes.
fn put_known(case: &Case<'_>, words: &mut Words, known: Known) {
    words.put("`");
    put_held(words, case.frame.table(), known.kind, known.permission);
    words.put("`");
}

// Says what is known of a place where a turn begins.
fn say_head(case: &Case<'_>, words: &mut Words, head: Option<Known>) {
    match head {
        Some(known) => {
            words.put(" is held as ");
            put_known(case, words, known);
        }
        None => words.put(" has no value"),
    }
    words.put(" where a turn of this `while` begins, and ");
}

// Says what is known of it where the turn ends.
fn say_end(case: &Case<'_>, words: &mut Words, difference: Difference) {
    match (difference.head, difference.end) {
        (_, None) => words.put("has no value"),
        (Some(_), Some(known)) => {
            words.put("as ");
            put_known(case, words, known);
        }
        (None, Some(known)) => {
            words.put("is held as ");
            put_known(case, words, known);
        }
    }
    words.put(" where it ends and the next one begins");
}

// Says what differs, and where.
fn say_difference(case: &Case<'_>, words: &mut Words, difference: Difference) {
    put_name(case, words, difference.place);
    say_head(case, words, difference.head);
    say_end(case, words, difference);
}

// Says by which use its owner lost a place in the turn, or which call let the state of `this` be forgotten.
fn say_how(case: &Case<'_>, difference: Difference, head: Perm, words: &mut Words) {
    let loss = way_of(case, difference.place).loss;
    if let (Some(Mode::Owned), Some(Mode::Owned)) = (
        mode_of(difference.head),
        mode_of(difference.end),
    ) {
        if difference.place == Place::This {
            if let Some(call) = forgetting(case, head.states) {
                say_forgotten(case, call, words);
            }
        }
    } else if let Some(loss) = loss {
        put_name(case, words, difference.place);
        say_loss(case, words, "", loss);
    }
}

// The contract of what is known.
fn contract_of<'a>(case: &Case<'a>, kind: Kind) -> Option<&'a Contract> {
    match kind {
        Kind::Reference(id) => case.frame.table().contract(id),
        _ => None,
    }
}

// How `this` comes back into a state in which a turn begins.
fn help_with_state_of_this(case: &Case<'_>, head: Perm, words: &mut Words) {
    if let Some(call) = forgetting(case, head.states) {
        put_remembering(case, call, words);
        return words.put(".");
    }
    let Some(state) = first_of(case.frame.own(), case.frame.possible_under(head)) else {
        return words.put(
            "change the state before the loop or after it: a loop may run no turn, or many.",
        );
    };
    words.put("change back before the block ends, as by ");
    put_change(case, words, state, &[]);
    words.put(", or end that turn by `return` or `revert`.");
}

// How another object comes back into a state in which a turn begins.
fn help_with_state(case: &Case<'_>, difference: Difference, head: Known, words: &mut Words) {
    let name = name_of(case, difference.place);
    let Some(contract) = contract_of(case, head.kind) else {
        return words.put("do it after the loop.");
    };
    say(words, &["bring `", name, "` back into `"]);
    put_states(words, contract, head.permission.states);
    words.put("` before the block ends, or end that turn by `return` or `revert`.");
}

// Whether a place can be given another object in the block: a parameter can't be assigned.
fn can_be_filled(case: &Case<'_>, place: Place) -> bool {
    match place {
        Place::This => false,
        Place::Field(_) => true,
        Place::Slot(slot) => case.param_of(slot).is_none(),
    }
}

// How a turn ends with an owner that it began with.
fn help_to_keep(case: &Case<'_>, place: Place, words: &mut Words) {
    let name = name_of(case, place);
    if can_be_filled(case, place) {
        say(
            words,
            &[
                "give `",
                name,
                "` another object before the block ends, as by `",
            ],
        );
        say(words, &[name, " = ..;`; or "]);
    }
    say(
        words,
        &[
            "hand `",
            name,
            "` on after the loop, or end the turn that does by `return` or `revert`.",
        ],
    );
}

// How a turn ends with an owner that it began with, where it shares the object.
fn help_to_share(case: &Case<'_>, place: Place, words: &mut Words) {
    say(
        words,
        &[
            "share `",
            name_of(case, place),
            "` before the loop or after it, or end the turn that does by `return` or `revert`.",
        ],
    );
}

// How a turn ends without an owner that it began without.
fn help_to_give(place: Place, is_set: bool, words: &mut Words) {
    words.put(match place {
        Place::Field(_) if !is_set => {
            "give the field its value before the loop or after it: a loop may run no turn, or many."
        }
        Place::Field(_) => "give on what the field holds, or `disown` it, before the block ends.",
        _ => {
            "give it on, or `disown` it, before the block ends; or declare a variable of the block's own for it."
        }
    });
}

// How a turn ends as it began.
fn help_with_turn(case: &Case<'_>, difference: Difference, words: &mut Words) {
    match (
        difference.head,
        mode_of(difference.head),
        mode_of(difference.end),
    ) {
        (Some(head), Some(Mode::Owned), Some(Mode::Owned)) => match difference.place {
            Place::This => help_with_state_of_this(case, head.permission, words),
            _ => help_with_state(case, difference, head, words),
        },
        (_, Some(Mode::Owned), Some(Mode::Shared)) => help_to_share(case, difference.place, words),
        (_, Some(Mode::Owned), _) => help_to_keep(case, difference.place, words),
        (head, _, Some(Mode::Owned)) => help_to_give(difference.place, head.is_some(), words),
        _ => words.put(
            "end the block with it held as before, or declare a variable of the block's own for what is held otherwise.",
        ),
    }
}

/// Explains a turn of a loop that ends otherwise than it began.
pub fn explain_turn(case: &Case<'_>, told: &mut Explanation) {
    let difference = match &case.trace.other {
        Some(end) => differing_place(case, end),
        None => None,
    };
    let Some(difference) = difference else {
        return told
            .what
            .put("a turn of this `while` ends otherwise than it began");
    };
    say_difference(case, &mut told.what, difference);
    if let Some(head) = difference.head {
        say_how(case, difference, head.permission, &mut told.note);
    }
    help_with_turn(case, difference, &mut told.help);
}
