//! What is owned is in another state than is wanted, or may be.

use crate::case::Case;
use crate::holding::{first_of, first_state, put_states, say};
use crate::own::put_change;
use crate::permissions::{help_with_param, is_of_its_own, named, put_test};
use crate::uses::Use;
use ob_base::{Mode, Perm};
use ob_explain_page::{Explanation, Words, word_of};
use ob_perm::{meets, subset};
use ob_silica::Place;
use ob_table::{Contract, Param, ResolvedType, Signature};

// Whether a transaction leads from some states into others.
fn leads(signature: &Signature, from: u64, to: u64) -> bool {
    let (entry, exit) = (signature.entry, signature.exit);
    let takes = entry.mode == Mode::Owned && subset(from, entry.states);
    let gives = exit.mode == Mode::Owned && subset(exit.states, to);
    takes && gives && !signature.private && !signature.name.as_bytes().is_empty()
}

// The first transaction that leads from some states into others.
fn leading(contract: &Contract, from: u64, to: u64) -> Option<&Signature> {
    for signature in contract.transactions.as_slice() {
        if leads(signature, from, to) {
            return Some(signature);
        }
    }
    None
}

// Puts a call on an operand, or on what it is put into.
fn put_call(case: &Case<'_>, place: Place, signature: &Signature, words: &mut Words) {
    let arguments = if signature.params.is_empty() {
        "();`"
    } else {
        "(..);`"
    };
    let name = word_of(signature.name.as_bytes());
    match named(case, place) {
        Some(named) => say(words, &["call `", named, ".", name, arguments]),
        None => say(
            words,
            &["put it into a variable `x`, and call `x.", name, arguments],
        ),
    }
}

// How to come to a state in which it isn't.
fn help_to_lead(case: &Case<'_>, place: Place, contract: &Contract, to: u64, words: &mut Words) {
    let held = case.context().counted(place);
    if let (Place::This, Some(state)) = (place, first_of(contract, to)) {
        words.put("change to it before this, as by ");
        put_change(case, words, state, &[]);
        return words.put(".");
    }
    let Some(signature) = leading(contract, held.states, to) else {
        words.put("give one that is in `");
        put_states(words, contract, to);
        return words.put("`.");
    };
    let name = word_of(signature.name.as_bytes());
    say(words, &["`", name, "` leads to `"]);
    put_states(words, contract, to);
    words.put("`: ");
    put_call(case, place, signature, words);
    words.put(" before this.");
}

// Says that a test is of no use, since the state is known.
fn say_known(contract: &Contract, to: u64, words: &mut Words) {
    words.put("it is known not to be in `");
    put_states(words, contract, to);
    words.put("` here, so a test of that never holds.");
}

// The parameter that can be declared as it is wanted.
fn param_to_declare<'a>(case: &Case<'a>, one: Use<'_>) -> Option<&'a Param> {
    match one.operand.place {
        Place::Slot(slot) if is_of_its_own(case, one) => case.param_of(slot),
        _ => None,
    }
}

// How to know that it is in a state.
fn help_with_state(case: &Case<'_>, one: Use<'_>, state: &str, words: &mut Words) {
    let Some(name) = named(case, one.operand.place) else {
        words.put("put it into a variable, and test the state of that, as in `if (x in ");
        return say(words, &[state, ") { .. }`."]);
    };
    words.put("test the state first: ");
    put_test(case, words, name, state);
    if let Some(param) = param_to_declare(case, one) {
        words.put("; or ");
        help_with_param(case, one, param, words);
    }
    words.put(".");
}

// Of a permission that is wanted on a contract or interface.
fn explain_wanted(
    case: &Case<'_>,
    one: Use<'_>,
    contract: &Contract,
    wanted: Perm,
    told: &mut Explanation,
) {
    let place = one.operand.place;
    let held = case.context().counted(place).states;
    if !is_of_its_own(case, one) {
        let state = first_state(contract, wanted.states);
        return help_with_state(case, one, state, &mut told.help);
    }
    if meets(held, wanted.states) {
        let state = first_state(contract, held & wanted.states);
        return help_with_state(case, one, state, &mut told.help);
    }
    say_known(contract, wanted.states, &mut told.note);
    help_to_lead(case, place, contract, wanted.states, &mut told.help);
}

/// What is owned isn't in a state that is wanted, or may be in another one.
pub fn explain_state(case: &Case<'_>, one: Use<'_>, told: &mut Explanation) {
    if let Some(ResolvedType::Reference(id, wanted)) = one.wanted {
        if let Some(contract) = case.frame.table().contract(id) {
            explain_wanted(case, one, contract, wanted, told);
        }
    }
}
