//! A call on `this` behind which its state isn't known.

use crate::case::Case;
use crate::holding::say;
use crate::own::{put_declared, put_this};
use crate::ways::{OwnCall, way_of};
use ob_explain_page::{Words, word_of};
use ob_perm::subset;
use ob_silica::Place;
use ob_table::Kind;

/// The call on `this` behind which it may be in other states than these, where it was in these before.
pub fn forgetting<'a>(case: &Case<'a>, states: u64) -> Option<OwnCall<'a>> {
    let call = way_of(case, Place::This).call?;
    if subset(call.before.states, states) && !subset(call.signature.exit.states, states) {
        Some(call)
    } else {
        None
    }
}

/// Says what the call does.
pub fn say_forgotten(case: &Case<'_>, call: OwnCall<'_>, words: &mut Words) {
    let name = word_of(call.signature.name.as_bytes());
    say(words, &["`", name, "()`, called in line "]);
    words.put_number(u64::from(call.line));
    words.put(", takes `");
    put_this(case, words, call.signature.entry);
    words.put("`");
    if call.signature.entry.states != call.signature.exit.states {
        words.put(" and leaves `");
        put_this(case, words, call.signature.exit);
        words.put("`");
    }
    words.put(", so what was known of the state is forgotten.");
}

/// Puts how the called transaction is declared, so that the state is known behind it.
pub fn put_remembering(case: &Case<'_>, call: OwnCall<'_>, words: &mut Words) {
    let name = word_of(call.signature.name.as_bytes());
    let kind = Kind::Reference(case.frame.here());
    say(words, &["declare `", name, "("]);
    put_declared(case, words, kind, call.before, call.before, "this");
    words.put(if call.signature.params.is_empty() {
        ")`"
    } else {
        ", ..)`"
    });
}
