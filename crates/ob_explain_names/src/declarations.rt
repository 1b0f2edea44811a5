//! Declarations: states and fields that there aren't, exits, owners, limits.

use crate::kinds::name_of_contract;
use crate::naming::{put_meant, see_names};
use crate::near::Near;
use crate::sites::Site;
use ob_explain_page::{Explanation, Nearest, Words, word_of};
use ob_resolve_scope::{Names, kind_of_variable};
use ob_resolve_spec::InferredKind;
use ob_tree::ContractNode;

// The contract whose state is named at a place.
fn contract_of_state(site: &Site<'_>) -> usize {
    let near = &site.near;
    let own = site.around.number();
    let named = match near.back(1) {
        "->" => "",
        "in" => near.back(2),
        _ => near.held_name(),
    };
    if let Some(number) = site.contract_named(named) {
        return number;
    }
    match kind_of_variable(&site.around, &site.scope, named.as_bytes()) {
        InferredKind::Reference(number) => number,
        _ => own,
    }
}

// Puts names as a list.
fn put_names(words: &mut Words, names: &Names) {
    for place in 0..names.len() {
        if let Some(name) = names.name(place) {
            words.put(if place == 0 { "" } else { ", " });
            words.put_with("`{}`", &[word_of(name)]);
        }
    }
}

// Puts the names after a text of which they are, or another text where there are none.
fn put_listed(words: &mut Words, lead: &str, none: &str, of: &str, names: &Names) {
    if names.len() == 0 {
        words.put_with(none, &[of]);
        return;
    }
    words.put_with(lead, &[of]);
    put_names(words, names);
    words.put(".");
}

// Puts a question whether the nearest of some names was meant.
fn put_nearest(words: &mut Words, name: &str, names: &Names) {
    let mut nearest = Nearest::to(name.as_bytes());
    see_names(&mut nearest, names);
    put_meant(words, nearest.found());
}

/// The words that may stand in the place of states.
const HELD: [&str; 3] = ["Owned", "Shared", "Unowned"];

// The same of states, or of what is held, or of the permission parameter.
fn put_nearest_held(words: &mut Words, site: &Site<'_>, name: &str, states: &Names) {
    let mut nearest = Nearest::to(name.as_bytes());
    see_names(&mut nearest, states);
    for word in &HELD {
        let held = *word;
        nearest.see(held.as_bytes());
    }
    if let Some(within) = &site.within {
        nearest.see(within.perm_param().as_bytes());
    }
    put_meant(words, nearest.found());
}

// Whether the state at a place is tested or changed to, and isn't held.
fn is_asked(near: &Near<'_>) -> bool {
    ["->", "in"].contains(&near.back(1)) || near.ahead(1) == "::"
}

// Puts the states that there are.
fn put_states(words: &mut Words, of: &str, states: &Names) {
    put_listed(
        words,
        "the states of `{}`: ",
        "`{}` has no states; `Owned`, `Shared` and `Unowned` are written so.",
        of,
        states,
    );
}

// The states that there are, and which was meant.
fn explain_states(told: &mut Explanation, site: &Site<'_>, of: &str, states: &Names) {
    put_states(&mut told.note, of, states);
    let name = site.near.word();
    if is_asked(&site.near) {
        put_nearest(&mut told.help, name, states);
    } else {
        put_nearest_held(&mut told.help, site, name, states);
    }
}

// The mode for which a name stands among states: that of the argument, if it is the permission parameter's.
fn mode_at<'a>(site: &Site<'a>, name: &str) -> Option<&'a str> {
    if is_asked(&site.near) {
        return None;
    }
    let perm = site.within?.perm_of(name)?;
    if HELD.contains(&perm) {
        Some(perm)
    } else {
        None
    }
}

// A mode in the place of a state, and the states that there are.
fn explain_mode(told: &mut Explanation, name: &str, mode: &str, of: &str, states: &Names) {
    told.what.put_with(
        "`{}` stands for `{}` here, which is no state of `{}`",
        &[name, mode, of],
    );
    put_states(&mut told.note, of, states);
    if states.find(name.as_bytes()).is_some() {
        told.help.put_with(
            "give the permission parameter another name if the state `{}` is meant.",
            &[name],
        );
    }
}

/// A state that a contract doesn't have.
pub fn explain_state(told: &mut Explanation, site: &Site<'_>) {
    let name = site.near.word();
    let number = contract_of_state(site);
    let of = name_of_contract(site.types(), number);
    match (mode_at(site, name), site.types().states(number)) {
        (Some(mode), Some(states)) => explain_mode(told, name, mode, of, states),
        (_, states) => {
            told.what.put_with("`{}` has no state `{}`", &[of, name]);
            if let Some(states) = states {
                explain_states(told, site, of, states);
            }
        }
    }
}

// The fields that there are.
fn explain_fields(told: &mut Explanation, name: &str, own: &str, fields: &Names) {
    put_listed(
        &mut told.note,
        "the fields of `{}`: ",
        "`{}` has no fields.",
        own,
        fields,
    );
    put_nearest(&mut told.help, name, fields);
}

/// A field that the contract doesn't have.
pub fn explain_field(told: &mut Explanation, site: &Site<'_>) {
    let name = site.near.word();
    let own = site.own_name();
    told.what.put_with("`{}` has no field `{}`", &[own, name]);
    if let Some(members) = site.around.members() {
        explain_fields(told, name, own, &members.fields);
    }
}

// An exit that can't follow its entry.
fn explain_other_exit(told: &mut Explanation, entry: &str, exit: &str) {
    told.what.put_with(
        "what comes in as `{}` can't be `{}` at the end",
        &[entry, exit],
    );
    told.note.put(
        "after `Unowned` an exit is `Unowned`, and after `Shared` it is `Shared`: only what comes in as an owner's may be held otherwise at the end.",
    );
    told.help.put_with(
        "write `{}` alone, or come in as `Owned` or with states.",
        &[entry],
    );
}

// A constructor that gives Unowned.
fn explain_given(told: &mut Explanation) {
    told.what.put("a constructor gives an object to own or to share, and not `Unowned`");
    told.help.put("write `Owned`, `Shared`, or states.");
}

/// An exit that can't follow its entry, or a constructor that gives Unowned.
pub fn explain_exit(told: &mut Explanation, near: &Near<'_>) {
    if near.back(1) == ">>" {
        explain_other_exit(told, near.back(2), near.word());
    } else {
        explain_given(told);
    }
}

/// A contract that is no asset and owns one.
pub fn explain_owner(told: &mut Explanation, site: &Site<'_>) {
    let name = site.near.word();
    let own = word_of(site.around.node().name.as_bytes());
    let of = site.near.held_type();
    told.what.put_with("the field `{}` owns ", &[name]);
    told.what.put_a(of);
    told.what.put_with(
        ", which is an asset, and `{}` is none: with it the asset could be lost",
        &[own],
    );
    told.help.put_with(
        "write `asset contract {}`, or hold the field as `{}@Shared` or `{}@Unowned`.",
        &[site.own_name(), of, of],
    );
}

// What a limit counts that is no contract and no member, and how many there may be, by where the name stands.
fn counted_inside(site: &Site<'_>) -> &'static str {
    if site.statement.is_some() {
        "128 variables and parts of expressions of a body at once, with `this`"
    } else if site.member.is_some() {
        "16 parameters beside `this`"
    } else {
        "64 fields of a contract"
    }
}

// What a limit counts, and how many there may be, by the token before the name.
fn counted(site: &Site<'_>) -> &'static str {
    match site.near.back(1) {
        "state" => "32 states of a contract",
        "transaction" => "256 transactions of a contract",
        "contract" | "interface" => "1024 contracts and interfaces",
        _ => counted_inside(site),
    }
}

// A name with which there are more than so many things.
fn put_more(words: &mut Words, name: &str, things: &str) {
    words.put_with("with `{}` there are more than {}", &[name, things]);
}

/// A number that passes its limit.
pub fn explain_limit(told: &mut Explanation, site: &Site<'_>, place: u32) {
    if place == 0 {
        told.what.put("the program weighs more than 16777216 bytes, the most that one may");
        told.help.put(
            "say it in fewer statements and shorter texts: see 'Limits' in docs/GUIDE.md for what weighs.",
        );
    } else {
        put_more(&mut told.what, site.near.word(), counted(site));
    }
}

// The name of the first main contract.
fn first_main(nodes: &[ContractNode]) -> &str {
    for node in nodes {
        if node.main {
            return word_of(node.name.as_bytes());
        }
    }
    "?"
}

/// A second main contract.
pub fn explain_main(told: &mut Explanation, site: &Site<'_>) {
    told.what.put_with(
        "`{}` is a second main contract, and `{}` is one already",
        &[site.near.word(), first_main(site.types().nodes())],
    );
    told.help.put("a program has one: leave one `main` out.");
}
