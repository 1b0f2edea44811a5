//! Names that denote nothing, or something else than is needed.

use crate::hints::FOREIGN;
use crate::kinds::name_of_contract;
use crate::near::Near;
use crate::sites::Site;
use ob_base::is_letter;
use ob_explain_page::{Explanation, Nearest, Words, hint_for};
use ob_resolve_scope::{Names, kind_of_variable};
use ob_resolve_spec::InferredKind;
use ob_tree::Member;

/// What a name has to denote.
#[derive(Clone, Copy)]
enum Need {
    Contract,
    Interface,
    /// A contract of which there are objects.
    Object,
    /// A transaction of the contract around.
    Transaction,
    /// A transaction of a receiver's contract.
    TransactionOf(usize),
    Variable,
}

// Whether a token is written like a name.
fn is_name(word: &str) -> bool {
    match word.as_bytes().first() {
        Some(letter) => is_letter(*letter),
        None => false,
    }
}

// What the name after a dot has to denote.
fn need_after_dot(site: &Site<'_>) -> Need {
    let receiver = site.near.back(2);
    match kind_of_variable(&site.around, &site.scope, receiver.as_bytes()) {
        InferredKind::Reference(number) => Need::TransactionOf(number),
        _ => Need::Transaction,
    }
}

// Whether the name at a place is a type's, by the tokens after it.
fn is_type(site: &Site<'_>) -> bool {
    match site.near.ahead(1) {
        // An assertion begins with a bracket too, and no name stands before that.
        "@" => site.near.back(1) != "[" || is_name(site.near.back(2)),
        "[" => true,
        next => is_name(next) && site.near.ahead(2) == "=",
    }
}

// What the name at a place has to denote, by the tokens after it.
fn need_before(site: &Site<'_>) -> Need {
    if is_type(site) {
        Need::Contract
    } else if site.near.ahead(1) == "(" {
        Need::Transaction
    } else {
        Need::Variable
    }
}

// What the name at a place has to denote, by the tokens beside it.
fn need_at(site: &Site<'_>) -> Need {
    match site.near.back(1) {
        "new" => Need::Object,
        "implements" => Need::Interface,
        "." => need_after_dot(site),
        _ => need_before(site),
    }
}

// In words.
fn need_in_words(need: Need) -> &'static str {
    match need {
        Need::Contract => "a contract or an interface",
        Need::Interface => "an interface",
        Need::Object => "a contract",
        Need::Transaction => "a transaction",
        Need::TransactionOf(_) => "a transaction that others may call",
        Need::Variable => "a variable, a parameter or a field",
    }
}

/// Looks at names of a list.
pub fn see_names<'a>(nearest: &mut Nearest<'a>, names: &'a Names) {
    for place in 0..names.len() {
        if let Some(name) = names.name(place) {
            nearest.see(name);
        }
    }
}

// Looks at the names of contracts, and at that of the type parameter.
fn see_contracts<'a>(nearest: &mut Nearest<'a>, site: &'a Site<'_>, need: Need) {
    for node in site.written.contracts.as_slice() {
        let fits = match need {
            Need::Interface => node.interface,
            Need::Object => !node.interface,
            _ => true,
        };
        if fits {
            nearest.see(node.name.as_bytes());
        }
    }
    if let Some(within) = &site.within {
        nearest.see(within.param().as_bytes());
    }
}

// Looks at the names of a contract's transactions.
fn see_transactions<'a>(nearest: &mut Nearest<'a>, site: &'a Site<'_>, contract: usize) {
    if let Some(members) = site.around.declared().members(contract) {
        see_names(nearest, &members.transactions);
    }
}

// Whether a contract's transaction of this name is private.
fn is_private(site: &Site<'_>, contract: usize, name: &[u8]) -> bool {
    match site.around.declared().heading(contract, name) {
        Some(heading) => heading.private,
        None => false,
    }
}

// Looks at the names of the transactions of a contract that others may call.
fn see_callable<'a>(nearest: &mut Nearest<'a>, site: &'a Site<'_>, contract: usize) {
    let Some(members) = site.around.declared().members(contract) else {
        return;
    };
    for place in 0..members.transactions.len() {
        if let Some(name) = members.transactions.name(place) {
            if !is_private(site, contract, name) {
                nearest.see(name);
            }
        }
    }
}

// Looks at the names of the variables and fields that are visible.
fn see_variables<'a>(nearest: &mut Nearest<'a>, site: &'a Site<'_>) {
    for name in &site.variables {
        nearest.see(name.name.as_bytes());
    }
    if let Some(members) = site.around.declared().members(site.around.number()) {
        see_names(nearest, &members.fields);
    }
}

// The visible name that is nearest to this one, of those that are what is needed.
fn nearest_to<'a>(site: &'a Site<'_>, name: &'a str, need: Need) -> Option<&'a str> {
    let mut nearest = Nearest::to(name.as_bytes());
    match need {
        Need::Contract | Need::Interface | Need::Object => see_contracts(&mut nearest, site, need),
        Need::Transaction => see_transactions(&mut nearest, site, site.around.number()),
        Need::TransactionOf(contract) => see_callable(&mut nearest, site, contract),
        Need::Variable => see_variables(&mut nearest, site),
    }
    nearest.found()
}

/// Puts a question whether another name was meant, if one was found.
pub fn put_meant(words: &mut Words, found: Option<&str>) {
    if let Some(other) = found {
        words.put_with("did you mean `{}`?", &[other]);
    }
}

// Puts that a contract has nothing of a name.
fn put_unknown_in(words: &mut Words, of: &str, name: &str) {
    words.put_with(
        "`{}` has nothing of the name `{}`, and a transaction of it is needed here",
        &[of, name],
    );
}

// Puts that nothing of a name is visible where this is wanted.
fn put_unknown_where(words: &mut Words, name: &str, wanted: &str) {
    words.put_with(
        "nothing of the name `{}` is visible here, where {} is needed",
        &[name, wanted],
    );
}

// Puts what is said of a name that is nothing visible.
fn put_unknown(words: &mut Words, site: &Site<'_>, name: &str, need: Need) {
    match need {
        Need::TransactionOf(contract) => {
            put_unknown_in(words, name_of_contract(site.types(), contract), name);
        }
        _ => put_unknown_where(words, name, need_in_words(need)),
    }
}

// Puts a question whether the visible name that is nearest was meant.
fn put_nearest(words: &mut Words, site: &Site<'_>, name: &str, need: Need) {
    put_meant(words, nearest_to(site, name, need));
}

/// A name that is nothing visible.
pub fn explain_unknown(told: &mut Explanation, site: &Site<'_>) {
    let name = site.near.word();
    let need = need_at(site);
    put_unknown(&mut told.what, site, name, need);
    let foreign = hint_for(&FOREIGN, name);
    if foreign.is_empty() {
        put_nearest(&mut told.help, site, name, need);
    } else {
        told.help.put(foreign);
    }
}

/// What a name denotes.
#[derive(Clone, Copy)]
enum Thing {
    Variable,
    Contract,
    Interface,
    Field,
    State,
    Transaction,
    PrivateTransaction,
    Other,
}

// In words.
fn thing_in_words(thing: Thing) -> &'static str {
    match thing {
        Thing::Variable => "a variable",
        Thing::Contract => "a contract",
        Thing::Interface => "an interface",
        Thing::Field => "a field",
        Thing::State => "a state",
        Thing::Transaction => "a transaction",
        Thing::PrivateTransaction => "a private transaction",
        Thing::Other => "another thing",
    }
}

// The transaction that a name denotes in the contract of this number.
fn transaction_in(site: &Site<'_>, contract: usize, name: &str) -> Thing {
    match site.around.declared().heading(contract, name.as_bytes()) {
        Some(heading) => {
            if heading.private {
                Thing::PrivateTransaction
            } else {
                Thing::Transaction
            }
        }
        None => Thing::Other,
    }
}

// What a name denotes in the contract of this number.
fn thing_in(site: &Site<'_>, contract: usize, name: &str) -> Thing {
    if site
        .around
        .declared()
        .field(contract, name.as_bytes())
        .is_some()
    {
        Thing::Field
    } else if site.types().state(contract, name.as_bytes()).is_some() {
        Thing::State
    } else {
        transaction_in(site, contract, name)
    }
}

// The contract or interface of a number.
fn thing_at(site: &Site<'_>, contract: usize) -> Thing {
    if site.types().is_interface(contract) {
        Thing::Interface
    } else {
        Thing::Contract
    }
}

// What a visible name denotes.
fn thing_of<'a>(site: &Site<'a>, name: &'a str) -> Thing {
    if site.scope.variable(name.as_bytes()).is_some() {
        return Thing::Variable;
    }
    match site.contract_named(name) {
        Some(number) => thing_at(site, number),
        None => thing_in(site, site.around.number(), name),
    }
}

// What a name denotes where this is needed.
fn thing_where<'a>(site: &Site<'a>, name: &'a str, need: Need) -> Thing {
    match need {
        Need::TransactionOf(contract) => thing_in(site, contract, name),
        _ => thing_of(site, name),
    }
}

// How to mend a call of a private transaction of a contract, where another one is around.
fn help_with_private(contract: usize, own: usize) -> &'static str {
    if contract == own {
        "a private transaction is called on `this` alone: leave the receiver out, or `private` where it is declared."
    } else {
        "a private transaction is called in its own contract alone: leave `private` out where it is declared, or call one that calls it."
    }
}

// How to mend a name that denotes another thing in a contract, where the same is said of all names.
fn help_with_thing(thing: Thing, need: Need, own: usize) -> &'static str {
    match (thing, need) {
        (Thing::PrivateTransaction, Need::TransactionOf(contract)) => {
            help_with_private(contract, own)
        }
        (Thing::Field, Need::TransactionOf(_)) => {
            "another object's fields aren't visible: write a transaction there that returns the value."
        }
        (Thing::Interface, Need::Object) => {
            "an interface has no objects: name a contract that implements it."
        }
        (Thing::State, _) => "a state is tested by `if (x in {})`, and changed to by `->{};`.",
        _ => "",
    }
}

// How to mend a name that denotes another thing.
fn put_help(words: &mut Words, site: &Site<'_>, name: &str, thing: Thing, need: Need) {
    let help = help_with_thing(thing, need, site.around.number());
    if help.is_empty() {
        put_nearest(words, site, name, need);
    } else {
        words.put_with(help, &[name, name]);
    }
}

// Puts that a name is a thing where this is wanted.
fn put_other(words: &mut Words, name: &str, thing: &str, wanted: &str) {
    words.put_with("`{}` is {}, and {} is needed here", &[name, thing, wanted]);
}

// A name that denotes another thing.
fn explain_other<'a>(told: &mut Explanation, site: &Site<'a>, name: &'a str) {
    let need = need_at(site);
    let thing = thing_where(site, name, need);
    put_other(
        &mut told.what,
        name,
        thing_in_words(thing),
        need_in_words(need),
    );
    put_help(&mut told.help, site, name, thing, need);
}

// Whether the place is in a constructor.
fn is_in_constructor(site: &Site<'_>) -> bool {
    matches!(site.member, Some(Member::Constructor { .. }))
}

// Where `this` is a parameter.
fn explain_this(told: &mut Explanation, in_constructor: bool, own: &str) {
    told.what.put(
        "`this` can't be a parameter here: it is the first one of a transaction alone, and a reference",
    );
    told.help.put_with(
        if in_constructor {
            "a constructor has no `this`: leave it out."
        } else {
            "write it first, with the contract's own type, as `{}@Owned this`."
        },
        &[own],
    );
}

// A field of a state that says `available in`.
fn explain_available(told: &mut Explanation, name: &str) {
    told.what.put_with(
        "the field `{}` stands inside a state, so it is available there and can't say `available in`",
        &[name],
    );
    told.help.put("move the field out of the state, or leave `available in` out.");
}

// A value with a permission.
fn explain_value(told: &mut Explanation, name: &str) {
    told.what.put_with(
        "`{}` is a value, which has no permission after `>>`",
        &[name],
    );
    told.help.put("leave `>>` and the permission after it out.");
}

// Another contract, or an interface, where the contract around is needed.
fn explain_foreign(told: &mut Explanation, name: &str, thing: &str, own: &str) {
    told.what
        .put_with("`{}` is {}, and `{}` is needed here", &[name, thing, own]);
    told.help.put("`this` and a constructor have the type of the contract that they stand in.");
}

// Whether a permission behind `>>` stands before the place.
fn is_behind_exit(near: &Near<'_>) -> bool {
    for count in 1..128 {
        let token = near.back(count);
        if token == ">>" {
            return count > 1;
        }
        if token != "|" && !is_name(token) {
            return false;
        }
    }
    false
}

// Whether the name is a value's, after which a permission stands.
fn is_held_value(site: &Site<'_>) -> bool {
    if is_behind_exit(&site.near) {
        return true;
    }
    ["Owned", "Shared", "Unowned"].contains(&site.near.back(1))
        && matches!(need_at(site), Need::Variable)
}

// Whether another name than that of the contract around stands in a head where a type does.
fn is_in_head(site: &Site<'_>, name: &str) -> bool {
    let is_type = ["@", "["].contains(&site.near.ahead(1));
    site.member.is_some() && site.statement.is_none() && is_type && name != site.own_name()
}

// What a contract's name denotes where the contract around is needed; empty of other names.
fn foreign_thing<'a>(site: &Site<'a>, name: &'a str) -> &'static str {
    match thing_of(site, name) {
        Thing::Contract => "another contract",
        Thing::Interface => "an interface",
        _ => "",
    }
}

// The same, in a head.
fn foreign_in_head<'a>(site: &Site<'a>, name: &'a str) -> &'static str {
    if is_in_head(site, name) {
        foreign_thing(site, name)
    } else {
        ""
    }
}

// A name that is something else than is needed.
fn explain_thing<'a>(told: &mut Explanation, site: &Site<'a>, name: &'a str) {
    let foreign = foreign_in_head(site, name);
    if foreign.is_empty() {
        explain_other(told, site, name);
    } else {
        explain_foreign(told, name, foreign, site.own_name());
    }
}

/// A name that is something else than is needed, or a part that can't stand with it.
pub fn explain_kind(told: &mut Explanation, site: &Site<'_>) {
    let name = site.near.word();
    if name == "this" {
        explain_this(told, is_in_constructor(site), site.own_name());
    } else if site.near.ahead(1) == "available" {
        explain_available(told, name);
    } else if is_held_value(site) {
        explain_value(told, name);
    } else {
        explain_thing(told, site, name);
    }
}
