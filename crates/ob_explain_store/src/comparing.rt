//! Two programs: the one with which a store was begun, and another one.
ghost use Rattle.std.specs.Prelude.{string_bytes, IfOk};
ghost use Rattle.ob_explain_page.specs.Pages.{IsPage};

use crate::areas::Areas;
use crate::lines::{page_of, words_of};
use crate::records::image_of;
use ob_base::{Items, Memory};
use ob_code::{
    BodyCode, CodeText, ContractCode, FieldCode, Image, ParamCode, PermCode, TypeCode, decode,
};
use ob_explain_page::{Explanation, Words, word_of};
use ob_front::{Seen, compile};
use std::alloc::Global;

// Whether two permissions are the same.
fn is_same_perm(a: PermCode, b: PermCode) -> bool {
    a.mode == b.mode && a.states == b.states
}

// Whether two types of fields or results are the same.
fn is_same_type(a: TypeCode, b: TypeCode) -> bool {
    match (a, b) {
        (TypeCode::Int, TypeCode::Int) => true,
        (TypeCode::Bool, TypeCode::Bool) => true,
        (TypeCode::Text, TypeCode::Text) => true,
        (TypeCode::Reference(c, p), TypeCode::Reference(d, q)) => {
            c.0 == d.0 && is_same_perm(p, q)
        }
        _ => false,
    }
}

// Whether two types of parameters are the same.
fn is_same_param(a: ParamCode, b: ParamCode) -> bool {
    match (a, b) {
        (ParamCode::Int, ParamCode::Int) => true,
        (ParamCode::Bool, ParamCode::Bool) => true,
        (ParamCode::Text, ParamCode::Text) => true,
        (ParamCode::Reference(c, p, x), ParamCode::Reference(d, q, y)) => {
            c.0 == d.0 && is_same_perm(p, q) && is_same_perm(x, y)
        }
        _ => false,
    }
}

// Whether two results are the same.
fn is_same_result(a: Option<TypeCode>, b: Option<TypeCode>) -> bool {
    match (a, b) {
        (Some(a), Some(b)) => is_same_type(a, b),
        (None, None) => true,
        _ => false,
    }
}

// What two programs declare, whatever the code of their transactions is.
trait Declared {
    // Whether both are declared alike.
    fn is_alike(&self, other: &Self) -> bool;
}

// The first place at which two rows differ, or at which one ends.
fn first_other<T: Declared>(a: &[T], b: &[T]) -> Option<usize> {
    for (place, one) in a.iter().enumerate() {
        match b.get(place) {
            Some(other) if one.is_alike(other) => {}
            _ => return Some(place),
        }
    }
    if a.len() < b.len() {
        Some(a.len())
    } else {
        None
    }
}

impl Declared for CodeText {
    fn is_alike(&self, other: &CodeText) -> bool {
        self.as_bytes() == other.as_bytes()
    }
}

impl Declared for FieldCode {
    fn is_alike(&self, other: &FieldCode) -> bool {
        self.name.is_alike(&other.name)
            && self.available == other.available
            && is_same_type(self.of, other.of)
    }
}

impl Declared for ParamCode {
    fn is_alike(&self, other: &ParamCode) -> bool {
        is_same_param(*self, *other)
    }
}

impl Declared for BodyCode {
    fn is_alike(&self, other: &BodyCode) -> bool {
        self.name.is_alike(&other.name)
            && self.flags == other.flags
            && is_same_perm(self.entry, other.entry)
            && is_same_perm(self.exit, other.exit)
            && first_other(self.params.as_slice(), other.params.as_slice()).is_none()
            && is_same_result(self.result, other.result)
    }
}

impl Declared for ContractCode {
    fn is_alike(&self, other: &ContractCode) -> bool {
        self.name.is_alike(&other.name)
            && self.flags == other.flags
            && self.implements == other.implements
            && first_other(self.states.as_slice(), other.states.as_slice()).is_none()
            && first_other(self.fields.as_slice(), other.fields.as_slice()).is_none()
            && first_other(self.bodies.as_slice(), other.bodies.as_slice()).is_none()
    }
}

// What there is at a place, by its name; or that there is nothing.
fn put_named(what: &mut Words, name: Option<&CodeText>) {
    match name {
        Some(name) if name.as_bytes().is_empty() => what.put("its constructor"),
        Some(name) => what.put_with("`{}`", &[word_of(name.as_bytes())]),
        None => what.put("none"),
    }
}

// Which part of a contract differs first: what the store has there, and what P has.
fn say_part(what: &mut Words, part: &str, stored: Option<&CodeText>, own: Option<&CodeText>) {
    what.put_with(
        " differs in its {}: the first that isn't the same is ",
        &[part],
    );
    put_named(what, stored);
    what.put(" in the store's program, and ");
    put_named(what, own);
    what.put(" in this one.");
}

// The name at a place among bodies.
fn body_name(bodies: &Items<BodyCode>, place: usize) -> Option<&CodeText> {
    match bodies.get(place) {
        Some(body) => Some(&body.name),
        None => None,
    }
}

// The name at a place among fields.
fn field_name(fields: &Items<FieldCode>, place: usize) -> Option<&CodeText> {
    match fields.get(place) {
        Some(field) => Some(&field.name),
        None => None,
    }
}

// The first part in which two contracts of one name are declared otherwise, if there is one.
fn say_parts(what: &mut Words, stored: &ContractCode, own: &ContractCode) {
    if stored.flags != own.flags || stored.implements != own.implements {
        what.put(
            " differs in what it is marked as (`asset`, `main`, an interface), or in what it implements.",
        );
    } else if let Some(at) = first_other(stored.states.as_slice(), own.states.as_slice()) {
        say_part(what, "states", stored.states.get(at), own.states.get(at));
    } else if let Some(at) = first_other(stored.fields.as_slice(), own.fields.as_slice()) {
        let (a, b) = (field_name(&stored.fields, at), field_name(&own.fields, at));
        say_part(what, "fields", a, b);
    } else if let Some(at) = first_other(stored.bodies.as_slice(), own.bodies.as_slice()) {
        let (a, b) = (body_name(&stored.bodies, at), body_name(&own.bodies, at));
        say_part(what, "transactions", a, b);
    }
}

// A contract that only one of two programs has.
fn say_alone(what: &mut Words, contract: &ContractCode, whose: &str) {
    what.put_with("`{}` is in ", &[word_of(contract.name.as_bytes())]);
    what.put_with("{} alone.", &[whose]);
}

// Two contracts that stand at one place and differ.
fn say_pair(what: &mut Words, stored: &ContractCode, own: &ContractCode) {
    let (name, other) = (
        word_of(stored.name.as_bytes()),
        word_of(own.name.as_bytes()),
    );
    if stored.name.is_alike(&own.name) {
        what.put_with("`{}`", &[name]);
        say_parts(what, stored, own);
    } else {
        what.put_with("where the store's program has `{}`, ", &[name]);
        what.put_with("this one has `{}`.", &[other]);
    }
}

// The contracts at a place.
fn say_contracts(what: &mut Words, stored: &Image, own: &Image, place: usize) {
    match (stored.contracts.get(place), own.contracts.get(place)) {
        (Some(one), Some(other)) => say_pair(what, one, other),
        (Some(one), None) => say_alone(what, one, "the store's program"),
        (None, Some(other)) => say_alone(what, other, "this program"),
        (None, None) => {}
    }
}

/// What is done where two programs differ in code alone.
const SAME_CONTRACTS: &str =
    "serve with the text and the `obsidian` with which the store was begun. An operator on another line is another code, since the abort `overflow` tells its line; and another version of `obsidian` may make another code of the same text.";

/// What is done else.
const OTHER_CONTRACTS: &str =
    "serve with the text with which the store was begun. No command brings a store to another program: see 'The program of a store' in docs/GUIDE.md.";

// In what two programs differ.
fn say_difference(told: &mut Explanation, stored: &Image, own: &Image) {
    match first_other(stored.contracts.as_slice(), own.contracts.as_slice()) {
        Some(place) => {
            say_contracts(&mut told.what, stored, own, place);
            told.help.put(OTHER_CONTRACTS);
        }
        None => {
            told.what.put(
                "both have the same contracts, states, fields and heads of transactions; they differ in the code of these alone.",
            );
            told.help.put(SAME_CONTRACTS);
        }
    }
}

// The same, where the code of a store is none that can be read.
fn say_unread(told: &mut Explanation) {
    told.what.put(
        "its code can't be read: it was changed, or another version of `obsidian` made it.",
    );
    told.help.put(OTHER_CONTRACTS);
}

// In what the program of a text differs from that with which a store was begun.
fn say_other(
    alloc: Global,
    told: &mut Explanation,
    text: &[u8],
    image: &[u8],
) -> Result<(), Memory> {
    let Ok(stored) = decode(alloc, image) else {
        say_unread(told);
        return Ok(());
    };
    let mut seen = Seen::new(alloc);
    let Ok(program) = compile(alloc, text, &mut seen) else {
        return Err(Memory);
    };
    say_difference(told, &stored, program.code.image());
    Ok(())
}

/// Tells a person in what the program of a text differs from the one with which a store was begun, by the areas of the store:
/// the first contract that is declared otherwise, or that all are declared alike.
pub fn explain_other_program(
    alloc: Global,
    name: &str,
    text: &[u8],
    areas: Areas<'_>,
) -> Result<String, Memory>
    ensures { IfOk result (λ page. IsPage (string_bytes page)) }
{
    let mut told = Explanation::new(alloc);
    match image_of(areas.current()) {
        Some(image) => say_other(alloc, &mut told, text, image)?,
        None => say_unread(&mut told),
    }
    page_of(alloc, name, words_of(alloc, "615 OtherProgram"), told)
}
