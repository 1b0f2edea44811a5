//! What is held of places, in the language's own words.

use ob_base::{
    FieldId, Mode, NO_STATE_BIT, OTHER_STATE_BIT, Perm, Span, StateId, is_letter_or_digit,
};
use ob_explain_page::{Words, shown_at, word_of};
use ob_flow_context::{BodyFrame, kind_of, permission_of_type};
use ob_perm::subset;
use ob_table::{Contract, Kind, ResolvedType, Table};

/// Puts parts one after another.
pub fn say(words: &mut Words, parts: &[&str]) {
    for part in parts {
        words.put(part);
    }
}

fn has_bit(states: u64, bit: u8) -> bool {
    bit < 64 && (states >> u32::from(bit)) & 1 == 1
}

// All states of a contract.
fn all_of(contract: &Contract) -> u64 {
    let mut all = 0;
    for number in 0..contract.states.len() {
        if number < 32 {
            all |= 1 << (number as u32);
        }
    }
    all
}

/// Whether an object has no state yet, as while it is made.
pub fn has_no_state(perm: Perm) -> bool {
    has_bit(perm.states, NO_STATE_BIT)
}

// Whether a state of this number is among some.
fn is_among(states: u64, number: usize) -> bool {
    number < 32 && has_bit(states, number as u8)
}

/// The first state of a contract among some.
pub fn first_of(contract: &Contract, states: u64) -> Option<StateId> {
    for number in 0..contract.states.len() {
        if number < 32 && has_bit(states, number as u8) {
            return Some(StateId(number as u8));
        }
    }
    None
}

/// Whether a contract has some of these states.
pub fn has_state_among(contract: &Contract, states: u64) -> bool {
    first_of(contract, states).is_some()
}

// Whether no state yet is one of those that are put.
fn has_none_yet(contract: &Contract, states: u64) -> bool {
    has_bit(states, NO_STATE_BIT) && !contract.states.is_empty()
}

// Whether there is something to put of states.
fn has_states(contract: &Contract, states: u64) -> bool {
    first_of(contract, states).is_some()
        || has_bit(states, OTHER_STATE_BIT)
        || has_none_yet(contract, states)
}

// A state after others, with `|` between.
fn put_state(words: &mut Words, is_first: bool, name: &str) {
    if !is_first {
        words.put("|");
    }
    words.put(name);
}

/// Puts states of a contract as a permission names them.
pub fn put_states(words: &mut Words, contract: &Contract, states: u64) {
    let mut is_first = true;
    for number in 0..contract.states.len() {
        if is_among(states, number) {
            if let Some(name) = contract.states.get(number) {
                put_state(words, is_first, word_of(name.as_bytes()));
                is_first = false;
            }
        }
    }
    if has_bit(states, OTHER_STATE_BIT) {
        put_state(words, is_first, "(a state that it doesn't name)");
        is_first = false;
    }
    if has_none_yet(contract, states) {
        put_state(words, is_first, "(no state yet)");
    }
}

// Whether an owner knows no more of the state than that it is one.
fn knows_all(contract: &Contract, perm: Perm) -> bool {
    let known = !contract.interface || has_bit(perm.states, OTHER_STATE_BIT);
    known && !has_no_state(perm) && subset(all_of(contract), perm.states)
}

// A permission on a contract's object.
fn put_perm(words: &mut Words, contract: &Contract, perm: Perm) {
    match perm.mode {
        Mode::Shared => words.put("Shared"),
        Mode::Unowned => words.put("Unowned"),
        Mode::Owned => {
            if knows_all(contract, perm) || !has_states(contract, perm.states) {
                words.put("Owned");
            } else {
                put_states(words, contract, perm.states);
            }
        }
    }
}

// The contract of a kind.
fn contract_of<'a>(table: &'a Table, kind: Kind) -> Option<&'a Contract> {
    match kind {
        Kind::Reference(id) => table.contract(id),
        _ => None,
    }
}

/// The name of a contract, or of a kind of values.
pub fn name_of_kind<'a>(table: &'a Table, kind: Kind) -> &'a str {
    match kind {
        Kind::Reference(id) => match table.contract(id) {
            Some(contract) => word_of(contract.name.as_bytes()),
            None => "?",
        },
        Kind::Int => "int",
        Kind::Bool => "bool",
        Kind::Text => "string",
    }
}

/// Puts a kind with a permission, as `C@Owned`.
pub fn put_held(words: &mut Words, table: &Table, kind: Kind, perm: Perm) {
    words.put(name_of_kind(table, kind));
    if let Some(contract) = contract_of(table, kind) {
        words.put("@");
        put_perm(words, contract, perm);
    }
}

/// Puts what stands behind the `@` of a kind with a permission; of a value its kind.
pub fn put_permission(words: &mut Words, table: &Table, kind: Kind, perm: Perm) {
    match contract_of(table, kind) {
        Some(contract) => put_perm(words, contract, perm),
        None => words.put(name_of_kind(table, kind)),
    }
}

/// Puts the same as it can be written: of a state that an interface doesn't name only that it is owned can be said.
pub fn put_written(words: &mut Words, table: &Table, kind: Kind, perm: Perm) {
    if has_bit(perm.states, OTHER_STATE_BIT) {
        words.put("Owned");
    } else {
        put_permission(words, table, kind, perm);
    }
}

/// Puts a type.
pub fn put_type(words: &mut Words, table: &Table, of: ResolvedType) {
    put_held(words, table, kind_of(of), permission_of_type(of));
}

// The letters that a text ends with.
fn last_word(text: &str) -> &str {
    let length = text
        .as_bytes()
        .iter()
        .rev()
        .take_while(|byte| is_letter_or_digit(**byte))
        .count();
    text.get(text.len().saturating_sub(length)..).unwrap_or("")
}

// Whether a text can be the type of a variable.
fn is_type(text: &str) -> bool {
    let fits = text.bytes().all(|byte| is_letter_or_digit(byte) || b"[]@| \t".contains(&byte));
    fits && !text.is_empty()
}

// The text from a place on, as far as a statement's first words may go.
fn text_from(text: &[u8], at: Span) -> &str {
    shown_at(
        text,
        Span {
            start: at.start,
            end: at.start.saturating_add(400),
            line: at.line,
            column: at.column,
        },
    )
}

// What stands before the name to which the statement at a place gives a value, and the name, behind which stands an `=`.
fn given_name_at(text: &[u8], at: Span) -> Option<(&str, &str)> {
    let (front, behind) = text_from(text, at).split_once('=')?;
    let front = front.trim_end();
    let name = last_word(front);
    if name.is_empty() || behind.starts_with("=") {
        return None;
    }
    let before = front.get(..front.len().saturating_sub(name.len()))?;
    Some((before.trim_end(), name))
}

/// The name that the statement at a place declares: its type stands before it.
pub fn declared_at(text: &[u8], at: Span) -> Option<&str> {
    match given_name_at(text, at) {
        Some((before, name)) if is_type(before) => Some(name),
        _ => None,
    }
}

/// The name that the statement at a place assigns: nothing stands before it.
pub fn assigned_at(text: &[u8], at: Span) -> Option<&str> {
    match given_name_at(text, at) {
        Some((before, name)) if before.is_empty() => Some(name),
        _ => None,
    }
}

/// The name of a field.
pub fn name_of_field<'a>(frame: &BodyFrame<'a>, field: FieldId) -> &'a str {
    match frame.own().field(field) {
        Some(field) => word_of(field.name.as_bytes()),
        None => "?",
    }
}

/// The first state of a set of states of a contract, or `S`.
pub fn first_state<'a>(contract: &'a Contract, states: u64) -> &'a str {
    let name = match first_of(contract, states) {
        Some(state) => contract.states.get(usize::from(state.0)),
        None => None,
    };
    match name {
        Some(name) => word_of(name.as_bytes()),
        None => "S",
    }
}

/// The name of the transaction, or of the constructor's contract.
pub fn name_of_body<'a>(frame: &BodyFrame<'a>) -> &'a str {
    if frame.constructs() {
        word_of(frame.own().name.as_bytes())
    } else {
        word_of(frame.signature().name.as_bytes())
    }
}
