//! Objects, and runs of code on them, as words tell them. Each word begins with a mark of one character.
use crate::page::Page;
use crate::question::{bytes_in, text_in};
use ob_base::{ContractId, FieldId, Items, ObjectId, StateId, TxId};
use ob_heap::{Fields, Object, RcStr, Value};
use ob_machine::Entry;
use std::alloc::Global;

// What stands behind the mark of a word.
fn behind(word: &str) -> &str {
    word.get(1..).unwrap_or("")
}

fn mark_of(word: &str) -> u8 {
    match word.as_bytes().first() {
        Some(mark) => *mark,
        None => b' ',
    }
}

fn text_value(alloc: Global, digits: &str, page: &mut Page) -> Option<Value> {
    let bytes = bytes_in(alloc, digits, page);
    let made = RcStr::from_str(alloc, text_in(&bytes, page));
    Some(Value::Text(page.made(made)?))
}

/// The value that a word tells: `i-5`, `b1`, `x6162` or `o3`.
pub fn value_of(alloc: Global, word: &str, page: &mut Page) -> Option<Value> {
    let rest = behind(word);
    match mark_of(word) {
        b'i' => Some(Value::Int(rest.parse().ok()?)),
        b'b' => Some(Value::Bool(rest == "1")),
        b'o' => Some(Value::Object(ObjectId(rest.parse().ok()?))),
        b'x' => text_value(alloc, rest, page),
        _ => None,
    }
}

fn long_in(digits: &str, page: &mut Page) -> u32 {
    match digits.parse() {
        Ok(number) => number,
        Err(_) => {
            page.fail();
            0
        }
    }
}

fn byte_in(digits: &str, page: &mut Page) -> u8 {
    match digits.parse() {
        Ok(number) => number,
        Err(_) => {
            page.fail();
            0
        }
    }
}

fn put_field(alloc: Global, told: &str, object: &mut Object, page: &mut Page) {
    let (field, value) = told.split_once('=').unwrap_or((told, ""));
    let field = FieldId(byte_in(field, page));
    match value_of(alloc, value, page) {
        Some(value) => page.done(object.fields.put(field, value)),
        None => page.fail(),
    }
}

fn take_part(alloc: Global, word: &str, object: &mut Object, page: &mut Page) {
    let rest = behind(word);
    match mark_of(word) {
        b'c' => object.contract = ContractId(long_in(rest, page)),
        b'q' => object.state = Some(StateId(byte_in(rest, page))),
        b's' => object.shared = true,
        b'd' => object.disowned = true,
        b'f' => put_field(alloc, rest, object, page),
        _ => page.fail(),
    }
}

/// The object that these words tell: its contract, its state, its marks and its fields, as `c2 q0 s d f0=i5`.
pub fn object_of(alloc: Global, words: &str, page: &mut Page) -> Object {
    let mut object = Object {
        contract: ContractId(0),
        state: None,
        fields: Fields::new(alloc),
        shared: false,
        disowned: false,
    };
    for word in words.split_ascii_whitespace() {
        take_part(alloc, word, &mut object, page);
    }
    object
}

/// A run: what it enters, and how many units of fuel it and each of its slices has.
#[derive(Drop)]
pub struct ToldRun {
    /// What it enters.
    pub entry: Entry,
    /// The units of the run.
    pub fuel: u32,
    /// The units of a slice.
    pub slice: u32,
}

impl ToldRun {
    fn take(&mut self, alloc: Global, word: &str, page: &mut Page) {
        let rest = behind(word);
        match mark_of(word) {
            b'r' => self.entry.receiver = Some(ObjectId(long_in(rest, page))),
            b'c' => self.entry.contract = ContractId(long_in(rest, page)),
            b't' => self.entry.tx = TxId(long_in(rest, page)),
            b'l' => self.entry.lock = true,
            b'u' => self.fuel = long_in(rest, page),
            b'z' => self.slice = long_in(rest, page),
            _ => self.take_argument(alloc, word, page),
        }
    }

    fn take_argument(&mut self, alloc: Global, word: &str, page: &mut Page) {
        match value_of(alloc, word, page) {
            Some(value) => page.done(self.entry.args.push(value)),
            None => page.fail(),
        }
    }
}

/// The run that these words tell: the receiver, the contract, the body, arguments as values, whether it is locked, and the units, as
/// `r0 c3 t2 i5 l u1000 z10`.
pub fn run_of(alloc: Global, words: &str, page: &mut Page) -> ToldRun {
    let mut told = ToldRun {
        entry: Entry {
            receiver: None,
            contract: ContractId(0),
            tx: TxId(0),
            args: Items::new(alloc),
            lock: false,
        },
        fuel: 0,
        slice: 0,
    };
    for word in words.split_ascii_whitespace() {
        told.take(alloc, word, page);
    }
    told
}
