//! What runs of code come to.
ghost use Rattle.ob_heap.specs.Deltas.{IsDelta};

use crate::image::code_of;
use crate::page::Page;
use crate::question::Question;
use crate::told::{ToldRun, object_of, run_of};
use ob_base::{MOST_OBJECTS, Memory, ObjectId};
use ob_heap::{Content, Delta, Object, Overlay, Sequence, Value, apply, reserve};
use ob_machine::{Cause, Machine, Progress};
use ob_verify::Verified;
use std::alloc::Global;

// A content changes by a delta, if it has memory for it.
fn put_delta(content: &mut Content, delta: Delta, page: &mut Page)
    requires { IsDelta content.old delta }
{
    match reserve(content, &delta) {
        Ok(()) => apply(content, delta),
        Err(Memory) => page.fail(),
    }
}

// The object of a number is set, or put behind the others.
fn put_object(alloc: Global, content: &mut Content, id: ObjectId, object: Object, page: &mut Page) {
    if id.0 as usize > content.objects().len() {
        return page.fail();
    }
    let mut objects = Sequence::new(alloc);
    match objects.push((id, object)) {
        Ok(()) => {
            let handles = Sequence::new(alloc);
            put_delta(content, Delta { objects, handles }, page);
        }
        Err(Memory) => page.fail(),
    }
}

// Puts the objects that words tell behind the others.
fn put_objects(alloc: Global, content: &mut Content, words: &str, page: &mut Page) {
    for (number, item) in words.split(';').enumerate() {
        let object = object_of(alloc, item, page);
        match u32::try_from(number) {
            Ok(next) => put_object(alloc, content, ObjectId(next), object, page),
            Err(_) => page.fail(),
        }
    }
}

fn put_value(value: &Value, page: &mut Page) {
    match value {
        Value::Int(number) => {
            page.word("Int");
            page.show(number);
        }
        Value::Bool(truth) => {
            page.word("Bool");
            page.truth(*truth);
        }
        Value::Text(text) => {
            page.word("Text");
            page.bytes(text.as_str().as_bytes());
        }
        Value::Object(id) => {
            page.word("Object");
            page.number(u64::from(id.0));
        }
    }
}

fn put_cause(cause: &Cause, page: &mut Page) {
    match cause {
        Cause::Revert(text) => {
            page.word("revert");
            page.bytes(text.as_str().as_bytes());
        }
        Cause::State(id, state) => {
            page.word("state");
            page.number(u64::from(id.0));
            page.number_or_none(match state {
                Some(state) => Some(u32::from(state.0)),
                None => None,
            });
        }
        Cause::Reentry(id) => {
            page.word("reentry");
            page.number(u64::from(id.0));
        }
        Cause::Overflow(line) => {
            page.word("overflow");
            page.number(u64::from(*line));
        }
        Cause::Fuel => page.word("fuel"),
        Cause::Full => page.word("full"),
    }
}

// Puts how far a run came.
fn put_progress(progress: &Option<Progress>, page: &mut Page) {
    match progress {
        Some(Progress::Finished(None)) => page.word("ended"),
        Some(Progress::Finished(Some(value))) => {
            page.word("gives");
            put_value(value, page);
        }
        Some(Progress::Aborted(cause)) => put_cause(cause, page),
        Some(Progress::Going) => page.word("waits"),
        None => page.word("stuck"),
    }
}

// Puts what a run read: how many objects, their numbers, and whether the next number.
fn put_reads(alloc: Global, overlay: &Overlay, page: &mut Page) {
    if let Some(reads) = page.made(overlay.reads(alloc)) {
        page.number(reads.len() as u64);
        for id in &reads {
            page.number(u64::from(*id));
        }
        page.truth(overlay.has_read_next());
    }
}

/// Puts an object behind its number.
pub fn put_told(id: ObjectId, object: &Object, page: &mut Page) {
    page.number(u64::from(id.0));
    page.number(u64::from(object.contract.0));
    page.number_or_none(match object.state {
        Some(state) => Some(u32::from(state.0)),
        None => None,
    });
    page.truth(object.shared);
    page.truth(object.disowned);
    page.number(object.fields.as_slice().len() as u64);
    for (field, value) in object.fields.as_slice() {
        page.number(u64::from(field.0));
        put_value(value, page);
    }
}

// What a run changed of the objects of a base.
#[tactic(auto, using(ob_heap::proofs::OverlaysLemmas::length_over))]
fn changes_of(alloc: Global, base: &Content, overlay: &Overlay, page: &mut Page) -> Option<Delta> {
    let count = base.objects().len();
    if count > MOST_OBJECTS || overlay.count_made() > MOST_OBJECTS - count {
        page.fail();
        return None;
    }
    page.made(overlay.delta(alloc, base))
}

// Puts the objects that a run changed or made, and keeps them.
fn keep_changes(alloc: Global, changes: Delta, content: &mut Content, page: &mut Page) {
    let objects = changes.objects.into_vec();
    page.number(objects.len() as u64);
    for (id, object) in objects {
        put_told(id, &object, page);
        put_object(alloc, content, id, object, page);
    }
}

// Goes on with a run, slice after slice, until it is over or a slice has no unit for it, and puts how far it came, with how many units
// and slices. Whether it has ended.
fn go_on(
    code: &Verified,
    base: &Content,
    overlay: &mut Overlay,
    machine: &mut Machine,
    slice: u32,
    page: &mut Page,
) -> bool {
    for slices in 1..u32::MAX {
        let before = machine.used();
        let Some(progress) = page.made(machine.try_slice(code, base, overlay, slice)) else {
            return false;
        };
        if machine.used() == before || !matches!(progress, Some(Progress::Going)) {
            put_progress(&progress, page);
            page.number(u64::from(machine.used()));
            page.number(u64::from(slices));
            return matches!(progress, Some(Progress::Finished(_)));
        }
    }
    page.fail();
    false
}

// Runs code, and puts how far it came. Whether it has ended.
fn run(
    alloc: Global,
    code: &Verified,
    base: &Content,
    overlay: &mut Overlay,
    told: ToldRun,
    page: &mut Page,
) -> bool {
    match Machine::start(alloc, told.entry, told.fuel) {
        Ok(mut machine) => go_on(code, base, overlay, &mut machine, told.slice, page),
        Err(Memory) => {
            page.fail();
            false
        }
    }
}

// Keeps what a run did that has ended, and puts it.
fn keep(alloc: Global, content: &mut Content, overlay: &Overlay, page: &mut Page) {
    if let Some(changes) = changes_of(alloc, content, overlay, page) {
        keep_changes(alloc, changes, content, page);
    }
}

// Runs what is told, and puts what it comes to. Where it ended, the content keeps what it did.
fn put_run(alloc: Global, code: &Verified, content: &mut Content, told: ToldRun, page: &mut Page) {
    let mut overlay = Overlay::new(alloc);
    let has_ended = run(alloc, code, content, &mut overlay, told, page);
    put_reads(alloc, &overlay, page);
    if has_ended {
        keep(alloc, content, &overlay, page);
    }
}

// Puts what runs come to, one after another, each on what the one before has left.
fn put_runs(alloc: Global, code: &Verified, told: &str, page: &mut Page) {
    let mut content = Content::new(alloc);
    let (objects, runs) = told.split_once(" | ").unwrap_or(("", told));
    if !objects.is_empty() {
        put_objects(alloc, &mut content, objects, page);
    }
    for words in runs.split(" | ") {
        let told = run_of(alloc, words, page);
        put_run(alloc, code, &mut content, told, page);
    }
}

/// What runs of the code of an image come to, on these objects: `IMAGE OBJECT;OBJECT | RUN | RUN`.
pub fn runs(alloc: Global, asked: &mut Question<'_>, page: &mut Page) {
    if let Some(code) = code_of(alloc, asked, page) {
        put_runs(alloc, &code, asked.rest(), page);
    }
}
