//! Which lanes are opened again after a commit.
ghost use Rattle.std.specs.Prelude.{◌≡◌, ◌^◌, ◌<◌, ◌≤◌, false, length, map, slice_set, AllPairs, Option};
ghost use Rattle.std.specs.declared.cmp.Ordering.TheVariants.{Less};
ghost use Rattle.ob_base.specs.Limits.{most_handles};
ghost use Rattle.ob_base.specs.declared.name.Label.{Label as LabelBytes};
ghost use Rattle.ob_heap.specs.declared.object.Handle.{Handle as StoredHandle};
ghost use Rattle.std.specs.Ordering.{is_eq};
ghost use Rattle.std.specs.List.{list_any};
ghost use Rattle.ob_heap_spec.specs.Contents.{name_order};
ghost use Rattle.ob_heap.specs.Contents.{name_of};
ghost use Rattle.ob_heap.specs.Deltas.{IsDelta, label_order, with_handles};
ghost use Rattle.ob_exec_handles.specs.Spending.{item_of};
ghost use Rattle.ob_exec.specs.declared.runs.Run.{Run};
ghost use Rattle.ob_lanes.specs.Committing.{has_new, has_handle, is_full, counted_with, lane_at, reopened};
ghost use Rattle.ob_lanes.specs.Readers.{run_in, objects_read, is_other_changed, is_other_stale, freed, freed_by, freed_by_all, freed_by_others};

use crate::batch::Busy;
use crate::lane_run::LaneRun;
use crate::readers::Readers;
use ob_base::{Label, MOST_HANDLES, ObjectId};
use ob_exec_handles::ReadItem;
use ob_heap::{Content, Delta, Handle, Object};
use std::cmp::Ordering;

fn has_new(objects: &[(ObjectId, Object)], count: usize) -> bool
    ensures { result ≡ has_new count objects.now }
{
    for item in objects {
        if count <= item.0.0 as usize {
            return true;
        }
    }
    false
}

fn order(name: &(Label, Label), who: &Label, called: &Label) -> Ordering
    ensures { result ≡ name_order (name_of name.now) (record { who = who.now; name = called.now }) }
{
    let first = name.0.as_bytes().cmp(who.as_bytes());
    let second = name.1.as_bytes().cmp(called.as_bytes());
    first.then(second)
}

fn is_name(name: &(Label, Label), who: &Label, called: &Label) -> bool
    ensures { result ≡ is_eq (name_order (name_of name.now) (record { who = who.now; name = called.now })) }
{
    order(name, who, called) == Ordering::Equal
}

fn has_handle(handles: &[((Label, Label), Option<Handle>)], who: &Label, name: &Label) -> bool
    ensures { result ≡ has_handle (record { who = who.now; name = name.now }) handles.now }
{
    for item in handles {
        if is_name(&item.0, who, name) {
            return true;
        }
    }
    false
}

// How many handles there are after one that was there before, or not, is there, or not.
fn counted_with(count: usize, before: Option<Handle>, after: Option<Handle>) -> usize
    requires { count < 2 ^ 63 }
    ensures { result ≡ counted_with before after count }
{
    match (before, after) {
        (None, Some(_)) => count + 1,
        (Some(_), None) => count.saturating_sub(1),
        _ => count,
    }
}

// How many handles there are after a delta.
fn count_after(before: &Content, handles: &[((Label, Label), Option<Handle>)]) -> usize
    requires few { length before.now.handles ≤ most_handles }
    requires order { AllPairs (λ (a b : (LabelBytes × LabelBytes) × Option StoredHandle). label_order a.0 b.0 ≡ Less) handles.now }
    ensures { result ≡ length (with_handles before.now.handles handles.now) }
{
    let mut count = before.count_handles();
    for entry in handles {
        let old = before.handle(&entry.0.0, &entry.0.1);
        count = counted_with(count, old, entry.1);
    }
    count
}

// Whether there are as many handles as there may be, once a delta has changed them.
fn is_full_after(before: &Content, delta: &Delta) -> bool
    requires few { length before.now.handles ≤ most_handles }
    requires delta { IsDelta before.now delta.now }
    ensures { result ≡ is_full (with_handles before.now.handles delta.now.handles) }
{
    count_after(before, delta.handles.as_slice()) >= MOST_HANDLES
}

fn is_full_before(before: &Content) -> bool
    ensures { result ≡ is_full before.now.handles }
{
    before.count_handles() >= MOST_HANDLES
}

// Whether a delta that has just what differs changes an item that is no object.
fn is_other_changed(before: &Content, delta: &Delta, item: &ReadItem) -> bool
    requires few { length before.now.handles ≤ most_handles }
    requires delta { IsDelta before.now delta.now }
    ensures { result ≡ is_other_changed before.now delta.now (item_of item.now) }
{
    match item {
        ReadItem::Object(_) => false,
        ReadItem::Next => has_new(delta.objects.as_slice(), before.objects().len()),
        ReadItem::Handle(who, name) => has_handle(delta.handles.as_slice(), who, name),
        ReadItem::HandlesFull => is_full_before(before) != is_full_after(before, delta),
    }
}

// Whether it changes one of these items that is no object.
fn is_one_changed(before: &Content, delta: &Delta, items: &[ReadItem]) -> bool
    requires few { length before.now.handles ≤ most_handles }
    requires delta { IsDelta before.now delta.now }
    ensures { result ≡ list_any (is_other_changed before.now delta.now) (map item_of items.now) }
{
    for item in items {
        if is_other_changed(before, delta, item) {
            return true;
        }
    }
    false
}

// Whether it changes something that a run has read and that is no object.
fn is_stale(before: &Content, delta: &Delta, run: &Option<LaneRun>) -> bool
    requires few { length before.now.handles ≤ most_handles }
    requires delta { IsDelta before.now delta.now }
    ensures { result ≡ is_other_stale before.now delta.now run.now }
{
    match run {
        Some(run) => is_one_changed(before, delta, run.get().reads()),
        None => false,
    }
}

// A lane whose run is stale by an item that is no object opens its request again. The answer is whether it is.
fn reopen_lane(before: &Content, delta: &Delta, lane: &mut Option<Busy>) -> bool
    requires few { length before.now.handles ≤ most_handles }
    requires delta { IsDelta before.now delta.now }
    ensures lane { lane.new ≡ freed_by_others before.now delta.now lane.old }
    ensures stale { result ≡ is_other_stale before.now delta.now (run_in lane.old) }
{
    if let Some(busy) = lane {
        if is_stale(before, delta, &busy.run) {
            busy.run = None;
            return true;
        }
    }
    false
}

// The same of one lane among all.
fn reopen_at(
    before: &Content,
    delta: &Delta,
    lanes: &mut [Option<Busy>],
    readers: &mut Readers,
    lane: usize,
)
    requires few { length before.now.handles ≤ most_handles }
    requires delta { IsDelta before.now delta.now }
    requires lane { lane < length lanes.old }
    requires entered { readers.old ≡ map objects_read lanes.old }
    ensures is { lanes.new ≡ slice_set lanes.old lane (freed_by_others before.now delta.now (lane_at lanes.old lane)) }
    ensures entered { readers.new ≡ map objects_read lanes.new }
{
    if reopen_lane(before, delta, &mut lanes[lane]) {
        readers.clear(lane);
    }
}

// The same of each lane.
fn reopen_each(before: &Content, delta: &Delta, lanes: &mut [Option<Busy>], readers: &mut Readers)
    requires few { length before.now.handles ≤ most_handles }
    requires delta { IsDelta before.now delta.now }
    requires entered { readers.old ≡ map objects_read lanes.old }
    ensures is { lanes.new ≡ map (freed_by_others before.now delta.now) lanes.old }
    ensures entered { readers.new ≡ map objects_read lanes.new }
{
    for lane in 0..lanes.len() {
        reopen_at(before, delta, lanes, readers, lane);
    }
}

// Whether a delta may change an item that is no object: it has a handle, or an object that is new.
fn may_change_others(before: &Content, delta: &Delta) -> bool
    ensures { result ≡ false → (run : Option Run) → is_other_stale before.now delta.now run ≡ false }
{
    !delta.handles.as_slice().is_empty()
        || has_new(delta.objects.as_slice(), before.objects().len())
}

// Each lane whose run is stale by an item that is no object opens its request again. Where no such item is changed, no run is asked.
fn reopen_by_others(
    before: &Content,
    delta: &Delta,
    lanes: &mut [Option<Busy>],
    readers: &mut Readers,
)
    requires few { length before.now.handles ≤ most_handles }
    requires delta { IsDelta before.now delta.now }
    requires entered { readers.old ≡ map objects_read lanes.old }
    ensures is { lanes.new ≡ map (freed_by_others before.now delta.now) lanes.old }
    ensures entered { readers.new ≡ map objects_read lanes.new }
{
    if may_change_others(before, delta) {
        reopen_each(before, delta, lanes, readers);
    }
}

// A lane opens its request again, if it has one.
fn free(lane: &mut Option<Busy>)
    ensures { lane.new ≡ freed lane.old }
{
    if let Some(busy) = lane {
        busy.run = None;
    }
}

// The same of one lane among all.
fn free_at(lanes: &mut [Option<Busy>], readers: &mut Readers, lane: usize)
    requires lane { lane < length lanes.old }
    requires entered { readers.old ≡ map objects_read lanes.old }
    ensures is { lanes.new ≡ slice_set lanes.old lane (freed (lane_at lanes.old lane)) }
    ensures entered { readers.new ≡ map objects_read lanes.new }
{
    free(&mut lanes[lane]);
    readers.clear(lane);
}

// Each lane whose run has read an object opens its request again.
fn reopen_by(lanes: &mut [Option<Busy>], readers: &mut Readers, object: u32)
    requires entered { readers.old ≡ map objects_read lanes.old }
    ensures is { lanes.new ≡ map (freed_by object) lanes.old }
    ensures entered { readers.new ≡ map objects_read lanes.new }
{
    let mut reader = readers.first(object);
    while let Some(lane) = reader {
        free_at(lanes, readers, lane);
        reader = readers.first(object);
    }
}

// Each lane whose run has read one of these objects does.
fn reopen_by_all(lanes: &mut [Option<Busy>], readers: &mut Readers, objects: &[(ObjectId, Object)])
    requires entered { readers.old ≡ map objects_read lanes.old }
    ensures is { lanes.new ≡ map (freed_by_all objects.now) lanes.old }
    ensures entered { readers.new ≡ map objects_read lanes.new }
{
    for item in objects {
        reopen_by(lanes, readers, item.0.0);
    }
}

/// Each lane whose run is stale after a change of what a store holds opens its request again. It takes no memory.
pub fn reopen(before: &Content, delta: &Delta, lanes: &mut [Option<Busy>], readers: &mut Readers)
    requires few { length before.now.handles ≤ most_handles }
    requires delta { IsDelta before.now delta.now }
    requires entered { readers.old ≡ map objects_read lanes.old }
    ensures is { lanes.new ≡ map (reopened before.now delta.now) lanes.old }
    ensures entered { readers.new ≡ map objects_read lanes.new }
{
    reopen_by_others(before, delta, lanes, readers);
    reopen_by_all(lanes, readers, delta.objects.as_slice());
}
