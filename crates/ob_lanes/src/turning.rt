//! The turn of a lane, up to its commit.
ghost use Rattle.std.specs.Prelude.{◌≡◌, ℕ, ◌<◌, ◌≤◌, [], length, map, slice_set, slice_index_or, Option, Some, None, IfOk, OnOk, OnErr};
ghost use Rattle.ob_code_table.specs.ImageTables.{table_of_image};
ghost use Rattle.ob_heap.specs.Contents.{content_of};
ghost use Rattle.ob_owners.specs.Spots.{owner_place};
ghost use Rattle.ob_exec_entries.specs.Naming.{IsNamesOf};
ghost use Rattle.ob_heap.specs.Deltas.{IsDelta};
ghost use Rattle.ob_base.specs.Limits.{most_handles};
ghost use Rattle.ob_lanes.specs.Committing.{answered_in, lane_at, lanes_after};
ghost use Rattle.ob_lanes.specs.Readers.{items_read, objects_of, objects_read};
ghost use Rattle.ob_lanes.specs.Standing.{State, BusyLane, AreInLimits, LanesRepresent, NoneHasEnded, HadTurn, MayRun, Ran, requests_of};

use crate::batch::{BatchRequest, Busy};
use crate::lane_run::LaneRun;
use crate::readers::Readers;
use crate::slicing::slice;
use crate::stale::reopen;
use crate::starting::begin;
use ob_base::Memory;
use ob_exec::SliceOutcome;
use ob_exec_entries::Names;
use ob_heap::{Content, Delta};
use ob_owners::Index;
use ob_verify::Verified;
use std::alloc::Global;

// The request of a busy lane runs for a slice.
fn run_busy<I: Index>(
    alloc: Global,
    code: &Verified,
    names: &Names,
    content: &Content,
    index: &I,
    entries: &[BatchRequest],
    busy: &mut Busy,
    fuel: u32,
    units: u32,
) -> Result<SliceOutcome, Memory>
    requires names { IsNamesOf names.now code.now }
    requires index { (n : ℕ) → I.owner index.now n ≡ owner_place (table_of_image code.now) (content_of content.now) n }
    requires right { AreInLimits code.now fuel content.now (requests_of entries.now) }
    requires may { (s : Option BusyLane) × MayRun code.now fuel content.now entries.now (Some busy.old) s }
    ensures { (s : Option BusyLane) → MayRun code.now fuel content.now entries.now (Some busy.old) s
        → IfOk result (Ran code.now fuel content.now entries.now units s (Some busy.new)) }
{
    let request = &entries[busy.number].request;
    slice(
        alloc,
        code,
        names,
        content,
        index,
        &mut busy.run,
        request,
        fuel,
        units,
    )
}

// A busy lane runs for a slice.
fn run_lane<I: Index>(
    alloc: Global,
    code: &Verified,
    names: &Names,
    content: &Content,
    index: &I,
    entries: &[BatchRequest],
    lane: &mut Option<Busy>,
    fuel: u32,
    units: u32,
) -> Result<SliceOutcome, Memory>
    requires names { IsNamesOf names.now code.now }
    requires index { (n : ℕ) → I.owner index.now n ≡ owner_place (table_of_image code.now) (content_of content.now) n }
    requires right { AreInLimits code.now fuel content.now (requests_of entries.now) }
    requires may { (s : Option BusyLane) × MayRun code.now fuel content.now entries.now lane.old s }
    ensures { (s : Option BusyLane) → MayRun code.now fuel content.now entries.now lane.old s
        → IfOk result (Ran code.now fuel content.now entries.now units s lane.new) }
{
    match lane {
        Some(busy) => run_busy(
            alloc, code, names, content, index, entries, busy, fuel, units,
        ),
        // An idle lane runs nothing.
        None => Ok(SliceOutcome::Paused),
    }
}

// A turn of a lane, up to its commit.
fn turn_lane<I: Index>(
    alloc: Global,
    code: &Verified,
    names: &Names,
    content: &Content,
    index: &I,
    entries: &[BatchRequest],
    lanes: &mut [Option<Busy>],
    lane: usize,
    fuel: u32,
    units: u32,
) -> Result<SliceOutcome, Memory>
    requires names { IsNamesOf names.now code.now }
    requires index { (n : ℕ) → I.owner index.now n ≡ owner_place (table_of_image code.now) (content_of content.now) n }
    requires right { AreInLimits code.now fuel content.now (requests_of entries.now) }
    requires lane { lane < length lanes.old }
    requires those { (l : State) × LanesRepresent code.now fuel content.now entries.now lanes.old l × NoneHasEnded l }
    ensures had { (l : State) → LanesRepresent code.now fuel content.now entries.now lanes.old l → NoneHasEnded l
        → IfOk result (HadTurn code.now fuel content.now entries.now units lane l lanes.new) }
    ensures stay { lanes.new ≡ slice_set lanes.old lane (lane_at lanes.new lane) }
{
    begin(entries, lanes, lane);
    run_lane(
        alloc,
        code,
        names,
        content,
        index,
        entries,
        &mut lanes[lane],
        fuel,
        units,
    )
}

// Notes which objects the run of a lane has read.
fn enter_run(run: &Option<LaneRun>, readers: &mut Readers, lane: usize) -> Result<(), Memory>
    requires lane { lane < length readers.old }
    ensures ok { OnOk result (readers.new ≡ slice_set readers.old lane (objects_of (items_read run.now))) }
    ensures stay { readers.new ≡ slice_set readers.old lane (slice_index_or readers.new lane []) }
{
    match run {
        Some(run) => readers.enter(lane, run.get().reads()),
        None => {
            readers.clear(lane);
            Ok(())
        }
    }
}

// The same of a lane, which may be idle.
fn enter_lane(busy: &Option<Busy>, readers: &mut Readers, lane: usize) -> Result<(), Memory>
    requires lane { lane < length readers.old }
    ensures ok { OnOk result (readers.new ≡ slice_set readers.old lane (objects_read busy.now)) }
    ensures stay { readers.new ≡ slice_set readers.old lane (slice_index_or readers.new lane []) }
{
    match busy {
        Some(busy) => enter_run(&busy.run, readers, lane),
        None => {
            readers.clear(lane);
            Ok(())
        }
    }
}

// A turn of a lane, up to its commit, after which it is noted what its run has read.
fn turn_entered<I: Index>(
    alloc: Global,
    code: &Verified,
    names: &Names,
    content: &Content,
    index: &I,
    entries: &[BatchRequest],
    lanes: &mut [Option<Busy>],
    readers: &mut Readers,
    lane: usize,
    fuel: u32,
    units: u32,
) -> Result<SliceOutcome, Memory>
    requires names { IsNamesOf names.now code.now }
    requires index { (n : ℕ) → I.owner index.now n ≡ owner_place (table_of_image code.now) (content_of content.now) n }
    requires right { AreInLimits code.now fuel content.now (requests_of entries.now) }
    requires lane { lane < length lanes.old }
    requires those { (l : State) × LanesRepresent code.now fuel content.now entries.now lanes.old l × NoneHasEnded l }
    requires entered { readers.old ≡ map objects_read lanes.old }
    ensures had { (l : State) → LanesRepresent code.now fuel content.now entries.now lanes.old l → NoneHasEnded l
        → IfOk result (HadTurn code.now fuel content.now entries.now units lane l lanes.new) }
    ensures entered { OnOk result (readers.new ≡ map objects_read lanes.new) }
    ensures stay { lanes.new ≡ slice_set lanes.old lane (lane_at lanes.new lane) }
    ensures readers { readers.new ≡ slice_set readers.old lane (slice_index_or readers.new lane []) }
{
    let outcome = turn_lane(
        alloc, code, names, content, index, entries, lanes, lane, fuel, units,
    )?;
    enter_lane(&lanes[lane], readers, lane)?;
    Ok(outcome)
}

/// A turn of a lane, up to its commit. The readers are those of the lanes, before and after. Each other lane stays as it is.
///
/// # Errors
///
/// `Memory` where memory runs out. The lane is idle then.
pub fn turn_listed<I: Index>(
    alloc: Global,
    code: &Verified,
    names: &Names,
    content: &Content,
    index: &I,
    entries: &[BatchRequest],
    lanes: &mut [Option<Busy>],
    readers: &mut Readers,
    lane: usize,
    fuel: u32,
    units: u32,
) -> Result<SliceOutcome, Memory>
    requires names { IsNamesOf names.now code.now }
    requires index { (n : ℕ) → I.owner index.now n ≡ owner_place (table_of_image code.now) (content_of content.now) n }
    requires right { AreInLimits code.now fuel content.now (requests_of entries.now) }
    requires lane { lane < length lanes.old }
    requires those { (l : State) × LanesRepresent code.now fuel content.now entries.now lanes.old l × NoneHasEnded l }
    requires entered { readers.old ≡ map objects_read lanes.old }
    ensures had { (l : State) → LanesRepresent code.now fuel content.now entries.now lanes.old l → NoneHasEnded l
        → IfOk result (HadTurn code.now fuel content.now entries.now units lane l lanes.new) }
    ensures entered { readers.new ≡ map objects_read lanes.new }
    ensures idle { OnErr result (lane_at lanes.new lane ≡ None) }
    ensures stay { lanes.new ≡ slice_set lanes.old lane (lane_at lanes.new lane) }
{
    let turned = turn_entered(
        alloc, code, names, content, index, entries, lanes, readers, lane, fuel, units,
    );
    match turned {
        Ok(outcome) => Ok(outcome),
        Err(Memory) => {
            lanes[lane] = None;
            readers.clear(lane);
            Err(Memory)
        }
    }
}

// The request of a lane is answered, and the lane is idle.
fn answer_lane(lane: &mut Option<Busy>, entries: &mut [BatchRequest])
    ensures idle { lane.new ≡ None }
    ensures answered { entries.new ≡ answered_in lane.old entries.old }
{
    if let Some(busy) = lane.take() {
        if busy.number < entries.len() {
            entries[busy.number].is_done = true;
        }
    }
}

// The same of one lane among all.
fn answer_at(
    lanes: &mut [Option<Busy>],
    readers: &mut Readers,
    lane: usize,
    entries: &mut [BatchRequest],
)
    requires lane { lane < length lanes.old }
    requires entered { readers.old ≡ map objects_read lanes.old }
    ensures lanes { lanes.new ≡ slice_set lanes.old lane None }
    ensures entered { readers.new ≡ map objects_read lanes.new }
    ensures entries { entries.new ≡ answered_in (lane_at lanes.old lane) entries.old }
{
    answer_lane(&mut lanes[lane], entries);
    readers.clear(lane);
}

/// The request of a lane is answered, and each other lane whose run is stale opens its request again. The readers are those of the lanes,
/// before and after. It takes no memory.
pub fn commit_lane(
    before: &Content,
    delta: &Delta,
    lanes: &mut [Option<Busy>],
    readers: &mut Readers,
    lane: usize,
    entries: &mut [BatchRequest],
)
    requires few { length before.now.handles ≤ most_handles }
    requires delta { IsDelta before.now delta.now }
    requires lane { lane < length lanes.old }
    requires entered { readers.old ≡ map objects_read lanes.old }
    ensures lanes { lanes.new ≡ lanes_after before.now delta.now lane lanes.old }
    ensures entered { readers.new ≡ map objects_read lanes.new }
    ensures entries { entries.new ≡ answered_in (lane_at lanes.old lane) entries.old }
{
    answer_at(lanes, readers, lane, entries);
    reopen(before, delta, lanes, readers);
}
