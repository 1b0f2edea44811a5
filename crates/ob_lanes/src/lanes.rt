//! Lanes of a batch.
ghost use Rattle.std.specs.Prelude.{◌≡◌, ℕ, ◌<◌, ◌≤◌, List, [], length, map, slice_get, Some, IfOk, OnOk, OnErr};
ghost use Rattle.std.specs.Option.{option_copied};
ghost use Rattle.ob_base.specs.Limits.{most_handles, most_requests};
ghost use Rattle.ob_code.specs.declared.image.Image.{Image as Code};
ghost use Rattle.ob_code_table.specs.ImageTables.{table_of_image};
ghost use Rattle.ob_heap.specs.Contents.{Stored, content_of};
ghost use Rattle.ob_heap.specs.Deltas.{IsDelta};
ghost use Rattle.ob_invocation_spec.specs.Requests.{Request as Asked};
ghost use Rattle.ob_owners.specs.Spots.{owner_place};
ghost use Rattle.ob_wire.specs.Meanings.{request_of};
ghost use Rattle.ob_exec_entries.specs.Naming.{IsNamesOf};
ghost use Rattle.ob_lanes_laws.specs.Schedule.{idle};
ghost use Rattle.ob_lanes_laws.specs.Turns.{next_lane};
ghost use Rattle.ob_lanes.specs.Standing.{State, LanesRepresentBatch, CanTurn, Turned, TurnComesTo, Waits, Commits, AreUntouched, Lends, AreIdle, waiting, requests_kept, run_of_lane, run_at};

use crate::batch::{BatchRequest, Busy};
use crate::lane_run::LaneRun;
use crate::listed::Listed;
use crate::starting::are_all_done;
use ob_base::{Items, Memory};
use ob_exec::{Run, SliceOutcome};
use ob_exec_entries::Names;
use ob_heap::{Content, Delta};
use ob_owners::Index;
use ob_verify::Verified;
use ob_wire::{Reply, Request};
use sqlite_items::at;
use std::alloc::Global;

/// Lanes of a batch of requests, which take turns on what a store holds.
#[derive(Drop)]
pub struct Lanes {
    // How many units a slice has.
    slice: u32,
    // The lane whose turn is next; or whose commit is waited for.
    next: usize,
    entries: Vec<BatchRequest>,
    lanes: Listed,
}

/// What a turn comes to.
#[derive(Drop)]
pub enum Turn {
    /// The request of the lane has ended: its reply, and what differs in the store after it. It waits for its commit.
    Commit(Reply, Delta),
    /// Nothing commits in this turn, and not all requests are answered.
    Going,
    /// All requests are answered.
    Done,
}

// The lane after one, round so many lanes.
fn after_lane(lane: usize, count: usize) -> usize
    requires { lane < count }
    ensures { result ≡ next_lane count lane }
{
    if lane + 1 < count { lane + 1 } else { 0 }
}

// The requests of a batch, none of which is answered.
fn entries_of(alloc: Global, mut batch: Items<Request>) -> Result<Vec<BatchRequest>, Memory>
    ensures { IfOk result (λ entries. entries.items ≡ map waiting batch) }
{
    let mut entries = Vec::new(alloc);
    while !batch.is_empty() {
        let request = batch.remove(0);
        entries.push(BatchRequest {
            request,
            is_done: false,
        })?;
    }
    Ok(entries)
}

// A run as it is lent.
fn lent(run: &Option<LaneRun>) -> Option<&Run>
    ensures { option_copied result ≡ run.now }
{
    match run {
        Some(run) => Some(run.get()),
        None => None,
    }
}

// The run that a lane lends.
fn lent_lane(lane: &Option<Busy>) -> Option<&Run>
    ensures { option_copied result ≡ run_of_lane (Some lane.now) }
{
    match lane {
        Some(busy) => lent(&busy.run),
        None => None,
    }
}

impl Lanes {
    /// So many idle lanes, whose slices have so many units, and no requests.
    ///
    /// # Errors
    ///
    /// `Memory` where memory runs out.
    pub fn new(alloc: Global, lanes: u8, slice: u32) -> Result<Lanes, Memory>
        requires some { 0 < lanes }
        requires few { lanes ≤ 8 }
        requires slice { 0 < slice }
        ensures stand { IfOk result (λ l. (image : Code) (fuel : ℕ) (base : Stored) → LanesRepresentBatch image fuel [] base l (idle (content_of base) lanes)) }
        ensures slice { IfOk result (λ l. l.slice ≡ slice) }
        ensures count { IfOk result (λ l. length l.lanes.items ≡ lanes) }
    {
        Ok(Lanes {
            slice,
            next: 0,
            entries: Vec::new(alloc),
            lanes: Listed::new(alloc, lanes as usize)?,
        })
    }

    /// The lanes, which are idle, begin a batch of requests, of which none is under way; an earlier batch goes. The next turn is that of
    /// the first lane.
    ///
    /// # Errors
    ///
    /// `Memory` where memory runs out. The lanes are as before.
    pub fn begin_batch(&mut self, alloc: Global, batch: Items<Request>) -> Result<(), Memory>
        requires some { 0 < length batch }
        requires few { length batch ≤ most_requests }
        requires idle { (image : Code) × (fuel : ℕ) × (before : List Asked) × (base : Stored) × (l : State) × LanesRepresentBatch image fuel before base self.old l × AreIdle l }
        ensures stand { OnOk result ((image : Code) (fuel : ℕ) (base : Stored) → LanesRepresentBatch image fuel (map request_of batch) base self.new (idle (content_of base) (length self.old.lanes.items))) }
        ensures requests { OnOk result (requests_kept self.new ≡ batch) }
        ensures next { OnOk result (self.new.next ≡ 0) }
        ensures slice { OnOk result (self.new.slice ≡ self.old.slice) }
        ensures count { OnOk result (length self.new.lanes.items ≡ length self.old.lanes.items) }
        ensures err { OnErr result (self.new ≡ self.old) }
    {
        let entries = entries_of(alloc, batch)?;
        let lanes = Listed::new(alloc, self.lanes.len())?;
        self.entries = entries;
        self.lanes = lanes;
        self.next = 0;
        Ok(())
    }

    // What a turn comes to, by what its slice has led to.
    fn turn_of(&mut self, outcome: SliceOutcome) -> Turn
        requires { self.old.next < length self.old.lanes.items }
        ensures turn { TurnComesTo self.old outcome self.new.next result }
        ensures slice { self.new.slice ≡ self.old.slice }
        ensures entries { self.new.entries ≡ self.old.entries }
        ensures lanes { self.new.lanes ≡ self.old.lanes }
    {
        match outcome {
            SliceOutcome::Ended(reply, delta) => Turn::Commit(reply, delta),
            SliceOutcome::Paused => {
                self.next = after_lane(self.next, self.lanes.len());
                if are_all_done(&self.entries) {
                    Turn::Done
                } else {
                    Turn::Going
                }
            }
        }
    }

    /// One turn of one lane on what the store holds, up to its commit: a lane that is idle starts the first request that may start, and
    /// a busy lane runs until its request ends or needs a unit past the slice. `fuel` is how many units each request has in all. The
    /// index tells the owners of the store's objects.
    ///
    /// # Errors
    ///
    /// `Memory` where memory runs out; the lanes are to be dropped then.
    pub fn turn<I: Index>(
        &mut self,
        alloc: Global,
        code: &Verified,
        names: &Names,
        content: &Content,
        index: &I,
        fuel: u32,
    ) -> Result<Turn, Memory>
        requires names { IsNamesOf names.now code.now }
        requires index { (n : ℕ) → I.owner index.now n ≡ owner_place (table_of_image code.now) (content_of content.now) n }
        requires stand { (batch : List Asked) × (l : State) × CanTurn code.now fuel batch content.now self.old l }
        ensures turned { (batch : List Asked) (l : State) → CanTurn code.now fuel batch content.now self.old l
            → IfOk result (Turned code.now fuel batch content.now self.old l self.new) }
        ensures entries { self.new.entries ≡ self.old.entries }
    {
        let lane = self.next;
        let units = self.slice;
        let outcome = self.lanes.turn(
            alloc,
            code,
            names,
            content,
            index,
            &self.entries,
            lane,
            fuel,
            units,
        )?;
        Ok(self.turn_of(outcome))
    }

    /// The commit that the last turn answered is made: `before` is what the store held, and `delta` is what is committed, which is empty
    /// where the store lacks room. Each other request whose run has read something that is changed is opened again, and no other one. It
    /// takes no memory.
    pub fn committed(&mut self, before: &Content, delta: &Delta)
        requires few { length before.now.handles ≤ most_handles }
        requires delta { IsDelta before.now delta.now }
        requires waits { (image : Code) × (fuel : ℕ) × (batch : List Asked) × (l : State) × Waits image fuel batch before.now self.old l }
        ensures stand { (image : Code) (fuel : ℕ) (batch : List Asked) (l : State) (after : Stored) → Waits image fuel batch before.now self.old l
            → Commits image fuel batch before.now delta.now after self.old.next l self.new }
        ensures untouched { AreUntouched before.now delta.now self.new.lanes.items }
        ensures requests { requests_kept self.new ≡ requests_kept self.old }
        ensures next { self.new.next ≡ next_lane (length self.old.lanes.items) self.old.next }
        ensures slice { self.new.slice ≡ self.old.slice }
        ensures count { length self.new.lanes.items ≡ length self.old.lanes.items }
    {
        let lane = self.next;
        self.lanes.commit(before, delta, lane, &mut self.entries);
        self.next = after_lane(lane, self.lanes.len());
    }

    /// The run of a lane, which is paused, or has ended where its commit is waited for. There is none where the lane is idle or isn't one
    /// of these, or where its request wasn't sliced since it was opened.
    pub fn lane(&self, lane: u8) -> Option<&Run>
        ensures is { option_copied result ≡ run_at self.now.lanes.items lane }
        ensures lends { (image : Code) (fuel : ℕ) (batch : List Asked) (base : Stored) (l : State) → LanesRepresentBatch image fuel batch base self.now l
            → Lends image fuel base self.now.entries.items (slice_get l.lanes lane) (option_copied result) }
    {
        match at(self.lanes.get(), lane as usize) {
            Some(lane) => lent_lane(lane),
            None => None,
        }
    }
}
