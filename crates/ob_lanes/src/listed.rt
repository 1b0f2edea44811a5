//! Lanes, and which objects the run of each has read.
ghost use Rattle.std.specs.Prelude.{◌≡◌, ℕ, ◌<◌, ◌≤◌, length, slice_set, Option, None, replicate, IfOk, OnErr};
ghost use Rattle.ob_base.specs.Limits.{most_handles};
ghost use Rattle.ob_code_table.specs.ImageTables.{table_of_image};
ghost use Rattle.ob_heap.specs.Contents.{content_of};
ghost use Rattle.ob_heap.specs.Deltas.{IsDelta};
ghost use Rattle.ob_owners.specs.Spots.{owner_place};
ghost use Rattle.ob_exec_entries.specs.Naming.{IsNamesOf};
ghost use Rattle.ob_lanes.specs.Committing.{answered_in, lane_at, lanes_after};
ghost use Rattle.ob_lanes.specs.Standing.{State, AreInLimits, LanesRepresent, NoneHasEnded, HadTurn, requests_of};

use crate::batch::{BatchRequest, Busy};
use crate::readers::Readers;
use crate::turning::{commit_lane, turn_listed};
use ob_base::Memory;
use ob_exec::SliceOutcome;
use ob_exec_entries::Names;
use ob_heap::{Content, Delta};
use ob_owners::Index;
use ob_verify::Verified;
use std::alloc::Global;
use std::marker::Model;

/// Lanes, with the objects that the run of each has read. Contracts see the lanes alone.
#[derive(Drop)]
pub struct Listed {
    lanes: Vec<Option<Busy>>,
    readers: Readers,
}

impl Model for Listed {
    ghost use Rattle.std.specs.Prelude.{◌≡◌, Option, map};
    ghost use Rattle.std.specs.Global.{Vec};
    ghost use Rattle.ob_lanes.specs.declared.batch.Busy.{Busy};
    ghost use Rattle.ob_lanes.specs.Readers.{objects_read};

    ghost Value = { Vec (Option Busy) };

    ghost view = { λ l. l.lanes };

    ghost invariant = { λ l. l.readers ≡ map objects_read l.lanes.items };
}

// So many idle lanes.
fn idle_lanes(alloc: Global, count: usize) -> Result<Vec<Option<Busy>>, Memory>
    ensures { IfOk result (λ lanes. lanes.items ≡ replicate count None) }
{
    let mut lanes = Vec::new(alloc);
    for _lane in 0..count {
        lanes.push(None)?;
    }
    Ok(lanes)
}

impl Listed {
    /// So many idle lanes.
    ///
    /// # Errors
    ///
    /// `Memory` where memory runs out.
    pub fn new(alloc: Global, count: usize) -> Result<Listed, Memory>
        ensures { IfOk result (λ lanes. lanes.items ≡ replicate count None) }
    {
        let lanes = idle_lanes(alloc, count)?;
        let readers = Readers::new(alloc, count)?;
        Ok(Listed { lanes, readers })
    }

    /// The lanes.
    pub fn get(&self) -> &[Option<Busy>]
        ensures { result.now ≡ self.now.items }
    {
        &self.lanes
    }

    /// How many lanes there are.
    pub fn len(&self) -> usize
        ensures { result ≡ length self.now.items }
    {
        self.lanes.len()
    }

    /// A turn of a lane, up to its commit. Each other lane stays as it is.
    ///
    /// # Errors
    ///
    /// `Memory` where memory runs out. The lane is idle then.
    pub fn turn<I: Index>(
        &mut self,
        alloc: Global,
        code: &Verified,
        names: &Names,
        content: &Content,
        index: &I,
        entries: &[BatchRequest],
        lane: usize,
        fuel: u32,
        units: u32,
    ) -> Result<SliceOutcome, Memory>
        requires names { IsNamesOf names.now code.now }
        requires index { (n : ℕ) → I.owner index.now n ≡ owner_place (table_of_image code.now) (content_of content.now) n }
        requires right { AreInLimits code.now fuel content.now (requests_of entries.now) }
        requires lane { lane < length self.old.items }
        requires those { (l : State) × LanesRepresent code.now fuel content.now entries.now self.old.items l × NoneHasEnded l }
        ensures had { (l : State) → LanesRepresent code.now fuel content.now entries.now self.old.items l → NoneHasEnded l
            → IfOk result (HadTurn code.now fuel content.now entries.now units lane l self.new.items) }
        ensures idle { OnErr result (lane_at self.new.items lane ≡ None) }
        ensures stay { self.new.items ≡ slice_set self.old.items lane (lane_at self.new.items lane) }
        ensures count { length self.new.items ≡ length self.old.items }
    {
        turn_listed(
            alloc,
            code,
            names,
            content,
            index,
            entries,
            &mut self.lanes,
            &mut self.readers,
            lane,
            fuel,
            units,
        )
    }

    /// The request of a lane is answered, and each other lane whose run is stale opens its request again. It takes no memory.
    pub fn commit(
        &mut self,
        before: &Content,
        delta: &Delta,
        lane: usize,
        entries: &mut [BatchRequest],
    )
        requires few { length before.now.handles ≤ most_handles }
        requires delta { IsDelta before.now delta.now }
        requires lane { lane < length self.old.items }
        ensures lanes { self.new.items ≡ lanes_after before.now delta.now lane self.old.items }
        ensures entries { entries.new ≡ answered_in (lane_at self.old.items lane) entries.old }
        ensures count { length self.new.items ≡ length self.old.items }
    {
        commit_lane(
            before,
            delta,
            &mut self.lanes,
            &mut self.readers,
            lane,
            entries,
        );
    }
}
