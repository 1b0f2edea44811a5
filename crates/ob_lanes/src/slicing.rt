//! A slice of a lane's run.
ghost use Rattle.std.specs.Prelude.{◌≡◌, ℕ, List, IfOk, OnOk};
ghost use Rattle.ob_code_table.specs.ImageTables.{table_of_image};
ghost use Rattle.ob_heap.specs.Contents.{content_of};
ghost use Rattle.ob_machine_meaning.specs.Meanings.{machine_invocation};
ghost use Rattle.ob_wire.specs.Meanings.{request_of};
ghost use Rattle.ob_owners.specs.Spots.{owner_place};
ghost use Rattle.ob_exec_entries.specs.Naming.{IsNamesOf};
ghost use Rattle.ob_exec_handles.specs.Coming.{IsInLimits};
ghost use Rattle.ob_lanes.specs.Standing.{GoesOn, AreReady, Leads};

use crate::lane_run::LaneRun;
use ob_base::{Duplicate, Memory};
use ob_exec::{Run, SliceOutcome};
use ob_exec_entries::Names;
use ob_heap::Content;
use ob_owners::Index;
use ob_verify::Verified;
use ob_wire::Request;
use std::alloc::Global;

// A run is started where there is none.
fn ready<I: Index>(
    alloc: Global,
    code: &Verified,
    names: &Names,
    content: &Content,
    index: &I,
    run: &mut Option<LaneRun>,
    request: &Request,
    fuel: u32,
) -> Result<(), Memory>
    requires names { IsNamesOf names.now code.now }
    requires index { (n : ℕ) → I.owner index.now n ≡ owner_place (table_of_image code.now) (content_of content.now) n }
    requires right { IsInLimits (machine_invocation code.now (content_of content.now) (request_of request.now) fuel) }
    ensures { (given : List ℕ) → GoesOn code.now fuel content.now request.now given run.old
        → OnOk result (AreReady code.now fuel content.now request.now given run.new) }
{
    if run.is_some() {
        return Ok(());
    }
    let asked = request.copy(alloc)?;
    let started = Run::start(alloc, code, names, content, index, asked, fuel);
    *run = Some(LaneRun::new(alloc, started)?);
    Ok(())
}

/// The run of a request goes on for so many units; where it wasn't sliced since it was opened, a new one.
pub fn slice<I: Index>(
    alloc: Global,
    code: &Verified,
    names: &Names,
    content: &Content,
    index: &I,
    run: &mut Option<LaneRun>,
    request: &Request,
    fuel: u32,
    units: u32,
) -> Result<SliceOutcome, Memory>
    requires names { IsNamesOf names.now code.now }
    requires index { (n : ℕ) → I.owner index.now n ≡ owner_place (table_of_image code.now) (content_of content.now) n }
    requires right { IsInLimits (machine_invocation code.now (content_of content.now) (request_of request.now) fuel) }
    requires goes { (given : List ℕ) × GoesOn code.now fuel content.now request.now given run.old }
    ensures { (given : List ℕ) → GoesOn code.now fuel content.now request.now given run.old
        → IfOk result (Leads code.now fuel content.now request.now units given run.new) }
{
    ready(alloc, code, names, content, index, run, request, fuel)?;
    match run {
        Some(lane_run) => lane_run.slice(code, content, units),
        None => unreachable!(),
    }
}
