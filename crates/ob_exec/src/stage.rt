//! How far the run of a request has come, and how it goes on.
ghost use Rattle.std.specs.Prelude.{◌≡◌, ◌≤◌, ℕ, List, Some, None, length, map, option_map, IfOk};
ghost use Rattle.ob_base.specs.Limits.{most_objects};
ghost use Rattle.ob_heap_spec.specs.Worlds.{World, ReadItem as Item, ReadSame};
ghost use Rattle.ob_heap.specs.Contents.{content_of};
ghost use Rattle.ob_heap.specs.Overlays.{laid_over};
ghost use Rattle.ob_heap.specs.Plain.{value_of};
ghost use Rattle.ob_code.specs.declared.image.Image.{Image as Code};
ghost use Rattle.ob_code_table.specs.ImageTables.{table_of_image};
ghost use Rattle.ob_invocation_spec.specs.Replies.{aborted};
ghost use Rattle.ob_invocation_spec.specs.Showing.{told_state};
ghost use Rattle.ob_machine_steps.specs.Entries.{Phase};
ghost use Rattle.ob_machine.specs.Shown.{cause_of};
ghost use Rattle.ob_request_run_laws.specs.Runs.{unchanged};
ghost use Rattle.ob_exec_entries.specs.Entering.{use_of};
ghost use Rattle.ob_exec.specs.Going.{Asked, AreThose, IsAt, sliced_at, IsEnd, ended_so};
ghost use Rattle.ob_exec.specs.Pausing.{SliceLeads};
ghost use Rattle.ob_exec.specs.declared.stage.Stage.{Stage as StagePlain};
ghost use Rattle.ob_exec.specs.declared.stage.Stage.TheVariants.{Paused as PausedStage};
ghost use Rattle.ob_exec.specs.Putting.{AllStand};

use crate::ending::{abort, finish};
use crate::puts::puts_after;
use crate::reads::Reads;
use ob_base::{Items, Label, Memory, Mode};
use ob_exec_entries::HandleUse;
use ob_exec_handles::Answered;
use ob_heap::{Content, Overlay, Value};
use ob_machine::{Cause, Machine, Progress};
use ob_verify::Verified;
use std::alloc::Global;

/// A run that is paused within a body, or before it (this project's own).
#[derive(Drop)]
pub struct Paused {
    /// Where it is.
    pub machine: Machine,
    /// What it has changed of the store's objects, and made.
    pub overlay: Overlay,
    /// The uses of handles.
    pub uses: Items<HandleUse>,
    /// The mode of the reference that the body gives, if it gives one.
    pub given: Option<Mode>,
}

/// How far a run has come.
#[derive(Drop)]
pub enum Stage {
    /// It goes on from here.
    Paused(Paused),
    /// It is answered so, and this differs in the store.
    Answered(Answered),
    /// Its answer was taken.
    Over,
}

/// How far a run has come, with what it has read and taken.
#[derive(Drop)]
pub struct State {
    /// How far.
    pub stage: Stage,
    /// The items that it has read.
    pub reads: Reads,
    /// How many units it has taken.
    pub taken: u32,
}

/// Where a slice of a run has ended.
#[derive(Drop)]
pub struct SliceEnd {
    /// The answer, if the run has ended.
    pub answered: Option<Answered>,
    /// The items that the run has read.
    pub reads: Reads,
    /// How many units it has taken.
    pub taken: u32,
}

/// A run that is aborted leaves what the store holds.
pub fn aborted(
    alloc: Global,
    code: &Verified,
    base: &Content,
    cause: Cause,
    reads: Reads,
    taken: u32,
) -> Result<SliceEnd, Memory>
    ensures { (items : List Item) (s : StagePlain) → ReadSame items reads
        → IfOk result (λ end. SliceLeads code.now base.now (unchanged (aborted (cause_of cause) (told_state (table_of_image code.now) (content_of base.now).objects (cause_of cause))) taken items) end s) }
{
    let answered = abort(alloc, code.image(), base, cause)?;
    Ok(SliceEnd {
        answered: Some(answered),
        reads,
        taken,
    })
}

// A body has ended: what it gives is put into handles.
fn finished(
    alloc: Global,
    base: &Content,
    who: &Label,
    into: &Option<Label>,
    paused: &mut Paused,
    value: Option<Value>,
    reads: Reads,
    taken: u32,
) -> Result<SliceEnd, Memory>
    requires limits { length (laid_over base.now.objects paused.old.overlay) ≤ most_objects }
    requires stand { AllStand (content_of base.now) (map (use_of who.now) paused.old.uses) }
    ensures { (image : Code) (a : Asked) (w : World) (s : StagePlain) → AreThose base.now who.now into.now paused.old.uses paused.old.given a
        → IsEnd base.now a (option_map value_of value) w paused.old.overlay taken reads
        → IfOk result (λ end. SliceLeads image base.now (ended_so base.now a (option_map value_of value) w) end s) }
{
    let given = paused.given;
    let reads = reads.with_given(base, into, given, &value)?;
    let puts = puts_after(
        alloc,
        base,
        &paused.overlay,
        who,
        &paused.uses,
        into,
        given,
        &value,
    )?;
    let answered = finish(alloc, base, &mut paused.overlay, &puts, value)?;
    Ok(SliceEnd {
        answered: Some(answered),
        reads,
        taken,
    })
}

/// A run goes on from where it is paused, until it ends or needs a unit past these.
pub fn go_on(
    alloc: Global,
    code: &Verified,
    base: &Content,
    who: &Label,
    into: &Option<Label>,
    paused: &mut Paused,
    reads: Reads,
    units: u32,
) -> Result<SliceEnd, Memory>
    requires { (a : Asked) × (p : Phase) × IsAt code.now base.now who.now into.now paused.old reads a p }
    ensures { (a : Asked) (p : Phase) → IsAt code.now base.now who.now into.now paused.old reads a p
        → IfOk result (λ end. SliceLeads code.now base.now (sliced_at code.now base.now units a p) end (PausedStage paused.new)) }
{
    // `image` says that the code is verified.
    let _image = code.image();
    let progress = paused
        .machine
        .run_slice(code, base, &mut paused.overlay, units)?;
    let taken = paused.machine.used();
    let reads = reads.noted(alloc, &paused.overlay)?;
    match progress {
        Progress::Going => Ok(SliceEnd {
            answered: None,
            reads,
            taken,
        }),
        Progress::Aborted(cause) => aborted(alloc, code, base, cause, reads, taken),
        Progress::Finished(value) => finished(alloc, base, who, into, paused, value, reads, taken),
    }
}
