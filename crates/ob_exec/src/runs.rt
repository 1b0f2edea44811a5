//! The run of a request, in slices of units.
ghost use Rattle.std.specs.Prelude.{◌≡◌, ℕ, List, [], ◌∷◌, Some, None, map, IfOk};
ghost use Rattle.ob_code.specs.declared.image.Image.{Image as Code};
ghost use Rattle.ob_code_table.specs.ImageTables.{table_of_image};
ghost use Rattle.ob_heap.specs.Contents.{Stored, content_of};
ghost use Rattle.ob_machine_meaning.specs.Meanings.{machine_invocation};
ghost use Rattle.ob_request_run_laws.specs.Runs.{Run as PlainRun};
ghost use Rattle.ob_request_run_laws.specs.Slices.{slice};
ghost use Rattle.ob_wire.specs.Meanings.{request_of};
ghost use Rattle.ob_owners.specs.Spots.{owner_place};
ghost use Rattle.ob_exec_entries.specs.Naming.{IsNamesOf};
ghost use Rattle.ob_exec_handles.specs.Coming.{IsInLimits};
ghost use Rattle.ob_exec_handles.specs.Spending.{item_of};
ghost use Rattle.ob_exec_handles.specs.declared.answered.Answered.{Answered as Told};
ghost use Rattle.ob_exec.specs.Pausing.{RunRepresents, IsRunOn, into_of, run_of, Leads, SliceLeads};
ghost use Rattle.ob_exec.specs.declared.stage.Stage.TheVariants.{Answered as AnsweredStage};

use crate::answering::reply_to;
use crate::opening::open;
use crate::reads::Reads;
use crate::stage::{SliceEnd, Stage, State, go_on};
use ob_base::{Items, Label, Memory};
use ob_exec_entries::Names;
use ob_exec_handles::{Answered, ReadItem};
use ob_heap::{Content, Delta};
use ob_owners::Index;
use ob_verify::Verified;
use ob_wire::{Op, Reply, Request};
use std::alloc::Global;
use std::mem;

/// The run of a request. It keeps nothing of a store but what it has changed of it and made, so it goes on upon each that agrees with
/// the one on which it was started on all that it has read.
#[derive(Drop)]
pub struct Run {
    pub(crate) alloc: Global,
    pub(crate) request: Request,
    pub(crate) state: State,
}

/// What a slice of a run leads to.
#[derive(Drop)]
pub enum SliceOutcome {
    /// The run has ended: its reply, and what differs in the store after it.
    Ended(Reply, Delta),
    /// It is paused: it needs a unit past the slice.
    Paused,
}

// The name for the handle on what a request gives, if it has one; else this, which is none.
fn into_of<'a>(op: &'a Op, none: &'a Option<Label>) -> &'a Option<Label>
    requires { none.now ≡ None }
    ensures { result.now ≡ into_of op.now }
{
    match op {
        Op::New { into, .. } => into,
        Op::Call { into, .. } => into,
        Op::Disown { .. } => none,
        Op::Give { .. } => none,
        Op::See { .. } => none,
        Op::Owner { .. } => none,
    }
}

// The state of a run that was opened.
fn state_of(stage: Stage, end: SliceEnd) -> State
    ensures { (image : Code) (base : Stored) (r : PlainRun) → SliceLeads image base r end stage → RunRepresents image base r result }
{
    let SliceEnd {
        answered,
        reads,
        taken,
    } = end;
    match answered {
        None => State {
            stage,
            reads,
            taken,
        },
        Some(answered) => State {
            stage: Stage::Answered(answered),
            reads,
            taken,
        },
    }
}

// The answer of a run is taken out.
fn take_answer(stage: &mut Stage, reads: Reads, taken: u32) -> SliceEnd
    requires { (told : Told) × (stage.old ≡ AnsweredStage told) }
    ensures { (told : Told) → stage.old ≡ AnsweredStage told → result ≡ record { answered = Some told; reads = reads; taken = taken } }
{
    match mem::replace(stage, Stage::Over) {
        Stage::Answered(answered) => SliceEnd {
            answered: Some(answered),
            reads,
            taken,
        },
        Stage::Paused(_) => unreachable!(),
        Stage::Over => unreachable!(),
    }
}

// A slice of so many units of a request's run, which isn't over.
fn slice_of(
    alloc: Global,
    code: &Verified,
    base: &Content,
    request: &Request,
    stage: &mut Stage,
    reads: Reads,
    taken: u32,
    units: u32,
) -> Result<SliceEnd, Memory>
    requires { (fuel : ℕ) × (given : List ℕ) × IsRunOn code.now fuel base.now given request.now (record { stage = stage.old; reads = reads; taken = taken }) }
    ensures { (fuel : ℕ) (given : List ℕ) → IsRunOn code.now fuel base.now given request.now (record { stage = stage.old; reads = reads; taken = taken })
        → IfOk result (λ end. SliceLeads code.now base.now (slice code.now fuel (content_of base.now) units (run_of code.now fuel base.now given request.now)) end stage.new) }
{
    // `image` says that the code is verified.
    let _image = code.image();
    match stage {
        Stage::Paused(paused) => {
            let none = None;
            let into = into_of(&request.op, &none);
            go_on(alloc, code, base, &request.who, into, paused, reads, units)
        }
        Stage::Answered(_) => Ok(take_answer(stage, reads, taken)),
        Stage::Over => unreachable!(),
    }
}

impl Run {
    /// The run of a request once its refusals and its entry test were asked on what a store holds, before its first unit. `fuel` is how
    /// many units it has in all. The index tells the owners of the store's objects.
    pub fn start<I: Index>(
        alloc: Global,
        code: &Verified,
        names: &Names,
        content: &Content,
        index: &I,
        request: Request,
        fuel: u32,
    ) -> Result<Run, Memory>
        requires names { IsNamesOf names.now code.now }
        requires index { (n : ℕ) → I.owner index.now n ≡ owner_place (table_of_image code.now) (content_of content.now) n }
        requires right { IsInLimits (machine_invocation code.now (content_of content.now) (request_of request) fuel) }
        ensures stands { IfOk result (λ run. RunRepresents code.now content.now (run_of code.now fuel content.now (0 ∷ []) request) run.state) }
        ensures request { IfOk result (λ run. run.request ≡ request) }
    {
        let mut stage = Stage::Over;
        let end = open(
            alloc,
            code,
            names,
            content,
            index,
            &request.who,
            &request.op,
            &mut stage,
            fuel,
            0,
        )?;
        let state = state_of(stage, end);
        Ok(Run {
            alloc,
            request,
            state,
        })
    }

    // The run is where a slice of it has ended.
    fn stop(&mut self, end: SliceEnd) -> SliceOutcome
        ensures leads { (image : Code) (base : Stored) (r : PlainRun) → SliceLeads image base r end self.old.state.stage → Leads image base r self.new result }
        ensures request { self.new.request ≡ self.old.request }
    {
        let SliceEnd {
            answered,
            reads,
            taken,
        } = end;
        self.state.reads = reads;
        self.state.taken = taken;
        match answered {
            None => SliceOutcome::Paused,
            Some(answered) => {
                self.state.stage = Stage::Over;
                let Answered { answer, delta } = answered;
                let reply = reply_to(&self.request, answer);
                SliceOutcome::Ended(reply, delta)
            }
        }
    }

    /// Runs on upon what a store holds, with what the run has changed of its objects laid over them, until the request has ended or
    /// needs a unit past these; the run's own fuel is tested first. It isn't called any more once it has answered `Ended`.
    ///
    /// # Errors
    ///
    /// `Memory` where memory runs out. The run is to be dropped then: what it had read is lost.
    pub fn slice(
        &mut self,
        code: &Verified,
        base: &Content,
        units: u32,
    ) -> Result<SliceOutcome, Memory>
        requires { (fuel : ℕ) × (given : List ℕ) × IsRunOn code.now fuel base.now given self.old.request self.old.state }
        ensures leads { (fuel : ℕ) (given : List ℕ) → IsRunOn code.now fuel base.now given self.old.request self.old.state
            → IfOk result (Leads code.now base.now (slice code.now fuel (content_of base.now) units (run_of code.now fuel base.now given self.old.request)) self.new) }
        ensures request { self.new.request ≡ self.old.request }
    {
        let alloc = self.alloc;
        let none = Reads::new(alloc, Items::new(alloc));
        let reads = mem::replace(&mut self.state.reads, none);
        let taken = self.state.taken;
        let end = slice_of(
            alloc,
            code,
            base,
            &self.request,
            &mut self.state.stage,
            reads,
            taken,
            units,
        )?;
        Ok(self.stop(end))
    }

    /// The items that the run has read, in the order in which they were noted.
    pub fn reads(&self) -> &[ReadItem]
        ensures { map item_of result.now ≡ self.now.state.reads }
    {
        self.state.reads.as_slice()
    }

    /// How many units the run has taken.
    pub fn used(&self) -> u32
        ensures { result ≡ self.now.state.taken }
    {
        self.state.taken
    }
}
