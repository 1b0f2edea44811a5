//! The run of a lane.
ghost use Rattle.std.specs.Prelude.{◌≡◌, ℕ, List, Ok, IfOk};
ghost use Rattle.ob_heap.specs.Contents.{content_of};
ghost use Rattle.ob_request_run_laws.specs.Slices.{slice};
ghost use Rattle.ob_exec.specs.Pausing.{IsRunOn, run_of, Leads};

use ob_base::Memory;
use ob_exec::{Run, SliceOutcome};
use ob_heap::Content;
use ob_verify::Verified;
use std::alloc::Global;
use std::marker::Model;

/// The run of a lane, in a box: it stays where it lies, however its lane is moved.
#[derive(Drop)]
pub struct LaneRun {
    run: Box<Run>,
}

impl Model for LaneRun {
    ghost use Rattle.ob_exec.specs.declared.runs.Run.{Run};

    ghost Value = { Run };

    ghost view = { λ r. r.run.value };
}

impl LaneRun {
    /// A run that was started.
    pub fn new(alloc: Global, run: Result<Run, Memory>) -> Result<LaneRun, Memory>
        ensures { IfOk result (λ r. run ≡ Ok r) }
    {
        match run {
            Ok(run) => Ok(LaneRun {
                run: Box::new(alloc, run)?,
            }),
            Err(Memory) => Err(Memory),
        }
    }

    /// The run.
    pub fn get(&self) -> &Run
        ensures { result.now ≡ self.now }
    {
        &self.run
    }

    /// The run goes on for so many units.
    pub fn slice(
        &mut self,
        code: &Verified,
        base: &Content,
        units: u32,
    ) -> Result<SliceOutcome, Memory>
        requires { (fuel : ℕ) × (given : List ℕ) × IsRunOn code.now fuel base.now given self.old.request self.old.state }
        ensures leads { (fuel : ℕ) (given : List ℕ) → IsRunOn code.now fuel base.now given self.old.request self.old.state
            → IfOk result (Leads code.now base.now (slice code.now fuel (content_of base.now) units (run_of code.now fuel base.now given self.old.request)) self.new) }
        ensures request { self.new.request ≡ self.old.request }
    {
        self.run.slice(code, base, units)
    }
}
