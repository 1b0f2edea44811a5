//! Instructions with which a body returns.
ghost use Rattle.std.specs.Prelude.{List, option_map};
ghost use Rattle.ob_heap.specs.Overlays.{Changes};
ghost use Rattle.ob_heap.specs.Plain.{value_of};
ghost use Rattle.ob_heap.specs.declared.object.Object.{Object};
ghost use Rattle.ob_machine_steps.specs.Returning.{resumes, returns, return_value_step};
ghost use Rattle.ob_machine_parts.specs.Giving.{Gives};
ghost use Rattle.ob_machine.specs.Shown.{shown, told, frames_of, world_of};

use crate::progress::Progress;
use crate::run::Run;
use crate::waiting::pop_frame;
use ob_heap::Value;
use ob_machine_parts::entered::{given_by, leave};
use ob_machine_parts::locks::release_all;
use ob_machine_parts::off::Off;
use ob_machine_parts::slots::{copy_of, give};

impl Run {
    // The newest frame that waits goes on with the result.
    fn resumes(&mut self, value: Option<Value>) -> Result<Progress, Off>
        ensures { (base : List Object) (o : Changes) → Gives result (resumes (frames_of self.old.below) self.old.top.into (option_map value_of value) (world_of self.old base o)) (told (shown self.new base o)) }
    {
        let into = self.top.into;
        match pop_frame(&mut self.below) {
            Some(frame) => {
                self.top = frame;
                give(&mut self.top.slots, into, value)?;
                Ok(Progress::Going)
            }
            None => Ok(Progress::Finished(value)),
        }
    }

    // The innermost frame leaves.
    pub fn returns(&mut self, value: Option<Value>) -> Result<Progress, Off>
        ensures { (base : List Object) (o : Changes) → Gives result (returns (option_map value_of value) (shown self.old base o)) (told (shown self.new base o)) }
    {
        release_all(&mut self.guard, &mut self.top.tests);
        leave(&mut self.guard, self.top.entered, self.top.this);
        let given = given_by(self.top.entered, self.top.this, value);
        self.resumes(given)
    }

    pub fn return_value(&mut self, a: u8) -> Result<Progress, Off>
        ensures { (base : List Object) (o : Changes) → Gives result (return_value_step a (shown self.old base o)) (told (shown self.new base o)) }
    {
        let value = copy_of(self.alloc, &self.top.slots, a)?;
        self.returns(Some(value))
    }
}
