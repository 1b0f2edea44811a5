//! The beginning of a body.
ghost use Rattle.std.specs.Prelude.{◌≡◌, ◌+◌, List, Some};
ghost use Rattle.ob_heap.specs.Overlays.{Changes};
ghost use Rattle.ob_heap.specs.declared.object.Object.{Object};
ghost use Rattle.ob_machine.specs.Beginning.{begins, runs};
ghost use Rattle.ob_machine_parts.specs.Giving.{Gives};
ghost use Rattle.ob_machine_parts.specs.Shown.{entered_of};
ghost use Rattle.ob_machine.specs.Shown.{shown, told, frame_of};

use crate::frame::Frame;
use crate::progress::Progress;
use crate::run::Run;
use crate::waiting::push_frame;
use ob_base::{ContractId, Items, ObjectId, TxId};
use ob_code::Image;
use ob_machine_parts::arguments::first;
use ob_machine_parts::entered::{EnteredBy, is_shared_in};
use ob_machine_parts::lookups::body_at;
use ob_machine_parts::off::Off;
use std::mem;

impl Run {
    // Another frame begins, and the innermost one waits behind its call.
    fn begins(&mut self, frame: Frame, next: usize) -> Result<Progress, Off>
        requires { next ≡ self.old.top.at + 1 }
        ensures { (base : List Object) (o : Changes) → Gives result (Some (begins (frame_of frame) (shown self.old base o))) (told (shown self.new base o)) }
    {
        let mut caller = mem::replace(&mut self.top, frame);
        caller.at = next;
        push_frame(&mut self.below, caller)?;
        Ok(Progress::Going)
    }

    // A body runs on an object.
    pub fn runs(
        &mut self,
        code: &Image,
        into: u8,
        contract: ContractId,
        tx: TxId,
        this: ObjectId,
        entered: EnteredBy,
        args: &[u8],
        next: usize,
    ) -> Result<Progress, Off>
        requires { next ≡ self.old.top.at + 1 }
        ensures { (base : List Object) (o : Changes) → Gives result (runs code.now into (contract, tx) this.0 (entered_of entered) args.now (shown self.old base o)) (told (shown self.new base o)) }
    {
        let body = body_at(code, contract, tx)?;
        let slots = first(self.alloc, body.slots, this, &self.top.slots, args)?;
        let share_entered = is_shared_in(entered, body, self.top.share_entered);
        let tests = Items::new(self.alloc);
        let frame = Frame {
            this,
            contract,
            tx,
            at: 0,
            slots,
            entered,
            share_entered,
            tests,
            into,
        };
        self.begins(frame, next)
    }
}
