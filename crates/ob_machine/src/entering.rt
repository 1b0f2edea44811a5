//! The first step of a run: it enters its body.
ghost use Rattle.std.specs.Prelude.{List, Some, map, OnOk};
ghost use Rattle.ob_heap.specs.Overlays.{Changes, KeepsUnread, no_object};
ghost use Rattle.ob_heap.specs.Plain.{value_of};
ghost use Rattle.ob_heap.specs.declared.object.Object.{Object};
ghost use Rattle.ob_machine_steps.specs.Calling.{calls_object, makes_object};
ghost use Rattle.ob_machine_steps.specs.Entries.{starting, next_step, nobody};
ghost use Rattle.ob_machine_parts.specs.Giving.{Gives};
ghost use Rattle.ob_machine.specs.Phases.{entry_of, enters_body};
ghost use Rattle.ob_machine_parts.specs.Shown.{entered_of};
ghost use Rattle.ob_machine.specs.Shown.{shown, told, world_of, Tells};

use crate::entry::Entry;
use crate::frame::Frame;
use crate::progress::{Cause, Progress};
use crate::run::Run;
use ob_base::{ContractId, Items, ObjectId, TxId};
use ob_code::{Image, NO_RESULT};
use ob_heap::{Content, Overlay, Value};
use ob_machine_parts::arguments::first_of;
use ob_machine_parts::calling::{answer, enter};
use ob_machine_parts::entered::{EnteredBy, is_shared_in};
use ob_machine_parts::heap::make;
use ob_machine_parts::lookups::body_at;
use ob_machine_parts::off::Off;

impl Run {
    // The body of an entry begins on an object.
    fn enters_body(
        &mut self,
        code: &Image,
        contract: ContractId,
        tx: TxId,
        this: ObjectId,
        entered: EnteredBy,
        args: &[Value],
    ) -> Result<Progress, Off>
        ensures { (base : List Object) (o : Changes) → Gives result (enters_body code.now (contract, tx) this.0 (entered_of entered) (map value_of args.now) (world_of self.old base o)) (told (shown self.new base o)) }
    {
        let body = body_at(code, contract, tx)?;
        let slots = first_of(self.alloc, body.slots, this, args)?;
        let share_entered = is_shared_in(entered, body, false);
        let tests = Items::new(self.alloc);
        self.top = Frame {
            this,
            contract,
            tx,
            at: 0,
            slots,
            entered,
            share_entered,
            tests,
            into: NO_RESULT,
        };
        self.below = Items::new(self.alloc);
        Ok(Progress::Going)
    }

    fn enters_object(
        &mut self,
        code: &Image,
        base: &Content,
        overlay: &mut Overlay,
        id: ObjectId,
        entry: &Entry,
    ) -> Result<Progress, Off>
        ensures told { Tells result (calls_object code.now nobody entry.now.contract entry.now.tx id.0 (map value_of entry.now.args) (world_of self.old base.now.objects overlay.old)) (shown self.new base.now.objects overlay.new) }
        ensures unread { OnOk result (KeepsUnread no_object overlay.old overlay.new) }
    {
        if !enter(base, overlay, &mut self.guard, id)? {
            return Ok(Progress::Aborted(Cause::Reentry(id)));
        }
        let answer = answer(code, base, overlay, entry.contract, entry.tx, id)?;
        self.enters_body(
            code,
            answer.0,
            answer.1,
            id,
            EnteredBy::Receiver,
            entry.args.as_slice(),
        )
    }

    fn enters_new(
        &mut self,
        code: &Image,
        base: &Content,
        overlay: &mut Overlay,
        entry: &Entry,
    ) -> Result<Progress, Off>
        ensures told { Tells result (makes_object code.now nobody entry.now.contract (Some entry.now.tx) (map value_of entry.now.args) (world_of self.old base.now.objects overlay.old)) (shown self.new base.now.objects overlay.new) }
        ensures unread { OnOk result (KeepsUnread no_object overlay.old overlay.new) }
    {
        match make(self.alloc, base, overlay, entry.contract)? {
            Some(id) => self.enters_body(
                code,
                entry.contract,
                entry.tx,
                id,
                EnteredBy::New,
                entry.args.as_slice(),
            ),
            None => Ok(Progress::Aborted(Cause::Full)),
        }
    }

    // Takes the unit of the entry, and enters its body.
    #[tactic(auto, using(crate::proofs::UnreadLemmas::leaving))]
    pub fn begin(
        &mut self,
        code: &Image,
        base: &Content,
        overlay: &mut Overlay,
        entry: &Entry,
    ) -> Result<Progress, Off>
        ensures told { Tells result (next_step code.now (starting (entry_of entry.now) (world_of self.old base.now.objects overlay.old))) (shown self.new base.now.objects overlay.new) }
        ensures unread { OnOk result (KeepsUnread no_object overlay.old overlay.new) }
    {
        if !self.units.take() {
            return Ok(Progress::Aborted(Cause::Fuel));
        }
        match entry.receiver {
            Some(id) => self.enters_object(code, base, overlay, id, entry),
            None => self.enters_new(code, base, overlay, entry),
        }
    }
}
