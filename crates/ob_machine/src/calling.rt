//! Instructions that call a transaction or make an object.
ghost use Rattle.std.specs.Prelude.{◌≡◌, ◌+◌, true, List, OnOk};
ghost use Rattle.ob_heap.specs.Overlays.{Changes, KeepsUnread, no_object};
ghost use Rattle.ob_heap.specs.declared.object.Object.{Object};
ghost use Rattle.ob_machine_steps.specs.Calling.{call_step, self_step, new_step};
ghost use Rattle.ob_machine_parts.specs.Arguments.{are_set};
ghost use Rattle.ob_machine.specs.Calls.{calls_with, makes_with, constructs_with};
ghost use Rattle.ob_machine_parts.specs.Giving.{Gives};
ghost use Rattle.ob_machine_parts.specs.Shown.{slots_of};
ghost use Rattle.ob_machine.specs.Shown.{shown, told, Tells};

use crate::progress::{Cause, Progress};
use crate::run::Run;
use ob_base::{ContractId, ObjectId, TxId};
use ob_code::Image;
use ob_heap::{Content, Overlay};
use ob_machine_parts::calling::{answer, enter};
use ob_machine_parts::entered::EnteredBy;
use ob_machine_parts::heap::make;
use ob_machine_parts::lookups::{constructor_of, contract_at};
use ob_machine_parts::off::Off;
use ob_machine_parts::slots::{are_set, reference};

impl Run {
    // Calls an object, once the unit of the call is taken.
    fn calls(
        &mut self,
        code: &Image,
        base: &Content,
        overlay: &mut Overlay,
        slot: u8,
        id: ObjectId,
        contract: ContractId,
        tx: TxId,
        args: &[u8],
        next: usize,
    ) -> Result<Progress, Off>
        requires next { next ≡ self.old.top.at + 1 }
        requires set { are_set (slots_of self.old.top.slots) args.now ≡ true }
        ensures told { Tells result (calls_with code.now slot contract tx id.0 args.now (shown self.old base.now.objects overlay.old)) (shown self.new base.now.objects overlay.new) }
        ensures unread { OnOk result (KeepsUnread no_object overlay.old overlay.new) }
    {
        if !enter(base, overlay, &mut self.guard, id)? {
            return Ok(Progress::Aborted(Cause::Reentry(id)));
        }
        let answer = answer(code, base, overlay, contract, tx, id)?;
        self.runs(
            code,
            slot,
            answer.0,
            answer.1,
            id,
            EnteredBy::Receiver,
            args,
            next,
        )
    }

    pub fn call(
        &mut self,
        code: &Image,
        base: &Content,
        overlay: &mut Overlay,
        slot: u8,
        a: u8,
        contract: ContractId,
        tx: TxId,
        args: &[u8],
        next: usize,
    ) -> Result<Progress, Off>
        requires { next ≡ self.old.top.at + 1 }
        ensures told { Tells result (call_step code.now slot a contract tx args.now (shown self.old base.now.objects overlay.old)) (shown self.new base.now.objects overlay.new) }
        ensures unread { OnOk result (KeepsUnread no_object overlay.old overlay.new) }
    {
        let id = reference(&self.top.slots, a)?;
        if !are_set(&self.top.slots, args) {
            return Err(Off::NoStep);
        }
        if !self.units.take() {
            return Ok(Progress::Aborted(Cause::Fuel));
        }
        self.calls(code, base, overlay, slot, id, contract, tx, args, next)
    }

    pub fn self_call(
        &mut self,
        code: &Image,
        slot: u8,
        tx: TxId,
        args: &[u8],
        next: usize,
    ) -> Result<Progress, Off>
        requires { next ≡ self.old.top.at + 1 }
        ensures { (base : List Object) (o : Changes) → Gives result (self_step code.now slot tx args.now (shown self.old base o)) (told (shown self.new base o)) }
    {
        if !are_set(&self.top.slots, args) {
            return Err(Off::NoStep);
        }
        if !self.units.take() {
            return Ok(Progress::Aborted(Cause::Fuel));
        }
        let contract = self.top.contract;
        let this = self.top.this;
        self.runs(code, slot, contract, tx, this, EnteredBy::This, args, next)
    }

    // The constructor of a contract runs on an object.
    fn constructs(
        &mut self,
        code: &Image,
        slot: u8,
        id: ObjectId,
        contract: ContractId,
        args: &[u8],
        next: usize,
    ) -> Result<Progress, Off>
        requires { next ≡ self.old.top.at + 1 }
        ensures { (base : List Object) (o : Changes) → Gives result (constructs_with code.now slot contract id.0 args.now (shown self.old base o)) (told (shown self.new base o)) }
    {
        let tx = constructor_of(contract_at(code, contract)?)?;
        self.runs(code, slot, contract, tx, id, EnteredBy::New, args, next)
    }

    // Makes an object, once the unit of the `new` is taken.
    fn makes(
        &mut self,
        code: &Image,
        base: &Content,
        overlay: &mut Overlay,
        slot: u8,
        contract: ContractId,
        args: &[u8],
        next: usize,
    ) -> Result<Progress, Off>
        requires next { next ≡ self.old.top.at + 1 }
        requires set { are_set (slots_of self.old.top.slots) args.now ≡ true }
        ensures told { Tells result (makes_with code.now slot contract args.now (shown self.old base.now.objects overlay.old)) (shown self.new base.now.objects overlay.new) }
        ensures unread { OnOk result (KeepsUnread no_object overlay.old overlay.new) }
    {
        match make(self.alloc, base, overlay, contract)? {
            Some(id) => self.constructs(code, slot, id, contract, args, next),
            None => Ok(Progress::Aborted(Cause::Full)),
        }
    }

    pub fn new_object(
        &mut self,
        code: &Image,
        base: &Content,
        overlay: &mut Overlay,
        slot: u8,
        contract: ContractId,
        args: &[u8],
        next: usize,
    ) -> Result<Progress, Off>
        requires { next ≡ self.old.top.at + 1 }
        ensures told { Tells result (new_step code.now slot contract args.now (shown self.old base.now.objects overlay.old)) (shown self.new base.now.objects overlay.new) }
        ensures unread { OnOk result (KeepsUnread no_object overlay.old overlay.new) }
    {
        if !are_set(&self.top.slots, args) {
            return Err(Off::NoStep);
        }
        if !self.units.take() {
            return Ok(Progress::Aborted(Cause::Fuel));
        }
        self.makes(code, base, overlay, slot, contract, args, next)
    }
}
