//! Instructions that read or change `this`.
ghost use Rattle.std.specs.Prelude.{◌≡◌, ◌+◌, List, length, OnOk};
ghost use Rattle.ob_heap.specs.Overlays.{Changes, KeepsUnread, no_object, only};
ghost use Rattle.ob_heap.specs.declared.object.Object.{Object};
ghost use Rattle.ob_machine_steps.specs.Straight.{load_step, share_step, disown_step};
ghost use Rattle.ob_machine_steps.specs.Changing.{store_step, change_step, is_locked_out};
ghost use Rattle.ob_machine.specs.Changes.{changed_to};
ghost use Rattle.ob_machine_parts.specs.Giving.{Gives};
ghost use Rattle.ob_machine.specs.Shown.{shown, told, Tells};

use crate::progress::{Cause, Progress};
use crate::run::Run;
use ob_base::{FieldId, ObjectId, StateId};
use ob_code::{ContractCode, Image};
use ob_heap::{Content, Overlay};
use ob_machine_parts::fields::{are_available, are_given, kept_in, store, with_given};
use ob_machine_parts::heap::{field_value, find, mark_disowned, mark_shared, set_state};
use ob_machine_parts::lookups::contract_at;
use ob_machine_parts::off::Off;
use ob_machine_parts::slots::reference;

impl Run {
    pub fn load(
        &mut self,
        base: &Content,
        overlay: &Overlay,
        slot: u8,
        field: FieldId,
        next: usize,
    ) -> Result<Progress, Off>
        requires { next ≡ self.old.top.at + 1 }
        ensures { Gives result (load_step slot field (shown self.old base.now.objects overlay.now)) (told (shown self.new base.now.objects overlay.now)) }
    {
        let value = field_value(self.alloc, find(base, overlay, self.top.this)?, field)?;
        self.sets(slot, value, next)
    }

    pub fn store(
        &mut self,
        code: &Image,
        base: &Content,
        overlay: &mut Overlay,
        field: FieldId,
        a: u8,
        next: usize,
    ) -> Result<Progress, Off>
        requires { next ≡ self.old.top.at + 1 }
        ensures told { Gives result (store_step code.now field a (shown self.old base.now.objects overlay.old)) (told (shown self.new base.now.objects overlay.new)) }
        ensures unread { OnOk result (KeepsUnread (only (length base.now.objects) self.old.top.this.0) overlay.old overlay.new) }
    {
        match store(
            self.alloc,
            code,
            base,
            overlay,
            &self.top.slots,
            self.top.this,
            field,
            a,
        ) {
            Ok(()) => Ok(self.goes_on(next)),
            Err(off) => Err(off),
        }
    }

    // Whether the innermost body is share-entered while an object is locked.
    pub fn is_locked_out(&self, id: ObjectId) -> bool
        ensures { (base : List Object) (o : Changes) → result ≡ is_locked_out (shown self.now base o) id.0 }
    {
        self.top.share_entered && !self.guard.may_change(id)
    }

    pub fn change(
        &mut self,
        code: &Image,
        base: &Content,
        overlay: &mut Overlay,
        state: StateId,
        given: &[(FieldId, u8)],
        next: usize,
    ) -> Result<Progress, Off>
        requires { next ≡ self.old.top.at + 1 }
        ensures told { Gives result (change_step code.now state given.now (shown self.old base.now.objects overlay.old)) (told (shown self.new base.now.objects overlay.new)) }
        ensures unread { OnOk result (KeepsUnread (only (length base.now.objects) self.old.top.this.0) overlay.old overlay.new) }
    {
        let own = contract_at(code, self.top.contract)?;
        if !are_given(&self.top.slots, given) {
            return Err(Off::NoStep);
        }
        if self.is_locked_out(self.top.this) {
            return Ok(Progress::Aborted(Cause::State(self.top.this, None)));
        }
        self.changes_to(own, base, overlay, state, given, next)
    }

    // `this` changes its state, with these slots given, which are set.
    fn changes_to(
        &mut self,
        own: &ContractCode,
        base: &Content,
        overlay: &mut Overlay,
        state: StateId,
        given: &[(FieldId, u8)],
        next: usize,
    ) -> Result<Progress, Off>
        requires { next ≡ self.old.top.at + 1 }
        ensures told { Gives result (changed_to own.now state given.now (shown self.old base.now.objects overlay.old)) (told (shown self.new base.now.objects overlay.new)) }
        ensures unread { OnOk result (KeepsUnread (only (length base.now.objects) self.old.top.this.0) overlay.old overlay.new) }
    {
        let object = find(base, overlay, self.top.this)?;
        if !are_available(own, state, given) {
            return Err(Off::NoStep);
        }
        let kept = kept_in(self.alloc, own, state, object.fields.as_slice())?;
        let fields = with_given(self.alloc, &self.top.slots, given, kept)?;
        set_state(self.alloc, base, overlay, self.top.this, state, fields)?;
        Ok(self.goes_on(next))
    }

    pub fn share(
        &mut self,
        base: &Content,
        overlay: &mut Overlay,
        a: u8,
        next: usize,
    ) -> Result<Progress, Off>
        requires { next ≡ self.old.top.at + 1 }
        ensures told { Tells result (share_step a (shown self.old base.now.objects overlay.old)) (shown self.new base.now.objects overlay.new) }
        ensures unread { OnOk result (KeepsUnread no_object overlay.old overlay.new) }
    {
        let id = reference(&self.top.slots, a)?;
        let _there = find(base, overlay, id)?;
        mark_shared(self.alloc, base, overlay, id)?;
        Ok(self.goes_on(next))
    }

    pub fn disown(
        &mut self,
        base: &Content,
        overlay: &mut Overlay,
        a: u8,
        next: usize,
    ) -> Result<Progress, Off>
        requires { next ≡ self.old.top.at + 1 }
        ensures told { Tells result (disown_step a (shown self.old base.now.objects overlay.old)) (shown self.new base.now.objects overlay.new) }
        ensures unread { OnOk result (KeepsUnread no_object overlay.old overlay.new) }
    {
        let id = reference(&self.top.slots, a)?;
        let _there = find(base, overlay, id)?;
        mark_disowned(self.alloc, base, overlay, id)?;
        Ok(self.goes_on(next))
    }
}
