//! Instructions that test the state of an object, and that end a test.
ghost use Rattle.std.specs.Prelude.{◌≡◌, ◌+◌, false, List, option_map, OnOk};
ghost use Rattle.ob_heap.specs.Overlays.{Changes, KeepsUnread, no_object};
ghost use Rattle.ob_heap.specs.declared.object.Object.{Object};
ghost use Rattle.ob_heap_spec.specs.Objects.{Object as PlainObject};
ghost use Rattle.ob_machine_steps.specs.Testing.{branches, tests_this, tests_other, test_step, end_test_step};
ghost use Rattle.ob_machine_parts.specs.Giving.{Gives};
ghost use Rattle.ob_machine_parts.specs.Guarding.{holds_lock};
ghost use Rattle.ob_machine_parts.specs.Shown.{number_of};
ghost use Rattle.ob_machine.specs.Shown.{shown, told, Tells};

use crate::progress::{Cause, Progress};
use crate::run::Run;
use ob_base::{ContractId, ObjectId, StateId};
use ob_code::Image;
use ob_heap::{Content, Overlay};
use ob_machine_parts::heap::{find, note};
use ob_machine_parts::locks::{pop_test, push_test, release, take_lock};
use ob_machine_parts::off::Off;
use ob_machine_parts::seen::is_in_state;
use ob_machine_parts::slots::reference;

impl Run {
    // Where a test holds it is noted, with the lock that it takes; else the run goes to the target.
    fn branches(
        &mut self,
        lock: Option<ObjectId>,
        target: usize,
        next: usize,
        holds: bool,
    ) -> Result<Progress, Off>
        requires next { next ≡ self.old.top.at + 1 }
        requires unlocked { holds_lock (option_map number_of lock) self.old.guard ≡ false }
        ensures { (base : List Object) (o : Changes) → Gives result (branches (option_map number_of lock) target (shown self.old base o) holds) (told (shown self.new base o)) }
    {
        if !holds {
            return Ok(self.goes_on(target));
        }
        take_lock(&mut self.guard, lock)?;
        push_test(&mut self.top.tests, lock)?;
        Ok(self.goes_on(next))
    }

    fn tests_this(
        &mut self,
        id: ObjectId,
        target: usize,
        next: usize,
        holds: bool,
    ) -> Result<Progress, Off>
        requires { next ≡ self.old.top.at + 1 }
        ensures { (base : List Object) (o : Changes) → Gives result (tests_this id.0 target (shown self.old base o) holds) (told (shown self.new base o)) }
    {
        if self.is_locked_out(id) {
            return Ok(Progress::Aborted(Cause::State(id, None)));
        }
        self.branches(None, target, next, holds)
    }

    fn tests_other(
        &mut self,
        id: ObjectId,
        shared: bool,
        target: usize,
        next: usize,
        holds: bool,
    ) -> Result<Progress, Off>
        requires { next ≡ self.old.top.at + 1 }
        ensures { (base : List Object) (o : Changes) (x : PlainObject) → x.shared ≡ shared → Gives result (tests_other id.0 x target (shown self.old base o) holds) (told (shown self.new base o)) }
    {
        if !shared {
            return self.branches(None, target, next, holds);
        }
        if !self.guard.may_change(id) || self.guard.busy(id) {
            return Ok(Progress::Aborted(Cause::State(id, None)));
        }
        self.branches(Some(id), target, next, holds)
    }

    pub fn test(
        &mut self,
        code: &Image,
        base: &Content,
        overlay: &mut Overlay,
        a: u8,
        contract: ContractId,
        state: StateId,
        target: usize,
        next: usize,
    ) -> Result<Progress, Off>
        requires { next ≡ self.old.top.at + 1 }
        ensures told { Tells result (test_step code.now a contract state target (shown self.old base.now.objects overlay.old)) (shown self.new base.now.objects overlay.new) }
        ensures unread { OnOk result (KeepsUnread no_object overlay.old overlay.new) }
    {
        let id = reference(&self.top.slots, a)?;
        let object = find(base, overlay, id)?;
        let holds = is_in_state(code, contract, state, object);
        let shared = object.shared;
        note(base, overlay, id)?;
        if a == 0 {
            self.tests_this(id, target, next, holds)
        } else {
            self.tests_other(id, shared, target, next, holds)
        }
    }

    pub fn end_test(&mut self, next: usize) -> Result<Progress, Off>
        requires { next ≡ self.old.top.at + 1 }
        ensures { (base : List Object) (o : Changes) → Gives result (end_test_step (shown self.old base o)) (told (shown self.new base o)) }
    {
        match pop_test(&mut self.top.tests) {
            None => Err(Off::NoStep),
            Some(lock) => {
                release(&mut self.guard, lock);
                Ok(self.goes_on(next))
            }
        }
    }
}
