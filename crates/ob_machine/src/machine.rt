//! The machine.
ghost use Rattle.std.specs.Prelude.{◌≡◌, [], List, Some, map, option_map, IsSome, IfSome, IfOk, OnOk};
ghost use Rattle.ob_heap.specs.Overlays.{Changes, no_changes, KeepsUnread, no_object};
ghost use Rattle.ob_heap.specs.Plain.{object_of};
ghost use Rattle.ob_heap.specs.declared.object.Object.{Object};
ghost use Rattle.ob_machine_steps.specs.Entries.{starting, marked_world, started, next_step, HasStep};
ghost use Rattle.ob_machine_steps.specs.Runs.{world_of};
ghost use Rattle.ob_machine_laws.specs.Laws.{SamePhase, SameNext, HasToldFrames};
ghost use Rattle.ob_machine_parts.specs.Guarding.{locked_at_entry};
ghost use Rattle.ob_machine.specs.Phases.{phase_of, entry_of, HasBegun, world_at_start};
ghost use Rattle.ob_machine_parts.specs.Shown.{number_of};
ghost use Rattle.ob_machine.specs.Shown.{shown, told, Tells};
ghost use Rattle.ob_machine.specs.Unread.{Leaves};

use crate::entry::Entry;
use crate::frame::Frame;
use crate::marking::mark;
use crate::progress::Progress;
use crate::run::Run;
use ob_base::{Items, Memory, ObjectId, TxId};
use ob_code::{Image, NO_RESULT};
use ob_heap::{Content, Overlay};
use ob_machine_parts::entered::EnteredBy;
use ob_machine_parts::guard::Guard;
use ob_machine_parts::off::Off;
use ob_machine_parts::units::Units;
use ob_verify::Verified;
use std::alloc::Global;

/// The machine in a run from an entry on (this project's own).
#[derive(Drop)]
pub struct Machine {
    /// What the run enters, until its first step.
    pub(crate) entry: Option<Entry>,
    /// The run; before its first step it has a frame that isn't used.
    pub(crate) run: Run,
}

// The lock of an entry, if it has one.
fn lock_receiver(guard: &mut Guard, lock: bool, receiver: Option<ObjectId>) -> Result<(), Memory>
    requires { guard.old.locked ≡ [] }
    ensures { OnOk result (guard.new ≡ locked_at_entry lock (option_map number_of receiver) guard.old) }
{
    if lock {
        if let Some(id) = receiver {
            let _taken = guard.lock(id)?;
        }
    }
    Ok(())
}

impl Machine {
    /// The machine before the first step of a run from an entry, with so many units of fuel.
    pub fn start(alloc: Global, entry: Entry, fuel: u32) -> Result<Machine, Memory>
        ensures { IfOk result (λ m. (base : List Object) (o : Changes) → phase_of m base o ≡ starting (entry_of entry) (world_at_start entry base o fuel)) }
    {
        let mut guard = Guard::new(alloc);
        lock_receiver(&mut guard, entry.lock, entry.receiver)?;
        let top = Frame {
            this: ObjectId(0),
            contract: entry.contract,
            tx: TxId(0),
            at: 0,
            slots: Items::new(alloc),
            entered: EnteredBy::This,
            share_entered: false,
            tests: Items::new(alloc),
            into: NO_RESULT,
        };
        let run = Run {
            alloc,
            top,
            below: Items::new(alloc),
            guard,
            units: Units::new(fuel),
        };
        Ok(Machine {
            entry: Some(entry),
            run,
        })
    }

    /// The machine before the first step of a run from an entry, with so many units of fuel, once what comes into its body was
    /// marked through the overlay: the receiver and the arguments that are declared Shared there. Of what isn't read the entries in the
    /// overlay stay.
    pub fn enter(
        alloc: Global,
        code: &Verified,
        base: &Content,
        overlay: &mut Overlay,
        entry: Entry,
        fuel: u32,
    ) -> Result<Machine, Memory>
        ensures marked { IfOk result (λ m. SamePhase (starting (entry_of entry) (marked_world code.now (entry_of entry) (world_at_start entry base.now.objects overlay.old fuel))) (phase_of m base.now.objects overlay.new)) }
        ensures unread { IfOk result (λ m. KeepsUnread no_object overlay.old overlay.new × HasToldFrames (phase_of m base.now.objects overlay.new)) }
        ensures started { overlay.old ≡ no_changes → IfOk result (λ m. SamePhase (started code.now (entry_of entry) (map object_of base.now.objects) fuel) (phase_of m base.now.objects overlay.new)) }
    {
        mark(alloc, code.image(), base, overlay, &entry)?;
        Machine::start(alloc, entry, fuel)
    }

    /// How many units the run has taken.
    pub fn used(&self) -> u32
        ensures { (base : List Object) (o : Changes) → result ≡ (world_of (phase_of self.now base o)).taken }
    {
        self.run.units.taken()
    }

    /// The next step, if there is one.
    pub fn advance(
        &mut self,
        code: &Image,
        base: &Content,
        overlay: &mut Overlay,
    ) -> Result<Progress, Off>
        ensures told { Tells result (next_step code.now (phase_of self.old base.now.objects overlay.old)) (shown self.new.run base.now.objects overlay.new) }
        ensures begun { OnOk result (HasBegun self.new) }
        ensures unread { HasToldFrames (phase_of self.old base.now.objects overlay.old) → OnOk result (KeepsUnread no_object overlay.old overlay.new) }
    {
        match &self.entry {
            Some(entry) => {
                let progress = self.run.begin(code, base, overlay, entry)?;
                self.entry = None;
                Ok(progress)
            }
            None => self.run.tried(code, base, overlay),
        }
    }

    /// Makes the next step of the run, if it has one; else the answer is `None`. The order of what was read, and how often, isn't
    /// told; of what isn't read the entries in the overlay stay.
    pub fn try_step(
        &mut self,
        code: &Verified,
        base: &Content,
        overlay: &mut Overlay,
    ) -> Result<Option<Progress>, Memory>
        ensures step { IfOk result (λ found. SameNext (next_step code.now (phase_of self.old base.now.objects overlay.old)) (option_map (told (shown self.new.run base.now.objects overlay.new)) found)) }
        ensures begun { IfOk result (λ found. IsSome found → HasBegun self.new) }
        ensures unread { HasToldFrames (phase_of self.old base.now.objects overlay.old) → IfOk result (λ found. IfSome found (λ progress. Leaves progress overlay.old overlay.new (phase_of self.new base.now.objects overlay.new))) }
    {
        match self.advance(code.image(), base, overlay) {
            Ok(progress) => Ok(Some(progress)),
            Err(Off::NoStep) => Ok(None),
            Err(Off::Memory) => Err(Memory),
        }
    }

    /// Makes the next step of the run, which must have one. The order of what was read, and how often, isn't told; of what isn't
    /// read the entries in the overlay stay.
    pub fn step(
        &mut self,
        code: &Verified,
        base: &Content,
        overlay: &mut Overlay,
    ) -> Result<Progress, Memory>
        requires { HasStep code.now (phase_of self.old base.now.objects overlay.old) }
        ensures step { IfOk result (λ progress. SameNext (next_step code.now (phase_of self.old base.now.objects overlay.old)) (Some (told (shown self.new.run base.now.objects overlay.new) progress))) }
        ensures begun { OnOk result (HasBegun self.new) }
        ensures unread { HasToldFrames (phase_of self.old base.now.objects overlay.old) → IfOk result (λ progress. Leaves progress overlay.old overlay.new (phase_of self.new base.now.objects overlay.new)) }
    {
        match self.try_step(code, base, overlay)? {
            Some(progress) => Ok(progress),
            None => unreachable!(),
        }
    }
}
