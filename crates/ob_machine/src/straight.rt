//! Instructions that take a unit, set a slot, go to a place, or abort.
ghost use Rattle.std.specs.Prelude.{◌≡◌, ◌+◌, List, Some};
ghost use Rattle.ob_heap.specs.Overlays.{Changes};
ghost use Rattle.ob_heap.specs.Plain.{value_of};
ghost use Rattle.ob_heap.specs.declared.object.Object.{Object};
ghost use Rattle.ob_machine_steps.specs.Parts.{sets};
ghost use Rattle.ob_machine_steps.specs.Straight.{unit_step, copy_step, text_step, op_step, unless_step, revert_step};
ghost use Rattle.ob_machine_parts.specs.Giving.{Gives};
ghost use Rattle.ob_machine.specs.Shown.{shown, told};
ghost use Rattle.ob_machine.specs.declared.progress.Progress.{Progress};

use crate::progress::{Cause, Progress};
use crate::run::Run;
use ob_base::Operator;
use ob_code::CodeText;
use ob_heap::{RcStr, Value};
use ob_machine_parts::off::Off;
use ob_machine_parts::operations::{Operated, operate};
use ob_machine_parts::slots::{copy_of, put, text, truth};
use std::alloc::Global;

// The text of a constant.
fn text_of(alloc: Global, constant: &CodeText) -> Result<RcStr, Off>
    ensures { Gives result (Some constant.now) (λ t. t) }
{
    match str::from_utf8(constant.as_bytes()) {
        Ok(text) => Ok(RcStr::from_str(alloc, text)?),
        Err(_) => unreachable!(),
    }
}

impl Run {
    // The run goes on at a place.
    pub fn goes_on(&mut self, place: usize) -> Progress
        ensures goes { result ≡ Progress.Going }
        ensures at { self.new ≡ record self.old { top = record self.old.top { at = place } } }
    {
        self.top.at = place;
        Progress::Going
    }

    pub fn unit(&mut self, next: usize) -> Progress
        requires { next ≡ self.old.top.at + 1 }
        ensures { (base : List Object) (o : Changes) → unit_step (shown self.old base o) ≡ Some (told (shown self.new base o) result) }
    {
        if self.units.take() {
            self.goes_on(next)
        } else {
            Progress::Aborted(Cause::Fuel)
        }
    }

    pub fn sets(&mut self, slot: u8, value: Value, next: usize) -> Result<Progress, Off>
        requires { next ≡ self.old.top.at + 1 }
        ensures { (base : List Object) (o : Changes) → Gives result (sets slot (value_of value) (shown self.old base o)) (told (shown self.new base o)) }
    {
        put(&mut self.top.slots, slot, value)?;
        Ok(self.goes_on(next))
    }

    pub fn text(&mut self, slot: u8, constant: &CodeText, next: usize) -> Result<Progress, Off>
        requires { next ≡ self.old.top.at + 1 }
        ensures { (base : List Object) (o : Changes) → Gives result (text_step slot constant.now (shown self.old base o)) (told (shown self.new base o)) }
    {
        let text = text_of(self.alloc, constant)?;
        self.sets(slot, Value::Text(text), next)
    }

    pub fn copy(&mut self, slot: u8, a: u8, next: usize) -> Result<Progress, Off>
        requires { next ≡ self.old.top.at + 1 }
        ensures { (base : List Object) (o : Changes) → Gives result (copy_step slot a (shown self.old base o)) (told (shown self.new base o)) }
    {
        let value = copy_of(self.alloc, &self.top.slots, a)?;
        self.sets(slot, value, next)
    }

    pub fn operation(
        &mut self,
        slot: u8,
        operator: Operator,
        a: u8,
        b: u8,
        line: u32,
        next: usize,
    ) -> Result<Progress, Off>
        requires { next ≡ self.old.top.at + 1 }
        ensures { (base : List Object) (o : Changes) → Gives result (op_step slot operator a b line (shown self.old base o)) (told (shown self.new base o)) }
    {
        match operate(operator, &self.top.slots, a, b)? {
            Operated::Value(value) => self.sets(slot, value, next),
            Operated::Overflows => Ok(Progress::Aborted(Cause::Overflow(line))),
            Operated::OtherKinds => Err(Off::NoStep),
        }
    }

    pub fn unless(&mut self, a: u8, target: usize, next: usize) -> Result<Progress, Off>
        requires { next ≡ self.old.top.at + 1 }
        ensures { (base : List Object) (o : Changes) → Gives result (unless_step a target (shown self.old base o)) (told (shown self.new base o)) }
    {
        let place = if truth(&self.top.slots, a)? {
            next
        } else {
            target
        };
        Ok(self.goes_on(place))
    }

    pub fn revert(&mut self, a: u8) -> Result<Progress, Off>
        ensures { (base : List Object) (o : Changes) → Gives result (revert_step a (shown self.old base o)) (told (shown self.new base o)) }
    {
        let text = text(self.alloc, &self.top.slots, a)?;
        Ok(Progress::Aborted(Cause::Revert(text)))
    }
}
