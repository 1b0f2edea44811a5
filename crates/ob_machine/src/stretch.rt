//! A stretch of a run: steps inside one body that neither call nor test nor end. Its instructions are looked up once.
ghost use Rattle.std.specs.Prelude.{◌≡◌, ◌+◌, List, length, Some, Ok, OnOk};
ghost use Rattle.ob_heap.specs.Overlays.{Changes, KeepsUnread, no_object, only};
ghost use Rattle.ob_heap.specs.Plain.{value_of};
ghost use Rattle.ob_heap.specs.declared.object.Object.{Object};
ghost use Rattle.ob_machine_laws.specs.Laws.{HasToldFrames};
ghost use Rattle.ob_machine_steps.specs.Changing.{store_step};
ghost use Rattle.ob_machine_steps.specs.Entries.{running};
ghost use Rattle.ob_machine_steps.specs.Measures.{LeadsAheadOrToUnit};
ghost use Rattle.ob_machine_steps.specs.Parts.{sets, goes_to};
ghost use Rattle.ob_machine_steps.specs.Steps.{act};
ghost use Rattle.ob_machine_steps.specs.Straight.{unit_step, copy_step, load_step, op_step, unless_step};
ghost use Rattle.ob_machine.specs.Shown.{shown};
ghost use Rattle.ob_machine_parts.specs.Images.{AreInstructionsOf};
ghost use Rattle.ob_machine.specs.Stretching.{Acts, Strides, Stretches};

use crate::run::Run;
use crate::slice::left_after;
use ob_base::{FieldId, Items, Operator};
use ob_code::{Image, Instruction};
use ob_heap::{Content, Overlay, Value};
use ob_machine_parts::fields::store;
use ob_machine_parts::heap::{field_value, find};
use ob_machine_parts::lookups::code_of;
use ob_machine_parts::off::Off;
use ob_machine_parts::operations::{Operated, operate};
use ob_machine_parts::slots::{copy_of, put, truth};

impl Run {
    #[inline(always)]
    fn puts(&mut self, slot: u8, value: Value, next: usize) -> Result<bool, Off>
        requires { next ≡ self.old.top.at + 1 }
        ensures { (base : List Object) (o : Changes) → Acts result (sets slot (value_of value) (shown self.old base o)) (shown self.old base o) (shown self.new base o) }
    {
        put(&mut self.top.slots, slot, value)?;
        self.top.at = next;
        Ok(true)
    }

    // Where no unit is left, nothing is done: the run aborts then.
    fn pays(&mut self, next: usize) -> bool
        requires { next ≡ self.old.top.at + 1 }
        ensures { (base : List Object) (o : Changes) → Acts (Ok result) (unit_step (shown self.old base o)) (shown self.old base o) (shown self.new base o) }
    {
        if !self.units.take() {
            return false;
        }
        self.top.at = next;
        true
    }

    #[inline(always)]
    fn copies(&mut self, slot: u8, a: u8, next: usize) -> Result<bool, Off>
        requires { next ≡ self.old.top.at + 1 }
        ensures { (base : List Object) (o : Changes) → Acts result (copy_step slot a (shown self.old base o)) (shown self.old base o) (shown self.new base o) }
    {
        let value = copy_of(self.alloc, &self.top.slots, a)?;
        self.puts(slot, value, next)
    }

    #[inline(always)]
    fn loads(
        &mut self,
        base: &Content,
        overlay: &Overlay,
        slot: u8,
        field: FieldId,
        next: usize,
    ) -> Result<bool, Off>
        requires { next ≡ self.old.top.at + 1 }
        ensures { Acts result (load_step slot field (shown self.old base.now.objects overlay.now)) (shown self.old base.now.objects overlay.now) (shown self.new base.now.objects overlay.now) }
    {
        let value = field_value(self.alloc, find(base, overlay, self.top.this)?, field)?;
        self.puts(slot, value, next)
    }

    #[inline(always)]
    fn stores(
        &mut self,
        code: &Image,
        base: &Content,
        overlay: &mut Overlay,
        field: FieldId,
        a: u8,
        next: usize,
    ) -> Result<bool, Off>
        requires { next ≡ self.old.top.at + 1 }
        ensures told { Acts result (store_step code.now field a (shown self.old base.now.objects overlay.old)) (shown self.old base.now.objects overlay.old) (shown self.new base.now.objects overlay.new) }
        ensures unread { OnOk result (KeepsUnread (only (length base.now.objects) self.old.top.this.0) overlay.old overlay.new) }
    {
        match store(
            self.alloc,
            code,
            base,
            overlay,
            &self.top.slots,
            self.top.this,
            field,
            a,
        ) {
            Ok(()) => {
                self.top.at = next;
                Ok(true)
            }
            Err(off) => Err(off),
        }
    }

    // Where the result is no `int`, nothing is done: the run aborts then.
    #[inline(always)]
    fn operates(
        &mut self,
        slot: u8,
        operator: Operator,
        a: u8,
        b: u8,
        line: u32,
        next: usize,
    ) -> Result<bool, Off>
        requires { next ≡ self.old.top.at + 1 }
        ensures { (base : List Object) (o : Changes) → Acts result (op_step slot operator a b line (shown self.old base o)) (shown self.old base o) (shown self.new base o) }
    {
        match operate(operator, &self.top.slots, a, b)? {
            Operated::Value(value) => self.puts(slot, value, next),
            Operated::Overflows => Ok(false),
            Operated::OtherKinds => Err(Off::NoStep),
        }
    }

    fn jumps(&mut self, place: usize) -> bool
        ensures { (base : List Object) (o : Changes) → Acts (Ok result) (goes_to place (shown self.old base o)) (shown self.old base o) (shown self.new base o) }
    {
        self.top.at = place;
        true
    }

    fn jumps_unless(&mut self, a: u8, target: usize, next: usize) -> Result<bool, Off>
        requires { next ≡ self.old.top.at + 1 }
        ensures { (base : List Object) (o : Changes) → Acts result (unless_step a target (shown self.old base o)) (shown self.old base o) (shown self.new base o) }
    {
        let place = if truth(&self.top.slots, a)? {
            next
        } else {
            target
        };
        Ok(self.jumps(place))
    }

    // Makes a step inside the body, if the instruction has one.
    #[inline(always)]
    #[tactic(auto, using(crate::proofs::UnreadLemmas::leaving))]
    fn acts(
        &mut self,
        code: &Image,
        base: &Content,
        overlay: &mut Overlay,
        instruction: &Instruction,
        next: usize,
    ) -> Result<bool, Off>
        requires { next ≡ self.old.top.at + 1 }
        ensures told { Acts result (act code.now instruction.now (shown self.old base.now.objects overlay.old)) (shown self.old base.now.objects overlay.old) (shown self.new base.now.objects overlay.new) }
        ensures unread { OnOk result (KeepsUnread (only (length base.now.objects) self.old.top.this.0) overlay.old overlay.new) }
    {
        match instruction {
            Instruction::Unit => Ok(self.pays(next)),
            Instruction::Int { slot, value } => self.puts(*slot, Value::Int(*value), next),
            Instruction::Bool { slot, value } => self.puts(*slot, Value::Bool(*value == 1), next),
            Instruction::Copy { slot, a } => self.copies(*slot, *a, next),
            Instruction::Load { slot, field } => self.loads(base, overlay, *slot, *field, next),
            Instruction::Store { field, a } => self.stores(code, base, overlay, *field, *a, next),
            Instruction::Op {
                slot,
                operator,
                a,
                b,
                line,
            } => self.operates(*slot, *operator, *a, *b, *line, next),
            Instruction::Jump { target } => Ok(self.jumps(*target as usize)),
            Instruction::Unless { a, target } => self.jumps_unless(*a, *target as usize, next),
            _ => Ok(false),
        }
    }

    // The same, with the instruction at its place and the units of a slice.
    #[inline(always)]
    #[tactic(auto, using(crate::proofs::UnreadLemmas::leaving))]
    fn stride(
        &mut self,
        code: &Image,
        instructions: &Items<Instruction>,
        base: &Content,
        overlay: &mut Overlay,
        left: u32,
    ) -> Result<Option<u32>, Off>
        requires { AreInstructionsOf code.now self.old.top.contract self.old.top.tx instructions.now }
        ensures told { Strides result code.now left (shown self.old base.now.objects overlay.old) (shown self.new base.now.objects overlay.new) }
        ensures unread { OnOk result (KeepsUnread (only (length base.now.objects) self.old.top.this.0) overlay.old overlay.new) }
    {
        let _length = instructions.len();
        match instructions.get(self.top.at) {
            None => Ok(None),
            Some(instruction) => {
                let next = self.top.at + 1;
                let paid = self.units.pays_for(instruction);
                match left_after(paid, left) {
                    None => Ok(None),
                    Some(rest) => {
                        match self.acts(code, base, overlay, instruction, next)? {
                            true => Ok(Some(rest)),
                            false => Ok(None),
                        }
                    }
                }
            }
        }
    }

    // Makes steps as long as they are inside the body and the slice has the units for them. The answer is what it has left.
    pub fn stretch(
        &mut self,
        code: &Image,
        base: &Content,
        overlay: &mut Overlay,
        units: u32,
    ) -> Result<u32, Off>
        requires { LeadsAheadOrToUnit code.now }
        ensures told { Stretches result code.now units (shown self.old base.now.objects overlay.old) (shown self.new base.now.objects overlay.new) }
        ensures unread { HasToldFrames (running (shown self.old base.now.objects overlay.old)) → OnOk result (KeepsUnread no_object overlay.old overlay.new × HasToldFrames (running (shown self.new base.now.objects overlay.new))) }
    {
        let instructions = match code_of(code, self.top.contract, self.top.tx) {
            Ok(instructions) => instructions,
            Err(_) => return Ok(units),
        };
        let mut left = units;
        'strides: loop {
            match self.stride(code, instructions, base, overlay, left) {
                Ok(Some(rest)) => left = rest,
                Ok(None) => return Ok(left),
                Err(off) => return Err(off),
            }
        }
    }
}
