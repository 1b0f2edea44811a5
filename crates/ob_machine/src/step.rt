//! The step of a run.
ghost use Rattle.std.specs.Prelude.{◌≡◌, ◌+◌, length, OnOk};
ghost use Rattle.ob_heap.specs.Overlays.{KeepsUnread, only};
ghost use Rattle.ob_machine_steps.specs.Steps.{act, step_of};
ghost use Rattle.ob_machine.specs.Shown.{shown, Tells};

use crate::progress::Progress;
use crate::run::Run;
use ob_code::{Image, Instruction};
use ob_heap::{Content, Overlay, Value};
use ob_machine_parts::lookups::fetch;
use ob_machine_parts::off::Off;

impl Run {
    #[tactic(auto, using(crate::proofs::TestLemmas::telling, crate::proofs::UnreadLemmas::leaving))]
    pub fn act(
        &mut self,
        code: &Image,
        base: &Content,
        overlay: &mut Overlay,
        instruction: &Instruction,
        next: usize,
    ) -> Result<Progress, Off>
        requires { next ≡ self.old.top.at + 1 }
        ensures told { Tells result (act code.now instruction.now (shown self.old base.now.objects overlay.old)) (shown self.new base.now.objects overlay.new) }
        ensures unread { OnOk result (KeepsUnread (only (length base.now.objects) self.old.top.this.0) overlay.old overlay.new) }
    {
        match instruction {
            Instruction::Unit => Ok(self.unit(next)),
            Instruction::Int { slot, value } => self.sets(*slot, Value::Int(*value), next),
            Instruction::Bool { slot, value } => self.sets(*slot, Value::Bool(*value == 1), next),
            Instruction::Text { slot, value } => self.text(*slot, value, next),
            Instruction::Copy { slot, a } => self.copy(*slot, *a, next),
            Instruction::Load { slot, field } => self.load(base, overlay, *slot, *field, next),
            Instruction::Store { field, a } => self.store(code, base, overlay, *field, *a, next),
            Instruction::Op {
                slot,
                operator,
                a,
                b,
                line,
            } => self.operation(*slot, *operator, *a, *b, *line, next),
            Instruction::Jump { target } => Ok(self.goes_on(*target as usize)),
            Instruction::Unless { a, target } => self.unless(*a, *target as usize, next),
            Instruction::Test {
                a,
                contract,
                state,
                target,
            } => self.test(
                code,
                base,
                overlay,
                *a,
                *contract,
                *state,
                *target as usize,
                next,
            ),
            Instruction::EndTest => self.end_test(next),
            Instruction::Change { state, given } => {
                self.change(code, base, overlay, *state, given.as_slice(), next)
            }
            Instruction::New {
                slot,
                contract,
                args,
            } => self.new_object(code, base, overlay, *slot, *contract, args.as_slice(), next),
            Instruction::Call {
                slot,
                a,
                contract,
                tx,
                args,
            } => self.call(
                code,
                base,
                overlay,
                *slot,
                *a,
                *contract,
                *tx,
                args.as_slice(),
                next,
            ),
            Instruction::SelfCall { slot, tx, args } => {
                self.self_call(code, *slot, *tx, args.as_slice(), next)
            }
            Instruction::Share { a } => self.share(base, overlay, *a, next),
            Instruction::Disown { a } => self.disown(base, overlay, *a, next),
            Instruction::Ret => self.returns(None),
            Instruction::RetValue { a } => self.return_value(*a),
            Instruction::Revert { a } => self.revert(*a),
        }
    }

    // The next step, if there is one.
    pub fn tried(
        &mut self,
        code: &Image,
        base: &Content,
        overlay: &mut Overlay,
    ) -> Result<Progress, Off>
        ensures told { Tells result (step_of code.now (shown self.old base.now.objects overlay.old)) (shown self.new base.now.objects overlay.new) }
        ensures unread { OnOk result (KeepsUnread (only (length base.now.objects) self.old.top.this.0) overlay.old overlay.new) }
    {
        let instruction = fetch(code, self.top.contract, self.top.tx, self.top.at)?;
        let next = self.top.at + 1;
        self.act(code, base, overlay, instruction, next)
    }
}
