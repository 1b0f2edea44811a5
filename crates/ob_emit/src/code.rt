//! Code that is being made.
ghost use Rattle.std.specs.Prelude.{◌≡◌, [], ◌∷◌, ◌++◌, length, slice_set, OnOk};
ghost use Rattle.ob_emit_spec.specs.Emission.{jump_if};
ghost use Rattle.ob_emit.specs.Making.{chooses, test_ended, between, landed};

use ob_base::{ContractId, Items, Memory, StateId};
use ob_code::Instruction;
use std::alloc::Global;
use std::marker::Model;

/// What decides between two branches.
#[derive(Clone, Copy)]
pub enum Choice {
    /// The truth value in this slot.
    Value(u8),
    /// Whether the object in this slot is in this state of this contract or interface.
    State(u8, ContractId, StateId),
}

/// The instructions so far. Code of 2^32 instructions or more counts as want of memory.
#[derive(Drop)]
pub struct Code {
    alloc: Global,
    instructions: Items<Instruction>,
}

impl Model for Code {
    ghost use Rattle.std.specs.Prelude.{◌<◌, ◌^◌, List, length};
    ghost use Rattle.ob_code.specs.declared.instruction.Instruction.{Instruction};

    ghost Value = { List Instruction };

    ghost view = { λ c. c.instructions };

    ghost invariant = { λ c. length c.instructions < 2 ^ 32 };
}

// The instruction of a choice with its target.
fn chooses(choice: Choice, target: u32) -> Instruction
    ensures { result ≡ chooses choice target }
{
    match choice {
        Choice::Value(a) => Instruction::Unless { a, target },
        Choice::State(a, contract, state) => Instruction::Test {
            a,
            contract,
            state,
            target,
        },
    }
}

impl Code {
    /// No instructions yet.
    pub fn new(alloc: Global) -> Code
        ensures { result ≡ [] }
    {
        Code {
            alloc,
            instructions: Items::new(alloc),
        }
    }

    /// What allocates the instructions.
    pub fn alloc(&self) -> Global {
        self.alloc
    }

    /// The place of the next instruction.
    pub fn here(&self) -> u32
        ensures { result ≡ length self.now }
    {
        self.instructions.len() as u32
    }

    /// One more instruction.
    pub fn put(&mut self, instruction: Instruction) -> Result<(), Memory>
        ensures { OnOk result (self.new ≡ self.old ++ instruction ∷ []) }
    {
        if self.instructions.len() >= u32::MAX as usize {
            return Err(Memory);
        }
        self.instructions.push(instruction)?;
        Ok(())
    }

    // Another instruction at a place, if there is one.
    fn set(&mut self, place: u32, instruction: Instruction)
        ensures { self.new ≡ slice_set self.old place instruction }
    {
        let place = place as usize;
        if place < self.instructions.len() {
            self.instructions.set(place, instruction);
        }
    }

    /// The instruction of a choice, whose target isn't known yet.
    pub fn put_choice(&mut self, choice: Choice) -> Result<(), Memory>
        ensures { OnOk result (self.new ≡ self.old ++ chooses choice 0 ∷ []) }
    {
        self.put(chooses(choice, 0))
    }

    /// The end of a test, where the end of its branch is reached.
    pub fn put_end_test(&mut self, ends: bool) -> Result<(), Memory>
        ensures { OnOk result (self.new ≡ self.old ++ test_ended ends) }
    {
        if ends {
            return Ok(());
        }
        self.put(Instruction::EndTest)
    }

    // A jump, or none.
    fn put_jump_if(&mut self, jumps: bool, target: u32) -> Result<(), Memory>
        ensures { OnOk result (self.new ≡ self.old ++ jump_if jumps target) }
    {
        if jumps {
            return self.put(Instruction::Jump { target });
        }
        Ok(())
    }

    /// After the first branch of the choice at `start`, or after the body of a loop: a jump to `to`, if it jumps, and the choice's target.
    pub fn put_between(
        &mut self,
        choice: Choice,
        jumps: bool,
        to: u32,
        start: u32,
    ) -> Result<(), Memory>
        ensures { OnOk result (self.new ≡ between choice jumps to start self.old) }
    {
        self.put_jump_if(jumps, to)?;
        let target = self.here();
        self.set(start, chooses(choice, target));
        Ok(())
    }

    /// After both branches: the jump at this place, if there is one, gets its target.
    pub fn land(&mut self, jumps: bool, place: u32)
        ensures { self.new ≡ landed jumps place self.old }
    {
        if jumps {
            let target = self.here();
            self.set(place, Instruction::Jump { target });
        }
    }

    /// The instructions.
    pub fn into_instructions(self) -> Items<Instruction>
        ensures { result ≡ self }
    {
        self.instructions
    }
}
