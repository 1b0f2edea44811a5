//! Units of fuel.
ghost use Rattle.std.specs.Prelude.{◌≡◌, ◌-◌, ◌≤◌, ◌&&◌, nat_lt};
ghost use Rattle.ob_machine_steps.specs.Runs.{takes_unit};
ghost use Rattle.ob_machine_parts.specs.Units.{Metered, IsTaken};

use ob_code::Instruction;
use std::marker::Model;

fn takes_unit(instruction: &Instruction) -> bool
    ensures { result ≡ takes_unit instruction.now }
{
    match instruction {
        Instruction::Unit => true,
        Instruction::New { .. } => true,
        Instruction::Call { .. } => true,
        Instruction::SelfCall { .. } => true,
        _ => false,
    }
}

/// The units of a run. Contracts see how many are left, and how many were taken.
#[derive(Drop)]
pub struct Units {
    given: u32,
    left: u32,
}

impl Model for Units {
    ghost use Rattle.std.specs.Prelude.{◌-◌, ◌≤◌};
    ghost use Rattle.ob_machine_parts.specs.Units.{Metered};

    ghost Value = { Metered };

    ghost view = { λ u. record { fuel = u.left; taken = u.given - u.left } };

    ghost invariant = { λ u. u.left ≤ u.given };
}

impl Units {
    /// So many units, none of which is taken.
    pub fn new(given: u32) -> Units
        ensures { result ≡ record { fuel = given; taken = 0 } }
    {
        Units { given, left: given }
    }

    /// Takes a unit, if one is left: else the answer is false, and nothing changes.
    pub fn take(&mut self) -> bool
        ensures { IsTaken result self.old self.new }
    {
        if self.left == 0 {
            return false;
        }
        self.left -= 1;
        true
    }

    /// Whether a unit is left.
    pub fn has_unit(&self) -> bool
        ensures { result ≡ nat_lt 0 self.now.fuel }
    {
        0 < self.left
    }

    /// Whether the step of an instruction takes a unit: the instruction needs one, and one is left.
    #[inline(always)]
    pub fn pays_for(&self, instruction: &Instruction) -> bool
        ensures { result ≡ (takes_unit instruction.now && nat_lt 0 self.now.fuel) }
    {
        takes_unit(instruction) && self.has_unit()
    }

    /// How many units were taken.
    pub fn taken(&self) -> u32
        ensures { result ≡ self.now.taken }
    {
        self.given - self.left
    }
}
