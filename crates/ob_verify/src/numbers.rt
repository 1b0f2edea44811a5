//! The numbers and names of the faults of code (this project's own).
ghost use Rattle.std.specs.Prelude.{◌≡◌, ◌≢◌, IfSome, IfNone};
ghost use Rattle.ob_verify_spec.specs.declared.CodeFault.{CodeFault};
ghost use Rattle.ob_verify_spec.specs.Ways.{number_of};
ghost use Rattle.ob_verify.specs.Names.{name_of};

use ob_verify_spec::CodeFault;

/// An instruction leads to a place outside the body.
pub const BAD_JUMP: u16 = 511;
/// A slot that the body doesn't have is named, or that of `this` is set; or the body lacks slots for its parameters.
pub const BAD_SLOT: u16 = 512;
/// On some way there a slot is unset or of another kind than the operand needs, or two ways hold kinds in it that have nothing
/// in common.
pub const KIND_MISMATCH: u16 = 513;
/// A field is named that the contract doesn't have.
pub const BAD_FIELD: u16 = 514;
/// A contract, state, body, number of arguments or result is named that there isn't.
pub const BAD_CALL: u16 = 515;
/// A way leads to the end of the body.
pub const FALLS_OFF: u16 = 516;
/// An instruction leads behind, or to itself, and no `unit` stands there.
pub const NO_FUEL_MARK: u16 = 517;

/// The number of a fault.
pub fn number_of(fault: CodeFault) -> u16
    ensures { result ≡ number_of fault }
{
    match fault {
        CodeFault::BadJump => BAD_JUMP,
        CodeFault::BadSlot => BAD_SLOT,
        CodeFault::KindMismatch => KIND_MISMATCH,
        CodeFault::BadField => BAD_FIELD,
        CodeFault::BadCall => BAD_CALL,
        CodeFault::FallsOff => FALLS_OFF,
        CodeFault::NoFuelMark => NO_FUEL_MARK,
    }
}

/// The fault that has a number, if one has it.
pub fn fault_of(number: u16) -> Option<CodeFault>
    ensures one { IfSome result (λ fault. number_of fault ≡ number) }
    ensures none { IfNone result ((fault : CodeFault) → number_of fault ≢ number) }
{
    match number {
        BAD_JUMP => Some(CodeFault::BadJump),
        BAD_SLOT => Some(CodeFault::BadSlot),
        KIND_MISMATCH => Some(CodeFault::KindMismatch),
        BAD_FIELD => Some(CodeFault::BadField),
        BAD_CALL => Some(CodeFault::BadCall),
        FALLS_OFF => Some(CodeFault::FallsOff),
        NO_FUEL_MARK => Some(CodeFault::NoFuelMark),
        _ => None,
    }
}

/// The name of a fault, for people.
pub fn name_of(fault: CodeFault) -> &'static str
    ensures { result.now ≡ name_of fault }
{
    match fault {
        CodeFault::BadJump => "BadJump",
        CodeFault::BadSlot => "BadSlot",
        CodeFault::KindMismatch => "KindMismatch",
        CodeFault::BadField => "BadField",
        CodeFault::BadCall => "BadCall",
        CodeFault::FallsOff => "FallsOff",
        CodeFault::NoFuelMark => "NoFuelMark",
    }
}
