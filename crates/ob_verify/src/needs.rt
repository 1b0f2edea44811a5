//! What an instruction needs of the slots, met by a row of what they hold.
ghost use Rattle.std.specs.Prelude.{◌≡◌, true, map};
ghost use Rattle.std.specs.List.{list_all};
ghost use Rattle.std.specs.Option.{option_copied};
ghost use Rattle.ob_verify_spec.specs.Kinds.{kind_of_param, is_reference};
ghost use Rattle.ob_verify_spec.specs.Instructions.{of_kind, passes, are_alike, meets, needs_of_args, needs_of_call, need_of};
ghost use Rattle.ob_verify_spec.specs.Instructions.{needs_of_given, needs_of_operator, needs};
ghost use Rattle.ob_verify_spec.specs.Passing.{held_at};

use crate::frame::{CodeFrame, fits};
use crate::kinds::{is_reference, kind_of_param, kind_of_result, same_kind};
use crate::survey::Surveyed;
use ob_base::{FieldId, Operator};
use ob_code::{BodyCode, Instruction, ParamCode};
use ob_table::Kind;

/// What a slot holds by a row.
pub fn held(row: &[Option<Kind>], slot: usize) -> Option<Kind>
    ensures { result ≡ held_at row.now slot }
{
    match row.get(slot) {
        Some(kind) => *kind,
        None => None,
    }
}

fn holds_value(row: &[Option<Kind>], slot: u8) -> bool
    ensures { result ≡ passes (λ given. true) (held_at row.now slot) }
{
    match held(row, usize::from(slot)) {
        Some(_) => true,
        None => false,
    }
}

fn holds_reference(row: &[Option<Kind>], slot: u8) -> bool
    ensures { result ≡ passes is_reference (held_at row.now slot) }
{
    match held(row, usize::from(slot)) {
        Some(given) => is_reference(given),
        None => false,
    }
}

fn are_alike(one: Option<Kind>, other: Option<Kind>) -> bool
    ensures { result ≡ are_alike one other }
{
    match (one, other) {
        (Some(one), Some(other)) => !is_reference(one) && same_kind(one, other),
        _ => false,
    }
}

// Whether a slot holds a value of a kind, or of one that may take the place of it.
fn holds_kind(image: &Surveyed<'_>, row: &[Option<Kind>], slot: u8, wanted: Kind) -> bool
    ensures { result ≡ meets image.now (held_at row.now) (of_kind slot wanted) }
{
    match held(row, usize::from(slot)) {
        Some(given) => fits(image, given, wanted),
        None => false,
    }
}

// The same, where a kind is known.
fn holds_known(image: &Surveyed<'_>, row: &[Option<Kind>], slot: u8, wanted: Option<Kind>) -> bool
    ensures { result ≡ list_all (meets image.now (held_at row.now)) (need_of slot wanted) }
{
    match wanted {
        Some(wanted) => holds_kind(image, row, slot, wanted),
        None => true,
    }
}

// Whether the slots of arguments hold what the parameters want, as far as both go.
#[tactic(auto, using(crate::proofs::ListLoops::arguments))]
fn holds_args(image: &Surveyed<'_>, row: &[Option<Kind>], args: &[u8], params: &[ParamCode]) -> bool
    ensures { result ≡ list_all (meets image.now (held_at row.now)) (needs_of_args args.now (map kind_of_param params.now)) }
{
    let count = args.len().min(params.len());
    for i in 0..count {
        if !holds_kind(image, row, args[i], kind_of_param(params[i])) {
            return false;
        }
    }
    true
}

fn holds_for_call(
    image: &Surveyed<'_>,
    row: &[Option<Kind>],
    args: &[u8],
    callee: Option<&BodyCode>,
) -> bool
    ensures { result ≡ list_all (meets image.now (held_at row.now)) (needs_of_call args.now (option_copied callee.entry)) }
{
    match callee {
        Some(body) => holds_args(image, row, args, body.params.as_slice()),
        None => true,
    }
}

// Whether the slots of given fields hold what the fields want.
#[tactic(auto, using(crate::proofs::ListLoops::given_turn))]
fn holds_given(frame: &CodeFrame<'_>, row: &[Option<Kind>], given: &[(FieldId, u8)]) -> bool
    ensures { result ≡ list_all (meets frame.now.image (held_at row.now)) (needs_of_given frame.now given.now) }
{
    for i in 0..given.len() {
        let (field, slot) = given[i];
        if !holds_known(frame.image, row, slot, frame.kind_of_field(field)) {
            return false;
        }
    }
    true
}

// Whether the slots of an operator's operands hold what it wants.
fn holds_operands(
    image: &Surveyed<'_>,
    row: &[Option<Kind>],
    operator: Operator,
    a: u8,
    b: u8,
) -> bool
    ensures { result ≡ list_all (meets image.now (held_at row.now)) (needs_of_operator operator a b) }
{
    match operator {
        Operator::Equal | Operator::NotEqual => {
            are_alike(held(row, usize::from(a)), held(row, usize::from(b)))
        }
        Operator::And | Operator::Or | Operator::Not => {
            holds_kind(image, row, a, Kind::Bool) && holds_kind(image, row, b, Kind::Bool)
        }
        _ => holds_kind(image, row, a, Kind::Int) && holds_kind(image, row, b, Kind::Int),
    }
}

/// Whether what an instruction needs is met by a row.
pub fn meets_needs(frame: &CodeFrame<'_>, instruction: &Instruction, row: &[Option<Kind>]) -> bool
    ensures { result ≡ list_all (meets frame.now.image (held_at row.now)) (needs frame.now instruction.now) }
{
    let image = frame.image;
    match instruction {
        Instruction::Copy { a, .. } => holds_value(row, *a),
        Instruction::Store { field, a } => holds_known(image, row, *a, frame.kind_of_field(*field)),
        Instruction::Op { operator, a, b, .. } => holds_operands(image, row, *operator, *a, *b),
        Instruction::Unless { a, .. } => holds_kind(image, row, *a, Kind::Bool),
        Instruction::Test { a, contract, .. } => {
            holds_kind(image, row, *a, Kind::Reference(*contract))
        }
        Instruction::Change { given, .. } => holds_given(frame, row, given.as_slice()),
        Instruction::New { contract, args, .. } => {
            holds_for_call(image, row, args.as_slice(), image.constructor(*contract))
        }
        Instruction::Call {
            a,
            contract,
            tx,
            args,
            ..
        } => match image.body(*contract, *tx) {
            Some(body) => {
                holds_kind(image, row, *a, Kind::Reference(*contract))
                    && holds_args(image, row, args.as_slice(), body.params.as_slice())
            }
            None => true,
        },
        Instruction::SelfCall { tx, args, .. } => {
            let callee = frame.own.bodies.get(tx.0 as usize);
            holds_for_call(image, row, args.as_slice(), callee)
        }
        Instruction::Share { a } => holds_reference(row, *a),
        Instruction::Disown { a } => holds_reference(row, *a),
        Instruction::RetValue { a } => holds_known(image, row, *a, kind_of_result(frame.body)),
        Instruction::Revert { a } => holds_kind(image, row, *a, Kind::Text),
        _ => true,
    }
}
