//! What calls are asked for while places are given, and what a call on `this` leaves the fields as.
ghost use Rattle.std.specs.Prelude.{◌≡◌, option_map, IfOk};
ghost use Rattle.ob_flow_spec.specs.Premises.{each};
ghost use Rattle.ob_flow_spec.specs.Contexts.{field_count};
ghost use Rattle.ob_flow_spec.specs.Calling.{enters_field, fields_left};
ghost use Rattle.ob_flow_spec.specs.Binding.{reads_of, given_all, passed};
ghost use Rattle.ob_flow_context.specs.View.{known_of, known_at, context_of, tested_of};
ghost use Rattle.ob_flow_context.specs.Checking.{MeetsPremises, Leaves};
ghost use Rattle.ob_flow_context.specs.Parameters.{plain_parameters};
ghost use Rattle.ob_flow_premises.specs.Calls.{field_after, fields_after, may_call, may_call_this};
ghost use Rattle.ob_flow_premises.specs.Calls.{passes, calls_with, enters};

use crate::modes::room_for;
use ob_base::{
    Duplicate, FIELD_MISMATCH, FieldId, Items, Memory, Span, THIS_IN_CONSTRUCTOR, UNDER_TEST,
};
use ob_flow_context::{
    BodyFrame, Context, FlowError, Known, Parameter, each_once, get_back_all, give_all,
    keeps_fields, kind_of, must, tests_field, uses_place,
};
use ob_silica::{Operand, Place};
use ob_table::Signature;
use std::alloc::Global;

// A field that may be there is held as the call wants it.
fn enters_field(
    frame: &BodyFrame<'_>,
    before: &Context,
    context: &Context,
    at: Span,
    signature: &Signature,
    field: FieldId,
) -> Result<(), FlowError>
    ensures { MeetsPremises result (enters_field frame.now (context_of before.now) (context_of context.now) at signature.now
        field.0) }
{
    let place = Place::Field(field);
    let enters = !frame.maybe_there(before, field)
        || context.is_held_as(place, frame.entry_of_field(signature, field));
    must(FIELD_MISMATCH, at, enters)
}

// Each field that may be there is held as the call wants it.
#[tactic(auto, using(ob_flow_context::proofs::PremiseLemmas::for_each))]
fn enter_fields(
    frame: &BodyFrame<'_>,
    before: &Context,
    context: &Context,
    at: Span,
    signature: &Signature,
) -> Result<(), FlowError>
    ensures { MeetsPremises result (each (field_count frame.now)
        (enters_field frame.now (context_of before.now) (context_of context.now) at signature.now)) }
{
    for number in 0..frame.field_count() {
        enters_field(frame, before, context, at, signature, FieldId(number))?;
    }
    Ok(())
}

// What is known of a field that a call on `this` leaves.
fn field_after(frame: &BodyFrame<'_>, signature: &Signature, field: FieldId) -> Option<Known>
    ensures { option_map known_of result ≡ field_after frame.now signature.now field.0 }
{
    Some(Known {
        kind: kind_of(frame.type_of_field(field)),
        permission: frame.exit_of_field(signature, field),
    })
}

// What is known of the fields that a call on `this` leaves.
fn fields_after(
    alloc: Global,
    frame: &BodyFrame<'_>,
    signature: &Signature,
) -> Result<Items<Option<Known>>, Memory>
    ensures { IfOk result (λ fields. known_at fields ≡ fields_after frame.now signature.now) }
{
    let mut fields = room_for(alloc, usize::from(frame.field_count()))?;
    for number in 0..frame.field_count() {
        fields.push(field_after(frame, signature, FieldId(number)))?;
    }
    Ok(fields)
}

fn copy_slots(alloc: Global, context: &Context) -> Result<Items<Option<Known>>, Memory>
    ensures { IfOk result (λ slots. slots ≡ context.now.slots) }
{
    Ok(Items::from_slice(alloc, context.slots())?)
}

/// Each field has the permission with which the call leaves it.
pub fn leave_fields(
    alloc: Global,
    frame: &BodyFrame<'_>,
    signature: &Signature,
    context: &Context,
) -> Result<Context, Memory>
    ensures { IfOk result (λ after. context_of after
        ≡ fields_left frame.now signature.now (context_of context.now)) }
{
    let slots = copy_slots(alloc, context)?;
    let fields = fields_after(alloc, frame, signature)?;
    Ok(Context::of(slots, fields))
}

// What a call is asked for before anything is given.
#[tactic(auto, using(ob_flow_context::proofs::PremiseLemmas::premises))]
fn may_call(
    frame: &BodyFrame<'_>,
    context: &Context,
    receiver: Operand,
    reads: &[Operand],
    params: &[Parameter],
) -> Result<(), FlowError>
    ensures { MeetsPremises result (may_call frame.now (context_of context.now) receiver (reads_of reads.now)
        (plain_parameters params.now)) }
{
    uses_place(frame, context, receiver)?;
    each_once(reads, params)
}

// What a call on `this` is asked for before anything is given.
#[tactic(auto, using(ob_flow_context::proofs::PremiseLemmas::premises))]
fn may_call_this(
    frame: &BodyFrame<'_>,
    tested: &[Place],
    at: Span,
    signature: &Signature,
    args: &[Operand],
    reads: &[Operand],
    params: &[Parameter],
) -> Result<(), FlowError>
    ensures { MeetsPremises result (may_call_this frame.now (tested_of tested.now) at signature.now args.now
        (reads_of reads.now) (plain_parameters params.now)) }
{
    must(THIS_IN_CONSTRUCTOR, at, !frame.constructs())?;
    each_once(reads, params)?;
    keeps_fields(args, signature.params.as_slice())?;
    must(UNDER_TEST, at, !tests_field(tested))
}

/// Places are given to parameters, and get back what those give back.
#[tactic(auto, using(ob_flow_context::proofs::PremiseLemmas::premises))]
pub fn pass(
    alloc: Global,
    frame: &BodyFrame<'_>,
    tested: &[Place],
    context: &mut Context,
    reads: &[Operand],
    params: &[Parameter],
) -> Result<(), FlowError>
    ensures { Leaves result (context_of context.new)
        (passes frame.now (tested_of tested.now) (context_of context.old) (reads_of reads.now)
        (plain_parameters params.now))
        (passed frame.now (context_of context.old) (reads_of reads.now) (plain_parameters params.now)) }
{
    each_once(reads, params)?;
    give_all(alloc, frame, tested, context, reads, params)?;
    get_back_all(alloc, frame, context, reads, params)?;
    Ok(())
}

/// Calls a transaction of another object with these places, the receiver first.
#[tactic(auto, using(ob_flow_context::proofs::PremiseLemmas::premises))]
pub fn call_with(
    alloc: Global,
    frame: &BodyFrame<'_>,
    tested: &[Place],
    context: &mut Context,
    receiver: Operand,
    reads: &[Operand],
    params: &[Parameter],
) -> Result<(), FlowError>
    ensures { Leaves result (context_of context.new)
        (calls_with frame.now (tested_of tested.now) (context_of context.old) receiver (reads_of reads.now)
        (plain_parameters params.now))
        (passed frame.now (context_of context.old) (reads_of reads.now) (plain_parameters params.now)) }
{
    may_call(frame, context, receiver, reads, params)?;
    give_all(alloc, frame, tested, context, reads, params)?;
    get_back_all(alloc, frame, context, reads, params)?;
    Ok(())
}

/// Gives `this` and arguments, and asks for the fields that the call wants.
#[tactic(auto, using(ob_flow_context::proofs::PremiseLemmas::premises))]
pub fn enter(
    alloc: Global,
    frame: &BodyFrame<'_>,
    tested: &[Place],
    context: &mut Context,
    at: Span,
    signature: &Signature,
    args: &[Operand],
    reads: &[Operand],
    params: &[Parameter],
) -> Result<(), FlowError>
    ensures { Leaves result (context_of context.new)
        (enters frame.now (tested_of tested.now) (context_of context.old) at signature.now args.now
        (reads_of reads.now) (plain_parameters params.now))
        (given_all (context_of context.old) (reads_of reads.now) (plain_parameters params.now)) }
{
    let before = context.copy(alloc)?;
    may_call_this(frame, tested, at, signature, args, reads, params)?;
    give_all(alloc, frame, tested, context, reads, params)?;
    enter_fields(frame, &before, context, at, signature)
}
