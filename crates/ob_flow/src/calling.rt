//! Calls, and `new`.
ghost use Rattle.ob_silica_places.specs.Parameters.{all_parameters};
ghost use Rattle.ob_flow_spec.specs.Binding.{reads_of, passed};
ghost use Rattle.ob_flow_spec.specs.Calling.{makes_object, after_new, all_reads, calls_object, after_call, reads_with_this};
ghost use Rattle.ob_flow_spec.specs.Calling.{calls_this, after_call_on_this};
ghost use Rattle.ob_flow_context.specs.View.{context_of, tested_of};
ghost use Rattle.ob_flow_context.specs.Checking.{Leaves};
ghost use Rattle.ob_flow_context.specs.Parameters.{plain_parameters};
ghost use Rattle.ob_flow_premises.specs.Calls.{enters};

use ob_base::{ContractId, Span};
use ob_flow_context::{
    BodyFrame, Context, FlowError, Parameter, all_operands, all_parameters, get_back_all, known_as,
    parameters, put_result,
};
use ob_flow_premises::{call_with, enter, leave_fields, pass};
use ob_silica::{Operand, Place};
use ob_table::{ResolvedType, Signature};
use std::alloc::Global;

/// Makes an object: the slot has what the constructor gives.
pub fn make(
    alloc: Global,
    frame: &BodyFrame<'_>,
    tested: &[Place],
    context: &mut Context,
    slot: u8,
    contract: ContractId,
    signature: &Signature,
    args: &[Operand],
) -> Result<(), FlowError>
    ensures { Leaves result (context_of context.new)
        (makes_object frame.now (tested_of tested.now) (context_of context.old) signature.now args.now)
        (after_new frame.now (context_of context.old) slot contract signature.now args.now) }
{
    let params = parameters(alloc, signature)?;
    pass(alloc, frame, tested, context, args, params.as_slice())?;
    let known = known_as(ResolvedType::Reference(contract, signature.exit));
    context.put(Place::Slot(slot), Some(known))?;
    Ok(())
}

// Gives a receiver and arguments, which get back what they do.
fn pass_with(
    alloc: Global,
    frame: &BodyFrame<'_>,
    tested: &[Place],
    context: &mut Context,
    receiver: Operand,
    contract: ContractId,
    signature: &Signature,
    args: &[Operand],
) -> Result<(), FlowError>
    ensures { Leaves result (context_of context.new)
        (calls_object frame.now (tested_of tested.now) (context_of context.old) receiver contract signature.now args.now)
        (passed frame.now (context_of context.old) (all_reads receiver args.now)
        (all_parameters contract signature.now)) }
{
    let reads = all_operands(alloc, receiver, args)?;
    let params = all_parameters(alloc, contract, signature)?;
    call_with(
        alloc,
        frame,
        tested,
        context,
        receiver,
        reads.as_slice(),
        params.as_slice(),
    )
}

/// Calls a transaction of another object.
pub fn call(
    alloc: Global,
    frame: &BodyFrame<'_>,
    tested: &[Place],
    context: &mut Context,
    slot: Option<u8>,
    receiver: Operand,
    contract: ContractId,
    signature: &Signature,
    args: &[Operand],
) -> Result<(), FlowError>
    ensures { Leaves result (context_of context.new)
        (calls_object frame.now (tested_of tested.now) (context_of context.old) receiver contract signature.now args.now)
        (after_call frame.now (context_of context.old) slot receiver contract signature.now args.now) }
{
    pass_with(
        alloc, frame, tested, context, receiver, contract, signature, args,
    )?;
    put_result(context, slot, signature.result)?;
    Ok(())
}

// Gives these places, `this` first, which get back what they do.
fn pass_this_with(
    alloc: Global,
    frame: &BodyFrame<'_>,
    tested: &[Place],
    context: &mut Context,
    at: Span,
    signature: &Signature,
    args: &[Operand],
    reads: &[Operand],
    params: &[Parameter],
) -> Result<(), FlowError>
    ensures { Leaves result (context_of context.new)
        (enters frame.now (tested_of tested.now) (context_of context.old) at signature.now args.now
        (reads_of reads.now) (plain_parameters params.now))
        (passed frame.now (context_of context.old) (reads_of reads.now) (plain_parameters params.now)) }
{
    enter(
        alloc, frame, tested, context, at, signature, args, reads, params,
    )?;
    get_back_all(alloc, frame, context, reads, params)?;
    Ok(())
}

// Gives `this` and arguments, which get back what they do.
fn pass_this(
    alloc: Global,
    frame: &BodyFrame<'_>,
    tested: &[Place],
    context: &mut Context,
    at: Span,
    signature: &Signature,
    args: &[Operand],
) -> Result<(), FlowError>
    ensures { Leaves result (context_of context.new)
        (calls_this frame.now (tested_of tested.now) (context_of context.old) at signature.now args.now)
        (passed frame.now (context_of context.old) (reads_with_this at args.now)
        (all_parameters frame.now.here signature.now)) }
{
    let this = Operand {
        place: Place::This,
        span: at,
    };
    let reads = all_operands(alloc, this, args)?;
    let params = all_parameters(alloc, frame.here(), signature)?;
    pass_this_with(
        alloc,
        frame,
        tested,
        context,
        at,
        signature,
        args,
        reads.as_slice(),
        params.as_slice(),
    )
}

/// Calls a transaction of `this`, whose span is that of the form.
pub fn call_this(
    alloc: Global,
    frame: &BodyFrame<'_>,
    tested: &[Place],
    context: &mut Context,
    at: Span,
    slot: Option<u8>,
    signature: &Signature,
    args: &[Operand],
) -> Result<(), FlowError>
    ensures { Leaves result (context_of context.new)
        (calls_this frame.now (tested_of tested.now) (context_of context.old) at signature.now args.now)
        (after_call_on_this frame.now (context_of context.old) at slot signature.now args.now) }
{
    pass_this(alloc, frame, tested, context, at, signature, args)?;
    *context = leave_fields(alloc, frame, signature, context)?;
    put_result(context, slot, signature.result)?;
    Ok(())
}
