//! Names (the Obsidian language documentation, "Expressions").
ghost use Rattle.ob_table_spec.specs.WellFormed.{is_reference};
ghost use Rattle.ob_lower_functions.specs.ExpressionCode.{name_code, seen_code, receiver_code};
ghost use Rattle.ob_lower_parts.specs.Makes.{Makes, progress};
ghost use Rattle.ob_lower_parts.specs.Operands.{with_value};

use crate::frame::AroundExpression;
use crate::operands::{is_reference, put_into};
use crate::{Code, Slots, Stopped};
use ob_base::Span;
use ob_silica::{Form, Operand, Place};
use ob_table::{Kind, Seen, SeenAt};

// A name of this kind, which denotes this place.
fn lower_name(
    kind: Kind,
    from: Operand,
    around: &AroundExpression<'_>,
    out: &mut Code,
    slots: &mut Slots,
) -> Result<Option<Operand>, Stopped>
    ensures { Makes result (λ o. (progress out.new slots.new, o))
        (with_value (name_code around.now (is_reference kind) from (progress out.old slots.old))) }
{
    if is_reference(kind) {
        return Ok(Some(from));
    }
    let slot = slots.next(from.span)?;
    let to = Place::Slot(slot);
    put_into(slot, Form::Copy { to, from }, from.span, around, out)
}

/// A name: a reference is found where it is, and another value is copied.
pub fn lower_seen(
    seen: Seen,
    span: Span,
    around: &AroundExpression<'_>,
    out: &mut Code,
    slots: &mut Slots,
) -> Result<Option<Operand>, Stopped>
    ensures { Makes result (λ o. (progress out.new slots.new, o))
        (with_value (seen_code around.now seen span (progress out.old slots.old))) }
{
    let Some(kind) = around.kind_of_seen(seen) else {
        return Err(Stopped::NotWellFormed);
    };
    let Some(place) = around.place_seen(seen) else {
        return Err(Stopped::NotWellFormed);
    };
    lower_name(kind, Operand { place, span }, around, out, slots)
}

/// The receiver of a call, if it has one.
pub fn lower_receiver(
    receiver: Option<SeenAt>,
    around: &AroundExpression<'_>,
) -> Result<Option<Operand>, Stopped>
    ensures { Makes result (λ o. o) (receiver_code around.now receiver) }
{
    match receiver {
        None => Ok(None),
        Some(receiver) => match around.place_seen(receiver.of) {
            None => Err(Stopped::NotWellFormed),
            Some(place) => Ok(Some(Operand {
                place,
                span: receiver.span,
            })),
        },
    }
}
