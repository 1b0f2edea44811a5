//! Operands, and values that are written in the text.
ghost use Rattle.std.specs.Prelude.{◌≡◌, OnOk};
ghost use Rattle.ob_table_spec.specs.WellFormed.{is_reference};
ghost use Rattle.ob_silica.specs.TermsView.{form_of};
ghost use Rattle.ob_silica.specs.declared.place.Constant.TheVariants.{Text as text_constant};
ghost use Rattle.ob_lower_spec.specs.Forms.{slot_operand};
ghost use Rattle.ob_lower_functions.specs.Progress.{found, kept};
ghost use Rattle.ob_lower_functions.specs.ExpressionCode.{constant_code};
ghost use Rattle.ob_lower_parts.specs.Makes.{Makes, progress};
ghost use Rattle.ob_lower_parts.specs.Operands.{with_value, set_code};

use crate::frame::AroundExpression;
use crate::{Code, Slots, Stopped};
use ob_base::{Duplicate, Memory, Span, Text};
use ob_silica::{Constant, Form, Operand, Place};
use ob_table::Kind;

/// A slot that represents a part of the text.
pub fn slot_operand(slot: u8, span: Span) -> Operand
    ensures { result ≡ slot_operand slot span }
{
    Operand {
        place: Place::Slot(slot),
        span,
    }
}

/// The operand of a value, which must be there.
pub fn valued(operand: Option<Operand>) -> Result<Operand, Stopped>
    ensures { Makes result (λ o. o) (found operand) }
{
    match operand {
        Some(operand) => Ok(operand),
        None => Err(Stopped::NotWellFormed),
    }
}

/// Whether a kind is that of references.
pub fn is_reference(kind: Kind) -> bool
    ensures { result ≡ is_reference kind }
{
    matches!(kind, Kind::Reference(_))
}

/// A slot is kept to be dropped, if it is a reference.
pub fn keep_reference(is_ref: bool, slot: u8, slots: &mut Slots) -> Result<(), Memory>
    ensures { OnOk result (slots.new ≡ kept is_ref slot slots.old) }
{
    if is_ref {
        slots.keep(slot)?;
    }
    Ok(())
}

/// A term that sets this slot, which represents a part of the text.
pub fn put_into(
    slot: u8,
    form: Form,
    span: Span,
    around: &AroundExpression<'_>,
    out: &mut Code,
) -> Result<Option<Operand>, Stopped>
    ensures { Makes result (λ o. (out.new, o))
        (set_code around.now slot (form_of form) span out.old) }
{
    out.put(form, around.span())?;
    Ok(Some(slot_operand(slot, span)))
}

/// A value that is written in the text.
pub fn lower_constant(
    constant: Constant,
    span: Span,
    around: &AroundExpression<'_>,
    out: &mut Code,
    slots: &mut Slots,
) -> Result<Option<Operand>, Stopped>
    ensures { Makes result (λ o. (progress out.new slots.new, o))
        (with_value (constant_code around.now constant span (progress out.old slots.old))) }
{
    let slot = slots.next(span)?;
    let value = constant;
    put_into(slot, Form::Const { slot, value }, span, around, out)
}

/// A text that is written in the text of the program.
pub fn lower_text(
    text: &Text,
    span: Span,
    around: &AroundExpression<'_>,
    out: &mut Code,
    slots: &mut Slots,
) -> Result<Option<Operand>, Stopped>
    ensures { Makes result (λ o. (progress out.new slots.new, o))
        (with_value (constant_code around.now (text_constant text.now) span (progress out.old slots.old))) }
{
    let text = text.copy(out.alloc())?;
    lower_constant(Constant::Text(text), span, around, out, slots)
}
