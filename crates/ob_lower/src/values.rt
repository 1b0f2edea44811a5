//! Where the expressions of a statement begin and end.
ghost use Rattle.std.specs.Prelude.{◌≡◌, OnOk};
ghost use Rattle.ob_table.specs.ExpressionsView.{expression_of};
ghost use Rattle.ob_silica.specs.Terms.{then_terms};
ghost use Rattle.ob_silica.specs.TermsView.{form_of};
ghost use Rattle.ob_lower_spec.specs.Forms.{drops};
ghost use Rattle.ob_lower_functions.specs.Progress.{ended};
ghost use Rattle.ob_lower_functions.specs.ExpressionCode.{expression_code, value_code};
ghost use Rattle.ob_lower_functions.specs.StatementCode.{around_at, begun};
ghost use Rattle.ob_lower_parts.specs.Makes.{Makes, progress};
ghost use Rattle.ob_lower.specs.Plain.{alone_code};

use crate::expressions::{lower_expression, lower_value};
use crate::position::BlockPosition;
use ob_base::{Memory, Span};
use ob_lower_parts::{Code, Slots, StaticFrame, Stopped, drop_temporaries};
use ob_silica::{Form, Operand};
use ob_table::ResolvedExpr;

/// An expression with which a statement begins, after a unit of fuel.
pub fn begin_expression(
    e: &ResolvedExpr,
    span: Span,
    frame: &StaticFrame<'_>,
    position: &BlockPosition,
    out: &mut Code,
    slots: &mut Slots,
) -> Result<Option<Operand>, Stopped>
    ensures { Makes result (λ o. (progress out.new slots.new, o))
        (expression_code (around_at frame.now position.now span) (expression_of e.now) (begun slots.old span out.old)) }
{
    out.put(Form::Unit, span)?;
    let around = position.around(frame, span);
    lower_expression(e, &around, out, slots)
}

/// An expression that must have a value, with which a statement begins, after a unit of fuel.
pub fn begin_value(
    e: &ResolvedExpr,
    span: Span,
    frame: &StaticFrame<'_>,
    position: &BlockPosition,
    out: &mut Code,
    slots: &mut Slots,
) -> Result<Operand, Stopped>
    ensures { Makes result (λ o. (progress out.new slots.new, o))
        (value_code (around_at frame.now position.now span) (expression_of e.now) (begun slots.old span out.old)) }
{
    out.put(Form::Unit, span)?;
    let around = position.around(frame, span);
    lower_value(e, &around, out, slots)
}

/// The end of the temporaries.
pub fn end_temporaries(slots: Slots, span: Span, out: &mut Code) -> Result<(), Memory>
    ensures { OnOk result (out.new ≡ then_terms out.old (drops slots.references span)) }
{
    drop_temporaries(&slots, span, out)
}

/// One more term, and then the end of the temporaries.
pub fn end_with(form: Form, span: Span, slots: Slots, out: &mut Code) -> Result<(), Memory>
    ensures { OnOk result (out.new ≡ ended span (form_of form) (progress out.old slots)) }
{
    out.put(form, span)?;
    end_temporaries(slots, span, out)
}

/// A value whose temporaries aren't dropped, with which a statement begins.
pub fn value_alone(
    e: &ResolvedExpr,
    span: Span,
    frame: &StaticFrame<'_>,
    position: &BlockPosition,
    out: &mut Code,
) -> Result<Operand, Stopped>
    ensures { Makes result (λ o. (out.new, o)) (alone_code frame.now (expression_of e.now) span position.now out.old) }
{
    let mut slots = position.fresh_slots(out.alloc());
    begin_value(e, span, frame, position, out, &mut slots)
}
