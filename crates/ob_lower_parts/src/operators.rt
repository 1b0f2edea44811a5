//! Operators after their operands (the Obsidian language documentation, "Expressions").
ghost use Rattle.ob_silica.specs.TermsView.{terms_of};
ghost use Rattle.ob_lower_parts.specs.Makes.{Makes, progress};
ghost use Rattle.ob_lower_parts.specs.Operands.{with_value, operation_code, choice_code};

use crate::frame::AroundExpression;
use crate::operands::put_into;
use crate::{Code, Slots, Stopped};
use ob_base::{Items, Span};
use ob_silica::{Form, Operand, SilicaOperator, Term};

/// A binary operator or a unary one, and its place.
#[derive(Clone, Copy)]
pub struct Sign {
    /// Which operator it is.
    pub operator: SilicaOperator,
    /// Where its sign stands in the text: the term of the operation keeps the line.
    pub span: Span,
}

/// The value of an operator with these operands.
pub fn put_operation(
    sign: Sign,
    a: Operand,
    b: Operand,
    span: Span,
    around: &AroundExpression<'_>,
    out: &mut Code,
    slots: &mut Slots,
) -> Result<Option<Operand>, Stopped>
    ensures { Makes result (λ o. (progress out.new slots.new, o))
        (with_value (operation_code around.now sign.operator sign.span span a b (progress out.old slots.old))) }
{
    let slot = slots.next(span)?;
    let form = Form::Op {
        slot,
        operator: sign.operator,
        a,
        b,
        line: sign.span.line,
    };
    put_into(slot, form, span, around, out)
}

/// The value of `&&` or `||`, with these terms for each value of its left side.
pub fn put_choice(
    left: Operand,
    then: Items<Term>,
    otherwise: Items<Term>,
    sign: Span,
    span: Span,
    around: &AroundExpression<'_>,
    out: &mut Code,
) -> Result<Option<Operand>, Stopped>
    ensures { Makes result (λ o. (out.new, o))
        (choice_code around.now sign span left (terms_of then) (terms_of otherwise) out.old) }
{
    let form = Form::If {
        a: left,
        then,
        otherwise,
        join: sign,
    };
    out.put(form, around.span())?;
    Ok(Some(Operand {
        place: left.place,
        span,
    }))
}
