//! Statements without blocks (the Obsidian language documentation, "Statements").
ghost use Rattle.std.specs.Prelude.{◌≡◌, Ok, Some, option_map, IfOk, OnOk};
ghost use Rattle.ob_table.specs.ExpressionsView.{expression_of};
ghost use Rattle.ob_table.specs.StatementsView.{statement_of, statements_of};
ghost use Rattle.ob_table_spec.specs.WellFormed.{ends_there};
ghost use Rattle.ob_silica.specs.Terms.{unit_form, disown_form, assert_form};
ghost use Rattle.ob_silica.specs.TermsView.{form_of};
ghost use Rattle.ob_lower_spec.specs.Forms.{set_slot, set_place};
ghost use Rattle.ob_lower_functions.specs.Progress.{with_term};
ghost use Rattle.ob_lower_functions.specs.StatementCode.{declare_code, assign_code, discard_code, condition_code};
ghost use Rattle.ob_lower_functions.specs.StatementCode.{return_code, revert_code, named_code, settled, statement_code};
ghost use Rattle.ob_lower_parts.specs.Makes.{Makes};
ghost use Rattle.ob_lower.specs.Plain.{HasNoBlock, about_code, empty_revert, set_seen};
ghost use Rattle.ob_lower.specs.Waits.{then_settled};

use crate::position::BlockPosition;
use crate::rows::{lower_change, lower_stage};
use crate::values::{begin_expression, begin_value, end_temporaries, end_with, value_alone};
use ob_base::{Perm, Span, Text};
use ob_lower_parts::{AroundExpression, Code, SlotVariable, StaticFrame, Stopped, slot_operand};
use ob_silica::{Constant, Form, Operand, Place};
use ob_table::{Kind, ResolvedExpr, ResolvedStmt, Seen, SeenAt};

// What sets a slot of this kind.
fn set_slot(kind: Kind, slot: u8, from: Operand) -> Form
    ensures { form_of result ≡ set_slot kind slot from }
{
    let to = Place::Slot(slot);
    match kind {
        Kind::Reference(contract) => Form::Move {
            to,
            from,
            contract: Some(contract),
        },
        Kind::Int | Kind::Bool | Kind::Text => Form::Copy { to, from },
    }
}

// What sets a place of this kind.
fn set_place(kind: Kind, place: Place, from: Operand) -> Form
    ensures { form_of result ≡ set_place kind place from }
{
    match place {
        Place::Slot(slot) => set_slot(kind, slot, from),
        Place::Field(_) => match kind {
            Kind::Reference(_) => Form::Move {
                to: place,
                from,
                contract: None,
            },
            Kind::Int | Kind::Bool | Kind::Text => Form::Copy { to: place, from },
        },
        Place::This => Form::Copy { to: place, from },
    }
}

// What a declaration declares: the variable's number, the place of its name, and its kind.
#[derive(Clone, Copy)]
struct Declared {
    local: u32,
    name: Span,
    of: Kind,
}

// A declaration.
fn lower_declare(
    declared: Declared,
    value: &ResolvedExpr,
    span: Span,
    frame: &StaticFrame<'_>,
    position: &mut BlockPosition,
    out: &mut Code,
) -> Result<(), Stopped>
    ensures { Makes result (λ _. (position.new, out.new))
        (declare_code frame.now declared.local declared.name declared.of (expression_of value.now) span
        position.old out.old) }
{
    let mut slots = position.fresh_slots(out.alloc());
    let slot = slots.next(declared.name)?;
    let from = begin_value(value, span, frame, position, out, &mut slots)?;
    end_with(set_slot(declared.of, slot, from), span, slots, out)?;
    position.declare(SlotVariable {
        local: declared.local,
        kind: declared.of,
        slot,
    })?;
    Ok(())
}

// What sets the place of a name.
fn set_seen(seen: Seen, from: Operand, around: &AroundExpression<'_>) -> Result<Form, Stopped>
    ensures { Makes result form_of (set_seen around.now seen from) }
{
    match (around.kind_of_seen(seen), around.place_seen(seen)) {
        (Some(kind), Some(place)) => Ok(set_place(kind, place, from)),
        _ => Err(Stopped::NotWellFormed),
    }
}

// An assignment.
fn lower_assign(
    target: SeenAt,
    value: &ResolvedExpr,
    span: Span,
    frame: &StaticFrame<'_>,
    position: &mut BlockPosition,
    out: &mut Code,
) -> Result<(), Stopped>
    ensures { Makes result (λ _. (position.new, out.new))
        (then_settled position.old (assign_code frame.now target (expression_of value.now) span position.old out.old)) }
{
    let mut slots = position.fresh_slots(out.alloc());
    let from = begin_value(value, span, frame, position, out, &mut slots)?;
    let form = set_seen(target.of, from, &position.around(frame, span))?;
    end_with(form, span, slots, out)?;
    position.settle();
    Ok(())
}

// A call or a `new` whose value is let go.
fn lower_discard(
    value: &ResolvedExpr,
    span: Span,
    frame: &StaticFrame<'_>,
    position: &mut BlockPosition,
    out: &mut Code,
) -> Result<(), Stopped>
    ensures { Makes result (λ _. (position.new, out.new))
        (then_settled position.old (discard_code frame.now (expression_of value.now) span position.old out.old)) }
{
    let mut slots = position.fresh_slots(out.alloc());
    let _value = begin_expression(value, span, frame, position, out, &mut slots)?;
    end_temporaries(slots, span, out)?;
    position.settle();
    Ok(())
}

/// The condition of an `if` or a `while`, whose temporaries end before it is used.
pub fn lower_condition(
    condition: &ResolvedExpr,
    span: Span,
    frame: &StaticFrame<'_>,
    position: &mut BlockPosition,
    out: &mut Code,
) -> Result<Operand, Stopped>
    ensures code { Makes result (λ o. (out.new, o))
        (condition_code frame.now (expression_of condition.now) span position.old out.old) }
    ensures position { OnOk result (position.new ≡ settled position.old) }
{
    let mut slots = position.fresh_slots(out.alloc());
    let operand = begin_value(condition, span, frame, position, out, &mut slots)?;
    end_temporaries(slots, span, out)?;
    position.settle();
    Ok(operand)
}

// A `return` with a value.
fn return_value(
    value: &ResolvedExpr,
    span: Span,
    frame: &StaticFrame<'_>,
    position: &BlockPosition,
    out: &mut Code,
) -> Result<(), Stopped>
    ensures { Makes result (λ _. out.new)
        (return_code frame.now (Some (expression_of value.now)) span position.now out.old) }
{
    let place = Some(value_alone(value, span, frame, position, out)?);
    out.put(Form::Return { place }, span)?;
    Ok(())
}

// A `return` with a value or with none.
fn lower_return(
    value: &Option<ResolvedExpr>,
    span: Span,
    frame: &StaticFrame<'_>,
    position: &mut BlockPosition,
    out: &mut Code,
) -> Result<(), Stopped>
    ensures { Makes result (λ _. (position.new, out.new)) (then_settled position.old
        (return_code frame.now (option_map expression_of value.now) span position.old out.old)) }
{
    match value {
        None => {
            out.put(Form::Unit, span)?;
            out.put(Form::Return { place: None }, span)?;
        }
        Some(value) => return_value(value, span, frame, position, out)?,
    }
    position.settle();
    Ok(())
}

// A `revert` with a text.
fn revert_with(
    text: &ResolvedExpr,
    span: Span,
    frame: &StaticFrame<'_>,
    position: &BlockPosition,
    out: &mut Code,
) -> Result<(), Stopped>
    ensures { Makes result (λ _. out.new)
        (revert_code frame.now (Some (expression_of text.now)) span position.now out.old) }
{
    let text = value_alone(text, span, frame, position, out)?;
    out.put(Form::Revert { text }, span)?;
    Ok(())
}

// A `revert` with an empty text, which takes this slot.
fn revert_empty(slot: u8, span: Span, out: &mut Code) -> Result<(), Stopped>
    ensures { Makes result (λ _. out.new) (Ok (empty_revert slot span out.old)) }
{
    out.put(Form::Unit, span)?;
    let Ok(empty) = Text::of(out.alloc(), &[]) else {
        return Err(Stopped::Memory);
    };
    let value = Constant::Text(empty);
    out.put(Form::Const { slot, value }, span)?;
    let text = slot_operand(slot, span);
    out.put(Form::Revert { text }, span)?;
    Ok(())
}

// A `revert`; without a text it has an empty one.
fn lower_revert(
    text: &Option<ResolvedExpr>,
    span: Span,
    frame: &StaticFrame<'_>,
    position: &mut BlockPosition,
    out: &mut Code,
) -> Result<(), Stopped>
    ensures { Makes result (λ _. (position.new, out.new)) (then_settled position.old
        (revert_code frame.now (option_map expression_of text.now) span position.old out.old)) }
{
    match text {
        None => {
            let slot = position.fresh_slots(out.alloc()).next(span)?;
            revert_empty(slot, span, out)?;
        }
        Some(text) => revert_with(text, span, frame, position, out)?,
    }
    position.settle();
    Ok(())
}

/// The name that a statement at this place is about; the statement takes a unit of fuel first.
pub fn begin_named(
    seen: SeenAt,
    span: Span,
    position: &mut BlockPosition,
    out: &mut Code,
) -> Result<Operand, Stopped>
    ensures named { Makes result (λ o. o) (named_code position.old seen) }
    ensures unit { OnOk result (out.new ≡ with_term out.old unit_form span) }
    ensures position { OnOk result (position.new ≡ settled position.old) }
{
    let operand = position.named(seen)?;
    out.put(Form::Unit, span)?;
    position.settle();
    Ok(operand)
}

// A `disown`.
fn lower_disown(
    subject: SeenAt,
    span: Span,
    position: &mut BlockPosition,
    out: &mut Code,
) -> Result<(), Stopped>
    ensures { Makes result (λ _. (position.new, out.new)) (about_code position.old subject disown_form span out.old) }
{
    let place = begin_named(subject, span, position, out)?;
    out.put(Form::Disown { place }, span)?;
    Ok(())
}

// An assertion that a name has this permission.
fn lower_assert(
    subject: SeenAt,
    perm: Perm,
    span: Span,
    position: &mut BlockPosition,
    out: &mut Code,
) -> Result<(), Stopped>
    ensures { Makes result (λ _. (position.new, out.new)) (about_code position.old subject
        (λ o. assert_form o perm) span out.old) }
{
    let place = begin_named(subject, span, position, out)?;
    out.put(Form::Assert { place, perm }, span)?;
    Ok(())
}

// The terms of a statement without blocks before these.
#[tactic(auto, using(ob_table::specs::StatementsView::statement_views))]
fn put_plain(
    statement: &ResolvedStmt,
    rest: &[ResolvedStmt],
    frame: &StaticFrame<'_>,
    position: &mut BlockPosition,
    out: &mut Code,
) -> Result<(), Stopped>
    requires { HasNoBlock (statement_of statement.now) }
    ensures { Makes result (λ _. (position.new, out.new))
        (statement_code frame.now (statement_of statement.now) (statements_of rest.now) position.old out.old) }
{
    match statement {
        ResolvedStmt::Declare {
            local,
            name,
            of,
            value,
            span,
        } => {
            let (local, name, of) = (*local, *name, *of);
            let declared = Declared { local, name, of };
            lower_declare(declared, value, *span, frame, position, out)
        }
        ResolvedStmt::Assign {
            target,
            value,
            span,
        } => lower_assign(*target, value, *span, frame, position, out),
        ResolvedStmt::Stage { state, given, span } => {
            lower_stage(*state, given, *span, rest, frame, position, out)
        }
        ResolvedStmt::Change { state, given, span } => {
            lower_change(*state, given.as_slice(), *span, frame, position, out)
        }
        ResolvedStmt::Call { value, span } => lower_discard(value, *span, frame, position, out),
        ResolvedStmt::Return { value, span } => lower_return(value, *span, frame, position, out),
        ResolvedStmt::Revert { text, span } => lower_revert(text, *span, frame, position, out),
        ResolvedStmt::Disown { subject, span } => lower_disown(*subject, *span, position, out),
        ResolvedStmt::Assert {
            subject,
            perm,
            span,
        } => lower_assert(*subject, *perm, *span, position, out),
        ResolvedStmt::Test { .. } | ResolvedStmt::If { .. } | ResolvedStmt::While { .. } => {
            unreachable!()
        }
    }
}

// Whether nothing is reached after a statement without blocks.
#[tactic(auto, using(ob_table::specs::StatementsView::statement_views))]
fn ends_there(statement: &ResolvedStmt) -> bool
    requires { HasNoBlock (statement_of statement.now) }
    ensures { result ≡ ends_there (statement_of statement.now) }
{
    match statement {
        ResolvedStmt::Return { .. } | ResolvedStmt::Revert { .. } => true,
        _ => false,
    }
}

/// A statement without blocks before these: whether nothing is reached after it.
pub fn lower_plain(
    statement: &ResolvedStmt,
    rest: &[ResolvedStmt],
    frame: &StaticFrame<'_>,
    position: &mut BlockPosition,
    out: &mut Code,
) -> Result<bool, Stopped>
    requires { HasNoBlock (statement_of statement.now) }
    ensures code { Makes result (λ _. (position.new, out.new))
        (statement_code frame.now (statement_of statement.now) (statements_of rest.now) position.old out.old) }
    ensures ends { IfOk result (λ ends. ends ≡ ends_there (statement_of statement.now)) }
{
    put_plain(statement, rest, frame, position, out)?;
    Ok(ends_there(statement))
}
