//! Staged statements and changes of state (the Obsidian language documentation, "States").
ghost use Rattle.std.specs.Prelude.{◌≡◌, [], map};
ghost use Rattle.ob_table.specs.StatementsView.{given_field_of, statements_of};
ghost use Rattle.ob_lower_spec.specs.Forms.{refused_at};
ghost use Rattle.ob_lower_functions.specs.Progress.{slots_from};
ghost use Rattle.ob_lower_functions.specs.StatementCode.{row_code, stage_code, given_code, change_after, change_code};
ghost use Rattle.ob_lower.specs.Waits.{then_settled};
ghost use Rattle.ob_lower_parts.specs.Makes.{Makes, progress};

use crate::expressions::lower_value;
use crate::position::{BlockPosition, StagedRow, Waiting};
use crate::values::{begin_value, end_with};
use ob_base::{Items, Span, StateId};
use ob_lower_parts::{AroundExpression, Code, Slots, StaticFrame, Stopped};
use ob_silica::{Form, Given};
use ob_table::{ResolvedGiven, ResolvedStmt};

// The place of the first staged statement for this state, the last of which so far is at `at`, that isn't followed by
// another one for it or by the change to it.
#[tactic(auto, using(ob_table::specs::StatementsView::statement_views))]
fn refused_at(rest: &[ResolvedStmt], state: StateId, at: Span) -> Option<Span>
    ensures { result ≡ refused_at state at (statements_of rest.now) }
{
    let mut last = at;
    for statement in rest {
        match statement {
            ResolvedStmt::Stage {
                state: next,
                span,
                ..
            } => {
                if next.0 != state.0 {
                    return Some(last);
                }
                last = *span;
            }
            ResolvedStmt::Change { state: next, .. } => {
                return if next.0 == state.0 { None } else { Some(last) };
            }
            _ => return Some(last),
        }
    }
    Some(last)
}

// A staged statement after these of its row.
fn lower_row(
    mut row: StagedRow,
    given: &ResolvedGiven,
    frame: &StaticFrame<'_>,
    position: &mut BlockPosition,
    out: &mut Code,
) -> Result<(), Stopped>
    ensures { Makes result (λ _. (position.new, out.new))
        (row_code frame.now row.first row.given row.slots (given_field_of given.now) position.old out.old) }
{
    let from = begin_value(
        &given.value,
        row.first,
        frame,
        position,
        out,
        &mut row.slots,
    )?;
    row.given.push(Given {
        field: given.field,
        span: given.span,
        from,
    })?;
    position.wait(Waiting::Fields(row));
    Ok(())
}

/// A staged statement, before these.
pub fn lower_stage(
    state: StateId,
    given: &ResolvedGiven,
    span: Span,
    rest: &[ResolvedStmt],
    frame: &StaticFrame<'_>,
    position: &mut BlockPosition,
    out: &mut Code,
) -> Result<(), Stopped>
    ensures { Makes result (λ _. (position.new, out.new))
        (stage_code frame.now position.old.waiting (refused_at state span (statements_of rest.now))
        (given_field_of given.now) span position.old out.old) }
{
    match position.take_waiting() {
        Waiting::Refused => {
            position.wait(Waiting::Refused);
            Ok(())
        }
        Waiting::Fields(row) => lower_row(row, given, frame, position, out),
        Waiting::Nothing => match refused_at(rest, state, span) {
            Some(at) => {
                out.put(Form::BadRow, at)?;
                position.wait(Waiting::Refused);
                Ok(())
            }
            None => {
                let row = first_row(position, span, out);
                lower_row(row, given, frame, position, out)
            }
        },
    }
}

// A row that begins at this place.
fn first_row(position: &BlockPosition, first: Span, out: &Code) -> StagedRow
    ensures { result ≡ record { first = first; given = []; slots = slots_from position.now.slots } }
{
    StagedRow {
        first,
        given: Items::new(out.alloc()),
        slots: position.fresh_slots(out.alloc()),
    }
}

// The values of given fields from left to right, after these.
fn lower_given(
    given: &[ResolvedGiven],
    around: &AroundExpression<'_>,
    fields: &mut Items<Given>,
    out: &mut Code,
    slots: &mut Slots,
) -> Result<(), Stopped>
    ensures { Makes result (λ _. (progress out.new slots.new, fields.new))
        (given_code around.now (map given_field_of given.now) fields.old (progress out.old slots.old)) }
{
    for one in given {
        let from = lower_value(&one.value, around, out, slots)?;
        fields.push(Given {
            field: one.field,
            span: one.span,
            from,
        })?;
    }
    Ok(())
}

// A change of state after such a row.
fn change_after(
    mut row: StagedRow,
    state: StateId,
    given: &[ResolvedGiven],
    frame: &StaticFrame<'_>,
    position: &BlockPosition,
    out: &mut Code,
) -> Result<(), Stopped>
    ensures { Makes result (λ _. out.new)
        (change_after frame.now row.first row.given row.slots state (map given_field_of given.now) position.now out.old) }
{
    out.put(Form::Unit, row.first)?;
    let around = position.around(frame, row.first);
    lower_given(given, &around, &mut row.given, out, &mut row.slots)?;
    let StagedRow {
        first,
        given,
        slots,
    } = row;
    end_with(Form::Change { state, given }, first, slots, out)?;
    Ok(())
}

/// A change of state.
pub fn lower_change(
    state: StateId,
    given: &[ResolvedGiven],
    span: Span,
    frame: &StaticFrame<'_>,
    position: &mut BlockPosition,
    out: &mut Code,
) -> Result<(), Stopped>
    ensures { Makes result (λ _. (position.new, out.new)) (then_settled position.old
        (change_code frame.now position.old.waiting state (map given_field_of given.now) span position.old out.old)) }
{
    match position.take_waiting() {
        Waiting::Fields(row) => change_after(row, state, given, frame, position, out),
        Waiting::Nothing | Waiting::Refused => {
            let row = first_row(position, span, out);
            change_after(row, state, given, frame, position, out)
        }
    }
}
