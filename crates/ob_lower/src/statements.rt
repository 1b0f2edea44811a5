//! Statements and blocks (the Obsidian language documentation, "Statements").
ghost use Rattle.std.specs.Prelude.{◌≡◌, ◌&&◌, false, Ok, IfOk, OnOk};
ghost use Rattle.ob_table.specs.Statements.{resolved_block};
ghost use Rattle.ob_table.specs.StatementsView.{statement_of, statements_of, resolved_block_of, otherwise_of};
ghost use Rattle.ob_table_spec.specs.WellFormed.{ends_there, one_ends_there, block_ends_there, other_ends_there};
ghost use Rattle.ob_silica.specs.Terms.{loop_form};
ghost use Rattle.ob_silica.specs.TermsView.{form_of, terms_of};
ghost use Rattle.ob_lower_spec.specs.Forms.{join_of};
ghost use Rattle.ob_lower_functions.specs.Progress.{with_term};
ghost use Rattle.ob_lower_functions.specs.StatementCode.{settled, statement_code, statements_code};
ghost use Rattle.ob_lower_functions.specs.StatementCode.{block_code, otherwise_code};
ghost use Rattle.ob_lower_parts.specs.Makes.{Makes};

use crate::position::BlockPosition;
use crate::simple::{begin_named, lower_condition, lower_plain};
use ob_base::{Items, Span};
use ob_lower_parts::{Code, StaticFrame, Stopped, end_block};
use ob_silica::{Form, Operand, Term};
use ob_table::{ResolvedBlock, ResolvedStmt};
use std::alloc::Global;

/// The terms of a block, and whether nothing is reached after it.
#[derive(Drop)]
pub struct Branch {
    /// Its terms, in the order in which they are done.
    pub terms: Items<Term>,
    /// Whether each way through it returns or reverts before the closing brace.
    pub ends: bool,
}

// Where two branches join: the closing brace of the last block.
#[tactic(auto, using(ob_table::specs::StatementsView::statement_views))]
fn join_of(then: &ResolvedBlock, otherwise: &Option<ResolvedBlock>) -> Span
    ensures { result ≡ join_of (resolved_block_of then.now) (otherwise_of otherwise.now) }
{
    match otherwise {
        None => then.end,
        Some(block) => block.end,
    }
}

// A form with two branches: whether nothing is reached after it, as where both end.
fn put_branches(
    form: Form,
    first_ends: bool,
    second_ends: bool,
    span: Span,
    out: &mut Code,
) -> Result<bool, Stopped>
    ensures code { Makes result (λ _. out.new) (Ok (with_term out.old (form_of form) span)) }
    ensures ends { IfOk result (λ ends. ends ≡ (first_ends && second_ends)) }
{
    out.put(form, span)?;
    Ok(first_ends && second_ends)
}

// A loop of these parts, whose closing brace is its place: something is reached after it.
fn put_loop(
    first: Code,
    a: Operand,
    body: Items<Term>,
    end: Span,
    out: &mut Code,
) -> Result<bool, Stopped>
    ensures code { Makes result (λ _. out.new) (Ok (with_term out.old (loop_form first a (terms_of body) end) end)) }
    ensures ends { IfOk result (λ ends. ends ≡ false) }
{
    let form = Form::Loop {
        first: first.into_terms(),
        a,
        body,
        end,
    };
    out.put(form, end)?;
    Ok(false)
}

// A statement before these: whether nothing is reached after it.
#[cycle(lower_statement)]
#[tactic(auto, using(ob_table::specs::StatementsView::statement_views))]
fn lower_statement(
    statement: &ResolvedStmt,
    rest: &[ResolvedStmt],
    frame: &StaticFrame<'_>,
    position: &mut BlockPosition,
    out: &mut Code,
) -> Result<bool, Stopped>
    ensures code { Makes result (λ _. (position.new, out.new))
        (statement_code frame.now (statement_of statement.now) (statements_of rest.now) position.old out.old) }
    ensures ends { IfOk result (λ ends. ends ≡ ends_there (statement_of statement.now)) }
{
    match statement {
        ResolvedStmt::Test {
            subject,
            state,
            then,
            otherwise,
            span,
        } => {
            let place = begin_named(*subject, *span, position, out)?;
            let yes = lower_block(then, frame, position, out.alloc())?;
            let no = lower_otherwise(otherwise, frame, position, out.alloc())?;
            let form = Form::Test {
                place,
                state: *state,
                then: yes.terms,
                otherwise: no.terms,
                join: join_of(then, otherwise),
            };
            put_branches(form, yes.ends, no.ends, *span, out)
        }
        ResolvedStmt::If {
            condition,
            then,
            otherwise,
            span,
        } => {
            let a = lower_condition(condition, *span, frame, position, out)?;
            let yes = lower_block(then, frame, position, out.alloc())?;
            let no = lower_otherwise(otherwise, frame, position, out.alloc())?;
            let form = Form::If {
                a,
                then: yes.terms,
                otherwise: no.terms,
                join: join_of(then, otherwise),
            };
            put_branches(form, yes.ends, no.ends, *span, out)
        }
        ResolvedStmt::While {
            condition,
            body,
            span,
        } => {
            let mut first = Code::new(out.alloc());
            let a = lower_condition(condition, *span, frame, position, &mut first)?;
            let block = lower_block(body, frame, position, out.alloc())?;
            put_loop(first, a, block.terms, body.end, out)
        }
        _ => lower_plain(statement, rest, frame, position, out),
    }
}

// Statements: whether nothing is reached after them.
#[cycle(lower_statement)]
#[tactic(auto, using(ob_table::specs::StatementsView::statement_views))]
fn lower_statements(
    statements: &[ResolvedStmt],
    frame: &StaticFrame<'_>,
    position: &mut BlockPosition,
    out: &mut Code,
) -> Result<bool, Stopped>
    ensures code { Makes result (λ _. (position.new, out.new))
        (statements_code frame.now (statements_of statements.now) position.old out.old) }
    ensures ends { IfOk result (λ ends. ends ≡ one_ends_there (statements_of statements.now)) }
{
    let mut ends = false;
    for (index, statement) in statements.iter().enumerate() {
        let rest = &statements[index + 1..];
        if lower_statement(statement, rest, frame, position, out)? {
            ends = true;
        }
    }
    Ok(ends)
}

/// The statements of a block or a body, with the place of its closing brace.
#[cycle(lower_statement)]
#[tactic(auto, using(ob_table::specs::StatementsView::statement_views))]
pub fn lower_scope(
    statements: &[ResolvedStmt],
    end: Span,
    frame: &StaticFrame<'_>,
    position: &mut BlockPosition,
    alloc: Global,
) -> Result<Branch, Stopped>
    ensures code { Makes result (λ b. terms_of b.terms)
        (block_code frame.now (resolved_block (statements_of statements.now) end) position.old) }
    ensures ends { IfOk result (λ b. b.ends ≡ one_ends_there (statements_of statements.now)) }
    ensures position { OnOk result (position.new ≡ settled position.old) }
{
    let mut out = Code::new(alloc);
    let visible = position.visible();
    let slots = position.slots();
    position.settle();
    let ends = lower_statements(statements, frame, position, &mut out)?;
    end_block(ends, slots, position.slots(), end, &mut out)?;
    position.leave(visible, slots);
    Ok(Branch {
        terms: out.into_terms(),
        ends,
    })
}

#[cycle(lower_statement)]
#[tactic(auto, using(ob_table::specs::StatementsView::statement_views))]
fn lower_block(
    block: &ResolvedBlock,
    frame: &StaticFrame<'_>,
    position: &mut BlockPosition,
    alloc: Global,
) -> Result<Branch, Stopped>
    ensures code { Makes result (λ b. terms_of b.terms)
        (block_code frame.now (resolved_block_of block.now) position.old) }
    ensures ends { IfOk result (λ b. b.ends ≡ block_ends_there (resolved_block_of block.now)) }
    ensures position { OnOk result (position.new ≡ settled position.old) }
{
    lower_scope(
        block.statements.as_slice(),
        block.end,
        frame,
        position,
        alloc,
    )
}

#[cycle(lower_statement)]
#[tactic(auto, using(ob_table::specs::StatementsView::statement_views))]
fn lower_otherwise(
    otherwise: &Option<ResolvedBlock>,
    frame: &StaticFrame<'_>,
    position: &mut BlockPosition,
    alloc: Global,
) -> Result<Branch, Stopped>
    ensures code { Makes result (λ b. terms_of b.terms)
        (otherwise_code frame.now (otherwise_of otherwise.now) position.old) }
    ensures ends { IfOk result (λ b. b.ends ≡ other_ends_there (otherwise_of otherwise.now)) }
    ensures position { OnOk result (position.new ≡ settled position.old) }
{
    match otherwise {
        Some(block) => lower_block(block, frame, position, alloc),
        None => {
            position.settle();
            Ok(Branch {
                terms: Items::new(alloc),
                ends: false,
            })
        }
    }
}
