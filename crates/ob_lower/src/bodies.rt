//! The bodies of transactions and constructors.
ghost use Rattle.std.specs.Prelude.{◌≡◌, ◌≤◌, ◌<◌, None, Ok, IfOk, IfErr, OnOk, if◌then◌else◌};
ghost use Rattle.ob_table.specs.StatementsView.{resolved_body_of};
ghost use Rattle.ob_table_spec.specs.WellFormed.{block_ends_there};
ghost use Rattle.ob_silica.specs.Terms.{no_terms, then_terms, one_term, return_form};
ghost use Rattle.ob_silica.specs.TermsView.{terms_of, silica_body_of};
ghost use Rattle.ob_lower_spec.specs.BodyTerms.{Lowers};
ghost use Rattle.ob_lower_spec.specs.SlotNeeds.{slots_run_out, IsSlotFault};
ghost use Rattle.ob_lower_functions.specs.StatementCode.{block_code};
ghost use Rattle.ob_lower_functions.specs.BodyCode.{body_of_terms, code_with, body_code};
ghost use Rattle.ob_lower_parts.specs.Makes.{Makes};
ghost use Rattle.ob_base.specs.TextErrors.{OnFault};
ghost use Rattle.ob_lower.specs.Beginning.{block_of, begins};

use crate::error::{LowerError, error_of};
use crate::position::BlockPosition;
use crate::statements::{Branch, lower_scope};
use ob_base::{Items, MOST_SLOTS, Memory, Span};
use ob_lower_parts::{StaticFrame, Stopped, Variables, count_slots};
use ob_silica::{Form, Term, TermBody};
use ob_table::{Body, Contract, Signature, Table};
use std::alloc::Global;

// The terms of a body: where its end is reached, it is a `return` without a value.
#[tactic(auto, using(ob_lower_parts::proofs::CodeLemmas::terms))]
fn with_ending(block: Branch, end: Span) -> Result<Items<Term>, Memory>
    ensures { IfOk result (λ ts. terms_of ts ≡ then_terms (terms_of block.terms)
        (if block.ends then no_terms else one_term (return_form None) end)) }
{
    let Branch { mut terms, ends } = block;
    if !ends {
        terms.push(Term {
            form: Form::Return { place: None },
            span: end,
        })?;
    }
    Ok(terms)
}

// A body with so many parameters, whose statements have these terms.
fn body_with(body: &Body, params: usize, block: Branch) -> Result<TermBody, Stopped>
    requires { params < MOST_SLOTS }
    ensures { Makes result silica_body_of (Ok (body_of_terms (resolved_body_of body.now) params
        (then_terms (terms_of block.terms) (if block.ends then no_terms else one_term (return_form None) body.now.end)))) }
{
    let terms = with_ending(block, body.end)?;
    let Ok(slots) = u8::try_from(count_slots(params, terms.as_slice())) else {
        return Err(Stopped::Memory);
    };
    Ok(TermBody {
        contract: body.contract,
        tx: body.tx,
        terms,
        slots,
        end: body.end,
    })
}

// The statements of a body, at whose beginning these variables are visible, which have so many slots with `this`.
fn lower_whole(
    body: &Body,
    frame: &StaticFrame<'_>,
    variables: Variables,
    slots: u8,
    alloc: Global,
) -> Result<Branch, Stopped>
    ensures code { Makes result (λ b. terms_of b.terms)
        (block_code frame.now (block_of (resolved_body_of body.now)) (begins variables slots)) }
    ensures ends { IfOk result (λ b. b.ends ≡ block_ends_there (block_of (resolved_body_of body.now))) }
{
    let mut position = BlockPosition::new(variables, slots);
    let statements = body.statements.as_slice();
    lower_scope(statements, body.end, frame, &mut position, alloc)
}

// A body of this contract with this signature.
#[tactic(auto, using(crate::proofs::BodiesLemmas::bodies))]
fn lower_with(
    body: &Body,
    table: &Table,
    own: &Contract,
    signature: &Signature,
    alloc: Global,
) -> Result<TermBody, Stopped>
    ensures { Makes result silica_body_of
        (code_with table.now own.now signature.now (resolved_body_of body.now)) }
{
    let params = signature.params.as_slice();
    if params.len() >= MOST_SLOTS as usize {
        return Err(Stopped::NotWellFormed);
    }
    let frame = StaticFrame::new(table, body.contract, own, signature);
    let variables = Variables::of_params(alloc, params)?;
    let block = lower_whole(body, &frame, variables, params.len() as u8 + 1, alloc)?;
    body_with(body, params.len(), block)
}

fn lower_body(body: &Body, table: &Table, alloc: Global) -> Result<TermBody, Stopped>
    ensures { Makes result silica_body_of (body_code table.now (resolved_body_of body.now)) }
{
    let Some(own) = table.contract(body.contract) else {
        return Err(Stopped::NotWellFormed);
    };
    let Some(signature) = own.signature(body.tx) else {
        return Err(Stopped::NotWellFormed);
    };
    lower_with(body, table, own, signature, alloc)
}

/// The terms of a body of a class table, or the place at which it needs more slots than it may have. A body that isn't
/// well-formed, or has more parameters than there are slots, may count as want of memory.
pub fn lower(alloc: Global, table: &Table, body: &Body) -> Result<TermBody, LowerError>
    ensures lowered { IfOk result (λ terms. Lowers table.now (resolved_body_of body.now) (silica_body_of terms)) }
    ensures in_order { IfOk result (λ terms. body_code table.now (resolved_body_of body.now) ≡ Ok (silica_body_of terms)) }
    ensures fits { IfOk result (λ terms. slots_run_out table.now (resolved_body_of body.now) ≡ None) }
    ensures few { IfOk result (λ terms. terms.slots ≤ MOST_SLOTS) }
    ensures fault { IfErr result (λ e. OnFault e (IsSlotFault table.now (resolved_body_of body.now))) }
{
    match lower_body(body, table, alloc) {
        Ok(terms) => Ok(terms),
        Err(stopped) => Err(error_of(stopped)),
    }
}
