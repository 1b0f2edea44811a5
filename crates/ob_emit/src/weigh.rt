//! Whether a program weighs no more than it may. What each part weighs is taken off what is left, so that no sum grows past
//! its type. On the way each line of the terms is read, so that it is known to have 32 bits.
ghost use Rattle.std.specs.Prelude.{◌≡◌, ◌<◌, ◌≤◌, ◌+◌, ◌*◌, true, false, length, map, OnSome};
ghost use Rattle.ob_base.specs.Limits.{most_weight};
ghost use Rattle.ob_silica.specs.TermsView.{form_of, terms_of, silica_body_of};
ghost use Rattle.ob_emit_spec.specs.Weights.{weight_of_constant, weight_of_form, weight_of_terms, weight_of_bodies};
ghost use Rattle.ob_emit_spec.specs.Weights.{weight};
ghost use Rattle.ob_weight_laws.specs.Counting.{size_of_text, size_of_type, size_of_param_type, size_of_result};
ghost use Rattle.ob_weight_laws.specs.Counting.{size_of_params, size_of_states, size_of_field, size_of_fields};
ghost use Rattle.ob_weight_laws.specs.Counting.{size_of_signature, size_of_signatures, size_of_contract, size_of_contracts};
ghost use Rattle.ob_weight_laws.specs.Counting.{size_of_table};
ghost use Rattle.ob_weight_laws.specs.Lines.{FormLinesFit, LinesFit, AllLinesFit};
ghost use Rattle.ob_emit.specs.Spending.{Spends};

use ob_base::{MOST_WEIGHT, Name};
use ob_silica::{Constant, Form, Term, TermBody};
use ob_table::{Contract, Field, Param, ResolvedType, Signature, Table};

// What a form weighs by itself.
const FORM_WEIGHT: usize = 32;

// What an argument or a given field weighs.
const ARGUMENT_WEIGHT: usize = 16;

// A weight is taken off.
fn spend(weight: usize, left: usize) -> Option<usize>
    ensures { Spends result weight left }
{
    if weight <= left {
        Some(left - weight)
    } else {
        None
    }
}

fn spend_text(bytes: &[u8], left: usize) -> Option<usize>
    ensures { Spends result (size_of_text bytes.now) left }
{
    let left = spend(4, left)?;
    spend(bytes.len(), left)
}

fn spend_type(of: ResolvedType, left: usize) -> Option<usize>
    ensures { Spends result (size_of_type of) left }
{
    match of {
        ResolvedType::Reference(_, _) => spend(14, left),
        ResolvedType::Int | ResolvedType::Bool | ResolvedType::Text => spend(1, left),
    }
}

fn spend_param(of: ResolvedType, left: usize) -> Option<usize>
    ensures { Spends result (size_of_param_type of) left }
{
    match of {
        ResolvedType::Reference(_, _) => spend(23, left),
        ResolvedType::Int | ResolvedType::Bool | ResolvedType::Text => spend(1, left),
    }
}

fn spend_result(of: Option<ResolvedType>, left: usize) -> Option<usize>
    ensures { Spends result (size_of_result of) left }
{
    match of {
        Some(of) => {
            let left = spend(1, left)?;
            spend_type(of, left)
        }
        None => spend(1, left),
    }
}

fn spend_params(params: &[Param], left: usize) -> Option<usize>
    ensures { Spends result (size_of_params params.now) left }
{
    let mut left = left;
    for param in params {
        left = spend_param(param.of, left)?;
    }
    Some(left)
}

fn spend_states(states: &[Name], left: usize) -> Option<usize>
    ensures { Spends result (size_of_states states.now) left }
{
    let mut left = left;
    for state in states {
        left = spend_text(state.as_bytes(), left)?;
    }
    Some(left)
}

fn spend_field(field: &Field, left: usize) -> Option<usize>
    ensures { Spends result (size_of_field field.now) left }
{
    let left = spend_text(field.name.as_bytes(), left)?;
    let left = spend_type(field.of, left)?;
    spend(8, left)
}

fn spend_fields(fields: &[Field], left: usize) -> Option<usize>
    ensures { Spends result (size_of_fields fields.now) left }
{
    let mut left = left;
    for field in fields {
        left = spend_field(field, left)?;
    }
    Some(left)
}

fn spend_signature(signature: &Signature, left: usize) -> Option<usize>
    ensures { Spends result (size_of_signature signature.now) left }
{
    let left = spend_text(signature.name.as_bytes(), left)?;
    let left = spend_params(signature.params.as_slice(), left)?;
    let left = spend_result(signature.result, left)?;
    spend(28, left)
}

fn spend_signatures(signatures: &[Signature], left: usize) -> Option<usize>
    ensures { Spends result (size_of_signatures signatures.now) left }
{
    let mut left = left;
    for signature in signatures {
        left = spend_signature(signature, left)?;
    }
    Some(left)
}

fn spend_contract(own: &Contract, left: usize) -> Option<usize>
    ensures { Spends result (size_of_contract own.now) left }
{
    let left = spend_text(own.name.as_bytes(), left)?;
    let left = spend_states(own.states.as_slice(), left)?;
    let left = spend_fields(own.fields.as_slice(), left)?;
    let left = spend_signatures(own.transactions.as_slice(), left)?;
    spend(17, left)
}

fn spend_contracts(contracts: &[Contract], left: usize) -> Option<usize>
    ensures { Spends result (size_of_contracts contracts.now) left }
{
    let mut left = left;
    for own in contracts {
        left = spend_contract(own, left)?;
    }
    Some(left)
}

// So many arguments or given fields.
fn spend_arguments(count: usize, left: usize) -> Option<usize>
    ensures { Spends result (16 * count) left }
{
    if count <= left / ARGUMENT_WEIGHT {
        Some(left - ARGUMENT_WEIGHT * count)
    } else {
        None
    }
}

fn spend_constant(value: &Constant, left: usize) -> Option<usize>
    ensures { Spends result (weight_of_constant value.now) left }
{
    match value {
        Constant::Int(_) | Constant::Bool(_) => Some(left),
        Constant::Text(text) => spend(text.as_bytes().len(), left),
    }
}

#[cycle(spend_form)]
#[tactic(auto, using(ob_silica::specs::TermsView::term_views))]
fn spend_form(form: &Form, left: usize) -> Option<usize>
    ensures weight { Spends result (weight_of_form (form_of form.now)) left }
    ensures lines { OnSome result (FormLinesFit (form_of form.now)) }
{
    let left = spend(FORM_WEIGHT, left)?;
    match form {
        Form::Const { value, .. } => spend_constant(value, left),
        Form::New { args, .. } | Form::Call { args, .. } | Form::CallThis { args, .. } => {
            spend_arguments(args.len(), left)
        }
        Form::Change { given, .. } => spend_arguments(given.len(), left),
        Form::Test {
            then,
            otherwise,
            ..
        }
        | Form::If {
            then,
            otherwise,
            ..
        } => {
            let left = spend_terms(then.as_slice(), left)?;
            spend_terms(otherwise.as_slice(), left)
        }
        Form::Loop { first, body, .. } => {
            let left = spend_terms(first.as_slice(), left)?;
            spend_terms(body.as_slice(), left)
        }
        Form::Op { line, .. } => {
            let _line = *line;
            Some(left)
        }
        Form::Unit
        | Form::Copy { .. }
        | Form::Move { .. }
        | Form::Assert { .. }
        | Form::Disown { .. }
        | Form::Drop { .. }
        | Form::Return { .. }
        | Form::Revert { .. }
        | Form::BadRow => Some(left),
    }
}

#[cycle(spend_form)]
fn spend_terms(terms: &[Term], left: usize) -> Option<usize>
    ensures weight { Spends result (weight_of_terms (terms_of terms.now)) left }
    ensures lines { OnSome result (LinesFit (terms_of terms.now)) }
{
    let mut left = left;
    for term in terms {
        left = spend_form(&term.form, left)?;
    }
    Some(left)
}

fn spend_bodies(bodies: &[TermBody], left: usize) -> Option<usize>
    ensures weight { Spends result (weight_of_bodies (map silica_body_of bodies.now)) left }
    ensures lines { OnSome result (AllLinesFit (map silica_body_of bodies.now)) }
{
    let mut left = left;
    for body in bodies {
        left = spend_terms(body.terms.as_slice(), left)?;
    }
    Some(left)
}

// A program, counted on its class table.
fn spend_program(table: &Table, bodies: &[TermBody], left: usize) -> Option<usize>
    ensures weight { Spends result (size_of_table table.now + weight_of_bodies (map silica_body_of bodies.now)) left }
    ensures lines { OnSome result (AllLinesFit (map silica_body_of bodies.now)) }
{
    let left = spend_contracts(table.contracts(), left)?;
    let left = spend(8, left)?;
    spend_bodies(bodies, left)
}

/// Whether a program weighs no more than it may.
#[tactic(auto, using(crate::proofs::WeightLemmas::weight_counted))]
pub fn is_light(table: &Table, bodies: &[TermBody]) -> bool
    ensures light { result ≡ true → weight table.now (map silica_body_of bodies.now) ≤ most_weight }
    ensures heavy { result ≡ false → most_weight < weight table.now (map silica_body_of bodies.now) }
    ensures lines { result ≡ true → AllLinesFit (map silica_body_of bodies.now) }
{
    spend_program(table, bodies, MOST_WEIGHT).is_some()
}
