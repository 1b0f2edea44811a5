//! Values: their kinds, how many arguments there are, what is returned, assigned and reached.
ghost use Rattle.std.specs.Prelude.{◌≡◌};
ghost use Rattle.std.specs.Option.{option_copied};
ghost use Rattle.ob_resolve_spec.specs.Sites.{has_kind, needs_reference, needs_plain_value, returns_from_body, passes_arguments, closes_body, follows_statement, assigns_variable};
ghost use Rattle.ob_resolve_spec.specs.Kinds.{is_no_reference, is_no_value};
ghost use Rattle.ob_resolve_spec.specs.Faults.{returns_other};
ghost use Rattle.ob_resolve_scope.specs.Types.{program_of};
ghost use Rattle.ob_resolve_sites.specs.Noted.{noted_at};

use crate::least::{Least, note_if};
use ob_base::{ARG_COUNT, ASSIGN_PARAMETER, MISSING_RETURN, Span, TYPE_MISMATCH, UNREACHABLE};
use ob_resolve_scope::AroundBody;
use ob_resolve_spec::{InferredKind, ScopeVariable};

/// A value of the first kind is needed, and one of the second is there.
pub fn note_kind(
    least: &mut Least,
    around: &AroundBody<'_>,
    wanted: InferredKind,
    has: InferredKind,
    span: Span,
)
    ensures { least.new ≡ noted_at least.old (has_kind (program_of around.now.program) wanted has span) }
{
    let differs = around.declared().types().differs(wanted, has);
    note_if(least, differs, TYPE_MISMATCH, span);
}

fn is_no_reference(kind: InferredKind) -> bool
    ensures { result ≡ is_no_reference kind }
{
    match kind {
        InferredKind::Reference(_) | InferredKind::Unknown => false,
        InferredKind::Int | InferredKind::Bool | InferredKind::Text | InferredKind::Nothing => true,
    }
}

/// A reference is needed, and a value of this kind is there.
pub fn note_reference(least: &mut Least, kind: InferredKind, span: Span)
    ensures { least.new ≡ noted_at least.old (needs_reference kind span) }
{
    note_if(least, is_no_reference(kind), TYPE_MISMATCH, span);
}

fn is_no_value(kind: InferredKind) -> bool
    ensures { result ≡ is_no_value kind }
{
    match kind {
        InferredKind::Reference(_) | InferredKind::Nothing => true,
        InferredKind::Int | InferredKind::Bool | InferredKind::Text | InferredKind::Unknown =>
            false,
    }
}

/// An int, a bool or a string is needed, and a value of this kind is there.
pub fn note_value(least: &mut Least, kind: InferredKind, span: Span)
    ensures { least.new ≡ noted_at least.old (needs_plain_value kind span) }
{
    note_if(least, is_no_value(kind), TYPE_MISMATCH, span);
}

fn returns_other(around: &AroundBody<'_>, wanted: InferredKind, value: Option<InferredKind>) -> bool
    ensures { result ≡ returns_other (program_of around.now.program) wanted value }
{
    match (wanted, value) {
        (InferredKind::Nothing, value) => value.is_some(),
        (_, None) => true,
        (wanted, Some(kind)) => around.declared().types().differs(wanted, kind),
    }
}

/// A body returns a value of this kind, or none.
pub fn note_return(
    least: &mut Least,
    around: &AroundBody<'_>,
    value: Option<InferredKind>,
    span: Span,
)
    ensures { least.new ≡ noted_at least.old (returns_from_body (program_of around.now.program) around.now.result value span) }
{
    note_if(
        least,
        returns_other(around, around.result(), value),
        TYPE_MISMATCH,
        span,
    );
}

/// So many arguments stand where there are so many parameters.
pub fn note_count(least: &mut Least, args: usize, params: usize, span: Span)
    ensures { least.new ≡ noted_at least.old (passes_arguments args params span) }
{
    note_if(least, args != params, ARG_COUNT, span);
}

/// The variable of the assigned name, if there is one.
pub fn note_assigned(least: &mut Least, variable: Option<&ScopeVariable>, span: Span)
    ensures { least.new ≡ noted_at least.old (assigns_variable (option_copied variable.entry) span) }
{
    if let Some(variable) = variable {
        note_if(least, variable.is_param, ASSIGN_PARAMETER, span);
    }
}

/// A statement; whether one before it in its block ends there.
pub fn note_reached(least: &mut Least, ended: bool, span: Span)
    ensures { least.new ≡ noted_at least.old (follows_statement ended span) }
{
    note_if(least, ended, UNREACHABLE, span);
}

/// The closing brace of a body with a result of this kind, or without one; whether its end isn't reached.
pub fn note_end(least: &mut Least, result_kind: InferredKind, ended: bool, span: Span)
    ensures { least.new ≡ noted_at least.old (closes_body result_kind ended span) }
{
    match result_kind {
        InferredKind::Nothing => {}
        _ => note_if(least, !ended, MISSING_RETURN, span),
    }
}
