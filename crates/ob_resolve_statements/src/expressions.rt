//! The faults of expressions.
ghost use Rattle.std.specs.Prelude.{◌≡◌, [], ◌∷◌, ◌++◌, length, option_map};
ghost use Rattle.std.specs.Option.{option_map_or};
ghost use Rattle.ob_tree.specs.NamesView.{named_of};
ghost use Rattle.ob_tree.specs.ExprsView.{expr_of, exprs_of, call_of};
ghost use Rattle.ob_resolve_spec.specs.Kinds.{contract_of_kind};
ghost use Rattle.ob_resolve_spec.specs.Scopes.{visible_at, called_transaction, constructed, kind_of_unary};
ghost use Rattle.ob_resolve_spec.specs.Visible.{an_object, a_public_transaction, visible_after_dot};
ghost use Rattle.ob_resolve_spec.specs.Declarations.{part_of_named};
ghost use Rattle.ob_resolve_spec.specs.Sites.{names_thing, passes_arguments};
ghost use Rattle.ob_resolve_spec.specs.ExpressionSites.{needs, operand_sites, reference_sites, callee_sites, count_args, needed_args, passing_sites, expr_sites, call_sites, args_sites, value_sites};
ghost use Rattle.ob_resolve_scope.specs.Types.{program_of};
ghost use Rattle.ob_resolve_scope.specs.Around.{around_of};
ghost use Rattle.ob_resolve_sites.specs.Noted.{noted_at, noted};

use ob_base::{Operator, Span};
use ob_resolve_scope::{
    AroundBody, Scope, called_transaction, constructed, kind_of, kind_of_variable,
};
use ob_resolve_sites::{
    Least, note_count, note_kind, note_object, note_public_transaction, note_reference,
    note_transaction, note_value, note_variable,
};
use ob_resolve_spec::InferredKind;
use ob_tree::{CallNode, Expr, NamePart, NamedNode, Subject, span_of_expr};

// A value of this kind is needed of an expression.
fn note_needed(
    wanted: InferredKind,
    expr: &Expr,
    around: &AroundBody<'_>,
    scope: &Scope,
    least: &mut Least,
)
    ensures { least.new ≡ noted_at least.old (needs (around_of around.now) scope.now wanted (expr_of expr.now)) }
{
    let has = kind_of(around, scope, expr);
    note_kind(least, around, wanted, has, span_of_expr(expr));
}

fn walk_operands(
    operator: Operator,
    left: &Expr,
    right: &Expr,
    around: &AroundBody<'_>,
    scope: &Scope,
    least: &mut Least,
)
    ensures { least.new ≡ noted least.old
        (operand_sites (around_of around.now) scope.now operator (expr_of left.now) (expr_of right.now)) }
{
    match operator {
        Operator::And | Operator::Or => {
            note_needed(InferredKind::Bool, left, around, scope, least);
            note_needed(InferredKind::Bool, right, around, scope, least);
        }
        Operator::Equal | Operator::NotEqual => {
            let kind = kind_of(around, scope, left);
            note_value(least, kind, span_of_expr(left));
            note_value(least, kind_of(around, scope, right), span_of_expr(right));
            note_needed(kind, right, around, scope, least);
        }
        _ => {
            note_needed(InferredKind::Int, left, around, scope, least);
            note_needed(InferredKind::Int, right, around, scope, least);
        }
    }
}

fn kind_of_unary(operator: Operator) -> InferredKind
    ensures { result ≡ kind_of_unary operator }
{
    match operator {
        Operator::Not => InferredKind::Bool,
        _ => InferredKind::Int,
    }
}

/// A name that is used as a reference.
pub fn walk_reference(
    name: &NamePart,
    span: Span,
    around: &AroundBody<'_>,
    scope: &Scope,
    least: &mut Least,
)
    ensures { least.new ≡ noted least.old (reference_sites (around_of around.now) scope.now name.now span) }
{
    note_variable(least, around, scope, name);
    let kind = kind_of_variable(around, scope, name.name.as_bytes());
    note_reference(least, kind, span);
}

// A transaction after the dot of a receiver of this kind.
#[tactic(auto, using(crate::proofs::WalkLemmas::walks))]
fn walk_public(kind: InferredKind, name: &NamePart, around: &AroundBody<'_>, least: &mut Least)
    ensures { let c = contract_of_kind (program_of around.now.program) kind in
        least.new ≡ noted least.old
        (option_map_or (λ c. names_thing a_public_transaction (visible_after_dot c) name.now ∷ []) c []) }
{
    if let InferredKind::Reference(contract) = kind {
        note_public_transaction(least, around.declared(), contract, name);
    }
}

#[tactic(auto, using(crate::proofs::WalkLemmas::walks))]
fn walk_callee(
    receiver: &Option<Subject>,
    name: &NamePart,
    around: &AroundBody<'_>,
    scope: &Scope,
    least: &mut Least,
)
    ensures { least.new ≡ noted least.old (callee_sites (around_of around.now) scope.now receiver.now name.now) }
{
    match receiver {
        None | Some(Subject::This(_)) => note_transaction(least, around, scope, name),
        Some(Subject::Name(of)) => {
            walk_reference(of, of.span, around, scope, least);
            let kind = kind_of_variable(around, scope, of.name.as_bytes());
            walk_public(kind, name, around, least);
        }
    }
}

// The arguments at so many parameters of these kinds.
#[tactic(auto, using(ob_tree::specs::MembersView::views, crate::proofs::WalkLemmas::walks))]
fn walk_needed(
    args: &[Expr],
    kinds: &[InferredKind],
    around: &AroundBody<'_>,
    scope: &Scope,
    least: &mut Least,
)
    ensures { least.new ≡ noted least.old (needed_args (around_of around.now) scope.now kinds.now (exprs_of args.now)) }
{
    for (kind, arg) in kinds.iter().zip(args) {
        note_needed(*kind, arg, around, scope, least);
    }
}

// The arguments at the parameters of what is called, which stands at this place.
#[tactic(auto, using(ob_tree::specs::MembersView::views, crate::proofs::WalkLemmas::walks))]
fn walk_passed(
    args: &[Expr],
    kinds: &[InferredKind],
    span: Span,
    around: &AroundBody<'_>,
    scope: &Scope,
    least: &mut Least,
)
    ensures { least.new ≡ noted least.old
        (passes_arguments (count_args (exprs_of args.now)) (length kinds.now) span
        ∷ needed_args (around_of around.now) scope.now kinds.now (exprs_of args.now)) }
{
    note_count(least, args.len(), kinds.len(), span);
    walk_needed(args, kinds, around, scope, least);
}

// What is asked of a call beside its arguments.
#[tactic(auto, using(ob_tree::specs::MembersView::views, crate::proofs::WalkLemmas::walks))]
fn walk_called(call: &CallNode, around: &AroundBody<'_>, scope: &Scope, least: &mut Least)
    ensures { let a = around_of around.now in let s = scope.now in let c = call.now in
        least.new ≡ noted least.old (callee_sites a s c.receiver c.name
        ++ passing_sites a s c.name.span (option_map (λ t. t.params) (called_transaction a s c.receiver c.name.name))
        (exprs_of c.args)) }
{
    let name = &call.name;
    walk_callee(&call.receiver, name, around, scope, least);
    if let Some(heading) = called_transaction(around, scope, &call.receiver, name.name.as_bytes()) {
        let kinds = heading.params.as_slice();
        walk_passed(call.args.as_slice(), kinds, name.span, around, scope, least);
    }
}

// What is asked of `new` beside its arguments.
#[tactic(auto, using(ob_tree::specs::MembersView::views, crate::proofs::WalkLemmas::walks))]
fn walk_constructed(
    of: &NamedNode,
    args: &[Expr],
    around: &AroundBody<'_>,
    scope: &Scope,
    least: &mut Least,
)
    ensures { let a = around_of around.now in let s = scope.now in let name = part_of_named (named_of of.now) in
        least.new ≡ noted least.old (names_thing an_object (visible_at a s) name
        ∷ passing_sites a s name.span (option_map (λ m. m.params) (constructed a.program (named_of of.now)))
        (exprs_of args.now)) }
{
    note_object(least, around, scope, of);
    if let Some(members) = constructed(around.declared(), of) {
        let kinds = members.constructor.as_slice();
        walk_passed(args, kinds, of.span, around, scope, least);
    }
}

/// An expression.
#[cycle(walk)]
#[tactic(auto, using(ob_tree::specs::MembersView::views, crate::proofs::WalkLemmas::walks))]
pub fn walk_expr(expr: &Expr, around: &AroundBody<'_>, scope: &Scope, least: &mut Least)
    ensures { least.new ≡ noted least.old (expr_sites (around_of around.now) scope.now (expr_of expr.now)) }
{
    match expr {
        Expr::Number { .. } | Expr::Text { .. } | Expr::Bool { .. } | Expr::This { .. } => {}
        Expr::Name { name, .. } => note_variable(least, around, scope, name),
        Expr::Unary {
            operator,
            operand,
            ..
        } => {
            let operand = operand.get();
            note_needed(kind_of_unary(*operator), operand, around, scope, least);
            walk_expr(operand, around, scope, least);
        }
        Expr::Binary {
            operator,
            left,
            right,
            ..
        } => {
            let left = left.get();
            let right = right.get();
            walk_operands(*operator, left, right, around, scope, least);
            walk_expr(left, around, scope, least);
            walk_expr(right, around, scope, least);
        }
        Expr::Call { call, .. } => walk_call(call, around, scope, least),
        Expr::New { of, args, .. } => {
            let args = args.as_slice();
            walk_constructed(of, args, around, scope, least);
            walk_args(args, around, scope, least);
        }
    }
}

#[cycle(walk)]
#[tactic(auto, using(ob_tree::specs::MembersView::views, crate::proofs::WalkLemmas::walks))]
fn walk_call(call: &CallNode, around: &AroundBody<'_>, scope: &Scope, least: &mut Least)
    ensures { least.new ≡ noted least.old (call_sites (around_of around.now) scope.now (call_of call.now)) }
{
    walk_called(call, around, scope, least);
    walk_args(call.args.as_slice(), around, scope, least);
}

#[cycle(walk)]
#[tactic(auto, using(ob_tree::specs::MembersView::views, crate::proofs::WalkLemmas::walks))]
fn walk_args(args: &[Expr], around: &AroundBody<'_>, scope: &Scope, least: &mut Least)
    ensures { least.new ≡ noted least.old (args_sites (around_of around.now) scope.now (exprs_of args.now)) }
{
    for arg in args {
        walk_expr(arg, around, scope, least);
    }
}

/// An expression where a value of this kind is needed.
#[tactic(auto, using(ob_tree::specs::MembersView::views, crate::proofs::WalkLemmas::walks))]
pub fn walk_value(
    wanted: InferredKind,
    expr: &Expr,
    around: &AroundBody<'_>,
    scope: &Scope,
    least: &mut Least,
)
    ensures { least.new ≡ noted least.old (value_sites (around_of around.now) scope.now wanted (expr_of expr.now)) }
{
    note_needed(wanted, expr, around, scope, least);
    walk_expr(expr, around, scope, least);
}
