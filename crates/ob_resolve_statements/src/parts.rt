//! The faults of the parts of statements that have no statements in them.
ghost use Rattle.std.specs.Prelude.{◌≡◌, [], ◌∷◌, ◌++◌, map, option_map, OnOk};
ghost use Rattle.std.specs.Option.{option_map_or};
ghost use Rattle.ob_tree.specs.ExprsView.{expr_of};
ghost use Rattle.ob_tree.specs.StmtsView.{local_of, stmt_of};
ghost use Rattle.ob_resolve_spec.specs.Declarations.{field_names};
ghost use Rattle.ob_resolve_spec.specs.Kinds.{kind_of_local};
ghost use Rattle.ob_resolve_spec.specs.Visible.{a_variable};
ghost use Rattle.ob_resolve_spec.specs.Scopes.{with_local, visible_at, variable_named, kind_of_subject};
ghost use Rattle.ob_resolve_spec.specs.Sites.{names_thing, names_state, declares_name, assigns_variable};
ghost use Rattle.ob_resolve_spec.specs.TypeSites.{perm_sites, local_sites};
ghost use Rattle.ob_resolve_spec.specs.ExpressionSites.{value_sites};
ghost use Rattle.ob_resolve_spec.specs.StatementSites.{span_of_stmt, span_of_subject, on_contract, subject_sites, kind_of_target, returned_sites};
ghost use Rattle.ob_resolve_scope.specs.Types.{program_of};
ghost use Rattle.ob_resolve_scope.specs.Around.{around_of};
ghost use Rattle.ob_resolve_sites.specs.Noted.{noted};
ghost use Rattle.ob_resolve_statements.specs.Walked.{row_kept};

use crate::expressions::{walk_expr, walk_reference, walk_value};
use ob_base::{Memory, Span};
use ob_resolve_scope::{AroundBody, Names, Scope, kind_of, kind_of_subject};
use ob_resolve_sites::{
    Least, note_assigned, note_contract, note_local, note_perm, note_return, note_state,
    note_variable,
};
use ob_resolve_spec::InferredKind;
use ob_tree::{Expr, LocalType, NamePart, PermNode, Stmt, Subject};
use std::alloc::Global;

fn walk_subject(
    subject: &Subject,
    span: Span,
    around: &AroundBody<'_>,
    scope: &Scope,
    least: &mut Least,
)
    ensures { least.new ≡ noted least.old (subject_sites (around_of around.now) scope.now subject.now span) }
{
    match subject {
        Subject::This(_) => {}
        Subject::Name(name) => walk_reference(name, span, around, scope, least),
    }
}

fn span_of_subject(subject: &Subject) -> Span
    ensures { result ≡ span_of_subject subject.now }
{
    match subject {
        Subject::This(span) => *span,
        Subject::Name(name) => name.span,
    }
}

/// What a test asks before its branches.
#[tactic(auto, using(crate::proofs::WalkLemmas::walks))]
pub fn walk_tested(
    subject: &Subject,
    state: &NamePart,
    span: Span,
    around: &AroundBody<'_>,
    scope: &Scope,
    least: &mut Least,
)
    ensures { let a = around_of around.now in let s = scope.now in
        least.new ≡ noted least.old (subject_sites a s subject.now span
        ++ on_contract a (kind_of_subject a s subject.now) (λ c. names_state c state.now ∷ [])) }
{
    walk_subject(subject, span, around, scope, least);
    if let InferredKind::Reference(contract) = kind_of_subject(around, scope, subject) {
        note_state(least, around.declared().types(), contract, state);
    }
}

/// An assertion: its subject, and the permission that it names.
#[tactic(auto, using(crate::proofs::WalkLemmas::walks))]
pub fn walk_assert(
    subject: &Subject,
    perm: &PermNode,
    around: &AroundBody<'_>,
    scope: &Scope,
    least: &mut Least,
)
    ensures { let a = around_of around.now in let s = scope.now in
        least.new ≡ noted least.old (subject_sites a s subject.now (span_of_subject subject.now)
        ++ on_contract a (kind_of_subject a s subject.now) (λ c. perm_sites c perm.now)) }
{
    walk_subject(subject, span_of_subject(subject), around, scope, least);
    if let InferredKind::Reference(contract) = kind_of_subject(around, scope, subject) {
        note_perm(least, around.declared().types(), contract, perm);
    }
}

fn walk_local_type(of: &LocalType, around: &AroundBody<'_>, scope: &Scope, least: &mut Least)
    ensures { least.new ≡ noted least.old
        (local_sites (visible_at (around_of around.now) scope.now) (local_of of.now)) }
{
    match of {
        LocalType::Int(_) | LocalType::Bool(_) | LocalType::Text(_) => {}
        LocalType::Named(of) => note_contract(least, around, scope, of),
    }
}

/// A local gets its type, its name and its value, and is visible from here on.
#[tactic(auto, using(ob_tree::specs::MembersView::views, crate::proofs::WalkLemmas::walks))]
pub fn walk_declare(
    of: &LocalType,
    name: &NamePart,
    value: &Expr,
    around: &AroundBody<'_>,
    alloc: Global,
    scope: &mut Scope,
    least: &mut Least,
) -> Result<(), Memory>
    ensures sites { let a = around_of around.now in let s = scope.old in
        OnOk result (least.new ≡ noted least.old (local_sites (visible_at a s) (local_of of.now)
        ++ declares_name (map (λ v. v.name) s.variables ++ field_names a.own) name.now
        ∷ value_sites a s (kind_of_local a.program (local_of of.now)) (expr_of value.now))) }
    ensures scope { let kind = kind_of_local (program_of around.now.program) (local_of of.now) in
        OnOk result (scope.new ≡ with_local scope.old name.now.name kind) }
{
    walk_local_type(of, around, scope, least);
    note_local(least, around, scope, name);
    let kind = around.declared().types().kind_of_local(of);
    walk_value(kind, value, around, scope, least);
    scope.add_local(alloc, &name.name, kind)
}

// The kind that is needed of what is assigned to a name; a parameter has a fault of its own.
#[tactic(auto, using(crate::proofs::WalkLemmas::walks))]
fn kind_of_target(around: &AroundBody<'_>, scope: &Scope, name: &[u8]) -> InferredKind
    ensures { result ≡ kind_of_target (around_of around.now) scope.now name.now }
{
    match scope.variable(name) {
        None => around.kind_of_field(name),
        Some(variable) => {
            if variable.is_param {
                InferredKind::Unknown
            } else {
                variable.of
            }
        }
    }
}

/// An assignment: its name, and a value of the kind that is needed there.
#[tactic(auto, using(ob_tree::specs::MembersView::views, crate::proofs::WalkLemmas::walks))]
pub fn walk_assign(
    name: &NamePart,
    value: &Expr,
    around: &AroundBody<'_>,
    scope: &Scope,
    least: &mut Least,
)
    ensures { let a = around_of around.now in let s = scope.now in
        least.new ≡ noted least.old (names_thing a_variable (visible_at a s) name.now
        ∷ assigns_variable (variable_named s name.now.name) name.now.span
        ∷ value_sites a s (kind_of_target a s name.now.name) (expr_of value.now)) }
{
    let bytes = name.name.as_bytes();
    note_variable(least, around, scope, name);
    note_assigned(least, scope.variable(bytes), name.span);
    walk_value(
        kind_of_target(around, scope, bytes),
        value,
        around,
        scope,
        least,
    );
}

/// A return, with its value or without one.
#[tactic(auto, using(ob_tree::specs::MembersView::views, crate::proofs::WalkLemmas::walks))]
pub fn walk_return(
    value: &Option<Expr>,
    span: Span,
    around: &AroundBody<'_>,
    scope: &Scope,
    least: &mut Least,
)
    ensures { least.new ≡ noted least.old
        (returned_sites (around_of around.now) scope.now (option_map expr_of value.now) span) }
{
    match value {
        None => note_return(least, around, None, span),
        Some(value) => {
            note_return(least, around, Some(kind_of(around, scope, value)), span);
            walk_expr(value, around, scope, least);
        }
    }
}

/// A revert: its text, where there is one.
#[tactic(auto, using(ob_tree::specs::MembersView::views, crate::proofs::WalkLemmas::walks))]
pub fn walk_revert(text: &Option<Expr>, around: &AroundBody<'_>, scope: &Scope, least: &mut Least)
    ensures { least.new ≡ noted least.old
        (option_map_or (value_sites (around_of around.now) scope.now InferredKind.Text) (option_map expr_of text.now) []) }
{
    match text {
        None => {}
        Some(text) => walk_value(InferredKind::Text, text, around, scope, least),
    }
}

/// Where a statement stands.
#[tactic(auto, using(ob_tree::specs::MembersView::views))]
pub fn span_of_stmt(statement: &Stmt) -> Span
    ensures { result ≡ span_of_stmt (stmt_of statement.now) }
{
    match statement {
        Stmt::Declare { span, .. } => *span,
        Stmt::Assign { span, .. } => *span,
        Stmt::Stage { span, .. } => *span,
        Stmt::Change { span, .. } => *span,
        Stmt::Call { span, .. } => *span,
        Stmt::Test { span, .. } => *span,
        Stmt::If { span, .. } => *span,
        Stmt::While { span, .. } => *span,
        Stmt::Return { span, .. } => *span,
        Stmt::Revert { span, .. } => *span,
        Stmt::Disown { span, .. } => *span,
        Stmt::Assert { span, .. } => *span,
    }
}

/// A row goes on after a staged statement alone.
#[tactic(auto, using(ob_tree::specs::MembersView::views))]
pub fn leave_row(statement: &Stmt, alloc: Global, row: &mut Names)
    ensures { row.new ≡ row_kept row.old (stmt_of statement.now) }
{
    match statement {
        Stmt::Stage { .. } => {}
        _ => *row = Names::new(alloc),
    }
}
