//! What names and expressions denote in a body.
ghost use Rattle.std.specs.Prelude.{◌≡◌, option_map, option_and_then};
ghost use Rattle.std.specs.Option.{option_copied, option_map_or};
ghost use Rattle.ob_tree.specs.NamesView.{named_of};
ghost use Rattle.ob_tree.specs.ExprsView.{expr_of};
ghost use Rattle.ob_resolve_spec.specs.Declarations.{part_of_named, declared_contract};
ghost use Rattle.ob_resolve_spec.specs.Kinds.{contract_of_kind, kind_of_name, kind_of_result, kinds_of_params};
ghost use Rattle.ob_resolve_spec.specs.declared.kind.InferredKind.TheVariants.{Unknown};
ghost use Rattle.ob_resolve_spec.specs.Scopes.{kind_of_this, kind_of_variable, kind_of_subject, public_transaction, called_transaction, constructed, kind_of_unary, kind_of_binary, kind_of};
ghost use Rattle.ob_resolve_spec.specs.Bodies.{kind_of_receiver};
ghost use Rattle.ob_resolve_scope.specs.Types.{program_of};
ghost use Rattle.ob_resolve_scope.specs.Around.{around_of};
ghost use Rattle.ob_resolve_scope.specs.Members.{members_of, heading_of, object_at};

use crate::around::AroundBody;
use crate::declared::Declared;
use crate::members::{Heading, Members};
use crate::scope::Scope;
use ob_base::Operator;
use ob_resolve_spec::InferredKind;
use ob_tree::{CallNode, Expr, NamedNode, Subject};

/// The kind of `this`.
pub fn kind_of_this(around: &AroundBody<'_>) -> InferredKind
    ensures { result ≡ kind_of_this (around_of around.now) }
{
    around
        .declared()
        .types()
        .kind_of_name(around.node().name.as_bytes())
}

/// The kind of a variable or a field.
pub fn kind_of_variable(around: &AroundBody<'_>, scope: &Scope, name: &[u8]) -> InferredKind
    ensures { result ≡ kind_of_variable (around_of around.now) scope.now name.now }
{
    match scope.variable(name) {
        Some(variable) => variable.of,
        None => around.kind_of_field(name),
    }
}

/// The kind of `this`, or of a name.
pub fn kind_of_subject(around: &AroundBody<'_>, scope: &Scope, subject: &Subject) -> InferredKind
    ensures { result ≡ kind_of_subject (around_of around.now) scope.now subject.now }
{
    match subject {
        Subject::This(_) => kind_of_this(around),
        Subject::Name(name) => kind_of_variable(around, scope, name.name.as_bytes()),
    }
}

/// The kind of what is called.
pub fn kind_of_receiver(
    around: &AroundBody<'_>,
    scope: &Scope,
    receiver: &Option<Subject>,
) -> InferredKind
    ensures { result ≡ kind_of_receiver (around_of around.now) scope.now receiver.now }
{
    match receiver {
        None => kind_of_this(around),
        Some(subject) => kind_of_subject(around, scope, subject),
    }
}

// The first transaction of this name of a contract, unless it is private.
fn public_heading<'a>(
    declared: &'a Declared<'a>,
    contract: usize,
    name: &[u8],
) -> Option<&'a Heading>
    ensures { option_copied result ≡ option_map (heading_of (program_of declared.now))
        (option_and_then (public_transaction name.now) (declared_contract (program_of declared.now) contract)) }
{
    match declared.heading(contract, name) {
        Some(heading) => { if heading.private { None } else { Some(heading) } }
        None => None,
    }
}

// The transaction of this name that is called on a value of this kind.
fn called_on<'a>(declared: &'a Declared<'a>, kind: InferredKind, name: &[u8]) -> Option<&'a Heading>
    ensures { option_copied result ≡ option_map (heading_of (program_of declared.now))
        (option_and_then (public_transaction name.now) (contract_of_kind (program_of declared.now) kind)) }
{
    match kind {
        InferredKind::Reference(contract) => public_heading(declared, contract, name),
        _ => None,
    }
}

/// The transaction that is called: of the contract itself, or of a receiver's.
pub fn called_transaction<'a>(
    around: &AroundBody<'a>,
    scope: &Scope,
    receiver: &Option<Subject>,
    name: &[u8],
) -> Option<&'a Heading>
    ensures { option_copied result ≡ option_map (heading_of (program_of around.now.program))
        (called_transaction (around_of around.now) scope.now receiver.now name.now) }
{
    match receiver {
        None => around.heading(name),
        Some(Subject::This(_)) => around.heading(name),
        Some(Subject::Name(receiver)) => {
            let kind = kind_of_variable(around, scope, receiver.name.as_bytes());
            called_on(around.declared(), kind, name)
        }
    }
}

// What the contract of this number declares, if it isn't an interface.
fn constructed_at<'a>(declared: &'a Declared<'a>, contract: Option<usize>) -> Option<&'a Members>
    ensures { option_copied result ≡ option_map (members_of (program_of declared.now))
        (object_at (program_of declared.now) contract) }
{
    match contract {
        None => None,
        Some(contract) => {
            if declared.types().is_interface(contract) {
                None
            } else {
                declared.members(contract)
            }
        }
    }
}

/// What the contract after `new` declares: the kinds of its constructor's parameters are among it.
pub fn constructed<'a>(declared: &'a Declared<'a>, of: &NamedNode) -> Option<&'a Members>
    ensures { option_map (λ m. m.constructor) (option_copied result)
        ≡ option_map (λ m. kinds_of_params (program_of declared.now) m.params)
        (constructed (program_of declared.now) (named_of of.now)) }
{
    constructed_at(declared, declared.types().find(of.name.as_bytes()))
}

fn kind_of_call(around: &AroundBody<'_>, scope: &Scope, call: &CallNode) -> InferredKind
    ensures { result ≡ option_map_or (λ t. kind_of_result (program_of around.now.program) t.result)
        (called_transaction (around_of around.now) scope.now call.now.receiver call.now.name.name) Unknown }
{
    match called_transaction(around, scope, &call.receiver, call.name.name.as_bytes()) {
        Some(heading) => heading.result,
        None => InferredKind::Unknown,
    }
}

fn kind_of_new(around: &AroundBody<'_>, of: &NamedNode) -> InferredKind
    ensures { result ≡ option_map_or (λ constructor. kind_of_name (program_of around.now.program)
        (part_of_named (named_of of.now)).name) (constructed (program_of around.now.program)
        (named_of of.now)) Unknown }
{
    match constructed(around.declared(), of) {
        Some(_) => around.declared().types().kind_of_name(of.name.as_bytes()),
        None => InferredKind::Unknown,
    }
}

// What an operator with one operand gives.
fn kind_of_unary(operator: Operator) -> InferredKind
    ensures { result ≡ kind_of_unary operator }
{
    match operator {
        Operator::Not => InferredKind::Bool,
        _ => InferredKind::Int,
    }
}

// What an operator with two operands gives.
fn kind_of_binary(operator: Operator) -> InferredKind
    ensures { result ≡ kind_of_binary operator }
{
    match operator {
        Operator::Add | Operator::Sub | Operator::Mul | Operator::Div | Operator::Rem =>
            InferredKind::Int,
        _ => InferredKind::Bool,
    }
}

/// The kind of an expression's value.
#[tactic(auto, using(ob_tree::specs::MembersView::views))]
pub fn kind_of(around: &AroundBody<'_>, scope: &Scope, expr: &Expr) -> InferredKind
    ensures { result ≡ kind_of (around_of around.now) scope.now (expr_of expr.now) }
{
    match expr {
        Expr::Number { .. } => InferredKind::Int,
        Expr::Text { .. } => InferredKind::Text,
        Expr::Bool { .. } => InferredKind::Bool,
        Expr::Name { name, .. } => kind_of_variable(around, scope, name.name.as_bytes()),
        Expr::This { .. } => kind_of_this(around),
        Expr::Unary { operator, .. } => kind_of_unary(*operator),
        Expr::Binary { operator, .. } => kind_of_binary(*operator),
        Expr::Call { call, .. } => kind_of_call(around, scope, call),
        Expr::New { of, .. } => kind_of_new(around, of),
    }
}
