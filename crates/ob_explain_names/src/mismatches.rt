//! Values of another type than is needed.

use crate::hints::{NO_NULL, NULLS};
use crate::kinds::{name_of_contract, put_kind};
use crate::sites::Site;
use ob_base::{Items, Operator};
use ob_explain_page::{Explanation, Words, word_of};
use ob_resolve_scope::{
    called_transaction, constructed, kind_of, kind_of_subject, kind_of_variable,
};
use ob_resolve_spec::InferredKind;
use ob_tree::{
    CallNode, Expr, GivenNode, Member, NamePart, NamedNode, Stmt, Subject, span_of_expr,
};

/// What a place needs.
#[derive(Clone, Copy)]
enum Wanted {
    Kind(InferredKind),
    /// A reference, to whatever contract.
    Reference,
    /// An int, a bool or a string.
    Value,
    /// What the body returns.
    Result(InferredKind),
}

/// What a place needs, and the kind of what is there.
#[derive(Clone, Copy)]
struct Mismatch {
    wanted: Wanted,
    has: InferredKind,
}

/// The expression that stands directly in a statement, if it has one of its own. What a change of state gives stands in its fields.
pub fn expr_of(stmt: &Stmt) -> Option<&Expr> {
    match stmt {
        Stmt::Declare { value, .. } => Some(value),
        Stmt::Assign { value, .. } => Some(value),
        Stmt::Stage { value, .. } => Some(value),
        Stmt::Call { value, .. } => Some(value),
        Stmt::If { condition, .. } => Some(condition),
        Stmt::While { condition, .. } => Some(condition),
        Stmt::Return { value, .. } => value.as_ref(),
        Stmt::Revert { text, .. } => text.as_ref(),
        _ => None,
    }
}

// The kind of an operator's operands.
fn operand_kind(operator: Operator) -> InferredKind {
    match operator {
        Operator::Not | Operator::And | Operator::Or => InferredKind::Bool,
        Operator::Equal | Operator::NotEqual => InferredKind::Unknown,
        _ => InferredKind::Int,
    }
}

fn is_no_reference(kind: InferredKind) -> bool {
    !matches!(kind, InferredKind::Reference(_) | InferredKind::Unknown)
}

fn is_no_value(kind: InferredKind) -> bool {
    matches!(kind, InferredKind::Reference(_) | InferredKind::Nothing)
}

// A name that has to be a reference's.
fn of_reference(site: &Site<'_>, subject: &Subject) -> Option<Mismatch> {
    let has = kind_of_subject(&site.around, &site.scope, subject);
    if is_no_reference(has) {
        Some(Mismatch {
            wanted: Wanted::Reference,
            has,
        })
    } else {
        None
    }
}

// The same, if it stands at a place.
fn of_reference_at(site: &Site<'_>, subject: &Subject, place: u32) -> Option<Mismatch> {
    let at = match subject {
        Subject::This(span) => span.start,
        Subject::Name(NamePart { span, .. }) => span.start,
    };
    if at == place {
        of_reference(site, subject)
    } else {
        None
    }
}

// Whether a value of a kind isn't what is wanted.
fn differs(site: &Site<'_>, wanted: Wanted, has: InferredKind) -> bool {
    match wanted {
        Wanted::Kind(kind) => site.types().differs(kind, has),
        Wanted::Result(kind) => site.types().differs(kind, has),
        Wanted::Reference => is_no_reference(has),
        Wanted::Value => is_no_value(has),
    }
}

// What is wrong with an expression as a whole.
fn of_whole(site: &Site<'_>, expr: &Expr, wanted: Wanted, place: u32) -> Option<Mismatch> {
    if span_of_expr(expr).start != place {
        return None;
    }
    let has = kind_of(&site.around, &site.scope, expr);
    if differs(site, wanted, has) {
        Some(Mismatch { wanted, has })
    } else {
        None
    }
}

// The first of two.
fn or_else(first: Option<Mismatch>, second: Option<Mismatch>) -> Option<Mismatch> {
    if first.is_some() { first } else { second }
}

// The kinds of a call's parameters.
fn params_of_call<'a>(site: &Site<'a>, call: &CallNode) -> Option<&'a Items<InferredKind>> {
    let name = call.name.name.as_bytes();
    match called_transaction(&site.around, &site.scope, &call.receiver, name) {
        Some(heading) => Some(&heading.params),
        None => None,
    }
}

// Those of a constructor.
fn params_of_new<'a>(site: &Site<'a>, of: &NamedNode) -> Option<&'a Items<InferredKind>> {
    match constructed(site.around.declared(), of) {
        Some(members) => Some(&members.constructor),
        None => None,
    }
}

/// The kinds of the parameters of what an expression calls.
pub fn params_of_expr<'a>(site: &Site<'a>, expr: &Expr) -> Option<&'a Items<InferredKind>> {
    match expr {
        Expr::Call { call, .. } => params_of_call(site, call),
        Expr::New { of, .. } => params_of_new(site, of),
        _ => None,
    }
}

fn kind_at(params: Option<&Items<InferredKind>>, number: usize) -> InferredKind {
    match params {
        Some(params) => match params.get(number) {
            Some(kind) => *kind,
            None => InferredKind::Unknown,
        },
        None => InferredKind::Unknown,
    }
}

// What is wrong at a place in an expression of which this is wanted: a part of it is looked at before the whole.
#[cycle(mismatch_in)]
fn mismatch_in(expr: &Expr, wanted: Wanted, place: u32, site: &Site<'_>) -> Option<Mismatch> {
    let inside = mismatch_inside(expr, place, site);
    or_else(inside, of_whole(site, expr, wanted, place))
}

// What the left operand of an operator has to be, or the only one; and the right one.
fn wanted_left(operator: Operator) -> Wanted {
    match operator {
        Operator::Equal | Operator::NotEqual => Wanted::Value,
        _ => Wanted::Kind(operand_kind(operator)),
    }
}

fn wanted_right(operator: Operator, left: &Expr, site: &Site<'_>) -> Wanted {
    match operator {
        Operator::Equal | Operator::NotEqual => {
            Wanted::Kind(kind_of(&site.around, &site.scope, left))
        }
        _ => Wanted::Kind(operand_kind(operator)),
    }
}

// What is called on another thing than a reference.
fn of_receiver(site: &Site<'_>, call: &CallNode, place: u32) -> Option<Mismatch> {
    match &call.receiver {
        Some(receiver) => of_reference_at(site, receiver, place),
        None => None,
    }
}

// The same of its parts.
#[cycle(mismatch_in)]
fn mismatch_inside(expr: &Expr, place: u32, site: &Site<'_>) -> Option<Mismatch> {
    match expr {
        Expr::Unary {
            operator,
            operand,
            ..
        } => mismatch_in(operand.get(), wanted_left(*operator), place, site),
        Expr::Binary {
            operator,
            left,
            right,
            ..
        } => {
            let wanted = wanted_right(*operator, left.get(), site);
            let first = mismatch_in(left.get(), wanted_left(*operator), place, site);
            or_else(first, mismatch_in(right.get(), wanted, place, site))
        }
        Expr::Call { call, .. } => {
            let first = of_receiver(site, call, place);
            let params = params_of_call(site, call);
            or_else(
                first,
                mismatch_among(call.args.as_slice(), params, place, site),
            )
        }
        Expr::New { of, args, .. } => {
            mismatch_among(args.as_slice(), params_of_new(site, of), place, site)
        }
        _ => None,
    }
}

// The same of arguments.
#[cycle(mismatch_in)]
fn mismatch_among(
    args: &[Expr],
    params: Option<&Items<InferredKind>>,
    place: u32,
    site: &Site<'_>,
) -> Option<Mismatch> {
    let mut number: usize = 0;
    for arg in args {
        let wanted = Wanted::Kind(kind_at(params, number));
        let found = mismatch_in(arg, wanted, place, site);
        if found.is_some() {
            return found;
        }
        number = number.saturating_add(1);
    }
    None
}

// What is wrong in a value that is given.
fn in_given(site: &Site<'_>, given: &GivenNode, place: u32) -> Option<Mismatch> {
    let kind = site.around.kind_of_field(given.field.name.as_bytes());
    mismatch_in(&given.value, Wanted::Kind(kind), place, site)
}

fn among_given(site: &Site<'_>, given: &[GivenNode], place: u32) -> Option<Mismatch> {
    for one in given {
        let found = in_given(site, one, place);
        if found.is_some() {
            return found;
        }
    }
    None
}

// What a `return` gives.
fn returned(site: &Site<'_>, value: &Option<Expr>) -> Mismatch {
    let has = match value {
        Some(value) => kind_of(&site.around, &site.scope, value),
        None => InferredKind::Nothing,
    };
    Mismatch {
        wanted: Wanted::Result(site.around.result()),
        has,
    }
}

// What is wrong inside a `return`.
fn in_returned(site: &Site<'_>, value: &Option<Expr>, place: u32) -> Option<Mismatch> {
    match value {
        Some(value) => mismatch_in(value, Wanted::Kind(InferredKind::Unknown), place, site),
        None => None,
    }
}

// A name that is let go.
fn of_disowned(site: &Site<'_>, name: &NamePart) -> Mismatch {
    Mismatch {
        wanted: Wanted::Reference,
        has: kind_of_variable(&site.around, &site.scope, name.name.as_bytes()),
    }
}

// The kind that the expression of a statement has to have.
fn kind_wanted(site: &Site<'_>, stmt: &Stmt) -> InferredKind {
    match stmt {
        Stmt::Declare { of, .. } => site.types().kind_of_local(of),
        Stmt::Assign { name, .. } => {
            kind_of_variable(&site.around, &site.scope, name.name.as_bytes())
        }
        Stmt::Stage { field, .. } => site.around.kind_of_field(field.name.as_bytes()),
        Stmt::If { .. } | Stmt::While { .. } => InferredKind::Bool,
        Stmt::Revert { .. } => InferredKind::Text,
        _ => InferredKind::Unknown,
    }
}

// What is wrong in the expression of a statement.
fn in_expr(site: &Site<'_>, stmt: &Stmt, place: u32) -> Option<Mismatch> {
    match expr_of(stmt) {
        Some(expr) => mismatch_in(expr, Wanted::Kind(kind_wanted(site, stmt)), place, site),
        None => None,
    }
}

// What is wrong at a place in a statement.
fn in_statement(site: &Site<'_>, stmt: &Stmt, place: u32) -> Option<Mismatch> {
    match stmt {
        Stmt::Change { given, .. } => among_given(site, given.as_slice(), place),
        Stmt::Return { value, span } => {
            if span.start == place {
                Some(returned(site, value))
            } else {
                in_returned(site, value, place)
            }
        }
        Stmt::Test { subject, span, .. } => {
            if span.start == place {
                of_reference(site, subject)
            } else {
                None
            }
        }
        Stmt::Disown { name, .. } => Some(of_disowned(site, name)),
        Stmt::Assert { subject, .. } => of_reference_at(site, subject, place),
        _ => in_expr(site, stmt, place),
    }
}

// Puts what is wanted, in words.
fn put_wanted(words: &mut Words, site: &Site<'_>, wanted: Wanted) {
    match wanted {
        Wanted::Kind(kind) => put_kind(words, site.types(), kind),
        Wanted::Result(kind) => put_kind(words, site.types(), kind),
        Wanted::Reference => words.put("a reference"),
        Wanted::Value => words.put("an `int`, a `bool` or a `string`"),
    }
}

// How to mend it where a value of this kind is wanted.
fn help_with_kind(wanted: InferredKind, has: InferredKind) -> &'static str {
    match (wanted, has) {
        (InferredKind::Int, InferredKind::Text) => {
            "operators as `+` and `<` work on `int`s; strings can't be joined, and have `==` and `!=` alone."
        }
        (InferredKind::Text, InferredKind::Int) => {
            "a number isn't made a text: write the text between `\"`."
        }
        (InferredKind::Bool, InferredKind::Int) => "compare it, as in `n > 0`.",
        _ => "",
    }
}

// How to mend it where the body returns a value of this kind.
fn help_with_result(wanted: InferredKind, has: InferredKind) -> &'static str {
    match (wanted, has) {
        (InferredKind::Text, InferredKind::Int) => {
            "operators as `+` give an `int`; strings can't be joined."
        }
        _ => "",
    }
}

// How to mend it where a value that can be compared is wanted.
fn help_with_value(has: InferredKind) -> &'static str {
    match has {
        InferredKind::Reference(_) => {
            "`==` and `!=` compare values. Objects that belong together share a mark: see 'A mark, in the place of comparing references' in docs/GUIDE.md."
        }
        _ => "",
    }
}

// Whether the name at the place is compared with a reference to nothing.
fn is_compared_with_null(site: &Site<'_>) -> bool {
    ["==", "!="].contains(&site.near.ahead(1)) && NULLS.contains(&site.near.ahead(2))
}

fn is_nothing(kind: InferredKind) -> bool {
    matches!(kind, InferredKind::Nothing)
}

// How to mend it.
fn help_with(wanted: Wanted, has: InferredKind) -> &'static str {
    if is_nothing(has) {
        return "what is called returns nothing: it stands as a statement of its own.";
    }
    match wanted {
        Wanted::Kind(kind) => help_with_kind(kind, has),
        Wanted::Result(kind) => help_with_result(kind, has),
        Wanted::Value => help_with_value(has),
        Wanted::Reference => "",
    }
}

/// The name of the transaction around, or of the contract where it is a constructor.
pub fn name_around<'a>(site: &Site<'a>) -> &'a str {
    match site.member {
        Some(Member::Transaction { name, .. }) => word_of(name.name.as_bytes()),
        _ => site.own_name(),
    }
}

/// Puts which value a body has to return.
pub fn put_returns(words: &mut Words, site: &Site<'_>) {
    words.put_with("`{}` returns ", &[name_around(site)]);
    put_kind(words, site.types(), site.around.result());
}

// The word of a type of values; that of ints where the type is another one.
fn type_of_values(kind: InferredKind) -> &'static str {
    match kind {
        InferredKind::Bool => "bool",
        InferredKind::Text => "string",
        _ => "int",
    }
}

// How to return a value where there is no result.
fn put_result_help(words: &mut Words, site: &Site<'_>, has: InferredKind) {
    words.put("write the result's type after the parameters, as in `returns ");
    match has {
        InferredKind::Reference(contract) => {
            words.put_with("{}@Owned", &[name_of_contract(site.types(), contract)]);
        }
        kind => words.put(type_of_values(kind)),
    }
    words.put("`, or `return;` here.");
}

// A value that is returned where there is no result.
fn explain_resultless(told: &mut Explanation, site: &Site<'_>, has: InferredKind) {
    told.what
        .put_with("`{}` has no result, and ", &[name_around(site)]);
    put_kind(&mut told.what, site.types(), has);
    told.what.put(" is returned here");
    if matches!(site.member, Some(Member::Constructor { .. })) {
        told.help
            .put("a constructor returns nothing: write `return;`.");
    } else {
        put_result_help(&mut told.help, site, has);
    }
}

// A `return` without a value.
fn explain_valueless(told: &mut Explanation, site: &Site<'_>) {
    put_returns(&mut told.what, site);
    told.what.put(", and this `return` has no value");
    told.help.put("write the value after `return`.");
}

// Another value than the result.
fn explain_other_result(told: &mut Explanation, site: &Site<'_>, has: InferredKind) {
    put_returns(&mut told.what, site);
    told.what.put(", and ");
    put_kind(&mut told.what, site.types(), has);
    told.what.put(" is returned here");
    told.help
        .put(help_with(Wanted::Result(site.around.result()), has));
}

// What is wrong with a `return`.
fn explain_result(told: &mut Explanation, site: &Site<'_>, has: InferredKind) {
    if is_nothing(site.around.result()) {
        explain_resultless(told, site, has);
    } else if is_nothing(has) {
        explain_valueless(told, site);
    } else {
        explain_other_result(told, site, has);
    }
}

// What is wrong with a value.
fn explain_wanted(told: &mut Explanation, site: &Site<'_>, mismatch: Mismatch) {
    put_wanted(&mut told.what, site, mismatch.wanted);
    told.what.put(" is needed here, and this is ");
    put_kind(&mut told.what, site.types(), mismatch.has);
    told.help.put(if is_compared_with_null(site) {
        NO_NULL
    } else {
        help_with(mismatch.wanted, mismatch.has)
    });
}

fn explain_found(told: &mut Explanation, site: &Site<'_>, mismatch: Mismatch) {
    match mismatch.wanted {
        Wanted::Result(_) => explain_result(told, site, mismatch.has),
        _ => explain_wanted(told, site, mismatch),
    }
}

// A field that is listed with another type than its own.
fn explain_listed(told: &mut Explanation, name: &str) {
    told.what.put_with(
        "`{}` has another type than the field that is listed",
        &[name],
    );
    told.help.put("write the field's own type, with what is held of it here.");
}

/// A value of another type than is needed.
pub fn explain_mismatch(told: &mut Explanation, site: &Site<'_>, place: u32) {
    let found = match site.statement {
        Some(stmt) => in_statement(site, stmt, place),
        None => None,
    };
    match found {
        Some(mismatch) => explain_found(told, site, mismatch),
        None => explain_listed(told, site.near.word()),
    }
}
