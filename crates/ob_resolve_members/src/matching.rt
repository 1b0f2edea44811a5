//! Whether types, parameters and results are the same.
ghost use Rattle.std.specs.Prelude.{◌≡◌, ◌∷◌, ◌++◌, [], true, false, List, map, drop, option_map, IfOk, MatchOption};
ghost use Rattle.std.specs.Option.{option_copied, option_map_or};
ghost use Rattle.std.specs.Cmp.Lexicographic.{pointwise};
ghost use Rattle.ob_tree.specs.NamesView.{type_of};
ghost use Rattle.ob_tree.specs.MembersView.{formal_of, contract_of};
ghost use Rattle.ob_tree.specs.declared.name.NamePart.{NamePart};
ghost use Rattle.ob_resolve_spec.specs.Declarations.{Param, param_named, params_of};
ghost use Rattle.ob_resolve_spec.specs.Permissions.{written_permission, agree_if_known};
ghost use Rattle.ob_resolve_spec.specs.Kinds.{same_kind};
ghost use Rattle.ob_resolve_spec.specs.Interfaces.{same_type, exit_in, same_param, same_result};
ghost use Rattle.ob_resolve_scope.specs.Types.{program_of};
ghost use Rattle.ob_resolve_members.specs.Written.{written_in};
ghost use Rattle.ob_resolve_members.specs.Same.{both_refer, param_of, params_from};

use crate::held::known_exit;
use crate::permissions::agree_if_known;
use ob_base::Memory;
use ob_resolve_scope::{AroundBody, Declared};
use ob_resolve_spec::InferredKind;
use ob_tree::{FormalNode, PermNode, Subject, TypeNode};
use std::alloc::Global;

fn same_kind(one: InferredKind, other: InferredKind) -> bool
    ensures { result ≡ same_kind one other }
{
    match (one, other) {
        (InferredKind::Unknown, _) => true,
        (_, InferredKind::Unknown) => true,
        (InferredKind::Int, InferredKind::Int) => true,
        (InferredKind::Bool, InferredKind::Bool) => true,
        (InferredKind::Text, InferredKind::Text) => true,
        (InferredKind::Nothing, InferredKind::Nothing) => true,
        (InferredKind::Reference(one), InferredKind::Reference(other)) => one == other,
        _ => false,
    }
}

// The contract to which references of the first kind refer, where both are kinds of references.
fn both_refer<'a>(
    declared: &'a Declared<'a>,
    one: InferredKind,
    other: InferredKind,
) -> Option<AroundBody<'a>>
    ensures { option_map (λ s. s.own) result ≡ both_refer declared.now one other }
{
    match (one, other) {
        (InferredKind::Reference(contract), InferredKind::Reference(_)) => {
            AroundBody::new(declared, contract, InferredKind::Nothing)
        }
        _ => None,
    }
}

// The permission in a type.
#[tactic(auto, using(crate::proofs::SameLemmas::same))]
fn perm_in(of: &TypeNode) -> Option<&PermNode>
    ensures { option_map written_permission (option_copied result) ≡ written_in (type_of of.now) }
{
    match of {
        TypeNode::Reference(of) => Some(&of.perm),
        _ => None,
    }
}

fn same_perms<'a>(
    alloc: Global,
    around: &Option<AroundBody<'a>>,
    one: &TypeNode,
    other: &TypeNode,
) -> Result<bool, Memory>
    ensures { IfOk result (λ same. same ≡ option_map_or
        (λ n. agree_if_known (contract_of n) (written_in (type_of one.now)) (written_in (type_of other.now)))
        (option_map (λ s. s.own) around.now) true) }
{
    match around {
        None => Ok(true),
        Some(around) => agree_if_known(alloc, around, perm_in(one), perm_in(other)),
    }
}

// Whether two types are the same.
#[tactic(auto, using(crate::proofs::SameLemmas::same))]
fn same_type<'a>(
    alloc: Global,
    declared: &'a Declared<'a>,
    one: &TypeNode,
    other: &TypeNode,
) -> Result<bool, Memory>
    ensures { IfOk result (λ same. same ≡ same_type (program_of declared.now) (type_of one.now) (type_of other.now)) }
{
    let first = declared.types().kind_of_type(one);
    let second = declared.types().kind_of_type(other);
    if !same_kind(first, second) {
        return Ok(false);
    }
    same_perms(alloc, &both_refer(declared, first, second), one, other)
}

// The permission at the end of a parameter.
#[tactic(auto, using(crate::proofs::SameLemmas::same))]
fn exit_in<'a>(around: &AroundBody<'_>, formal: &'a FormalNode) -> Option<&'a PermNode>
    ensures { option_map written_permission (option_copied result)
        ≡ exit_in (contract_of around.now.own) (type_of formal.now.of) formal.now.exit }
{
    match &formal.of {
        TypeNode::Reference(of) => known_exit(around, &of.perm, &formal.exit),
        _ => None,
    }
}

fn same_exits<'a>(
    alloc: Global,
    around: &Option<AroundBody<'a>>,
    one: &FormalNode,
    other: &FormalNode,
) -> Result<bool, Memory>
    ensures { IfOk result (λ same. same ≡ option_map_or
        (λ n. agree_if_known (contract_of n) (exit_in (contract_of n) (type_of one.now.of) one.now.exit)
        (exit_in (contract_of n) (type_of other.now.of) other.now.exit)) (option_map (λ s. s.own) around.now) true) }
{
    match around {
        None => Ok(true),
        Some(around) => {
            agree_if_known(alloc, around, exit_in(around, one), exit_in(around, other))
        }
    }
}

// Whether two parameters are the same: their names don't count.
#[tactic(auto, using(crate::proofs::SameLemmas::same))]
fn same_param<'a>(
    alloc: Global,
    declared: &'a Declared<'a>,
    one: &FormalNode,
    other: &FormalNode,
) -> Result<bool, Memory>
    ensures { IfOk result (λ same. (n m : NamePart) → same
        ≡ same_param (program_of declared.now) (param_of one.now n) (param_of other.now m)) }
{
    if !same_type(alloc, declared, &one.of, &other.of)? {
        return Ok(false);
    }
    let first = declared.types().kind_of_type(&one.of);
    let second = declared.types().kind_of_type(&other.of);
    same_exits(alloc, &both_refer(declared, first, second), one, other)
}

// The next parameter from this place on that isn't `this`, and the place after it.
#[tactic(auto, using(crate::proofs::SameLemmas::turns))]
fn next_param(formals: &[FormalNode], from: usize) -> Option<(&FormalNode, usize)>
    ensures { MatchOption result (params_from from formals.now ≡ [])
        (λ next. (n : NamePart) × (params_from from formals.now
        ≡ param_of next.0.now n ∷ params_from next.1 formals.now)) }
{
    for place in from..formals.len() {
        let formal = &formals[place];
        if let Subject::Name(_) = &formal.name {
            return Some((formal, place + 1));
        }
    }
    None
}

// The place after the next of the asked parameters, where it is the same as this one; where this is `this`, the place
// itself.
fn same_after<'a>(
    alloc: Global,
    declared: &'a Declared<'a>,
    param: &FormalNode,
    asked: &[FormalNode],
    at: usize,
) -> Result<Option<usize>, Memory>
    ensures { IfOk result (λ after. (rest : List Param)
        → pointwise (same_param (program_of declared.now))
        (param_named (type_of param.now.of) param.now.exit param.now.name ++ rest) (params_from at asked.now)
        ≡ option_map_or (λ k. pointwise (same_param (program_of declared.now)) rest
        (params_from k asked.now)) after false) }
{
    let Subject::Name(_) = &param.name else {
        return Ok(Some(at));
    };
    let Some((next, after)) = next_param(asked, at) else {
        return Ok(None);
    };
    if same_param(alloc, declared, param, next)? {
        Ok(Some(after))
    } else {
        Ok(None)
    }
}

/// Whether the parameters beside `this` are the same.
#[tactic(auto, using(crate::proofs::SameLemmas::turns))]
pub fn same_params<'a>(
    alloc: Global,
    declared: &'a Declared<'a>,
    params: &[FormalNode],
    asked: &[FormalNode],
) -> Result<bool, Memory>
    ensures { IfOk result (λ same. same ≡ pointwise (same_param (program_of declared.now))
        (params_of (map formal_of params.now)) (params_of (map formal_of asked.now))) }
{
    let mut at = 0;
    for param in params {
        match same_after(alloc, declared, param, asked, at)? {
            Some(after) => at = after,
            None => return Ok(false),
        }
    }
    Ok(next_param(asked, at).is_none())
}

/// Whether the types of two results are the same, or there is none in both.
pub fn same_result<'a>(
    alloc: Global,
    declared: &'a Declared<'a>,
    gives: &Option<TypeNode>,
    asked: &Option<TypeNode>,
) -> Result<bool, Memory>
    ensures { IfOk result (λ same. same ≡ same_result (program_of declared.now) (option_map type_of gives.now)
        (option_map type_of asked.now)) }
{
    match gives {
        None => Ok(asked.is_none()),
        Some(gives) => match asked {
            None => Ok(false),
            Some(asked) => same_type(alloc, declared, gives, asked),
        },
    }
}
