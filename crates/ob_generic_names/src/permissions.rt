//! Permissions in an instance.
ghost use Rattle.std.specs.Prelude.{◌≡◌, [], ◌∷◌, ◌++◌, flat_map, OnOk, IfOk};
ghost use Rattle.ob_generic_spec.specs.Substitution.{states_at, perm_at, states_given, state_in, states_in, perm_in};

use crate::around::{OwnInstance, is_same};
use crate::printing::mode_text;
use ob_base::{Duplicate, Items, Memory, Span};
use ob_tree::{NamePart, PermNode};
use std::alloc::Global;

// Puts states at this place.
#[tactic(auto, using(crate::proofs::Turns::turns))]
fn put_states_at(
    states: &[NamePart],
    alloc: Global,
    span: Span,
    out: &mut Items<NamePart>,
) -> Result<(), Memory>
    ensures { OnOk result (out.new ≡ out.old ++ states_at span states.now) }
{
    for state in states {
        let name = state.name.copy(alloc)?;
        out.push(NamePart { name, span })?;
    }
    Ok(())
}

fn perm_at(perm: &PermNode, alloc: Global, span: Span) -> Result<PermNode, Memory>
    ensures { IfOk result (λ p. p ≡ perm_at span perm.now) }
{
    match perm {
        PermNode::Mode(mode, _) => Ok(PermNode::Mode(*mode, span)),
        PermNode::States(states) => {
            let mut out = Items::new(alloc);
            put_states_at(states.as_slice(), alloc, span, &mut out)?;
            Ok(PermNode::States(out))
        }
    }
}

fn put_state(state: &NamePart, alloc: Global, out: &mut Items<NamePart>) -> Result<(), Memory>
    ensures { OnOk result (out.new ≡ out.old ++ state.now ∷ []) }
{
    out.push(state.copy(alloc)?)?;
    Ok(())
}

// What a permission gives in the place of one of several states.
fn put_given(
    perm: &PermNode,
    alloc: Global,
    span: Span,
    out: &mut Items<NamePart>,
) -> Result<(), Memory>
    ensures { OnOk result (out.new ≡ out.old ++ states_given span perm.now) }
{
    match perm {
        PermNode::Mode(mode, _) => {
            let name = mode_text(*mode, alloc)?;
            out.push(NamePart { name, span })?;
            Ok(())
        }
        PermNode::States(states) => put_states_at(states.as_slice(), alloc, span, out),
    }
}

fn put_state_in(
    state: &NamePart,
    alloc: Global,
    own: &OwnInstance<'_>,
    out: &mut Items<NamePart>,
) -> Result<(), Memory>
    ensures { OnOk result (out.new ≡ out.old ++ state_in own.now state.now) }
{
    if is_same(own.param().perm.name.as_bytes(), state.name.as_bytes()) {
        put_given(&own.instance().argument.perm, alloc, state.span, out)
    } else {
        put_state(state, alloc, out)
    }
}

#[tactic(auto, using(crate::proofs::Turns::turns))]
fn put_states_in(
    states: &[NamePart],
    alloc: Global,
    own: &OwnInstance<'_>,
    out: &mut Items<NamePart>,
) -> Result<(), Memory>
    ensures { OnOk result (out.new ≡ out.old ++ flat_map (state_in own.now) states.now) }
{
    for state in states {
        put_state_in(state, alloc, own, out)?;
    }
    Ok(())
}

// One state alone may take the place of any permission.
fn one_state_in(state: &NamePart, alloc: Global, own: &OwnInstance<'_>) -> Result<PermNode, Memory>
    ensures { IfOk result (λ p. p ≡ states_in own.now (state.now ∷ [])) }
{
    if is_same(own.param().perm.name.as_bytes(), state.name.as_bytes()) {
        return perm_at(&own.instance().argument.perm, alloc, state.span);
    }
    let mut out = Items::new(alloc);
    put_state(state, alloc, &mut out)?;
    Ok(PermNode::States(out))
}

fn states_in(states: &[NamePart], alloc: Global, own: &OwnInstance<'_>) -> Result<PermNode, Memory>
    ensures { IfOk result (λ p. p ≡ states_in own.now states.now) }
{
    match states {
        [state] => one_state_in(state, alloc, own),
        [] => Ok(PermNode::States(Items::new(alloc))),
        [_, _, ..] => {
            let mut out = Items::new(alloc);
            put_states_in(states, alloc, own, &mut out)?;
            Ok(PermNode::States(out))
        }
    }
}

/// A permission, in an instance or outside of one.
pub fn perm_in(
    perm: &PermNode,
    alloc: Global,
    own: &Option<OwnInstance<'_>>,
) -> Result<PermNode, Memory>
    ensures { IfOk result (λ p. p ≡ perm_in own.now perm.now) }
{
    match (own, perm) {
        (Some(own), PermNode::States(states)) => states_in(states.as_slice(), alloc, own),
        _ => perm.copy(alloc),
    }
}
