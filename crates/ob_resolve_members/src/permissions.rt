//! Whether two permissions say the same of the objects of a contract.
ghost use Rattle.std.specs.Prelude.{◌≡◌, ◌||◌, map, not, option_map, IfOk};
ghost use Rattle.std.specs.Option.{option_copied};
ghost use Rattle.std.specs.List.{list_all};
ghost use Rattle.ob_tree.specs.MembersView.{contract_of};
ghost use Rattle.ob_resolve_spec.specs.Permissions.{as_owner_in, situations, allows, same_mode, written_permission, agree, agree_if_known};
ghost use Rattle.ob_resolve_scope.specs.Numbered.{numbered};
ghost use Rattle.ob_resolve_members.specs.Written.{written_mode, agree_with_mode, is_kept};

use ob_base::{Memory, Mode};
use ob_resolve_scope::{AroundBody, Names};
use ob_tree::{NamePart, PermNode};
use std::alloc::Global;

// The names of these states.
#[tactic(auto, using(crate::proofs::AgreeLemmas::agreeing))]
fn names_of(states: &[NamePart], alloc: Global) -> Result<Names, Memory>
    ensures { IfOk result (λ names. names ≡ numbered (map (λ s. s.name) states.now)) }
{
    let mut names = Names::new(alloc);
    for place in 0..states.len() {
        names.add(alloc, states[place].name.as_bytes(), place)?;
    }
    Ok(names)
}

// Whether a state is one of the others, if the contract has it.
fn is_kept(state: &NamePart, own: &Names, others: &Names) -> bool
    ensures { result ≡ is_kept own.now others.now state.now }
{
    let name = state.name.as_bytes();
    own.find(name).is_none() || others.find(name).is_some()
}

// Whether each of these states that the contract has is one of the others.
fn are_kept(states: &[NamePart], own: &Names, others: &Names) -> bool
    ensures { result ≡ list_all (is_kept own.now others.now) states.now }
{
    for state in states {
        if !is_kept(state, own, others) {
            return false;
        }
    }
    true
}

// Whether the states of one row that the contract has are those of the other.
#[tactic(auto, using(crate::proofs::AgreeLemmas::agreeing))]
fn same_states(
    alloc: Global,
    around: &AroundBody<'_>,
    states: &[NamePart],
    others: &[NamePart],
) -> Result<bool, Memory>
    ensures { IfOk result (λ b. b ≡ agree (contract_of around.now.own) (as_owner_in (map (λ s. s.name) states.now))
        (as_owner_in (map (λ s. s.name) others.now))) }
{
    let Some(own) = around.states() else {
        return Ok(false);
    };
    let first = names_of(states, alloc)?;
    let second = names_of(others, alloc)?;
    Ok(are_kept(states, own, &second) && are_kept(others, own, &first))
}

// Whether an owner with these states may find its object wherever that may be. The first state of the contract that isn't
// among them ends the search.
#[tactic(auto, using(crate::proofs::AgreeLemmas::agreeing))]
fn is_anywhere(alloc: Global, around: &AroundBody<'_>, states: &[NamePart]) -> Result<bool, Memory>
    ensures { IfOk result (λ b. b ≡ list_all (allows (as_owner_in (map (λ s. s.name) states.now)))
        (situations (contract_of around.now.own))) }
{
    let Some(own) = around.states() else {
        return Ok(false);
    };
    if around.node().interface || own.len() == 0 {
        return Ok(false);
    }
    let listed = names_of(states, alloc)?;
    Ok(own.is_within(&listed))
}

fn same_mode(mode: Mode, other: Mode) -> bool
    ensures { result ≡ same_mode (written_mode mode) (written_mode other) }
{
    match (mode, other) {
        (Mode::Owned, Mode::Owned) => true,
        (Mode::Shared, Mode::Shared) => true,
        (Mode::Unowned, Mode::Unowned) => true,
        _ => false,
    }
}

fn agree_with_mode(
    alloc: Global,
    around: &AroundBody<'_>,
    mode: Mode,
    states: &[NamePart],
) -> Result<bool, Memory>
    ensures { IfOk result (λ b. b ≡ agree_with_mode (contract_of around.now.own) mode (map (λ s. s.name) states.now)) }
{
    match mode {
        Mode::Owned => is_anywhere(alloc, around, states),
        Mode::Shared => Ok(false),
        Mode::Unowned => Ok(false),
    }
}

/// Whether two permissions say the same of the objects of the contract around: owners find them in the same situations. It
/// takes time in proportion to the states that the permissions name.
#[tactic(auto, using(crate::proofs::AgreeLemmas::agreeing))]
pub fn agree(
    alloc: Global,
    around: &AroundBody<'_>,
    one: &PermNode,
    other: &PermNode,
) -> Result<bool, Memory>
    ensures { IfOk result (λ b. b ≡ agree (contract_of around.now.own) (written_permission one.now)
        (written_permission other.now)) }
{
    match one {
        PermNode::Mode(mode, _) => match other {
            PermNode::Mode(second, _) => Ok(same_mode(*mode, *second)),
            PermNode::States(states) => agree_with_mode(alloc, around, *mode, states.as_slice()),
        },
        PermNode::States(states) => match other {
            PermNode::Mode(mode, _) => agree_with_mode(alloc, around, *mode, states.as_slice()),
            PermNode::States(others) => {
                same_states(alloc, around, states.as_slice(), others.as_slice())
            }
        },
    }
}

/// The same, where both permissions are known.
pub fn agree_if_known(
    alloc: Global,
    around: &AroundBody<'_>,
    one: Option<&PermNode>,
    other: Option<&PermNode>,
) -> Result<bool, Memory>
    ensures { IfOk result (λ b. b ≡ agree_if_known (contract_of around.now.own)
        (option_map written_permission (option_copied one.entry))
        (option_map written_permission (option_copied other.entry))) }
{
    match one {
        None => Ok(true),
        Some(one) => match other {
            None => Ok(true),
            Some(other) => agree(alloc, around, one, other),
        },
    }
}
