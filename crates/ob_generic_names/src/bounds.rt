//! Which arguments a parameter takes, and which types have a fault.
ghost use Rattle.std.specs.Prelude.{◌≡◌, List, is_none};
ghost use Rattle.std.specs.List.{list_any};
ghost use Rattle.ob_table_spec.specs.Names.{Name};
ghost use Rattle.ob_resolve_scope.specs.Numbered.{find, numbered};
ghost use Rattle.ob_generic_spec.specs.Arguments.{bound_of, is_outside, is_asset, refuses, names_other_state, lacks_state, is_faulty_bare, is_faulty_with};
ghost use Rattle.ob_generic_spec.specs.TypeFaults.{is_refused};

use crate::around::{AroundType, is_param, is_same};
use crate::heads::Heads;
use ob_base::Mode;
use ob_generic_spec::Argument;
use ob_resolve_scope::Names;
use ob_tree::{NamePart, ParamNode, PermNode};

fn bound_of(param: &ParamNode) -> Option<Mode>
    ensures { result ≡ bound_of param.now }
{
    match &param.bound {
        Some((name, mode)) => {
            if is_same(param.perm.name.as_bytes(), name.name.as_bytes()) {
                Some(*mode)
            } else {
                None
            }
        }
        None => None,
    }
}

fn is_outside(bound: Option<Mode>, perm: &PermNode) -> bool
    ensures { result ≡ is_outside bound perm.now }
{
    match bound {
        None => false,
        Some(Mode::Unowned) => false,
        Some(Mode::Owned) => match perm {
            PermNode::Mode(mode, _) => matches!(mode, Mode::Shared | Mode::Unowned),
            PermNode::States(_) => false,
        },
        Some(Mode::Shared) => match perm {
            PermNode::Mode(mode, _) => matches!(mode, Mode::Owned | Mode::Unowned),
            PermNode::States(_) => true,
        },
    }
}

fn is_asset(heads: &Heads, name: &[u8]) -> bool
    ensures { result ≡ is_asset heads.now name.now }
{
    match heads.get(name) {
        Some(head) => head.asset,
        None => false,
    }
}

fn refuses(heads: &Heads, param: &ParamNode, argument: &Argument) -> bool
    ensures { result ≡ refuses heads.now param.now argument.now }
{
    is_asset(heads, argument.of.base.as_bytes()) && !param.asset
        || is_outside(bound_of(param), &argument.perm)
}

fn is_other_among(states: &Names, names: &[NamePart]) -> bool
    ensures { result ≡ list_any (λ n. is_none (find n.name states.now)) names.now }
{
    names
        .iter()
        .any(|name| states.find(name.name.as_bytes()).is_none())
}

fn names_other_state(states: &Names, perm: &PermNode) -> bool
    ensures { (xs : List Name) → states.now ≡ numbered xs → result ≡ names_other_state xs perm.now }
{
    match perm {
        PermNode::Mode(_, _) => false,
        PermNode::States(names) => is_other_among(states, names.as_slice()),
    }
}

/// Whether an argument's permission names a state that its contract or interface doesn't have.
pub fn lacks_state(heads: &Heads, argument: &Argument) -> bool
    ensures { result ≡ lacks_state heads.now argument.now }
{
    match heads.states(argument.of.base.as_bytes()) {
        Some(states) => names_other_state(states, &argument.perm),
        None => false,
    }
}

/// Whether a name without an argument has a fault in an argument.
pub fn is_faulty_bare(name: &[u8], around: &AroundType<'_>) -> bool
    ensures { result ≡ is_faulty_bare around.now name.now }
{
    if is_param(around.own(), name) {
        return false;
    }
    match around.heads().get(name) {
        Some(head) => head.param.is_some(),
        None => true,
    }
}

/// Whether a name with an argument has a fault; `inner` says whether the argument has one.
pub fn is_faulty_with(
    name: &[u8],
    around: &AroundType<'_>,
    inner: bool,
    argument: &Argument,
) -> bool
    ensures { result ≡ is_faulty_with around.now name.now inner argument.now }
{
    if is_param(around.own(), name) {
        return true;
    }
    match around.heads().get(name) {
        Some(head) => match &head.param {
            Some(param) => inner || refuses(around.heads(), param, argument),
            None => true,
        },
        None => true,
    }
}

/// Whether the contract or interface of this name refuses an argument; of one with a fault nothing is said.
pub fn is_refused(name: &[u8], around: &AroundType<'_>, inner: bool, argument: &Argument) -> bool
    ensures { result ≡ is_refused around.now name.now inner argument.now }
{
    if is_param(around.own(), name) || inner {
        return false;
    }
    match around.heads().get(name) {
        Some(head) => match &head.param {
            Some(param) => refuses(around.heads(), param, argument),
            None => false,
        },
        None => false,
    }
}
