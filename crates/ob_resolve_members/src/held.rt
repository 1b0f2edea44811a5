//! What is held of `this`.
ghost use Rattle.std.specs.Prelude.{◌≡◌, ◌||◌, map, option_map};
ghost use Rattle.std.specs.Option.{option_copied};
ghost use Rattle.std.specs.List.{list_any};
ghost use Rattle.ob_tree.specs.NamesView.{ref_of, type_of};
ghost use Rattle.ob_tree.specs.MembersView.{formal_of, contract_of};
ghost use Rattle.ob_resolve_spec.specs.Permissions.{as_unowned, written_permission, known_permission, known_exit};
ghost use Rattle.ob_resolve_spec.specs.Interfaces.{is_this, held_by_type, held_of_this};
ghost use Rattle.ob_resolve_members.specs.Written.{is_own};

use ob_resolve_scope::AroundBody;
use ob_tree::{FormalNode, PermNode, RefNode, Subject, TypeNode};

/// The permission at the start and the one at the end, each if it is known.
pub type EntryAndExit<'a> = (Option<&'a PermNode>, Option<&'a PermNode>);

// Whether a parameter is `this`.
fn is_this(formal: &FormalNode) -> bool
    ensures { result ≡ is_this (formal_of formal.now) }
{
    match &formal.name {
        Subject::This(_) => true,
        Subject::Name(_) => false,
    }
}

// Whether one of the parameters is `this`.
fn has_this(formals: &[FormalNode]) -> bool
    ensures { result ≡ list_any is_this (map formal_of formals.now) }
{
    for formal in formals {
        if is_this(formal) {
            return true;
        }
    }
    false
}

/// The permission, if it has no fault.
pub fn known<'a>(around: &AroundBody<'_>, perm: &'a PermNode) -> Option<&'a PermNode>
    ensures { option_map written_permission (option_copied result)
        ≡ known_permission (contract_of around.now.own) perm.now }
{
    if around.is_of(perm) { Some(perm) } else { None }
}

/// The permission at the end: without `>>` it is the one at the start.
pub fn known_exit<'a>(
    around: &AroundBody<'_>,
    entry: &'a PermNode,
    exit: &'a Option<PermNode>,
) -> Option<&'a PermNode>
    ensures { option_map written_permission (option_copied result)
        ≡ known_exit (contract_of around.now.own) entry.now exit.now }
{
    match exit {
        None => known(around, entry),
        Some(exit) => known(around, exit),
    }
}

// Whether a type is that of the contract around, with a permission without fault.
#[tactic(auto, using(crate::proofs::HeldLemmas::holding))]
fn is_own(around: &AroundBody<'_>, of: &RefNode) -> bool
    ensures { result ≡ is_own (contract_of around.now.own) (ref_of of.now) }
{
    around.node().name.as_bytes() == of.of.name.as_bytes() && around.is_of(&of.perm)
}

// What is held with the type that is written at `this`.
#[tactic(auto, using(crate::proofs::HeldLemmas::holding))]
fn held_by_type<'a>(around: &AroundBody<'_>, formal: &'a FormalNode) -> EntryAndExit<'a>
    ensures entry { option_map written_permission (option_copied result.0)
        ≡ (held_by_type (contract_of around.now.own) (type_of formal.now.of) formal.now.exit).entry }
    ensures exit { option_map written_permission (option_copied result.1)
        ≡ (held_by_type (contract_of around.now.own) (type_of formal.now.of) formal.now.exit).exit }
{
    match &formal.of {
        TypeNode::Reference(of) => {
            if is_own(around, of) {
                (
                    known(around, &of.perm),
                    known_exit(around, &of.perm, &formal.exit),
                )
            } else {
                (None, None)
            }
        }
        _ => (None, None),
    }
}

/// What is held of `this` among these parameters of the contract around; `unowned` is the permission where it isn't
/// written.
pub fn held_of_this<'a>(
    around: &AroundBody<'_>,
    formals: &'a [FormalNode],
    unowned: &'a PermNode,
) -> EntryAndExit<'a>
    requires { written_permission unowned.now ≡ as_unowned }
    ensures entry { option_map written_permission (option_copied result.0)
        ≡ (held_of_this (contract_of around.now.own) (map formal_of formals.now)).entry }
    ensures exit { option_map written_permission (option_copied result.1)
        ≡ (held_of_this (contract_of around.now.own) (map formal_of formals.now)).exit }
{
    match formals {
        [] => (Some(unowned), Some(unowned)),
        [first, rest @ ..] => {
            if has_this(rest) {
                (None, None)
            } else if is_this(first) {
                held_by_type(around, first)
            } else {
                (Some(unowned), Some(unowned))
            }
        }
    }
}
