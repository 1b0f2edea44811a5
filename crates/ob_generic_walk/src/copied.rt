//! What the instances of a program are made of, which is bounded so that a small text can't take all memory.
ghost use Rattle.std.specs.Prelude.{◌≡◌, ◌≤◌, ◌<◌, ◌+◌, ◌-◌, ◌^◌, not, ◌&&◌, min, nat_lt, is_some, map, None, IfSome};
ghost use Rattle.ob_base.specs.Limits.{most_copied, most_walked};
ghost use Rattle.ob_tree.specs.MembersView.{contract_of};
ghost use Rattle.ob_generic_spec.specs.Copied.{bytes_of_contract, count_of_states, times_copied, copied_by};

use crate::found::Found;
use ob_base::{MOST_COPIED, MOST_WALKED};
use ob_generic_spec::Instance;
use ob_tree::{ContractNode, PermNode};

// A printed name of so many bytes, and so many states, count as much as one more copy of the text.
const NAME_BYTES: usize = 512;

const STATES: usize = 4;

fn bytes_of_contract(node: &ContractNode) -> usize
    ensures { result ≡ bytes_of_contract (contract_of node.now) }
{
    node.end.end.saturating_sub(node.span.start) as usize
}

fn count_of_states(perm: &PermNode) -> usize
    ensures { result ≡ count_of_states perm.now }
{
    match perm {
        PermNode::Mode(_, _) => 0,
        PermNode::States(states) => states.len(),
    }
}

fn times_copied(instance: &Instance) -> usize
    ensures { result ≡ times_copied instance.now }
{
    1 + count_of_states(&instance.argument.perm) / STATES + instance.name.len() / NAME_BYTES
}

// The bytes that an instance is made of, up to the end of the type.
fn copied_by(nodes: &[ContractNode], instance: &Instance) -> usize
    ensures { result ≡ min (copied_by (map contract_of nodes.now) instance.now) (2 ^ 64 - 1) }
{
    match nodes.get(instance.contract) {
        None => 0,
        Some(node) => bytes_of_contract(node).saturating_mul(times_copied(instance)),
    }
}

/// The bytes that one more instance is made of, and those that were counted; None where that is too much to look through.
pub fn count_copied(nodes: &[ContractNode], instance: &Instance, copied: usize) -> Option<usize>
    ensures counted { IfSome result (λ sum. sum ≡ copied + copied_by (map contract_of nodes.now) instance.now) }
    ensures within { IfSome result (λ sum. sum ≤ most_walked) }
    ensures too_much { result ≡ None → most_walked < copied + copied_by (map contract_of nodes.now) instance.now }
{
    let sum = copied.saturating_add(copied_by(nodes, instance));
    if sum > MOST_WALKED { None } else { Some(sum) }
}

/// Whether a tree would be made of so many bytes, and of too many. A program with a fault has no tree.
pub fn is_too_large(found: &Found, copied: usize) -> bool
    ensures { result ≡ (not (is_some found.now.least) && nat_lt most_copied copied) }
{
    found.least.is_none() && copied > MOST_COPIED
}
