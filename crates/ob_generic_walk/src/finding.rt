//! All instances of a program, and its least fault.
ghost use Rattle.std.specs.Prelude.{◌≡◌, ◌≤◌, ◌<◌, ◌+◌, [], true, false, map, slice_get, OnOk, IfOk, IsErrOf};
ghost use Rattle.ob_base.specs.Limits.{most_walked};
ghost use Rattle.ob_tree.specs.MembersView.{contract_of};
ghost use Rattle.ob_generic_spec.specs.Heads.{heads_of};
ghost use Rattle.ob_generic_spec.specs.Instances.{instance_visits, visits, needed_by, instances_of};
ghost use Rattle.ob_generic_spec.specs.TypeFaults.{least_type_fault};
ghost use Rattle.ob_generic_spec.specs.Copied.{copied_by, copied_by_all, is_too_much_text};
ghost use Rattle.ob_generic_walk.specs.Seen.{seen, start_of};
ghost use Rattle.ob_generic_walk.specs.Stages.{stage};

use crate::contracts::{walk_instance, walk_plains};
use crate::copied::{count_copied, is_too_large};
use crate::declaring::declare;
use crate::error::WalkError;
use crate::found::Found;
use crate::headings::note_heads;
use crate::known::Known;
use ob_base::{MOST_INSTANCES, Memory};
use ob_generic_names::{Heads, copy_instance};
use ob_generic_spec::Instance;
use ob_tree::ContractNode;
use std::alloc::Global;

/// The faults of heads, and what the contracts need that aren't generic.
#[tactic(auto, using(crate::proofs::Steps::steps))]
pub fn walk_first(nodes: &[ContractNode], alloc: Global, heads: &Heads) -> Result<Found, Memory>
    requires { heads.now ≡ heads_of (map contract_of nodes.now) }
    ensures { IfOk result (λ f. f ≡ seen (start_of (map contract_of nodes.now)) (visits (map contract_of nodes.now) [])) }
{
    let mut least = None;
    note_heads(nodes, alloc, &mut least)?;
    let known = Known::new(alloc);
    let mut found = Found { known, least };
    walk_plains(nodes, alloc, heads, &mut found)?;
    Ok(found)
}

/// A copy of the instance of this number, if there is one.
pub fn copy_at(known: &Known, number: usize, alloc: Global) -> Result<Option<Instance>, Memory>
    ensures { IfOk result (λ x. x ≡ slice_get known.now number) }
{
    match known.get(number) {
        None => Ok(None),
        Some(instance) => Ok(Some(copy_instance(alloc, instance)?)),
    }
}

/// What an instance needs, unless the instances up to it are made of too much text.
pub fn walk_counted(
    nodes: &[ContractNode],
    instance: &Instance,
    alloc: Global,
    heads: &Heads,
    copied: &mut usize,
    found: &mut Found,
) -> Result<(), WalkError>
    requires { heads.now ≡ heads_of (map contract_of nodes.now) }
    ensures seen { OnOk result (found.new ≡ seen found.old (instance_visits (map contract_of nodes.now) instance.now)) }
    ensures counted { OnOk result (copied.new ≡ copied.old + copied_by (map contract_of nodes.now) instance.now) }
    ensures within { OnOk result (copied.new ≤ most_walked) }
    ensures too_much { IsErrOf result WalkError.TooMuch
        → most_walked < copied.old + copied_by (map contract_of nodes.now) instance.now }
{
    let Some(sum) = count_copied(nodes, instance, *copied) else {
        return Err(WalkError::TooMuch);
    };
    *copied = sum;
    walk_instance(nodes, instance, alloc, heads, found)?;
    Ok(())
}

// What the instance of this number needs, if there is one.
fn walk_number(
    nodes: &[ContractNode],
    number: usize,
    alloc: Global,
    heads: &Heads,
    copied: &mut usize,
    found: &mut Found,
) -> Result<(), WalkError>
    requires heads { heads.now ≡ heads_of (map contract_of nodes.now) }
    requires so_far { let program = map contract_of nodes.now in
        found.old ≡ seen (start_of program) (visits program (stage program number)) }
    requires counted { let program = map contract_of nodes.now in
        copied.old ≡ copied_by_all program (stage program number) }
    requires within { copied.old ≤ most_walked }
    ensures seen { let program = map contract_of nodes.now in
        OnOk result (found.new ≡ seen (start_of program) (visits program (stage program (number + 1)))) }
    ensures counted { let program = map contract_of nodes.now in
        OnOk result (copied.new ≡ copied_by_all program (stage program (number + 1))) }
    ensures within { OnOk result (copied.new ≤ most_walked) }
    ensures too_much { let program = map contract_of nodes.now in
        IsErrOf result WalkError.TooMuch → most_walked < copied_by_all program (stage program (number + 1)) }
{
    match copy_at(&found.known, number, alloc)? {
        None => Ok(()),
        Some(instance) => walk_counted(nodes, &instance, alloc, heads, copied, found),
    }
}

fn walk(nodes: &[ContractNode], alloc: Global, heads: &Heads) -> Result<Found, WalkError>
    requires { heads.now ≡ heads_of (map contract_of nodes.now) }
    ensures seen { let program = map contract_of nodes.now in
        IfOk result (λ f. f ≡ seen (start_of program) (visits program (instances_of program))) }
    ensures within { IfOk result (λ f. is_too_much_text (map contract_of nodes.now) ≡ false) }
    ensures too_much { IsErrOf result WalkError.TooMuch → is_too_much_text (map contract_of nodes.now) ≡ true }
{
    let mut found = walk_first(nodes, alloc, heads)?;
    let mut copied = 0;
    for number in 0..MOST_INSTANCES {
        walk_number(nodes, number, alloc, heads, &mut copied, &mut found)?;
    }
    if is_too_large(&found, copied) {
        return Err(WalkError::TooMuch);
    }
    Ok(found)
}

/// What a program needs, and its least fault: `TooMuch` exactly where its instances are made of too much text, unless memory ran out.
pub fn find(nodes: &[ContractNode], alloc: Global) -> Result<Found, WalkError>
    ensures known { let program = map contract_of nodes.now in
        IfOk result (λ f. f.known ≡ needed_by program (instances_of program)) }
    ensures least { let program = map contract_of nodes.now in
        IfOk result (λ f. f.least ≡ least_type_fault program) }
    ensures within { IfOk result (λ f. is_too_much_text (map contract_of nodes.now) ≡ false) }
    ensures too_much { IsErrOf result WalkError.TooMuch → is_too_much_text (map contract_of nodes.now) ≡ true }
{
    let heads = declare(nodes, alloc)?;
    walk(nodes, alloc, &heads)
}
