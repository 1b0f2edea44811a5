//! The instance in which a fault of types is met.
use crate::declaring::declare;
use crate::error::WalkError;
use crate::finding::{copy_at, walk_counted, walk_first};
use crate::found::Found;
use ob_base::{Items, MOST_INSTANCES, ProgramFault};
use ob_tree::ContractNode;
use std::alloc::Global;

/// Where the first fault of a program's types is met. Nothing is claimed of it: a person is told of the fault by it.
#[derive(Drop)]
pub struct InstanceOfFault {
    /// The printed name of the first instance in which it is; None where it is in none.
    pub name: Option<Items<u8>>,
    /// Of an instance too many: whether it is one for its name, with no more than there may be.
    pub is_long: bool,
}

fn is_found(found: &Found, fault: ProgramFault) -> bool {
    match found.least {
        None => false,
        Some(least) => least.span.start == fault.span.start && least.number == fault.number,
    }
}

fn instance_of(name: Option<Items<u8>>, found: &Found) -> InstanceOfFault {
    InstanceOfFault {
        name,
        is_long: found.known.len() <= MOST_INSTANCES,
    }
}

/// Where the first fault of the types of a program is met, which is this one.
pub fn instance_of_fault(
    nodes: &[ContractNode],
    alloc: Global,
    fault: ProgramFault,
) -> Result<InstanceOfFault, WalkError> {
    let heads = declare(nodes, alloc)?;
    let mut found = walk_first(nodes, alloc, &heads)?;
    if is_found(&found, fault) {
        return Ok(instance_of(None, &found));
    }
    let mut copied = 0;
    for number in 0..MOST_INSTANCES {
        let Some(instance) = copy_at(&found.known, number, alloc)? else {
            return Ok(instance_of(None, &found));
        };
        walk_counted(nodes, &instance, alloc, &heads, &mut copied, &mut found)?;
        if is_found(&found, fault) {
            return Ok(instance_of(Some(instance.name), &found));
        }
    }
    Ok(instance_of(None, &found))
}
