//! Copies of instances.
ghost use Rattle.std.specs.Prelude.{◌≡◌, IfOk};

use ob_base::{Duplicate, Items, Memory, both};
use ob_generic_spec::{Argument, Instance, Written};
use std::alloc::Global;

fn copy_bytes(alloc: Global, bytes: &Items<u8>) -> Result<Items<u8>, Memory>
    ensures { IfOk result (λ copy. copy ≡ bytes.now) }
{
    Ok(Items::from_slice(alloc, bytes.as_slice())?)
}

/// A copy of a type's name.
pub fn copy_written(alloc: Global, written: &Written) -> Result<Written, Memory>
    ensures { IfOk result (λ copy. copy ≡ written.now) }
{
    let (base, name) = both(written.base.copy(alloc), copy_bytes(alloc, &written.name))?;
    Ok(Written { base, name })
}

/// A copy of an argument.
pub fn copy_argument(alloc: Global, argument: &Argument) -> Result<Argument, Memory>
    ensures { IfOk result (λ copy. copy ≡ argument.now) }
{
    let (of, perm) = both(copy_written(alloc, &argument.of), argument.perm.copy(alloc))?;
    Ok(Argument { of, perm })
}

/// A copy of an instance.
pub fn copy_instance(alloc: Global, instance: &Instance) -> Result<Instance, Memory>
    ensures { IfOk result (λ copy. copy ≡ instance.now) }
{
    let (name, argument) = both(
        copy_bytes(alloc, &instance.name),
        copy_argument(alloc, &instance.argument),
    )?;
    Ok(Instance {
        name,
        contract: instance.contract,
        argument,
    })
}
