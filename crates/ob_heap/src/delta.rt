//! What differs between two contents of a store (this project's own).
ghost use Rattle.std.specs.Prelude.{◌≡◌, IfOk};

use crate::object::{Handle, Object};
use crate::sequence::Sequence;
use ob_base::{Duplicate, Label, Memory, ObjectId};
use std::alloc::Global;

/// What differs, in the order of the objects' numbers and of the handles' names, each at most once: objects as they
/// are then, and handles as they are then, or that they are none any more.
#[derive(Drop)]
pub struct Delta {
    /// The objects.
    pub objects: Sequence<(ObjectId, Object)>,
    /// The handles.
    pub handles: Sequence<((Label, Label), Option<Handle>)>,
}

fn copy_objects(
    alloc: Global,
    items: &[(ObjectId, Object)],
) -> Result<Sequence<(ObjectId, Object)>, Memory>
    ensures { IfOk result (λ copies. copies ≡ items.now) }
{
    let mut copies = Sequence::new(alloc);
    for item in items {
        copies.push((item.0, item.1.copy(alloc)?))?;
    }
    Ok(copies)
}

fn copy_handles(
    alloc: Global,
    items: &[((Label, Label), Option<Handle>)],
) -> Result<Sequence<((Label, Label), Option<Handle>)>, Memory>
    ensures { IfOk result (λ copies. copies ≡ items.now) }
{
    let mut copies = Sequence::new(alloc);
    for item in items {
        let name = (item.0.0.copy(alloc)?, item.0.1.copy(alloc)?);
        copies.push((name, item.1))?;
    }
    Ok(copies)
}

impl Duplicate for Delta {
    fn copy(&self, alloc: Global) -> Result<Delta, Memory> {
        Ok(Delta {
            objects: copy_objects(alloc, self.objects.as_slice())?,
            handles: copy_handles(alloc, self.handles.as_slice())?,
        })
    }
}
