//! What a request that ran changes of a store.
ghost use Rattle.std.specs.Prelude.{◌≡◌, ◌≤◌, map, length, IfOk};
ghost use Rattle.ob_base.specs.Limits.{most_objects};
ghost use Rattle.ob_heap.specs.Contents.{named_of, content_of};
ghost use Rattle.ob_heap.specs.Overlays.{laid_over, objects_over};
ghost use Rattle.ob_heap_spec.specs.Worlds.{World};
ghost use Rattle.ob_heap_spec.specs.Handles.{put_handles};
ghost use Rattle.ob_invocation_spec.specs.Handles.{mark_puts};
ghost use Rattle.ob_exec_handles.specs.Coming.{LeadsTo};

use crate::changing::changed_objects;
use crate::marking::mark_puts;
use crate::putting::{Named, changes_with};
use ob_base::{Items, Memory};
use ob_heap::{Content, Delta, Overlay};
use std::alloc::Global;

/// What a run changed and the handles that are put after it, one after another, as one delta. Each reference that is put
/// into a Shared handle marks its object, in the overlay too.
pub fn delta_with(
    alloc: Global,
    base: &Content,
    overlay: &mut Overlay,
    puts: &Items<Named>,
) -> Result<Delta, Memory>
    requires { length (laid_over base.now.objects overlay.old) ≤ most_objects }
    ensures { IfOk result (λ delta. (w : World) → w.objects ≡ objects_over base.now.objects overlay.old → LeadsTo base.now delta (record { objects = (mark_puts w (map named_of puts.now)).objects; handles = put_handles (content_of base.now).handles (map named_of puts.now) })) }
{
    mark_puts(alloc, base, overlay, puts.as_slice())?;
    let objects = changed_objects(alloc, base, overlay)?;
    let handles = changes_with(alloc, base, puts.as_slice())?;
    Ok(Delta { objects, handles })
}
