//! What differs after a delta, from bytes.
ghost use Rattle.std.specs.Prelude.{◌≡◌, ◌≤◌, length, All, IfOk, Err};
ghost use Rattle.ob_base.specs.Limits.{most_objects, most_handles};
ghost use Rattle.ob_heap.specs.Contents.{content_of};
ghost use Rattle.ob_heap.specs.Deltas.{IsDelta};
ghost use Rattle.ob_heap.specs.Plain.{object_of};
ghost use Rattle.ob_heap_spec.specs.Contents.{IsContent, IsObject};
ghost use Rattle.ob_code_table.specs.ImageTables.{table_of_image};
ghost use Rattle.ob_store_laws.specs.Recorded.{content_with, changes_of};
ghost use Rattle.ob_store_payload.specs.declared.error.PayloadError.{PayloadError};
ghost use Rattle.ob_store_spec.specs.Payloads.{Changes};
ghost use Rattle.ob_store_spec.specs.Changes.{SaysChanges};

use crate::conditions::are_changes;
use crate::error::PayloadError;
use crate::reading::delta;
use ob_code::Image;
use ob_heap::{Content, Delta};
use std::alloc::Global;

/// The delta that a payload says of a content, which is one of the program with no more objects and handles than there may be.
/// `Bad` where the bytes say no changes of the content.
pub fn read_payload(
    alloc: Global,
    code: &Image,
    content: &Content,
    bytes: &[u8],
) -> Result<Delta, PayloadError>
    requires content { IsContent (table_of_image code.now) (content_of content.now) }
    requires objects { length (content_of content.now).objects ≤ most_objects }
    requires handles { length (content_of content.now).handles ≤ most_handles }
    ensures delta { IfOk result (λ delta. IsDelta content.now delta) }
    ensures says { IfOk result (λ delta. SaysChanges (table_of_image code.now) (content_of content.now) (changes_of (table_of_image code.now) delta) bytes.now) }
    ensures objects { IfOk result (λ delta. All (λ e. IsObject (table_of_image code.now) (content_with content.now delta).objects (object_of e.1)) delta.objects) }
    ensures bad { result ≡ Err PayloadError.Bad → (changes : Changes) → ¬ (SaysChanges (table_of_image code.now) (content_of content.now) changes bytes.now) }
{
    let (found, rest) = delta(alloc, code, bytes)?;
    if !rest.is_empty() || !are_changes(code, content, &found) {
        return Err(PayloadError::Bad);
    }
    Ok(found)
}
