//! The content to which records lead, whether it is at rest or not: ob_store hands out none that isn't.
ghost use Rattle.std.specs.Prelude.{OnOk};
ghost use Rattle.ob_heap.specs.Contents.{content_of};
ghost use Rattle.ob_code_table.specs.ImageTables.{table_of_image};
ghost use Rattle.ob_store.specs.Opening.{IsKeptContent};

use crate::records::Records;
use ob_base::Memory;
use ob_code::Image;
use ob_heap::{Content, apply, reserve};
use ob_store_payload::{PayloadError, read_payload};
use std::alloc::Global;

// The content becomes the one after what a payload says of it.
fn follow(
    alloc: Global,
    code: &Image,
    content: &mut Content,
    payload: &[u8],
) -> Result<(), PayloadError>
    requires { IsKeptContent (table_of_image code.now) (content_of content.old) }
    ensures { OnOk result (IsKeptContent (table_of_image code.now) (content_of content.new)) }
{
    let delta = read_payload(alloc, code, content, payload)?;
    let Ok(()) = reserve(content, &delta) else {
        return Err(PayloadError::Memory);
    };
    apply(content, delta);
    Ok(())
}

/// The content to which the records of an area lead. `Memory` also where one says no changes, which none does of a store that is
/// refused as not at rest.
pub fn replayed(alloc: Global, code: &Image, bytes: &[u8]) -> Result<Content, Memory> {
    let mut content = Content::new(alloc);
    let mut records = Records::of(bytes);
    'records: for _ in 0..bytes.len() {
        let Some(payload) = records.step() else {
            return Ok(content);
        };
        match follow(alloc, code, &mut content, payload) {
            Ok(()) => {}
            Err(_) => return Err(Memory),
        }
    }
    Ok(content)
}
