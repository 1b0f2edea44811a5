//! The line that is written for a store that is refused.
ghost use Rattle.std.specs.Prelude.{◌≡◌, IfOk, string_bytes};
ghost use Rattle.ob_run.specs.StoreLine.{store_line};
ghost use Rattle.ob_run.specs.StoreLine.{refusal_view};

use ob_base::{Memory, ObjectId};
use std::alloc::Global;

/// Why a store is refused.
#[derive(Clone, Copy)]
pub enum StoreRefusal {
    /// The disk holds no store: 611.
    NotStore,
    /// Behind the open gate at this offset stands no record, or one that says nothing: 612.
    Damaged(u64),
    /// The store is one of another program, whose image first differs at this offset: 615.
    OtherProgram(u64),
    /// The store isn't at rest: this is its first object that fails: 601.
    NotAtRest(ObjectId),
}

/// The line of a store that is refused: `store: NUMBER Name`, with the offset or the object, and a newline.
pub fn store_line(alloc: Global, refusal: StoreRefusal) -> Result<String, Memory>
    ensures { IfOk result (λ line. string_bytes line ≡ store_line (refusal_view refusal)) }
{
    let line = match refusal {
        StoreRefusal::NotStore => format!(in alloc; "store: 611 NotStore\n")?,
        StoreRefusal::Damaged(offset) => format!(in alloc; "store: 612 Damaged {offset}\n")?,
        StoreRefusal::OtherProgram(offset) => {
            format!(in alloc; "store: 615 OtherProgram {offset}\n")?
        }
        StoreRefusal::NotAtRest(object) => {
            let number = object.0;
            format!(in alloc; "store: 601 NotAtRest {number}\n")?
        }
    };
    Ok(line)
}
