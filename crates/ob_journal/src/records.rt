//! What an area says, read from its bytes.
ghost use Rattle.std.specs.Prelude.{◌≡◌, ◌+◌, ◌<◌, ◌≤◌, ◌^◌, ℕ, List, [], length, IfOk, MatchOption, IfSome};
ghost use Rattle.ob_journal_spec.specs.Areas.{Records};
ghost use Rattle.ob_journal.specs.Surveys.{IsFirst, EndsAs, Surveys};

use crate::error::AreaFault;
use crate::parts::{behind, header, record_behind, sized};
use ob_base::Memory;
use std::alloc::Global;

/// The payload of the first of some records, and the others.
pub fn first_record(records: &[u8]) -> Option<(&[u8], &[u8])>
    ensures first { (payloads : List (List ℕ)) → Records payloads records.now →
        MatchOption result (payloads ≡ []) (λ x. IsFirst x.0.now x.1.now payloads) }
    ensures shorter { IfSome result (λ x. length x.1.now < length records.now) }
{
    if records.is_empty() {
        return None;
    }
    let Some((payload, rest)) = sized(behind(records, 1)) else {
        return None;
    };
    Some((payload, rest))
}

/// What an area says: its serial, its image, and where the gate behind its records is.
#[derive(Drop)]
pub struct ReadArea {
    /// The serial.
    pub serial: i64,
    /// The bytes of the image.
    pub image: Vec<u8>,
    /// The offset of the next gate.
    pub gate: usize,
}

/// Where records end.
#[derive(Clone, Copy)]
pub enum RecordsEnd {
    /// At this closed gate.
    Closed(usize),
    /// At this open gate, behind which no record stands.
    Unreadable(usize),
}

// Where the records end that begin here.
fn records_end(bytes: &[u8]) -> RecordsEnd
    requires some { 0 < length bytes.now }
    requires small { length bytes.now ≤ 2 ^ 31 }
    ensures { EndsAs result bytes.now }
{
    let mut gate = 0;
    'records: while bytes[gate] != 0 {
        let Some(payload) = record_behind(behind(bytes, gate + 1)) else {
            return RecordsEnd::Unreadable(gate);
        };
        gate += 5 + payload.len();
    }
    RecordsEnd::Closed(gate)
}

/// The same bytes in memory of their own.
pub fn copied(alloc: Global, bytes: &[u8]) -> Result<Vec<u8>, Memory>
    ensures { IfOk result (λ copy. copy.items ≡ bytes.now) }
{
    let copy = bytes.to_vec(alloc)?;
    Ok(copy)
}

/// What an area says, or why it says nothing. Its records aren't copied.
pub fn survey_area(alloc: Global, bytes: &[u8]) -> Result<ReadArea, AreaFault>
    requires { length bytes.now ≤ 2 ^ 31 }
    ensures { Surveys result bytes.now }
{
    if bytes.is_empty() || bytes[0] == 0 {
        return Err(AreaFault::NotStore);
    }
    let Some((serial, image)) = header(bytes) else {
        return Err(AreaFault::NotStore);
    };
    let first = 17 + image.len();
    let gate = match records_end(behind(bytes, first)) {
        RecordsEnd::Closed(gate) => first + gate,
        RecordsEnd::Unreadable(gate) => return Err(AreaFault::Damaged((first + gate) as u64)),
    };
    let Ok(image) = copied(alloc, image) else {
        return Err(AreaFault::Memory);
    };
    Ok(ReadArea {
        serial,
        image,
        gate,
    })
}
