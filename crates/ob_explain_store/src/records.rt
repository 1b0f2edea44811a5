//! The records of an area, from its bytes.

use ob_base::Fields;

/// Where a header has the serial.
const SERIAL_AT: usize = 5;

/// Where a header tells how many bytes the image has.
const LENGTH_AT: usize = 13;

/// Where the image begins.
const IMAGE_AT: usize = 17;

/// The bytes from a place on.
pub fn behind(bytes: &[u8], place: usize) -> &[u8] {
    &bytes[place.min(bytes.len())..]
}

/// How many bytes it is told that there are, and those that follow.
pub fn counted(bytes: &[u8]) -> Option<(usize, &[u8])> {
    let mut fields = Fields::new(bytes);
    match fields.u32() {
        Ok(count) => Some((count as usize, behind(bytes, 4))),
        Err(_) => None,
    }
}

// The bytes of which it is told how many there are, where a gate stands behind them.
fn sized(bytes: &[u8]) -> Option<&[u8]> {
    let (count, rest) = counted(bytes)?;
    if count < rest.len() {
        rest.get(..count)
    } else {
        None
    }
}

/// The image of an area.
pub fn image_of(bytes: &[u8]) -> Option<&[u8]> {
    sized(behind(bytes, LENGTH_AT))
}

// The serial that is told there; 0 where there are too few bytes, or it is below 1.
fn told_serial(bytes: &[u8]) -> i64 {
    let mut fields = Fields::new(behind(bytes, SERIAL_AT));
    match fields.i64() {
        Ok(serial) => serial.max(0),
        Err(_) => 0,
    }
}

/// Whether an area has more than one byte, and its gate is open.
pub fn is_open(bytes: &[u8]) -> bool {
    !matches!(bytes, [] | [_] | [0, ..])
}

/// Whether it begins as a header does.
pub fn is_marked(bytes: &[u8]) -> bool {
    matches!(bytes, [_, b'O', b'B', b'S', b'A', ..])
}

/// The serial of an area; 0 where it isn't open, or has no header.
pub fn serial_of(bytes: &[u8]) -> i64 {
    if is_open(bytes) && is_marked(bytes) && image_of(bytes).is_some() {
        told_serial(bytes)
    } else {
        0
    }
}

/// The payload of the record behind a gate, where it is whole.
pub fn payload_at(bytes: &[u8], gate: usize) -> Option<&[u8]> {
    sized(behind(bytes, gate.saturating_add(1)))
}

/// The records of an area, one after the other.
#[derive(Clone, Copy)]
pub struct Records<'a> {
    bytes: &'a [u8],
    /// The offset of the next gate.
    pub gate: usize,
    /// How many records stand before it.
    pub count: u64,
}

impl<'a> Records<'a> {
    /// Those of an area, from the first on.
    pub fn of(bytes: &'a [u8]) -> Records<'a> {
        let image = match image_of(bytes) {
            Some(image) => image.len(),
            None => 0,
        };
        Records {
            bytes,
            gate: IMAGE_AT.saturating_add(image),
            count: 0,
        }
    }

    // Whether the next gate is open.
    fn is_open(&self) -> bool {
        match self.bytes.get(self.gate) {
            Some(byte) => *byte != 0,
            None => false,
        }
    }

    /// The payload of the next record, if one stands there that is whole.
    pub fn step(&mut self) -> Option<&'a [u8]> {
        if !self.is_open() {
            return None;
        }
        let payload = payload_at(self.bytes, self.gate)?;
        self.gate = self.gate.saturating_add(5).saturating_add(payload.len());
        self.count = self.count.saturating_add(1);
        Some(payload)
    }

    /// Goes over all records up to this offset.
    pub fn pass(&mut self, end: usize) {
        for _ in 0..self.bytes.len() {
            if self.gate >= end || self.step().is_none() {
                return;
            }
        }
    }
}
