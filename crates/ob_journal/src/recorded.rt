//! The records that were read of an area.
ghost use Rattle.std.specs.Prelude.{◌≤◌, ◌^◌, vec_len};

/// The bytes of an area as they were read, with its records among them.
#[derive(Drop)]
pub struct Recorded {
    pub(crate) bytes: Vec<u8>,
    start: usize,
    end: usize,
    ghost ordered: { start ≤ end },
    ghost within: { end ≤ vec_len bytes },
    ghost small: { vec_len bytes ≤ 2 ^ 31 },
}

impl Recorded {
    ghost use Rattle.std.specs.Prelude.{◌≡◌, ◌-◌, length, take, drop};
    ghost use Rattle.ob_journal.specs.Surveys.{record_bytes};

    /// The records from one offset up to another.
    pub fn new(bytes: Vec<u8>, start: usize, end: usize) -> Self
        requires ordered { start ≤ end }
        requires within { end ≤ length bytes.items }
        requires small { length bytes.items ≤ 2 ^ 31 }
        ensures { record_bytes result ≡ take (end - start) (drop start bytes.items) }
    {
        Recorded { bytes, start, end }
    }

    /// The bytes of the records, each with its gate before it.
    pub fn records(&self) -> &[u8]
        ensures value { result.now ≡ record_bytes self.now }
        ensures small { length result.now ≤ 2 ^ 31 }
    {
        &self.bytes[self.start..self.end]
    }
}
