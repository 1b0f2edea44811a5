//! Rows of bytes with their count.
ghost use Rattle.std.specs.Prelude.{◌≡◌, ◌++◌, [], OnOk};
ghost use Rattle.ob_base.specs.Bytes.{u32_bytes};
ghost use Rattle.ob_store_payload.specs.Rows.{IsWithRow};

use ob_base::{Memory, put_u32};
use std::alloc::Global;

/// The bytes of rows, one after another, and how many rows they are.
#[derive(Drop)]
pub struct Rows {
    /// How many they are.
    pub count: u32,
    /// Their bytes.
    pub bytes: Vec<u8>,
}

impl Rows {
    /// No rows.
    pub fn new(alloc: Global) -> Rows
        ensures count { result.count ≡ 0 }
        ensures bytes { result.bytes.items ≡ [] }
    {
        Rows {
            count: 0,
            bytes: Vec::new(alloc),
        }
    }

    /// Adds a row. `Memory` also where there are as many as 32 bits count.
    pub fn add(&mut self, row: &[u8]) -> Result<(), Memory>
        ensures { OnOk result (IsWithRow row.now self.old self.new) }
    {
        if self.count == u32::MAX {
            return Err(Memory);
        }
        self.bytes.extend_from_slice(row)?;
        self.count += 1;
        Ok(())
    }

    /// Appends the count and the rows, or some of them where memory runs out.
    pub fn put(&self, out: &mut Vec<u8>) -> Result<(), Memory>
        ensures { OnOk result (out.new.items ≡ out.old.items ++ (u32_bytes self.now.count ++ self.now.bytes.items)) }
    {
        put_u32(out, self.count)?;
        out.extend_from_slice(self.bytes.as_slice())?;
        Ok(())
    }
}
