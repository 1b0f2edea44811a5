//! Disks, what a crash at any moment may leave of them, writes that come to a disk for good, and disks in memory.
#![tactic(auto)]

mod bytes;
mod calls;
mod disk;
mod durable;
mod memory;
mod plan;
mod sure;

pub use calls::Calls;
pub use disk::Disk;
pub use durable::{durable_write, settle};
pub use memory::MemoryDisk;
pub use sure::SureDisk;
