//! The edge to the real world: sources, sinks, files and disks over std.
#![tactic(auto)]

mod adapters;
mod again;
mod disk;
mod failure;
mod ranges;
mod std_file;
mod system;
mod taking;
mod waiting;

pub use adapters::{StdFiles, StdSink, StdSource};
pub use disk::FileDisk;
pub use failure::{Failure, SystemCall};
pub use std_file::StdFile;
pub use system::{Access, Identity, SystemFile};
pub use waiting::{WaitingInput, WaitingOutput};
