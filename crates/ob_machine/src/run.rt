//! The state of a run once it has entered a body.
use crate::frame::Frame;
use ob_base::Items;
use ob_machine_parts::guard::Guard;
use ob_machine_parts::units::Units;
use std::alloc::Global;

/// A run of code (this project's own). It has frames, locks and units of its own; the objects stand in a store's content with what
/// the run has changed of them laid over it.
#[derive(Drop)]
pub struct Run {
    /// Where new memory comes from.
    pub(crate) alloc: Global,
    /// The frame of the body that runs.
    pub(crate) top: Frame,
    /// The frames that wait, the newest last.
    pub(crate) below: Items<Frame>,
    /// The locks, and the transactions in progress.
    pub(crate) guard: Guard,
    /// The units left and taken.
    pub(crate) units: Units,
}
