//! What lanes keep of a batch and of a request that is under way.
use crate::lane_run::LaneRun;
use ob_wire::Request;

/// A request of the batch.
#[derive(Drop)]
pub struct BatchRequest {
    /// The request.
    pub request: Request,
    /// Whether it is answered.
    pub is_done: bool,
}

/// A lane that is busy.
#[derive(Drop)]
pub struct Busy {
    /// The number of its request in the batch.
    pub number: usize,
    /// Its run, once it was sliced since it was opened.
    pub run: Option<LaneRun>,
}
