//! Laws of the schedule of lanes: whatever events come it is serializable, and the turns of a batch end; for any rules whose runs are
//! local, and for requests by code. An object without an owner gets none by a request.
#![tactic(auto)]

mod laws;

pub use laws::{
    batches_end, batches_keep_their_order, conflicts_are_differences, objects_stay_unowned,
    requests_are_serializable, schedules_are_serializable,
};
