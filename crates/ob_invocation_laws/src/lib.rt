//! Laws of the invocation: what a request that isn't done leaves, which requests take units, that handles stand in the
//! order of their names, are found by them and stay few, and that a request that runs nothing keeps a store at rest.
#![tactic(auto)]

mod laws;

pub use laws::{
    handles_are_found_by_name, handles_carry_owners, handles_stay_in_order,
    only_done_requests_change_the_store, only_runs_take_units, requests_keep_handles_few,
    still_requests_keep_rest,
};
