//! What a delta says as a payload, what differs between two stores, and all that one holds.
#![tactic(auto)]

mod laws;

pub use laws::{
    all_is_said, all_is_what_differs, all_leads, changes_are_made_as_deltas, changes_keep_contents,
    deltas_say_changes, differences_are_said, news_are_differences,
};
