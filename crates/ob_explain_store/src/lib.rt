//! What a person is told of the files and the store of a run: the call that failed, with its cure; what a store holds as it is
//! opened; and why one is refused. Nothing is claimed of what is said but that it has a bound.
#![tactic(auto)]

mod areas;
mod causes;
mod comparing;
mod failing;
mod lines;
mod opening;
mod places;
mod records;
mod refusing;
mod replaying;
mod resting;
mod watching;

pub use areas::{AreaAt, Areas};
pub use causes::{cause_of_disk, cause_of_file, cause_of_stream};
pub use comparing::explain_other_program;
pub use failing::{explain_disk, explain_file, explain_input, explain_output};
pub use opening::{Opening, explain_audited, explain_opening};
pub use refusing::{explain_damaged, explain_not_store};
pub use resting::explain_not_at_rest;
pub use watching::{Front, Shown, Watched};
