//! Where the owner of an object stands in a store, and whether a store is at rest.
#![tactic(auto)]

mod counts;
mod declared;
mod error;
mod gathering;
mod index;
mod mode;
mod moving;
mod order;
mod owners;
mod places;
mod references;
mod rest;
mod seen;
mod spot;
mod tally;
mod values;
mod walking;

pub use counts::{StoreCounts, count_store};
pub use error::RestError;
pub use index::Index;
pub use owners::Owners;
pub use rest::check_at_rest;
pub use spot::Spot;
pub use values::available;
