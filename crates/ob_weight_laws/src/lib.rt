//! What the image of a program weighs, counted on its class table, and how bodies stand in the order of the table.
#![tactic(auto)]

mod laws;

pub use laws::{image_has_spelling, image_within_weight};
