//! That emission keeps the meaning of each program: the machine runs a body's code to the same end as Silica steps run its terms.
#![tactic(auto)]

mod laws;

pub use laws::emission_keeps_meaning;
