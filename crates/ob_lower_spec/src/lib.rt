//! The lowering relation: to which terms a body with numbers in place of names may be lowered.
#![tactic(auto)]
