//! Silica steps: what a term does, one small step after another.
#![tactic(auto)]
