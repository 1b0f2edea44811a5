//! What a disk tells at a moment, what its calls do to it, and what a crash at any moment may leave of it.
#![tactic(auto)]
