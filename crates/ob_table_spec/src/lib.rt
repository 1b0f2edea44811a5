//! What later stages need of a class table and of its bodies, and the kinds of their parts.
#![tactic(auto)]
