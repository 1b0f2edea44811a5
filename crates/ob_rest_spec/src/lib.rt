//! What it is that a store is at rest: which of its places refer to an object, which one owns it, and in which ways an
//! object fails.
#![tactic(auto)]
