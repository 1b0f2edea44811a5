//! What a store holds, the world that a run works on, and what the body of a transaction does in it: the meaning of its
//! expressions, its statements and its calls.
#![tactic(auto)]
