//! What a `new` and a `call` from outside mean by code, and the invocation by it: what a request enters, the machine runs.
#![tactic(auto)]

mod laws;

pub use laws::requests_run;
