//! Laws of permissions, of kinds, and of contracts with their interfaces: which permission serves where another is
//! said, what is said of it for another kind, and what an object runs for a declared transaction.
#![tactic(auto)]

mod laws;

pub use laws::{
    conversion_laws, kinds_serve_onward, objects_answer, serving_laws, states_are_seen,
    tables_promise,
};
