//! What the names of a program denote: its contracts and what they declare, by name, and the variables of a body.
#![tactic(auto)]

mod around;
mod asked;
mod declared;
mod kinds;
mod members;
mod names;
mod scope;
mod types;

pub use around::AroundBody;
pub use asked::Asked;
pub use declared::Declared;
pub use kinds::{
    called_transaction, constructed, kind_of, kind_of_receiver, kind_of_subject, kind_of_this,
    kind_of_variable,
};
pub use members::{Heading, Members, States};
pub use names::Names;
pub use scope::{Scope, scope_of_params};
pub use types::Types;
