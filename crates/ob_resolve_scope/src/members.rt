//! What the members of a contract declare.
use crate::names::Names;
use ob_base::Items;
use ob_resolve_spec::InferredKind;

/// The states of a contract: a name has the number of the first that has it.
#[derive(Drop)]
pub struct States {
    /// The names of the states, each with the state's number.
    pub names: Names,
    /// How many states the contract names, a second one of one name too.
    pub count: usize,
}

/// A transaction without its body.
#[derive(Drop)]
pub struct Heading {
    /// Whether it is called on `this` alone.
    pub private: bool,
    /// The kinds of the parameters beside `this`.
    pub params: Items<InferredKind>,
    /// `InferredKind::Nothing` where there is no result.
    pub result: InferredKind,
}

/// The fields and transactions of a contract. A name has the number of the first that has it, which is its place in the
/// list after the names.
#[derive(Drop)]
pub struct Members {
    /// The names of the fields, those of states included.
    pub fields: Names,
    /// The kinds of the fields.
    pub kinds: Items<InferredKind>,
    /// The names of the transactions.
    pub transactions: Names,
    /// The transactions, each without its body.
    pub headings: Items<Heading>,
    /// The places of the transactions among the members of the contract.
    pub places: Items<usize>,
    /// The kinds of the parameters of the constructor, written or default.
    pub constructor: Items<InferredKind>,
}
