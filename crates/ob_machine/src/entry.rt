//! What a run enters.
use ob_base::{ContractId, Items, ObjectId, TxId};
use ob_heap::Value;

/// A call of a transaction or constructor from outside (this project's own).
#[derive(Drop)]
pub struct Entry {
    /// The object on which the transaction is called; a constructor has none.
    pub receiver: Option<ObjectId>,
    /// The contract whose body runs.
    pub contract: ContractId,
    /// The constructor or transaction.
    pub tx: TxId,
    /// The arguments, in the order of the parameters.
    pub args: Items<Value>,
    /// Whether the receiver is locked for the whole run.
    pub lock: bool,
}
