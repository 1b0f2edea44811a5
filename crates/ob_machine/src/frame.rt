//! Frames.
use ob_base::{ContractId, Items, ObjectId, TxId};
use ob_heap::Value;
use ob_machine_parts::entered::EnteredBy;

/// A body that runs, or that waits for one that it has called.
#[derive(Drop)]
pub struct Frame {
    /// The object that is `this`.
    pub(crate) this: ObjectId,
    /// The contract of the body.
    pub(crate) contract: ContractId,
    /// The number of the body in its contract.
    pub(crate) tx: TxId,
    /// The place of the next instruction.
    pub(crate) at: usize,
    /// The slots; one that isn't set holds `None`.
    pub(crate) slots: Items<Option<Value>>,
    /// How the frame was entered.
    pub(crate) entered: EnteredBy,
    /// Whether it is share-entered: `this` is Shared at the entry of the body that was called.
    pub(crate) share_entered: bool,
    /// The tests that it has noted, the newest last, each with the object that it has locked.
    pub(crate) tests: Items<Option<ObjectId>>,
    /// The slot of the frame around it that gets the result, or `NO_RESULT`.
    pub(crate) into: u8,
}
