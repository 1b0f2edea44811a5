//! What a request enters.
use ob_base::{ContractId, Items, Label, Memory, Mode, ObjectId, TxId};
use ob_code::PermCode;
use ob_heap::{Handle, Value};
use ob_wire::Refusal;

/// The use of a client's handle for a receiver or an argument (this project's own).
#[derive(Drop)]
pub struct HandleUse {
    /// The client's name for the handle.
    pub name: Label,
    /// The handle.
    pub handle: Handle,
    /// The contract or interface that is declared.
    pub contract: ContractId,
    /// The permission at the entry.
    pub entry: PermCode,
    /// The permission at the exit.
    pub exit: PermCode,
}

/// The constructor or transaction that a request enters, with what comes into it (this project's own).
#[derive(Drop)]
pub struct Entered {
    /// The object on which the transaction is called; a constructor has none.
    pub receiver: Option<ObjectId>,
    /// The contract whose body runs.
    pub contract: ContractId,
    /// The transaction. A constructor has no number yet, and 0 stands here.
    pub tx: TxId,
    /// The arguments, in the order of the parameters.
    pub args: Items<Value>,
    /// Whether the receiver is locked for the whole run.
    pub lock: bool,
    /// The uses of handles: for the receiver, and then for the arguments in their order.
    pub uses: Items<HandleUse>,
    /// The mode of the reference that it gives, if it gives one.
    pub given: Option<Mode>,
}

/// Why a request enters nothing.
#[derive(Clone, Copy)]
pub enum EnterError {
    /// It is refused.
    Refused(Refusal),
    /// Memory ran out.
    Memory,
}

impl From<Memory> for EnterError {
    ghost use Rattle.std.specs.Prelude.{◌≡◌};
    ghost use Rattle.ob_exec_entries.specs.declared.entered.EnterError.TheVariants.{Memory};

    ghost from_gives = { λ _ e. e ≡ Memory };

    fn from(_: Memory) -> EnterError {
        EnterError::Memory
    }
}
