//! What a request would enter.
use ob_base::{ContractId, Items, Label, Mode, TxId};
use ob_code::BodyCode;
use ob_heap::Handle;
use ob_wire::Arg;
use std::marker::Model;

/// What is entered, before it is asked whether it may be: a constructor, or a transaction of a receiver, with what the request has.
#[derive(Drop)]
pub struct Target<'a> {
    /// The client.
    pub who: &'a Label,
    /// The contract whose body runs.
    pub contract: ContractId,
    /// The transaction; 0 for a constructor, which has no number yet.
    pub tx: TxId,
    /// The body.
    pub body: &'a BodyCode,
    /// The client's handle on the receiver, with its name; a constructor has none.
    pub receiver: Option<(&'a Label, Handle)>,
    /// The mode of the reference that is given, if one is.
    pub given: Option<Mode>,
    /// The arguments.
    pub args: &'a Items<Arg>,
    /// The name for the handle on what is given, if the request has one.
    pub into: &'a Option<Label>,
}

impl<'a> Model for Target<'a> {
    ghost use Rattle.std.specs.Prelude.{option_map};
    ghost use Rattle.ob_invocation_spec.specs.Entries.{Entry};
    ghost use Rattle.ob_exec_entries.specs.Targets.{entry_seen};

    ghost Value = { Entry };

    ghost view = { λ t. entry_seen t.who.now t.contract t.tx t.body.now (option_map (λ r. (r.0.now, r.1)) t.receiver) t.given t.args.now t.into.now };
}
