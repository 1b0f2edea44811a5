//! What a client asks.
ghost use Rattle.std.specs.Prelude.{◌≡◌, IfOk};
ghost use Rattle.ob_wire.specs.declared.request.Op.TheVariants.{New, Call, Give};

use ob_base::{Duplicate, Items, Label, Memory, Mode, Text, both, copy_items, copy_option};
use std::alloc::Global;

/// What a line asks.
#[derive(Drop)]
pub enum Incoming {
    /// One request.
    One(Request),
    /// A batch of 1 to `MOST_REQUESTS` requests, in their order.
    Batch(Items<Request>),
}

/// A request.
#[derive(Drop)]
pub struct Request {
    /// The number that the reply repeats, from 0.
    pub id: i64,
    /// The client.
    pub who: Label,
    /// What the client wants done.
    pub op: Op,
}

/// What is to be done.
#[derive(Drop)]
pub enum Op {
    /// Make an object of the main contract; the client gets it under a new handle `into`.
    New {
        contract: Label,
        args: Items<Arg>,
        into: Option<Label>,
    },
    /// Run a transaction on the object of the handle `on`; what it gives comes under a new handle `into`.
    Call {
        on: Label,
        tx: Label,
        args: Items<Arg>,
        into: Option<Label>,
    },
    /// Remove the handle `on`.
    Disown {
        on: Label,
    },
    /// Give the client `to` a new handle `into` on the object of the handle `on`, in this mode.
    Give {
        on: Label,
        to: Label,
        into: Label,
        mode: Mode,
    },
    /// Show the object of the handle `on`.
    See {
        on: Label,
    },
    /// Show the place that owns the object of the handle `on`.
    Owner {
        on: Label,
    },
}

/// An argument.
#[derive(Drop)]
pub enum Arg {
    /// A whole number.
    Int(i64),
    /// A truth value.
    Bool(bool),
    /// A text.
    Text(Text),
    /// The object of the handle of this name.
    Handle(Label),
    /// Something that is an argument of no kind.
    Other,
}

impl Duplicate for Request {
    fn copy(&self, alloc: Global) -> Result<Request, Memory> {
        let (who, op) = both(self.who.copy(alloc), self.op.copy(alloc))?;
        Ok(Request {
            id: self.id,
            who,
            op,
        })
    }
}

fn copy_new(
    alloc: Global,
    contract: &Label,
    args: &Items<Arg>,
    into: &Option<Label>,
) -> Result<Op, Memory>
    ensures { IfOk result (λ op. op ≡ New contract.now args.now into.now) }
{
    let contract = contract.copy(alloc)?;
    let args = copy_items(alloc, args)?;
    let into = copy_option(alloc, into)?;
    Ok(Op::New {
        contract,
        args,
        into,
    })
}

fn copy_call(
    alloc: Global,
    on: &Label,
    tx: &Label,
    args: &Items<Arg>,
    into: &Option<Label>,
) -> Result<Op, Memory>
    ensures { IfOk result (λ op. op ≡ Call on.now tx.now args.now into.now) }
{
    let on = on.copy(alloc)?;
    let tx = tx.copy(alloc)?;
    let args = copy_items(alloc, args)?;
    let into = copy_option(alloc, into)?;
    Ok(Op::Call { on, tx, args, into })
}

fn copy_give(alloc: Global, on: &Label, to: &Label, into: &Label, mode: Mode) -> Result<Op, Memory>
    ensures { IfOk result (λ op. op ≡ Give on.now to.now into.now mode) }
{
    let on = on.copy(alloc)?;
    let to = to.copy(alloc)?;
    let into = into.copy(alloc)?;
    Ok(Op::Give { on, to, into, mode })
}

impl Duplicate for Op {
    fn copy(&self, alloc: Global) -> Result<Op, Memory> {
        match self {
            Op::New {
                contract,
                args,
                into,
            } => copy_new(alloc, contract, args, into),
            Op::Call { on, tx, args, into } => copy_call(alloc, on, tx, args, into),
            Op::Disown { on } => Ok(Op::Disown {
                on: on.copy(alloc)?,
            }),
            Op::Give { on, to, into, mode } => copy_give(alloc, on, to, into, *mode),
            Op::See { on } => Ok(Op::See {
                on: on.copy(alloc)?,
            }),
            Op::Owner { on } => Ok(Op::Owner {
                on: on.copy(alloc)?,
            }),
        }
    }
}

impl Duplicate for Arg {
    fn copy(&self, alloc: Global) -> Result<Arg, Memory> {
        match self {
            Arg::Int(number) => Ok(Arg::Int(*number)),
            Arg::Bool(truth) => Ok(Arg::Bool(*truth)),
            Arg::Text(text) => Ok(Arg::Text(text.copy(alloc)?)),
            Arg::Handle(name) => Ok(Arg::Handle(name.copy(alloc)?)),
            Arg::Other => Ok(Arg::Other),
        }
    }
}
