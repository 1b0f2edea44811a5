//! What a step comes to.
use ob_base::{ObjectId, StateId};
use ob_heap::{RcStr, Value};

/// Why a run aborts (this project's own).
#[derive(Drop)]
pub enum Cause {
    /// By the program, with this text.
    Revert(RcStr),
    /// By the state of this object; by which state, where a request finds it outside the declared ones.
    State(ObjectId, Option<StateId>),
    /// A call of this object, which has a transaction in progress.
    Reentry(ObjectId),
    /// A result that is no `int`, of an operator on this line of the program's text, from 1.
    Overflow(u32),
    /// No unit is left.
    Fuel,
    /// There are as many objects as there may be.
    Full,
}

/// How far a run has come.
#[derive(Drop)]
pub enum Progress {
    /// It has ended, with its result if it has one.
    Finished(Option<Value>),
    /// It has aborted.
    Aborted(Cause),
    /// It goes on.
    Going,
}
