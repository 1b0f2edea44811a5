//! What a request is answered with.
ghost use Rattle.std.specs.Prelude.{◌≡◌, IfOk};
ghost use Rattle.ob_wire.specs.declared.reply.Outcome.TheVariants as outcome;

use crate::refusal::Refusal;
use ob_base::{Duplicate, Items, Label, Memory, ObjectId, both, copy_items, copy_option};
use ob_heap::RcStr;
use std::alloc::Global;

/// The answer to a request, or to a line that asks none.
#[derive(Drop)]
pub struct Reply {
    /// The request's number; `None` where the line asks no request.
    pub id: Option<i64>,
    /// How it went: what was given, or why nothing was.
    pub answer: Answer,
}

/// How a request went.
#[derive(Drop)]
pub enum Answer {
    /// It was done, and gave this.
    Ok(Outcome),
    /// It was begun and undone.
    Abort(Cause),
    /// It wasn't begun.
    Refused(Refusal),
}

/// What a request gives.
#[derive(Drop)]
pub enum Outcome {
    /// No result; of an `owner`, that no place owns the object.
    Nothing,
    /// The number that a transaction returned.
    Int(i64),
    /// The truth value that a transaction returned.
    Bool(bool),
    /// The text that a transaction returned.
    Text(RcStr),
    /// The object that was made or returned.
    Object(ObjectId),
    /// The object that was to be seen.
    See(Shown),
    /// The owning handle: its client and its name.
    Handle(Label, Label),
    /// The owning field: its object and its name.
    Field(ObjectId, RcStr),
}

/// An object as it is shown.
#[derive(Drop)]
pub struct Shown {
    /// Its number.
    pub object: ObjectId,
    /// The name of its contract.
    pub contract: RcStr,
    /// The name of its state, where it is in one.
    pub state: Option<RcStr>,
    /// Whether it was shared.
    pub shared: bool,
    /// Whether it was disowned.
    pub disowned: bool,
    /// Its available fields, in any order.
    pub fields: Items<ShownField>,
}

/// A field as it is shown.
#[derive(Drop)]
pub struct ShownField {
    /// Its name.
    pub name: RcStr,
    /// What it holds.
    pub value: ShownValue,
}

/// What a field holds.
#[derive(Drop)]
pub enum ShownValue {
    /// A whole number.
    Int(i64),
    /// A truth value.
    Bool(bool),
    /// A text.
    Text(RcStr),
    /// A reference to the object of this number.
    Object(ObjectId),
}

/// Why a request was undone.
#[derive(Drop)]
pub enum Cause {
    /// `revert` was reached, with this text.
    Revert(RcStr),
    /// This object is locked, in progress, or in none of the states that are asked; the name of its state stands here where
    /// the entry of the request asked.
    State(ObjectId, Option<RcStr>),
    /// This object was called while a transaction on it was in progress.
    Reentry(ObjectId),
    /// A result left the range of numbers, at the operator on this line of the program, from 1.
    Overflow(u32),
    /// More units of fuel were needed than a request has.
    Fuel,
    /// There are as many objects as there may be.
    Full,
    /// What was changed has no room in the store: with its record the area would need so many bytes, and has only so many, and the
    /// store can't move into the other one.
    Room(u64, u64),
}

impl Duplicate for Reply {
    fn copy(&self, alloc: Global) -> Result<Reply, Memory> {
        Ok(Reply {
            id: self.id,
            answer: self.answer.copy(alloc)?,
        })
    }
}

impl Duplicate for Answer {
    fn copy(&self, alloc: Global) -> Result<Answer, Memory> {
        match self {
            Answer::Ok(outcome) => Ok(Answer::Ok(outcome.copy(alloc)?)),
            Answer::Abort(cause) => Ok(Answer::Abort(cause.copy(alloc)?)),
            Answer::Refused(refusal) => Ok(Answer::Refused(*refusal)),
        }
    }
}

fn copy_handle(alloc: Global, who: &Label, name: &Label) -> Result<Outcome, Memory>
    ensures { IfOk result (λ it. it ≡ outcome.Handle who.now name.now) }
{
    let (who, name) = both(who.copy(alloc), name.copy(alloc))?;
    Ok(Outcome::Handle(who, name))
}

impl Duplicate for Outcome {
    fn copy(&self, alloc: Global) -> Result<Outcome, Memory> {
        match self {
            Outcome::Nothing => Ok(Outcome::Nothing),
            Outcome::Int(number) => Ok(Outcome::Int(*number)),
            Outcome::Bool(truth) => Ok(Outcome::Bool(*truth)),
            Outcome::Text(text) => Ok(Outcome::Text(text.copy(alloc)?)),
            Outcome::Object(object) => Ok(Outcome::Object(*object)),
            Outcome::See(shown) => Ok(Outcome::See(shown.copy(alloc)?)),
            Outcome::Handle(who, name) => copy_handle(alloc, who, name),
            Outcome::Field(object, name) => Ok(Outcome::Field(*object, name.copy(alloc)?)),
        }
    }
}

impl Duplicate for Shown {
    fn copy(&self, alloc: Global) -> Result<Shown, Memory> {
        let contract = self.contract.copy(alloc)?;
        let state = copy_option(alloc, &self.state)?;
        let fields = copy_items(alloc, &self.fields)?;
        Ok(Shown {
            object: self.object,
            contract,
            state,
            shared: self.shared,
            disowned: self.disowned,
            fields,
        })
    }
}

impl Duplicate for ShownField {
    fn copy(&self, alloc: Global) -> Result<ShownField, Memory> {
        let (name, value) = both(self.name.copy(alloc), self.value.copy(alloc))?;
        Ok(ShownField { name, value })
    }
}

impl Duplicate for ShownValue {
    fn copy(&self, alloc: Global) -> Result<ShownValue, Memory> {
        match self {
            ShownValue::Int(number) => Ok(ShownValue::Int(*number)),
            ShownValue::Bool(truth) => Ok(ShownValue::Bool(*truth)),
            ShownValue::Text(text) => Ok(ShownValue::Text(text.copy(alloc)?)),
            ShownValue::Object(object) => Ok(ShownValue::Object(*object)),
        }
    }
}

impl Duplicate for Cause {
    fn copy(&self, alloc: Global) -> Result<Cause, Memory> {
        match self {
            Cause::Revert(text) => Ok(Cause::Revert(text.copy(alloc)?)),
            Cause::State(object, state) => Ok(Cause::State(*object, copy_option(alloc, state)?)),
            Cause::Reentry(object) => Ok(Cause::Reentry(*object)),
            Cause::Overflow(line) => Ok(Cause::Overflow(*line)),
            Cause::Fuel => Ok(Cause::Fuel),
            Cause::Full => Ok(Cause::Full),
            Cause::Room(need, size) => Ok(Cause::Room(*need, *size)),
        }
    }
}
