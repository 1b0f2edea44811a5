//! Terms (Coblenz et al., TOPLAS 42(3), 2020, "Silica"; that they stand in lists and name places is this project's
//! own).
ghost use Rattle.std.specs.Prelude.{◌≡◌, IfOk};

use crate::place::{Constant, Given, Operand, Place};
use ob_base::{ContractId, Duplicate, Items, Memory, Perm, Span, StateId, TxId, both};
use ob_table::{BinaryOperator, UnaryOperator};
use std::alloc::Global;

/// An operator of an operation: `&&` and `||` are none, they are tests of a `bool`.
#[derive(Clone, Copy)]
pub enum SilicaOperator {
    /// An operator of one operand.
    Unary(UnaryOperator),
    /// An operator of two operands.
    Binary(BinaryOperator),
}

/// A form, and its span: that of those of its faults that aren't an operand's, a given field's or a
/// join's.
#[derive(Drop)]
#[cycle(term)]
pub struct Term {
    /// What the term does.
    pub form: Form,
    /// The span that its other faults are told at.
    pub span: Span,
}

/// What a term does.
#[derive(Drop)]
#[cycle(term)]
pub enum Form {
    /// Takes a unit of fuel.
    Unit,
    /// Sets a slot to a value of the text.
    Const {
        slot: u8,
        value: Constant,
    },
    /// Sets a slot to an operator's value. Of one operand, `b` equals `a`.
    Op {
        slot: u8,
        operator: SilicaOperator,
        a: Operand,
        b: Operand,
        /// The line of the operator, from 1.
        line: u32,
    },
    /// Copies a value that is no reference.
    Copy {
        to: Place,
        from: Operand,
    },
    /// Moves a reference.
    Move {
        to: Place,
        from: Operand,
        /// The contract of the slot `to`; `None` where `to` is a field.
        contract: Option<ContractId>,
    },
    /// Makes an object and runs its constructor.
    New {
        slot: u8,
        contract: ContractId,
        args: Items<Operand>,
    },
    /// Calls a transaction of another object.
    Call {
        /// Where the result goes, if the transaction has one.
        slot: Option<u8>,
        receiver: Operand,
        /// The declared contract or interface of the receiver.
        contract: ContractId,
        tx: TxId,
        args: Items<Operand>,
    },
    /// Calls a transaction of `this`.
    CallThis {
        /// Where the result goes, if the transaction has one.
        slot: Option<u8>,
        tx: TxId,
        args: Items<Operand>,
    },
    /// Changes the state of `this`.
    Change {
        state: StateId,
        given: Items<Given>,
    },
    /// Tests the state of an object.
    Test {
        place: Operand,
        /// A state of the place's contract or interface.
        state: StateId,
        then: Items<Term>,
        otherwise: Items<Term>,
        /// The span where the branches join.
        join: Span,
    },
    /// Tests a `bool`.
    If {
        a: Operand,
        then: Items<Term>,
        otherwise: Items<Term>,
        /// The span where the branches join.
        join: Span,
    },
    /// Runs its first part. Where the `bool` is then true its body is run, and the Loop once more; where it is false,
    /// what follows.
    Loop {
        first: Items<Term>,
        a: Operand,
        body: Items<Term>,
        /// The span of the body's end.
        end: Span,
    },
    /// Says what a place holds, and does nothing.
    Assert {
        place: Operand,
        perm: Perm,
    },
    /// Gives up ownership.
    Disown {
        place: Operand,
    },
    /// Ends a local variable or a temporary.
    Drop {
        slot: u8,
    },
    /// Ends the body, with the value of a place or with none.
    Return {
        place: Option<Operand>,
    },
    /// Ends the run and undoes it, with a `string`.
    Revert {
        text: Operand,
    },
    /// A staged field without its change of state after it, which has no step.
    BadRow,
}

#[cycle(copy_term)]
fn copy_terms(terms: &[Term], alloc: Global) -> Result<Items<Term>, Memory>
    ensures { IfOk result (λ copies. copies ≡ terms.now) }
{
    let mut copies = Items::new(alloc);
    for term in terms {
        copies.push(term.copy(alloc)?)?;
    }
    Ok(copies)
}

impl Duplicate for Term {
    #[cycle(copy_term)]
    fn copy(&self, alloc: Global) -> Result<Term, Memory> {
        Ok(Term {
            form: self.form.copy(alloc)?,
            span: self.span,
        })
    }
}

impl Duplicate for Form {
    #[cycle(copy_term)]
    fn copy(&self, alloc: Global) -> Result<Form, Memory> {
        match self {
            Form::Unit => Ok(Form::Unit),
            Form::Const { slot, value } => Ok(Form::Const {
                slot: *slot,
                value: value.copy(alloc)?,
            }),
            Form::Op {
                slot,
                operator,
                a,
                b,
                line,
            } => Ok(Form::Op {
                slot: *slot,
                operator: *operator,
                a: *a,
                b: *b,
                line: *line,
            }),
            Form::Copy { to, from } => Ok(Form::Copy {
                to: *to,
                from: *from,
            }),
            Form::Move { to, from, contract } => Ok(Form::Move {
                to: *to,
                from: *from,
                contract: *contract,
            }),
            Form::New {
                slot,
                contract,
                args,
            } => Ok(Form::New {
                slot: *slot,
                contract: *contract,
                args: Items::from_slice(alloc, args.as_slice())?,
            }),
            Form::Call {
                slot,
                receiver,
                contract,
                tx,
                args,
            } => Ok(Form::Call {
                slot: *slot,
                receiver: *receiver,
                contract: *contract,
                tx: *tx,
                args: Items::from_slice(alloc, args.as_slice())?,
            }),
            Form::CallThis { slot, tx, args } => Ok(Form::CallThis {
                slot: *slot,
                tx: *tx,
                args: Items::from_slice(alloc, args.as_slice())?,
            }),
            Form::Change { state, given } => Ok(Form::Change {
                state: *state,
                given: Items::from_slice(alloc, given.as_slice())?,
            }),
            Form::Test {
                place,
                state,
                then,
                otherwise,
                join,
            } => {
                let (then, otherwise) = both(
                    copy_terms(then.as_slice(), alloc),
                    copy_terms(otherwise.as_slice(), alloc),
                )?;
                Ok(Form::Test {
                    place: *place,
                    state: *state,
                    then,
                    otherwise,
                    join: *join,
                })
            }
            Form::If {
                a,
                then,
                otherwise,
                join,
            } => {
                let (then, otherwise) = both(
                    copy_terms(then.as_slice(), alloc),
                    copy_terms(otherwise.as_slice(), alloc),
                )?;
                Ok(Form::If {
                    a: *a,
                    then,
                    otherwise,
                    join: *join,
                })
            }
            Form::Loop {
                first,
                a,
                body,
                end,
            } => {
                let (first, body) = both(
                    copy_terms(first.as_slice(), alloc),
                    copy_terms(body.as_slice(), alloc),
                )?;
                Ok(Form::Loop {
                    first,
                    a: *a,
                    body,
                    end: *end,
                })
            }
            Form::Assert { place, perm } => Ok(Form::Assert {
                place: *place,
                perm: *perm,
            }),
            Form::Disown { place } => Ok(Form::Disown { place: *place }),
            Form::Drop { slot } => Ok(Form::Drop { slot: *slot }),
            Form::Return { place } => Ok(Form::Return { place: *place }),
            Form::Revert { text } => Ok(Form::Revert { text: *text }),
            Form::BadRow => Ok(Form::BadRow),
        }
    }
}
