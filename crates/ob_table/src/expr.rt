//! Expressions with numbers in place of names (the Obsidian language documentation, "Expressions").
ghost use Rattle.std.specs.Prelude.{◌≡◌, IfOk};

use crate::operator::{BinaryOperator, LogicalOperator, UnaryOperator};
use crate::seen::SeenAt;
use ob_base::{Boxed, ContractId, Duplicate, Items, Memory, Span, Text, TxId, both};
use std::alloc::Global;

/// An expression. Its `span` runs from its first token to its last, the parentheses around it included.
#[derive(Drop)]
#[cycle(expr)]
pub enum ResolvedExpr {
    /// A number of the text, from 0 to 2^63 - 1.
    Number {
        value: i64,
        span: Span,
    },
    /// A string, with its escapes read.
    Text {
        value: Text,
        span: Span,
    },
    /// `true` or `false`
    Bool {
        value: bool,
        span: Span,
    },
    /// The value of a name, or `this`.
    Seen {
        seen: SeenAt,
        span: Span,
    },
    /// An operator before its operand, as `!a`.
    Unary {
        operator: UnaryOperator,
        /// The place of the operator.
        sign: Span,
        operand: Boxed<ResolvedExpr>,
        span: Span,
    },
    /// An operator between its operands, as `a + b`.
    Binary {
        operator: BinaryOperator,
        /// The place of the operator.
        sign: Span,
        left: Boxed<ResolvedExpr>,
        right: Boxed<ResolvedExpr>,
        span: Span,
    },
    /// `a && b` or `a || b`
    Logical {
        operator: LogicalOperator,
        /// The place of the operator.
        sign: Span,
        left: Boxed<ResolvedExpr>,
        right: Boxed<ResolvedExpr>,
        span: Span,
    },
    /// `x.t(args)` or `t(args)`
    Call {
        call: ResolvedCall,
        span: Span,
    },
    /// `new C(args)`
    New {
        contract: ContractId,
        args: Items<ResolvedExpr>,
        span: Span,
    },
}

/// A call of a transaction.
#[derive(Drop)]
#[cycle(expr)]
pub struct ResolvedCall {
    /// The name before the dot; `None` for `this`, written or not.
    pub receiver: Option<SeenAt>,
    /// The declared contract or interface of the receiver.
    pub contract: ContractId,
    /// The transaction, by its number in that contract or interface.
    pub tx: TxId,
    /// The place of the transaction's name.
    pub name: Span,
    /// The arguments, from left to right.
    pub args: Items<ResolvedExpr>,
}

#[cycle(copy_expr)]
fn copy_args(args: &[ResolvedExpr], alloc: Global) -> Result<Items<ResolvedExpr>, Memory>
    ensures { IfOk result (λ copies. copies ≡ args.now) }
{
    let mut copies = Items::new(alloc);
    for arg in args {
        copies.push(arg.copy(alloc)?)?;
    }
    Ok(copies)
}

#[cycle(copy_expr)]
fn copy_boxed(expr: &Boxed<ResolvedExpr>, alloc: Global) -> Result<Boxed<ResolvedExpr>, Memory>
    ensures { IfOk result (λ copy. copy ≡ expr.now) }
{
    Ok(Boxed::new(alloc, expr.get().copy(alloc)?)?)
}

impl Duplicate for ResolvedCall {
    #[cycle(copy_expr)]
    fn copy(&self, alloc: Global) -> Result<ResolvedCall, Memory> {
        Ok(ResolvedCall {
            receiver: self.receiver,
            contract: self.contract,
            tx: self.tx,
            name: self.name,
            args: copy_args(self.args.as_slice(), alloc)?,
        })
    }
}

impl Duplicate for ResolvedExpr {
    #[cycle(copy_expr)]
    fn copy(&self, alloc: Global) -> Result<ResolvedExpr, Memory> {
        match self {
            ResolvedExpr::Number { value, span } => Ok(ResolvedExpr::Number {
                value: *value,
                span: *span,
            }),
            ResolvedExpr::Text { value, span } => Ok(ResolvedExpr::Text {
                value: value.copy(alloc)?,
                span: *span,
            }),
            ResolvedExpr::Bool { value, span } => Ok(ResolvedExpr::Bool {
                value: *value,
                span: *span,
            }),
            ResolvedExpr::Seen { seen, span } => Ok(ResolvedExpr::Seen {
                seen: *seen,
                span: *span,
            }),
            ResolvedExpr::Unary {
                operator,
                sign,
                operand,
                span,
            } => Ok(ResolvedExpr::Unary {
                operator: *operator,
                sign: *sign,
                operand: copy_boxed(operand, alloc)?,
                span: *span,
            }),
            ResolvedExpr::Binary {
                operator,
                sign,
                left,
                right,
                span,
            } => {
                let (left, right) = both(copy_boxed(left, alloc), copy_boxed(right, alloc))?;
                Ok(ResolvedExpr::Binary {
                    operator: *operator,
                    sign: *sign,
                    left,
                    right,
                    span: *span,
                })
            }
            ResolvedExpr::Logical {
                operator,
                sign,
                left,
                right,
                span,
            } => {
                let (left, right) = both(copy_boxed(left, alloc), copy_boxed(right, alloc))?;
                Ok(ResolvedExpr::Logical {
                    operator: *operator,
                    sign: *sign,
                    left,
                    right,
                    span: *span,
                })
            }
            ResolvedExpr::Call { call, span } => Ok(ResolvedExpr::Call {
                call: call.copy(alloc)?,
                span: *span,
            }),
            ResolvedExpr::New {
                contract,
                args,
                span,
            } => Ok(ResolvedExpr::New {
                contract: *contract,
                args: copy_args(args.as_slice(), alloc)?,
                span: *span,
            }),
        }
    }
}
