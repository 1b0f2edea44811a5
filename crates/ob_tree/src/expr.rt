//! Expressions as they are written (the Obsidian language documentation, "Expressions").
ghost use Rattle.std.specs.Prelude.{◌≡◌, IfOk};
ghost use Rattle.ob_tree.specs.Exprs.{span_of_expr};
ghost use Rattle.ob_tree.specs.ExprsView.{expr_of};

use crate::name::{NamePart, NamedNode, Subject};
use ob_base::{Boxed, Duplicate, Items, Memory, Operator, Span, Text, both, copy_option};
use std::alloc::Global;

/// An expression. Its `span` runs from its first token to its last, the parentheses around it included.
#[derive(Debug, Drop)]
#[cycle(expr)]
pub enum Expr {
    /// A number, from 0 to 2^63 - 1.
    Number {
        value: i64,
        span: Span,
    },
    /// A string, with its escapes read.
    Text {
        value: Text,
        span: Span,
    },
    /// `true` or `false`
    Bool {
        value: bool,
        span: Span,
    },
    /// A name, as that of a field, a parameter or a local variable.
    Name {
        name: NamePart,
        span: Span,
    },
    /// `this`
    This {
        /// The place of the word `this` alone.
        token: Span,
        span: Span,
    },
    /// An operator before its operand, as `!a`.
    Unary {
        operator: Operator,
        /// The place of the operator.
        sign: Span,
        operand: Boxed<Expr>,
        span: Span,
    },
    /// An operator between its operands, as `a + b`.
    Binary {
        operator: Operator,
        /// The place of the operator.
        sign: Span,
        left: Boxed<Expr>,
        right: Boxed<Expr>,
        span: Span,
    },
    /// `x.t(args)` or `t(args)`
    Call {
        call: CallNode,
        span: Span,
    },
    /// `new C(args)`
    New {
        of: NamedNode,
        args: Items<Expr>,
        span: Span,
    },
}

/// A call of a transaction, `x.t(args)` or `t(args)`.
#[derive(Debug, Drop)]
#[cycle(expr)]
pub struct CallNode {
    /// What stands before the dot, if there is a dot.
    pub receiver: Option<Subject>,
    /// The name of the transaction.
    pub name: NamePart,
    /// The arguments, from left to right.
    pub args: Items<Expr>,
}

/// The place of an expression.
pub fn span_of_expr(expr: &Expr) -> Span
    ensures { result ≡ span_of_expr (expr_of expr.now) }
{
    match expr {
        Expr::Number { span, .. } => *span,
        Expr::Text { span, .. } => *span,
        Expr::Bool { span, .. } => *span,
        Expr::Name { span, .. } => *span,
        Expr::This { span, .. } => *span,
        Expr::Unary { span, .. } => *span,
        Expr::Binary { span, .. } => *span,
        Expr::Call { span, .. } => *span,
        Expr::New { span, .. } => *span,
    }
}

#[cycle(copy_expr)]
fn copy_args(args: &[Expr], alloc: Global) -> Result<Items<Expr>, Memory>
    ensures { IfOk result (λ copies. copies ≡ args.now) }
{
    let mut copies = Items::new(alloc);
    for arg in args {
        copies.push(arg.copy(alloc)?)?;
    }
    Ok(copies)
}

#[cycle(copy_expr)]
fn copy_boxed(expr: &Boxed<Expr>, alloc: Global) -> Result<Boxed<Expr>, Memory>
    ensures { IfOk result (λ copy. copy ≡ expr.now) }
{
    Ok(Boxed::new(alloc, expr.get().copy(alloc)?)?)
}

impl Duplicate for CallNode {
    #[cycle(copy_expr)]
    fn copy(&self, alloc: Global) -> Result<CallNode, Memory> {
        let ((receiver, name), args) = both(
            both(copy_option(alloc, &self.receiver), self.name.copy(alloc)),
            copy_args(self.args.as_slice(), alloc),
        )?;
        Ok(CallNode {
            receiver,
            name,
            args,
        })
    }
}

impl Duplicate for Expr {
    #[cycle(copy_expr)]
    fn copy(&self, alloc: Global) -> Result<Expr, Memory> {
        match self {
            Expr::Number { value, span } => Ok(Expr::Number {
                value: *value,
                span: *span,
            }),
            Expr::Text { value, span } => Ok(Expr::Text {
                value: value.copy(alloc)?,
                span: *span,
            }),
            Expr::Bool { value, span } => Ok(Expr::Bool {
                value: *value,
                span: *span,
            }),
            Expr::Name { name, span } => Ok(Expr::Name {
                name: name.copy(alloc)?,
                span: *span,
            }),
            Expr::This { token, span } => Ok(Expr::This {
                token: *token,
                span: *span,
            }),
            Expr::Unary {
                operator,
                sign,
                operand,
                span,
            } => Ok(Expr::Unary {
                operator: *operator,
                sign: *sign,
                operand: copy_boxed(operand, alloc)?,
                span: *span,
            }),
            Expr::Binary {
                operator,
                sign,
                left,
                right,
                span,
            } => {
                let (left, right) = both(copy_boxed(left, alloc), copy_boxed(right, alloc))?;
                Ok(Expr::Binary {
                    operator: *operator,
                    sign: *sign,
                    left,
                    right,
                    span: *span,
                })
            }
            Expr::Call { call, span } => Ok(Expr::Call {
                call: call.copy(alloc)?,
                span: *span,
            }),
            Expr::New { of, args, span } => {
                let (of, args) = both(of.copy(alloc), copy_args(args.as_slice(), alloc))?;
                Ok(Expr::New {
                    of,
                    args,
                    span: *span,
                })
            }
        }
    }
}
