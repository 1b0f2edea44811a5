//! The parts of expressions that need no other expression.
ghost use Rattle.std.specs.Prelude.{◌≡◌, Option, Some, None, IfOk, IfErr};
ghost use Rattle.ob_tree.specs.Exprs.{unary_expr, binary_expr, call_expr, call_with, span_of_expr};
ghost use Rattle.ob_tree.specs.ExprsView.{expr_of, exprs_of};
ghost use Rattle.ob_tree.specs.declared.name.Subject.TheVariants.{This};
ghost use Rattle.ob_parser_spec.specs.Rows.{joined};
ghost use Rattle.ob_parser_spec.specs.Readers.{read_token};
ghost use Rattle.ob_parser_spec.specs.Primaries.{moved, literal_if, name_with_tail};
ghost use Rattle.ob_parser_expressions.specs.Answering.{Answers};
ghost use Rattle.ob_parser_expressions.specs.ExprAnswers.{with_none, tail_of};
ghost use Rattle.ob_parser_expressions.specs.declared.halt.Halt.TheVariants.{Memory};

use crate::halt::Halt;
use crate::tokens::{joined, refused};
use ob_base::{Boxed, Duplicate, Items, Operator, Span};
use ob_lexer::{Token, TokenKind, Word};
use ob_tree::{CallNode, Expr, NamePart, Subject, span_of_expr};
use std::alloc::Global;

/// What stands after a name that begins a call.
#[derive(Drop)]
pub enum TailPart {
    /// `"." NAME "(" [expr {"," expr}] ")"`
    Method { name: NamePart, args: Items<Expr> },
    /// `"(" [expr {"," expr}] ")"`
    Applied { args: Items<Expr> },
}

/// A binary operator, its place, and what stands after it.
#[derive(Drop)]
pub struct Operation {
    /// Which operator it is.
    pub operator: Operator,
    /// The place of the operator.
    pub sign: Span,
    /// The operand after it.
    pub right: Expr,
}

// ---- places

/// The same expression at another place: with the parentheses around it.
pub fn moved(span: Span, expr: Expr) -> Expr
    ensures { expr_of result ≡ moved span (expr_of expr) }
{
    match expr {
        Expr::Number { value, .. } => Expr::Number { value, span },
        Expr::Text { value, .. } => Expr::Text { value, span },
        Expr::Bool { value, .. } => Expr::Bool { value, span },
        Expr::Name { name, .. } => Expr::Name { name, span },
        Expr::This { token, .. } => Expr::This { token, span },
        Expr::Unary {
            operator,
            sign,
            operand,
            ..
        } => Expr::Unary {
            operator,
            sign,
            operand,
            span,
        },
        Expr::Binary {
            operator,
            sign,
            left,
            right,
            ..
        } => Expr::Binary {
            operator,
            sign,
            left,
            right,
            span,
        },
        Expr::Call { call, .. } => Expr::Call { call, span },
        Expr::New { of, args, .. } => Expr::New { of, args, span },
    }
}

// ---- nodes

/// `left OPERATOR right`
pub fn binary(alloc: Global, left: Expr, operation: Operation) -> Result<Expr, Halt>
    ensures ok { IfOk result (λ e. expr_of e ≡ binary_expr operation.operator operation.sign (expr_of left) (expr_of operation.right)
        (joined (span_of_expr (expr_of left)) (span_of_expr (expr_of operation.right)))) }
    ensures err { IfErr result (λ e. e ≡ Memory) }
{
    let Operation {
        operator,
        sign,
        right,
    } = operation;
    let span = joined(span_of_expr(&left), span_of_expr(&right));
    match (Boxed::new(alloc, left), Boxed::new(alloc, right)) {
        (Ok(left), Ok(right)) => Ok(Expr::Binary {
            operator,
            sign,
            left,
            right,
            span,
        }),
        _ => Err(Halt::Memory),
    }
}

/// `OPERATOR operand`
pub fn negated(
    alloc: Global,
    operator: Operator,
    sign: Span,
    operand: Expr,
    span: Span,
) -> Result<Expr, Halt>
    ensures ok { IfOk result (λ e. expr_of e ≡ unary_expr operator sign (expr_of operand) span) }
    ensures err { IfErr result (λ e. e ≡ Memory) }
{
    let operand = Boxed::new(alloc, operand)?;
    Ok(Expr::Unary {
        operator,
        sign,
        operand,
        span,
    })
}

/// A call that begins with a name.
pub fn called(name: NamePart, tail: TailPart, span: Span) -> Expr
    ensures { with_none result ≡ name_with_tail ((name, Some (tail_of tail)), span) }
{
    match tail {
        TailPart::Method { name: method, args } => Expr::Call {
            call: CallNode {
                receiver: Some(Subject::Name(name)),
                name: method,
                args,
            },
            span,
        },
        TailPart::Applied { args } => Expr::Call {
            call: CallNode {
                receiver: None,
                name,
                args,
            },
            span,
        },
    }
}

/// A call of a method of `this`.
pub fn called_this(token: Span, name: NamePart, args: Items<Expr>, span: Span) -> Expr
    ensures { expr_of result ≡ call_expr (call_with (Some (This token)) name (exprs_of args)) span }
{
    Expr::Call {
        call: CallNode {
            receiver: Some(Subject::This(token)),
            name,
            args,
        },
        span,
    }
}

/// `NUMBER | STRING | "true" | "false"`
pub fn literal(alloc: Global, tokens: &[Token]) -> Result<(Expr, &[Token]), Halt>
    ensures { Answers with_none result (read_token literal_if tokens.now) }
{
    match tokens {
        [token, rest @ ..] => {
            let span = token.span;
            match &token.kind {
                TokenKind::Number(value) => Ok((
                    Expr::Number {
                        value: *value,
                        span,
                    },
                    rest,
                )),
                TokenKind::Text(value) => {
                    let value = value.copy(alloc)?;
                    Ok((Expr::Text { value, span }, rest))
                }
                TokenKind::Word(Word::True) => Ok((Expr::Bool { value: true, span }, rest)),
                TokenKind::Word(Word::False) => Ok((Expr::Bool { value: false, span }, rest)),
                _ => Err(refused(tokens)),
            }
        }
        [] => Err(refused(tokens)),
    }
}
