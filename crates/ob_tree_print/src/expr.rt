//! Expressions, with parentheses only where the tree needs them.
ghost use Rattle.std.specs.Prelude.{◌≡◌, true, OnOk, string_bytes};
ghost use Rattle.ob_tree.specs.Words.{word_of_bool};
ghost use Rattle.ob_tree.specs.Operators.{level};
ghost use Rattle.ob_tree.specs.ExprsView.{expr_of, exprs_of, call_of};
ghost use Rattle.ob_tree_print.specs.ExprTokens.{is_below, wrapped, tokens_of_receiver, tokens_of_expr, tokens_of_call, tokens_of_args};
ghost use Rattle.ob_tree_print.specs.Written.{written};

use crate::name::put_named;
use crate::operator::{OPERAND_PLACE, left_span, right_span};
use crate::token::{
    put_number, put_part, put_sign, put_sign_if, put_sign_unless, put_subject, put_text, put_word,
};
use ob_base::{Boxed, Memory};
use ob_lexer::{Sign, Word};
use ob_tree::{CallNode, Expr, Subject, level_of, sign_of_operator};

#[tactic(auto, using(ob_tree::specs::ExprsView::expr_views))]
fn level(expr: &Expr) -> u8
    ensures { result ≡ level (expr_of expr.now) }
{
    match expr {
        Expr::Number { .. } => 8,
        Expr::Text { .. } => 8,
        Expr::Bool { .. } => 8,
        Expr::Name { .. } => 8,
        Expr::This { .. } => 8,
        Expr::Unary { operator, .. } => level_of(*operator),
        Expr::Binary { operator, .. } => level_of(*operator),
        Expr::Call { .. } => 8,
        Expr::New { .. } => 8,
    }
}

#[tactic(auto, using(crate::specs::Written::writes))]
fn put_receiver(out: &mut String, receiver: &Option<Subject>) -> Result<(), Memory>
    ensures { OnOk result (string_bytes out.new ≡ written (string_bytes out.old) (tokens_of_receiver receiver.now)) }
{
    match receiver {
        None => Ok(()),
        Some(subject) => {
            put_subject(out, subject)?;
            put_sign(out, Sign::Dot)
        }
    }
}

fn word_of_bool(value: bool) -> Word
    ensures { result ≡ word_of_bool value }
{
    if value { Word::True } else { Word::False }
}

#[cycle(print_expr)]
#[tactic(auto, using(crate::specs::Written::turns))]
fn put_args(args: &[Expr], out: &mut String) -> Result<(), Memory>
    ensures { OnOk result (string_bytes out.new ≡ written (string_bytes out.old) (tokens_of_args true (exprs_of args.now))) }
{
    let mut first = true;
    for arg in args {
        put_sign_unless(out, first, Sign::Comma)?;
        put_expr(arg, out)?;
        first = false;
    }
    Ok(())
}

// An operand that binds looser than its place asks stands in parentheses.
#[cycle(print_expr)]
#[tactic(auto, using(crate::specs::Written::expr_prints))]
fn put_operand(operand: &Boxed<Expr>, out: &mut String, place: u8) -> Result<(), Memory>
    ensures { OnOk result (string_bytes out.new ≡ written (string_bytes out.old) (wrapped (is_below place (expr_of operand.now)) (tokens_of_expr (expr_of operand.now)))) }
{
    let wraps = level(operand.get()) < place;
    put_sign_if(out, wraps, Sign::OpenParen)?;
    put_expr(operand.get(), out)?;
    put_sign_if(out, wraps, Sign::CloseParen)
}

#[cycle(print_expr)]
#[tactic(auto, using(crate::specs::Written::expr_prints))]
fn put_call(call: &CallNode, out: &mut String) -> Result<(), Memory>
    ensures { OnOk result (string_bytes out.new ≡ written (string_bytes out.old) (tokens_of_call (call_of call.now))) }
{
    put_receiver(out, &call.receiver)?;
    put_part(out, &call.name)?;
    put_sign(out, Sign::OpenParen)?;
    put_args(call.args.as_slice(), out)?;
    put_sign(out, Sign::CloseParen)
}

/// An expression, with parentheses around those operands alone that need them.
#[cycle(print_expr)]
#[tactic(auto, using(crate::specs::Written::expr_prints))]
pub fn put_expr(expr: &Expr, out: &mut String) -> Result<(), Memory>
    ensures { OnOk result (string_bytes out.new ≡ written (string_bytes out.old) (tokens_of_expr (expr_of expr.now))) }
{
    match expr {
        Expr::Number { value, .. } => put_number(out, *value),
        Expr::Text { value, .. } => put_text(out, value),
        Expr::Bool { value, .. } => put_word(out, word_of_bool(*value)),
        Expr::Name { name, .. } => put_part(out, name),
        Expr::This { .. } => put_word(out, Word::This),
        Expr::Unary {
            operator,
            operand,
            ..
        } => {
            put_sign(out, sign_of_operator(*operator))?;
            put_operand(operand, out, OPERAND_PLACE)
        }
        Expr::Binary {
            operator,
            left,
            right,
            ..
        } => {
            put_operand(left, out, left_span(*operator))?;
            put_sign(out, sign_of_operator(*operator))?;
            put_operand(right, out, right_span(*operator))
        }
        Expr::Call { call, .. } => put_call(call, out),
        Expr::New { of, args, .. } => {
            put_word(out, Word::New)?;
            put_named(of, out)?;
            put_sign(out, Sign::OpenParen)?;
            put_args(args.as_slice(), out)?;
            put_sign(out, Sign::CloseParen)
        }
    }
}
