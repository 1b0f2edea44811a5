//! Operators.
ghost use Rattle.std.specs.Prelude.{◌≡◌};
ghost use Rattle.ob_heap_spec.specs.Values.{int_value, bool_value, text_value};
ghost use Rattle.ob_heap_spec.specs.Operations.{before};
ghost use Rattle.ob_table.specs.declared.operator.UnaryOperator.TheVariants as unary;
ghost use Rattle.ob_base.specs.declared.operator.Operator.TheVariants as operator;
ghost use Rattle.ob_heap.specs.Plain.{value_of};
ghost use Rattle.ob_machine_steps.specs.Straight.{of_two, operation};
ghost use Rattle.ob_machine_parts.specs.Giving.{Gives};
ghost use Rattle.ob_machine_parts.specs.Operating.{operated_of};
ghost use Rattle.ob_machine_parts.specs.Shown.{slots_of};

use crate::off::Off;
use crate::slots::value;
use ob_base::{Items, Operator};
use ob_heap::Value;

/// What an operation comes to.
#[derive(Drop)]
pub enum Operated {
    /// A value.
    Value(Value),
    /// A result that is no `int`, or none.
    Overflows,
    /// Nothing, since the operands have other kinds.
    OtherKinds,
}

fn quotient(x: i64, y: i64) -> Operated
    ensures { operated_of result ≡ of_two operator.Div (int_value x) (int_value y) }
{
    if y == 0 {
        return Operated::Overflows;
    }
    match x.checked_div(y) {
        Some(quotient) => Operated::Value(Value::Int(quotient)),
        None => Operated::Overflows,
    }
}

fn remainder(x: i64, y: i64) -> Operated
    ensures { operated_of result ≡ of_two operator.Rem (int_value x) (int_value y) }
{
    if y == 0 {
        return Operated::Overflows;
    }
    if y == -1 {
        return Operated::Value(Value::Int(0));
    }
    Operated::Value(Value::Int(x % y))
}

#[inline(always)]
fn of_ints(operator: Operator, x: i64, y: i64) -> Operated
    ensures { operated_of result ≡ of_two operator (int_value x) (int_value y) }
{
    match operator {
        Operator::Add => match x.checked_add(y) {
            Some(sum) => Operated::Value(Value::Int(sum)),
            None => Operated::Overflows,
        },
        Operator::Sub => match x.checked_sub(y) {
            Some(difference) => Operated::Value(Value::Int(difference)),
            None => Operated::Overflows,
        },
        Operator::Mul => match x.checked_mul(y) {
            Some(product) => Operated::Value(Value::Int(product)),
            None => Operated::Overflows,
        },
        Operator::Div => quotient(x, y),
        Operator::Rem => remainder(x, y),
        Operator::Equal => Operated::Value(Value::Bool(x == y)),
        Operator::NotEqual => Operated::Value(Value::Bool(x != y)),
        Operator::Less => Operated::Value(Value::Bool(x < y)),
        Operator::LessEqual => Operated::Value(Value::Bool(x <= y)),
        Operator::Greater => Operated::Value(Value::Bool(x > y)),
        Operator::GreaterEqual => Operated::Value(Value::Bool(x >= y)),
        Operator::And | Operator::Or | Operator::Not | Operator::Negate => Operated::OtherKinds,
    }
}

fn of_bools(operator: Operator, x: bool, y: bool) -> Operated
    ensures { operated_of result ≡ of_two operator (bool_value x) (bool_value y) }
{
    match operator {
        Operator::Equal => Operated::Value(Value::Bool(x == y)),
        Operator::NotEqual => Operated::Value(Value::Bool(x != y)),
        Operator::And => Operated::Value(Value::Bool(x && y)),
        Operator::Or => Operated::Value(Value::Bool(x || y)),
        _ => Operated::OtherKinds,
    }
}

fn of_texts(operator: Operator, x: &str, y: &str) -> Operated
    ensures { operated_of result ≡ of_two operator (text_value x.now) (text_value y.now) }
{
    match operator {
        Operator::Equal => Operated::Value(Value::Bool(x == y)),
        Operator::NotEqual => Operated::Value(Value::Bool(x != y)),
        _ => Operated::OtherKinds,
    }
}

// What an operator of two operands gives of them.
#[inline(always)]
fn of_two(operator: Operator, x: &Value, y: &Value) -> Operated
    ensures { operated_of result ≡ of_two operator (value_of x.now) (value_of y.now) }
{
    match (x, y) {
        (Value::Int(x), Value::Int(y)) => of_ints(operator, *x, *y),
        (Value::Bool(x), Value::Bool(y)) => of_bools(operator, *x, *y),
        (Value::Text(x), Value::Text(y)) => of_texts(operator, x.as_str(), y.as_str()),
        _ => Operated::OtherKinds,
    }
}

// What `!` gives of its operand.
fn negated_truth(x: &Value) -> Operated
    ensures { operated_of result ≡ before unary.Not (value_of x.now) }
{
    match x {
        Value::Bool(truth) => Operated::Value(Value::Bool(!*truth)),
        _ => Operated::OtherKinds,
    }
}

// What `-` before its operand gives.
fn negated_number(x: &Value) -> Operated
    ensures { operated_of result ≡ before unary.Negate (value_of x.now) }
{
    match x {
        Value::Int(number) => match number.checked_neg() {
            Some(negated) => Operated::Value(Value::Int(negated)),
            None => Operated::Overflows,
        },
        _ => Operated::OtherKinds,
    }
}

/// What an operator gives of what two slots hold.
#[inline(always)]
pub fn operate(
    operator: Operator,
    slots: &Items<Option<Value>>,
    a: u8,
    b: u8,
) -> Result<Operated, Off>
    ensures { Gives result (operation operator (slots_of slots.now) a b) operated_of }
{
    match operator {
        Operator::Not => Ok(negated_truth(value(slots, a)?)),
        Operator::Negate => Ok(negated_number(value(slots, a)?)),
        _ => {
            let left = value(slots, a)?;
            let right = value(slots, b)?;
            Ok(of_two(operator, left, right))
        }
    }
}
