//! What lowering works with: the slots of a statement and the terms so far, where slots are dropped, and why lowering stops;
//! the variables that are visible, what stands around an expression, and the slots that terms name; and what needs no other
//! expression: expressions without parts, and the last terms of those with parts, which represent the value of a call, of
//! `new` or of an operator once its parts have their places.
#![tactic(auto)]

mod calls;
mod code;
mod counts;
mod drops;
mod error;
mod frame;
mod leaves;
mod names;
mod operands;
mod operators;
mod slots;
mod variables;

pub use calls::{put_call, put_new};
pub use code::Code;
pub use counts::count_slots;
pub use drops::{drop_temporaries, end_block};
pub use error::Stopped;
pub use frame::{AroundExpression, StaticFrame};
pub use leaves::lower_leaf;
pub use names::lower_receiver;
pub use operands::{slot_operand, valued};
pub use operators::{Sign, put_choice, put_operation};
pub use slots::Slots;
pub use variables::{SlotVariable, Variables};
