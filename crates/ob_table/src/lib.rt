//! The class table of a program: its contracts with their fields, states and signatures, and the bodies of their
//! transactions with numbers in place of names; copies of all of it, and look-ups.
#![tactic(auto)]

mod body;
mod contract;
mod expr;
mod operator;
mod seen;
mod stmt;
mod table;

pub use body::{Body, body_loses_nothing};
pub use contract::{Contract, Field, Listed, Param, ResolvedType, Signature};
pub use expr::{ResolvedCall, ResolvedExpr};
pub use operator::{BinaryOperator, LogicalOperator, UnaryOperator};
pub use seen::{Kind, Seen, SeenAt};
pub use stmt::{ResolvedBlock, ResolvedGiven, ResolvedStmt};
pub use table::Table;
