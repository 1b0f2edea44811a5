//! The syntax tree of a program: what is written, with the place of each part, and copies of it; the signs and levels of
//! operators, and the words of modes.
#![tactic(auto)]

mod contract;
mod expr;
mod member;
mod name;
mod operator;
mod stmt;
mod word;

pub use contract::{ContractNode, ParamNode, Tree, view_loses_nothing};
pub use expr::{CallNode, Expr, span_of_expr};
pub use member::{FieldNode, FormalNode, ListedNode, Member};
pub use name::{NamePart, NamedNode, PermNode, RefNode, Subject, TypeNode};
pub use operator::{OPERATORS, level_of, sign_of_operator};
pub use stmt::{Block, GivenNode, LocalType, Stmt};
pub use word::{MODES, word_of_mode};
