//! Code for the machine: an image with its contracts, their bodies, and the instructions of each body; its bytes; and what
//! stands in it at a number.
#![tactic(auto)]

mod decoding;
mod error;
mod image;
mod instruction;
mod marks;
mod numbered;
mod put_instruction;
mod read_instruction;
mod rows;
mod text;

pub use decoding::{decode, encode, one_image};
pub use error::CodeError;
pub use image::{BodyCode, ContractCode, FieldCode, Image, ParamCode, PermCode, TypeCode};
pub use instruction::{Instruction, NO_RESULT};
pub use marks::{
    is_constructor, is_interface, is_main, is_private, is_shared_at_entry, is_transaction_named,
};
pub use numbered::{body_code, constructor_place, contract_code};
pub use text::CodeText;
