//! Numbers that represent things.

/// A contract or an interface of a program, by its place among them, from 0.
#[derive(Clone, Copy)]
pub struct ContractId(pub u32);

/// A state of a contract, by its place among the contract's states, from 0.
#[derive(Clone, Copy)]
pub struct StateId(pub u8);

/// A field of a contract, by its place among the contract's fields, from 0.
#[derive(Clone, Copy, PartialEq, Eq)]
pub struct FieldId(pub u8);

/// A transaction of a contract, by its place among the contract's transactions. A contract's constructor has the
/// number 0.
#[derive(Clone, Copy)]
pub struct TxId(pub u32);

/// An object of a store, by its place in the order of creation, from 0.
#[derive(Clone, Copy)]
pub struct ObjectId(pub u32);
