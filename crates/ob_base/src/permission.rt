//! The words of the language for who owns an object, and in which states it may be.

/// How a reference holds its object (Coblenz et al., TOPLAS 42(3), 2020, "Permissions"): as its owner, as one of
/// those that share it, or without a say.
#[derive(Clone, Copy, PartialEq, Eq, Debug)]
pub enum Mode {
    /// As its one owner, which knows its states and may change it, give it and give it up.
    Owned,
    /// As one of any number, which may change it while nobody owns it.
    Shared,
    /// As one that looks at it, whoever owns or shares it.
    Unowned,
}

/// What a reference holds: a mode, and for an owner the states in which the object may be.
#[derive(Clone, Copy)]
pub struct Perm {
    /// How the object is held.
    pub mode: Mode,
    /// The states as a set of bits: bit i is the state i, bit `NO_STATE_BIT` is no state, bit `OTHER_STATE_BIT` any state
    /// that an interface doesn't name. 0 unless the mode is `Owned`.
    pub states: u64,
}

/// The bit of no state, which an object of a contract without states is in.
pub const NO_STATE_BIT: u8 = 32;

/// The bit of any state that an interface doesn't name.
pub const OTHER_STATE_BIT: u8 = 33;
