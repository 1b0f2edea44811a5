//! Where types stand.

/// Where a type stands, as far as its name may be that of the contract around (this project's own).
#[derive(Clone, Copy, PartialEq, Eq)]
pub enum Role {
    /// The type of `this`, or the name of a constructor: here the name of a generic contract, without an argument, denotes
    /// the instance around.
    OfOwn,
    /// In the brackets after another name.
    InArgument,
    /// At any other place.
    Anywhere,
}
