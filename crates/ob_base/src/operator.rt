//! The operators of expressions.

/// An operator (the Obsidian language documentation, "Expressions"): eleven that compare or reckon, two that stop
/// early, and two of one operand.
#[derive(Clone, Copy, Debug)]
pub enum Operator {
    /// `+`: the sum of two `int`s, if that is an `int`.
    Add,
    /// `-` between two `int`s: their difference, if that is an `int`.
    Sub,
    /// `*`: the product of two `int`s, if that is an `int`.
    Mul,
    /// `/`: the quotient of two `int`s, rounded toward zero; a division by zero has none.
    Div,
    /// `%`: the remainder of such a division, with the dividend's sign.
    Rem,
    /// `==`: whether two values of one type, which is no reference's, are the same.
    Equal,
    /// `!=`: whether two such values differ.
    NotEqual,
    /// `<`: whether the left `int` is below the right one.
    Less,
    /// `<=`: whether the left `int` is at most the right one.
    LessEqual,
    /// `>`: whether the left `int` is above the right one.
    Greater,
    /// `>=`: whether the left `int` is at least the right one.
    GreaterEqual,
    /// `&&`: whether two `bool`s both hold; the right one isn't asked where the left one fails.
    And,
    /// `||`: whether one of two `bool`s holds; the right one isn't asked where the left one does.
    Or,
    /// `!`: whether a `bool` doesn't hold.
    Not,
    /// `-` before an `int`: the number of the other sign, if that is an `int`.
    Negate,
}
