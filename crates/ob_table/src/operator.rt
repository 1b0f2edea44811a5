//! The operators of resolved expressions (the Obsidian language documentation, "Expressions"), by what they do with their
//! operands.

/// An operator before its operand.
#[derive(Clone, Copy, Debug)]
pub enum UnaryOperator {
    /// `!`: whether a `bool` doesn't hold.
    Not,
    /// `-`: the `int` of the other sign, if that is an `int`.
    Negate,
}

/// An operator between two operands that needs the values of both.
#[derive(Clone, Copy, Debug)]
pub enum BinaryOperator {
    /// `+`: the sum of two `int`s, if that is an `int`.
    Add,
    /// `-`: their difference, if that is an `int`.
    Sub,
    /// `*`: their product, if that is an `int`.
    Mul,
    /// `/`: their quotient, rounded toward zero; a division by zero has none.
    Div,
    /// `%`: the remainder of such a division, with the dividend's sign.
    Rem,
    /// `==`: whether two values of one type, which is no reference's, are the same.
    Equal,
    /// `!=`: whether two such values differ.
    NotEqual,
    /// `<`: whether the left `int` is below the right one.
    Less,
    /// `<=`: whether the left `int` is at most the right one.
    LessEqual,
    /// `>`: whether the left `int` is above the right one.
    Greater,
    /// `>=`: whether the left `int` is at least the right one.
    GreaterEqual,
}

/// An operator between two `bool`s that asks for the right one only where the left one leaves it open.
#[derive(Clone, Copy, Debug)]
pub enum LogicalOperator {
    /// `&&`: whether both hold; the right one isn't asked where the left one fails.
    And,
    /// `||`: whether one of them holds; the right one isn't asked where the left one does.
    Or,
}
