//! What is said of what the language doesn't have, wherever a text asks for it.

/// Of who calls.
pub const CALLER: &str =
    "a transaction can't ask who calls it: hand out a key, an object of a contract of its own, and ask for it, as in `transaction t(Key@Owned key)`.";

/// Of time.
pub const TIME: &str =
    "there is no time: an object counts it, by `transaction tick(Clock@Shared this) { hour = hour + 1; }`.";

/// Of fractions.
pub const FRACTIONS: &str =
    "there are no fractions: count in a smaller unit, as cents, in whole numbers.";

/// Of what a program would write or tell.
pub const EVENTS: &str =
    "a program writes nothing: a client sees what its own requests return. Leave this out.";

/// Of what has to hold.
pub const REQUIRED: &str =
    "test it, and revert where it doesn't hold: `if (!(..)) { revert \"why\"; }`. That undoes the whole request.";

/// Of a local variable that doesn't begin with its type.
pub const VARIABLE: &str = "a local variable begins with its type, as in `int x = 0;`.";
