//! What is said of names of other languages.

use ob_explain_page::{CALLER, EVENTS, FRACTIONS, Hint, REQUIRED, TIME, VARIABLE};

/// Of a reference to nothing.
pub const NO_NULL: &str =
    "there is no empty reference: one state has the field and another one hasn't, as `state Full { C@Owned c; } state Empty;`.";

/// The words of other languages for it.
pub const NULLS: [&str; 6] = ["null", "nil", "None", "nullptr", "undefined", "NULL"];

/// Of words of other languages.
pub const FOREIGN: [Hint; 14] = [
    Hint {
        of: &[
            "Int", "integer", "Integer", "uint", "uint8", "uint64", "uint256", "int64", "int256",
            "u8", "u32", "u64", "i32", "i64", "long", "number",
        ],
        help: "a whole number's type is `int`, without a permission.",
    },
    Hint {
        of: &["float", "double", "decimal", "f32", "f64"],
        help: FRACTIONS,
    },
    Hint {
        of: &["String", "str", "text", "char", "bytes", "bytes32"],
        help: "a text's type is `string`, without a permission.",
    },
    Hint {
        of: &["Bool", "boolean", "Boolean"],
        help: "the type of `true` and `false` is `bool`, without a permission.",
    },
    Hint {
        of: &["True", "TRUE", "False", "FALSE"],
        help: "`true` and `false` are written in small letters.",
    },
    Hint {
        of: &["self", "me"],
        help: "the contract's own object is `this`.",
    },
    Hint {
        of: &NULLS,
        help: NO_NULL,
    },
    Hint {
        of: &["var", "let", "const", "auto", "mut", "final", "static"],
        help: VARIABLE,
    },
    Hint {
        of: &["require", "assert"],
        help: REQUIRED,
    },
    Hint {
        of: &["throw", "raise", "panic"],
        help: "`revert \"why\";` ends the request and undoes it.",
    },
    Hint {
        of: &["msg", "sender", "caller", "address"],
        help: CALLER,
    },
    Hint {
        of: &["now", "block", "timestamp"],
        help: TIME,
    },
    Hint {
        of: &["random", "rand", "randint"],
        help: "there is no chance: a call gives each number by a parameter, as in `transaction draw(int n)`, and may choose it.",
    },
    Hint {
        of: &["emit", "log", "print", "println", "printf", "console"],
        help: EVENTS,
    },
];
