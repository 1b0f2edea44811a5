//! What is said of words of other languages, and of what the language doesn't have.

use crate::parts::has_word;
use ob_explain_page::{CALLER, EVENTS, FRACTIONS, REQUIRED, VARIABLE};

/// Of loops.
pub const LOOPS: &str =
    "the one loop is `while`, as `int i = 0; while (i < n) { i = i + 1; }`: it ends by its condition, by `return` or by `revert`.";

/// Of arrays.
pub const ARRAYS: &str =
    "there are no arrays: an object of a list has one value and owns the rest, as `state Entry { int value; List@Owned next; } state End;`, and a transaction that calls itself goes along it.";

/// Of maps.
const MAPS: &str =
    "there are no maps: an object of a list has a key with its value and owns the rest, as `state Entry { int key; int value; List@Owned next; } state End;`, and a transaction that calls itself goes along it.";

/// Of money that comes with a call.
pub const SENT: &str =
    "no money comes with a call: ask for it by a parameter, as in `transaction pay(Money@Owned >> Unowned m)`.";

/// Of two results.
pub const TWO_RESULTS: &str =
    "a transaction gives one result: give an object that has both, as of `contract Pair { int a; int b; Pair@Owned(int x, int y) { a = x; b = y; } }` by `returns Pair@Owned`.";

/// What is said of some words.
#[derive(Clone, Copy)]
struct Foreign {
    /// The words, with a blank between.
    of: &'static str,
    /// What is said of each.
    help: &'static str,
}

/// Of words of other languages, which take the place of `{}`.
const FOREIGN: [Foreign; 25] = [
    Foreign {
        of: "for do loop foreach break continue",
        help: LOOPS,
    },
    Foreign {
        of: "mapping map dict Map HashMap",
        help: MAPS,
    },
    Foreign {
        of: "array vector Array Vec ArrayList",
        help: ARRAYS,
    },
    Foreign {
        of: "address msg",
        help: CALLER,
    },
    Foreign {
        of: "emit event",
        help: EVENTS,
    },
    Foreign {
        of: "public external internal protected payable view pure virtual override async",
        help: "each transaction that isn't `private` may be called by all: leave `{}` out.",
    },
    Foreign {
        of: "function fn def func fun void",
        help: "a transaction begins with `transaction`, and its result stands after `returns`.",
    },
    Foreign {
        of: "modifier",
        help: "there are no modifiers: begin each transaction with its own test, as `if (!b) { revert \"why\"; }`.",
    },
    Foreign {
        of: "var let const auto",
        help: VARIABLE,
    },
    Foreign {
        of: "mut final static readonly immutable",
        help: "leave `{}` out: fields and local variables can be assigned, and parameters can't.",
    },
    Foreign {
        of: "uint uint8 uint64 uint256 int8 int64 int256 u8 u32 u64 i32 i64 integer Int number long",
        help: "the type of whole numbers is `int`.",
    },
    Foreign {
        of: "float double decimal f32 f64",
        help: FRACTIONS,
    },
    Foreign {
        of: "boolean Bool Boolean",
        help: "the type of `true` and `false` is `bool`.",
    },
    Foreign {
        of: "String str char bytes bytes32",
        help: "the type of texts is `string`.",
    },
    Foreign {
        of: "import pragma library using",
        help: "a program stands in one file, and begins with its contracts.",
    },
    Foreign {
        of: "enum struct class resource",
        help: "there are contracts and interfaces; a contract's states are written `state S;`.",
    },
    Foreign {
        of: "switch match case",
        help: "a choice is an `if` with an `else`: by a state `if (x in S) { .. } else { .. }`, by a value `if (n == 1) { .. } else if (n == 2) { .. }`.",
    },
    Foreign {
        of: "require assert",
        help: REQUIRED,
    },
    Foreign {
        of: "throw raise panic",
        help: "`revert \"why\";` ends the request and undoes it.",
    },
    Foreign {
        of: "try catch finally",
        help: "a `revert` undoes the whole request, and nothing catches it: leave this out.",
    },
    Foreign {
        of: "delete",
        help: "an object is let go by `disown x;`.",
    },
    Foreign {
        of: "elif elsif elseif",
        help: "a second condition is written `else if (..) { .. }`.",
    },
    Foreign {
        of: "and",
        help: "'and' is written `&&`.",
    },
    Foreign {
        of: "or",
        help: "'or' is written `||`.",
    },
    Foreign {
        of: "not",
        help: "'not' is written `!`.",
    },
];

/// What is said of a word of another language; empty where nothing is.
pub fn hint_for(word: &str) -> &'static str {
    for hint in &FOREIGN {
        if has_word(hint.of, word) {
            return hint.help;
        }
    }
    ""
}
