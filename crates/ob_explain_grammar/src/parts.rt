//! Parts of the grammar in words: what can begin with many tokens.

/// Whether a token stands in a list, where a blank stands between two.
pub fn has_word(words: &str, word: &str) -> bool {
    for other in words.split(' ') {
        if other == word {
            return true;
        }
    }
    false
}

/// A part of the grammar.
#[derive(Clone, Copy)]
pub struct Part {
    /// In words.
    pub said: &'static str,
    /// The tokens of which each could stand where it could, and that little else begins with, with a blank between.
    pub marks: &'static str,
    /// The tokens that can begin it.
    pub begins: &'static str,
}

/// What begins a type parameter or a type argument: few types have one, so it isn't told of.
pub const ARGUMENT: &str = "[";

/// Between two expressions.
const OPERATORS: &str = "* / % + - == != < <= > >= && ||";

/// The larger parts come first: what one takes isn't told by those after it. An operator stands twice: after a comparison there
/// are fewer, since it takes no second one beside it.
pub const PARTS: [Part; 10] = [
    Part {
        said: "a contract or an interface",
        marks: "contract interface",
        begins: "contract interface asset main",
    },
    Part {
        said: "a statement",
        marks: "if return disown",
        begins: "if while return disown revert [ -> new this int bool string x",
    },
    Part {
        said: "a member (a field, a state, a constructor or a transaction)",
        marks: "state transaction int",
        begins: "state transaction private int bool string x",
    },
    Part {
        said: "an expression",
        marks: "true 1 new",
        begins: "true false 1 \"\" x this new ( ! -",
    },
    Part {
        said: "an operator",
        marks: "* + &&",
        begins: OPERATORS,
    },
    Part {
        said: "an operator",
        marks: "&& ||",
        begins: OPERATORS,
    },
    Part {
        said: "a permission (`Owned`, `Shared`, `Unowned`, or states as in `S|T`)",
        marks: "Owned x",
        begins: "Owned Unowned Shared x",
    },
    Part {
        said: "`Owned`, `Shared` or `Unowned`",
        marks: "Owned",
        begins: "Owned Unowned Shared",
    },
    Part {
        said: "a type",
        marks: "int bool x",
        begins: "int bool string x",
    },
    Part {
        said: "a name",
        marks: "x",
        begins: "x",
    },
];
