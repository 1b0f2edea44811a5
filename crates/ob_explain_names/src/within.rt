//! Instances of generic contracts by their printed names: `Box[Coin@Owned]`.

use ob_base::is_letter_or_digit;
use ob_explain_page::{Explanation, Words, word_of};
use ob_tree::{ContractNode, ParamNode, Tree};
use std::alloc::Global;

/// The most bytes of a printed name that are shown with what its parameters denote.
const MOST_SHOWN: usize = 100;

/// An instance, and what its parameters denote.
#[derive(Clone, Copy)]
pub struct Within<'a> {
    name: &'a str,
    /// The argument's type: what the type parameter denotes.
    of: &'a str,
    /// Its permission: what the permission parameter denotes.
    perm: &'a str,
    param: &'a ParamNode,
}

/// The name before the first `[` of a printed name.
pub fn base_of(name: &str) -> &str {
    match name.split_once('[') {
        Some((base, _)) => base,
        None => name,
    }
}

// The type and the permission between the brackets of a printed name.
fn argument_of(name: &str) -> Option<(&str, &str)> {
    let (_, behind) = name.split_once('[')?;
    behind.strip_suffix(']')?.rsplit_once('@')
}

// The parameter of the first generic contract or interface of this name.
fn param_named<'a>(nodes: &'a [ContractNode], name: &str) -> Option<&'a ParamNode> {
    for node in nodes {
        if node.name.as_bytes() == name.as_bytes() {
            return node.param.as_ref();
        }
    }
    None
}

// Whether a byte is one of a word.
fn is_of_word(byte: Option<&u8>) -> bool {
    match byte {
        Some(byte) => is_letter_or_digit(*byte),
        None => false,
    }
}

// Whether no word goes on from the end of one text to the beginning of another one.
fn is_between_words(before: &str, after: &str) -> bool {
    !is_of_word(before.as_bytes().last()) && !is_of_word(after.as_bytes().first())
}

// Whether what follows the name of a contract makes it the type of `this` or of a constructor, where it has no argument.
fn is_own_type(after: &str) -> bool {
    after.starts_with('@') && (after.contains(" this") || after.contains("() {"))
}

impl<'a> Within<'a> {
    /// The instance of this printed name in a program, as it is written; None of another name.
    pub fn new(written: &'a Tree, name: &'a str) -> Option<Within<'a>> {
        let (of, perm) = argument_of(name)?;
        let param = param_named(written.contracts.as_slice(), base_of(name))?;
        Some(Within {
            name,
            of,
            perm,
            param,
        })
    }

    /// The name of the type parameter.
    pub fn param(&self) -> &'a str {
        word_of(self.param.name.name.as_bytes())
    }

    /// The name of the permission parameter.
    pub fn perm_param(&self) -> &'a str {
        word_of(self.param.perm.name.as_bytes())
    }

    /// The permission that a name denotes among states: that of the argument, if it is the permission parameter's.
    pub fn perm_of(&self, name: &str) -> Option<&'a str> {
        if name == self.perm_param() {
            Some(self.perm)
        } else {
            None
        }
    }

    /// The contract or interface that a name denotes in the instance: the type parameter denotes that of the argument.
    pub fn base(&self, name: &'a str) -> &'a str {
        if name == self.param() {
            base_of(self.of)
        } else {
            name
        }
    }

    /// Puts what the parameters denote, as ``where `T@s` is `Coin@Owned` ``.
    pub fn put_argument(&self, words: &mut Words) {
        words.put_with(
            "where `{}@{}` is `{}@{}`",
            &[self.param(), self.perm_param(), self.of, self.perm],
        );
    }

    // Puts the front of a long name.
    fn put_front(&self, words: &mut Words) {
        let bytes = self.name.as_bytes();
        let front = word_of(&bytes[..MOST_SHOWN.min(bytes.len())]);
        words.put_with("in `{}..`", &[front]);
    }

    /// Puts which instance it is, and what its parameters denote; of one with a long name its front alone.
    pub fn put(&self, words: &mut Words) {
        if self.name.len() > MOST_SHOWN {
            return self.put_front(words);
        }
        words.put_with("in `{}`, ", &[self.name]);
        self.put_argument(words);
    }

    // What stands after the argument's permission, where this stands after its type.
    fn after_argument<'b>(&self, after: &'b str) -> Option<&'b str> {
        let behind = after.strip_prefix('@')?.strip_prefix(self.perm)?;
        if behind.starts_with('|') || is_of_word(behind.as_bytes().first()) {
            None
        } else {
            Some(behind)
        }
    }

    // Puts the parameters between two parts of code between which the argument's type stands, and the second part.
    fn put_params(&self, words: &mut Words, before: &str, after: &str) {
        if !is_between_words(before, after) {
            return words.put_with("{}{}", &[self.of, after]);
        }
        match self.after_argument(after) {
            Some(behind) => {
                words.put_with("{}@{}{}", &[self.param(), self.perm_param(), behind]);
            }
            None => words.put_with("{}{}", &[self.param(), after]),
        }
    }

    // Puts code with the parameters in the place of the argument.
    fn put_code(&self, words: &mut Words, code: &str) {
        let mut before = None;
        for part in code.split(self.of) {
            match before {
                Some(before) => self.put_params(words, before, part),
                None => words.put(part),
            }
            before = Some(part);
        }
    }

    // The same, with the name of the generic contract alone as the type of `this`.
    fn put_own_code(&self, words: &mut Words, code: &str) {
        match code.split_once(self.name) {
            Some((before, after)) if is_own_type(after) => {
                self.put_code(words, before);
                words.put(base_of(self.name));
                self.put_code(words, after);
            }
            _ => self.put_code(words, code),
        }
    }

    // A help as the text of the generic contract has it: what stands between backquotes is code.
    fn help_in_generic(&self, alloc: Global, help: &Words) -> Words {
        let mut words = Words::new(alloc);
        let mut is_code = false;
        for part in help.as_str().split('`') {
            if is_code {
                words.put("`");
                self.put_own_code(&mut words, part);
                words.put("`");
            } else {
                words.put(part);
            }
            is_code = !is_code;
        }
        words
    }

    /// Puts around an explanation in which instance it is so. Its help is written as the text of the generic contract is.
    pub fn put_around(&self, alloc: Global, told: &mut Explanation) {
        self.put(&mut told.within);
        if !told.help.lacks() {
            told.help = self.help_in_generic(alloc, &told.help);
        }
    }
}
