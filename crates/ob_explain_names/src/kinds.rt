//! Kinds of values in words.

use ob_explain_page::{Words, word_of};
use ob_resolve_scope::Types;
use ob_resolve_spec::InferredKind;

/// The name of a contract or interface.
pub fn name_of_contract<'a>(types: &Types<'a>, number: usize) -> &'a str {
    match types.node(number) {
        Some(node) => word_of(node.name.as_bytes()),
        None => "?",
    }
}

// A value of a kind, in words.
fn word_of_kind(kind: InferredKind) -> &'static str {
    match kind {
        InferredKind::Int => "an `int`",
        InferredKind::Bool => "a `bool`",
        InferredKind::Text => "a `string`",
        InferredKind::Nothing => "no value",
        InferredKind::Unknown => "a value",
        InferredKind::Reference(_) => "a reference",
    }
}

/// Puts a value of a kind, in words.
pub fn put_kind(words: &mut Words, types: &Types<'_>, kind: InferredKind) {
    words.put(word_of_kind(kind));
    if let InferredKind::Reference(number) = kind {
        words.put_with(" to `{}`", &[name_of_contract(types, number)]);
    }
}
