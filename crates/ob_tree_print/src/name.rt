//! Names, permissions and types.
ghost use Rattle.std.specs.Prelude.{◌≡◌, true, OnOk, string_bytes};
ghost use Rattle.ob_tree.specs.NamesView.{named_of, ref_of, type_of};
ghost use Rattle.ob_tree_print.specs.NameTokens.{tokens_of_names, tokens_of_perm, tokens_of_exit, tokens_of_named, tokens_of_ref, tokens_of_type};
ghost use Rattle.ob_tree_print.specs.Written.{written};

use crate::token::{put_name, put_part, put_sign, put_sign_unless, put_word};
use ob_base::Memory;
use ob_lexer::{Sign, Word};
use ob_tree::{NamePart, NamedNode, PermNode, RefNode, TypeNode, word_of_mode};

/// Names, with this sign between each and the next.
#[tactic(auto, using(crate::specs::Written::turns))]
pub fn put_names(out: &mut String, between: Sign, names: &[NamePart]) -> Result<(), Memory>
    ensures { OnOk result (string_bytes out.new ≡ written (string_bytes out.old) (tokens_of_names between true names.now)) }
{
    let mut first = true;
    for part in names {
        put_sign_unless(out, first, between)?;
        put_part(out, part)?;
        first = false;
    }
    Ok(())
}

/// A permission: the word of its mode, or its states with `|` between.
#[tactic(auto, using(crate::specs::Written::writes))]
pub fn put_perm(out: &mut String, perm: &PermNode) -> Result<(), Memory>
    ensures { OnOk result (string_bytes out.new ≡ written (string_bytes out.old) (tokens_of_perm perm.now)) }
{
    match perm {
        PermNode::Mode(mode, _) => put_word(out, word_of_mode(*mode)),
        PermNode::States(states) => put_names(out, Sign::Bar, states.as_slice()),
    }
}

/// `>>` and the permission at the exit, where one is written.
#[tactic(auto, using(crate::specs::Written::writes))]
pub fn put_exit(out: &mut String, exit: &Option<PermNode>) -> Result<(), Memory>
    ensures { OnOk result (string_bytes out.new ≡ written (string_bytes out.old) (tokens_of_exit exit.now)) }
{
    match exit {
        None => Ok(()),
        Some(perm) => {
            put_sign(out, Sign::DoubleGreater)?;
            put_perm(out, perm)
        }
    }
}

/// The name of a contract, an interface or a type parameter, with its argument in brackets.
#[cycle(print_named)]
#[tactic(auto, using(crate::specs::Written::prints))]
pub fn put_named(of: &NamedNode, out: &mut String) -> Result<(), Memory>
    ensures { OnOk result (string_bytes out.new ≡ written (string_bytes out.old) (tokens_of_named (named_of of.now))) }
{
    put_name(out, &of.name)?;
    match &of.argument {
        None => Ok(()),
        Some(argument) => {
            put_sign(out, Sign::OpenBracket)?;
            put_ref(argument.get(), out)?;
            put_sign(out, Sign::CloseBracket)
        }
    }
}

/// The type of a reference: a name, `@`, and a permission.
#[cycle(print_named)]
#[tactic(auto, using(crate::specs::Written::prints))]
pub fn put_ref(of: &RefNode, out: &mut String) -> Result<(), Memory>
    ensures { OnOk result (string_bytes out.new ≡ written (string_bytes out.old) (tokens_of_ref (ref_of of.now))) }
{
    put_named(&of.of, out)?;
    put_sign(out, Sign::At)?;
    put_perm(out, &of.perm)
}

/// A type: its word, or that of a reference.
#[tactic(auto, using(crate::specs::Written::writes))]
pub fn put_type(out: &mut String, of: &TypeNode) -> Result<(), Memory>
    ensures { OnOk result (string_bytes out.new ≡ written (string_bytes out.old) (tokens_of_type (type_of of.now))) }
{
    match of {
        TypeNode::Int(_) => put_word(out, Word::Int),
        TypeNode::Bool(_) => put_word(out, Word::Bool),
        TypeNode::Text(_) => put_word(out, Word::String),
        TypeNode::Reference(of) => put_ref(of, out),
    }
}
