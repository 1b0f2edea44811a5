//! The explanation of a fault, by its number.
ghost use Rattle.std.specs.Prelude.{string_bytes, IfOk};
ghost use Rattle.ob_explain_page.specs.Pages.{IsPage};

use crate::bodies::tell_bodies;
use crate::noting::{tell_hidden, tell_notes};
use ob_base::{
    EXPECTED, LOOP_CHANGES, Memory, NOT_OWNING, ProgramFault, TOO_MANY_INSTANCES, UNKNOWN_NAME,
};
use ob_explain_grammar::{explain_grammar, explain_token};
use ob_explain_names::{explain_names, explain_too_many, explain_types};
use ob_explain_page::{Explanation, Page, word_of};
use ob_front::Seen;
use ob_generic::{InstanceOfFault, instance_of_fault};
use ob_lexer::Token;
use ob_tree::Tree;
use std::alloc::Global;

// Whether a fault is of the permission rules.
fn is_of_permissions(number: u16) -> bool {
    number >= NOT_OWNING && number <= LOOP_CHANGES
}

// A fault of words and signs.
fn tell_token(
    alloc: Global,
    page: &mut Page,
    file: &str,
    text: &[u8],
    fault: ProgramFault,
) -> Result<(), Memory> {
    let explanation = explain_token(alloc, text, fault)?;
    explanation.tell(page, file, text, fault, fault.span)
}

// A fault of the grammar.
fn tell_grammar(
    alloc: Global,
    page: &mut Page,
    file: &str,
    text: &[u8],
    fault: ProgramFault,
    seen: &Seen,
) -> Result<(), Memory> {
    let Some(lexed) = &seen.lexed else {
        return Ok(());
    };
    let (explanation, mark) = explain_grammar(alloc, text, lexed, fault)?;
    explanation.tell(page, file, text, fault, mark)
}

// A fault of type parameters and type arguments, in this instance.
fn explain_instance(
    alloc: Global,
    text: &[u8],
    tokens: &[Token],
    written: &Tree,
    around: &InstanceOfFault,
    fault: ProgramFault,
) -> Result<Explanation, Memory> {
    let name = match &around.name {
        Some(name) => Some(word_of(name.as_slice())),
        None => None,
    };
    if fault.number == TOO_MANY_INSTANCES {
        Ok(explain_too_many(alloc, written, name, around.is_long))
    } else {
        explain_types(alloc, text, tokens, written, name, fault)
    }
}

// A fault of names and types, which is one of type parameters and type arguments where there is no tree of instances.
fn explain_tree(
    alloc: Global,
    text: &[u8],
    tokens: &[Token],
    written: &Tree,
    made: &Option<Tree>,
    fault: ProgramFault,
) -> Result<Explanation, Memory> {
    match made {
        Some(made) => explain_names(alloc, text, tokens, written, made, fault),
        None => {
            let around = instance_of_fault(alloc, written, fault)?;
            explain_instance(alloc, text, tokens, written, &around, fault)
        }
    }
}

// A fault of names and types.
fn tell_names(
    alloc: Global,
    page: &mut Page,
    file: &str,
    text: &[u8],
    fault: ProgramFault,
    seen: &Seen,
) -> Result<(), Memory> {
    let (Some(lexed), Some(tree)) = (&seen.lexed, &seen.tree) else {
        return Ok(());
    };
    let tokens = lexed.tokens.as_slice();
    let explanation = explain_tree(alloc, text, tokens, tree, &seen.instances, fault)?;
    explanation.tell(page, file, text, fault, fault.span)
}

/// Tells a person of the first fault of a program's text, which is this one, by what the stages saw of the text before it: the file,
/// the place and the fault; what is wrong; the line of the text with a mark; and how to mend it; then the first sign that an editor may show
/// otherwise than the compiler reads it. It has at most 20 lines of 200 characters, whatever the text.
pub fn explain(
    alloc: Global,
    file: &str,
    text: &[u8],
    fault: ProgramFault,
    seen: &Seen,
) -> Result<String, Memory>
    ensures { IfOk result (λ page. IsPage (string_bytes page)) }
{
    let mut page = Page::new(alloc);
    if fault.number < EXPECTED {
        tell_token(alloc, &mut page, file, text, fault)?;
    } else if fault.number < UNKNOWN_NAME {
        tell_grammar(alloc, &mut page, file, text, fault, seen)?;
    } else if is_of_permissions(fault.number) {
        tell_bodies(alloc, &mut page, file, text, fault, seen)?;
    } else {
        tell_names(alloc, &mut page, file, text, fault, seen)?;
    }
    tell_hidden(alloc, &mut page, file, text, Some(fault.span.start))?;
    page.into_text()
}

/// Tells a person what is noted of an accepted text, by what the check saw of it: the first sign that an editor may show otherwise than
/// the compiler reads it; that it has no contract, or none that is `main`; transactions that call themselves on each way through them; and
/// where it lets go of assets without saying so, as by an asset that is given as Shared, a `disown` of an object whose fields may own
/// some, a `new` of one that shares itself and is kept nowhere. Empty where there is nothing to note.
pub fn notes(alloc: Global, file: &str, text: &[u8], seen: &Seen) -> Result<String, Memory>
    ensures { IfOk result (λ page. IsPage (string_bytes page)) }
{
    let mut page = Page::new(alloc);
    tell_notes(alloc, &mut page, file, text, seen)?;
    page.into_text()
}

// Tells that the instances of a text's generic contracts are too large.
fn tell_too_large(page: &mut Page, file: &str) -> Result<(), Memory> {
    page.put_cut(file, 120)?;
    page.put(": the instances of its generic contracts want too much memory")?;
    page.end_line()?;
    page.put_words(
        "  help: ",
        "let it need fewer instances, or write smaller generic contracts or shorter names: see 'Limits' in docs/GUIDE.md.",
    )
}

/// Tells a person for what of a program's text memory lacked, by what the stages saw of it: for the instances of its generic contracts.
/// Empty where it lacked for something else.
pub fn explain_memory(alloc: Global, file: &str, seen: &Seen) -> Result<String, Memory>
    ensures { IfOk result (λ page. IsPage (string_bytes page)) }
{
    let mut page = Page::new(alloc);
    if seen.tree.is_some() && seen.instances.is_none() {
        tell_too_large(&mut page, file)?;
    }
    page.into_text()
}
