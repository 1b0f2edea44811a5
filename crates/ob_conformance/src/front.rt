//! What the stages make of a text, or the text's fault.
use crate::page::Page;
use crate::question::Question;
use crate::table::put_table;
use crate::terms::put_bodies;
use crate::tokens::put_tokens;
use ob_base::{Duplicate, ProgramFault, fault_name};
use ob_front::{CompileError, Seen, class_table, lowered, syntax_tree};
use ob_lexer::{LexError, Lexed, lex};
use ob_tree::Tree;
use ob_tree_print::print;
use std::alloc::Global;

fn put_fault(fault: ProgramFault, page: &mut Page) {
    page.begin("fault", fault.span);
    page.number(u64::from(fault.number));
    page.word(fault_name(fault.number));
}

fn put_error(error: CompileError, page: &mut Page) {
    match error {
        CompileError::Fault(fault) => put_fault(fault, page),
        CompileError::Memory => page.fail(),
    }
}

fn put_lexed(alloc: Global, lexed: &Lexed, page: &mut Page) {
    if let Some(copy) = page.made(lexed.copy(alloc)) {
        put_tokens(&copy, page);
    }
}

// The tokens of a text, from a copy of them.
fn tokens(alloc: Global, text: &[u8], page: &mut Page) {
    match lex(alloc, text) {
        Ok(lexed) => put_lexed(alloc, &lexed, page),
        Err(LexError::Fault(fault)) => put_fault(fault, page),
        Err(LexError::Memory) => page.fail(),
    }
}

fn put_layout(alloc: Global, tree: &Tree, page: &mut Page) {
    if let Some(text) = page.made(print(alloc, tree)) {
        page.bytes(text.as_bytes());
    }
}

fn put_tree(alloc: Global, tree: &Tree, is_layout: bool, page: &mut Page) {
    if let Some(copy) = page.made(tree.copy(alloc)) {
        if is_layout {
            put_layout(alloc, &copy, page);
        } else {
            page.name(&copy);
        }
    }
}

// The tree of a text, from a copy of it: in its canonical layout, or as it shows itself.
fn tree(alloc: Global, text: &[u8], is_layout: bool, page: &mut Page) {
    match syntax_tree(alloc, text) {
        Ok(tree) => put_tree(alloc, &tree, is_layout, page),
        Err(error) => put_error(error, page),
    }
}

// The class table of a text, from a copy of it.
fn table(alloc: Global, text: &[u8], seen: &mut Seen, page: &mut Page) {
    match class_table(alloc, text, seen) {
        Ok(table) => {
            if let Some(copy) = page.made(table.copy(alloc)) {
                put_table(&copy, page);
            }
        }
        Err(error) => put_error(error, page),
    }
}

// The terms of a text's bodies, from a copy of them.
fn terms(alloc: Global, text: &[u8], seen: &mut Seen, page: &mut Page) {
    match lowered(alloc, text, seen) {
        Ok(program) => {
            if let Some(copy) = page.made(program.copy(alloc)) {
                put_bodies(copy.bodies.as_slice(), page);
            }
        }
        Err(error) => put_error(error, page),
    }
}

fn answer(alloc: Global, word: &str, text: &[u8], seen: &mut Seen, page: &mut Page) {
    match word {
        "tokens" => tokens(alloc, text, page),
        "layout" => tree(alloc, text, true, page),
        "tree" => tree(alloc, text, false, page),
        "table" => table(alloc, text, seen, page),
        "terms" => terms(alloc, text, seen, page),
        _ => page.fail(),
    }
}

/// Answers what this word asks of a text: its tokens, its layout, its tree, its class table or its terms.
pub fn stage(alloc: Global, word: &str, asked: &mut Question<'_>, page: &mut Page) {
    let text = asked.bytes(alloc, page);
    let mut seen = Seen::new(alloc);
    answer(alloc, word, &text, &mut seen, page);
}
