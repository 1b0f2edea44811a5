//! The stages from a program's text to its class table.
ghost use Rattle.std.specs.Prelude.{◌≡◌, ◌⊎◌, ℕ, List, IfOk, IfErr};
ghost use Rattle.ob_base.specs.declared.fault.ProgramFault.{ProgramFault};
ghost use Rattle.ob_tree.specs.Members.{Contract};
ghost use Rattle.ob_tree.specs.MembersView.{tree_of};
ghost use Rattle.ob_table.specs.Tables.{ClassTable};
ghost use Rattle.ob_parser_spec.specs.Grammar.{HasTree, HasSyntaxFault};
ghost use Rattle.ob_front.specs.Stages.{IsTreeOf, IsInstanceTreeOf, HasTable, IsWellFormedTable, HasTreeFault, HasTableFault};
ghost use Rattle.ob_base.specs.TextErrors.{OnFault};

use crate::seen::Seen;
use ob_base::TextError;
use ob_generic::instances;
use ob_lexer::{Lexed, lex};
use ob_parser::parse;
use ob_resolve::resolve;
use ob_table::Table;
use ob_tree::Tree;
use std::alloc::Global;

/// Why a text has no tree, no class table or no program: its fault is the text's first one.
pub type CompileError = TextError;

/// The tree of a text, or the first fault of its tokens or of the grammar.
pub fn syntax_tree(alloc: Global, text: &[u8]) -> Result<Tree, CompileError>
    ensures tree { IfOk result (λ tree. IsTreeOf text.now (tree_of tree)) }
    ensures fault { IfErr result (λ e. OnFault e (HasTreeFault text.now)) }
{
    let lexed = lex(alloc, text)?;
    parse(alloc, lexed.tokens.as_slice(), lexed.end)
}

// The tree of tokens, which stay in what was seen.
fn tree_of_tokens(alloc: Global, lexed: Lexed, seen: &mut Seen) -> Result<Tree, CompileError>
    ensures tree { IfOk result (λ tree. HasTree lexed.tokens (tree_of tree)) }
    ensures fault { IfErr result (λ e. OnFault e (HasSyntaxFault lexed.tokens lexed.end)) }
{
    let parsed = parse(alloc, lexed.tokens.as_slice(), lexed.end);
    seen.lexed = Some(lexed);
    parsed
}

// The tree of the instances of a text. The tokens and the tree as it is written stay in what was seen.
fn instance_tree(alloc: Global, text: &[u8], seen: &mut Seen) -> Result<Tree, CompileError>
    ensures tree { IfOk result (λ made. IsInstanceTreeOf text.now (tree_of made)) }
    ensures fault { IfErr result (λ e. OnFault e (HasTableFault text.now)) }
{
    let lexed = lex(alloc, text)?;
    let tree = tree_of_tokens(alloc, lexed, seen)?;
    let made = instances(alloc, &tree);
    seen.tree = Some(tree);
    made
}

/// The class table of a text, or its first fault: of its tokens, of the grammar, of type parameters and type arguments, or of names
/// and types. The tokens, the tree and the tree of its instances stay in what was seen.
pub fn class_table(alloc: Global, text: &[u8], seen: &mut Seen) -> Result<Table, CompileError>
    ensures table { IfOk result (HasTable text.now) }
    ensures well_formed { IfOk result IsWellFormedTable }
    ensures fault { IfErr result (λ e. OnFault e (HasTableFault text.now)) }
{
    let made = instance_tree(alloc, text, seen)?;
    let resolved = resolve(alloc, &made);
    seen.instances = Some(made);
    resolved
}

/// A text with a tree has a class table, that of the tree of its instances, or a first fault of type parameters and type arguments, or
/// of names and types, and never both.
pub fn table_or_table_fault()
    ensures either { (text : List ℕ) (tree : List Contract) → IsTreeOf text tree
        → ((table : ClassTable) × HasTable text table) ⊎ ((fault : ProgramFault) × HasTableFault text fault) }
    ensures never_both { (text : List ℕ) (table : ClassTable) (fault : ProgramFault)
        → HasTable text table → ¬ (HasTableFault text fault) }
{}

/// A text has one class table at most.
pub fn one_class_table()
    ensures { (text : List ℕ) (a b : ClassTable) → HasTable text a → HasTable text b → a ≡ b }
{}
