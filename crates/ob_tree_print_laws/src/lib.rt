//! That the canonical layout of a program's tree is a text of the same tree.
#![tactic(auto)]

ghost use Rattle.std.specs.Prelude.{◌≤◌, List, length, ℕ};
ghost use Rattle.ob_base.specs.Limits.{longest_program};
ghost use Rattle.ob_lexer.specs.Lexis.{HasTokens};
ghost use Rattle.ob_lexer.specs.declared.lexer.Lexed.{Lexed};
ghost use Rattle.ob_tree.specs.Members.{Contract};
ghost use Rattle.ob_parser_spec.specs.Grammar.{HasTree};
ghost use Rattle.ob_tree_print_laws.specs.Again.{layout_of, IsShallow, IsReadAs};

/// The canonical layout of a program's tree, read again, is the same tree but for its places, where the layout isn't too
/// long and not too deep.
pub fn layout_is_read_again()
    ensures { (text : List ℕ) (lexed : Lexed) (tree : List Contract) → HasTokens text lexed → HasTree lexed.tokens tree
        → length (layout_of tree) ≤ longest_program → IsShallow (layout_of tree) → IsReadAs (layout_of tree) tree }
{}
