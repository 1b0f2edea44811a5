//! That each tree of a text has the shape on which the laws of the class table rest, and that the names in its types are texts.
#![tactic(auto)]

ghost use Rattle.std.specs.Prelude.{ℕ, List};
ghost use Rattle.ob_lexer.specs.Lexis.{HasTokens};
ghost use Rattle.ob_lexer.specs.declared.lexer.Lexed.{Lexed};
ghost use Rattle.ob_tree.specs.Members.{Contract};
ghost use Rattle.ob_parser_spec.specs.Grammar.{HasTree};
ghost use Rattle.ob_resolve_spec.specs.Shape.{HasShape};
ghost use Rattle.ob_generic_spec.specs.TextNames.{HaveTextNames};

/// The tree that the tokens of a text spell has the shape of a program: its names are names, its numbers are of 64
/// bits, its strings are texts of at most 1,024 bytes, its operators have as many operands as they need, only private
/// transactions list fields, and an interface isn't main, implements nothing, and has states and heads alone.
pub fn parsed_trees_have_shape()
    ensures { (text : List ℕ) (lexed : Lexed) (tree : List Contract) → HasTokens text lexed → HasTree lexed.tokens tree
        → HasShape tree }
{}

/// The names in the types of the tree that the tokens of a text spell are texts, also those in type arguments.
pub fn parsed_trees_have_text_names()
    ensures { (text : List ℕ) (lexed : Lexed) (tree : List Contract) → HasTokens text lexed → HasTree lexed.tokens tree
        → HaveTextNames tree }
{}
