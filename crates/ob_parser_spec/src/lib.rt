//! The grammar of programs: which tokens spell which tree, where they spell none, what a parser reads by it, and what
//! these definitions say of one another.
#![tactic(auto)]

ghost use Rattle.std.specs.Prelude.{◌≡◌, ◌⊎◌, List};
ghost use Rattle.ob_base.specs.declared.fault.Span.{Span};
ghost use Rattle.ob_base.specs.declared.fault.ProgramFault.{ProgramFault};
ghost use Rattle.ob_lexer.specs.declared.token.Token.{Token};
ghost use Rattle.ob_tree.specs.Members.{Contract};
ghost use Rattle.ob_parser_spec.specs.Grammar.{HasTree, HasSyntaxFault};

/// Tokens spell one tree at most.
pub fn one_tree()
    ensures { (tokens : List Token) (a b : List Contract) → HasTree tokens a → HasTree tokens b → a ≡ b }
{}

/// Tokens have one fault at most.
pub fn one_fault()
    ensures { (tokens : List Token) (end : Span) (a b : ProgramFault)
        → HasSyntaxFault tokens end a → HasSyntaxFault tokens end b → a ≡ b }
{}

/// Tokens spell a tree or have a fault, and never both.
pub fn tree_or_fault()
    ensures either { (tokens : List Token) (end : Span) → ((tree : List Contract) × HasTree tokens tree)
        ⊎ ((fault : ProgramFault) × HasSyntaxFault tokens end fault) }
    ensures never_both { (tokens : List Token) (tree : List Contract) (end : Span) (fault : ProgramFault)
        → HasTree tokens tree → ¬ (HasSyntaxFault tokens end fault) }
{}
