//! The tree of a program, or its first fault.

ghost use Rattle.std.specs.Prelude.{◌≡◌, IfOk, IfErr};
ghost use Rattle.ob_base.specs.Limits.{most_open};
ghost use Rattle.ob_tree.specs.MembersView.{tree_of};
ghost use Rattle.ob_parser_spec.specs.Grammar.{HasTree, HasSyntaxFault};
ghost use Rattle.ob_parser_spec.specs.AllReaders.{all_programs};
ghost use Rattle.ob_parser.specs.Parsing.{AnswersWhole, span_at, error_at};
ghost use Rattle.ob_base.specs.TextErrors.{OnFault};

use crate::contracts::program;
use ob_base::{EXPECTED, MOST_OPEN, ProgramFault, Span, TOO_DEEP, TextError};
use ob_lexer::Token;
use ob_parser_expressions::{Halt, refused};
use ob_tree::Tree;
use std::alloc::Global;

/// Why tokens became no tree.
pub type ParseError = TextError;

/// The place of the first of so many last tokens, or the end after them all.
fn span_of(tokens: &[Token], end: Span, left: usize) -> Span
    ensures { result ≡ span_at tokens.now end left }
{
    let before = tokens.len().saturating_sub(left);
    match &tokens[before..] {
        [token, ..] => token.span,
        [] => end,
    }
}

/// The fault where nothing more was read.
fn error_of(halt: Halt, tokens: &[Token], end: Span) -> ParseError
    ensures { result ≡ error_at halt tokens.now end }
{
    match halt {
        Halt::Expected { left } => ParseError::Fault(ProgramFault {
            number: EXPECTED,
            span: span_of(tokens, end, left),
        }),
        Halt::TooDeep { left } => ParseError::Fault(ProgramFault {
            number: TOO_DEEP,
            span: span_of(tokens, end, left),
        }),
        Halt::Memory => ParseError::Memory,
    }
}

/// `program`, with nothing after it.
fn whole_program(alloc: Global, tokens: &[Token]) -> Result<Tree, Halt>
    ensures { AnswersWhole result (all_programs most_open tokens.now) }
{
    let (contracts, rest) = program(alloc, MOST_OPEN, tokens)?;
    if !rest.is_empty() {
        return Err(refused(rest));
    }
    Ok(Tree { contracts })
}

/// The tree that a program's tokens spell, or the first fault: the first token with which they begin no program, or
/// with which too many parts are open. `end` is the place after the tokens.
pub fn parse(alloc: Global, tokens: &[Token], end: Span) -> Result<Tree, ParseError>
    ensures tree { IfOk result (λ tree. HasTree tokens.now (tree_of tree)) }
    ensures fault { IfErr result (λ e. OnFault e (HasSyntaxFault tokens.now end)) }
{
    match whole_program(alloc, tokens) {
        Ok(tree) => Ok(tree),
        Err(halt) => Err(error_of(halt, tokens, end)),
    }
}
