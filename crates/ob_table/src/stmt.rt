//! Statements with numbers in place of names (the Obsidian language documentation, "Statements").
ghost use Rattle.std.specs.Prelude.{◌≡◌, IfOk};

use crate::expr::ResolvedExpr;
use crate::seen::{Kind, SeenAt};
use ob_base::{
    Duplicate, FieldId, Items, Memory, Perm, Span, StateId, both, copy_items, copy_option,
};
use std::alloc::Global;

/// `{ statements }`.
#[derive(Drop)]
#[cycle(stmt)]
pub struct ResolvedBlock {
    /// The statements, in the order of the text.
    pub statements: Items<ResolvedStmt>,
    /// The place of the closing brace. Where `else if` represents a block, the `end` of the last block of its `if`.
    pub end: Span,
}

/// A field, and the value that a change of state gives it.
#[derive(Drop)]
pub struct ResolvedGiven {
    /// The field that gets the value.
    pub field: FieldId,
    /// The place of the field's name.
    pub span: Span,
    /// The expression after `=`.
    pub value: ResolvedExpr,
}

impl Duplicate for ResolvedGiven {
    fn copy(&self, alloc: Global) -> Result<ResolvedGiven, Memory> {
        Ok(ResolvedGiven {
            field: self.field,
            span: self.span,
            value: self.value.copy(alloc)?,
        })
    }
}

/// A statement: its `span` runs from its first token to its last.
#[derive(Drop)]
#[cycle(stmt)]
pub enum ResolvedStmt {
    /// `T x = value;`
    Declare {
        /// The number of the variable.
        local: u32,
        /// The place of its name.
        name: Span,
        of: Kind,
        value: ResolvedExpr,
        span: Span,
    },
    /// `x = value;`
    Assign {
        target: SeenAt,
        value: ResolvedExpr,
        span: Span,
    },
    /// `S::f = value;`
    Stage {
        state: StateId,
        given: ResolvedGiven,
        span: Span,
    },
    /// `->S(f = value, ..);`
    Change {
        state: StateId,
        given: Items<ResolvedGiven>,
        span: Span,
    },
    /// A call or a `new`, with `;` after it.
    Call {
        value: ResolvedExpr,
        span: Span,
    },
    /// `if (x in S) { .. } else { .. }`
    Test {
        subject: SeenAt,
        /// A state of the declared contract or interface of the subject.
        state: StateId,
        then: ResolvedBlock,
        otherwise: Option<ResolvedBlock>,
        span: Span,
    },
    /// `if (condition) { .. } else { .. }`
    If {
        condition: ResolvedExpr,
        then: ResolvedBlock,
        otherwise: Option<ResolvedBlock>,
        span: Span,
    },
    /// `while (condition) { .. }`
    While {
        condition: ResolvedExpr,
        body: ResolvedBlock,
        span: Span,
    },
    /// `return value;`
    Return {
        value: Option<ResolvedExpr>,
        span: Span,
    },
    /// `revert text;`
    Revert {
        text: Option<ResolvedExpr>,
        span: Span,
    },
    /// `disown x;`
    Disown {
        subject: SeenAt,
        span: Span,
    },
    /// `[x @ perm];`
    Assert {
        subject: SeenAt,
        perm: Perm,
        span: Span,
    },
}

#[cycle(copy_stmt)]
fn copy_statements(
    statements: &[ResolvedStmt],
    alloc: Global,
) -> Result<Items<ResolvedStmt>, Memory>
    ensures { IfOk result (λ copies. copies ≡ statements.now) }
{
    let mut copies = Items::new(alloc);
    for statement in statements {
        copies.push(statement.copy(alloc)?)?;
    }
    Ok(copies)
}

#[cycle(copy_stmt)]
fn copy_otherwise(
    block: &Option<ResolvedBlock>,
    alloc: Global,
) -> Result<Option<ResolvedBlock>, Memory>
    ensures { IfOk result (λ copy. copy ≡ block.now) }
{
    match block {
        None => Ok(None),
        Some(block) => Ok(Some(block.copy(alloc)?)),
    }
}

impl Duplicate for ResolvedBlock {
    #[cycle(copy_stmt)]
    fn copy(&self, alloc: Global) -> Result<ResolvedBlock, Memory> {
        Ok(ResolvedBlock {
            statements: copy_statements(self.statements.as_slice(), alloc)?,
            end: self.end,
        })
    }
}

impl Duplicate for ResolvedStmt {
    #[cycle(copy_stmt)]
    fn copy(&self, alloc: Global) -> Result<ResolvedStmt, Memory> {
        match self {
            ResolvedStmt::Declare {
                local,
                name,
                of,
                value,
                span,
            } => Ok(ResolvedStmt::Declare {
                local: *local,
                name: *name,
                of: *of,
                value: value.copy(alloc)?,
                span: *span,
            }),
            ResolvedStmt::Assign {
                target,
                value,
                span,
            } => Ok(ResolvedStmt::Assign {
                target: *target,
                value: value.copy(alloc)?,
                span: *span,
            }),
            ResolvedStmt::Stage { state, given, span } => Ok(ResolvedStmt::Stage {
                state: *state,
                given: given.copy(alloc)?,
                span: *span,
            }),
            ResolvedStmt::Change { state, given, span } => Ok(ResolvedStmt::Change {
                state: *state,
                given: copy_items(alloc, given)?,
                span: *span,
            }),
            ResolvedStmt::Call { value, span } => Ok(ResolvedStmt::Call {
                value: value.copy(alloc)?,
                span: *span,
            }),
            ResolvedStmt::Test {
                subject,
                state,
                then,
                otherwise,
                span,
            } => {
                let (then, otherwise) = both(then.copy(alloc), copy_otherwise(otherwise, alloc))?;
                Ok(ResolvedStmt::Test {
                    subject: *subject,
                    state: *state,
                    then,
                    otherwise,
                    span: *span,
                })
            }
            ResolvedStmt::If {
                condition,
                then,
                otherwise,
                span,
            } => {
                let (condition, (then, otherwise)) = both(
                    condition.copy(alloc),
                    both(then.copy(alloc), copy_otherwise(otherwise, alloc)),
                )?;
                Ok(ResolvedStmt::If {
                    condition,
                    then,
                    otherwise,
                    span: *span,
                })
            }
            ResolvedStmt::While {
                condition,
                body,
                span,
            } => {
                let (condition, body) = both(condition.copy(alloc), body.copy(alloc))?;
                Ok(ResolvedStmt::While {
                    condition,
                    body,
                    span: *span,
                })
            }
            ResolvedStmt::Return { value, span } => Ok(ResolvedStmt::Return {
                value: copy_option(alloc, value)?,
                span: *span,
            }),
            ResolvedStmt::Revert { text, span } => Ok(ResolvedStmt::Revert {
                text: copy_option(alloc, text)?,
                span: *span,
            }),
            ResolvedStmt::Disown { subject, span } => Ok(ResolvedStmt::Disown {
                subject: *subject,
                span: *span,
            }),
            ResolvedStmt::Assert {
                subject,
                perm,
                span,
            } => Ok(ResolvedStmt::Assert {
                subject: *subject,
                perm: *perm,
                span: *span,
            }),
        }
    }
}
