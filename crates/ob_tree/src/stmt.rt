//! Statements as they are written (the Obsidian language documentation, "Statements").
ghost use Rattle.std.specs.Prelude.{◌≡◌, IfOk};

use crate::expr::Expr;
use crate::name::{NamePart, NamedNode, PermNode, Subject};
use ob_base::{Duplicate, Items, Memory, Span, both, copy_items, copy_option};
use std::alloc::Global;

/// `{ statements }`.
#[derive(Debug, Drop)]
#[cycle(stmt)]
pub struct Block {
    /// The statements, in the order of the text.
    pub statements: Items<Stmt>,
    /// The place of the closing brace. Where `else if` represents a block, the `end` of the last block of its `if`.
    pub end: Span,
}

/// `f = value`, in the parentheses of a change of state.
#[derive(Debug, Drop)]
pub struct GivenNode {
    /// The name before `=`.
    pub field: NamePart,
    /// The expression after `=`.
    pub value: Expr,
}

impl Duplicate for GivenNode {
    fn copy(&self, alloc: Global) -> Result<GivenNode, Memory> {
        let (field, value) = both(self.field.copy(alloc), self.value.copy(alloc))?;
        Ok(GivenNode { field, value })
    }
}

/// The type of a local variable, which is written with no permission.
#[derive(Debug, Drop)]
pub enum LocalType {
    /// `int`, and the place of the word.
    Int(Span),
    /// `bool`, and the place of the word.
    Bool(Span),
    /// `string`, and the place of the word.
    Text(Span),
    /// A contract, an interface or a type parameter.
    Named(NamedNode),
}

impl Duplicate for LocalType {
    fn copy(&self, alloc: Global) -> Result<LocalType, Memory> {
        match self {
            LocalType::Int(span) => Ok(LocalType::Int(*span)),
            LocalType::Bool(span) => Ok(LocalType::Bool(*span)),
            LocalType::Text(span) => Ok(LocalType::Text(*span)),
            LocalType::Named(of) => Ok(LocalType::Named(of.copy(alloc)?)),
        }
    }
}

/// A statement: its `span` runs from its first token to its last.
#[derive(Debug, Drop)]
#[cycle(stmt)]
pub enum Stmt {
    /// `T x = value;`
    Declare {
        of: LocalType,
        name: NamePart,
        value: Expr,
        span: Span,
    },
    /// `x = value;`
    Assign {
        name: NamePart,
        value: Expr,
        span: Span,
    },
    /// `S::f = value;`
    Stage {
        state: NamePart,
        field: NamePart,
        value: Expr,
        span: Span,
    },
    /// `->S(f = value, ..);`
    Change {
        state: NamePart,
        given: Items<GivenNode>,
        span: Span,
    },
    /// A call or a `new`, with `;` after it.
    Call {
        value: Expr,
        span: Span,
    },
    /// `if (x in S) { .. } else { .. }`
    Test {
        subject: Subject,
        state: NamePart,
        then: Block,
        otherwise: Option<Block>,
        span: Span,
    },
    /// `if (condition) { .. } else { .. }`
    If {
        condition: Expr,
        then: Block,
        otherwise: Option<Block>,
        span: Span,
    },
    /// `while (condition) { .. }`
    While {
        condition: Expr,
        body: Block,
        span: Span,
    },
    /// `return value;`
    Return {
        value: Option<Expr>,
        span: Span,
    },
    /// `revert text;`
    Revert {
        text: Option<Expr>,
        span: Span,
    },
    /// `disown x;`
    Disown {
        name: NamePart,
        span: Span,
    },
    /// `[x @ perm];`
    Assert {
        subject: Subject,
        perm: PermNode,
        span: Span,
    },
}

fn copy_declare(
    alloc: Global,
    of: &LocalType,
    name: &NamePart,
    value: &Expr,
    span: Span,
) -> Result<Stmt, Memory>
    ensures { IfOk result (λ copy. copy ≡ Stmt.Declare of.now name.now value.now span) }
{
    let ((of, name), value) = both(both(of.copy(alloc), name.copy(alloc)), value.copy(alloc))?;
    Ok(Stmt::Declare {
        of,
        name,
        value,
        span,
    })
}

fn copy_assign(alloc: Global, name: &NamePart, value: &Expr, span: Span) -> Result<Stmt, Memory>
    ensures { IfOk result (λ copy. copy ≡ Stmt.Assign name.now value.now span) }
{
    let (name, value) = both(name.copy(alloc), value.copy(alloc))?;
    Ok(Stmt::Assign { name, value, span })
}

fn copy_stage(
    alloc: Global,
    state: &NamePart,
    field: &NamePart,
    value: &Expr,
    span: Span,
) -> Result<Stmt, Memory>
    ensures { IfOk result (λ copy. copy ≡ Stmt.Stage state.now field.now value.now span) }
{
    let ((state, field), value) = both(
        both(state.copy(alloc), field.copy(alloc)),
        value.copy(alloc),
    )?;
    Ok(Stmt::Stage {
        state,
        field,
        value,
        span,
    })
}

fn copy_change(
    alloc: Global,
    state: &NamePart,
    given: &Items<GivenNode>,
    span: Span,
) -> Result<Stmt, Memory>
    ensures { IfOk result (λ copy. copy ≡ Stmt.Change state.now given.now span) }
{
    let (state, given) = both(state.copy(alloc), copy_items(alloc, given))?;
    Ok(Stmt::Change { state, given, span })
}

fn copy_call(alloc: Global, value: &Expr, span: Span) -> Result<Stmt, Memory>
    ensures { IfOk result (λ copy. copy ≡ Stmt.Call value.now span) }
{
    Ok(Stmt::Call {
        value: value.copy(alloc)?,
        span,
    })
}

fn copy_return(alloc: Global, value: &Option<Expr>, span: Span) -> Result<Stmt, Memory>
    ensures { IfOk result (λ copy. copy ≡ Stmt.Return value.now span) }
{
    Ok(Stmt::Return {
        value: copy_option(alloc, value)?,
        span,
    })
}

fn copy_revert(alloc: Global, text: &Option<Expr>, span: Span) -> Result<Stmt, Memory>
    ensures { IfOk result (λ copy. copy ≡ Stmt.Revert text.now span) }
{
    Ok(Stmt::Revert {
        text: copy_option(alloc, text)?,
        span,
    })
}

fn copy_disown(alloc: Global, name: &NamePart, span: Span) -> Result<Stmt, Memory>
    ensures { IfOk result (λ copy. copy ≡ Stmt.Disown name.now span) }
{
    Ok(Stmt::Disown {
        name: name.copy(alloc)?,
        span,
    })
}

fn copy_assert(
    alloc: Global,
    subject: &Subject,
    perm: &PermNode,
    span: Span,
) -> Result<Stmt, Memory>
    ensures { IfOk result (λ copy. copy ≡ Stmt.Assert subject.now perm.now span) }
{
    let (subject, perm) = both(subject.copy(alloc), perm.copy(alloc))?;
    Ok(Stmt::Assert {
        subject,
        perm,
        span,
    })
}

#[cycle(copy_stmt)]
fn copy_statements(statements: &[Stmt], alloc: Global) -> Result<Items<Stmt>, Memory>
    ensures { IfOk result (λ copies. copies ≡ statements.now) }
{
    let mut copies = Items::new(alloc);
    for statement in statements {
        copies.push(statement.copy(alloc)?)?;
    }
    Ok(copies)
}

#[cycle(copy_stmt)]
fn copy_otherwise(block: &Option<Block>, alloc: Global) -> Result<Option<Block>, Memory>
    ensures { IfOk result (λ copy. copy ≡ block.now) }
{
    match block {
        None => Ok(None),
        Some(block) => Ok(Some(block.copy(alloc)?)),
    }
}

impl Duplicate for Block {
    #[cycle(copy_stmt)]
    fn copy(&self, alloc: Global) -> Result<Block, Memory> {
        Ok(Block {
            statements: copy_statements(self.statements.as_slice(), alloc)?,
            end: self.end,
        })
    }
}

impl Duplicate for Stmt {
    #[cycle(copy_stmt)]
    fn copy(&self, alloc: Global) -> Result<Stmt, Memory> {
        match self {
            Stmt::Declare {
                of,
                name,
                value,
                span,
            } => copy_declare(alloc, of, name, value, *span),
            Stmt::Assign { name, value, span } => copy_assign(alloc, name, value, *span),
            Stmt::Stage {
                state,
                field,
                value,
                span,
            } => copy_stage(alloc, state, field, value, *span),
            Stmt::Change { state, given, span } => copy_change(alloc, state, given, *span),
            Stmt::Call { value, span } => copy_call(alloc, value, *span),
            Stmt::Test {
                subject,
                state,
                then,
                otherwise,
                span,
            } => {
                let ((subject, state), (then, otherwise)) = both(
                    both(subject.copy(alloc), state.copy(alloc)),
                    both(then.copy(alloc), copy_otherwise(otherwise, alloc)),
                )?;
                Ok(Stmt::Test {
                    subject,
                    state,
                    then,
                    otherwise,
                    span: *span,
                })
            }
            Stmt::If {
                condition,
                then,
                otherwise,
                span,
            } => {
                let (condition, (then, otherwise)) = both(
                    condition.copy(alloc),
                    both(then.copy(alloc), copy_otherwise(otherwise, alloc)),
                )?;
                Ok(Stmt::If {
                    condition,
                    then,
                    otherwise,
                    span: *span,
                })
            }
            Stmt::While {
                condition,
                body,
                span,
            } => {
                let (condition, body) = both(condition.copy(alloc), body.copy(alloc))?;
                Ok(Stmt::While {
                    condition,
                    body,
                    span: *span,
                })
            }
            Stmt::Return { value, span } => copy_return(alloc, value, *span),
            Stmt::Revert { text, span } => copy_revert(alloc, text, *span),
            Stmt::Disown { name, span } => copy_disown(alloc, name, *span),
            Stmt::Assert {
                subject,
                perm,
                span,
            } => copy_assert(alloc, subject, perm, *span),
        }
    }
}
