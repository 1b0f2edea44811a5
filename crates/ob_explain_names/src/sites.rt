//! Where in a program a place is: in which contract, member and statement, and which variables are visible there.

use crate::near::Near;
use crate::within::{Within, base_of};
use ob_base::{LIMIT, MOST_CONTRACTS, Memory, ProgramFault, Span};
use ob_explain_page::word_of;
use ob_resolve::fault_of_contract;
use ob_resolve_scope::{AroundBody, Declared, Scope, Types, scope_of_params};
use ob_resolve_spec::InferredKind;
use ob_tree::{Block, ContractNode, FormalNode, Member, NamePart, Stmt, Subject, Tree};
use std::alloc::Global;

/// What is looked at of a program at a place.
#[derive(Clone, Copy)]
pub struct View<'a> {
    /// The tokens.
    pub near: Near<'a>,
    /// The program as it is written.
    pub written: &'a Tree,
    /// The instance in which the place is looked at, if it is in one.
    pub within: Option<Within<'a>>,
}

/// What stands around a place.
#[derive(Drop)]
pub struct Site<'a> {
    /// The tokens.
    pub near: Near<'a>,
    /// The contract.
    pub around: AroundBody<'a>,
    /// The program as it is written.
    pub written: &'a Tree,
    /// The instance that the contract is, if it is one.
    pub within: Option<Within<'a>>,
    /// The transaction or constructor.
    pub member: Option<&'a Member>,
    /// The innermost statement.
    pub statement: Option<&'a Stmt>,
    /// The variables that are visible.
    pub scope: Scope,
    /// Where they are declared.
    pub variables: Vec<&'a NamePart>,
}

fn holds(span: Span, place: u32) -> bool {
    span.start <= place && place < span.end
}

// The place of a statement.
fn span_of_stmt(stmt: &Stmt) -> Span {
    match stmt {
        Stmt::Declare { span, .. } => *span,
        Stmt::Assign { span, .. } => *span,
        Stmt::Stage { span, .. } => *span,
        Stmt::Change { span, .. } => *span,
        Stmt::Call { span, .. } => *span,
        Stmt::Test { span, .. } => *span,
        Stmt::If { span, .. } => *span,
        Stmt::While { span, .. } => *span,
        Stmt::Return { span, .. } => *span,
        Stmt::Revert { span, .. } => *span,
        Stmt::Disown { span, .. } => *span,
        Stmt::Assert { span, .. } => *span,
    }
}

// The transaction or constructor around a place.
fn member_at(members: &[Member], place: u32) -> Option<&Member> {
    for member in members {
        match member {
            Member::Constructor { span, .. } | Member::Transaction { span, .. } => {
                if holds(*span, place) {
                    return Some(member);
                }
            }
            Member::State { .. } | Member::Field(_) => {}
        }
    }
    None
}

/// The parameters of a transaction or constructor.
pub fn params_of(member: Option<&Member>) -> &[FormalNode] {
    match member {
        Some(Member::Constructor { params, .. }) => params.as_slice(),
        Some(Member::Transaction { params, .. }) => params.as_slice(),
        _ => &[],
    }
}

fn body_of(member: Option<&Member>) -> Option<&Block> {
    match member {
        Some(Member::Constructor { body, .. }) => Some(body),
        Some(Member::Transaction { body, .. }) => body.as_ref(),
        _ => None,
    }
}

/// Whether the last statement of a transaction or constructor is a `while`.
pub fn ends_with_while(member: Option<&Member>) -> bool {
    match body_of(member) {
        Some(body) => matches!(body.statements.as_slice().last(), Some(Stmt::While { .. })),
        None => false,
    }
}

// The kind of the result.
fn result_of(types: &Types<'_>, member: Option<&Member>) -> InferredKind {
    match member {
        Some(Member::Transaction { result, .. }) => types.kind_of_result(result),
        _ => InferredKind::Nothing,
    }
}

/// The number of the contract around a place, as it is written: the last one whose name stands there or before.
pub fn number_at(nodes: &[ContractNode], place: u32) -> usize {
    let before = nodes
        .iter()
        .take_while(|node| node.span.start <= place)
        .count();
    before.saturating_sub(1)
}

// Whether a contract stands around a place: from its name to its closing brace.
fn is_around(node: &ContractNode, place: u32) -> bool {
    node.span.start <= place && place < node.end.end
}

// Whether a fault is that of this place and number.
fn is_same(found: Option<ProgramFault>, fault: ProgramFault) -> bool {
    match found {
        Some(other) => other.number == fault.number && other.span.start == fault.span.start,
        None => false,
    }
}

// Whether a fault is that of the first contract past the limit.
fn is_past_limit(nodes: &[ContractNode], fault: ProgramFault) -> bool {
    match nodes.get(MOST_CONTRACTS) {
        Some(node) => fault.number == LIMIT && node.span.start == fault.span.start,
        None => false,
    }
}

// The first contract around a place that has a fault by itself.
fn first_with_fault(
    alloc: Global,
    declared: &Declared<'_>,
    fault: ProgramFault,
) -> Result<Option<usize>, Memory> {
    let nodes = declared.types().nodes();
    for number in 0..nodes.len() {
        if is_around(&nodes[number], fault.span.start)
            && is_same(fault_of_contract(alloc, declared, number)?, fault)
        {
            return Ok(Some(number));
        }
    }
    Ok(None)
}

// The first contract around a place, or the last one whose name stands before it.
fn first_around(nodes: &[ContractNode], place: u32) -> usize {
    match nodes.iter().position(|node| is_around(node, place)) {
        Some(number) => number,
        None => number_at(nodes, place),
    }
}

/// The number of the contract in which a fault of a tree of instances is: instances of one contract have the same places, and of these it is
/// the first that has the fault by itself.
pub fn number_of_fault(
    alloc: Global,
    declared: &Declared<'_>,
    fault: ProgramFault,
) -> Result<usize, Memory> {
    let nodes = declared.types().nodes();
    if is_past_limit(nodes, fault) {
        return Ok(MOST_CONTRACTS);
    }
    match first_with_fault(alloc, declared, fault)? {
        Some(number) => Ok(number),
        None => Ok(first_around(nodes, fault.span.start)),
    }
}

// The first instance of the generic contract or interface of a name.
fn first_instance(nodes: &[ContractNode], base: &str) -> Option<usize> {
    nodes
        .iter()
        .position(|node| base_of(word_of(node.name.as_bytes())) == base)
}

// Whether a statement of a block stands around a place.
fn is_inside(block: &Block, place: u32) -> bool {
    for stmt in block.statements.as_slice() {
        if holds(span_of_stmt(stmt), place) {
            return true;
        }
    }
    false
}

// The blocks of a statement.
fn blocks_of(stmt: &Stmt) -> Option<(&Block, Option<&Block>)> {
    match stmt {
        Stmt::Test {
            then,
            otherwise,
            ..
        } => Some((then, otherwise.as_ref())),
        Stmt::If {
            then,
            otherwise,
            ..
        } => Some((then, otherwise.as_ref())),
        Stmt::While { body, .. } => Some((body, None)),
        _ => None,
    }
}

// A block, if a place is in it.
fn if_inside(block: &Block, place: u32) -> Option<&Block> {
    if is_inside(block, place) {
        Some(block)
    } else {
        None
    }
}

// The block of a statement in which a place is.
fn block_at(stmt: &Stmt, place: u32) -> Option<&Block> {
    match blocks_of(stmt) {
        Some((then, Some(otherwise))) => if_inside(then, place).or(if_inside(otherwise, place)),
        Some((then, None)) => if_inside(then, place),
        None => None,
    }
}

/// The contract of this number around a place, with the kind of the result there.
pub fn around_at<'a>(declared: &'a Declared<'a>, own: usize, place: u32) -> Option<AroundBody<'a>> {
    let types = declared.types();
    let Some(node) = types.node(own) else {
        return None;
    };
    let member = member_at(node.members.as_slice(), place);
    AroundBody::new(declared, own, result_of(types, member))
}

impl<'a> Site<'a> {
    // In a member of the contract around, whose parameters are visible.
    fn begin(
        alloc: Global,
        view: View<'a>,
        around: AroundBody<'a>,
        member: Option<&'a Member>,
    ) -> Result<Site<'a>, Memory> {
        let scope = scope_of_params(alloc, around.declared().types(), params_of(member))?;
        Ok(Site {
            near: view.near,
            written: view.written,
            within: view.within,
            around,
            member,
            statement: None,
            scope,
            variables: Vec::new(alloc),
        })
    }

    // Notes where the parameters are declared.
    fn note_params(&mut self) -> Result<(), Memory> {
        for param in params_of(self.member) {
            if let Subject::Name(name) = &param.name {
                self.variables.push(name)?;
            }
        }
        Ok(())
    }

    // Has the variable that a statement declares be visible.
    fn note_declared(&mut self, alloc: Global, stmt: &'a Stmt) -> Result<(), Memory> {
        if let Stmt::Declare { of, name, .. } = stmt {
            let kind = self.types().kind_of_local(of);
            self.scope.add_local(alloc, &name.name, kind)?;
            self.variables.push(name)?;
        }
        Ok(())
    }

    // The statement of a block that stands around a place, after those before it were looked at.
    fn statement_in(
        &mut self,
        alloc: Global,
        block: &'a Block,
        place: u32,
    ) -> Result<Option<&'a Stmt>, Memory> {
        for stmt in block.statements.as_slice() {
            if holds(span_of_stmt(stmt), place) {
                return Ok(Some(stmt));
            }
            self.note_declared(alloc, stmt)?;
        }
        Ok(None)
    }

    // Goes to the innermost statement around a place. No more blocks than may be open are gone into.
    fn go_into(&mut self, alloc: Global, body: &'a Block, place: u32) -> Result<(), Memory> {
        let mut block = body;
        for _ in 0..128 {
            let Some(stmt) = self.statement_in(alloc, block, place)? else {
                return Ok(());
            };
            self.statement = Some(stmt);
            match block_at(stmt, place) {
                Some(inner) => block = inner,
                None => return Ok(()),
            }
        }
        Ok(())
    }

    // Goes from the beginning of the member to a place in it.
    fn go_to(&mut self, alloc: Global, place: u32) -> Result<(), Memory> {
        self.note_params()?;
        match body_of(self.member) {
            Some(body) => self.go_into(alloc, body, place),
            None => Ok(()),
        }
    }

    /// What stands around a place of this contract.
    pub fn at(
        alloc: Global,
        view: View<'a>,
        around: AroundBody<'a>,
        place: u32,
    ) -> Result<Site<'a>, Memory> {
        let member = member_at(around.node().members.as_slice(), place);
        let mut site = Site::begin(alloc, view, around, member)?;
        site.go_to(alloc, place)?;
        Ok(site)
    }

    /// The contracts of the program.
    pub fn types(&self) -> &'a Types<'a> {
        self.around.declared().types()
    }

    /// The instance of this printed name.
    pub fn instance_named(&self, name: &'a str) -> Option<Within<'a>> {
        Within::new(self.written, name)
    }

    /// The contract or interface that a name denotes here, without an argument: the type parameter denotes that of the argument.
    pub fn base(&self, name: &'a str) -> &'a str {
        match &self.within {
            Some(within) => within.base(name),
            None => name,
        }
    }

    /// Whether a name is that of the type parameter here.
    pub fn is_param(&self, name: &str) -> bool {
        match &self.within {
            Some(within) => within.param() == name,
            None => false,
        }
    }

    /// The name of the contract around, as it is written.
    pub fn own_name(&self) -> &'a str {
        base_of(word_of(self.around.node().name.as_bytes()))
    }

    /// The number of the contract or interface of a name here, or of its first instance.
    pub fn contract_named(&self, name: &'a str) -> Option<usize> {
        let base = self.base(name);
        match self.types().find(base.as_bytes()) {
            Some(number) => Some(number),
            None => first_instance(self.types().nodes(), base),
        }
    }
}
