//! Parameters, `this` among them.
ghost use Rattle.std.specs.Prelude.{◌≡◌, ◌∷◌, [], ◌++◌, map, IfOk, OnOk};
ghost use Rattle.ob_tree.specs.NamesView.{ref_of, type_of};
ghost use Rattle.ob_tree.specs.MembersView.{formal_of, contract_of};
ghost use Rattle.ob_table_spec.specs.Names.{in_order};
ghost use Rattle.ob_resolve_spec.specs.Declarations.{params_of};
ghost use Rattle.ob_resolve_spec.specs.Kinds.{is_value_type};
ghost use Rattle.ob_resolve_spec.specs.Sites.{has_exit, takes_this};
ghost use Rattle.ob_resolve_spec.specs.StatementSites.{span_of_subject};
ghost use Rattle.ob_resolve_spec.specs.MemberSites.{formal_type_sites, this_sites, subject_param_sites, formal_sites, formals_sites};
ghost use Rattle.ob_resolve_scope.specs.Types.{program_of};
ghost use Rattle.ob_resolve_sites.specs.Noted.{noted_at, noted};
ghost use Rattle.ob_resolve_members.specs.Parts.{visible_around, type_of_this_sites, formal_sites_after};

use crate::declared_name::DeclaredName;
use crate::distinct::{note_limit, note_names};
use crate::written::walk_ref;
use ob_base::{Items, MOST_PARAMS, Memory, Span, WRONG_KIND};
use ob_resolve_scope::AroundBody;
use ob_resolve_sites::{Least, note_if};
use ob_resolve_spec::InferredKind;
use ob_tree::{FormalNode, PermNode, RefNode, Subject, TypeNode};
use std::alloc::Global;

fn is_value_type(of: &TypeNode) -> bool
    ensures { result ≡ is_value_type (type_of of.now) }
{
    match of {
        TypeNode::Int(_) => true,
        TypeNode::Bool(_) => true,
        TypeNode::Text(_) => true,
        TypeNode::Reference(_) => false,
    }
}

/// A parameter of this type has this after `>>`.
fn note_exit(least: &mut Least, of: &TypeNode, exit: &Option<PermNode>, span: Span)
    ensures { least.new ≡ noted_at least.old (has_exit (type_of of.now) exit.now span) }
{
    note_if(least, is_value_type(of) && exit.is_some(), WRONG_KIND, span);
}

/// The type of a parameter, and what stands after `>>`.
fn walk_formal_type(
    alloc: Global,
    around: &AroundBody<'_>,
    of: &TypeNode,
    exit: &Option<PermNode>,
    span: Span,
    least: &mut Least,
)
    ensures { least.new ≡ noted least.old (formal_type_sites (visible_around around.now) (type_of of.now) exit.now span) }
{
    match of {
        TypeNode::Int(_) => note_exit(least, of, exit, span),
        TypeNode::Bool(_) => note_exit(least, of, exit, span),
        TypeNode::Text(_) => note_exit(least, of, exit, span),
        TypeNode::Reference(of) => walk_ref(alloc, around, of, exit, least),
    }
}

/// `this` is a parameter of this type after so many others, of a constructor or not.
fn note_takes_this(least: &mut Least, before: usize, constructor: bool, of: &TypeNode, span: Span)
    ensures { least.new ≡ noted_at least.old (takes_this before constructor (type_of of.now) span) }
{
    let wrong = 0 < before || constructor || is_value_type(of);
    note_if(least, wrong, WRONG_KIND, span);
}

/// The type of `this` has the name of the contract around, if its kind is known.
#[tactic(auto, using(crate::proofs::ParamLemmas::params))]
fn note_type_of_this(least: &mut Least, around: &AroundBody<'_>, of: &RefNode)
    ensures { least.new ≡ noted least.old (type_of_this_sites (visible_around around.now) (ref_of of.now)) }
{
    let known = around.declared().types().kind_of_ref(of) != InferredKind::Unknown;
    let other = around.node().name.as_bytes() != of.of.name.as_bytes();
    note_if(least, known && other, WRONG_KIND, of.of.span);
}

/// `this` as a parameter.
#[tactic(auto, using(crate::proofs::ParamLemmas::params))]
fn walk_this(
    around: &AroundBody<'_>,
    before: usize,
    constructor: bool,
    of: &TypeNode,
    span: Span,
    least: &mut Least,
)
    ensures { least.new ≡ noted least.old (this_sites (visible_around around.now) before constructor (type_of of.now) span) }
{
    note_takes_this(least, before, constructor, of, span);
    match of {
        TypeNode::Int(_) => {}
        TypeNode::Bool(_) => {}
        TypeNode::Text(_) => {}
        TypeNode::Reference(of) => note_type_of_this(least, around, of),
    }
}

fn span_of_subject(subject: &Subject) -> Span
    ensures { result ≡ span_of_subject subject.now }
{
    match subject {
        Subject::This(span) => *span,
        Subject::Name(name) => name.span,
    }
}

/// A parameter by what it is called: `this` is asked for more.
fn walk_subject(
    around: &AroundBody<'_>,
    before: usize,
    constructor: bool,
    param: &FormalNode,
    least: &mut Least,
)
    ensures { least.new ≡ noted least.old (subject_param_sites (visible_around around.now) before constructor (type_of param.now.of) param.now.name) }
{
    match &param.name {
        Subject::This(span) => walk_this(around, before, constructor, &param.of, *span, least),
        Subject::Name(_) => {}
    }
}

/// One parameter after so many others, of a constructor or not.
#[tactic(auto, using(ob_resolve_sites::specs::Noted::notes))]
fn walk_formal(
    alloc: Global,
    around: &AroundBody<'_>,
    before: usize,
    constructor: bool,
    param: &FormalNode,
    least: &mut Least,
)
    ensures { least.new ≡ noted least.old (formal_sites_after (visible_around around.now) constructor before (formal_of param.now)) }
{
    let span = span_of_subject(&param.name);
    walk_formal_type(alloc, around, &param.of, &param.exit, span, least);
    walk_subject(around, before, constructor, param, least);
}

#[tactic(auto, using(crate::proofs::ParamLemmas::params))]
fn walk_formals(
    alloc: Global,
    around: &AroundBody<'_>,
    constructor: bool,
    params: &[FormalNode],
    least: &mut Least,
)
    ensures { least.new ≡ noted least.old (in_order (formal_sites (visible_around around.now) constructor) (map formal_of params.now)) }
{
    for before in 0..params.len() {
        walk_formal(alloc, around, before, constructor, &params[before], least);
    }
}

fn add_param<'a>(names: &mut Items<DeclaredName<'a>>, param: &'a FormalNode) -> Result<(), Memory>
    ensures { OnOk result (names.new ≡ names.old ++ map (λ p. p.name) (params_of (formal_of param.now ∷ []))) }
{
    match &param.name {
        Subject::This(_) => {}
        Subject::Name(name) => names.push(DeclaredName::of_part(name))?,
    }
    Ok(())
}

/// The names of parameters, without `this`.
#[tactic(auto, using(crate::proofs::ListTurns::list_turns))]
fn param_names<'a>(
    alloc: Global,
    params: &'a [FormalNode],
) -> Result<Items<DeclaredName<'a>>, Memory>
    ensures { IfOk result (λ names. names ≡ map (λ p. p.name) (params_of (map formal_of params.now))) }
{
    let mut names = Items::new(alloc);
    for param in params {
        add_param(&mut names, param)?;
    }
    Ok(names)
}

/// Parameters, of a constructor or not; the names of fields are taken.
#[tactic(auto, using(crate::proofs::ParamLemmas::params))]
pub fn walk_params(
    alloc: Global,
    around: &AroundBody<'_>,
    constructor: bool,
    params: &[FormalNode],
    least: &mut Least,
) -> Result<(), Memory>
    ensures { OnOk result (least.new ≡ noted least.old (formals_sites (program_of around.now.program) (contract_of around.now.own) constructor (map formal_of params.now))) }
{
    walk_formals(alloc, around, constructor, params, least);
    let names = param_names(alloc, params)?;
    note_names(alloc, Some(around), names.as_slice(), least)?;
    note_limit(alloc, MOST_PARAMS, names.as_slice(), least)
}
