//! Contracts that don't have what their interface asks.

use crate::near::Near;
use crate::sites::{Site, params_of};
use crate::within::{Within, base_of};
use ob_explain_page::{Explanation, Words, word_of};
use ob_tree::{ContractNode, FormalNode, Member, NamePart, NamedNode, PermNode, Subject, TypeNode};

fn state_of(member: &Member) -> Option<&NamePart> {
    match member {
        Member::State { name, .. } => Some(name),
        _ => None,
    }
}

fn has_state(node: &ContractNode, name: &[u8]) -> bool {
    for member in node.members.as_slice() {
        if let Some(state) = state_of(member) {
            if state.name.as_bytes() == name {
                return true;
            }
        }
    }
    false
}

// The first state of the interface that the contract doesn't have.
fn missing_state<'a>(interface: &'a ContractNode, own: &ContractNode) -> Option<&'a str> {
    for member in interface.members.as_slice() {
        if let Some(state) = state_of(member) {
            if !has_state(own, state.name.as_bytes()) {
                return Some(word_of(state.name.as_bytes()));
            }
        }
    }
    None
}

fn name_of(member: &Member) -> Option<&NamePart> {
    match member {
        Member::Transaction { name, .. } => Some(name),
        _ => None,
    }
}

// The contract's transaction of a name.
fn transaction_of<'a>(node: &'a ContractNode, name: &[u8]) -> Option<&'a Member> {
    for member in node.members.as_slice() {
        if let Some(found) = name_of(member) {
            if found.name.as_bytes() == name {
                return Some(member);
            }
        }
    }
    None
}

// Whether two permissions are written with the same words, in whatever order.
fn same_states(one: &[NamePart], other: &[NamePart]) -> bool {
    one.iter().all(|state| {
        other
            .iter()
            .any(|found| found.name.as_bytes() == state.name.as_bytes())
    })
}

fn same_perm(one: &PermNode, other: &PermNode) -> bool {
    match (one, other) {
        (PermNode::Mode(one, _), PermNode::Mode(other, _)) => *one == *other,
        (PermNode::States(one), PermNode::States(other)) => {
            same_states(one.as_slice(), other.as_slice())
                && same_states(other.as_slice(), one.as_slice())
        }
        _ => false,
    }
}

fn same_named(one: &NamedNode, other: &NamedNode) -> bool {
    one.name.as_bytes() == other.name.as_bytes()
}

/// Whether two types are written with the same words; the contract's own type takes the place of its interface's.
pub fn same_type(one: &TypeNode, other: &TypeNode, is_this: bool) -> bool {
    match (one, other) {
        (TypeNode::Int(_), TypeNode::Int(_)) => true,
        (TypeNode::Bool(_), TypeNode::Bool(_)) => true,
        (TypeNode::Text(_), TypeNode::Text(_)) => true,
        (TypeNode::Reference(one), TypeNode::Reference(other)) => {
            (is_this || same_named(&one.of, &other.of)) && same_perm(&one.perm, &other.perm)
        }
        _ => false,
    }
}

fn exit_of(formal: &FormalNode) -> Option<&PermNode> {
    match (&formal.exit, &formal.of) {
        (Some(exit), _) => Some(exit),
        (None, TypeNode::Reference(of)) => Some(&of.perm),
        _ => None,
    }
}

fn same_exit(one: &FormalNode, other: &FormalNode) -> bool {
    match (exit_of(one), exit_of(other)) {
        (Some(one), Some(other)) => same_perm(one, other),
        (None, None) => true,
        _ => false,
    }
}

fn is_this(formal: &FormalNode) -> bool {
    matches!(formal.name, Subject::This(_))
}

// Whether `this` is a parameter of a transaction.
fn has_this(member: &Member) -> bool {
    for param in params_of(Some(member)) {
        if is_this(param) {
            return true;
        }
    }
    false
}

fn same_param(one: &FormalNode, other: &FormalNode) -> bool {
    same_type(&one.of, &other.of, is_this(one) && is_this(other)) && same_exit(one, other)
}

// The first parameter that isn't as it is asked, of as many.
fn differing_param<'a>(asked: &'a [FormalNode], has: &[FormalNode]) -> Option<&'a str> {
    for pair in asked.iter().zip(has.iter()) {
        if !same_param(pair.0, pair.1) {
            return match &pair.0.name {
                Subject::This(_) => Some("this"),
                Subject::Name(name) => Some(word_of(name.name.as_bytes())),
            };
        }
    }
    None
}

/// In what a transaction differs from the one that is asked.
#[derive(Clone, Copy)]
enum Difference<'a> {
    Private,
    Count,
    /// A parameter, by its name in the interface.
    Param(&'a str),
    Result,
    /// One alone has a result.
    Giving,
}

fn is_private(member: &Member) -> bool {
    matches!(member, Member::Transaction { private: true, .. })
}

fn result_of(member: &Member) -> Option<&TypeNode> {
    match member {
        Member::Transaction { result, .. } => result.as_ref(),
        _ => None,
    }
}

// How the results differ.
fn different_result(
    asked: Option<&TypeNode>,
    has: Option<&TypeNode>,
) -> Option<Difference<'static>> {
    match (asked, has) {
        (Some(one), Some(other)) => {
            if same_type(one, other, false) {
                None
            } else {
                Some(Difference::Result)
            }
        }
        (None, None) => None,
        _ => Some(Difference::Giving),
    }
}

// How the parameters differ.
fn different_params<'a>(asked: &'a [FormalNode], has: &[FormalNode]) -> Option<Difference<'a>> {
    if asked.len() != has.len() {
        return Some(Difference::Count);
    }
    match differing_param(asked, has) {
        Some(name) => Some(Difference::Param(name)),
        None => None,
    }
}

// The first part in which two transactions differ.
fn first_difference<'a>(asked: &'a Member, has: &Member) -> Option<Difference<'a>> {
    if is_private(has) {
        return Some(Difference::Private);
    }
    match different_params(params_of(Some(asked)), params_of(Some(has))) {
        Some(found) => Some(found),
        None => different_result(result_of(asked), result_of(has)),
    }
}

// In words.
fn put_difference(words: &mut Words, difference: Difference<'_>) {
    match difference {
        Difference::Private => words.put("it is private"),
        Difference::Count => words.put("the number of parameters differs, `this` counted"),
        Difference::Param(name) => words.put_with(
            "the parameter `{}` differs in its type or in a permission",
            &[name],
        ),
        Difference::Result => words.put("the result differs"),
        Difference::Giving => words.put("one has a result and the other has none"),
    }
}

// How to mend it, where the same is said of all transactions.
fn help_with(difference: Difference<'_>) -> &'static str {
    match difference {
        Difference::Private => "leave `private` out.",
        _ => "",
    }
}

// What of a text stands before its first brace.
fn before_brace(text: &str) -> &str {
    match text.split_once('{') {
        Some((head, _)) => head.trim(),
        None => text,
    }
}

// The head of a transaction as it is written.
fn head_of<'a>(near: &Near<'a>, member: &Member) -> &'a str {
    match member {
        Member::Transaction {
            span,
            body: Some(_),
            ..
        } => before_brace(near.between(*span, span.end)),
        Member::Transaction { span, .. } => near.between(*span, span.end).trim_end_matches(';'),
        _ => "",
    }
}

fn name_in_words(member: &Member) -> &str {
    match name_of(member) {
        Some(name) => word_of(name.name.as_bytes()),
        None => "",
    }
}

/// A contract, its interface and the tokens around a place.
#[derive(Clone, Copy)]
struct Answering<'a> {
    near: Near<'a>,
    own: &'a ContractNode,
    interface: &'a ContractNode,
    /// The instance that the interface is, if it is one.
    within: Option<Within<'a>>,
}

impl<'a> Answering<'a> {
    // The contract's name.
    fn name(&self) -> &'a str {
        word_of(self.own.name.as_bytes())
    }

    // The interface's.
    fn asking(&self) -> &'a str {
        word_of(self.interface.name.as_bytes())
    }

    // Puts a transaction that the interface asks, as it is written.
    fn put_asked(&self, words: &mut Words, asked: &Member) {
        words.put_with(
            "`{}` asks `{}`",
            &[self.asking(), head_of(&self.near, asked)],
        );
        if let Some(within) = &self.within {
            words.put(", ");
            within.put_argument(words);
        }
    }

    // A transaction that the interface asks and the contract doesn't have.
    fn explain_absent(&self, told: &mut Explanation, asked: &Member) {
        told.what.put_with(
            "`{}` implements `{}` and has no transaction `{}`",
            &[self.name(), self.asking(), name_in_words(asked)],
        );
        self.put_asked(&mut told.note, asked);
        told.note.put(".");
        told.help.put_with(
            "declare it in `{}` with these parameters and this result",
            &[base_of(self.name())],
        );
        if has_this(asked) {
            told.help.put_with(
                ", and with `{}` in the place of `{}` at `this`",
                &[base_of(self.name()), base_of(self.asking())],
            );
        }
        told.help.put(".");
    }

    // A transaction that isn't as the interface asks.
    fn explain_unlike(
        &self,
        told: &mut Explanation,
        asked: &Member,
        has: &Member,
        difference: Difference<'_>,
    ) {
        told.what.put_with(
            "the transaction `{}` of `{}` isn't as `{}` asks: ",
            &[name_in_words(asked), self.name(), self.asking()],
        );
        put_difference(&mut told.what, difference);
        self.put_asked(&mut told.note, asked);
        told.note
            .put_with(", and here is `{}`.", &[head_of(&self.near, has)]);
        told.help.put(help_with(difference));
    }

    // What is wrong with a transaction that the interface asks and the contract has, if something is.
    fn explain_had(&self, told: &mut Explanation, asked: &Member, has: &Member) {
        if let Some(difference) = first_difference(asked, has) {
            self.explain_unlike(told, asked, has, difference);
        }
    }

    // What is wrong with a transaction that the interface asks, if something is.
    fn explain_asked(&self, told: &mut Explanation, asked: &Member, name: &NamePart) {
        match transaction_of(self.own, name.name.as_bytes()) {
            Some(has) => self.explain_had(told, asked, has),
            None => self.explain_absent(told, asked),
        }
    }

    // What is wrong with the first transaction that isn't as the interface asks.
    fn explain_transactions(&self, told: &mut Explanation) {
        for asked in self.interface.members.as_slice() {
            if let Some(name) = name_of(asked) {
                self.explain_asked(told, asked, name);
            }
            if !told.what.is_empty() {
                return;
            }
        }
    }

    // What is asked of each transaction.
    fn explain_rule(&self, told: &mut Explanation) {
        told.what.put_with(
            "a transaction of `{}` isn't as `{}` asks it",
            &[self.name(), self.asking()],
        );
        told.help.put(
            "each has the same parameters, permissions, exits and result, but for the parameters' names.",
        );
    }

    // An asset whose interface is none.
    fn explain_asset(&self, told: &mut Explanation) {
        told.what.put_with(
            "`{}` is an asset, and `{}`, which it implements, is none: through it an asset could be lost",
            &[self.name(), self.asking()],
        );
        told.help
            .put_with("write `asset interface {}`.", &[base_of(self.asking())]);
    }

    // A state that the interface names and the contract doesn't have.
    fn explain_stateless(&self, told: &mut Explanation, state: &str) {
        told.what.put_with(
            "`{}` implements `{}` and has no state `{}`, which `{}` names",
            &[self.name(), self.asking(), state, self.asking()],
        );
        told.help.put_with("write `state {};` in `{}`.", &[state, base_of(self.name())]);
    }

    // What is wrong where no asset is.
    fn explain_members(&self, told: &mut Explanation) {
        if let Some(state) = missing_state(self.interface, self.own) {
            self.explain_stateless(told, state);
            return;
        }
        self.explain_transactions(told);
        if told.what.is_empty() {
            self.explain_rule(told);
        }
    }

    fn explain(&self, told: &mut Explanation) {
        if self.own.asset && !self.interface.asset {
            self.explain_asset(told);
        } else {
            self.explain_members(told);
        }
    }
}

// The interface of the contract around.
fn interface_of<'a>(site: &Site<'a>) -> Option<&'a ContractNode> {
    match site.types().interface_of(site.around.number()) {
        Some(number) => site.types().node(number),
        None => None,
    }
}

/// A contract that doesn't have what its interface asks.
pub fn explain_interface(told: &mut Explanation, site: &Site<'_>) {
    let own = site.around.node();
    match interface_of(site) {
        Some(interface) => Answering {
            near: site.near,
            own,
            interface,
            within: site.instance_named(word_of(interface.name.as_bytes())),
        }
        .explain(told),
        None => told.what.put_with(
            "`{}` doesn't have what its interface asks",
            &[word_of(own.name.as_bytes())],
        ),
    }
}
