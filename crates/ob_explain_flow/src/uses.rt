//! The operands of a form, with what each use wants and by which declaration.

use crate::holding::{name_of_body, name_of_field, name_of_kind, say};
use ob_base::{ContractId, FieldId, Mode, Perm, Span, TxId};
use ob_explain_page::{Words, word_of};
use ob_flow_context::BodyFrame;
use ob_perm::{shared, unowned};
use ob_silica::{Form, Given, Operand, Place};
use ob_table::{Kind, Listed, Param, ResolvedType, Signature, Table};

/// What a use of an operand is for.
#[derive(Clone, Copy)]
pub enum Role<'a> {
    /// It is the receiver of a call of this transaction.
    Receiver(&'a Signature, Kind),
    /// It is an argument.
    Argument(&'a Param, &'a Signature, Kind),
    /// It fills a field.
    Field(&'a str),
    /// It is returned.
    Result,
    /// It moves into this slot.
    Slot(Place),
    /// It is disowned.
    Disowned,
    /// It is a field that the list of this transaction of `this` has.
    Listed(&'a Signature, Kind),
    /// It is tested or read.
    Other,
}

/// A use of an operand.
#[derive(Clone, Copy)]
pub struct Use<'a> {
    pub operand: Operand,
    pub role: Role<'a>,
    /// What is wanted.
    pub wanted: Option<ResolvedType>,
}

// What is given back of what was wanted of an owner.
fn exit_of(role: Role<'_>) -> Perm {
    match role {
        Role::Receiver(signature, _) => signature.exit,
        Role::Argument(param, _, _) => param.exit,
        _ => unowned(),
    }
}

impl<'a> Use<'a> {
    /// The permission that is wanted, of a reference.
    pub fn permission(&self) -> Option<Perm> {
        match self.wanted {
            Some(ResolvedType::Reference(_, perm)) => Some(perm),
            _ => None,
        }
    }

    // Whether it takes a reference from its owner.
    fn takes(&self) -> bool {
        match self.permission() {
            Some(perm) => perm.mode == Mode::Owned,
            None => false,
        }
    }

    /// What an owner holds of the operand after this use; None where it holds what it held.
    pub fn left(&self) -> Option<Perm> {
        if matches!(self.role, Role::Slot(_) | Role::Disowned) {
            return Some(unowned());
        }
        let wanted = self.permission()?;
        match wanted.mode {
            Mode::Owned => Some(exit_of(self.role)),
            Mode::Shared => Some(shared()),
            Mode::Unowned => None,
        }
    }

    // Whether an owner isn't one any more after this use.
    fn loses(&self) -> bool {
        match self.left() {
            Some(perm) => perm.mode != Mode::Owned,
            None => false,
        }
    }
}

// The constructor or transaction of a number.
fn called<'a>(frame: &BodyFrame<'a>, contract: ContractId, tx: TxId) -> Option<&'a Signature> {
    match frame.table().contract(contract) {
        Some(contract) => contract.signature(tx),
        None => None,
    }
}

/// What the list of a transaction says of a field, if it has it.
pub fn listed_in(signature: &Signature, field: FieldId) -> Option<Listed> {
    for one in signature.listed.as_slice() {
        if one.field == field {
            return Some(*one);
        }
    }
    None
}

// The use of the argument of this number.
fn argument<'a>(
    signature: Option<&'a Signature>,
    of: Kind,
    args: &[Operand],
    number: usize,
) -> Option<Use<'a>> {
    let signature = signature?;
    let param = signature.params.get(number)?;
    let operand = args.get(number)?;
    Some(Use {
        operand: *operand,
        role: Role::Argument(param, signature, of),
        wanted: Some(param.of),
    })
}

// The use of a value that fills a field.
fn filling<'a>(frame: &BodyFrame<'a>, given: Given) -> Use<'a> {
    Use {
        operand: given.from,
        role: Role::Field(name_of_field(frame, given.field)),
        wanted: Some(frame.type_of_field(given.field)),
    }
}

fn other<'a>(operand: Operand) -> Use<'a> {
    Use {
        operand,
        role: Role::Other,
        wanted: None,
    }
}

// The use of a move.
fn of_move<'a>(frame: &BodyFrame<'a>, to: Place, from: Operand) -> Use<'a> {
    match to {
        Place::Field(field) => Use {
            operand: from,
            role: Role::Field(name_of_field(frame, field)),
            wanted: Some(frame.type_of_field(field)),
        },
        _ => Use {
            operand: from,
            role: Role::Slot(to),
            wanted: None,
        },
    }
}

// The use of this number of a call: of a transaction of another object the receiver stands first.
fn use_of_call<'a>(frame: &BodyFrame<'a>, form: &Form, number: usize) -> Option<Use<'a>> {
    match form {
        Form::New { contract, args, .. } => {
            let signature = called(frame, *contract, TxId(0));
            argument(
                signature,
                Kind::Reference(*contract),
                args.as_slice(),
                number,
            )
        }
        Form::Call {
            receiver,
            contract,
            tx,
            args,
            ..
        } => {
            let signature = called(frame, *contract, *tx)?;
            let of = Kind::Reference(*contract);
            match number.checked_sub(1) {
                Some(number) => argument(Some(signature), of, args.as_slice(), number),
                None => Some(Use {
                    operand: *receiver,
                    role: Role::Receiver(signature, of),
                    wanted: Some(ResolvedType::Reference(*contract, signature.entry)),
                }),
            }
        }
        Form::CallThis { tx, args, .. } => {
            let signature = frame.own().signature(*tx);
            argument(
                signature,
                Kind::Reference(frame.here()),
                args.as_slice(),
                number,
            )
        }
        _ => None,
    }
}

// The one use of a form without a list of operands.
fn only_use<'a>(frame: &BodyFrame<'a>, form: &Form) -> Option<Use<'a>> {
    match form {
        Form::Move { to, from, .. } => Some(of_move(frame, *to, *from)),
        Form::Copy { from, .. } => Some(other(*from)),
        Form::Op { a, .. } => Some(other(*a)),
        Form::Test { place, .. } => Some(other(*place)),
        Form::If { a, .. } | Form::Loop { a, .. } => Some(other(*a)),
        Form::Assert { place, .. } => Some(other(*place)),
        Form::Disown { place } => Some(Use {
            operand: *place,
            role: Role::Disowned,
            wanted: None,
        }),
        Form::Return { place: Some(place) } => Some(Use {
            operand: *place,
            role: Role::Result,
            wanted: frame.signature().result,
        }),
        Form::Revert { text } => Some(other(*text)),
        _ => None,
    }
}

// The use of this number, in the order in which the rules look at them, if the declaration asks something of it.
fn use_of<'a>(frame: &BodyFrame<'a>, form: &Form, number: usize) -> Option<Use<'a>> {
    match form {
        Form::New { .. } | Form::Call { .. } | Form::CallThis { .. } => {
            use_of_call(frame, form, number)
        }
        Form::Change { given, .. } => match given.as_slice().get(number) {
            Some(given) => Some(filling(frame, *given)),
            None => None,
        },
        Form::Op { b, .. } if number == 1 => Some(other(*b)),
        _ if number == 0 => only_use(frame, form),
        _ => None,
    }
}

// No use of a form has this number or a greater one.
fn end_of_uses(form: &Form) -> usize {
    match form {
        Form::New { args, .. } => args.len(),
        Form::Call { args, .. } => args.len().saturating_add(1),
        Form::CallThis { args, .. } => args.len(),
        Form::Change { given, .. } => given.len(),
        _ => 2,
    }
}

/// The first use that stands at a place of the text.
pub fn use_at<'a>(frame: &BodyFrame<'a>, form: &Form, at: Span) -> Option<Use<'a>> {
    for number in 0..end_of_uses(form) {
        if let Some(one) = use_of(frame, form, number) {
            if one.operand.span == at {
                return Some(one);
            }
        }
    }
    None
}

/// The first use that takes what a place holds.
pub fn taking<'a>(frame: &BodyFrame<'a>, form: &Form, place: Place) -> Option<Use<'a>> {
    for number in 0..end_of_uses(form) {
        if let Some(one) = use_of(frame, form, number) {
            if one.takes() && one.operand.place == place {
                return Some(one);
            }
        }
    }
    None
}

/// Whether an operand of the same place stands before the one at a place of the text.
pub fn stands_before(frame: &BodyFrame<'_>, form: &Form, place: Place, at: Span) -> bool {
    for number in 0..end_of_uses(form) {
        if let Some(one) = use_of(frame, form, number) {
            if one.operand.place == place {
                return one.operand.span != at;
            }
        }
    }
    false
}

/// The use of `this` by a call on it; the form stands at this place of the text.
pub fn use_of_this<'a>(frame: &BodyFrame<'a>, form: &Form, at: Span) -> Option<Use<'a>> {
    let Form::CallThis { tx, .. } = form else {
        return None;
    };
    let signature = frame.own().signature(*tx)?;
    let operand = Operand {
        place: Place::This,
        span: at,
    };
    Some(Use {
        operand,
        role: Role::Receiver(signature, Kind::Reference(frame.here())),
        wanted: Some(ResolvedType::Reference(frame.here(), signature.entry)),
    })
}

/// The first use after which an owner of a place isn't one any more; the form stands at this place of the text.
pub fn losing<'a>(frame: &BodyFrame<'a>, form: &Form, at: Span, place: Place) -> Option<Use<'a>> {
    for number in 0..end_of_uses(form) {
        if let Some(one) = use_of(frame, form, number) {
            if one.loses() && one.operand.place == place {
                return Some(one);
            }
        }
    }
    match use_of_this(frame, form, at) {
        Some(one) if one.loses() && place == Place::This => Some(one),
        _ => None,
    }
}

// What a parameter is of: a constructor has no name of its own.
fn put_called(words: &mut Words, table: &Table, signature: &Signature, of: Kind) {
    let name = word_of(signature.name.as_bytes());
    let contract = name_of_kind(table, of);
    if name.is_empty() {
        say(words, &["the constructor of `", contract, "`"]);
    } else {
        say(words, &["the transaction `", name, "` of `", contract, "`"]);
    }
}

/// Puts what wants something of an operand.
pub fn put_role(words: &mut Words, frame: &BodyFrame<'_>, role: Role<'_>) {
    let table = frame.table();
    match role {
        Role::Receiver(signature, of) => {
            words.put("`this` of ");
            put_called(words, table, signature, of);
        }
        Role::Argument(param, signature, of) => {
            say(
                words,
                &["the parameter `", word_of(param.name.as_bytes()), "` of "],
            );
            put_called(words, table, signature, of);
        }
        Role::Field(name) => say(words, &["the field `", name, "`"]),
        Role::Result => say(words, &["the result of `", name_of_body(frame), "`"]),
        Role::Listed(signature, of) => {
            words.put("the list of ");
            put_called(words, table, signature, of);
        }
        Role::Slot(_) | Role::Disowned | Role::Other => words.put("this statement"),
    }
}
