//! What the check knew where a premise failed, and where an accepted body lets go of assets. Nothing is claimed of it: a person is
//! told of a text by it.

use ob_base::{ContractId, Duplicate, Items, Mode, Span, TxId};
use ob_flow_context::{BodyFrame, Context, kind_of};
use ob_silica::{Form, Given, Operand, Place, Term};
use ob_table::{Kind, ResolvedType, Signature};
use std::alloc::Global;

/// How assets are let go.
#[derive(Clone, Copy)]
pub enum Letting {
    /// What owns one is given as shared, which it stays.
    Shared(Kind),
    /// An object is disowned whose fields own some.
    Disowned(Kind),
    /// An object that shares itself and has fields that own some is made and kept nowhere.
    Made(Kind),
}

/// Assets that are let go.
#[derive(Clone, Copy)]
pub struct LettingAt {
    /// How they are.
    pub letting: Letting,
    /// Where in the text.
    pub span: Span,
}

/// What was known where a premise failed.
#[derive(Drop)]
pub struct Stop {
    /// The innermost term of which the premise is asked.
    pub term: Term,
    /// The places under test there; the innermost stands last.
    pub tested: Items<Place>,
    /// What is known of each place there; of branches that don't join, what is known after the first, and of a turn that
    /// ends otherwise than it began, what is known at the head of the loop.
    pub context: Context,
}

/// What the check knew, body by body. What memory lacks for is left out and noted.
#[derive(Drop)]
pub struct Trace {
    alloc: Global,
    /// Whether it is noted where assets are let go.
    pub wanted: bool,
    /// Whether memory lacked for something that was to be noted.
    pub lacks: bool,
    /// How many bodies the check was asked of, the last one too.
    pub bodies: usize,
    /// Where a premise of the last body failed.
    pub stop: Option<Stop>,
    /// Where that is a join of branches: what is known after the second; where it is the end of a turn, what is known there.
    pub other: Option<Context>,
    /// For each slot, the place of the term of the last body that set it last.
    pub set: Vec<Option<Span>>,
    /// Where assets are let go, in all bodies.
    pub lettings: Vec<LettingAt>,
    // What the term before made that shares itself and has fields that own assets, and its slot.
    made: Option<(u8, Kind)>,
}

// The slot that a form without branches sets.
fn slot_of(form: &Form) -> Option<u8> {
    match form {
        Form::Const { slot, .. } => Some(*slot),
        Form::Op { slot, .. } => Some(*slot),
        Form::Copy {
            to: Place::Slot(slot),
            ..
        } => Some(*slot),
        Form::Move {
            to: Place::Slot(slot),
            ..
        } => Some(*slot),
        Form::New { slot, .. } => Some(*slot),
        Form::Call { slot, .. } => *slot,
        Form::CallThis { slot, .. } => *slot,
        _ => None,
    }
}

// The constructor or transaction of a number.
fn called<'a>(frame: &BodyFrame<'a>, contract: ContractId, tx: TxId) -> Option<&'a Signature> {
    match frame.table().contract(contract) {
        Some(contract) => contract.signature(tx),
        None => None,
    }
}

// Whether the objects of a kind have fields that own assets.
fn holds_assets(frame: &BodyFrame<'_>, kind: Kind) -> bool {
    let Kind::Reference(id) = kind else {
        return false;
    };
    let Some(contract) = frame.table().contract(id) else {
        return false;
    };
    for field in contract.fields.as_slice() {
        if let ResolvedType::Reference(_, perm) = field.of {
            if perm.mode == Mode::Owned && frame.is_asset(kind_of(field.of)) {
                return true;
            }
        }
    }
    false
}

impl Trace {
    /// Nothing is known yet. Where assets are let go is noted if it is wanted.
    pub fn new(alloc: Global, wanted: bool) -> Trace {
        Trace {
            alloc,
            wanted,
            lacks: false,
            bodies: 0,
            stop: None,
            other: None,
            set: Vec::new(alloc),
            lettings: Vec::new(alloc),
            made: None,
        }
    }

    // The check of a body begins.
    pub(crate) fn begin(&mut self) {
        self.bodies = self.bodies.saturating_add(1);
        self.stop = None;
        self.other = None;
        self.set.clear();
        self.made = None;
    }

    // Looks at a term before it is checked.
    pub(crate) fn see(&mut self, frame: &BodyFrame<'_>, context: &Context, term: &Term) {
        if self.wanted {
            self.note_lettings(frame, context, term);
        }
    }

    // A term was checked.
    pub(crate) fn pass(&mut self, term: &Term) {
        if let Some(slot) = slot_of(&term.form) {
            self.set_slot(slot, term.span);
        }
    }

    // A premise of a term failed, or of one inside it, which is then noted already.
    pub(crate) fn stop_at(&mut self, tested: &[Place], context: &Context, term: &Term) {
        if self.stop.is_some() {
            return;
        }
        let alloc = self.alloc;
        match (
            term.copy(alloc),
            Items::from_slice(alloc, tested),
            context.copy(alloc),
        ) {
            (Ok(term), Ok(tested), Ok(context)) => {
                self.stop = Some(Stop {
                    term,
                    tested,
                    context,
                });
            }
            _ => self.lacks = true,
        }
    }

    // Branches don't join, or a turn ends otherwise than it began: what is known after the second branch, or after the turn.
    pub(crate) fn part(&mut self, other: Context) {
        self.other = Some(other);
    }

    // A slot is set by the term at this place.
    fn set_slot(&mut self, slot: u8, at: Span) {
        let missing = (usize::from(slot) + 1).saturating_sub(self.set.len());
        for _ in 0..missing {
            if self.set.push(None).is_err() {
                self.lacks = true;
            }
        }
        if let Some(entry) = self.set.get_mut(usize::from(slot)) {
            *entry = Some(at);
        }
    }

    fn push(&mut self, letting: Letting, span: Span) {
        if self.lettings.push(LettingAt { letting, span }).is_err() {
            self.lacks = true;
        }
    }

    // Notes what is given as shared and owns an asset.
    fn note_use(
        &mut self,
        frame: &BodyFrame<'_>,
        context: &Context,
        operand: Operand,
        of: ResolvedType,
    ) {
        let ResolvedType::Reference(_, perm) = of else {
            return;
        };
        if perm.mode != Mode::Shared || context.counted(operand.place).mode != Mode::Owned {
            return;
        }
        let kind = context.kind(operand.place);
        if frame.is_asset(kind) {
            self.push(Letting::Shared(kind), operand.span);
        }
    }

    fn note_args(
        &mut self,
        frame: &BodyFrame<'_>,
        context: &Context,
        signature: &Signature,
        args: &[Operand],
    ) {
        for number in 0..args.len() {
            if let Some(param) = signature.params.get(number) {
                self.note_use(frame, context, args[number], param.of);
            }
        }
    }

    fn note_given(&mut self, frame: &BodyFrame<'_>, context: &Context, given: &[Given]) {
        for one in given {
            self.note_use(frame, context, one.from, frame.type_of_field(one.field));
        }
    }

    // Notes what is given to a constructor, and what it makes that shares itself.
    fn note_new(
        &mut self,
        frame: &BodyFrame<'_>,
        context: &Context,
        slot: u8,
        contract: ContractId,
        args: &[Operand],
    ) {
        if let Some(signature) = called(frame, contract, TxId(0)) {
            self.note_args(frame, context, signature, args);
            let kind = Kind::Reference(contract);
            if signature.exit.mode == Mode::Shared && holds_assets(frame, kind) {
                self.made = Some((slot, kind));
            }
        }
    }

    fn note_disowned(&mut self, frame: &BodyFrame<'_>, context: &Context, place: Operand) {
        let kind = context.kind(place.place);
        if holds_assets(frame, kind) {
            self.push(Letting::Disowned(kind), place.span);
        }
    }

    // Notes what the term before made, if it ends here.
    fn note_dropped(&mut self, slot: u8, at: Span) {
        if let Some((made, kind)) = self.made {
            if made == slot {
                self.push(Letting::Made(kind), at);
            }
        }
    }

    // Notes what a call gives.
    fn note_call(&mut self, frame: &BodyFrame<'_>, context: &Context, form: &Form) {
        match form {
            Form::Call {
                receiver,
                contract,
                tx,
                args,
                ..
            } => {
                if let Some(signature) = called(frame, *contract, *tx) {
                    let of = ResolvedType::Reference(*contract, signature.entry);
                    self.note_use(frame, context, *receiver, of);
                    self.note_args(frame, context, signature, args.as_slice());
                }
            }
            Form::CallThis { tx, args, .. } => {
                if let Some(signature) = frame.own().signature(*tx) {
                    self.note_args(frame, context, signature, args.as_slice());
                }
            }
            _ => {}
        }
    }

    fn note_lettings(&mut self, frame: &BodyFrame<'_>, context: &Context, term: &Term) {
        if let Form::Drop { slot } = &term.form {
            return self.note_dropped(*slot, term.span);
        }
        self.made = None;
        match &term.form {
            Form::New {
                slot,
                contract,
                args,
            } => self.note_new(frame, context, *slot, *contract, args.as_slice()),
            Form::Call { .. } | Form::CallThis { .. } => self.note_call(frame, context, &term.form),
            Form::Change { given, .. } => self.note_given(frame, context, given.as_slice()),
            Form::Move {
                to: Place::Field(field),
                from,
                ..
            } => self.note_use(frame, context, *from, frame.type_of_field(*field)),
            Form::Return { place: Some(place) } => {
                if let Some(of) = frame.signature().result {
                    self.note_use(frame, context, *place, of);
                }
            }
            Form::Disown { place } => self.note_disowned(frame, context, *place),
            _ => {}
        }
    }
}
