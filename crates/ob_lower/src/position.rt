//! Positions in a block.
ghost use Rattle.std.specs.Prelude.{◌≡◌, ◌<◌, ◌-◌, length, drop, OnOk};
ghost use Rattle.ob_lower_functions.specs.Progress.{slots_from};
ghost use Rattle.ob_lower_functions.specs.StatementCode.{none_waits, settled, waits, declared, around_at, named_code};
ghost use Rattle.ob_lower_parts.specs.Makes.{Makes};
ghost use Rattle.ob_lower_parts.specs.Visible.{variable_of};
ghost use Rattle.ob_lower.specs.Waits.{waiting_of};

use ob_base::{Items, MOST_SLOTS, Memory, Span};
use ob_lower_parts::{AroundExpression, SlotVariable, Slots, StaticFrame, Stopped, Variables};
use ob_silica::{Given, Operand};
use ob_table::SeenAt;
use std::alloc::Global;
use std::marker::Model;
use std::mem;

/// The fields of a row of staged statements, with the place of the first and the slots with the temporaries.
#[derive(Drop)]
pub struct StagedRow {
    /// Where the row begins, which is the place of all its terms.
    pub first: Span,
    /// The fields that it has given so far, in the order of the text.
    pub given: Items<Given>,
    /// The slots in use, those of its temporaries included.
    pub slots: Slots,
}

/// What waits for a change of state.
#[derive(Drop)]
pub enum Waiting {
    /// Nothing: the next staged statement begins a row.
    Nothing,
    /// The fields that a row has given so far, up to the change of state that ends it.
    Fields(StagedRow),
    /// Nothing, since the row is refused.
    Refused,
}

/// A position in a block: the visible variables, how many slots `this` and they have, and what waits for a change of state.
#[derive(Drop)]
pub struct BlockPosition {
    variables: Variables,
    slots: u8,
    waiting: Waiting,
}

impl Model for BlockPosition {
    ghost use Rattle.ob_lower_functions.specs.StatementCode.{BlockPosition as Standing};

    ghost Value = { Standing };

    ghost use Rattle.ob_lower.specs.Waits.{waiting_of};

    ghost view = { λ q. record { variables = q.variables; slots = q.slots; waiting = waiting_of q.waiting } };
}

impl BlockPosition {
    /// The position at which these variables are visible and nothing waits.
    pub fn new(variables: Variables, slots: u8) -> BlockPosition
        ensures { result ≡ record { variables = variables; slots = slots; waiting = none_waits } }
    {
        BlockPosition {
            variables,
            slots,
            waiting: Waiting::Nothing,
        }
    }

    /// What stands around an expression of a statement at this span.
    pub fn around<'a>(&'a self, frame: &'a StaticFrame<'a>, span: Span) -> AroundExpression<'a>
        ensures { result ≡ around_at frame.now self.now span }
    {
        AroundExpression::new(frame, &self.variables, span)
    }

    /// How many variables are visible.
    pub fn visible(&self) -> usize
        ensures { result ≡ length self.now.variables }
    {
        self.variables.len()
    }

    /// How many slots `this` and the visible variables have.
    pub fn slots(&self) -> u8
        ensures { result ≡ self.now.slots }
    {
        self.slots
    }

    /// The slots of a statement without temporaries.
    pub fn fresh_slots(&self, alloc: Global) -> Slots
        ensures { result ≡ slots_from self.now.slots }
    {
        Slots::new(alloc, self.slots)
    }

    /// A name as an operand.
    pub fn named(&self, seen: SeenAt) -> Result<Operand, Stopped>
        ensures { Makes result (λ o. o) (named_code self.now seen) }
    {
        match self.variables.place_seen(seen.of) {
            None => Err(Stopped::NotWellFormed),
            Some(place) => Ok(Operand {
                place,
                span: seen.span,
            }),
        }
    }

    /// Lets nothing wait.
    pub fn settle(&mut self)
        ensures { self.new ≡ settled self.old }
    {
        self.waiting = Waiting::Nothing;
    }

    /// What waits; nothing does any more.
    pub fn take_waiting(&mut self) -> Waiting
        ensures waiting { waiting_of result ≡ self.old.waiting }
        ensures rest { self.new ≡ settled self.old }
    {
        mem::replace(&mut self.waiting, Waiting::Nothing)
    }

    /// Lets this wait.
    pub fn wait(&mut self, waiting: Waiting)
        ensures { self.new ≡ waits self.old (waiting_of waiting) }
    {
        self.waiting = waiting;
    }

    /// One more variable, which has the next slot.
    pub fn declare(&mut self, variable: SlotVariable) -> Result<(), Memory>
        requires { variable.slot < MOST_SLOTS }
        ensures { OnOk result (self.new ≡ declared self.old (variable_of variable)) }
    {
        self.variables.add(variable)?;
        self.slots = variable.slot + 1;
        self.waiting = Waiting::Nothing;
        Ok(())
    }

    /// Keeps the first variables alone, which have so many slots with `this`, as at the end of a block.
    pub fn leave(&mut self, visible: usize, slots: u8)
        ensures { self.new ≡ record {
          variables = drop (length self.old.variables - visible) self.old.variables;
          slots = slots;
          waiting = none_waits;
        } }
    {
        self.variables.leave(visible);
        self.slots = slots;
        self.waiting = Waiting::Nothing;
    }
}
