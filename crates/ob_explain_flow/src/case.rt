//! What is looked at where a premise fails.

use crate::holding::{
    assigned_at, declared_at, name_of_body, name_of_field, name_of_kind, put_held, say,
};
use ob_base::{FieldId, MOST_STATES, Perm, ProgramFault, Span, StateId};
use ob_explain_page::{Words, shown_at, word_of};
use ob_flow::{Stop, Trace};
use ob_flow_context::{BodyFrame, Context, kind_of, permission_of_type};
use ob_perm::contains;
use ob_silica::{Form, Place, TermBody};
use ob_table::{Kind, Param};

// The longest statement that is shown in a help.
const MOST_SHOWN: usize = 60;

/// The text, the body, the fault, and what the check knew there.
#[derive(Clone, Copy)]
pub struct Case<'a> {
    pub text: &'a [u8],
    pub frame: &'a BodyFrame<'a>,
    pub body: &'a TermBody,
    pub fault: ProgramFault,
    pub stop: &'a Stop,
    pub trace: &'a Trace,
}

impl<'a> Case<'a> {
    /// What is known of each place.
    pub fn context(&self) -> &'a Context {
        &self.stop.context
    }

    /// The form of the term of which the premise is asked.
    pub fn form(&self) -> &'a Form {
        &self.stop.term.form
    }

    /// What stands at the fault's place.
    pub fn shown(&self) -> &'a str {
        shown_at(self.text, self.fault.span)
    }

    /// Whether the fault stands at an `&&` or `||`: the branches that join there are what it chooses between.
    pub fn is_at_operator(&self) -> bool {
        let shown = self.shown();
        shown == "&&" || shown == "||"
    }

    /// Whether the body is that of a constructor that isn't written: it ends at its contract's name.
    pub fn is_default(&self) -> bool {
        let name = shown_at(self.text, self.body.end);
        self.frame.constructs() && name == name_of_body(self.frame)
    }

    /// The whole statement in which the premise is asked, if it is a call without a result that stands on one line.
    pub fn call_shown(&self) -> Option<&'a str> {
        let calls = matches!(
            self.form(),
            Form::Call { slot: None, .. } | Form::CallThis { slot: None, .. }
        );
        let shown = shown_at(self.text, self.stop.term.span);
        if calls && shown.len() <= MOST_SHOWN && shown.as_bytes().last() == Some(&b';') {
            Some(shown)
        } else {
            None
        }
    }

    /// The name of the contract of a place.
    pub fn contract_of(&self, place: Place) -> &'a str {
        name_of_kind(self.frame.table(), self.context().kind(place))
    }

    /// The name of a state of `this`.
    pub fn name_of_state(&self, state: StateId) -> &'a str {
        match self.frame.own().states.get(usize::from(state.0)) {
            Some(name) => word_of(name.as_bytes()),
            None => "?",
        }
    }

    /// The parameter of a slot.
    pub fn param_of(&self, slot: u8) -> Option<&'a Param> {
        match usize::from(slot).checked_sub(1) {
            Some(number) => self.frame.signature().params.get(number),
            None => None,
        }
    }

    /// The permission with which a place comes in, unless it is a variable's.
    pub fn entry_of(&self, place: Place) -> Option<Perm> {
        match place {
            Place::This => Some(self.frame.signature().entry),
            Place::Slot(slot) => match self.param_of(slot) {
                Some(param) => Some(permission_of_type(param.of)),
                None => None,
            },
            Place::Field(field) => {
                Some(self.frame.entry_of_field(self.frame.signature(), field))
            }
        }
    }

    /// Whether a field is there in a state.
    pub fn is_there(&self, field: FieldId, state: StateId) -> bool {
        usize::from(state.0) < MOST_STATES && contains(self.frame.available(field), state)
    }

    // The place of the term that set a slot last.
    fn set_at(&self, slot: u8) -> Option<Span> {
        match self.trace.set.get(usize::from(slot)) {
            Some(at) => *at,
            None => None,
        }
    }

    /// The name of a slot: a parameter's, or that of the variable that an earlier statement declares or assigns. What the statement
    /// at hand makes or gets has none.
    pub fn name_of_slot(&self, slot: u8) -> Option<&'a str> {
        if let Some(param) = self.param_of(slot) {
            return Some(word_of(param.name.as_bytes()));
        }
        let at = self.set_at(slot)?;
        if at == self.stop.term.span {
            return None;
        }
        match declared_at(self.text, at) {
            Some(name) => Some(name),
            None => assigned_at(self.text, at),
        }
    }

    /// Whether a place has a name in the text.
    pub fn has_name(&self, place: Place) -> bool {
        match place {
            Place::Slot(slot) => self.name_of_slot(slot).is_some(),
            _ => true,
        }
    }

    /// Puts a place as it is called in the text; what has no name is what a statement makes or gets.
    pub fn put_place(&self, words: &mut Words, place: Place) {
        match place {
            Place::This => words.put("`this`"),
            Place::Field(field) => {
                say(
                    words,
                    &["the field `", name_of_field(self.frame, field), "`"],
                );
            }
            Place::Slot(slot) => match self.name_of_slot(slot) {
                Some(name) => say(words, &["`", name, "`"]),
                None => words.put("what this statement makes or gets"),
            },
        }
    }

    /// Puts the body that is looked at.
    pub fn put_body(&self, words: &mut Words) {
        if self.frame.constructs() {
            words.put("the constructor of ");
        }
        say(words, &["`", name_of_body(self.frame), "`"]);
    }

    /// Puts what a place is held as, as `C@Owned`.
    pub fn put_held(&self, words: &mut Words, place: Place) {
        let context = self.context();
        let perm = context.counted(place);
        put_held(words, self.frame.table(), context.kind(place), perm);
    }

    /// Says what is declared of a parameter or of `this`; of another place nothing.
    pub fn say_declared(&self, words: &mut Words, place: Place) {
        let signature = self.frame.signature();
        let table = self.frame.table();
        match place {
            Place::This => {
                let kind = Kind::Reference(self.frame.here());
                self.put_body(words);
                words.put(" takes `this` as `");
                put_held(words, table, kind, signature.entry);
                words.put("` and promises `");
                put_held(words, table, kind, signature.exit);
                words.put("` of it at the end.");
            }
            Place::Slot(slot) => {
                if let Some(param) = self.param_of(slot) {
                    self.put_body(words);
                    say(
                        words,
                        &[" takes `", word_of(param.name.as_bytes()), "` as `"],
                    );
                    put_held(
                        words,
                        table,
                        kind_of(param.of),
                        permission_of_type(param.of),
                    );
                    words.put("` and promises `");
                    put_held(words, table, kind_of(param.of), param.exit);
                    words.put("` of it at the end.");
                }
            }
            Place::Field(_) => {}
        }
    }
}
