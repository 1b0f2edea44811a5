//! How a body is entered, and what that means for its end.
ghost use Rattle.std.specs.Prelude.{◌≡◌, option_map};
ghost use Rattle.ob_heap.specs.Plain.{value_of};
ghost use Rattle.ob_machine_steps.specs.Returning.{given_by};
ghost use Rattle.ob_machine_parts.specs.Arguments.{is_shared_in};
ghost use Rattle.ob_machine_parts.specs.Guarding.{left_by};
ghost use Rattle.ob_machine_parts.specs.Shown.{entered_of};

use crate::guard::Guard;
use ob_base::ObjectId;
use ob_code::{BodyCode, is_shared_at_entry};
use ob_heap::Value;

/// How a frame was entered.
#[derive(Clone, Copy)]
pub enum EnteredBy {
    /// By a call with a receiver.
    Receiver,
    /// By a call on `this`.
    This,
    /// By a `new`.
    New,
}

/// Whether a body is share-entered.
pub fn is_shared_in(entered: EnteredBy, body: &BodyCode, around: bool) -> bool
    ensures { result ≡ is_shared_in (entered_of entered) body.now around }
{
    match entered {
        EnteredBy::Receiver => is_shared_at_entry(body),
        EnteredBy::This => around,
        EnteredBy::New => false,
    }
}

/// The receiver of a call has no longer a transaction in progress.
pub fn leave(guard: &mut Guard, entered: EnteredBy, this: ObjectId)
    ensures { guard.new ≡ left_by (entered_of entered) this.0 guard.old }
{
    match entered {
        EnteredBy::Receiver => guard.leave(this),
        EnteredBy::This | EnteredBy::New => {}
    }
}

/// What a frame gives.
pub fn given_by(entered: EnteredBy, this: ObjectId, value: Option<Value>) -> Option<Value>
    ensures { option_map value_of result ≡ given_by (entered_of entered) this.0 (option_map value_of value) }
{
    match entered {
        EnteredBy::Receiver | EnteredBy::This => value,
        EnteredBy::New => Some(Value::Object(this)),
    }
}
