//! The values of a run (the Obsidian language documentation, "Types").
ghost use Rattle.std.specs.Prelude.{◌≡◌, IfOk};

use ob_base::{Duplicate, Memory, ObjectId};
use std::alloc::Global;
use std::marker::Model;
use std::rc::RcStr as Shared;

/// A text whose copies share its bytes, which are UTF-8.
#[derive(Drop)]
pub struct RcStr {
    text: Shared<Global>,
}

impl Model for RcStr {
    ghost use Rattle.std.specs.Prelude.{ℕ, List};
    ghost use Rattle.std.specs.Rc.{rc_str_bytes};

    ghost Value = { List ℕ };

    ghost view = { λ t. rc_str_bytes t.text };
}

impl RcStr {
    /// A text of its own with these bytes.
    pub fn from_str(alloc: Global, text: &str) -> Result<RcStr, Memory>
        ensures { IfOk result (λ shared. shared ≡ text.now) }
    {
        Ok(RcStr {
            text: Shared::from_str(alloc, text)?,
        })
    }

    /// The text.
    pub fn as_str(&self) -> &str
        ensures { result.now ≡ self.now }
    {
        self.text.as_str()
    }
}

impl Duplicate for RcStr {
    fn copy(&self, _: Global) -> Result<RcStr, Memory> {
        Ok(RcStr {
            text: self.text.clone()?,
        })
    }
}

/// A value.
#[derive(Drop)]
pub enum Value {
    /// An `int`.
    Int(i64),
    /// A `bool`.
    Bool(bool),
    /// A `string`.
    Text(RcStr),
    /// A reference to the object of this number.
    Object(ObjectId),
}

impl Duplicate for Value {
    fn copy(&self, alloc: Global) -> Result<Value, Memory> {
        match self {
            Value::Int(number) => Ok(Value::Int(*number)),
            Value::Bool(truth) => Ok(Value::Bool(*truth)),
            Value::Text(text) => Ok(Value::Text(text.copy(alloc)?)),
            Value::Object(id) => Ok(Value::Object(*id)),
        }
    }
}
