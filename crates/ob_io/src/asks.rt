//! What was asked of files, call by call.
ghost use Rattle.std.specs.Prelude.{◌≡◌, ◌++◌, [], ◌∷◌, OnOk, OnErr};

use std::alloc::{AllocError, Global};
use std::marker::Model;

// A call: the name, and the most bytes that it is to give.
#[derive(Drop)]
struct Call {
    name: String,
    limit: usize,
}

/// The calls so far. Contracts see what each asked.
#[derive(Drop)]
pub struct Asks {
    calls: Vec<Call>,
    alloc: Global,
}

impl Model for Asks {
    ghost use Rattle.std.specs.Prelude.{List};
    ghost use Rattle.ob_io.specs.Views.{Ask};

    ghost Value = { List Ask };

    ghost use Rattle.ob_io.specs.Asks.{asks_of};

    ghost view = { asks_of };
}

impl Asks {
    /// Nothing was asked yet.
    pub fn new(alloc: Global) -> Self
        ensures { result ≡ [] }
    {
        Asks {
            calls: Vec::new(alloc),
            alloc,
        }
    }

    /// Notes a call. Where memory runs out, it notes nothing.
    pub fn note(&mut self, name: &str, limit: usize) -> Result<(), AllocError>
        ensures ok { OnOk result (self.new ≡ self.old ++ record { name = name.now; limit = limit } ∷ []) }
        ensures err { OnErr result (self.new ≡ self.old) }
    {
        let name = String::from_str(self.alloc, name)?;
        self.calls.push(Call { name, limit })?;
        Ok(())
    }
}
