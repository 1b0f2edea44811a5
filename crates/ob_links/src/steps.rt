//! A count of steps.
ghost use Rattle.std.specs.Prelude.{◌≡◌, ◌<◌, suc};

use std::marker::Model;
use std::sync::ledger::{Blank, Book, Ledger, Share};

/// A count of the steps along lists, which takes no bytes and no time when a program runs: contracts see it as a number. It is
/// kept in a ledger of its own, so that nothing but a step raises it.
#[derive(Drop)]
pub struct Steps<L: Ledger> {
    taken: Book<L>,
    share: Share<L>,
}

impl<L: Ledger> Model for Steps<L> {
    ghost use Rattle.std.specs.Prelude.{ℕ, ◌<◌};

    ghost Value = { ℕ };

    ghost view = { λ s. s.taken.total };

    ghost invariant = { λ s. 0 < s.share.parts };
}

impl<L: Ledger> Steps<L> {
    /// No steps, in a new ledger.
    pub fn new(blank: Blank) -> Steps<L>
        requires name { blank.name ≡ L.name }
        requires parts { blank.parts ≡ L.parts }
        requires filled { 0 < L.parts }
        ensures { result ≡ 0 }
    {
        let (taken, share) = blank.open::<L>();
        Steps { taken, share }
    }

    // One step more.
    pub(crate) fn raise(&mut self)
        ensures { self.new ≡ suc self.old }
    {
        self.taken.add(&mut self.share, 1);
    }
}
