//! A count of turns.
ghost use Rattle.std.specs.Prelude.{◌≡◌, ◌<◌, suc};

use std::marker::Model;
use std::sync::ledger::{Blank, Book, Ledger, Share};

/// A count of the turns of a batch, which takes no bytes and no time when a program runs: contracts see it as a number.
#[derive(Drop)]
pub struct Turns<L: Ledger> {
    taken: Book<L>,
    share: Share<L>,
}

impl<L: Ledger> Model for Turns<L> {
    ghost use Rattle.std.specs.Prelude.{ℕ, ◌<◌};

    ghost Value = { ℕ };

    ghost view = { λ t. t.taken.total };

    ghost invariant = { λ t. 0 < t.share.parts };
}

impl<L: Ledger> Turns<L> {
    /// No turns, in a new ledger.
    pub fn new(blank: Blank) -> Turns<L>
        requires name { blank.name ≡ L.name }
        requires parts { blank.parts ≡ L.parts }
        requires filled { 0 < L.parts }
        ensures { result ≡ 0 }
    {
        let (taken, share) = blank.open::<L>();
        Turns { taken, share }
    }

    /// One turn more.
    pub fn raise(&mut self)
        ensures { self.new ≡ suc self.old }
    {
        self.taken.add(&mut self.share, 1);
    }
}
