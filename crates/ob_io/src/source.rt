//! Where bytes come from.
ghost use Rattle.std.specs.Prelude.{◌≤◌, length, IfOk};
ghost use Rattle.ob_io.specs.Causes.{HasCause};
ghost use Rattle.ob_io.specs.Told.{ReadTakes};
ghost use Rattle.ob_io.specs.Views.{SourceView};

use ob_base::Failed;

/// A stream of bytes that comes in.
pub trait Source {
    /// The bytes that are left, where they are observable, how many bytes its reads took, and how often a read failed.
    ghost view: { Self → SourceView };

    /// Fills the first part of `into` with the next bytes, and answers how many they are. 0 is the end, where
    /// `into` isn't empty. `Failed` takes no byte, and comes only where the count of faults rose, by one at
    /// most. `Ok` leaves the count as it was.
    fn read(&mut self, into: &mut [u8]) -> Result<usize, Failed>
        ensures bound { IfOk result (λ n. n ≤ length into.new) }
        ensures bytes { ReadTakes (view self.old) (view self.new) result into.new }
        ensures cause { HasCause (view self.old).faults (view self.new).faults result };
}
