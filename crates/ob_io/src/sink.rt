//! Where bytes go.
ghost use Rattle.std.specs.Prelude.{◌<◌, ◌≤◌, length, IfOk, OnOk, OnErr};
ghost use Rattle.ob_io.specs.Causes.{HasCause};
ghost use Rattle.ob_io.specs.Told.{WriteGives, Gives, GivesFront};
ghost use Rattle.ob_io.specs.Views.{SinkView};

use ob_base::Failed;

/// A stream of bytes that goes out.
pub trait Sink {
    /// The bytes that were written, where they are observable, and how often a write failed.
    ghost view: { Self → SinkView };

    /// Writes a prefix of `bytes`, and answers how many they are: at least one, unless `bytes` is empty.
    /// `Failed` writes no byte, and comes only where the count of faults rose, by one at most. `Ok` leaves the
    /// count as it was.
    fn write(&mut self, bytes: &[u8]) -> Result<usize, Failed>
        ensures bound { IfOk result (λ n. n ≤ length bytes.now) }
        ensures some { 0 < length bytes.now → IfOk result (λ n. 0 < n) }
        ensures bytes { WriteGives (view self.old).written (view self.new).written result bytes.now }
        ensures cause { HasCause (view self.old).faults (view self.new).faults result };
}

/// Writes all the bytes. At the first write that fails it stops, and a prefix of them was written. It takes no
/// memory.
pub fn write_all<K: Sink>(sink: &mut K, bytes: &[u8]) -> Result<(), Failed>
    ensures ok { OnOk result (Gives (K.view sink.old).written (K.view sink.new).written bytes.now) }
    ensures err { OnErr result (GivesFront (K.view sink.old).written (K.view sink.new).written bytes.now) }
    ensures cause { HasCause (K.view sink.old).faults (K.view sink.new).faults result }
{
    let mut rest = bytes;
    while !rest.is_empty() {
        let count = sink.write(rest)?;
        rest = &rest[count..];
    }
    Ok(())
}
