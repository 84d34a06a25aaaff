//! Where bytes come from, and where they go.
ghost use Rattle.std.specs.Prelude.{◌≡◌, ℕ, List, ◌<◌, length, OnOk, OnErr};
ghost use Rattle.std.specs.declared.option.Option.{Option};
ghost use Rattle.std.specs.Io.{ReadsAtMost};
ghost use Rattle.std.specs.Io.KnownBytes.{Appends, ReadConsumes};
ghost use Rattle.itpg_base.specs.Outside.{HasCause, AppendsSome};

/// A read or a write failed. The count of faults of its source or sink says that it did.
#[derive(Clone, Copy, Debug, PartialEq, Eq)]
pub struct Failed;

/// Where bytes come from.
pub trait Source {
    /// The bytes that are left, where the source tells them.
    ghost left: { Self → Option (List ℕ) };

    /// How often it has failed. The count rises at a failure alone, and stands still at 2^64 - 1.
    ghost faults: { Self → ℕ };

    /// Takes the next bytes of what is left into the front of the buffer, and says how many.
    ///
    /// `Ok(0)` comes exactly at the end. `Failed` takes nothing and comes only where the count of faults rose.
    fn read(&mut self, buf: &mut [u8]) -> Result<usize, Failed>
        requires { 0 < length buf.old }
        ensures bound { ReadsAtMost result buf.new }
        ensures bytes { ReadConsumes (left self.old) (left self.new) result buf.new }
        ensures cause { HasCause (faults self.old) (faults self.new) result }
        ensures calm { OnOk result (faults self.new ≡ faults self.old) };
}

/// Where bytes go.
pub trait Sink {
    /// The bytes that it holds, where the sink tells them.
    ghost held: { Self → Option (List ℕ) };

    /// How often it has failed. The count rises at a failure alone, and stands still at 2^64 - 1.
    ghost faults: { Self → ℕ };

    /// Puts the whole piece behind what the sink holds.
    ///
    /// `Failed` puts a front part of the piece there and comes only where the count of faults rose.
    fn write(&mut self, piece: &[u8]) -> Result<(), Failed>
        ensures written { OnOk result (Appends (held self.old) (held self.new) piece.now) }
        ensures some { OnErr result (AppendsSome (held self.old) (held self.new) piece.now) }
        ensures cause { HasCause (faults self.old) (faults self.new) result }
        ensures calm { OnOk result (faults self.new ≡ faults self.old) };
}
