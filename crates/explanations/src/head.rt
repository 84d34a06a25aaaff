//! The head of a reply.
ghost use Rattle.std.specs.Prelude.{ℕ, ◌≡◌, ◌≤◌, OnOk, OnErr};
ghost use Rattle.std.specs.declared.option.Option.TheVariants.{None};
ghost use Rattle.std.specs.Io.KnownBytes.{Appends};
ghost use Rattle.itpg_base.specs.Outside.{HasCause, AppendsSome};

use itpg_base::{Failed, Sink};

// More bytes than a head has: a number, two words, and a name or another number.
const KEPT: usize = 128;

/// A sink that keeps the first line of what it gets, up to 128 bytes of it. It never fails.
#[derive(Drop)]
pub(crate) struct Head {
    bytes: [u8; KEPT],
    len: usize,
    ended: bool,
    ghost short: { len ≤ 128 },
}

impl Head {
    pub(crate) fn new() -> Head {
        Head {
            bytes: [0; KEPT],
            len: 0,
            ended: false,
        }
    }

    /// The line without its end.
    pub(crate) fn line(&self) -> &[u8] {
        &self.bytes[..self.len]
    }

    fn take(&mut self, byte: u8) {
        if byte == b'\n' {
            self.ended = true;
        }
        if !self.ended && self.len < KEPT {
            self.bytes[self.len] = byte;
            self.len += 1;
        }
    }
}

impl Sink for Head {
    ghost held = { λ s. None };

    ghost faults = { λ s. 0 };

    fn write(&mut self, piece: &[u8]) -> Result<(), Failed>
        ensures written { OnOk result (Appends None None piece.now) }
        ensures some { OnErr result (AppendsSome None None piece.now) }
        ensures cause { HasCause 0 0 result }
        ensures calm { OnOk result (◌≡◌ {A = ℕ} 0 0) }
    {
        if self.ended {
            return Ok(());
        }
        for byte in piece {
            self.take(*byte);
        }
        Ok(())
    }
}
