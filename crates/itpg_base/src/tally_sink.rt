//! A sink that counts.
ghost use Rattle.std.specs.Prelude.{ℕ, ◌≡◌, ◌+◌, ◌%◌, ◌^◌, length, sum, OnOk, OnErr, IsOk};
ghost use Rattle.std.specs.declared.option.Option.TheVariants.{None};
ghost use Rattle.std.specs.Io.KnownBytes.{Appends};
ghost use Rattle.itpg_base.specs.Outside.{HasCause, AppendsSome};

use crate::outside::{Failed, Sink};
use std::marker::Model;

/// A sink that keeps the number of bytes and their sum, both modulo 2^64, doesn't tell what it holds, and never fails.
#[derive(Drop)]
pub struct TallySink {
    bytes: u64,
    sum: u64,
}

impl Model for TallySink {
    ghost use Rattle.itpg_base.specs.Devices.{Tally};

    ghost Value = { Tally };

    ghost view = { λ s. record { bytes = s.bytes; sum = s.sum } };
}

impl TallySink {
    /// A sink that got nothing so far.
    pub fn new() -> Self
        ensures { result ≡ record { bytes = 0; sum = 0 } }
    {
        TallySink { bytes: 0, sum: 0 }
    }

    /// How many bytes it got, modulo 2^64.
    pub fn bytes(&self) -> u64
        ensures { result ≡ self.now.bytes }
    {
        self.bytes
    }

    /// The sum of the bytes that it got, modulo 2^64.
    pub fn sum(&self) -> u64
        ensures { result ≡ self.now.sum }
    {
        self.sum
    }
}

impl Default for TallySink {
    fn default() -> Self
        ensures { result ≡ record { bytes = 0; sum = 0 } }
    {
        TallySink::new()
    }
}

impl Sink for TallySink {
    ghost held = { λ s. None };

    ghost faults = { λ s. 0 };

    fn write(&mut self, piece: &[u8]) -> Result<(), Failed>
        ensures written { OnOk result (Appends None None piece.now) }
        ensures some { OnErr result (AppendsSome None None piece.now) }
        ensures cause { HasCause 0 0 result }
        ensures calm { OnOk result (◌≡◌ {A = ℕ} 0 0) }
        ensures ok { IsOk result }
        ensures bytes { self.new.bytes ≡ (self.old.bytes + length piece.now) % 2 ^ 64 }
        ensures sum { self.new.sum ≡ (self.old.sum + sum piece.now) % 2 ^ 64 }
    {
        for byte in piece {
            self.bytes = self.bytes.wrapping_add(1);
            self.sum = self.sum.wrapping_add(u64::from(*byte));
        }
        Ok(())
    }
}
