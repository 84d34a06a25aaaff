//! A source that repeats a piece.
ghost use Rattle.std.specs.Prelude.{◌≡◌, ◌*◌, ◌^◌, ◌<◌, length};
ghost use Rattle.std.specs.declared.option.Option.TheVariants.{Some};
ghost use Rattle.itpg_base.specs.Devices.{repeated};

use crate::mem_source::copy_front;
use crate::outside::{Failed, Source};
use std::marker::Model;

/// A source that gives a piece so many times and never fails. A contract sees it as the bytes that are left.
#[derive(Drop)]
pub struct RepeatSource {
    piece: Vec<u8>,
    at: usize,
    times: u64,
}

impl Model for RepeatSource {
    ghost use Rattle.std.specs.Prelude.{ℕ, List, ◌<◌, length, drop};
    ghost use Rattle.itpg_base.specs.Devices.{repeated};

    ghost Value = { List ℕ };

    ghost view = { λ s. drop s.at (repeated s.times s.piece.items) };

    ghost invariant = { λ s. s.at < length s.piece.items };
}

impl RepeatSource {
    /// The source of the piece, `times` times. The piece isn't empty, and all its bytes together are fewer than 2^64.
    pub fn new(piece: Vec<u8>, times: u64) -> Self
        requires some { 0 < length piece.items }
        requires fits { length piece.items * times < 2 ^ 64 }
        ensures { result ≡ repeated times piece.items }
    {
        RepeatSource {
            piece,
            at: 0,
            times,
        }
    }
}

impl Source for RepeatSource {
    ghost left = { λ s. Some s };

    ghost faults = { λ s. 0 };

    fn read(&mut self, buf: &mut [u8]) -> Result<usize, Failed> {
        if self.times == 0 {
            return Ok(0);
        }
        let count = copy_front(&self.piece, &mut self.at, buf, usize::MAX);
        if self.at == self.piece.len() {
            self.at = 0;
            self.times -= 1;
        }
        Ok(count)
    }
}
