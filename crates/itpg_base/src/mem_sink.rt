//! A sink in memory.
ghost use Rattle.std.specs.Prelude.{◌≡◌, ◌+◌, ◌-◌, ◌^◌, ◌<◌, ◌≤◌, [], ◌++◌, ◌⊎◌, ◌↔◌, if◌then◌else◌};
ghost use Rattle.std.specs.Prelude.{min, length, take, OnOk, OnErr, IsErr, Contains, IsTrue, is_err};
ghost use Rattle.std.specs.declared.option.Option.TheVariants.{Some};
ghost use Rattle.std.specs.Io.KnownBytes.{Appends};
ghost use Rattle.itpg_base.specs.Outside.{HasCause, AppendsSome};
ghost use Rattle.itpg_base.specs.Devices.{saturate};

use crate::outside::{Failed, Sink};
use std::marker::Model;

/// A sink in memory that holds at most as many bytes as its room is long.
///
/// It fails exactly at a call whose number, from 1, stands in `fail`, or whose piece is longer than the room left; such a
/// call takes the first bytes of its piece: the least of `take`, the piece's length and the room left. The number of a
/// call stays at 2^64 - 1 once it is there. A contract sees the sink as its `Store`.
#[derive(Drop)]
pub struct MemSink {
    room: Vec<u8>,
    size: usize,
    most: usize,
    fail: Vec<u64>,
    calls: u64,
    faults: u64,
}

impl Model for MemSink {
    ghost use Rattle.std.specs.Prelude.{◌-◌, ◌≤◌, length, take};
    ghost use Rattle.itpg_base.specs.Devices.{Store};

    ghost Value = { Store };

    ghost view = { λ s. record { held = take s.size s.room.items; room = length s.room.items - s.size; most = s.most; fail = s.fail.items; calls = s.calls; faults = s.faults } };

    ghost invariant = { λ s. s.size ≤ length s.room.items };
}

impl MemSink {
    /// A sink that holds nothing so far and writes into `room`.
    pub fn new(fail: Vec<u64>, take: usize, room: Vec<u8>) -> Self
        ensures { result ≡ record { held = []; room = length room.items; most = take; fail = fail.items; calls = 0; faults = 0 } }
    {
        MemSink {
            room,
            size: 0,
            most: take,
            fail,
            calls: 0,
            faults: 0,
        }
    }

    /// The bytes that it holds.
    pub fn held(&self) -> &[u8]
        ensures { result.now ≡ self.now.held }
    {
        &self.room[..self.size]
    }
}

impl Sink for MemSink {
    ghost held = { λ s. Some s.held };

    ghost faults = { λ s. s.faults };

    fn write(&mut self, piece: &[u8]) -> Result<(), Failed>
        ensures written { OnOk result (Appends (Some self.old.held) (Some self.new.held) piece.now) }
        ensures some { OnErr result (AppendsSome (Some self.old.held) (Some self.new.held) piece.now) }
        ensures cause { HasCause self.old.faults self.new.faults result }
        ensures calm { OnOk result (self.new.faults ≡ self.old.faults) }
        ensures failed { IsErr result ↔ (Contains self.old.fail (saturate (self.old.calls + 1)) ⊎ (self.old.room < length piece.now)) }
        ensures taken { OnErr result (self.new.held ≡ self.old.held ++ take (min self.old.most (min (length piece.now) self.old.room)) piece.now) }
        ensures calls { self.new.calls ≡ saturate (self.old.calls + 1) }
        ensures room { length self.new.held + self.new.room ≡ length self.old.held + self.old.room }
        ensures rest { (self.new.most ≡ self.old.most) × (self.new.fail ≡ self.old.fail) }
        ensures rose { self.new.faults ≡ (if is_err result then saturate (self.old.faults + 1) else self.old.faults) }
    {
        self.calls = self.calls.saturating_add(1);
        let left = self.room.len() - self.size;
        if fails(&self.fail, self.calls, piece.len(), left) {
            put_front(&mut self.room, &mut self.size, piece, self.most);
            self.faults = self.faults.saturating_add(1);
            return Err(Failed);
        }
        put_at(&mut self.room, &mut self.size, piece);
        Ok(())
    }
}

// Writes the piece at a place and moves the place behind it.
fn put_at(room: &mut [u8], at: &mut usize, piece: &[u8])
    requires { at.old + length piece.now ≤ length room.old }
    ensures moved { at.new ≡ at.old + length piece.now }
    ensures put { take at.new room.new ≡ take at.old room.old ++ piece.now }
{
    let end = *at + piece.len();
    room[*at..end].copy_from_slice(piece);
    *at = end;
}

// Whether the call of this number fails, by its number or for want of room.
fn fails(fail: &[u64], call: u64, len: usize, left: usize) -> bool
    ensures { IsTrue result ↔ (Contains fail.now call ⊎ (left < len)) }
{
    len > left || fail.contains(&call)
}

// Writes as much of the piece as there is room for, and at most so many bytes.
fn put_front(room: &mut [u8], at: &mut usize, piece: &[u8], most: usize)
    requires { at.old ≤ length room.old }
    ensures within { at.new ≤ length room.new }
    ensures put { take at.new room.new ≡ take at.old room.old ++ take (min most (min (length piece.now) (length room.old - at.old))) piece.now }
    ensures some { AppendsSome (Some (take at.old room.old)) (Some (take at.new room.new)) piece.now }
{
    let count = most.min(piece.len()).min(room.len() - *at);
    put_at(room, at, &piece[..count]);
}
