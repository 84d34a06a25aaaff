//! Sources in memory.
ghost use Rattle.std.specs.Prelude.{◌≡◌, ◌+◌, ◌-◌, ◌^◌, ◌<◌, ◌≤◌, ◌↔◌, [], if◌then◌else◌};
ghost use Rattle.std.specs.Prelude.{ℕ, List, min, length, take, drop, IfOk, OnOk, IsErr, Contains, is_err};
ghost use Rattle.std.specs.declared.option.Option.TheVariants.{Some};
ghost use Rattle.std.specs.Io.{ReadsAtMost};
ghost use Rattle.std.specs.Io.KnownBytes.{ReadConsumes};
ghost use Rattle.itpg_base.specs.Outside.{HasCause};
ghost use Rattle.itpg_base.specs.Devices.{saturate};

use crate::outside::{Failed, Source};
use std::marker::Model;

/// A source in memory that never fails. A contract sees it as the bytes that are left.
#[derive(Drop)]
pub struct SureSource {
    bytes: Vec<u8>,
    at: usize,
}

impl Model for SureSource {
    ghost use Rattle.std.specs.Prelude.{ℕ, List, ◌≤◌, length, drop};

    ghost Value = { List ℕ };

    ghost view = { λ s. drop s.at s.bytes.items };

    ghost invariant = { λ s. s.at ≤ length s.bytes.items };
}

impl SureSource {
    /// The source of these bytes.
    pub fn new(bytes: Vec<u8>) -> Self
        ensures { result ≡ bytes.items }
    {
        SureSource { bytes, at: 0 }
    }
}

impl Source for SureSource {
    ghost left = { λ s. Some s };

    ghost faults = { λ s. 0 };

    fn read(&mut self, buf: &mut [u8]) -> Result<usize, Failed> {
        Ok(copy_front(&self.bytes, &mut self.at, buf, usize::MAX))
    }
}

/// Copies bytes from a place on into the front of the buffer, moves the place behind them, and says how many:
/// as many as are there, as the buffer takes and as are wanted.
pub(crate) fn copy_front(bytes: &[u8], at: &mut usize, buf: &mut [u8], most: usize) -> usize
    requires { at.old ≤ length bytes.now }
    ensures count { result ≡ min most (min (length buf.old) (length bytes.now - at.old)) }
    ensures moved { at.new ≡ at.old + result }
    ensures copied { take result buf.new ≡ take result (drop at.old bytes.now) }
{
    let rest = &bytes[*at..];
    let count = most.min(buf.len()).min(rest.len());
    buf[..count].copy_from_slice(&rest[..count]);
    *at += count;
    count
}

/// A source in memory that gives at most `chunk` bytes at a call and fails at the calls of the numbers in `fail`.
///
/// Calls are numbered from 1, and the number stays at 2^64 - 1 once it is there. A contract sees the source as its
/// `Supply`: what is left, the chunk, the calls that fail, and how often it was called and has failed.
#[derive(Drop)]
pub struct MemSource {
    bytes: Vec<u8>,
    at: usize,
    chunk: usize,
    fail: Vec<u64>,
    calls: u64,
    faults: u64,
}

impl Model for MemSource {
    ghost use Rattle.std.specs.Prelude.{◌<◌, ◌≤◌, length, drop};
    ghost use Rattle.itpg_base.specs.Devices.{Supply};

    ghost Value = { Supply };

    ghost view = { λ s. record { left = drop s.at s.bytes.items; chunk = s.chunk; fail = s.fail.items; calls = s.calls; faults = s.faults } };

    ghost invariant = { λ s. (s.at ≤ length s.bytes.items) × (0 < s.chunk) };
}

impl MemSource {
    /// The source of these bytes, not called so far.
    pub fn new(bytes: Vec<u8>, chunk: usize, fail: Vec<u64>) -> Self
        requires { 0 < chunk }
        ensures { result ≡ record { left = bytes.items; chunk = chunk; fail = fail.items; calls = 0; faults = 0 } }
    {
        MemSource {
            bytes,
            at: 0,
            chunk,
            fail,
            calls: 0,
            faults: 0,
        }
    }
}

impl Source for MemSource {
    ghost left = { λ s. Some s.left };

    ghost faults = { λ s. s.faults };

    /// Gives as many bytes as the least of the chunk, the buffer's length and what is left; `Failed` comes exactly at
    /// a call whose number stands in `fail`.
    fn read(&mut self, buf: &mut [u8]) -> Result<usize, Failed>
        requires { 0 < length buf.old }
        ensures bound { ReadsAtMost result buf.new }
        ensures bytes { ReadConsumes (Some self.old.left) (Some self.new.left) result buf.new }
        ensures cause { HasCause self.old.faults self.new.faults result }
        ensures calm { OnOk result (self.new.faults ≡ self.old.faults) }
        ensures failed { IsErr result ↔ Contains self.old.fail (saturate (self.old.calls + 1)) }
        ensures count { IfOk result (λ n. n ≡ min self.old.chunk (min (length buf.old) (length self.old.left))) }
        ensures calls { self.new.calls ≡ saturate (self.old.calls + 1) }
        ensures rest { (self.new.chunk ≡ self.old.chunk) × (self.new.fail ≡ self.old.fail) }
        ensures rose { self.new.faults ≡ (if is_err result then saturate (self.old.faults + 1) else self.old.faults) }
    {
        self.calls = self.calls.saturating_add(1);
        if self.fail.contains(&self.calls) {
            self.faults = self.faults.saturating_add(1);
            return Err(Failed);
        }
        Ok(copy_front(&self.bytes, &mut self.at, buf, self.chunk))
    }
}
