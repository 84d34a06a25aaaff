//! Text on its way to a sink, gathered without memory.
ghost use Rattle.std.specs.Prelude.{◌≡◌, ◌+◌, ◌≤◌, [], ◌++◌, length, take, OnOk, OnErr};
ghost use Rattle.std.specs.Fmt.{decimal, signed_decimal};
ghost use Rattle.itpg_base.specs.Sinks.{Gets, GetsSome, IsHonest};
ghost use Rattle.row_printer.specs.Pieces.{piece_size, piece_text, pieces_size, pieces_text};

use itoa::Buffer;
use itpg_base::{Failed, Sink};
use std::marker::Model;

/// How many bytes a page holds: more than any line of a reply has.
pub const PAGE: usize = 4_096;

// How many bytes a number is written with at most.
const MAX_NUMBER: usize = 20;

/// A piece of a page.
#[derive(Clone, Copy)]
pub enum Piece<'a> {
    Text(&'a [u8]),
    /// In decimal.
    Number(u64),
}

/// Up to `PAGE` bytes of text that are to be written in one piece. A contract sees it as these bytes.
#[derive(Drop)]
pub struct Page {
    bytes: [u8; PAGE],
    size: usize,
}

impl Model for Page {
    ghost use Rattle.std.specs.Prelude.{◌≡◌, ◌≤◌, ℕ, List, length, take};

    ghost Value = { List ℕ };

    ghost view = { λ p. take p.size p.bytes };

    ghost invariant = { λ p. (length p.bytes ≡ 4096) × (p.size ≤ 4096) };
}

impl Page {
    /// A page without text.
    pub fn new() -> Page
        ensures { result ≡ [] }
    {
        Page {
            bytes: [0; PAGE],
            size: 0,
        }
    }

    /// A page of pieces, one behind the other. A number counts as 20 bytes.
    pub fn of(pieces: &[Piece<'_>]) -> Page
        requires { pieces_size pieces.now ≤ PAGE }
        ensures { result ≡ pieces_text pieces.now }
    {
        let mut page = Page::new();
        for piece in pieces {
            page.add_piece(*piece);
        }
        page
    }

    // Puts a piece behind what the page has.
    fn add_piece(&mut self, piece: Piece<'_>)
        requires { length self.old + piece_size piece ≤ PAGE }
        ensures added { self.new ≡ self.old ++ piece_text piece.entry }
        ensures size { length self.new ≤ length self.old + piece_size piece.entry }
    {
        match piece {
            Piece::Text(text) => self.add(text),
            Piece::Number(number) => self.add_number(number),
        }
    }

    /// How many bytes it has.
    pub fn len(&self) -> usize
        ensures count { result ≡ length self.now }
        ensures fits { result ≤ PAGE }
    {
        self.size
    }

    /// Puts text behind what the page has.
    pub fn add(&mut self, text: &[u8])
        requires { length self.old + length text.now ≤ PAGE }
        ensures added { self.new ≡ self.old ++ text.now }
        ensures size { length self.new ≡ length self.old + length text.now }
    {
        put_behind(&mut self.bytes, self.size, text);
        self.size += text.len();
    }

    /// Puts an unsigned number behind what the page has.
    pub fn add_number(&mut self, number: u64)
        requires { length self.old + MAX_NUMBER ≤ PAGE }
        ensures added { self.new ≡ self.old ++ decimal number }
        ensures size { length self.new ≤ length self.old + MAX_NUMBER }
    {
        let mut digits = Buffer::new();
        self.add(digits.format(number).as_bytes());
    }

    /// Puts a moment behind what the page has.
    pub fn add_moment(&mut self, moment: i64)
        requires { length self.old + MAX_NUMBER ≤ PAGE }
        ensures added { self.new ≡ self.old ++ signed_decimal moment }
        ensures size { length self.new ≤ length self.old + MAX_NUMBER }
    {
        let mut digits = Buffer::new();
        self.add(digits.format(moment).as_bytes());
    }

    /// Writes the text of the page, which then has none. Where the sink fails, a front part was written, and the page has its
    /// text still.
    pub fn write<K: Sink>(&mut self, out: &mut K) -> Result<(), Failed>
        ensures written { OnOk result (Gets K.Sink out.old out.new self.old) }
        ensures none { OnOk result (self.new ≡ []) }
        ensures some { OnErr result (GetsSome K.Sink out.old out.new self.old) }
        ensures err { OnErr result (self.new ≡ self.old) }
        ensures cause { IsHonest K.Sink out.old out.new result }
    {
        out.write(&self.bytes[..self.size])?;
        self.size = 0;
        Ok(())
    }
}

// Writes text over the bytes from a place on.
fn put_behind(bytes: &mut [u8], at: usize, text: &[u8])
    requires { at + length text.now ≤ length bytes.old }
    ensures { take (at + length text.now) bytes.new ≡ take at bytes.old ++ text.now }
{
    bytes[at..at + text.len()].copy_from_slice(text);
}
