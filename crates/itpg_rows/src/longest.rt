//! A script as long as it may be, and one that is longer by a byte.

use crate::case::{Difference, compare};
use crate::runs::sink_for;
use anyhow::{Result, bail, ensure};
use itpg_base::RepeatSource;
use itpg_run::{Ending, Status, serve};
use std::alloc::{AllocError, Global};

// How many bytes a comment has, with its end.
const COMMENT: usize = 65_536;

/// A piece of comments of 65,536 bytes and a last line that is no line of a script, so many times.
#[derive(Clone, Copy)]
pub struct Pieces {
    pub comments: u32,
    /// How many bytes the last line of a piece has, with its end.
    pub last: usize,
    pub times: u64,
    /// How many last lines are answered.
    pub answered: u32,
    pub status: Status,
}

/// 268,435,456 bytes, and one byte more: that is the end of the last line.
pub const SCRIPTS: [Pieces; 2] = [
    Pieces {
        comments: 255,
        last: 65_536,
        times: 16,
        answered: 16,
        status: Status::DoneRefused,
    },
    Pieces {
        comments: 240,
        last: 61_681,
        times: 17,
        answered: 16,
        status: Status::TooLong,
    },
];

impl Pieces {
    /// Runs the script, and says how the run differed from what it must be, if it did.
    pub fn difference(&self, alloc: Global) -> Result<Option<Difference>> {
        let mut source = source_of(self.piece(alloc)?, self.times)?;
        let output = self.output(alloc)?;
        let mut sink = sink_for(alloc, output.len())?;
        let status = serve(alloc, &[], &mut source, &mut sink, Ending::Free);
        Ok(compare(sink.held(), status, &output, u32::from(self.status.code())))
    }

    fn piece(&self, alloc: Global) -> Result<Vec<u8>, AllocError> {
        let mut piece = Vec::new(alloc);
        let mut comment = vec![in alloc; b'x'; COMMENT]?;
        comment[0] = b'#';
        comment[COMMENT - 1] = b'\n';
        for _ in 0..self.comments {
            piece.extend_from_slice(&comment)?;
        }
        let last = vec![in alloc; b'x'; self.last.saturating_sub(1)]?;
        piece.extend_from_slice(&last)?;
        piece.push(b'\n')?;
        Ok(piece)
    }

    fn output(&self, alloc: Global) -> Result<Vec<u8>, AllocError> {
        let mut output = Vec::new(alloc);
        let mut number = 0u32;
        for _ in 0..self.answered {
            number = number.saturating_add(self.comments).saturating_add(1);
            let reply = format!(in alloc; "line {number} bad text\n")?;
            output.extend_from_slice(reply.as_bytes())?;
        }
        Ok(output)
    }
}

// The source of the piece, so many times.
fn source_of(piece: Vec<u8>, times: u64) -> Result<RepeatSource> {
    let length = piece.len() as u64;
    ensure!(length > 0, "an empty piece");
    match length.checked_mul(times) {
        Some(_) => Ok(RepeatSource::new(piece, times)),
        None => bail!("no script of so many bytes"),
    }
}
