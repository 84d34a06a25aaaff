//! Tokens.
ghost use Rattle.std.specs.Prelude.{◌≡◌, length};
ghost use Rattle.script_lex.specs.Lexemes.{lexeme, written};

use crate::mark::Mark;

/// How many tokens a line or a query text may have. `next_token` doesn't count them.
pub const MAX_TOKENS: usize = 4_096;

/// A token and where it stands in its line.
///
/// ```text
///     node  n1
///     0..4  6..8    from and to of the two tokens: the bytes from `from` up to, and without, `to`
/// ```
#[derive(Clone, Copy, Debug, PartialEq, Eq)]
pub struct Token<'a> {
    /// The place of its first byte in the line, counted from 0.
    pub from: usize,
    /// The place behind its last byte.
    pub to: usize,
    /// Which token it is.
    pub what: What<'a>,
}

/// Which token it is, with its bytes.
#[derive(Clone, Copy, Debug, PartialEq, Eq)]
pub enum What<'a> {
    /// An ASCII letter, and as many ASCII letters, digits and `_` as follow.
    Word(&'a [u8]),
    /// Digits, as many as follow, with or without one `-` directly before them. The bytes are those of the line: leading
    /// zeros stay. `value_of` gives the number.
    Number(&'a [u8]),
    /// The bytes between two quotes `'`: any of 0x20 to 0x7E but the quote.
    Quoted(&'a [u8]),
    /// A mark of one or two bytes.
    Mark(Mark),
}

impl What<'_> {
    // How many bytes of the line it takes, the two quotes of a quoted text with them.
    pub(crate) fn width(&self) -> usize
        ensures { result ≡ length (written (lexeme self.now)) }
    {
        match self {
            What::Word(bytes) | What::Number(bytes) => bytes.len(),
            What::Quoted(bytes) => bytes.len() + 2,
            What::Mark(mark) => mark.width(),
        }
    }
}
