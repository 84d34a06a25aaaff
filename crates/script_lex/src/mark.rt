//! Marks.
ghost use Rattle.std.specs.Prelude.{◌≡◌, ◌∷◌, ℕ, List, length};
ghost use Rattle.script_lex.specs.Marks.{mark_text, first_mark, double_marks, single_marks, mark_of};

/// A token that is always written with the same one or two bytes. The three of two bytes stand first.
#[derive(Clone, Copy, Debug, PartialEq, Eq)]
pub enum Mark {
    /// `-/`
    DashSlash,
    /// `/-`
    SlashDash,
    /// `>=`
    AtLeast,
    /// `(`
    ParenL,
    /// `)`
    ParenR,
    /// `{`
    BraceL,
    /// `}`
    BraceR,
    /// `[`
    BrackL,
    /// `]`
    BrackR,
    /// `:`
    Colon,
    /// `,`
    Comma,
    /// `+`
    Plus,
    /// `*`
    Star,
    /// `/`
    Slash,
    /// `?`
    Ask,
    /// `=`
    Equal,
    /// `<`
    Less,
    /// `_`
    Under,
}

impl Mark {
    // How many bytes it is written with.
    pub(crate) fn width(self) -> usize
        ensures { result ≡ length (mark_text self) }
    {
        match self {
            Mark::DashSlash | Mark::SlashDash | Mark::AtLeast => 2,
            _ => 1,
        }
    }
}

// The mark that the bytes begin with: one of two bytes before one of one byte.
pub(crate) fn read_mark(first: u8, rest: &[u8]) -> Option<Mark>
    ensures { result ≡ mark_of (first ∷ rest.now) }
{
    match rest.first() {
        Some(second) => read_double(first, *second).or(read_single(first)),
        None => read_single(first),
    }
}

#[tactic(auto, unfolding(crate::specs::Marks::first_mark))]
fn read_double(first: u8, second: u8) -> Option<Mark>
    ensures { (rest : List ℕ) → result ≡ first_mark double_marks (first ∷ second ∷ rest) }
{
    match (first, second) {
        (b'-', b'/') => Some(Mark::DashSlash),
        (b'/', b'-') => Some(Mark::SlashDash),
        (b'>', b'=') => Some(Mark::AtLeast),
        _ => None,
    }
}

#[tactic(auto, unfolding(crate::specs::Marks::first_mark))]
fn read_single(byte: u8) -> Option<Mark>
    ensures { (rest : List ℕ) → result ≡ first_mark single_marks (byte ∷ rest) }
{
    match byte {
        b'(' => Some(Mark::ParenL),
        b')' => Some(Mark::ParenR),
        b'{' => Some(Mark::BraceL),
        b'}' => Some(Mark::BraceR),
        b'[' => Some(Mark::BrackL),
        b']' => Some(Mark::BrackR),
        b':' => Some(Mark::Colon),
        b',' => Some(Mark::Comma),
        b'+' => Some(Mark::Plus),
        b'*' => Some(Mark::Star),
        b'/' => Some(Mark::Slash),
        b'?' => Some(Mark::Ask),
        b'=' => Some(Mark::Equal),
        b'<' => Some(Mark::Less),
        b'_' => Some(Mark::Under),
        _ => None,
    }
}
