//! The words of query texts that have a meaning of their own.
ghost use Rattle.std.specs.Prelude.{◌≡◌};
ghost use Rattle.match_parser.specs.Heads.{keyword_of, axis_of};

/// A word that tests are made of. No property that a test asks for has such a name.
#[derive(Clone, Copy, Debug, PartialEq, Eq)]
pub(crate) enum Keyword {
    // `NOT`
    Not,
    // `AND`
    And,
    // `OR`
    Or,
    // `NODE`
    Node,
    // `EDGE`
    Edge,
    // `EXISTS`
    Exists,
    // `time`
    Time,
}

// The keyword that the word is.
pub(crate) fn find_keyword(word: &[u8]) -> Option<Keyword>
    ensures { result ≡ keyword_of word.now }
{
    if word == b"EXISTS".as_slice() {
        return Some(Keyword::Exists);
    }
    match word {
        b"NODE" => Some(Keyword::Node),
        b"EDGE" => Some(Keyword::Edge),
        b"time" => Some(Keyword::Time),
        b"NOT" => Some(Keyword::Not),
        b"AND" => Some(Keyword::And),
        b"OR" => Some(Keyword::Or),
        _ => None,
    }
}

/// A word that is a step of a path.
#[derive(Clone, Copy, Debug, PartialEq, Eq)]
pub(crate) enum Axis {
    // `FWD`
    Fwd,
    // `BWD`
    Bwd,
    // `NEXT`
    Next,
    // `PREV`
    Prev,
    // `F`
    F,
    // `B`
    B,
    // `N`
    N,
    // `P`
    P,
}

// The step that the word is.
pub(crate) fn find_axis(word: &[u8]) -> Option<Axis>
    ensures { result ≡ axis_of word.now }
{
    match word {
        b"FWD" => Some(Axis::Fwd),
        b"BWD" => Some(Axis::Bwd),
        b"NEXT" => Some(Axis::Next),
        b"PREV" => Some(Axis::Prev),
        b"F" => Some(Axis::F),
        b"B" => Some(Axis::B),
        b"N" => Some(Axis::N),
        b"P" => Some(Axis::P),
        _ => None,
    }
}
