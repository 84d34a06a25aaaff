//! The names that the members of the objects have.
ghost use Rattle.std.specs.Prelude.{◌≡◌, IfSome};
ghost use Rattle.json_port.specs.Keys.{key_word};

#[derive(Clone, Copy, PartialEq, Eq)]
pub(crate) enum Key {
    Op,
    Name,
    Lo,
    Hi,
    Id,
    Labels,
    Source,
    Target,
    From,
    To,
    Prop,
    Value,
    Line,
}

impl Key {
    // The key that has this word.
    pub(crate) fn of(word: &[u8]) -> Option<Key>
        ensures { IfSome result (λ key. key_word key ≡ word.now) }
    {
        match word {
            [b'o', b'p'] => Some(Key::Op),
            [b'i', b'd'] => Some(Key::Id),
            [b't', b'o'] => Some(Key::To),
            [b'l', b'o'] => Some(Key::Lo),
            [b'h', b'i'] => Some(Key::Hi),
            [b'f', b'r', b'o', b'm'] => Some(Key::From),
            [b'p', b'r', b'o', b'p'] => Some(Key::Prop),
            [b'n', b'a', b'm', b'e'] => Some(Key::Name),
            [b'l', b'i', b'n', b'e'] => Some(Key::Line),
            [b'v', b'a', b'l', b'u', b'e'] => Some(Key::Value),
            [b'l', b'a', b'b', b'e', b'l', b's'] => Some(Key::Labels),
            [b's', b'o', b'u', b'r', b'c', b'e'] => Some(Key::Source),
            [b't', b'a', b'r', b'g', b'e', b't'] => Some(Key::Target),
            _ => None,
        }
    }

    pub(crate) fn word(self) -> &'static str
        ensures { result.now ≡ key_word self }
    {
        match self {
            Key::Op => "op",
            Key::Name => "name",
            Key::Lo => "lo",
            Key::Hi => "hi",
            Key::Id => "id",
            Key::Labels => "labels",
            Key::Source => "source",
            Key::Target => "target",
            Key::From => "from",
            Key::To => "to",
            Key::Prop => "prop",
            Key::Value => "value",
            Key::Line => "line",
        }
    }
}
