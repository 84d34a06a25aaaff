//! The kinds of bytes.
ghost use Rattle.std.specs.Prelude.{◌≡◌, ◌≤◌, length};
ghost use Rattle.std.specs.List.{prefix_len};
ghost use Rattle.script_lex.specs.Bytes.{is_in};

#[derive(Clone, Copy)]
pub(crate) enum Class {
    // A space or a tab.
    Blank,
    // An ASCII letter, a digit or `_`.
    Word,
    Digit,
    // What may stand between quotes.
    Plain,
}

impl Class {
    fn has(self, byte: u8) -> bool
        ensures { result ≡ is_in self byte }
    {
        match self {
            Class::Blank => byte == b' ' || byte == b'\t',
            Class::Word => byte.is_ascii_alphanumeric() || byte == b'_',
            Class::Digit => byte.is_ascii_digit(),
            Class::Plain => b' ' <= byte && byte <= b'~' && byte != b'\'',
        }
    }

    // How many bytes from the front on are of this kind.
    pub(crate) fn run(self, bytes: &[u8]) -> usize
        ensures run { result ≡ prefix_len (is_in self) bytes.now }
        ensures within { result ≤ length bytes.now }
    {
        for (i, byte) in bytes.iter().enumerate() {
            if !self.has(*byte) {
                return i;
            }
        }
        bytes.len()
    }
}
