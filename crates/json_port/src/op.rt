//! The kinds of objects.
ghost use Rattle.std.specs.Prelude.{◌≡◌, IfSome};
ghost use Rattle.json_port.specs.Objects.{op_word, op_of, op_count};

// What an object asks for, as its member `op` says it.
#[derive(Clone, Copy)]
pub(crate) enum Op {
    Graph,
    Extend,
    Node,
    Edge,
    Live,
    Gone,
    Set,
    Unset,
    Drop,
    Text,
}

// The most frequent ones come first.
const OPS: [Op; 10] = [
    Op::Live,
    Op::Set,
    Op::Node,
    Op::Edge,
    Op::Gone,
    Op::Unset,
    Op::Drop,
    Op::Text,
    Op::Extend,
    Op::Graph,
];

impl Op {
    // The kind that has this word.
    pub(crate) fn of(word: &[u8]) -> Option<Op>
        ensures { result ≡ op_of word.now }
    {
        match Op::likely(word) {
            Some(op) => Some(op),
            None => OPS.iter().copied().find(|op| op.word() == word),
        }
    }

    // The kind that has this word, if it is one of the frequent ones.
    fn likely(word: &[u8]) -> Option<Op>
        ensures { IfSome result (λ op. op_word op ≡ word.now) }
    {
        match word {
            [b'l', b'i', b'v', b'e'] => Some(Op::Live),
            [b's', b'e', b't'] => Some(Op::Set),
            [b'n', b'o', b'd', b'e'] => Some(Op::Node),
            [b'e', b'd', b'g', b'e'] => Some(Op::Edge),
            [b'g', b'o', b'n', b'e'] => Some(Op::Gone),
            [b'u', b'n', b's', b'e', b't'] => Some(Op::Unset),
            [b'd', b'r', b'o', b'p'] => Some(Op::Drop),
            _ => None,
        }
    }

    fn word(self) -> &'static [u8]
        ensures { result.now ≡ op_word self }
    {
        match self {
            Op::Graph => b"graph",
            Op::Extend => b"extend",
            Op::Node => b"node",
            Op::Edge => b"edge",
            Op::Live => b"live",
            Op::Gone => b"gone",
            Op::Set => b"set",
            Op::Unset => b"unset",
            Op::Drop => b"drop",
            Op::Text => b"text",
        }
    }

    // How many members an object of the kind has, `op` among them.
    pub(crate) fn count(self) -> usize
        ensures { result ≡ op_count self }
    {
        match self {
            Op::Drop | Op::Text => 2,
            Op::Extend | Op::Node => 3,
            Op::Graph | Op::Live | Op::Gone => 4,
            Op::Edge | Op::Unset => 5,
            Op::Set => 6,
        }
    }
}
