//! Flat objects: at most six members, each a text, a whole number or some texts, and no name twice.
ghost use Rattle.std.specs.Prelude.{◌≡◌, ◌≤◌, take};
ghost use Rattle.serde_json.specs.Events.{members_len};
ghost use Rattle.json_port.specs.Flats.{listed, members_of};

use crate::member::Member;
use crate::names::Names;

pub(crate) const MAX_MEMBERS: usize = 6;

// The members in the order of the line, and the texts that one of them may list.
#[derive(Clone, Copy)]
pub(crate) struct Flat<'a> {
    pub(crate) members: [Member<'a>; MAX_MEMBERS],
    pub(crate) len: usize,
    pub(crate) names: Names<'a>,
    ghost few: { len ≤ 6 },
    ghost counted: { members_len (members_of (listed names) (take len members)) ≡ len },
}

impl<'a> Flat<'a> {
    pub(crate) fn as_slice(&self) -> &[Member<'a>]
        ensures { result.now ≡ take self.now.len self.now.members }
    {
        &self.members[..self.len]
    }
}
