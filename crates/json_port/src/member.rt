//! Members of flat objects.
ghost use Rattle.std.specs.Prelude.{◌≡◌, ℕ, List, option_map};
ghost use Rattle.serde_json.specs.Find.{get_member};
ghost use Rattle.json_port.specs.Keys.{key_word};
ghost use Rattle.json_port.specs.Flats.{member_data, members_of};

use crate::key::Key;

// What stands under a name: a text, a whole number, or the texts that the object lists.
#[derive(Clone, Copy)]
pub(crate) enum Part<'a> {
    Text(&'a [u8]),
    Number(i64),
    Names,
}

#[derive(Clone, Copy)]
pub(crate) struct Member<'a> {
    pub(crate) key: Key,
    pub(crate) part: Part<'a>,
}

// The member of a name: the last one, if there are more.
pub(crate) fn find<'f, 'a>(members: &'f [Member<'a>], key: Key) -> Option<&'f Member<'a>>
    ensures { (names : List (List ℕ)) → option_map (λ m. member_data names m.now) result ≡ get_member (key_word key) (members_of names members.entry.now) }
{
    members.iter().rev().find(|member| member.key == key)
}
