//! What a line asks for.
ghost use Rattle.std.specs.Prelude.{◌≡◌, []};

use itpg_base::Name;
use itpg_edit::Edit;

/// What a script line asks for. A query text is a part of the line, and an edit is lent by the room that the line was read into.
///
/// ```text
///     node a Staff,Person              Edit: AddNode { id: a, labels: {Person, Staff} }
///     ask MATCH (x:Person)             Ask:  " MATCH (x:Person)"
///     count MATCH (x:Person)           Count: " MATCH (x:Person)"
///     watch w MATCH (x:Person)         Watch w, " MATCH (x:Person)"
///     in s ask MATCH (x:Person)        InPin s, " MATCH (x:Person)"
///     follow f MATCH (x:Person)        Follow f, " MATCH (x:Person)"
///     near f a                         Near f, a
/// ```
#[derive(Clone, Copy)]
pub enum Line<'a> {
    /// Nothing: the line is blank or a comment.
    Blank,
    /// A change of the graph.
    Edit(&'a Edit),
    /// The answer to a query text: the bytes behind the word `ask`, up to the end of the line.
    Ask(&'a [u8]),
    /// The first arrivals of a query text's path: the bytes behind the word `first`.
    First(&'a [u8]),
    /// The last departures of a query text's path: the bytes behind the word `last`.
    Last(&'a [u8]),
    /// How many objects answer a query text, moment by moment: the bytes behind the word `count`.
    Count(&'a [u8]),
    /// To watch a query text under this name: the bytes behind the name, up to the end of the line.
    Watch(Name, &'a [u8]),
    /// The answer of the watch of this name.
    Show(Name),
    /// To forget the watch of this name.
    Unwatch(Name),
    /// The changes of all watches.
    Tick,
    /// To pin the graph as it stands under this name.
    OpenPin(Name),
    /// To give up the pin of this name.
    ClosePin(Name),
    /// The answer to a query text on the graph of the pin of this name: the bytes behind the word `ask`.
    InPin(Name, &'a [u8]),
    /// To follow a query text under this name: the bytes behind the name, up to the end of the line.
    Follow(Name, &'a [u8]),
    /// The rows of the follow of the first name from the object of the second.
    Near(Name, Name),
    /// To forget the follow of this name.
    Unfollow(Name),
}

/// What the lines `first`, `last` and `count` want of a query text.
#[derive(Clone, Copy)]
pub enum Wanted {
    /// Of each departure between two objects, the first arrival.
    First,
    /// To each arrival between two objects, the last departure.
    Last,
    /// How many objects answer, moment by moment.
    Count,
}

/// A first room for `read_line` to write edits into. It holds an edit of no meaning: to drop the object of the empty name.
pub fn room() -> Edit
    ensures { result ≡ Edit.Remove [] }
{
    Edit::Remove {
        id: Name::default(),
    }
}
