//! The command words.
ghost use Rattle.std.specs.Prelude.{◌≡◌};
ghost use Rattle.edit_reader.specs.Commands.{command_word, command_of, is_edit};

#[derive(Clone, Copy)]
pub(crate) enum Command {
    Graph,
    Extend,
    Node,
    Edge,
    Live,
    Gone,
    Set,
    Unset,
    Drop,
    Ask,
    First,
    Last,
    Count,
    Watch,
    Show,
    Unwatch,
    Tick,
    Open,
    Close,
    In,
    Follow,
    Near,
    Unfollow,
}

// The words that scripts have most of stand first.
const COMMANDS: [Command; 23] = [
    Command::Live,
    Command::Set,
    Command::Node,
    Command::Edge,
    Command::Gone,
    Command::Unset,
    Command::Drop,
    Command::Ask,
    Command::Show,
    Command::Tick,
    Command::In,
    Command::Near,
    Command::Watch,
    Command::Unwatch,
    Command::Open,
    Command::Close,
    Command::Follow,
    Command::Unfollow,
    Command::First,
    Command::Last,
    Command::Count,
    Command::Extend,
    Command::Graph,
];

impl Command {
    // The command that has this word.
    pub(crate) fn of(word: &[u8]) -> Option<Command>
        ensures { result ≡ command_of word.now }
    {
        // The words of most lines are told at once.
        if word == b"live".as_slice() {
            Some(Command::Live)
        } else if word == b"set".as_slice() {
            Some(Command::Set)
        } else {
            Command::among_all(word)
        }
    }

    // The same, whichever it is.
    fn among_all(word: &[u8]) -> Option<Command>
        ensures { result ≡ command_of word.now }
    {
        COMMANDS
            .iter()
            .copied()
            .find(|command| command.word() == word)
    }

    // Whether the graph changes by what a line with this word asks for.
    pub(crate) fn is_edit(self) -> bool
        ensures { result ≡ is_edit self }
    {
        matches!(
            self,
            Command::Graph
                | Command::Extend
                | Command::Node
                | Command::Edge
                | Command::Live
                | Command::Gone
                | Command::Set
                | Command::Unset
                | Command::Drop
        )
    }

    fn word(self) -> &'static [u8]
        ensures { result.now ≡ command_word self }
    {
        match self {
            Command::Graph => b"graph",
            Command::Extend => b"extend",
            Command::Node => b"node",
            Command::Edge => b"edge",
            Command::Live => b"live",
            Command::Gone => b"gone",
            Command::Set => b"set",
            Command::Unset => b"unset",
            Command::Drop => b"drop",
            Command::Ask => b"ask",
            Command::First => b"first",
            Command::Last => b"last",
            Command::Count => b"count",
            Command::Watch => b"watch",
            Command::Show => b"show",
            Command::Unwatch => b"unwatch",
            Command::Tick => b"tick",
            Command::Open => b"open",
            Command::Close => b"close",
            Command::In => b"in",
            Command::Follow => b"follow",
            Command::Near => b"near",
            Command::Unfollow => b"unfollow",
        }
    }
}
