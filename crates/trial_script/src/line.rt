//! The lines of a script and their texts.
ghost use Rattle.std.specs.Prelude.{◌≡◌, ◌+◌, IfOk, codes, if◌then◌else◌, nat_eq, nat_lt, string_bytes};
ghost use Rattle.trial_script.specs.Draws.{after, draw};
ghost use Rattle.trial_script.specs.Script.{edge_line, edge_name, high_line, live_line, positive_line};
ghost use Rattle.trial_script.specs.Left.{line_text, question_line};

use crate::draws::draw;
use std::alloc::{AllocError, Global};

/// A line of a script.
#[derive(Clone, Copy)]
pub(crate) enum Line {
    Graph,
    Node(u64),
    NodeLife(u64),
    Edge(DrawnEdge),
    EdgeLife(DrawnEdge),
    High { person: u64, from: u64, to: u64 },
    Positive { person: u64, from: u64, to: u64 },
    Ask(Question),
}

/// An edge with what was drawn for it: its ends, its kind and the span of its life.
#[derive(Clone, Copy)]
pub(crate) struct DrawnEdge {
    pub number: u64,
    pub source: u64,
    pub target: u64,
    pub meets: bool,
    pub from: u64,
    pub to: u64,
}

/// A question of a script.
#[derive(Clone, Copy)]
pub(crate) enum Question {
    AtRisk,
    InContact,
    Alone,
}

// How many persons there are: the first nodes.
pub(crate) const PERSONS: u64 = 150;

// The first and the last moment of the graph.
const FIRST: u64 = 0;

const LAST: u64 = 9_999;

impl Line {
    /// The bytes of the line, without its end.
    pub(crate) fn bytes(&self, alloc: Global) -> Result<Vec<u8>, AllocError>
        ensures { IfOk result (λ bytes. bytes.items ≡ line_text self.now) }
    {
        let text = self.text(alloc)?;
        Ok(text.into_bytes())
    }

    // The text of the line.
    #[tactic(auto, unfolding(crate::specs::Script::graph_line, crate::specs::Script::node_line, crate::specs::Script::live_line, crate::specs::Script::node_name))]
    fn text(&self, alloc: Global) -> Result<String, AllocError>
        ensures { IfOk result (λ text. string_bytes text ≡ line_text self.now) }
    {
        match *self {
            Line::Graph => format!(in alloc; "graph trial 0 9999"),
            Line::Node(i) => format!(in alloc; "node n{i} {}", label(i)),
            Line::NodeLife(i) => format!(in alloc; "live n{i} {FIRST} {LAST}"),
            Line::Edge(e) => e.text(alloc),
            Line::EdgeLife(e) => e.life(alloc),
            Line::High { person, from, to } => high(alloc, person, from, to),
            Line::Positive { person, from, to } => positive(alloc, person, from, to),
            Line::Ask(question) => format!(in alloc; "{}", question.line()),
        }
    }
}

impl DrawnEdge {
    /// Draws the edge of this number: its source, target, kind, first moment, and how many moments follow.
    #[tactic(auto, unfolding(crate::specs::Draws::after))]
    pub(crate) fn draw(state: &mut u64, number: u64) -> DrawnEdge
        ensures state { state.new ≡ after state.old 5 }
        ensures number { result.number ≡ number }
        ensures source { result.source ≡ draw state.old 0 200 }
        ensures target { result.target ≡ draw state.old 1 200 }
        ensures kind { result.meets ≡ nat_eq (draw state.old 2 2) 0 }
        ensures from { result.from ≡ draw state.old 3 9900 }
        ensures to { result.to ≡ draw state.old 3 9900 + draw state.old 4 100 }
    {
        let source = draw(state, 200);
        let target = draw(state, 200);
        let kind = draw(state, 2);
        let from = draw(state, 9_900);
        let more = draw(state, 100);
        DrawnEdge {
            number,
            source,
            target,
            meets: kind == 0,
            from,
            to: from + more,
        }
    }

    // The line that declares it.
    #[tactic(auto, unfolding(crate::specs::Script::edge_line, crate::specs::Script::edge_name, crate::specs::Script::node_name))]
    fn text(self, alloc: Global) -> Result<String, AllocError>
        ensures { IfOk result (λ text. string_bytes text ≡ edge_line self.number self.meets self.source self.target) }
    {
        format!(in alloc;
            "edge e{} {} n{} n{}",
            self.number,
            kind(self.meets),
            self.source,
            self.target
        )
    }

    // The line of its life.
    #[tactic(auto, unfolding(crate::specs::Script::live_line, crate::specs::Script::edge_name))]
    fn life(self, alloc: Global) -> Result<String, AllocError>
        ensures { IfOk result (λ text. string_bytes text ≡ live_line (edge_name self.number) self.from self.to) }
    {
        format!(in alloc; "live e{} {} {}", self.number, self.from, self.to)
    }
}

impl Question {
    // The line that asks it.
    #[tactic(auto, unfolding(crate::specs::Script::risk_line, crate::specs::Script::contact_line, crate::specs::Script::alone_line))]
    fn line(self) -> &'static str
        ensures { result.now ≡ question_line self }
    {
        match self {
            Question::AtRisk =>
                "ask MATCH (x:Person {risk = 'high'})-/FWD/:meets/FWD/NEXT[0,12]/-(y:Person)",
            Question::InContact =>
                "ask MATCH (x:Person)-/FWD/:visits/FWD/:Room/BWD/:visits/BWD/-(y:Person {test = 'pos'})",
            Question::Alone => "ask MATCH (x:Person)-/{NOT ?(FWD/:meets)}/-()",
        }
    }
}

// The line that sets a person's risk to high.
#[tactic(auto, unfolding(crate::specs::Script::high_line, crate::specs::Script::node_name))]
fn high(alloc: Global, person: u64, from: u64, to: u64) -> Result<String, AllocError>
    ensures { IfOk result (λ text. string_bytes text ≡ high_line person from to) }
{
    format!(in alloc; "set n{person} risk 'high' {from} {to}")
}

// The line that sets a person's test to positive.
#[tactic(auto, unfolding(crate::specs::Script::positive_line, crate::specs::Script::node_name))]
fn positive(alloc: Global, person: u64, from: u64, to: u64) -> Result<String, AllocError>
    ensures { IfOk result (λ text. string_bytes text ≡ positive_line person from to) }
{
    format!(in alloc; "set n{person} test 'pos' {from} {to}")
}

// The label of a node.
fn label(node: u64) -> &'static str
    ensures { result.now ≡ (if nat_lt node 150 then codes "Person" else codes "Room") }
{
    if node < PERSONS { "Person" } else { "Room" }
}

// The label of an edge.
fn kind(meets: bool) -> &'static str
    ensures { result.now ≡ (if meets then codes "meets" else codes "visits") }
{
    if meets { "meets" } else { "visits" }
}
