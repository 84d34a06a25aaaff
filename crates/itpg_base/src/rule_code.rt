//! Why a line is refused.
ghost use Rattle.std.specs.Prelude.{◌≡◌, ◌≤◌, length};
ghost use Rattle.itpg_base.specs.Rules.{rule_word};

/// The rule that a line breaks. Which of several comes first is the line's own affair, as `docs/REFERENCE.md` lists it.
#[derive(Clone, Copy, Debug, PartialEq, Eq)]
pub enum RuleCode {
    /// No graph was begun.
    NoGraph,
    /// A graph was begun already.
    Again,
    /// The name is a standing object's, or a standing watch's.
    Taken,
    /// No standing object, or no standing watch, has the name.
    Unknown,
    /// An end of the new edge is no node.
    Kind,
    /// The first moment is after the second.
    Backwards,
    /// A moment of the span is outside the horizon.
    Horizon,
    /// An end node doesn't exist at some moment of the span.
    Ends,
    /// The object doesn't exist at some moment of the span.
    Absent,
    /// An edge at the node exists at some moment of the span.
    Held,
    /// The node is an end of a standing edge.
    Incident,
    /// A capacity would be passed.
    Full,
    /// `ON` names another graph.
    GraphName,
    /// Some moment of the old horizon is outside the new one.
    Narrow,
}

impl RuleCode {
    /// The word that a reply names the rule by.
    pub fn word(self) -> &'static str
        ensures word { result.now ≡ rule_word self }
        ensures short { length result.now ≤ 9 }
    {
        match self {
            RuleCode::NoGraph => "nograph",
            RuleCode::Again => "again",
            RuleCode::Taken => "taken",
            RuleCode::Unknown => "unknown",
            RuleCode::Kind => "kind",
            RuleCode::Backwards => "backwards",
            RuleCode::Horizon => "horizon",
            RuleCode::Ends => "ends",
            RuleCode::Absent => "absent",
            RuleCode::Held => "held",
            RuleCode::Incident => "incident",
            RuleCode::Full => "full",
            RuleCode::GraphName => "graphname",
            RuleCode::Narrow => "narrow",
        }
    }
}
