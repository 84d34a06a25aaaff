//! The footprints of short paths and of some questions, as the contract of a function that does nothing.
ghost use Rattle.label_scope.specs.FootprintTables.{AreAsked, asked_by_axes, asked_by_tests, asked_by_parts, asked_by_questions};

/// Thirty-two paths between two scopes and five questions between `All` and `All`, each with its footprint. The tables are written by
/// hand.
pub fn footprints_of_short_paths()
    ensures axes { AreAsked asked_by_axes }
    ensures tests { AreAsked asked_by_tests }
    ensures parts { AreAsked asked_by_parts }
    ensures questions { AreAsked asked_by_questions }
{}
