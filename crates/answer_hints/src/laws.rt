//! Laws of hints that need answers. Each is the contract of a function that does nothing.
ghost use Rattle.answer_hints.specs.Examples.{AreRelaxed, HaveTopRepetitions};

/// Five paths with what they are without the tests of existence behind their steps. They are written by hand.
pub fn relaxed_short_paths()
    ensures { AreRelaxed }
{}

/// Three paths with their top repetitions, and what is told of one. They are written by hand.
pub fn top_repetitions_of_short_paths()
    ensures { HaveTopRepetitions }
{}
