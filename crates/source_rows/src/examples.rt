//! Small examples of the definitions, as contracts of functions that do nothing. The tables are written by hand.
ghost use Rattle.std.specs.Prelude.{Some};
ghost use Rattle.source_rows.specs.Reach.{Reach};
ghost use Rattle.source_rows.specs.Touched.{IsTouched};
ghost use Rattle.source_rows.specs.Examples.{AreCounted, short_paths, repetitions, conditions, drawn, live_edge, dropped_edge, new_edge, wider};

/// How many steps twenty-four paths can take: single steps and sequences, repetitions, and conditions.
pub fn steps_of_short_paths()
    ensures short { AreCounted short_paths }
    ensures repeated { AreCounted repetitions }
    ensures asked { AreCounted conditions }
{}

/// What is reached from a node in a graph of three nodes and an edge.
pub fn reach_of_a_node()
    ensures itself { Reach drawn 0 (Some 0) 0 }
    ensures edge { Reach drawn 0 (Some 1) 3 }
    ensures end { Reach drawn 0 (Some 1) 1 }
    ensures short { Reach drawn 0 (Some 0) 3 → ⊥ }
{}

/// Which objects of this graph an edge that lives, is dropped, or is declared touches, and a wider horizon.
pub fn touched_by_edits()
    ensures life { IsTouched drawn live_edge 3 }
    ensures end_of_life { IsTouched drawn live_edge 0 → ⊥ }
    ensures dropped { IsTouched drawn dropped_edge 3 }
    ensures end_of_dropped { IsTouched drawn dropped_edge 1 }
    ensures declared { IsTouched drawn new_edge 4 }
    ensures target { IsTouched drawn new_edge 2 }
    ensures apart { IsTouched drawn new_edge 1 → ⊥ }
    ensures whole { IsTouched drawn wider 2 }
{}
