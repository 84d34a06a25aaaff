//! Scopes and members of short paths, as contracts of functions that do nothing. The tables are written by hand.
ghost use Rattle.std.specs.Prelude.{◌≡◌, Some, None};
ghost use Rattle.path_ast.specs.Terms.{Forward, Next, Repetition};
ghost use Rattle.label_scope.specs.declared.scope.Scope.TheVariants.{All};
ghost use Rattle.label_scope.specs.Members.{worked};
ghost use Rattle.label_scope.specs.Examples.{persons, rooms, at_most, exactly};
ghost use Rattle.label_scope.specs.ScopedPaths.{AreScoped, AreNarrowed, scoped_tests, scoped_sequences, scoped_choices, scoped_repetitions, narrowed_paths, doors};
ghost use Rattle.label_scope.specs.PartMembers.{through_a_meeting, through_a_meeting_members, step_and_wait, step_and_wait_members, on_from_either};
ghost use Rattle.label_scope.specs.PartMembers.{on_from_either_members, person_to_person, room_to_door_members, person_waits, two_waits_members};
ghost use Rattle.label_scope.specs.PartMembers.{five_to_seven_members, without_end_members};

/// Forty-five tests and paths, each with its source scope, its target scope, and whether it keeps its object.
pub fn scopes_of_short_paths()
    ensures tests { AreScoped scoped_tests }
    ensures sequences { AreScoped scoped_sequences }
    ensures choices { AreScoped scoped_choices }
    ensures repetitions { AreScoped scoped_repetitions }
{}

/// What eleven paths leave of two scopes.
pub fn scopes_of_narrowed_paths()
    ensures { AreNarrowed narrowed_paths }
{}

/// What lies between the two parts of a sequence: `F/(:meets/F)`, `F/N` to a person, and `(F/:meets + F/:Room)/F`.
pub fn members_of_sequences()
    ensures second { worked through_a_meeting All All ≡ through_a_meeting_members }
    ensures kept { worked step_and_wait All persons ≡ step_and_wait_members }
    ensures either { worked on_from_either All All ≡ on_from_either_members }
{}

/// What a repetition may pass, and its powers and unions: `(:Person/F/:Person)[0,2]` from a room to a door, `(:Person/N)[2,2]`,
/// `F[5,7]` and `N*`.
pub fn members_of_repetitions()
    ensures passed { worked (at_most 2 person_to_person) rooms doors ≡ room_to_door_members }
    ensures kept { worked (exactly 2 person_waits) All All ≡ two_waits_members }
    ensures powers { worked (Repetition Forward 5 (Some 7)) All All ≡ five_to_seven_members }
    ensures unions { worked (Repetition Next 0 None) All All ≡ without_end_members }
{}
