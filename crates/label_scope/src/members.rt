//! The worked members of some questions, as contracts of functions that do nothing. The lists are written by hand.
ghost use Rattle.std.specs.Prelude.{◌≡◌, List, [], ◌∷◌, ◌++◌};
ghost use Rattle.label_scope.specs.declared.scope.Scope.TheVariants.{All};
ghost use Rattle.label_scope.specs.Members.{Member, worked};
ghost use Rattle.label_scope.specs.Examples.{anything, person, persons, from_to_anything, at_most, two_steps, contacts, within, wait_members};
ghost use Rattle.label_scope.specs.Examples.{double_step_members, step_to_an_edge, step_members, meetings_from_a_room, meeting_members};
ghost use Rattle.label_scope.specs.Examples.{two_to_five_steps, later_wait_members, persons_without_meeting, without_meeting_members};
ghost use Rattle.path_ast.specs.Terms.{Next};

/// `(x)-/N[0,12]/-(y)`: the repetition goes through the powers up to 1, 2, 3, 6 and 12.
pub fn members_of_a_wait()
    ensures { worked (from_to_anything anything (at_most 12 Next)) All All ≡ within All wait_members }
{}

/// `(x)-/N[2,5]/-(y)`: first the powers on the way to 2, then the powers up to those on the way to 3, which are left.
pub fn members_of_a_later_wait()
    ensures { worked (from_to_anything anything two_to_five_steps) All All ≡ within All later_wait_members }
{}

/// `(x)-/(N/N)[0,3]/-(y)`: every member lies between `All` and `All`.
pub fn members_of_double_steps()
    ensures { worked (from_to_anything anything (at_most 3 two_steps)) All All ≡ within All (double_step_members anything) }
{}

/// `(x:Person)-/(N/N)[0,3]/-(y)`: every member lies between the label Person and itself, since each keeps its object.
pub fn members_of_labelled_double_steps()
    ensures { worked (from_to_anything person (at_most 3 two_steps)) All All ≡ within persons (double_step_members person) }
{}

/// `(x)-/(FWD/:meets/FWD/NEXT*)[1,_]/-(y)`: first the whole path, last the second pattern, both between `All` and `All`.
pub fn members_of_contacts()
    ensures { (between : List Member) × (worked contacts All All ≡ within All (contacts ∷ []) ++ (between ++ within All (anything ∷ []))) }
{}

/// `(x:Person)-/N/F/-(y)`: N keeps its object, so the axis F is worked from the label Person.
pub fn members_of_a_step_to_an_edge()
    ensures { worked step_to_an_edge All All ≡ step_members }
{}

/// `(x:Room)-/(:Person/F/:meets/F/:Person)[0,2]/-(y:Person)`: the repetition may pass no object but those with the label
/// of its start, of its end, or between two meetings.
pub fn members_of_meetings_from_a_room()
    ensures { worked meetings_from_a_room All All ≡ meeting_members }
{}

/// `(x:Person)-/{NOT ?(F/:meets + N)}/-(y)`: the condition is worked from the label Person to `All`, and so are both of its
/// paths, each between what its own labels leave of that.
pub fn members_of_persons_without_meeting()
    ensures { worked persons_without_meeting All All ≡ without_meeting_members }
{}
