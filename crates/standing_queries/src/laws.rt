//! The laws of changes. Each is the contract of a function that does nothing.
ghost use Rattle.standing_queries.specs.Changes.{OneRest, SomeRest};

/// Of two answers of one kind there is exactly one rest.
pub fn law_of_changes()
    ensures one { OneRest }
    ensures some { SomeRest }
{}
