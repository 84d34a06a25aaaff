//! Where a path can start and end by its labels alone, and which relations are worked out on the way to its own.
//!
//! Stands on `path_ast`, whose terms and meaning the definitions are stated over. It promises the scopes of each path
//! exactly, and by its laws that every pair of points that a path leads between lies within them and that narrowing the
//! scopes of a path changes nothing. The worked members are a definition: the crate that evaluates paths answers by it.
#![tactic(auto)]

mod asked;
mod between;
mod examples;
mod feet;
mod footprint;
mod footprint_laws;
mod labels;
mod laws;
mod members;
mod paths;
mod prop_scopes;
mod scope;

pub use asked::footprints_of_short_paths;
pub use between::{middle, passed};
pub use examples::{
    members_of_repetitions, members_of_sequences, scopes_of_narrowed_paths, scopes_of_short_paths,
};
pub use feet::foot;
pub use footprint::{Footprint, meets};
pub use footprint_laws::{law_of_footprints, law_of_narrowed_scopes, law_of_shapes};
pub use labels::Labels;
pub use laws::{
    law_of_cut, law_of_decided_scopes, law_of_labels, law_of_met_and_joined_scopes,
    law_of_narrowing, law_of_passing, law_of_scopes,
};
pub use members::{
    members_of_a_later_wait, members_of_a_step_to_an_edge, members_of_a_wait, members_of_contacts,
    members_of_double_steps, members_of_labelled_double_steps, members_of_meetings_from_a_room,
    members_of_persons_without_meeting,
};
pub use paths::{keeps, narrow, src, tgt};
pub use prop_scopes::{PropScope, PropScopes};
pub use scope::Scope;
