//! The neighbourhood of an object: what a path from it can depend on. And the queries that are followed, with the rows that are
//! kept of single objects.
//!
//! It stands on `path_ast` for paths, on `itpg_graph` for the store, on `itpg_edit` for edits and on `relation_rows` for answers. It
//! promises that a path from an object has the same rows on the neighbourhood of its steps as on the whole graph, that an edit which
//! touches nothing there leaves them, that both are worked out exactly, and that exactly those kept rows go which depend on what is
//! touched.
#![tactic(auto)]

mod counts;
mod entries;
mod examples;
mod followed;
mod follows;
mod laws;
mod reach;
mod touched;

pub use counts::steps;
pub use examples::{reach_of_a_node, steps_of_short_paths, touched_by_edits};
pub use follows::{FollowFault, Follows, MAX_FOLLOWS, NoFollow};
pub use laws::{
    law_of_agreement, law_of_existing_neighbourhoods, law_of_neighbourhoods, law_of_parts,
    law_of_reach, law_of_unmet_lists, law_of_untouched_neighbourhoods,
};
pub use reach::near_objects;
pub use touched::{Touched, touched_by};
