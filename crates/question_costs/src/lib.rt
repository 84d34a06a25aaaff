//! What is said of a query before it is answered: its path, what each of its members costs, and hints.
//!
//! It stands on `path_eval`, which works each member out, on `plan_cache`, whose nodes are the members, on `path_text` for the texts of
//! paths and scopes, and on `question_hints`. It promises that what it tells of a member is so, that some member is told to be over the
//! limit exactly if the query is too wide (`count_members`), that it calls kept exactly the members that are, and the exact bytes for
//! what was counted (`Site::explain`).
#![tactic(auto)]

mod children;
mod clock;
mod count;
mod counting;
mod kept;
mod laws;
mod needed;
mod site;
mod text;
mod told;
mod tree;

pub use clock::Clock;
pub use count::{Count, MemberCount};
pub use counting::{Counted, count_members};
pub use laws::law_of_needed_rows;
pub use needed::rows_needed;
pub use site::{Explained, Site, USUAL_ROWS};
pub use text::{add, add_line};
