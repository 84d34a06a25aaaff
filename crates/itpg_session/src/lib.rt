//! The session: it takes the lines of a script one at a time and writes their replies.
//!
//! It stands on the readers of lines in two forms and of query texts, on the edits and on the graph, on `path_eval`, which works out
//! what is asked, and on `reply_text`, which writes it. Its definitions (`specs/`) are the plain machine: the turn that a line may
//! have, that is, its reply as a value and the machine after it; and the text of each reply. A step decides the reply, writes its
//! text in one place, and settles what follows. It promises that a step is a turn of that machine (`Session::step`),
//! that a question is answered by the reply of its line (`Session::ask`), and that on a good graph each line has exactly one
//! turn (`law_of_replies`).
#![tactic(auto)]

mod asking;
mod at_hand;
mod deciding;
mod editing;
mod fault;
mod finding;
mod following;
mod json;
mod laws;
mod pinning;
mod planning;
mod reply;
mod rules;
mod session;
mod taking;
mod texts;
mod ticking;
mod wanting;

pub use asking::Asked;
pub use fault::StepFault;
pub use laws::{law_of_asked, law_of_fronts, law_of_replies, law_of_untouched};
pub use reply::Seen;
pub use session::Session;
