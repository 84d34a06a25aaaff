//! What a script's questions cost, and why one is wide or has no rows.
//!
//! It stands on `itpg_session`, whose step answers each line, and on `question_costs`, which says what the members of a question cost.
//! It promises that every call returns, which words ask for what, and that a fault of the source or the sink is told only if its device
//! failed (`explain`). What it writes of a reply is the head that the session's step writes.
#![tactic(auto)]

mod advice;
mod answers;
mod explainer;
mod head;
mod lines;
mod question;
mod run;
mod said;
mod words;

pub use run::explain;
