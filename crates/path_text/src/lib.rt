//! The text of paths and scopes, with every bracket written.
//!
//! Stands on `path_ast` and `label_scope`, whose paths and scopes it writes. It promises the exact bytes, by definitions on the plain
//! terms. The text of a path that was read from a query is one that the query reader takes.
#![tactic(auto)]

mod examples;
mod paths;
mod pushing;
mod scopes;

pub use examples::texts_of_short_paths;
pub use paths::path_text;
pub use scopes::scope_text;
