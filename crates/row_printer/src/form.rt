//! The two forms of replies.

/// How a reply is written.
#[derive(Clone, Copy)]
pub enum Form {
    /// Lines of words.
    Plain,
    /// Lines of JSON: each is one object.
    Json,
}
