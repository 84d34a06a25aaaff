//! Texts of short paths and of scopes, as the contract of a function that does nothing. They are written by hand.
ghost use Rattle.path_text.specs.Examples.{AreTexts, AreScopeTexts};

/// Five paths, in which each form of path and of test stands, and four scopes, each with its text.
pub fn texts_of_short_paths()
    ensures paths { AreTexts }
    ensures scopes { AreScopeTexts }
{}
