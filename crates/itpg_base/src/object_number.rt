//! Numbers of objects.

/// An object's number: its place, from 0, in the list of all objects ever declared. It is never used again.
#[derive(Clone, Copy, Debug, PartialEq, Eq, PartialOrd, Ord, Hash)]
pub struct ObjNo(pub u32);
