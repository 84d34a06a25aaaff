//! Where rows of one time lie.
ghost use Rattle.std.specs.Prelude.{◌≡◌, IfOk};
ghost use Rattle.relation_rows.specs.Held.{held};

use crate::times::OneRow;
use std::alloc::{AllocError, Global};
use std::rc::Rc;

/// Rows of one time, in a list of their own or in one that all copies share.
#[derive(Drop)]
pub(crate) enum Held {
    /// A list of their own.
    Own(Vec<OneRow>),
    /// A list that copies share, so that they take no memory.
    Shared(Rc<Vec<OneRow>>),
}

impl Held {
    /// The rows in a list that copies share.
    pub(crate) fn shared(alloc: Global, rows: Vec<OneRow>) -> Result<Held, AllocError>
        ensures { IfOk result (λ h. held h ≡ rows.items) }
    {
        Ok(Held::Shared(Rc::new(alloc, rows)?))
    }

    /// The rows.
    pub(crate) fn rows(&self) -> &[OneRow]
        ensures { result.now ≡ held self.now }
    {
        match self {
            Held::Own(rows) => rows.as_slice(),
            Held::Shared(rows) => rows.as_slice(),
        }
    }

    /// The allocator of the list.
    pub(crate) fn allocator(&self) -> Global {
        match self {
            Held::Own(rows) => *rows.allocator(),
            Held::Shared(rows) => *rows.allocator(),
        }
    }

    /// The same rows, in the same list if it's shared.
    pub(crate) fn copy(&self) -> Result<Held, AllocError>
        ensures { IfOk result (λ copy. held copy ≡ held self.now) }
    {
        match self {
            Held::Own(rows) => Ok(Held::Own(Vec::from_slice(*rows.allocator(), rows)?)),
            Held::Shared(rows) => Ok(Held::Shared(rows.clone()?)),
        }
    }
}
