//! The table of names.
ghost use Rattle.std.specs.Prelude.{◌≡◌, ◌≢◌, Some, None, ℕ, List, IfOk, OnOk, OnErr};
ghost use Rattle.itpg_base.specs.Words.{Word};
ghost use Rattle.itpg_graph.specs.Stores.{listed};

use indexmap::IndexMap;
use itpg_base::{Name, ShortName};
use std::alloc::{AllocError, Global};

/// Numbers by name. Short names stand in a table of their own, since many of them lie in one line of the processor's cache.
#[derive(Drop)]
pub(crate) struct Numbers {
    pub(crate) short: IndexMap<ShortName, u32>,
    pub(crate) long: IndexMap<Name, u32>,
}

impl Numbers {
    /// The table of no name. It takes no memory.
    pub(crate) fn new(alloc: Global) -> Numbers
        ensures { (name : Word) → listed result name ≡ None }
    {
        Numbers {
            short: IndexMap::new(alloc),
            long: IndexMap::new(alloc),
        }
    }

    /// An equal table of its own.
    pub(crate) fn copy(&self) -> Result<Numbers, AllocError>
        ensures { IfOk result (λ copy. (name : Word) → listed copy name ≡ listed self.now name) }
    {
        Ok(Numbers {
            short: self.short.clone()?,
            long: self.long.clone()?,
        })
    }

    /// The number of the name.
    pub(crate) fn get(&self, name: &Name) -> Option<u32>
        ensures { result ≡ listed self.now name.now }
    {
        match ShortName::of(name) {
            Some(short) => self.short.get(&short).copied(),
            None => self.long.get(name).copied(),
        }
    }

    /// Gives the name a number, in place of the one that it had.
    pub(crate) fn list(&mut self, name: Name, number: u32) -> Result<(), AllocError>
        ensures ok { OnOk result (listed self.new name ≡ Some number) }
        ensures others { OnOk result ((other : List ℕ) → other ≢ name → listed self.new other ≡ listed self.old other) }
        ensures err { OnErr result ((other : List ℕ) → listed self.new other ≡ listed self.old other) }
    {
        match ShortName::of(&name) {
            Some(short) => {
                self.short.insert(short, number)?;
            }
            None => {
                self.long.insert(name, number)?;
            }
        }
        Ok(())
    }
}
