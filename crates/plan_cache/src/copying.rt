//! A second table, equal to the first.
ghost use Rattle.std.specs.Prelude.{◌≡◌, IfOk};

use crate::nodes::Nodes;
use crate::operations::PlanNo;
use crate::plans::Plans;
use crate::refilling::former_key;
use std::alloc::AllocError;

impl Plans {
    /// An equal table of its own: the same nodes, and at each the same rows are kept.
    ///
    /// # Errors
    ///
    /// If memory runs out.
    pub fn copy(&self) -> Result<Plans, AllocError>
        ensures { IfOk result (λ copy. copy ≡ self.now) }
    {
        Ok(Plans {
            nodes: self.nodes.copy()?,
            shelf: self.shelf.copy()?,
        })
    }
}

impl Nodes {
    // The same nodes, each with its number.
    fn copy(&self) -> Result<Nodes, AllocError>
        ensures { IfOk result (λ copy. copy ≡ self.now) }
    {
        let mut copy = Nodes::new(self.alloc());
        let mut numbers = Vec::new(self.alloc());
        for number in 0..self.len() {
            let key = former_key(self, &numbers, PlanNo(number))?;
            let no = copy.place(key)?;
            numbers.push(no)?;
        }
        Ok(copy)
    }
}
