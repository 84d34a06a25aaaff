//! The nodes that an operation names.
ghost use Rattle.std.specs.Prelude.{◌≡◌, ◌++◌, IfOk, OnOk};
ghost use Rattle.plan_cache.specs.Operations.{op_term, op_children, part_term, part_children};
ghost use Rattle.plan_cache.specs.Refilled.{numbers_of};

use plan_cache::{PlanNo, PlanOp, PlanTest};
use std::alloc::{AllocError, Global};

/// The nodes that an operation names, in order.
///
/// # Errors
///
/// If memory runs out.
pub(crate) fn children(alloc: Global, op: &PlanOp) -> Result<Vec<PlanNo>, AllocError>
    ensures { IfOk result (λ named. numbers_of named.items ≡ op_children (op_term op.now)) }
{
    match op {
        PlanOp::Test(test) => conditions(alloc, test),
        PlanOp::F | PlanOp::B | PlanOp::N | PlanOp::P => Ok(Vec::new(alloc)),
        PlanOp::Seq(one, other) | PlanOp::Alt(one, other) => [*one, *other].to_vec(alloc),
        PlanOp::Repeat { body, .. } => [*body].to_vec(alloc),
    }
}

// The nodes that a test names.
fn conditions(alloc: Global, test: &PlanTest) -> Result<Vec<PlanNo>, AllocError>
    ensures { IfOk result (λ named. numbers_of named.items ≡ part_children (part_term test.now)) }
{
    let mut named = Vec::new(alloc);
    add_conditions(test, &mut named)?;
    Ok(named)
}

// Adds the nodes that a test names.
fn add_conditions(test: &PlanTest, named: &mut Vec<PlanNo>) -> Result<(), AllocError>
    ensures { OnOk result (numbers_of named.new.items ≡ numbers_of named.old.items ++ part_children (part_term test.now)) }
{
    match test {
        PlanTest::Leaf(_) => Ok(()),
        PlanTest::Cond(no) => {
            named.push(*no)?;
            Ok(())
        }
        PlanTest::And(one, other) | PlanTest::Or(one, other) => {
            add_conditions(one, named)?;
            add_conditions(other, named)
        }
        PlanTest::Not(negated) => add_conditions(negated, named),
    }
}
