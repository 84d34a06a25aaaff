//! The operation of a node over the numbers that its children had in a former table.
ghost use Rattle.std.specs.Prelude.{◌≡◌, IfOk};
ghost use Rattle.plan_cache.specs.Operations.{op_term, part_term};
ghost use Rattle.plan_cache.specs.Former.{number_at, op_renumbered, part_renumbered};

use crate::nodes::MAX_NODES;
use crate::operations::{PlanNo, PlanOp, PlanTest};
use std::alloc::{AllocError, Global};

/// The operation, with each number in it replaced by the one at its place in the list.
///
/// # Errors
///
/// If memory runs out.
pub(crate) fn renumbered(
    alloc: Global,
    op: &PlanOp,
    former: &[PlanNo],
) -> Result<PlanOp, AllocError>
    ensures { IfOk result (λ moved. op_term moved ≡ op_renumbered (number_at former.now) (op_term op.now)) }
{
    match op {
        PlanOp::Test(test) => Ok(PlanOp::Test(test_renumbered(alloc, test, former)?)),
        PlanOp::F => Ok(PlanOp::F),
        PlanOp::B => Ok(PlanOp::B),
        PlanOp::N => Ok(PlanOp::N),
        PlanOp::P => Ok(PlanOp::P),
        PlanOp::Seq(first, second) => {
            Ok(PlanOp::Seq(number_of(former, *first), number_of(former, *second)))
        }
        PlanOp::Alt(one, other) => {
            Ok(PlanOp::Alt(number_of(former, *one), number_of(former, *other)))
        }
        PlanOp::Repeat { body, least, most } => Ok(PlanOp::Repeat {
            body: number_of(former, *body),
            least: *least,
            most: *most,
        }),
    }
}

// The number at this place in the list, and behind its end one that no node has.
fn number_of(former: &[PlanNo], no: PlanNo) -> PlanNo
    ensures { result.0 ≡ number_at former.now no.0 }
{
    if no.0 as usize >= former.len() {
        return PlanNo(MAX_NODES);
    }
    former[no.0 as usize]
}

#[cycle(renumbering)]
fn test_renumbered(
    alloc: Global,
    test: &PlanTest,
    former: &[PlanNo],
) -> Result<PlanTest, AllocError>
    ensures { IfOk result (λ moved. part_term moved ≡ part_renumbered (number_at former.now) (part_term test.now)) }
{
    match test {
        PlanTest::Leaf(leaf) => Ok(PlanTest::Leaf(*leaf)),
        PlanTest::Cond(no) => Ok(PlanTest::Cond(number_of(former, *no))),
        PlanTest::And(one, other) => {
            let (one, other) = both_renumbered(alloc, one, other, former)?;
            Ok(PlanTest::And(one, other))
        }
        PlanTest::Or(one, other) => {
            let (one, other) = both_renumbered(alloc, one, other, former)?;
            Ok(PlanTest::Or(one, other))
        }
        PlanTest::Not(negated) => {
            let negated = test_renumbered(alloc, negated, former)?;
            Ok(PlanTest::Not(Box::new(alloc, negated)?))
        }
    }
}

#[cycle(renumbering)]
fn both_renumbered(
    alloc: Global,
    one: &PlanTest,
    other: &PlanTest,
    former: &[PlanNo],
) -> Result<(Box<PlanTest>, Box<PlanTest>), AllocError>
    ensures one { IfOk result (λ both. part_term both.0.value ≡ part_renumbered (number_at former.now) (part_term one.now)) }
    ensures other { IfOk result (λ both. part_term both.1.value ≡ part_renumbered (number_at former.now) (part_term other.now)) }
{
    let one = test_renumbered(alloc, one, former)?;
    let other = test_renumbered(alloc, other, former)?;
    let one = Box::new(alloc, one)?;
    Ok((one, Box::new(alloc, other)?))
}
