//! Which plan nodes are needed for one of them.
ghost use Rattle.std.specs.Prelude.{◌≡◌, ◌<◌, ◌↔◌, ◌∷◌, [], ◌++◌, length, replicate, slice_get, slice_set, true, false, Some, None, IfOk, IsTrue};
ghost use Rattle.plan_cache.specs.Operations.{op_term, op_children, part_term, part_children};
ghost use Rattle.plan_cache.specs.Nodes.{AreShared};
ghost use Rattle.path_eval.specs.Reached.{AreReached, marked};

use plan_cache::{PlanNo, PlanOp, PlanTest, Plans};
use std::alloc::{AllocError, Global};

/// By number, whether a node's relation is needed for this one: it is the node itself, or a child of a needed node at which no
/// relation is kept. None has a greater number.
///
/// ```text
///     number   operation   children   kept
///          0   F                             marks for 6:   no no yes no yes yes yes
///          1   B
///          2   N
///          3   Seq         0, 1
///          4   Alt         0, 3       yes
///          5   Seq         4, 2
///          6   Alt         5, 4
/// ```
pub(crate) fn reached(alloc: Global, plans: &Plans, no: PlanNo) -> Result<Vec<bool>, AllocError>
    requires { no.0 < length plans.now.nodes }
    ensures reached { IfOk result (λ marks. AreReached plans.now.nodes plans.now.kept no.0 marks.items) }
    ensures shared { AreShared plans.now.nodes }
{
    let _lower = plans.len();
    let mut marks = only(alloc, no)?;
    let mut rest = no.0 + 1;
    while rest > 0 {
        rest -= 1;
        if marks[rest as usize] && is_free(plans, PlanNo(rest)) {
            mark_op(plans.op(PlanNo(rest)), &mut marks);
        }
    }
    Ok(marks)
}

// Whether no relation is kept at the node.
fn is_free(plans: &Plans, no: PlanNo) -> bool
    requires { no.0 < length plans.now.nodes }
    ensures { IsTrue result ↔ (slice_get plans.now.kept no.0 ≡ Some None) }
{
    plans.kept(no).is_none()
}

// The number marked alone, behind those below it.
fn only(alloc: Global, no: PlanNo) -> Result<Vec<bool>, AllocError>
    requires { no.0 < 65536 }
    ensures { IfOk result (λ marks. marks.items ≡ replicate no.0 false ++ true ∷ []) }
{
    let mut marks = Vec::new(alloc);
    for _ in 0..no.0 {
        marks.push(false)?;
    }
    marks.push(true)?;
    Ok(marks)
}

// Marks a node that has a place.
fn mark(no: PlanNo, marks: &mut Vec<bool>)
    ensures { marks.new.items ≡ slice_set marks.old.items no.0 true }
{
    let place = no.0 as usize;
    if place < marks.len() {
        marks[place] = true;
    }
}

// Marks the nodes that an operation names.
fn mark_op(op: &PlanOp, marks: &mut Vec<bool>)
    ensures { marks.new.items ≡ marked (op_children (op_term op.now)) marks.old.items }
{
    match op {
        PlanOp::Test(test) => mark_test(test, marks),
        PlanOp::F | PlanOp::B | PlanOp::N | PlanOp::P => {}
        PlanOp::Seq(one, other) | PlanOp::Alt(one, other) => {
            mark(*one, marks);
            mark(*other, marks);
        }
        PlanOp::Repeat { body, .. } => mark(*body, marks),
    }
}

// Marks the nodes that a test names.
fn mark_test(test: &PlanTest, marks: &mut Vec<bool>)
    ensures { marks.new.items ≡ marked (part_children (part_term test.now)) marks.old.items }
{
    match test {
        PlanTest::Leaf(_) => {}
        PlanTest::Cond(no) => mark(*no, marks),
        PlanTest::And(one, other) | PlanTest::Or(one, other) => {
            mark_test(one, marks);
            mark_test(other, marks);
        }
        PlanTest::Not(negated) => mark_test(negated, marks),
    }
}
