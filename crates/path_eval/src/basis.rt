//! What paths are worked out on.
ghost use Rattle.condition_eval.specs.Tested.{HasHorizon};

use interval_set::Span;
use itpg_graph::Part;
use std::alloc::Global;

/// A begun graph, or a part of one, with its horizon, and the limit of rows.
#[derive(Drop)]
pub(crate) struct Ground<'a> {
    pub(crate) alloc: Global,
    pub(crate) graph: &'a Part<'a>,
    pub(crate) horizon: Span,
    pub(crate) max_rows: u32,
    ghost begun: { HasHorizon graph.now horizon },
}
