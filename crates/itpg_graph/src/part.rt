//! A graph, or some objects of it, as a plain graph.
ghost use Rattle.std.specs.Prelude.{◌≡◌, ◌≤◌, ◌<◌, ◌↔◌, ℤ, length, option_map, IfOk, IfSome, IsNone, IsTrue};
ghost use Rattle.itpg_base.specs.Words.{Word};
ghost use Rattle.itpg_base.specs.Graphs.{Good, Stands, ObjectIs, Val};
ghost use Rattle.interval_set.specs.Runs.{AreRunsOf};
ghost use Rattle.itpg_graph.specs.Edges.{HasNumber, AreNumbers, AreRising, LeadsFrom, LeadsTo};
ghost use Rattle.itpg_graph.specs.Kinds.{kind_of, ends_of, IsNode};
ghost use Rattle.itpg_graph.specs.WithLabel.{StandsWith};
ghost use Rattle.itpg_graph.specs.GraphParts.{only_of, ArePart, IsNextStanding, NoneStands, IsNextNumber, NoNumber, StandingAreNumbers};

use crate::graph::{Graph, Kind};
use interval_set::{IntervalSet, Span, ValuedSet};
use itpg_base::{LabelSet, MAX_SPANS, Name, ObjNo};
use std::alloc::{AllocError, Global};
use std::marker::Model;

/// A graph, or some objects of it as the graph in which no other object stands. Nothing is copied.
///
/// ```text
///     the graph             a --v--> r     a --m--> b
///     the part of a, r, v   a --v--> r
/// ```
///
/// A contract sees the plain graph of the part, so that what is stated over a graph is stated over a part.
#[derive(Drop)]
pub struct Part<'a> {
    graph: &'a Graph,
    // The objects of the part; `None` for the whole graph.
    listed: Option<&'a [ObjNo]>,
}

impl<'a> Model for Part<'a> {
    ghost use Rattle.itpg_base.specs.Graphs.{Graph as PlainGraph};
    ghost use Rattle.std.specs.Prelude.{option_map, IfSome};
    ghost use Rattle.itpg_graph.specs.GraphParts.{part_of, ArePart};

    ghost Value = { PlainGraph };

    ghost view = { λ p. part_of p.graph.now (option_map (λ o. o.now) p.listed) };

    ghost invariant = { λ p. IfSome (option_map (λ o. o.now) p.listed) (ArePart p.graph.now) };
}

impl<'a> Part<'a> {
    /// The part of these objects: they rise and stand, and hold the ends of their edges.
    pub fn new(graph: &'a Graph, objects: &'a [ObjNo]) -> Part<'a>
        requires { ArePart graph.now objects.now }
        ensures { result ≡ only_of graph.now objects.now }
    {
        Part {
            graph,
            listed: Some(objects),
        }
    }

    /// The whole graph.
    pub fn whole(graph: &'a Graph) -> Part<'a>
        ensures { result ≡ graph.now }
    {
        Part {
            graph,
            listed: None,
        }
    }

    /// The graph's span of moments; `None` exactly if it isn't begun.
    pub fn horizon(&self) -> Option<Span>
        ensures value { result ≡ option_map (λ b. b.horizon) self.now.begun }
        ensures good { Good self.now }
    {
        self.graph.horizon()
    }

    /// The first object from the number on that stands; `None` exactly if none does. Of a part no object beside it is looked at.
    pub fn next_standing(&self, from: usize) -> Option<ObjNo>
        ensures next { IfSome result (λ o. IsNextStanding self.now from o.0) }
        ensures none { IsNone result → NoneStands self.now from }
        ensures good { Good self.now }
    {
        match self.listed {
            Some(objects) => next_of(objects, from),
            None => self.graph.next_standing(from),
        }
    }

    /// Whether the object stands.
    pub fn standing(&self, o: ObjNo) -> bool
        ensures { IsTrue result ↔ Stands self.now o.0 }
    {
        match self.listed {
            Some(objects) => has(objects, o),
            None => self.graph.standing(o),
        }
    }

    /// Whether the object is a node or an edge.
    pub fn kind(&self, o: ObjNo) -> Kind
        requires { Stands self.now o.0 }
        ensures { ObjectIs self.now o.0 (λ x. result ≡ kind_of x) }
    {
        self.graph.kind(o)
    }

    /// The source and the target of an edge; `None` exactly for a node.
    pub fn ends(&self, o: ObjNo) -> Option<(ObjNo, ObjNo)>
        requires { Stands self.now o.0 }
        ensures ends { ObjectIs self.now o.0 (λ x. ends_of result ≡ x.ends) }
        ensures nodes { IfSome result (λ n. IsNode self.now n.0.0 × IsNode self.now n.1.0) }
    {
        self.graph.ends(o)
    }

    /// The labels of the object.
    pub fn labels(&self, o: ObjNo) -> &LabelSet
        requires { Stands self.now o.0 }
        ensures { ObjectIs self.now o.0 (λ x. result.now ≡ x.labels) }
    {
        self.graph.label_set(o)
    }

    /// The standing objects with the label, by rising number. Of a part no object beside it is looked at.
    pub fn objects_of(&self, alloc: Global, label: &Name) -> Result<Vec<ObjNo>, AllocError>
        ensures numbers { IfOk result (λ objects. AreNumbers (StandsWith self.now label.now) objects.items) }
        ensures good { Good self.now }
    {
        match self.listed {
            Some(objects) => those_with(alloc, self.graph, objects, label),
            None => Vec::from_slice(alloc, self.graph.labelled(label)),
        }
    }

    /// The moments at which the object exists, in at most `MAX_SPANS` spans.
    pub fn live(&self, o: ObjNo) -> &IntervalSet
        requires { Stands self.now o.0 }
        ensures family { ObjectIs self.now o.0 (λ x. result.now ≡ x.live) }
        ensures few { length result.now ≤ MAX_SPANS }
    {
        self.graph.live(o)
    }

    /// The values of a property over time, in at most `MAX_SPANS` runs; `None` exactly if the object has no value of it at any
    /// moment.
    pub fn value(&self, o: ObjNo, prop: &Name) -> Option<&ValuedSet>
        requires { Stands self.now o.0 }
        ensures some { IfSome result (λ values. AreRunsOf (Val self.now o.0 prop.now) values.now) }
        ensures none { IsNone result ↔ ((t : ℤ) (value : Word) → ¬ Val self.now o.0 prop.now t value) }
        ensures few { IfSome result (λ values. length values.now ≤ MAX_SPANS) }
    {
        self.graph.value(o, prop)
    }

    /// Edges by rising number, all of the part whose source is the object among them. Others don't stand in the part.
    pub fn out_edges(&self, o: ObjNo) -> &[ObjNo]
        requires { Stands self.now o.0 }
        ensures { StandingAreNumbers self.now (LeadsFrom self.now o.0) result.now }
    {
        self.graph.out_edges(o)
    }

    /// Edges by rising number, all of the part whose target is the object among them. Others don't stand in the part.
    pub fn in_edges(&self, o: ObjNo) -> &[ObjNo]
        requires { Stands self.now o.0 }
        ensures { StandingAreNumbers self.now (LeadsTo self.now o.0) result.now }
    {
        self.graph.in_edges(o)
    }
}

// Those of a part's objects that have the label.
fn those_with(
    alloc: Global,
    graph: &Graph,
    objects: &[ObjNo],
    label: &Name,
) -> Result<Vec<ObjNo>, AllocError>
    requires { ArePart graph.now objects.now }
    ensures { IfOk result (λ kept. AreNumbers (StandsWith (only_of graph.now objects.now) label.now) kept.items) }
{
    let mut kept = Vec::new(alloc);
    for object in objects {
        if graph.has_label(*object, label) {
            kept.push(*object)?;
        }
    }
    Ok(kept)
}

// The first number of the list from this one on. The numbers rise.
fn next_of(objects: &[ObjNo], from: usize) -> Option<ObjNo>
    requires { AreRising objects.now }
    ensures next { IfSome result (λ o. IsNextNumber objects.now from o.0) }
    ensures none { IsNone result → NoNumber objects.now from }
{
    let place = objects.partition_point(|o| (o.0 as usize) < from);
    objects.get(place).copied()
}

// Whether the list has the number. The numbers rise.
fn has(objects: &[ObjNo], o: ObjNo) -> bool
    requires { AreRising objects.now }
    ensures { IsTrue result ↔ HasNumber objects.now o.0 }
{
    objects.binary_search_by_key(&o.0, |other| other.0).is_ok()
}
