//! The store.
ghost use Rattle.std.specs.Prelude.{◌≡◌, ℤ, ◌<◌, ◌≤◌, ◌↔◌, [], length, ℕ, None, Some, option_map, IsTrue, IsNone, IfSome, IfOk};
ghost use Rattle.itpg_base.specs.Words.{Word};
ghost use Rattle.itpg_base.specs.Graphs.{Good, Named, Stands, Val, ObjectIs, name_at};
ghost use Rattle.interval_set.specs.Runs.{AreRunsOf};
ghost use Rattle.itpg_graph.specs.Edges.{LeadsFrom, LeadsTo, AreNumbers};
ghost use Rattle.itpg_graph.specs.Families.{HasCutFamily};
ghost use Rattle.itpg_graph.specs.GraphParts.{IsNextStanding, NoneStands};
ghost use Rattle.itpg_graph.specs.WithLabel.{StandsWith};

use crate::by_label::ByLabel;
use crate::links::Links;
use crate::numbers::Numbers;
use crate::shared_labels::LabelSets;
use crate::stored::{Opened, Stored};
use interval_set::{IntervalSet, Span, ValuedSet};
use itpg_base::{LabelSet, MAX_PROPERTIES, MAX_SPANS, Name, ObjNo};
use std::alloc::{AllocError, Global};
use std::marker::Model;

/// What an object is.
#[derive(Clone, Copy, Debug, PartialEq, Eq)]
pub enum Kind {
    Node,
    Edge,
}

/// A property graph over time, kept in memory.
///
/// A contract sees it as the plain graph of `itpg_base`: whether it was begun, and the list of all objects ever declared.
/// It is always good: an edge exists only where both its ends exist, a property has a value only where its object exists,
/// the ends of an edge are standing nodes, names of standing objects differ, and every family is coalesced.
#[derive(Drop)]
pub struct Graph {
    pub(crate) opened: Option<Opened>,
    pub(crate) objects: Vec<Stored>,
    pub(crate) numbers: Numbers,
    pub(crate) out: Links,
    pub(crate) into: Links,
    pub(crate) by_label: ByLabel,
    pub(crate) sets: LabelSets,
}

impl Model for Graph {
    ghost use Rattle.itpg_base.specs.Graphs.{Graph as PlainGraph};
    ghost use Rattle.itpg_graph.specs.Stores.{graph_of};
    ghost use Rattle.itpg_graph.specs.Links.{links_of};
    ghost use Rattle.itpg_graph.specs.LabelLists.{held, IsWholeStore};

    ghost Value = { PlainGraph };

    ghost view = { λ g. graph_of g.opened g.objects.items };

    ghost invariant = { λ g. IsWholeStore (graph_of g.opened g.objects.items) g.numbers (links_of g.out) (links_of g.into) (held g.by_label) };
}

impl Graph {
    ghost use Rattle.itpg_graph.specs.Kinds.{kind_of, ends_of, IsNode};

    /// The graph that isn't begun and has no object. It takes no memory.
    pub fn new(alloc: Global) -> Graph
        ensures { result ≡ record { begun = None; objects = [] } }
    {
        Graph {
            opened: None,
            objects: Vec::new(alloc),
            numbers: Numbers::new(alloc),
            out: Links::new(alloc),
            into: Links::new(alloc),
            by_label: ByLabel::new(alloc),
            sets: LabelSets::new(alloc),
        }
    }

    /// An equal graph. It shares what each object has until one of the two changes it, so it takes no memory for families.
    pub fn copy(&self) -> Result<Graph, AllocError>
        ensures { IfOk result (λ copy. copy ≡ self.now) }
    {
        let alloc = *self.objects.allocator();
        let mut objects = Vec::with_capacity(alloc, self.objects.len())?;
        for object in &self.objects {
            let shared = object.share()?;
            objects.push(shared)?;
        }
        Ok(Graph {
            opened: self.opened,
            objects,
            numbers: self.numbers.copy()?,
            out: self.out.copy()?,
            into: self.into.copy()?,
            by_label: self.by_label.copy()?,
            sets: LabelSets::new(alloc),
        })
    }

    /// The graph's span of moments; `None` exactly if it isn't begun.
    pub fn horizon(&self) -> Option<Span>
        ensures value { result ≡ option_map (λ b. b.horizon) self.now.begun }
        ensures good { Good self.now }
    {
        Some(self.opened?.horizon)
    }

    /// The graph's name; `None` exactly if it isn't begun.
    pub fn name(&self) -> Option<Name>
        ensures { result ≡ option_map (λ b. b.name) self.now.begun }
    {
        Some(self.opened?.name)
    }

    /// The number of the standing object with this name; `None` exactly if no standing object has it.
    pub fn find(&self, name: &Name) -> Option<ObjNo>
        ensures found { IfSome result (λ o. Named self.now o.0 name.now) }
        ensures none { IsNone result → (o : ℕ) → Named self.now o name.now → ⊥ }
        ensures good { Good self.now }
    {
        let number = self.numbers.get(name)?;
        if self.objects[number as usize].stands() {
            Some(ObjNo(number))
        } else {
            None
        }
    }

    /// How many objects were ever declared: their numbers are those from 0 to below it.
    pub fn declared(&self) -> u32
        ensures count { result ≡ length self.now.objects }
        ensures good { Good self.now }
    {
        self.objects.len() as u32
    }

    /// Whether the object was declared and not dropped.
    pub fn standing(&self, o: ObjNo) -> bool
        ensures { IsTrue result ↔ Stands self.now o.0 }
    {
        match self.objects.get(o.0 as usize) {
            Some(object) => object.stands(),
            None => false,
        }
    }

    /// The first object from the number on that stands; `None` exactly if none does.
    pub fn next_standing(&self, from: usize) -> Option<ObjNo>
        ensures next { IfSome result (λ o. IsNextStanding self.now from o.0) }
        ensures none { IsNone result → NoneStands self.now from }
        ensures good { Good self.now }
    {
        for number in from..self.declared() as usize {
            let object = ObjNo(number as u32);
            if self.standing(object) {
                return Some(object);
            }
        }
        None
    }

    /// Whether the object is a node or an edge.
    pub fn kind(&self, o: ObjNo) -> Kind
        requires { Stands self.now o.0 }
        ensures { ObjectIs self.now o.0 (λ x. result ≡ kind_of x) }
    {
        match self.objects[o.0 as usize].ends() {
            Some(_) => Kind::Edge,
            None => Kind::Node,
        }
    }

    /// The source and the target of an edge; `None` exactly for a node.
    pub fn ends(&self, o: ObjNo) -> Option<(ObjNo, ObjNo)>
        requires { Stands self.now o.0 }
        ensures ends { ObjectIs self.now o.0 (λ x. ends_of result ≡ x.ends) }
        ensures nodes { IfSome result (λ n. IsNode self.now n.0.0 × IsNode self.now n.1.0) }
    {
        self.objects[o.0 as usize].ends()
    }

    /// The labels of the object.
    pub fn labels(&self, o: ObjNo) -> LabelSet
        requires { Stands self.now o.0 }
        ensures { ObjectIs self.now o.0 (λ x. result ≡ x.labels) }
    {
        *self.label_set(o)
    }

    // The labels of the object, where they lie.
    pub(crate) fn label_set(&self, o: ObjNo) -> &LabelSet
        requires { Stands self.now o.0 }
        ensures { ObjectIs self.now o.0 (λ x. result.now ≡ x.labels) }
    {
        self.objects[o.0 as usize].labels()
    }

    // Whether the object has the label.
    pub(crate) fn has_label(&self, o: ObjNo, label: &Name) -> bool
        requires { Stands self.now o.0 }
        ensures { IsTrue result ↔ StandsWith self.now label.now o.0 }
    {
        self.label_set(o).has(label)
    }

    /// The standing objects with the label, by rising number. It takes no memory.
    ///
    /// ```text
    ///     a Person, b Person, m meets      labelled(Person) is [a, b]
    /// ```
    pub fn labelled(&self, label: &Name) -> &[ObjNo]
        ensures numbers { AreNumbers (StandsWith self.now label.now) result.now }
        ensures good { Good self.now }
    {
        self.by_label.at(label)
    }

    /// The moments at which the object exists, in at most `MAX_SPANS` spans.
    pub fn live(&self, o: ObjNo) -> &IntervalSet
        requires { Stands self.now o.0 }
        ensures family { ObjectIs self.now o.0 (λ x. result.now ≡ x.live) }
        ensures few { length result.now ≤ MAX_SPANS }
    {
        &self.objects[o.0 as usize].as_record().live
    }

    /// The values of a property over time, in at most `MAX_SPANS` runs; `None` exactly if the object has no value of it at any
    /// moment.
    pub fn value(&self, o: ObjNo, prop: &Name) -> Option<&ValuedSet>
        requires { Stands self.now o.0 }
        ensures some { IfSome result (λ values. AreRunsOf (Val self.now o.0 prop.now) values.now) }
        ensures none { IsNone result ↔ ((t : ℤ) (value : Word) → ¬ Val self.now o.0 prop.now t value) }
        ensures few { IfSome result (λ values. length values.now ≤ MAX_SPANS) }
    {
        self.objects[o.0 as usize].as_record().properties.get(prop)
    }

    /// How many properties the object has, each of which has a value at some moment: at most `MAX_PROPERTIES`.
    pub fn prop_count(&self, o: ObjNo) -> usize
        requires { Stands self.now o.0 }
        ensures count { ObjectIs self.now o.0 (λ x. result ≡ length x.properties) }
        ensures few { result ≤ MAX_PROPERTIES }
    {
        self.objects[o.0 as usize].as_record().properties.count()
    }

    /// The standing edges whose source is the object, by rising number.
    ///
    /// ```text
    ///     a --m--> b      out_edges(a) is [m, s]
    ///     a --s--> a      in_edges(a) is [s], in_edges(b) is [m]
    /// ```
    pub fn out_edges(&self, o: ObjNo) -> &[ObjNo]
        requires { Stands self.now o.0 }
        ensures { AreNumbers (LeadsFrom self.now o.0) result.now }
    {
        self.out.at(o)
    }

    /// The standing edges whose target is the object, by rising number.
    pub fn in_edges(&self, o: ObjNo) -> &[ObjNo]
        requires { Stands self.now o.0 }
        ensures { AreNumbers (LeadsTo self.now o.0) result.now }
    {
        self.into.at(o)
    }

    /// The greatest number of spans that any family of the object, its existence or a property, would have after its life
    /// in the span ended.
    ///
    /// ```text
    ///     existence    [0..20                 ]
    ///     low          [0..9     ]
    ///     high                   [10..20      ]
    ///     s                 [5..6]                 existence would have 2 spans, low 2, high 1: the answer is 2
    /// ```
    pub fn widest_cut(&self, o: ObjNo, s: Span) -> usize
        requires { Stands self.now o.0 }
        ensures some { HasCutFamily self.now o.0 s result }
        ensures most { (n : ℕ) → HasCutFamily self.now o.0 s n → n ≤ result }
    {
        let object = self.objects[o.0 as usize].as_record();
        object
            .properties
            .widest_cut(s)
            .max(object.live.count_cut(s))
    }

    /// The name under which the number was declared, also after a drop.
    pub fn name_of(&self, o: ObjNo) -> Name
        requires { o.0 < length self.now.objects }
        ensures { result ≡ name_at self.now o.0 }
    {
        self.objects[o.0 as usize].name()
    }
}
