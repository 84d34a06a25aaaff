//! What is kept of a graph and of an object.
ghost use Rattle.std.specs.Prelude.{◌≡◌, ◌⊎◌, ◌↔◌, ℤ, Some, IsTrue, IfOk, OnOk, OnErr};
ghost use Rattle.itpg_base.specs.Spans.{Within, Covers};
ghost use Rattle.itpg_graph.specs.Changes.{new_object, dropped};
ghost use Rattle.itpg_graph.specs.Kinds.{ends_of};
ghost use Rattle.itpg_graph.specs.Objects.{ObjectJoins, ObjectCuts, ObjectPuts, ObjectClears};

use crate::kept_name::KeptName;
use crate::properties::Properties;
use crate::shared_labels::SharedLabels;
use interval_set::{IntervalSet, Span};
use itpg_base::{LabelSet, Name, ObjNo};
use std::alloc::{AllocError, Global};
use std::marker::Model;
use std::rc::Rc;

/// The name and the horizon of a graph that is begun.
#[derive(Clone, Copy)]
pub(crate) struct Opened {
    pub(crate) name: Name,
    pub(crate) horizon: Span,
}

/// What equal graphs share of an object, until one of them changes it.
#[derive(Drop)]
pub(crate) struct Record {
    pub(crate) live: IntervalSet,
    pub(crate) properties: Properties,
}

impl Clone for Record {
    ghost is_clone = { λ old copy. copy ≡ old };

    fn clone(&self) -> Result<Record, AllocError> {
        let live = self.live.copy()?;
        let properties = self.properties.copy()?;
        Ok(Record { live, properties })
    }
}

/// An object that was declared. Equal graphs share its record: the one that changes it makes a record of its own first.
///
/// A contract sees it as an object of the plain graph. Whether it stands isn't shared, so a drop takes no memory. What is asked of many
/// objects one after another stands beside the record, so that this needn't be looked into, and what each edit asks stands first: with
/// its 64 bytes, an object is then asked in one line of the processor's cache.
#[derive(Drop)]
pub(crate) struct Stored {
    standing: bool,
    // Whether it exists at each moment of `sure`: all of them, for the many objects that exist in one span.
    is_sure: bool,
    // Of an edge, its source and its target.
    ends: Option<(ObjNo, ObjNo)>,
    sure: Span,
    shared: Rc<Record>,
    labels: SharedLabels,
    name: KeptName,
}

impl Model for Stored {
    ghost use Rattle.itpg_base.specs.Graphs.{Object};
    ghost use Rattle.itpg_graph.specs.Records.{object_by, AreSure};

    ghost Value = { Object };

    ghost view = { λ s. object_by s.standing s.name s.labels s.ends s.shared.value };

    ghost invariant = { λ s. AreSure s.is_sure s.sure s.shared.value.live };
}

// The longer of the two spans.
fn longer(first: Span, second: Span) -> Span
    ensures { (result ≡ first) ⊎ (result ≡ second) }
{
    let count = first.to().saturating_sub(first.from());
    if count < second.to().saturating_sub(second.from()) {
        second
    } else {
        first
    }
}

impl Stored {
    /// A new object, which exists at no moment.
    pub(crate) fn new(
        alloc: Global,
        name: Name,
        labels: SharedLabels,
        ends: Option<(ObjNo, ObjNo)>,
    ) -> Result<Stored, AllocError>
        ensures { IfOk result (λ object. object ≡ new_object name labels (ends_of ends)) }
    {
        let name = KeptName::new(alloc, &name)?;
        let first = Record {
            live: IntervalSet::new(alloc),
            properties: Properties::new(alloc),
        };
        Ok(Stored {
            standing: true,
            is_sure: false,
            ends,
            sure: Span::new(0, 0).unwrap(),
            shared: Rc::new(alloc, first)?,
            labels,
            name,
        })
    }

    /// An equal object, which shares the record.
    pub(crate) fn share(&self) -> Result<Stored, AllocError>
        ensures { IfOk result (λ object. object ≡ self.now) }
    {
        Ok(Stored {
            standing: self.standing,
            is_sure: self.is_sure,
            ends: self.ends,
            sure: self.sure,
            shared: self.shared.clone()?,
            labels: self.labels.share()?,
            name: self.name.share()?,
        })
    }

    /// Whether it stands.
    pub(crate) fn stands(&self) -> bool
        ensures { result ≡ self.now.standing }
    {
        self.standing
    }

    /// The name, also after a drop.
    pub(crate) fn name(&self) -> Name
        ensures { result ≡ self.now.name }
    {
        self.name.name()
    }

    /// Of an edge, its source and its target.
    pub(crate) fn ends(&self) -> Option<(ObjNo, ObjNo)>
        ensures { ends_of result ≡ self.now.ends }
    {
        self.ends
    }

    /// The labels, where they lie.
    pub(crate) fn labels(&self) -> &LabelSet
        ensures { result.now ≡ self.now.labels }
    {
        self.labels.set()
    }

    /// The record of an object that stands.
    pub(crate) fn as_record(&self) -> &Record
        requires { IsTrue self.now.standing }
        ensures live { result.now.live ≡ self.now.live }
        ensures properties { result.now.properties ≡ self.now.properties }
    {
        &self.shared
    }

    /// Whether it exists at each moment of the span.
    pub(crate) fn covers(&self, s: Span) -> bool
        requires { IsTrue self.now.standing }
        ensures { IsTrue result ↔ ((t : ℤ) → Within t s → Covers self.now.live t) }
    {
        if self.is_sure && self.sure.from() <= s.from() && s.to() <= self.sure.to() {
            return true;
        }
        self.shared.live.covers(s)
    }

    /// Lets the object exist at the moments of the span too. Without memory nothing changes.
    pub(crate) fn join_live(&mut self, s: Span) -> Result<(), AllocError>
        requires { IsTrue self.old.standing }
        ensures ok { OnOk result (ObjectJoins self.old s self.new) }
        ensures err { OnErr result (self.new ≡ self.old) }
    {
        let own = Rc::make_mut(&mut self.shared)?;
        own.live.join_span(s)?;
        self.sure = if self.is_sure {
            longer(self.sure, s)
        } else {
            s
        };
        self.is_sure = true;
        Ok(())
    }

    /// Ends the object's life and its values in the span. Without memory nothing changes.
    pub(crate) fn cut_live(&mut self, s: Span) -> Result<(), AllocError>
        requires { IsTrue self.old.standing }
        ensures ok { OnOk result (ObjectCuts self.old s self.new) }
        ensures err { OnErr result (self.new ≡ self.old) }
    {
        self.is_sure = false;
        let own = Rc::make_mut(&mut self.shared)?;
        let properties = own.properties.cut(s)?;
        own.live.cut_span(s)?;
        own.properties = properties;
        Ok(())
    }

    /// Gives the property the value at each moment of the span. Without memory nothing changes.
    pub(crate) fn put_value(&mut self, prop: &Name, value: &Name, s: Span) -> Result<(), AllocError>
        requires { IsTrue self.old.standing }
        ensures ok { OnOk result (ObjectPuts self.old prop.now value.now s self.new) }
        ensures err { OnErr result (self.new ≡ self.old) }
    {
        let own = Rc::make_mut(&mut self.shared)?;
        own.properties.put(prop, value, s)?;
        Ok(())
    }

    /// Takes the values of the property in the span away. Without memory nothing changes.
    pub(crate) fn clear_value(&mut self, prop: &Name, s: Span) -> Result<(), AllocError>
        requires { IsTrue self.old.standing }
        ensures ok { OnOk result (ObjectClears self.old prop.now s self.new) }
        ensures err { OnErr result (self.new ≡ self.old) }
    {
        let own = Rc::make_mut(&mut self.shared)?;
        own.properties.clear(prop, s)?;
        Ok(())
    }

    /// Drops the object. It takes no memory, and gives the families back if no other graph has the record.
    pub(crate) fn fall(&mut self, alloc: Global)
        ensures { self.new ≡ dropped self.old }
    {
        self.standing = false;
        self.is_sure = false;
        if let Some(own) = Rc::get_mut(&mut self.shared) {
            own.live = IntervalSet::new(alloc);
            own.properties = Properties::new(alloc);
        }
    }
}
