//! The properties of an object, each with its values.
ghost use Rattle.std.specs.Prelude.{◌≡◌, ◌↔◌, ◌<◌, ℤ, [], length, vec_len, IsNone, IfSome, IfOk, IfErr, OnOk, OnErr};
ghost use Rattle.std.specs.List.{remove};
ghost use Rattle.itpg_base.specs.Words.{Word};
ghost use Rattle.itpg_base.specs.Spans.{Within};
ghost use Rattle.itpg_base.specs.Graphs.{PropertiesHave};
ghost use Rattle.interval_set.specs.Runs.{AreRunsOf};
ghost use Rattle.itpg_graph.specs.Families.{AreProperties};
ghost use Rattle.itpg_graph.specs.Tables.{IsPlace, IsGap, HasLess, HasMore, IsWidest};

use crate::kept_name::KeptName;
use interval_set::{Span, ValuedSet};
use itpg_base::Name;
use std::alloc::{AllocError, Global};
use std::marker::Model;

// At so many places a name is looked for in turn: mostly there are no more, and to see that a name is the same waits for no other answer.
const FEW: usize = 8;

/// A property and its values.
#[derive(Drop)]
pub(crate) struct Property {
    name: KeptName,
    values: ValuedSet,
}

impl Model for Property {
    ghost use Rattle.itpg_base.specs.Graphs.{Property as PlainProperty};

    ghost Value = { PlainProperty };

    ghost view = { λ p. record { name = p.name; runs = p.values } };
}

/// The properties that an object has at some moment, by rising name.
///
/// A contract sees them as the list of properties of the plain graph.
#[derive(Drop)]
pub(crate) struct Properties {
    list: Vec<Property>,
}

impl Model for Properties {
    ghost use Rattle.std.specs.Prelude.{List};
    ghost use Rattle.itpg_base.specs.Graphs.{Property as PlainProperty};
    ghost use Rattle.itpg_graph.specs.Families.{IsOrderly};

    ghost Value = { List PlainProperty };

    ghost view = { λ a. a.list.items };

    ghost invariant = { λ a. IsOrderly a.list.items };
}

impl Properties {
    /// No property. It takes no memory.
    pub(crate) fn new(alloc: Global) -> Properties
        ensures { result ≡ [] }
    {
        Properties {
            list: Vec::new(alloc),
        }
    }

    /// An equal list of its own.
    pub(crate) fn copy(&self) -> Result<Properties, AllocError>
        ensures { IfOk result (λ copy. copy ≡ self.now) }
    {
        let mut list = Vec::with_capacity(*self.list.allocator(), self.list.len())?;
        for property in &self.list {
            let name = property.name.share()?;
            let values = property.values.copy()?;
            list.push(Property { name, values })?;
        }
        Ok(Properties { list })
    }

    /// How many properties have a value.
    pub(crate) fn count(&self) -> usize
        ensures { result ≡ length self.now }
    {
        self.list.len()
    }

    /// The values of a property; `None` exactly if it has none.
    pub(crate) fn get(&self, name: &Name) -> Option<&ValuedSet>
        ensures some { IfSome result (λ values. AreRunsOf (PropertiesHave self.now name.now) values.now) }
        ensures none { IsNone result ↔ ((t : ℤ) (value : Word) → ¬ PropertiesHave self.now name.now t value) }
    {
        match self.search(name) {
            Ok(place) => {
                let property = &self.list[place];
                Some(&property.values)
            }
            Err(_) => None,
        }
    }

    /// The place of a property, or the place that it would have.
    fn search(&self, name: &Name) -> Result<usize, usize>
        ensures found { IfOk result (IsPlace self.now name.now) }
        ensures missing { IfErr result (IsGap self.now name.now) }
    {
        for place in 0..self.list.len().min(FEW) {
            if self.list[place].name.is(name) {
                return Ok(place);
            }
        }
        self.list
            .binary_search_by(|property| property.name.order(name))
    }

    /// Gives the property the value at each moment of the span. Without memory nothing changes.
    pub(crate) fn put(&mut self, name: &Name, value: &Name, s: Span) -> Result<(), AllocError>
        ensures ok { OnOk result (AreProperties (HasMore self.old name.now value.now s) self.new) }
        ensures err { OnErr result (self.new ≡ self.old) }
    {
        prove!(s.from() <= s.to());
        match self.search(name) {
            Ok(place) => {
                let property = &mut self.list[place];
                property.values.put(s, *value)?;
                Ok(())
            }
            Err(place) => self.add(place, name, value, s),
        }
    }

    /// Adds a property at its place, with the value at each moment of the span. Without memory nothing changes.
    fn add(&mut self, place: usize, name: &Name, value: &Name, s: Span) -> Result<(), AllocError>
        requires { IsGap self.old name.now place }
        ensures ok { OnOk result (AreProperties (HasMore self.old name.now value.now s) self.new) }
        ensures err { OnErr result (self.new ≡ self.old) }
    {
        prove!(s.from() <= s.to());
        let alloc = *self.list.allocator();
        let name = KeptName::new(alloc, name)?;
        let mut values = ValuedSet::new(alloc);
        values.put(s, *value)?;
        if self.list.is_empty() {
            // Most objects never get a second property.
            self.list.reserve_exact(1)?;
        }
        self.list.insert(place, Property { name, values })?;
        Ok(())
    }

    /// Takes the values of the property in the span away. Without memory nothing changes.
    pub(crate) fn clear(&mut self, name: &Name, s: Span) -> Result<(), AllocError>
        ensures ok { OnOk result (AreProperties (HasLess self.old name.now s) self.new) }
        ensures err { OnErr result (self.new ≡ self.old) }
    {
        let Ok(place) = self.search(name) else {
            return Ok(());
        };
        let property = &mut self.list[place];
        property.values.clear(s)?;
        if property.values.is_empty() {
            take_out(&mut self.list, place);
        }
        Ok(())
    }

    /// The properties without their values in the span.
    pub(crate) fn cut(&self, s: Span) -> Result<Properties, AllocError>
        ensures { IfOk result (AreProperties (λ name t value. PropertiesHave self.now name t value × (¬ Within t s))) }
    {
        let mut list = Vec::with_capacity(*self.list.allocator(), self.list.len())?;
        for property in &self.list {
            let mut values = property.values.copy()?;
            values.clear(s)?;
            if !values.is_empty() {
                let name = property.name.share()?;
                list.push(Property { name, values })?;
            }
        }
        Ok(Properties { list })
    }

    /// The greatest number of runs of a property without its values in the span; 0 if there is no property.
    pub(crate) fn widest_cut(&self, s: Span) -> usize
        ensures { IsWidest self.now s result }
    {
        let mut widest = 0;
        for property in &self.list {
            widest = property.values.count_clear(s).max(widest);
        }
        widest
    }
}

// Takes the property at the place out.
fn take_out(list: &mut Vec<Property>, place: usize)
    requires { place < vec_len list.old }
    ensures { list.new.items ≡ remove list.old.items place }
{
    list.remove(place);
}
