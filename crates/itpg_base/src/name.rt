//! Names, which are copied.
ghost use Rattle.std.specs.Prelude.{◌≡◌, [], ◌-◌, ◌++◌, replicate, ◌≤◌, ◌<◌, ◌↔◌, List, Some, length, nat_eq, refl, IfSome, IsNone};
ghost use Rattle.std.specs.Cmp.{partial_equiv_from_equiv};
ghost use Rattle.std.specs.Cmp.Lexicographic.{nat_list_eq_equiv, pointwise, slice_cmp};
ghost use Rattle.std.specs.Cmp.Rules.{comparing, hashing};
ghost use Rattle.std.specs.Hash as fed;
ghost use Rattle.itpg_base.specs.Names.{with_zeros};
ghost use Rattle.std.specs.Ordering.{nat_cmp};
ghost use Rattle.std.proofs.Common.{rules};

use std::alloc::AllocError;
use std::cmp::Ordering;
use std::fmt;
use std::hash::{Hash, Hasher};
use std::marker::Model;

/// How many bytes a name has at most.
pub const MAX_NAME: usize = 64;

/// A name of at most `MAX_NAME` bytes: of a graph, an object, a label, a property, or a property's value.
///
/// It is copied, and takes no memory beyond its own. A contract sees it as the list of its bytes.
pub struct Name {
    pub(crate) size: u8,
    pub(crate) bytes: [u8; MAX_NAME],
}

impl Model for Name {
    ghost use Rattle.std.specs.Prelude.{ℕ, List};
    ghost use Rattle.itpg_base.specs.Names.{bytes_of, IsPadded, padded, padded_again};

    ghost Value = { List ℕ };

    ghost view = { bytes_of };

    ghost invariant = { IsPadded };

    ghost inverse = { padded };

    ghost inverse_ok = { padded_again };
}

impl Name {
    /// The name of these bytes; `None` exactly if there are more than `MAX_NAME`.
    pub fn new(bytes: &[u8]) -> Option<Name>
        ensures none { IsNone result ↔ (MAX_NAME < length bytes.now) }
        ensures some { IfSome result (λ name. name ≡ bytes.now) }
    {
        if bytes.len() > MAX_NAME {
            return None;
        }
        Some(Name::of(bytes))
    }

    // The name of these bytes.
    pub(crate) fn of(bytes: &[u8]) -> Name
        requires { length bytes.now ≤ MAX_NAME }
        ensures { result ≡ bytes.now }
    {
        Name {
            size: bytes.len() as u8,
            bytes: padded_block(bytes),
        }
    }

    /// The bytes of the name, at most `MAX_NAME`.
    pub fn bytes(&self) -> &[u8]
        ensures value { result.now ≡ self.now }
        ensures short { length self.now ≤ MAX_NAME }
    {
        &self.bytes[..self.size as usize]
    }
}

// The bytes with zeros behind them.
fn padded_block(bytes: &[u8]) -> [u8; MAX_NAME]
    requires { length bytes.now ≤ MAX_NAME }
    ensures { result ≡ with_zeros MAX_NAME bytes.now }
{
    let mut block = [0; MAX_NAME];
    block[..bytes.len()].copy_from_slice(bytes);
    block
}

impl Copy for Name {}

impl Clone for Name {
    ghost is_clone = { λ v w. w ≡ v };

    fn clone(&self) -> Result<Self, AllocError> {
        Ok(*self)
    }
}

impl PartialEq for Name {
    ghost eq = { pointwise nat_eq };

    ghost laws = { partial_equiv_from_equiv nat_list_eq_equiv };

    fn eq(&self, other: &Name) -> bool {
        self.bytes() == other.bytes()
    }
}

impl Eq for Name {
    ghost laws = { nat_list_eq_equiv };
}

impl Hash for Name {
    ghost hash_input = { fed.slice fed.u8 };

    ghost respects_eq = { Prim.search (hashing, rules) };

    fn hash<H: Hasher>(&self, state: &mut H) {
        self.bytes().hash(state);
    }
}

impl PartialOrd for Name {
    ghost partial_cmp = { λ a b. Some (slice_cmp nat_cmp a b) };

    ghost laws = { Prim.search (comparing, rules) };

    fn partial_cmp(&self, other: &Name) -> Option<Ordering> {
        Some(self.cmp(other))
    }
}

impl Ord for Name {
    ghost cmp = { slice_cmp nat_cmp };

    ghost total = { Prim.search (comparing, rules) };

    ghost matches_partial_cmp = { λ a b. refl };

    ghost matches_eq = { Prim.search (comparing, rules) };

    fn cmp(&self, other: &Name) -> Ordering {
        self.bytes().cmp(&other.bytes())
    }
}

impl Default for Name {
    fn default() -> Name
        ensures { result ≡ [] }
    {
        Name {
            size: 0,
            bytes: [0; MAX_NAME],
        }
    }
}

impl fmt::Debug for Name {
    fn fmt<W: fmt::Write>(&self, f: &mut fmt::Formatter<W>) -> fmt::Result {
        write!(f, "Name({:?})", self.bytes())
    }
}
