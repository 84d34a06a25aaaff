//! Names of few bytes, in little room.
ghost use Rattle.std.specs.Prelude.{◌≡◌, ◌≤◌, ◌<◌, ◌↔◌, length, nat_eq, IsTrue, IfSome, IsNone};
ghost use Rattle.std.specs.Cmp.{partial_equiv_from_equiv};
ghost use Rattle.std.specs.Cmp.Lexicographic.{nat_list_eq_equiv, pointwise};
ghost use Rattle.std.specs.Cmp.Rules.{hashing};
ghost use Rattle.std.specs.Hash as fed;
ghost use Rattle.itpg_base.specs.Names.{with_zeros};
ghost use Rattle.std.proofs.Common.{rules};

use crate::name::Name;
use std::alloc::AllocError;
use std::fmt;
use std::hash::{Hash, Hasher};
use std::marker::Model;

/// How many bytes a short name has at most.
pub const MAX_SHORT: usize = 14;

/// A name of at most `MAX_SHORT` bytes, as most names are. It takes a quarter of the room of a `Name`.
///
/// It is copied, and takes no memory beyond its own. A contract sees it as the list of its bytes.
pub struct ShortName {
    size: u8,
    bytes: [u8; MAX_SHORT],
}

impl Model for ShortName {
    ghost use Rattle.std.specs.Prelude.{ℕ, List};
    ghost use Rattle.itpg_base.specs.Names.{short_of, IsShort, short_padded, short_again};

    ghost Value = { List ℕ };

    ghost view = { short_of };

    ghost invariant = { IsShort };

    ghost inverse = { short_padded };

    ghost inverse_ok = { short_again };
}

impl ShortName {
    /// The short name of these bytes; `None` exactly if there are more than `MAX_SHORT`.
    pub fn new(bytes: &[u8]) -> Option<ShortName>
        ensures none { IsNone result ↔ (MAX_SHORT < length bytes.now) }
        ensures some { IfSome result (λ name. name ≡ bytes.now) }
    {
        if bytes.len() > MAX_SHORT {
            return None;
        }
        Some(ShortName {
            size: bytes.len() as u8,
            bytes: short_block(bytes),
        })
    }

    /// The same name in little room; `None` exactly if it has more than `MAX_SHORT` bytes.
    pub fn of(name: &Name) -> Option<ShortName>
        ensures none { IsNone result ↔ (MAX_SHORT < length name.now) }
        ensures some { IfSome result (λ short. short ≡ name.now) }
    {
        if name.size as usize > MAX_SHORT {
            return None;
        }
        // As many bytes for each name, so that they are copied and read in the same pieces.
        let mut bytes = [0; MAX_SHORT];
        bytes.copy_from_slice(&name.bytes[..MAX_SHORT]);
        Some(ShortName {
            size: name.size,
            bytes,
        })
    }

    /// The bytes of the name, at most `MAX_SHORT`.
    pub fn bytes(&self) -> &[u8]
        ensures value { result.now ≡ self.now }
        ensures short { length self.now ≤ MAX_SHORT }
    {
        &self.bytes[..self.size as usize]
    }

    /// Whether it is the same name. Both are compared in the same two pieces, whatever their size.
    pub fn is(&self, name: &Name) -> bool
        ensures { IsTrue result ↔ (self.now ≡ name.now) }
    {
        if self.size != name.size || !are_same_eight(&self.bytes[..8], &name.bytes[..8]) {
            return false;
        }
        are_same_eight(&self.bytes[6..], &name.bytes[6..MAX_SHORT])
    }

    /// The same name in the room of any name.
    pub fn name(&self) -> Name
        ensures { result ≡ self.now }
    {
        Name::of(self.bytes())
    }
}

// The bytes with zeros behind them.
fn short_block(bytes: &[u8]) -> [u8; MAX_SHORT]
    requires { length bytes.now ≤ MAX_SHORT }
    ensures { result ≡ with_zeros MAX_SHORT bytes.now }
{
    let mut block = [0; MAX_SHORT];
    block[..bytes.len()].copy_from_slice(bytes);
    block
}

// Whether eight bytes are the same: they are compared as one number.
fn are_same_eight(first: &[u8], second: &[u8]) -> bool
    requires first { length first.now ≡ 8 }
    requires second { length second.now ≡ 8 }
    ensures { IsTrue result ↔ (first.now ≡ second.now) }
{
    let mut one = [0; 8];
    one.copy_from_slice(first);
    let mut other = [0; 8];
    other.copy_from_slice(second);
    u64::from_le_bytes(one) == u64::from_le_bytes(other)
}

impl Copy for ShortName {}

impl Clone for ShortName {
    ghost is_clone = { λ v w. w ≡ v };

    fn clone(&self) -> Result<Self, AllocError> {
        Ok(*self)
    }
}

impl PartialEq for ShortName {
    ghost eq = { pointwise nat_eq };

    ghost laws = { partial_equiv_from_equiv nat_list_eq_equiv };

    fn eq(&self, other: &ShortName) -> bool {
        self.bytes() == other.bytes()
    }
}

impl Eq for ShortName {
    ghost laws = { nat_list_eq_equiv };
}

impl Hash for ShortName {
    ghost hash_input = { fed.slice fed.u8 };

    ghost respects_eq = { Prim.search (hashing, rules) };

    fn hash<H: Hasher>(&self, state: &mut H) {
        self.bytes().hash(state);
    }
}

impl fmt::Debug for ShortName {
    fn fmt<W: fmt::Write>(&self, f: &mut fmt::Formatter<W>) -> fmt::Result {
        write!(f, "ShortName({:?})", self.bytes())
    }
}
