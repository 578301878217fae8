//! What look-ups and symbols say of the libraries of names, by the hashes of the names.

ghost use Rattle.std.specs.Prelude.{◌≡◌, IsTrue};
ghost use Rattle.std.specs.List.Sorted.{IsNonDecreasingBy};
ghost use Rattle.macho_alike.specs.Claims.{hash_of as hash_of_name, Agree};

use crate::binds::Library;
use crate::imports::ordinal_of;
use crate::notes::Notes;
use std::alloc::AllocError;
use std::hash::{FoldHasher, Hasher};

/// A name is from a library.
#[derive(Clone, Copy)]
pub(crate) struct Claim {
    /// The hash of the name.
    pub hash: u64,
    /// The library, as `n_desc` says it, if it can.
    pub ordinal: Option<u16>,
}

impl Claim {
    ghost use Rattle.std.specs.Prelude.{◌≡◌, ◌↔◌, IsTrue};
    ghost use Rattle.macho_alike.specs.Claims.{claim_of, AgreesWith};

    /// That the name is from the library with the ordinal.
    pub(crate) fn new(name: &[u8], ordinal: Option<u16>) -> Claim
        ensures { result ≡ claim_of name.now ordinal }
    {
        Claim {
            hash: hash_of(name),
            ordinal,
        }
    }

    /// Whether both say the same.
    pub(crate) fn is_same(self, other: Claim) -> bool
        ensures { IsTrue result ↔ (self ≡ other) }
    {
        self.hash == other.hash && self.ordinal == other.ordinal
    }

    // Whether the other one has another hash, or the same ordinal.
    fn agrees_with(self, other: Claim) -> bool
        ensures { IsTrue result ↔ AgreesWith self other }
    {
        self.hash != other.hash || self.ordinal == other.ordinal
    }
}

// The hash of a name. Whoever picks the names can make their hashes collide, which costs time alone.
fn hash_of(name: &[u8]) -> u64
    ensures { result ≡ hash_of_name name.now }
{
    let mut hasher = FoldHasher::default();
    hasher.write(name);
    hasher.finish()
}

impl<'a> Notes<'a> for Vec<Claim> {
    ghost use Rattle.macho_alike.specs.Claims.{AreClaims};

    ghost are_of = { λ looks claims. AreClaims looks claims.items };

    fn note(&mut self, name: &'a [u8], library: Library) -> Result<(), AllocError> {
        self.push(Claim::new(name, ordinal_of(library)))?;
        Ok(())
    }
}

/// Whether claims with the same hash have the same ordinal. They are sorted by their hashes, so neighbours are compared.
pub(crate) fn agree(claims: &[Claim]) -> bool
    requires { IsNonDecreasingBy (λ claim. claim.hash) claims.now }
    ensures { IsTrue result → Agree claims.now }
{
    for index in 1..claims.len() {
        if !claims[index - 1].agrees_with(claims[index]) {
            return false;
        }
    }
    true
}
