//! The x5u of a chain that is held (RFC 7515, section 4.1.5), and how it is found.
ghost use Rattle.std.specs.Prelude.{◌≡◌};
ghost use Rattle.std.specs.Cmp.{partial_equiv_from_equiv};
ghost use Rattle.std.specs.Cmp.Lexicographic.{bytes_decides, nat_list_eq_equiv};
ghost use Rattle.std.specs.Cmp.Rules.{hashing};
ghost use Rattle.std.specs.Str.{bytes_eq};
ghost use Rattle.std.proofs.Common.{◌∷◌, [], ap, rules};

use std::collections::hash_map::Equivalent;
use std::hash::{Hash, Hasher};
use std::marker::Model;

/// The x5u of a chain that is held. In contracts it is its bytes.
#[derive(Drop)]
pub(crate) struct X5u {
    bytes: Vec<u8>,
}

impl Model for X5u {
    ghost use Rattle.std.specs.Prelude.{ℕ, List};

    ghost Value = { List ℕ };

    ghost view = { λ x. x.bytes.items };
}

impl X5u {
    /// The x5u of these bytes.
    pub(crate) fn new(bytes: Vec<u8>) -> X5u
        ensures { result ≡ bytes.items }
    {
        X5u { bytes }
    }

    /// Its bytes.
    fn bytes(&self) -> &[u8]
        ensures { result.now ≡ self.now }
    {
        self.bytes.as_slice()
    }
}

impl PartialEq for X5u {
    ghost eq = { bytes_eq };

    ghost laws = { partial_equiv_from_equiv nat_list_eq_equiv };

    fn eq(&self, other: &X5u) -> bool {
        self.bytes() == other.bytes()
    }
}

impl Eq for X5u {
    ghost laws = { nat_list_eq_equiv };
}

/// It goes to the hasher as a whole: a list of bytes gives itself byte by byte.
impl Hash for X5u {
    ghost hash_input = { λ x. x ∷ [] };

    ghost respects_eq = { λ x y same. ap (λ bytes. bytes ∷ []) ((bytes_decides x y).0 same) };

    fn hash<H: Hasher>(&self, state: &mut H) {
        state.write(self.bytes());
    }
}

/// The bytes by which an x5u is found.
#[derive(Clone, Copy, PartialEq, Eq)]
pub(crate) struct X5uView<'a> {
    pub(crate) bytes: &'a [u8],
}

impl<'a> Hash for X5uView<'a> {
    ghost hash_input = { λ v. v.bytes.now ∷ [] };

    ghost respects_eq = { Prim.search (hashing, rules) };

    fn hash<H: Hasher>(&self, state: &mut H) {
        state.write(self.bytes);
    }
}

impl<'a> Equivalent<X5u> for X5uView<'a> {
    ghost equivalent = { λ v x. bytes_eq v.bytes.now x };

    ghost respects_hash = { λ v x same. ap (λ bytes. bytes ∷ []) ((bytes_decides v.bytes.now x).0 same) };

    ghost respects_eq = { λ v x y. nat_list_eq_equiv.congr v.bytes.now x y };

    fn equivalent(&self, key: &X5u) -> bool {
        self.bytes == key.bytes()
    }
}
