//! A ticket as the key of a map.
ghost use Rattle.std.specs.Prelude.{◌≡◌};
ghost use Rattle.std.specs.Cmp.{partial_equiv_from_equiv};
ghost use Rattle.std.specs.Cmp.Lexicographic.{bytes_decides, nat_list_eq_equiv};
ghost use Rattle.std.specs.Str.{bytes_eq};
ghost use Rattle.std.proofs.Common.{◌∷◌, [], ap};

use std::hash::{Hash, Hasher};
use std::marker::Model;

/// A ticket, the SHA-256 of a PASSporT's signing input, as the key of a map. In contracts it is its 32 bytes.
#[derive(Drop)]
pub struct TicketKey {
    bytes: [u8; 32],
}

impl Model for TicketKey {
    ghost use Rattle.std.specs.Prelude.{ℕ, List};

    ghost Value = { List ℕ };

    ghost view = { λ t. t.bytes };
}

impl TicketKey {
    /// The key of this ticket.
    pub fn new(bytes: &[u8; 32]) -> TicketKey
        ensures { result ≡ bytes.now }
    {
        TicketKey { bytes: *bytes }
    }

    /// The ticket.
    pub fn bytes(&self) -> &[u8; 32]
        ensures { result.now ≡ self.now }
    {
        &self.bytes
    }
}

impl PartialEq for TicketKey {
    ghost eq = { bytes_eq };

    ghost laws = { partial_equiv_from_equiv nat_list_eq_equiv };

    fn eq(&self, other: &TicketKey) -> bool {
        self.bytes == other.bytes
    }
}

impl Eq for TicketKey {
    ghost laws = { nat_list_eq_equiv };
}

/// It goes to the hasher as a whole: an array gives itself byte by byte.
impl Hash for TicketKey {
    ghost hash_input = { λ t. t ∷ [] };

    ghost respects_eq = { λ x y same. ap (λ bytes. bytes ∷ []) ((bytes_decides x y).0 same) };

    fn hash<H: Hasher>(&self, state: &mut H) {
        state.write(&self.bytes);
    }
}
