//! Laws: a function here does nothing, and its clause is the law.
ghost use Rattle.std.specs.Prelude.{◌≡◌, ℕ, ◌↔◌, List, Ok};
ghost use Rattle.identity_header.specs.FieldText.{FieldText};
ghost use Rattle.identity_header.specs.Parts.{Parts};
ghost use Rattle.identity_header.specs.Read.{read};

/// Parts are read of a text exactly if it is an Identity value with these parts (RFC 8224, section 4.1).
pub fn field_law()
    ensures { (text : List ℕ) (f : Parts) → (read text ≡ Ok f) ↔ FieldText f text }
{}
