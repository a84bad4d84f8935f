//! Laws: a function here does nothing, and its clauses are the law.
ghost use Rattle.std.specs.Prelude.{◌≡◌, ◌↔◌, ℕ, List, Ok, Err};
ghost use Rattle.der_reader.specs.Elem.{AllBytes};
ghost use Rattle.der_reader.specs.declared.part.Fault.{Fault};
ghost use Rattle.tn_auth_list.specs.ListText.{ListText};
ghost use Rattle.tn_auth_list.specs.Read.{read_list};
ghost use Rattle.tn_auth_list.specs.Refused.{Refused};
ghost use Rattle.tn_auth_list.specs.declared.entries.Entry.{Entry};

/// Entries are read of bytes exactly if these are the list of them (RFC 8226, section 9), and a fault
/// exactly if it is their first.
pub fn list_law()
    ensures again { (bytes : List ℕ) (entries : List Entry) → ListText bytes entries → read_list bytes ≡ Ok entries }
    ensures found { (bytes : List ℕ) (entries : List Entry) → AllBytes bytes → read_list bytes ≡ Ok entries
        → ListText bytes entries }
    ensures refused { (bytes : List ℕ) (fault : Fault) → AllBytes bytes
        → (read_list bytes ≡ Err fault) ↔ Refused bytes fault }
{}
