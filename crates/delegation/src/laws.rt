//! Laws: a function here does nothing, and its clause is the law.
ghost use Rattle.std.specs.Prelude.{◌≡◌, ◌↔◌, ℕ, List, Option, Ok, Err, IsTrue};
ghost use Rattle.tn_auth_list.specs.declared.entries.Entry.{Entry};
ghost use Rattle.x509_profile.specs.View.{CertView};
ghost use Rattle.delegation.specs.Coverage.{Covers, Table, Within};
ghost use Rattle.delegation.specs.Decided.{covers_number, is_within};
ghost use Rattle.delegation.specs.Path.{Path, fault_at, shape_of};
ghost use Rattle.delegation.specs.PathFaults.{IsFirstFault};
ghost use Rattle.delegation.specs.declared.fault.PathFault.{PathFault};

/// The test whether some entry holds a number decides that one does (RFC 8226, section 9).
pub fn covers_law()
    ensures { (entries : List Entry) (table : Table) (number : List ℕ)
        → IsTrue (covers_number entries table number) ↔ Covers entries table number }
{}

/// The test whether one authority lies within another decides that it does (RFC 9060).
pub fn within_law()
    ensures decides { (child parent : Option (List Entry)) (table : Table)
        → IsTrue (is_within child parent table) ↔ Within child parent table }
{}

/// The shape of certificates is an anchor if they are a path up to it (RFC 5280, section 6.1), and else what is wrong
/// first.
pub fn path_law()
    ensures again { (chain anchors : List CertView) (anchor : Option ℕ) → Path chain anchors anchor
        → shape_of chain anchors ≡ Ok anchor }
    ensures found { (chain anchors : List CertView) (anchor : Option ℕ) → shape_of chain anchors ≡ Ok anchor
        → Path chain anchors anchor }
    ensures refused_again { (chain anchors : List CertView) (kind place : ℕ) → IsFirstFault chain anchors kind place
        → shape_of chain anchors ≡ Err (fault_at kind place) }
    ensures refused { (chain anchors : List CertView) (fault : PathFault) → shape_of chain anchors ≡ Err fault
        → IsFirstFault chain anchors fault.kind fault.place }
{}
