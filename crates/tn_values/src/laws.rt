//! Laws: a function here does nothing, and its clauses are the law.
ghost use Rattle.std.specs.List.{list_all};
ghost use Rattle.std.specs.Prelude.{◌≡◌, ℕ, Bool, true, List, Some};
ghost use Rattle.tn_values.specs.Canon.{Canon, StandsFor};
ghost use Rattle.tn_values.specs.Every.{every_number};
ghost use Rattle.tn_values.specs.Local.{LocalView};
ghost use Rattle.tn_values.specs.Number.{is_number};
ghost use Rattle.tn_values.specs.NumberSet.{SetHolds, SetView};
ghost use Rattle.tn_values.specs.Place.{set_has};

/// A text has a number exactly if it stands for this number, in one of three ways (RFC 8224, section 8.3).
pub fn number_law()
    ensures found { (text : List ℕ) (local : LocalView) (number : List ℕ) → Canon text local ≡ Some number
        → StandsFor text local number }
    ensures only { (text : List ℕ) (local : LocalView) (number : List ℕ) → StandsFor text local number
        → Canon text local ≡ Some number }
{}

/// The test of spans and single numbers decides which numbers they hold (RFC 8226, section 9).
pub fn set_law()
    ensures means { (set : SetView) (number : List ℕ) → set_has set number ≡ true → SetHolds set number }
    ensures decides { (set : SetView) (number : List ℕ) → SetHolds set number → set_has set number ≡ true }
{}

/// A test passes each of the list of all telephone numbers (RFC 8226, section 9) exactly if it passes every number.
pub fn every_number_law()
    ensures each { (test : List ℕ → Bool) → list_all test every_number ≡ true → (number : List ℕ)
        → is_number number ≡ true → test number ≡ true }
    ensures every { (test : List ℕ → Bool) → ((number : List ℕ) → is_number number ≡ true → test number ≡ true)
        → list_all test every_number ≡ true }
{}
