//! Laws: a function here does nothing, and its clauses are the law.
ghost use Rattle.std.specs.Prelude.{◌≡◌, ◌↔◌, ◌≢◌, ◌≤◌, ◌⊎◌, ℕ, true, List, length, is_some, Option, Some, None};
ghost use Rattle.der_reader.specs.Elem.{AllBytes};
ghost use Rattle.x509_profile.specs.Chain.{Chain};
ghost use Rattle.x509_profile.specs.View.{CertView};
ghost use Rattle.delegation.specs.Coverage.{Table};
ghost use Rattle.cert_store.specs.Below.{Below};
ghost use Rattle.cert_store.specs.ChainMap.{IsFileName, Row, is_file_name, row_of};
ghost use Rattle.cert_store.specs.Holding.{Chains, Holding, chain_of, put_in, touched};
ghost use Rattle.cert_store.specs.Judged.{HasAuthority, JudgedView, judged_of};
ghost use Rattle.cert_store.specs.Questions.{AgreeOn, kept_question, questions_of};
ghost use Rattle.cert_store.specs.Rules.{Says};
ghost use Rattle.cert_store.specs.Using.{AreAmong, HeldUnless, IsHeldSince, IsOnce, has, names};
ghost use Rattle.cert_store.specs.Words.{InWords};
ghost use Rattle.cert_store.specs.declared.judged.Asked.TheVariants.{Failed};

use delegation::{path_law, within_law};
use x509_profile::chain_law;

/// What is read of a chain, what is found to be a path and what lies within what: the laws of the crates below that the
/// rules' own words rest on.
pub(crate) fn below_law()
    ensures { Below }
{
    chain_law();
    path_law();
    within_law();
}

/// What the rules on a chain say of bytes if every question for a signature is answered, each in its own words. A chain
/// has no more bytes than a chain file may have.
pub fn judged_law()
    ensures answered { (anchors : List CertView) (table : Table) (says : Says) (bytes : List ℕ) (part : ℕ)
        → (judged_of anchors table says bytes).asked ≢ Failed part }
    ensures words { (anchors : List CertView) (table : Table) (says : Says) (bytes : List ℕ) → AllBytes bytes
        → InWords anchors table says bytes (judged_of anchors table says bytes) }
    ensures short { (bytes : List ℕ) (chain : List CertView) → Chain bytes chain → length bytes ≤ 49152 }
{
    below_law();
}

/// What the rules say of a chain's bytes depends on a provider by its answers to the chain's questions alone, and on no
/// answer if rule 11, 12 or 14 is broken. The questions depend on no provider. By two providers, what is said differs
/// only in how the signatures were answered for. If no key is kept, there is no question.
pub fn questions_law()
    ensures same { (anchors : List CertView) (table : Table) (says other : Says) (bytes : List ℕ)
        → questions_of (judged_of anchors table other bytes) ≡ questions_of (judged_of anchors table says bytes) }
    ensures agree { (anchors : List CertView) (table : Table) (says other : Says) (bytes : List ℕ)
        → (HasAuthority (judged_of anchors table says bytes)
        → AgreeOn says other (questions_of (judged_of anchors table says bytes)))
        → judged_of anchors table other bytes ≡ judged_of anchors table says bytes }
    ensures apart { (anchors : List CertView) (table : Table) (says other : Says) (bytes : List ℕ)
        → judged_of anchors table other bytes
        ≡ record (judged_of anchors table says bytes) { asked = (judged_of anchors table other bytes).asked } }
    ensures none { (certificate : Option CertView) → kept_question certificate None ≡ None }
{}

/// What is held after a chain was used: the same chains. What is held after a chain was put: that chain, and none else
/// that wasn't held before.
pub fn cache_law()
    ensures same { (x5u other : List ℕ) (entries : Chains)
        → chain_of other (touched x5u entries) ≡ chain_of other entries }
    ensures found { (x5u other : List ℕ) (judged found : JudgedView) (holding : Holding)
        → chain_of other (put_in x5u judged holding) ≡ Some found
        → ((other ≡ x5u) × (found ≡ judged)) ⊎ (chain_of other holding.entries ≡ Some found) }
{}

/// How long a chain is held: from its last use or its put on, until as many others were used or put as there may be
/// chains.
pub fn use_law()
    ensures touched { (used : List (List ℕ)) (x5u : List ℕ) (entries : Chains) → is_some (chain_of x5u entries) ≡ true
        → IsHeldSince used x5u (touched x5u entries) }
    ensures put { (used : List (List ℕ)) (x5u : List ℕ) (judged : JudgedView) (holding : Holding)
        → IsHeldSince used x5u (put_in x5u judged holding) }
    ensures touched_others { (capacity : ℕ) (used : List (List ℕ)) (x5u other : List ℕ) (entries : Chains)
        → (is_some (chain_of x5u entries) ≡ true → has x5u used ≡ true) → HeldUnless capacity used other entries
        → HeldUnless capacity used other (touched x5u entries) }
    ensures put_others { (used : List (List ℕ)) (x5u other : List ℕ) (judged : JudgedView) (holding : Holding)
        → IsOnce (names holding.entries) → has x5u used ≡ true → HeldUnless holding.capacity used other holding.entries
        → HeldUnless holding.capacity used other (put_in x5u judged holding) }

    // More may have been used; and if no more were used than there may be chains, it is held.
    ensures more { (capacity : ℕ) (used others : List (List ℕ)) (x5u : List ℕ) (entries : Chains) → AreAmong used others
        → HeldUnless capacity used x5u entries → HeldUnless capacity others x5u entries }
    ensures few { (capacity : ℕ) (used : List (List ℕ)) (x5u : List ℕ) (entries : Chains) → has x5u used ≡ true
        → length used ≤ capacity → HeldUnless capacity used x5u entries → is_some (chain_of x5u entries) ≡ true }

    // What is named is held, and no others were used since than what is named. Texts of which none is another are no
    // more than those that they are among.
    ensures named { (x5u : List ℕ) (entries : Chains) → has x5u (names entries) ≡ is_some (chain_of x5u entries) }
    ensures since { (x5u : List ℕ) (entries : Chains) → is_some (chain_of x5u entries) ≡ true
        → IsHeldSince (names entries) x5u entries }
    ensures no_more { (texts others : List (List ℕ)) → IsOnce texts → AreAmong texts others
        → length texts ≤ length others }
{}

/// The name of a file in a chain map is 1 to 255 bytes of visible ASCII (this project's own rule).
pub fn file_name_law()
    ensures name { (word : List ℕ) → is_file_name word ≡ true ↔ IsFileName word }
    ensures some { (line : List ℕ) (row : Row) → row_of line ≡ Some row → 1 ≤ length row.file }
{}
