//! Authority lists.
ghost use Rattle.std.specs.Prelude.{◌≡◌, ◌≤◌, ℕ, List, [], ◌++◌, length, Ok, Err, IsTrue, IfOk};
ghost use Rattle.der_reader.specs.Elem.{AllBytes};
ghost use Rattle.der_reader.specs.declared.part.Fault.{Fault};
ghost use Rattle.tn_auth_list.specs.declared.entries.Entry.{Entry};
ghost use Rattle.tn_auth_list.specs.Entry.{is_list, list_of};
ghost use Rattle.tn_auth_list.specs.Fault.{Gives, IsPlaceBelow, der_at, no_entry, past_limit_at};
ghost use Rattle.tn_auth_list.specs.ListText.{ListText, list_text};
ghost use Rattle.tn_auth_list.specs.Read.{read_list};
ghost use Rattle.tn_auth_list.specs.Refused.{IsLeftOver, IsPastLimit, IsRefused, Refused};

use crate::Memory;
use crate::entries::{Entry, MOST, have_no_range_of_one};
use crate::faults::ListFault;
use crate::reading::read_list;
use crate::writing::list_text;
use std::alloc::Global;
use std::marker::Model;

/// Which telephone numbers a certificate's holder may speak for: `TNAuthorizationList` of RFC 8226, section 9.
///
/// It has 1 to 1,000 entries, and none of them is a range of a single number. That is this project's own rule. A
/// contract sees the list of the entries.
#[derive(Debug, Drop)]
pub struct AuthList {
    entries: Vec<Entry>,
}

impl Model for AuthList {
    ghost use Rattle.std.specs.Prelude.{List, IsTrue};
    ghost use Rattle.tn_auth_list.specs.declared.entries.Entry.{Entry};
    ghost use Rattle.tn_auth_list.specs.Entry.{is_list};

    ghost Value = { List Entry };

    ghost view = { λ l. l.entries.items };

    ghost invariant = { λ l. IsTrue (is_list l.entries.items) };
}

impl AuthList {
    /// The list that the bytes are, in DER.
    ///
    /// The list is one SEQUENCE and nothing after it. An entry is an element with the tag `A0`, `A1` or `A2`: a code
    /// has an IA5String in it, a range a SEQUENCE of an IA5String and an INTEGER, and a number an IA5String. Faults are
    /// found in the order in which the elements are read, and the first is the answer: `ListFault` says which there
    /// are, and where each is.
    #[tactic(auto, using(crate::proofs::ListLaws::read_is_list, crate::proofs::ListLaws::answer_again, crate::proofs::ListLaws::one_list, crate::proofs::ListLaws::answer_refused, crate::proofs::ListLaws::answer_is_refused, crate::proofs::ListLaws::empty_refused, crate::proofs::ListLaws::left_over_refused, crate::proofs::ListLaws::past_limit_refused))]
    pub fn read(alloc: Global, bytes: &[u8]) -> Result<AuthList, ListFault>
        // The entries, or the first fault.
        ensures exact { Gives result (read_list bytes.now) }

        // An answer is the entries whose text the bytes are, and the entries whose text they are are the answer.
        ensures found { IfOk result (λ list. ListText bytes.now list) }
        ensures only { (entries : List Entry) → ListText bytes.now entries → Gives result (Ok entries) }

        // Bytes are the text of one list at most.
        ensures unique { (a b : List Entry) → ListText bytes.now a → ListText bytes.now b → a ≡ b }

        // The faults of a list as a whole.
        ensures empty { (rest : List ℕ) → bytes.now ≡ list_text [] ++ rest → Gives result (Err no_entry) }
        ensures left_over { (place : ℕ) → IsLeftOver bytes.now place → Gives result (Err (der_at place)) }
        ensures limit { (place : ℕ) → IsPastLimit bytes.now place → Gives result (Err (past_limit_at place)) }

        // Each other answer is the first fault of the bytes, and their first fault is the answer.
        ensures refused { (fault : Fault) → Refused bytes.now fault → Gives result (Err fault) }
        ensures only_refused { IsRefused bytes.now result }

        ensures place { IsPlaceBelow (length bytes.now) result }
    {
        let entries = read_list(alloc, bytes)?;
        Ok(AuthList { entries })
    }

    /// The list of these entries. None if there is none or more than 1,000, or a range of a single number.
    #[tactic(auto, unfolding(crate::specs::Entry::is_list))]
    pub fn build(entries: Vec<Entry>) -> Option<AuthList>
        ensures { result ≡ list_of entries.items }
    {
        match entries.len() {
            1..=MOST if have_no_range_of_one(&entries) => Some(AuthList { entries }),
            _ => None,
        }
    }

    /// The entries in their order: 1 to 1,000, and no range of a single number.
    #[tactic(auto, unfolding(crate::specs::Entry::is_list))]
    pub fn entries(&self) -> &[Entry]
        ensures value { result.now ≡ self.now }
        ensures list { IsTrue (is_list self.now) }
        ensures some { 1 ≤ length self.now }
        ensures most { length self.now ≤ 1000 }
    {
        &self.entries
    }

    /// The one DER text of the list. `Memory` comes if there is no memory for it.
    #[tactic(auto, using(crate::proofs::ListLaws::list_again, crate::proofs::ListLaws::one_text))]
    pub fn write(&self) -> Result<Vec<u8>, Memory>
        // The text, and reading it gives this list.
        ensures text { IfOk result (λ text. ListText text.items self.now) }
        ensures reads_back { IfOk result (λ text. read_list text.items ≡ Ok self.now) }

        // Bytes from which this list is read are what it writes.
        ensures only { IfOk result (λ text. (bytes : List ℕ) → AllBytes bytes → read_list bytes ≡ Ok self.now
            → text.items ≡ bytes) }
    {
        let text = list_text(*self.entries.allocator(), &self.entries)?;
        Ok(text)
    }
}
