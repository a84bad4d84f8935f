//! The rules that the entries of a state meet.
ghost use Rattle.std.specs.Prelude.{◌≡◌, ◌↔◌, ◌<◌, ℕ, true, IsTrue, Some, None, slice_index};
ghost use Rattle.state_text.specs.Reading.{follows, last_ticket};
ghost use Rattle.state_text.specs.State.{AreEntries, EachIsKept, IsTicket, Rises, is_above};

use crate::kept::Kept;

/// The last second at which a PASSporT may be fresh: a day, the longest window, after the last second of the year 9999.
pub(crate) const MOST_LAST: u64 = 253_402_387_199;

/// Whether these are entries of calls up to this number, whose tickets rise strictly.
#[tactic(auto, using(crate::proofs::RuleLaws::entries_more, crate::proofs::RuleLaws::entries_not, crate::proofs::RuleLaws::kept_not))]
pub(crate) fn are_entries(call: u32, kept: &[([u8; 32], Kept)]) -> bool
    ensures rules { IsTrue result ↔ AreEntries call None kept.now }
    ensures made { EachIsKept call kept.now → Rises None kept.now → result ≡ true }
{
    'entries: for index in 0..kept.len() {
        if !follows(call, &kept[..index], &kept[index]) {
            return false;
        }
    }
    true
}

/// Whether an entry may come after these.
fn follows(call: u32, before: &[([u8; 32], Kept)], entry: &([u8; 32], Kept)) -> bool
    ensures exact { result ≡ follows call before.now entry.now }
    ensures ticket { IsTicket entry.now.0 }
{
    ticket_law(&entry.0);
    1 <= entry.1.call
        && entry.1.call <= call
        && entry.1.last <= MOST_LAST
        && is_above(before, &entry.0)
}

/// Whether the ticket is above that of the last entry.
pub(crate) fn is_above(kept: &[([u8; 32], Kept)], ticket: &[u8; 32]) -> bool
    ensures { result ≡ is_above (last_ticket kept.now) ticket.now }
{
    match kept.last() {
        Some(last) => is_below(&last.0, ticket),
        None => true,
    }
}

/// Whether a ticket is below another, byte by byte from the first on.
fn is_below(before: &[u8; 32], ticket: &[u8; 32]) -> bool
    ensures { result ≡ is_above (Some before.now) ticket.now }
{
    before.cmp(ticket).is_lt()
}

/// A law, with nothing to do: a ticket is 32 bytes.
fn ticket_law(ticket: &[u8; 32])
    ensures { IsTicket ticket.now }
{
    bytes_law(ticket.as_slice());
}

/// A law, with nothing to do: bytes are below 256.
fn bytes_law(bytes: &[u8])
    ensures { (i : ℕ) → slice_index bytes.now i < 256 }
{
    let _ = bytes;
}
