//! The calls that passed, by ticket.
ghost use Rattle.std.specs.Prelude.{◌≡◌, ◌≢◌, ◌≤◌, ◌<◌, ◌+◌, ℕ, List, Some, None, IfOk, OnOk, OnErr};
ghost use Rattle.std.specs.List.{IsDistinct};
ghost use Rattle.std.specs.Map.{keys_of, lookup};
ghost use Rattle.std.specs.Str.{bytes_eq};
ghost use Rattle.std.specs.HashMap as hash;
ghost use Rattle.replay_desk.specs.Past.{found, kept_from, unless_below};
ghost use Rattle.state_text.specs.State.{Rises};

use crate::ticket_key::TicketKey;
use state_text::Kept;
use std::alloc::{AllocError, Global};
use std::collections::HashMap;
use std::marker::Model;

/// Which call passed on which ticket, the SHA-256 of a PASSporT's signing input, and until when.
///
/// A contract sees a finite map, and `spare`: how many tickets can be added without memory.
#[derive(Drop)]
pub struct Past {
    /// The allocator, for the list of all calls.
    alloc: Global,
    /// The calls by ticket, and beside them calls that were dropped and aren't taken out yet.
    calls: HashMap<TicketKey, Kept>,
    /// A call was dropped if its last second is below this moment, a Unix time.
    moment: u64,
    /// How many tickets can be added; the map may have room for more.
    spare: usize,
}

impl Model for Past {
    ghost use Rattle.std.specs.Prelude.{◌≤◌};
    ghost use Rattle.std.specs.HashMap as hash;
    ghost use Rattle.replay_desk.specs.Past.{PastView, kept_from};

    ghost Value = { PastView };

    ghost view = { λ past. record { entries = kept_from past.moment past.calls.entries; spare = past.spare } };

    ghost invariant = { λ past. past.spare ≤ hash.spare past.calls };
}

impl Past {
    /// A past without calls. It takes no memory.
    pub fn new(alloc: Global) -> Past
        ensures { (ticket : List ℕ) → found result ticket ≡ None }
    {
        Past {
            alloc,
            calls: HashMap::new(alloc),
            moment: 0,
            spare: 0,
        }
    }

    /// How many tickets can be added before the next `reserve`.
    pub fn spare(&self) -> usize
        ensures { result ≡ self.now.spare }
    {
        self.spare
    }

    /// Makes room for so many tickets more. If there isn't, it takes out the calls that were dropped, and makes room
    /// for as many as are left, so that this is done seldom. The only error is that memory runs out, and changes
    /// nothing.
    pub fn reserve(&mut self, count: usize) -> Result<(), AllocError>
        ensures same { (ticket : List ℕ) → found self.new ticket ≡ found self.old ticket }
        ensures room { OnOk result (count ≤ self.new.spare) }
        ensures kept { self.old.spare ≤ self.new.spare }
        ensures refused { OnErr result (self.new ≡ self.old) }
    {
        if count <= self.spare {
            return Ok(());
        }
        take_out(&mut self.calls, self.moment);
        let room = count.max(self.calls.len());
        self.calls.reserve(room)?;
        self.spare = room;
        Ok(())
    }

    /// Keeps a call that passed on a ticket that isn't held. It takes no memory.
    pub fn add(&mut self, ticket: [u8; 32], kept: Kept)
        requires room { 1 ≤ self.old.spare }
        requires free { found self.old ticket ≡ None }
        ensures added { found self.new ticket ≡ Some kept }
        ensures others { (other : List ℕ) → other ≢ ticket → found self.new other ≡ found self.old other }
        ensures spare { self.old.spare ≤ self.new.spare + 1 }
    {
        self.moment = lowered(&mut self.calls, self.moment, kept.last);
        let _one_each = self.calls.len();
        let added = self.calls.insert(TicketKey::new(&ticket), kept);
        drop(added);
        self.spare -= 1;
    }

    /// The call that passed on the ticket; None exactly if the ticket isn't held.
    pub fn find(&self, ticket: &[u8; 32]) -> Option<Kept>
        ensures { result ≡ found self.now ticket.now }
    {
        let _one_each = self.calls.len();
        unless_below(
            self.moment,
            self.calls.get(&TicketKey::new(ticket)).copied(),
        )
    }

    /// Drops exactly the calls whose PASSporT is fresh no longer: those whose last second is below the moment, a Unix
    /// time. It takes no memory.
    pub fn purge(&mut self, moment: u64)
        ensures calls { (ticket : List ℕ) → found self.new ticket ≡ unless_below moment (found self.old ticket) }
        ensures spare { self.old.spare ≤ self.new.spare }
    {
        let _one_each = self.calls.len();
        self.moment = self.moment.max(moment);
    }

    /// All tickets with their calls, in rising order of tickets. The only error is that memory runs out.
    pub fn list(&self) -> Result<Vec<([u8; 32], Kept)>, AllocError>
        ensures same { IfOk result (λ list. (ticket : List ℕ)
            → lookup (bytes_eq ticket) list.items ≡ found self.now ticket) }
        ensures rises { IfOk result (λ list. Rises None list.items) }
    {
        let list = listed(self.alloc, &self.calls, self.moment)?;
        Ok(sorted(list))
    }
}

/// A call, unless its last second is below the moment.
fn unless_below(moment: u64, call: Option<Kept>) -> Option<Kept>
    ensures { result ≡ unless_below moment call }
{
    let kept = call?;
    if kept.last < moment { None } else { Some(kept) }
}

/// Takes out the calls whose last second is below the moment.
fn take_out(calls: &mut HashMap<TicketKey, Kept>, moment: u64)
    ensures left { calls.new.entries ≡ kept_from moment calls.old.entries }
    ensures spare { hash.spare calls.old ≤ hash.spare calls.new }
{
    calls.retain(|_, kept| kept.last >= moment);
}

/// A moment that isn't after this second, with the same calls from it on. That is the moment itself, or else the others
/// are taken out.
fn lowered(calls: &mut HashMap<TicketKey, Kept>, moment: u64, last: u64) -> u64
    ensures low { result ≤ last }
    ensures same { kept_from result calls.new.entries ≡ kept_from moment calls.old.entries }
    ensures spare { hash.spare calls.old ≤ hash.spare calls.new }
{
    if moment <= last {
        return moment;
    }
    take_out(calls, moment);
    last
}

/// The tickets with their calls from the moment on, in no order.
fn listed(
    alloc: Global,
    calls: &HashMap<TicketKey, Kept>,
    moment: u64,
) -> Result<Vec<([u8; 32], Kept)>, AllocError>
    ensures same { IfOk result (λ list. list.items ≡ kept_from moment calls.now.entries) }
    ensures unique { IfOk result (λ list. IsDistinct bytes_eq (keys_of list.items)) }
{
    let mut list = Vec::new(alloc);
    for (ticket, kept) in calls.iter() {
        if kept.last >= moment {
            list.push((*ticket.bytes(), *kept))?;
        }
    }
    Ok(list)
}

/// Entries of different tickets, in rising order of these.
#[tactic(auto, using(crate::proofs::ListLaws::sorted_same, crate::proofs::ListLaws::sorted_rises))]
fn sorted(mut list: Vec<([u8; 32], Kept)>) -> Vec<([u8; 32], Kept)>
    requires { IsDistinct bytes_eq (keys_of list.items) }
    ensures same { (ticket : List ℕ) → lookup (bytes_eq ticket) result.items ≡ lookup (bytes_eq ticket) list.items }
    ensures rises { Rises None result.items }
{
    list.sort_unstable();
    list
}
