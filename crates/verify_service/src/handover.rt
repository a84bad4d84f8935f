//! Handing on from run to run.
ghost use Rattle.std.specs.List.{slice_get};
ghost use Rattle.std.specs.Map.{lookup};
ghost use Rattle.std.specs.Prelude.{◌≡◌, ◌≤◌, ℕ, List, false, length, IfOk, None};
ghost use Rattle.std.specs.Str.{bytes_eq};
ghost use Rattle.replay_desk.specs.Past.{found};
ghost use Rattle.state_text.specs.State.{IsState, Rises};
ghost use Rattle.verify_service.specs.Handing.{HandsOn, IsRestored, IsStateOf};
ghost use Rattle.verify_service.specs.Service.{EachKept, IsSameConfig};

use crate::service::{MOST_CHAINS, Service};
use cert_store::{Cache, World};
use replay_desk::{Kept, Past, State};
use std::alloc::{AllocError, Global};
use verify_rules::Settings;

impl Service {
    /// A service that goes on from the state of an earlier run: from its last call, and with what it keeps. The state
    /// was judged by as many seconds as `past` of the settings says. `Memory` is the only error.
    pub fn restore(
        alloc: Global,
        settings: Settings,
        world: World,
        state: &State,
    ) -> Result<Service, AllocError>
        requires window { state.now.window ≡ settings.past }
        ensures { IfOk result (IsRestored settings world state.now) }
    {
        let past = past_of(alloc, state)?;
        let cache = Cache::new(alloc, MOST_CHAINS)?;
        Ok(Service {
            settings,
            world,
            past,
            cache,
            number: state.call(),
            moment: state.moment(),
            begun: false,
            places: Vec::new(alloc),
        })
    }

    /// What is handed on to the next run: the last call, and what is left of the past after a purge by the moment of
    /// that call. Refused or not, this ends the round that is prepared: from here on it isn't the newest. `Memory` is
    /// the only error.
    pub fn state(&mut self) -> Result<State, AllocError>
        ensures state { IfOk result (IsStateOf self.old) }
        ensures stays { HandsOn self.old self.new }
        ensures config { IsSameConfig self.old self.new }
        ensures ended { self.new.begun ≡ false }
    {
        let window = self.window();
        self.begun = false;
        self.past.purge(self.moment);
        let kept = self.past.list()?;
        match State::new(window, self.number, self.moment, kept) {
            Some(state) => Ok(state),
            None => unreachable!(),
        }
    }

    /// How many seconds old a PASSporT may be.
    fn window(&self) -> u64
        ensures value { result ≡ self.now.settings.past }
        ensures most { result ≤ 86400 }
    {
        self.settings.past
    }
}

/// The past that a state keeps.
#[tactic(auto, using(crate::proofs::HandingLaws::restored_kept))]
fn past_of(alloc: Global, state: &State) -> Result<Past, AllocError>
    ensures found { IfOk result (λ past. (ticket : List ℕ)
        → found past ticket ≡ lookup (bytes_eq ticket) state.now.kept) }
    ensures kept { IfOk result (λ past. EachKept state.now.call past) }
    ensures rules { IsState state.now }
{
    let kept = state.kept();
    let mut past = Past::new(alloc);
    past.reserve(kept.len())?;
    add_kept(&mut past, kept);
    Ok(past)
}

/// Keeps these entries, of tickets that rise. It takes no memory: there is room for them.
fn add_kept(past: &mut Past, kept: &[([u8; 32], Kept)])
    requires none { (ticket : List ℕ) → found past.old ticket ≡ None }
    requires room { length kept.now ≤ past.old.spare }
    requires rises { Rises None kept.now }
    ensures { (ticket : List ℕ) → found past.new ticket ≡ lookup (bytes_eq ticket) kept.now }
{
    'entries: for index in 0..kept.len() {
        let (ticket, one) = kept[index];
        past.add(ticket, one);
    }
}
