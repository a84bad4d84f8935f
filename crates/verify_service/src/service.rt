//! The service.
ghost use Rattle.live_desk.specs.Lists.{In};
ghost use Rattle.std.specs.Prelude.{◌≡◌, ◌↔◌, ℕ, IfOk, IsTrue};
ghost use Rattle.verify_service.specs.Service.{Follow, IsNew, all_follow, follows_on};

use crate::carried::Carried;
use crate::outcome::Outcome;
use crate::screening::ReadyCall;
use call_log::Call;
use cert_store::{Cache, World};
use replay_desk::Past;
use std::alloc::{AllocError, Global};
use std::marker::Model;
use text_grammar::LAST_SECOND;
use verify_rules::Settings;

/// The most calls of a round.
const MOST_CALLS: usize = 256;

/// The most chains that are held.
pub(crate) const MOST_CHAINS: usize = 4096;

/// Judges calls round by round: what it judges them by, which calls passed before, and the chains that it judged and
/// holds.
///
/// A contract sees the settings, the chain map, the anchors, the code table, the past, and the chains that are held. It
/// also sees the number and moment of the last call that was handed in, and whether a round may be its newest.
#[derive(Drop)]
pub struct Service {
    pub(crate) settings: Settings,
    pub(crate) world: World,
    pub(crate) past: Past,
    pub(crate) cache: Cache,
    pub(crate) number: u32,
    pub(crate) moment: u64,
    /// Whether a round was prepared since the state was taken.
    pub(crate) begun: bool,
    /// The calls of a round that was closed. The next round takes over their places.
    pub(crate) places: Vec<ReadyCall>,
}

impl Model for Service {
    ghost use Rattle.verify_service.specs.Service.{IsSound, ServiceView};

    ghost Value = { ServiceView };

    ghost view = { λ s. record {
      settings = s.settings;
      chains = s.world.chains;
      anchors = s.world.anchors;
      table = s.world.table;
      past = s.past;
      held = s.cache;
      number = s.number;
      moment = s.moment;
      begun = s.begun;
    } };

    ghost invariant = { λ s. IsSound s.cache.capacity s.number s.moment s.past };
}

impl Service {
    /// A service that has judged no call yet. `Memory` is the only error. [`Service::restore`] makes one that goes on
    /// from an earlier run.
    #[tactic(auto, using(crate::proofs::KeepingLaws::none_kept))]
    pub fn new(alloc: Global, settings: Settings, world: World) -> Result<Service, AllocError>
        ensures { IfOk result (IsNew settings world) }
    {
        let cache = Cache::new(alloc, MOST_CHAINS)?;
        Ok(Service {
            settings,
            world,
            past: Past::new(alloc),
            cache,
            number: 0,
            moment: 0,
            begun: false,
            places: Vec::new(alloc),
        })
    }

    /// Whether these calls may be handed in as a round: they are 1 to 256; their numbers rise, from above that of the
    /// last call that was handed in, and are below 4,294,967,295; and their moments never fall, and none is after the
    /// year 9999.
    #[tactic(auto, using(crate::proofs::FollowLaws::follow_means, crate::proofs::FollowLaws::follow_none, crate::proofs::FollowLaws::follow_many))]
    pub fn follows(&self, calls: &[Call]) -> bool
        ensures { IsTrue result ↔ Follow self.now.number self.now.moment calls.now }
    {
        if calls.is_empty() || calls.len() > MOST_CALLS {
            return false;
        }
        all_follow(self.number, self.moment, calls)
    }
}

impl Service {
    /// Closes a round that was carried out, as [`Carried::close`] does. The next round takes over the places of its
    /// calls, so that what these hold is given back by all threads that screen calls, and not by the one that closes.
    pub fn close(&mut self, carried: Carried) -> Vec<Outcome>
        ensures outcomes { result.items ≡ carried.outcomes }
        ensures named { (p : ℕ × ℕ) → In p carried.seat.losses → In p carried.seat.wins }
        ensures same { self.new ≡ self.old }
    {
        let (outcomes, places) = carried.take_apart();
        self.places = places;
        outcomes
    }

    /// It may hold 4,096 chains, as a law for callers: it does nothing when it runs.
    pub(crate) fn holds_many(&self)
        ensures { self.now.held.capacity ≡ 4096 }
    {
        let _cache = &self.cache;
    }
}

/// Whether each of these calls follows on the one before it, from this number and this moment.
#[tactic(auto, using(crate::proofs::FollowLaws::follows_more, crate::proofs::FollowLaws::follows_not))]
fn all_follow(number: u32, moment: u64, calls: &[Call]) -> bool
    ensures { result ≡ all_follow number moment calls.now }
{
    let mut number = number;
    let mut moment = moment;
    'calls: for call in calls {
        if !follows_on(number, moment, call) {
            return false;
        }
        number = call.number();
        moment = call.moment();
    }
    true
}

/// Whether a call follows on one of this number and this moment.
fn follows_on(number: u32, moment: u64, call: &Call) -> bool
    ensures { result ≡ follows_on number moment call.now }
{
    number < call.number()
        && call.number() < u32::MAX
        && moment <= call.moment()
        && call.moment() <= LAST_SECOND
}
