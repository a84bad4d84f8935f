//! One message at the gateway: it is screened, the chains of its PASSporTs are read from a shelf, and it is sent on. It
//! reads no message and writes no line: `gateway` does. The steps are those of `verify_rules`, `call_judging` and
//! `retarget`.
ghost use Rattle.std.specs.Prelude.{◌≡◌, Ok, IfErr, IsTrue};
ghost use Rattle.stir_outside.specs.Stays.{ShelfStays};
ghost use Rattle.verify_rules.specs.Rules.{early_rules};
ghost use Rattle.verify_rules.specs.Screened.{IsScreenedBy};
ghost use Rattle.retarget.specs.Hop.{hop_of, is_hop};
ghost use Rattle.stir_cmd.specs.Sending.{IsSentOn, IsSentScreened, MayCome, call_at, place_of};

use auth_service::Holder;
use call_judging::{CallChains, read_chains};
use cert_store::World;
use retarget::{Hop, HopFault, retarget};
use std::alloc::{AllocError, Global};
use stir_outside::{Answers, Shelf};
use tn_auth_list::AuthList;
use verify_rules::{ScreenFault, Screened, Settings, Verdict, screen};

/// Where a message goes through the gateway.
#[derive(Clone, Copy)]
pub(crate) struct Place<'a> {
    /// By what calls are judged.
    pub(crate) world: &'a World,
    /// The answers of the provider of signatures, which confirms and signs.
    pub(crate) answers: &'a Answers,
    /// The authority list of the holder of the key.
    pub(crate) list: &'a AuthList,
    /// How long a PASSporT is fresh, and how numbers are read.
    pub(crate) settings: Settings,
    /// When the message came, in Unix seconds.
    pub(crate) moment: u64,
}

/// Screens a message, reads the chains of its PASSporTs from the shelf, and sends it on: it gives the message that goes
/// on, or why there is none. What the rules of the call refuse comes as [`HopFault::Verdict`] too. `Unasked` and
/// `Provider` never come, since an answers file never fails.
///
/// The hop is one that [`Hop::is_valid`] takes, and numbers as the settings do.
pub(crate) fn send_on<S: Shelf>(
    alloc: Global,
    place: &Place<'_>,
    hop: &Hop<'_>,
    shelf: &mut S,
    bytes: &[u8],
) -> Result<Vec<u8>, HopFault>
    requires hop { IsTrue (is_hop (hop_of hop.now)) }
    requires local { hop.now.local ≡ place.now.settings.local }
    ensures sent { IsSentOn (place_of place.now) (S.files shelf.old) (S.counts shelf.old).faults
        (S.counts shelf.new).faults (hop_of hop.now) bytes.now (λ out. out.items) result }
    // That a chain is unknown is answered only if a read of the shelf failed, and was counted.
    ensures may { IfErr result (MayCome (S.counts shelf.old).faults (S.counts shelf.new).faults) }
    ensures shelf { ShelfStays S.Shelf shelf.old shelf.new }
{
    match screen(alloc, bytes, place.moment, &place.settings) {
        Ok(screened) => send_screened(alloc, place, hop, shelf, bytes, &screened),
        Err(ScreenFault::Refused(refusal)) => Err(HopFault::Verdict(Verdict::Refused(refusal))),
        Err(ScreenFault::Memory) => Err(HopFault::Memory),
    }
}

/// The same, of a message that was screened.
fn send_screened<S: Shelf>(
    alloc: Global,
    place: &Place<'_>,
    hop: &Hop<'_>,
    shelf: &mut S,
    bytes: &[u8],
    screened: &Screened,
) -> Result<Vec<u8>, HopFault>
    requires hop { IsTrue (is_hop (hop_of hop.now)) }
    requires local { hop.now.local ≡ place.now.settings.local }
    requires screened { IsScreenedBy early_rules (call_at (place_of place.now) bytes.now) (Ok screened.now) }
    ensures sent { IsSentScreened (place_of place.now) (S.files shelf.old) (S.counts shelf.old).faults
        (S.counts shelf.new).faults (hop_of hop.now) bytes.now (λ out. out.items) result }
    ensures may { IfErr result (MayCome (S.counts shelf.old).faults (S.counts shelf.new).faults) }
    ensures shelf { ShelfStays S.Shelf shelf.old shelf.new }
{
    let mut provider = place.answers.steady();
    let mut chains = CallChains::new(alloc);
    read_chains(
        alloc,
        place.world,
        shelf,
        &mut provider,
        screened,
        &mut chains,
    )?;
    let holder = Holder {
        list: place.list,
        table: &place.world.table,
    };
    retarget(
        alloc,
        bytes,
        screened,
        &chains,
        place.moment,
        hop,
        &holder,
        &mut provider,
    )
}
