//! Sending a call that passed to another number.
ghost use Rattle.std.specs.Prelude.{◌≡◌, ◌+◌, ◌≤◌, ℕ, true, length, IfErr, IfOk, IsTrue};
ghost use Rattle.stir_outside.specs.Count.{Rose};
ghost use Rattle.stir_outside.specs.Stays.{ProviderStays};
ghost use Rattle.auth_service.specs.Order.{holder_of};
ghost use Rattle.retarget.specs.Answer.{names_provider};
ghost use Rattle.retarget.specs.Asking.{AsksNoMore, IsAskedOnce, IsLeftAlone, IsUnasked};
ghost use Rattle.retarget.specs.Below.{Below};
ghost use Rattle.retarget.specs.Hop.{hop_of, is_hop};
ghost use Rattle.retarget.specs.NextHop.{BreaksNone};
ghost use Rattle.retarget.specs.Outcome.{IsRetargeted, TellsOfDiversion};
ghost use Rattle.retarget.specs.Promise.{CausedOnward, GivesOnward, MayNotSign};
ghost use Rattle.retarget.specs.Screened.{IsScreenedFor};
ghost use Rattle.retarget.specs.Verdicts.{IsAfterVerdict, IsFinished, NamesNoPass, verdict_of};

use crate::fault::HopFault;
use crate::hop::Hop;
use crate::laws::laws;
use crate::onward::{called_now, onward};
use crate::written::written;
use auth_service::Holder;
use sip_message::Message;
use std::alloc::Global;
use stir_outside::Provider;
use verify_rules::{Chains, Screened, Verdict, finish};

/// Sends a call on (RFC 8946, section 4). It tries the rules of the chains on it over the chains of its PASSporTs. It
/// gives the message with the hop's request URI and one more Identity field, in the last line of the head. That field
/// holds a PASSporT of the type `div`, from the calling number to the target's. Its diverted number is the one that was
/// called before, and it is signed by the hop's key.
///
/// The call is what [`screen`](verify_rules::screen) gave for these bytes at this moment, by settings that number as
/// the hop does; there is one chain for each of its PASSporTs; and the hop is one that [`Hop::is_valid`] takes.
///
/// The faults are tried in the order of [`HopFault`]. The provider signs at most once, and only if none of those up to
/// `Authority` comes. `Provider` comes only if it failed while it was to sign, and `Memory` only if memory runs out.
pub fn retarget<C: Chains, P: Provider>(
    alloc: Global,
    bytes: &[u8],
    screened: &Screened,
    chains: &C,
    moment: u64,
    hop: &Hop<'_>,
    holder: &Holder<'_>,
    provider: &mut P,
) -> Result<Vec<u8>, HopFault>
    requires screened { IsScreenedFor bytes.now moment hop.now.local screened.now }
    requires one_each { length (C.states chains.now) ≡ length screened.now.readings }
    requires hop { IsTrue (is_hop (hop_of hop.now)) }

    // What the rules of the chains give, and in each world that judges the call so: the verdict that is answered, and
    // else that they hold.
    ensures finished { IsFinished (P.says provider.old) holder.now.table.now moment screened.now.readings
        (C.states chains.now) (P.faults provider.old) (P.faults provider.new) (verdict_of result) }
    ensures no_pass { IfErr result NamesNoPass }

    // The bytes that go on, or the first of the faults 21 to 26.
    ensures exact { GivesOnward (λ out. out.items) bytes.now screened.now.readings (hop_of hop.now)
        (holder_of holder.now) (P.signs provider.old) result }

    // What goes on: the message with the other request URI, and what the signer writes into it.
    ensures written { IfOk result (λ out. IsRetargeted bytes.now screened.now.readings (hop_of hop.now)
        (holder_of holder.now) (P.signs provider.old) out.items) }

    // Each fault in the words of what shows it.
    ensures causes { IfErr result (λ fault. CausedOnward bytes.now screened.now.readings (hop_of hop.now)
        (holder_of holder.now) (P.signs provider.old) fault) }

    // At the next hop it breaks none of the rules of the call and the chains, in each world and at each moment for
    // which the conditions hold.
    ensures next { IfOk result (λ out. BreaksNone out.items (hop_of hop.now) (holder_of holder.now)
        (P.says provider.old) screened.now.readings (C.states chains.now)) }

    // In every case its last PASSporT has the call's orig, the earlier number as div and the target's number as its one
    // dest.
    ensures link { IfOk result (λ out. TellsOfDiversion bytes.now screened.now.readings (hop_of hop.now) out.items) }

    // If a verdict is answered, the provider was asked about PASSporTs alone: nothing is signed of a call that doesn't
    // pass.
    ensures unsigned { IfErr result
        (AsksNoMore (length screened.now.readings) (P.asks provider.old) (P.asks provider.new)) }

    // The provider's failure has its count, and it failed at signing; it isn't asked to sign, and isn't named, if one
    // of the faults 21 to 25 is there.
    ensures failed { names_provider result ≡ true → Rose (P.faults provider.old) (P.faults provider.new) }
    ensures failed_signing { names_provider result ≡ true
        → Rose (P.sign_faults provider.old) (P.sign_faults provider.new) }
    ensures withheld { MayNotSign bytes.now screened.now.readings (hop_of hop.now) (holder_of holder.now)
        → IsUnasked (length screened.now.readings) (P.asks provider.old) (P.asks provider.new) result }

    // What the call does to the provider.
    ensures asks { P.asks provider.new ≤ P.asks provider.old + length screened.now.readings + 1 }
    ensures asks_stay { P.asks provider.old ≤ P.asks provider.new }
    ensures provider { ProviderStays P.Provider provider.old provider.new }
{
    laws();
    let _some = screened.count();
    let verdict = finish(screened, chains, moment, holder.table, provider);
    match verdict {
        Verdict::Passed => pass_on(alloc, bytes, screened, hop, holder, provider),
        Verdict::Refused(_) | Verdict::Unread(_) | Verdict::Unasked(_) => {
            Err(HopFault::Verdict(verdict))
        }
    }
}

/// The same, of a call of which the rules of the chains hold.
fn pass_on<P: Provider>(
    alloc: Global,
    bytes: &[u8],
    screened: &Screened,
    hop: &Hop<'_>,
    holder: &Holder<'_>,
    provider: &mut P,
) -> Result<Vec<u8>, HopFault>
    requires screened { (moment : ℕ) × IsScreenedFor bytes.now moment hop.now.local screened.now }
    requires hop { IsTrue (is_hop (hop_of hop.now)) }
    ensures exact { GivesOnward (λ out. out.items) bytes.now screened.now.readings (hop_of hop.now) (holder_of holder.now) (P.signs provider.old) result }
    ensures written { IfOk result (λ out. IsRetargeted bytes.now screened.now.readings (hop_of hop.now)
        (holder_of holder.now) (P.signs provider.old) out.items) }
    ensures causes { IfErr result (λ fault. CausedOnward bytes.now screened.now.readings (hop_of hop.now)
        (holder_of holder.now) (P.signs provider.old) fault) }
    ensures asked { IsAskedOnce P.Provider provider.old provider.new result }
    ensures provider { ProviderStays P.Provider provider.old provider.new }
    ensures withheld { MayNotSign bytes.now screened.now.readings (hop_of hop.now) (holder_of holder.now)
        → IsLeftAlone (P.asks provider.old) (P.asks provider.new) result }
    ensures passed { IfErr result IsAfterVerdict }
{
    laws();
    let message = match Message::read(alloc, bytes) {
        Ok(message) => message,
        Err(_) => return Err(HopFault::Memory),
    };
    let Some(earlier) = called_now(&message, screened, &hop.local) else {
        return Err(HopFault::Memory);
    };
    match onward(&message, &earlier, screened, hop) {
        Ok(_) => written(alloc, bytes, earlier, hop, holder, provider),
        Err(fault) => Err(fault),
    }
}
