ghost use Rattle.std.specs.Prelude.{◌≡◌, ◌^◌, ◌-◌, ◌+◌, ◌<◌, ◌≤◌, [], ◌∷◌, ◌++◌, Err};
ghost use Rattle.std.specs.Fmt.{decimal};
ghost use Rattle.call_log.specs.Entry.{headed, most_entries, most_message_length};
ghost use Rattle.call_log.specs.Number.{IsNumber};
ghost use Rattle.call_log.specs.Reading.{Finds};
ghost use Rattle.call_log.specs.Supply.{Asks, available};
ghost use Rattle.text_grammar.specs.Moment.{last_second};

use crate::ahead::Ahead;
use crate::call::Call;
use crate::digits::{Digits, next_number};
use crate::fault::LogFault;
use crate::message::next_message;
use crate::progress::Progress;
use std::alloc::Global;
use std::marker::Model;
use stir_outside::Source;
use text_grammar::LAST_SECOND;

/// How long a message may be.
const MOST_LENGTH: u64 = 131_072;

/// How many entries a log may have.
const MOST_ENTRIES: u32 = 1_000_000;

/// A call that was read, and how many bytes its entry has.
#[derive(Drop)]
pub(crate) struct Found {
    pub(crate) call: Call,
    pub(crate) size: u64,
}

impl Model for Found {
    ghost use Rattle.std.specs.Prelude.{◌≡◌, length};
    ghost use Rattle.call_log.specs.Entry.{Entry, entry_text};

    ghost Value = { Entry };

    ghost view = { λ f. f.call };

    ghost invariant = { λ f. f.size ≡ length (entry_text f.call) };
}

/// Reads the next entry; `None` if the log has ended before it.
#[tactic(auto, using(crate::proofs::SupplyLaws::draws_on))]
pub(crate) fn next_entry<I: Source>(
    alloc: Global,
    ahead: &mut Ahead,
    source: &mut I,
    passed: Progress,
) -> Result<Option<Found>, LogFault>
    requires count { passed.count ≤ most_entries }
    requires number { passed.number < 2 ^ 32 - 1 }
    ensures found { Finds passed []
        (available ahead.old (I.left source.old)) (available ahead.new (I.left source.new)) result }
    ensures asks { Asks I.Source ahead.old source.old ahead.new source.new (result ≡ Err LogFault.Source) }
{
    let place = passed.place;
    let Some(first) = ahead.next_byte(source)? else {
        return Ok(None);
    };
    if passed.count == MOST_ENTRIES {
        return Err(LogFault::Many { place });
    }
    if first != b'@' {
        return Err(LogFault::Grammar { place });
    }
    after_at(alloc, ahead, source, passed)
}

/// Reads on after the `@`.
#[tactic(auto, using(crate::proofs::SupplyLaws::draws_on))]
fn after_at<I: Source>(
    alloc: Global,
    ahead: &mut Ahead,
    source: &mut I,
    passed: Progress,
) -> Result<Option<Found>, LogFault>
    requires count { passed.count < most_entries }
    requires number { passed.number < 2 ^ 32 - 1 }
    ensures found { Finds passed (64 ∷ [])
        (available ahead.old (I.left source.old)) (available ahead.new (I.left source.new)) result }
    ensures asks { Asks I.Source ahead.old source.old ahead.new source.new (result ≡ Err LogFault.Source) }
{
    let Some(moment) = next_number(ahead, source, LAST_SECOND, b' ')? else {
        return Err(LogFault::Grammar {
            place: passed.place,
        });
    };
    after_moment(alloc, ahead, source, passed, moment)
}

/// Reads on after the moment and its space.
#[tactic(auto, using(crate::proofs::SupplyLaws::draws_on))]
fn after_moment<I: Source>(
    alloc: Global,
    ahead: &mut Ahead,
    source: &mut I,
    passed: Progress,
    moment: Digits,
) -> Result<Option<Found>, LogFault>
    requires count { passed.count < most_entries }
    requires number { passed.number < 2 ^ 32 - 1 }
    requires moment { IsNumber last_second moment }
    ensures found { Finds passed (64 ∷ (decimal moment.value ++ 32 ∷ []))
        (available ahead.old (I.left source.old)) (available ahead.new (I.left source.new)) result }
    ensures asks { Asks I.Source ahead.old source.old ahead.new source.new (result ≡ Err LogFault.Source) }
{
    let place = passed.place;
    let Some(length) = next_number(ahead, source, MOST_LENGTH, b'\n')? else {
        return Err(LogFault::Grammar { place });
    };
    if moment.value < passed.moment {
        return Err(LogFault::Backward { place });
    }
    after_header(alloc, ahead, source, passed, moment, length)
}

/// Reads on after the header.
#[tactic(auto, using(crate::proofs::SupplyLaws::draws_on))]
fn after_header<I: Source>(
    alloc: Global,
    ahead: &mut Ahead,
    source: &mut I,
    passed: Progress,
    moment: Digits,
    length: Digits,
) -> Result<Option<Found>, LogFault>
    requires count { passed.count < most_entries }
    requires number { passed.number < 2 ^ 32 - 1 }
    requires moment { IsNumber last_second moment }
    requires length { IsNumber most_message_length length }
    requires forward { passed.moment ≤ moment.value }
    ensures found { Finds passed (headed moment.value length.value [])
        (available ahead.old (I.left source.old)) (available ahead.new (I.left source.new)) result }
    ensures asks { Asks I.Source ahead.old source.old ahead.new source.new (result ≡ Err LogFault.Source) }
{
    let Some(message) = next_message(alloc, ahead, source, length.value as usize)? else {
        return Err(LogFault::Grammar {
            place: passed.place,
        });
    };
    let size = 3 + moment.count + length.count + length.value;
    let call = Call::new(passed.number + 1, moment.value, message);
    Ok(Some(Found { call, size }))
}
