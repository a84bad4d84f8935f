ghost use Rattle.std.specs.Prelude.{◌≡◌, ℕ, ◌+◌, ◌^◌, ◌<◌, ◌≤◌, ◌==◌, ◌&&◌, [], false, OnErr};
ghost use Rattle.std.specs.Char.{is_ascii_digit};
ghost use Rattle.stir_outside.specs.Count.{Rose};
ghost use Rattle.call_log.specs.Number.{GoesOn, NumberFrom};
ghost use Rattle.call_log.specs.Supply.{Draws, available, supply_of};

use crate::ahead::Ahead;
use stir_outside::{Failed, Source};

/// Decimal digits that were read: the number that they write, and how many they are.
#[derive(Clone, Copy)]
pub(crate) struct Digits {
    pub(crate) value: u64,
    pub(crate) count: u64,
}

impl Digits {
    /// Whether the digits are `0`, after which no further digit may come.
    fn is_zero(self) -> bool
        ensures { result ≡ (self.count == 1 && self.value == 0) }
    {
        self.count == 1 && self.value == 0
    }

    /// These digits and one more; `None` if no number of at most `most` begins so.
    fn with(self, byte: u8, most: u64) -> Option<Digits>
        requires most { most < 2 ^ 40 }
        requires value { self.value ≤ most }
        requires count { self.count ≤ self.value + 1 }
        ensures { GoesOn most self byte result }
    {
        if !byte.is_ascii_digit() {
            return None;
        }
        if self.is_zero() {
            return None;
        }
        let value = self.value * 10 + (byte - b'0') as u64;
        if value > most {
            return None;
        }
        Some(Digits {
            value,
            count: self.count + 1,
        })
    }
}

/// Reads a number of at most `most` in decimal digits, without a leading zero except in `0` itself, and the byte `last`
/// after it. `None` at the first byte with which no such number goes on, or if the source ends.
#[tactic(auto, using(crate::proofs::NumberSteps::took_none, crate::proofs::NumberSteps::took_more, crate::proofs::NumberSteps::value_within, crate::proofs::NumberSteps::few_digits, crate::proofs::NumberSteps::number_taken, crate::proofs::NumberSteps::no_digit, crate::proofs::NumberSteps::breaks_off, crate::proofs::NumberSteps::number_ended, crate::proofs::NumberSteps::number_failed, crate::proofs::SupplyLaws::draws_none, crate::proofs::SupplyLaws::draws_on))]
pub(crate) fn next_number<I: Source>(
    ahead: &mut Ahead,
    source: &mut I,
    most: u64,
    last: u8,
) -> Result<Option<Digits>, Failed>
    requires most { most < 2 ^ 40 }
    requires last { is_ascii_digit last ≡ false }
    ensures number { NumberFrom most last
        (available ahead.old (I.left source.old)) (available ahead.new (I.left source.new)) result }
    ensures draws { Draws (supply_of I.Source ahead.old.ended source.old)
        (supply_of I.Source ahead.new.ended source.new) }
    ensures rose { OnErr result (Rose (I.faults source.old) (I.faults source.new)) }
    ensures drained { OnErr result (available ahead.new (I.left source.new) ≡ I.left source.new) }
{
    let mut digits = Digits { value: 0, count: 0 };
    loop {
        let Some(byte) = ahead.next_byte(source)? else {
            return Ok(None);
        };
        if byte == last {
            return if digits.count == 0 {
                Ok(None)
            } else {
                Ok(Some(digits))
            };
        }
        let Some(more) = digits.with(byte, most) else {
            return Ok(None);
        };
        digits = more;
    }
}
