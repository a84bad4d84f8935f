ghost use Rattle.std.specs.Prelude.{◌≡◌, ◌≤◌, [], Err};
ghost use Rattle.call_log.specs.Bytes.{MessageFrom};
ghost use Rattle.call_log.specs.Supply.{Asks, available};

use crate::ahead::Ahead;
use std::alloc::Global;
use stir_outside::{ReadFault, Source};

/// Reads so many bytes; `None` if the source ends before.
#[tactic(auto, using(crate::proofs::MessageSteps::none_taken, crate::proofs::MessageSteps::piece_taken, crate::proofs::MessageSteps::fewer_taken, crate::proofs::MessageSteps::nothing_taken, crate::proofs::MessageSteps::some_taken, crate::proofs::SupplyLaws::draws_none, crate::proofs::SupplyLaws::draws_on))]
pub(crate) fn next_message<I: Source>(
    alloc: Global,
    ahead: &mut Ahead,
    source: &mut I,
    length: usize,
) -> Result<Option<Vec<u8>>, ReadFault>
    ensures message { MessageFrom length
        (available ahead.old (I.left source.old)) (available ahead.new (I.left source.new)) result }
    ensures asks { Asks I.Source ahead.old source.old ahead.new source.new (result ≡ Err ReadFault.Source) }
{
    let mut message = Vec::with_capacity(alloc, length)?;
    while message.len() < length {
        let room = length - message.len();
        let count = ahead.copy_to(source, &mut message, room)?;
        if count == 0 {
            return Ok(None);
        }
    }
    Ok(Some(message))
}
