//! The command `retarget`: a message that is judged, and sent on to another number.
ghost use Rattle.std.specs.Prelude.{◌≡◌, ◌++◌, true, codes, is_some, IfOk, IsTrue};
ghost use Rattle.retarget.specs.Hop.{hop_of, is_hop};
ghost use Rattle.stir_cmd.specs.Sending.{place_of};
ghost use Rattle.stir_outside.specs.Stays.{ShelfStays};
ghost use Rattle.stir_outside.specs.Status.{status_number};
ghost use Rattle.stir_words.specs.Seen.{retargeting_view};
ghost use Rattle.stir_cmd.specs.Gateway.{GatewayGives, GatewayRefuses, HasHopLine, HasVerdictLine, HeldFor};
ghost use Rattle.stir_cmd.specs.Gateway.{gateway_answering, gateway_course, hop_by, place_with, verdict_line};
ghost use Rattle.stir_cmd.specs.Input.{RanInput};
ghost use Rattle.stir_cmd.specs.InputCode.{RepliesTo};
ghost use Rattle.stir_cmd.specs.Outside.{io_of, outside_of};
ghost use Rattle.verify_service.specs.Report.{said_text};

use crate::answer::{Answer, Answered};
use crate::input::write_answer;
use crate::sending::{Place, send_on};
use crate::settings::settings_of;
use crate::sign::{list_of, unsigned_line};
use crate::verify::end_at;
use cert_store::World;
use retarget::{Hop, HopFault};
use sip_message::MOST_BYTES;
use std::alloc::{AllocError, Global};
use stir_files::{RetargetingMaterials, read_retargeting};
use stir_outside::{
    Answers, ReadFault, Shelf, Sink, Source, Status, end_with, memory_line, read_up_to,
};
use stir_words::Retargeting;
use verify_rules::Verdict;
use verify_service::{Outcome, said};
use x509_profile::Certificate;

/// Reads the named files and then the message that the input is, judges it, and writes the message that goes on, or the
/// line that says why there is none. Of the input no more is read than the longest message and one byte.
pub(crate) fn send_message<S: Shelf, I: Source, O: Sink>(
    alloc: Global,
    words: &Retargeting<'_>,
    shelf: &mut S,
    input: &mut I,
    sink: &mut O,
) -> u8
    requires { IsTrue (is_hop (hop_by (retargeting_view words.now))) }
    ensures ran { (gateway_course (retargeting_view words.now)).Came
        (outside_of S.Shelf I.Source O.Sink shelf.old input.old sink.old)
        (outside_of S.Shelf I.Source O.Sink shelf.new input.new sink.new) result }
    ensures same_files { S.files shelf.new ≡ S.files shelf.old }
{
    match read_retargeting(alloc, shelf, words) {
        Ok(materials) => {
            let RetargetingMaterials { judging, leaf } = materials;
            let place = place_for(words, &judging.world, &judging.answers, &leaf);
            send_input(alloc, words, &place, shelf, input, sink)
        }
        Err(stop) => end_at(alloc, &stop, sink),
    }
}

/// The same, for a message that goes through the gateway at this place.
#[tactic(auto, unfolding(log_run::specs::Ending::failed_line))]
fn send_input<S: Shelf, I: Source, O: Sink>(
    alloc: Global,
    words: &Retargeting<'_>,
    place: &Place<'_>,
    shelf: &mut S,
    input: &mut I,
    sink: &mut O,
) -> u8
    requires hop { IsTrue (is_hop (hop_by (retargeting_view words.now))) }
    requires local { words.now.judging.settings.local ≡ place.now.settings.local }
    ensures ran { RanInput (gateway_answering (place_of place.now) (hop_by (retargeting_view words.now))
        (S.files shelf.old) (S.counts shelf.old).faults (S.counts shelf.new).faults)
        (io_of I.Source O.Sink input.old sink.old) (io_of I.Source O.Sink input.new sink.new) result }
    ensures shelf { ShelfStays S.Shelf shelf.old shelf.new }
{
    let mut bytes = Vec::new(alloc);
    match read_up_to(input, &mut bytes, MOST_BYTES + 1) {
        Ok(()) => reply_to(alloc, words, place, shelf, bytes.as_slice(), sink),
        Err(ReadFault::Source) => end_with(sink, "read fault input\n", Status::Read),
        Err(ReadFault::Memory) => end_with(sink, memory_line(), Status::Memory),
    }
}

/// Writes the answer to these bytes, which are one more than a message has if the input is too long.
fn reply_to<S: Shelf, O: Sink>(
    alloc: Global,
    words: &Retargeting<'_>,
    place: &Place<'_>,
    shelf: &mut S,
    bytes: &[u8],
    sink: &mut O,
) -> u8
    requires hop { IsTrue (is_hop (hop_by (retargeting_view words.now))) }
    requires local { words.now.judging.settings.local ≡ place.now.settings.local }
    ensures replies { RepliesTo (gateway_answering (place_of place.now) (hop_by (retargeting_view words.now))
        (S.files shelf.old) (S.counts shelf.old).faults (S.counts shelf.new).faults) bytes.now (O.written sink.old)
        (O.written sink.new) (O.faults sink.old) (O.faults sink.new) result }
    ensures shelf { ShelfStays S.Shelf shelf.old shelf.new }
{
    if bytes.len() > MOST_BYTES {
        let refusal = too_long(alloc);
        return write_answer(sink, refusal);
    }
    let answer = answer(alloc, words, place, shelf, bytes);
    write_answer(sink, answer)
}

/// The line of a message that is too long.
fn too_long(alloc: Global) -> Answered
    ensures { IfOk result (λ reply. GatewayRefuses reply.text (status_number reply.status)) }
{
    let text = String::from_str(alloc, "refused 400 1 0.65535\n")?;
    Ok(Answer::of_text(text, Status::NotAllValid))
}

/// What is answered to the bytes of a message.
fn answer<S: Shelf>(
    alloc: Global,
    words: &Retargeting<'_>,
    place: &Place<'_>,
    shelf: &mut S,
    bytes: &[u8],
) -> Answered
    requires hop { IsTrue (is_hop (hop_by (retargeting_view words.now))) }
    requires local { words.now.judging.settings.local ≡ place.now.settings.local }
    ensures gives { IfOk result
        (λ reply. GatewayGives (place_of place.now) (hop_by (retargeting_view words.now)) (S.files shelf.old)
        (S.counts shelf.old).faults (S.counts shelf.new).faults bytes.now reply.text (status_number reply.status)) }
    ensures shelf { ShelfStays S.Shelf shelf.old shelf.new }
{
    let hop = hop_for(words);
    match send_on(alloc, place, &hop, shelf, bytes) {
        Ok(out) => Ok(Answer::new(out, Status::Done)),
        Err(fault) => refusal(alloc, words.key, fault),
    }
}

/// Where it goes on, as the words say.
fn hop_for<'a>(words: &Retargeting<'a>) -> Hop<'a>
    ensures { hop_of result ≡ hop_by (retargeting_view words.now) }
{
    Hop {
        target: words.target.as_bytes(),
        key: words.key.as_bytes(),
        x5u: words.x5u.as_bytes(),
        iat: words.iat,
        local: words.judging.settings.local,
    }
}

/// Where a message goes through the gateway, by what the files and the words say.
fn place_for<'a>(
    words: &Retargeting<'_>,
    world: &'a World,
    answers: &'a Answers,
    leaf: &'a Certificate,
) -> Place<'a>
    requires { is_some leaf.now.list ≡ true }
    ensures { place_of result ≡ place_with (retargeting_view words.now) world.now answers.now leaf.now }
{
    Place {
        world,
        answers,
        list: list_of(leaf),
        settings: settings_of(&words.judging.settings),
        moment: words.moment,
    }
}

/// The line of a fault, for a key of this name.
fn refusal(alloc: Global, key: &str, fault: HopFault) -> Answered
    requires { HasHopLine fault }
    ensures { IfOk result (λ reply. HeldFor key.now fault reply.text (status_number reply.status)) }
{
    let line = match fault {
        HopFault::Verdict(verdict) => verdict_line(alloc, verdict)?,
        HopFault::Target => b"hop fault 21\n".to_vec(alloc)?,
        HopFault::Loop => b"hop fault 22\n".to_vec(alloc)?,
        HopFault::Full => b"hop fault 23\n".to_vec(alloc)?,
        HopFault::Size => b"hop fault 24\n".to_vec(alloc)?,
        HopFault::Authority => b"hop fault 25\n".to_vec(alloc)?,
        HopFault::NoSignature { digest } => unsigned_line(alloc, key, &digest)?.into_bytes(),
        HopFault::Memory => return Err(AllocError),
        HopFault::Provider => unreachable!(),
    };
    Ok(Answer::new(line, Status::NotAllValid))
}

/// The line of a verdict: that the call is refused, or that a chain couldn't be read.
fn verdict_line(alloc: Global, verdict: Verdict) -> Result<Vec<u8>, AllocError>
    requires { HasVerdictLine verdict }
    ensures { IfOk result (λ line. line.items ≡ verdict_line verdict) }
{
    match verdict {
        Verdict::Refused(refusal) => outcome_line(alloc, Outcome::Refused(refusal)),
        Verdict::Unread(place) => outcome_line(alloc, Outcome::Unread(place)),
        Verdict::Passed => unreachable!(),
        Verdict::Unasked(_) => unreachable!(),
    }
}

/// What the report says of a call, in a line by itself.
fn outcome_line(alloc: Global, outcome: Outcome) -> Result<Vec<u8>, AllocError>
    ensures { IfOk result (λ line. line.items ≡ said_text outcome ++ codes "\n") }
{
    let mut line = said(alloc, &outcome)?;
    line.push(b'\n')?;
    Ok(line)
}
