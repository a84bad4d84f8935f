//! The top call.
ghost use Rattle.std.specs.Prelude.{◌≡◌, ◌≤◌, List};
ghost use Rattle.stir_cmd.specs.ByWords.{KeepsToWords};
ghost use Rattle.stir_cmd.specs.Outside.{outside_of};
ghost use Rattle.stir_cmd.specs.Causes.{HasCauses, IsComplete, IsSaid, IsThrough, Ran, RanOrShort};
ghost use Rattle.stir_cmd.specs.FewReads.{FewReads};
ghost use Rattle.stir_cmd.specs.Headline.{Headline};
ghost use Rattle.stir_cmd.specs.OnePrefix.{GivesOnePrefix};
ghost use Rattle.stir_cmd.specs.OneReport.{GivesOneReport};
ghost use Rattle.stir_cmd.specs.OneSummary.{GivesOneSummary};
ghost use Rattle.call_log.specs.Entry.{Entry};
ghost use Rattle.cert_store.specs.Questions.{AgreeOn};
ghost use Rattle.cert_store.specs.Rules.{Says};
ghost use Rattle.single_calls.specs.Agreement.{JudgedAlike};
ghost use Rattle.single_calls.specs.Asks.{asked_of};
ghost use Rattle.stir_words.specs.Order.{order_of};
ghost use Rattle.stir_words.specs.Seen.{texts};
ghost use Rattle.verify_rules.specs.World.{World};
ghost use Rattle.verify_rules.specs.declared.settings.Settings.{Settings};

use crate::explain::{ask, explain};
use crate::gateway::send_message;
use crate::once::once;
use crate::show::show;
use crate::sign::{SignerCommand, sign_message};
use crate::verify::verify;
use call_log::one_log;
use drill::{rounds_law, run_drill};
use replay_law::one_answer;
use single_calls::{agreement_law, asks_law};
use std::alloc::Global;
use std::thread::Threads;
use stir_outside::{Shelf, Sink, Source, Status, end_with, memory_line};
use stir_words::{Order, WordsFault};
use verify_rules::same_world_law;

/// The program: takes the words after its name, reads the named files and the input, writes what the command says, and
/// gives the status with which the program ends.
///
/// `verify` judges the calls of the log that the input is, and writes a line for each. `explain` writes for each call
/// by itself which rules it meets, up to the first that it breaks. `ask` writes what a provider of signatures is asked
/// for the calls, each question once. `sign` and `divert` write the message that the input is with a signed Identity
/// header field. `show` writes what the certificates that the input is say: they are at most six, and at most 49,152
/// bytes. `drill` makes a log from a seed, judges it by the files that are made with it, and writes how many calls came
/// to what; it reads no file and nothing of the input. `once` claims the tickets that the input has on one desk, and
/// writes which claims won: they are at most 1,000,000, and at most 67,108,864 bytes.
///
/// The status is 0 if all calls are valid or break no rule, what is asked is written, the message is signed, the
/// certificates are shown, the drill is summed up, or each ticket is won. It is 1 if some call isn't valid or breaks a
/// rule, the message can't be signed, or some ticket isn't won; 2 if the words are refused; 3 if a named file, a file
/// of certificates that `ask` needs or the input couldn't be read; 4 if the output couldn't be written; 5 if a named
/// file is missing or too long, a file or the input is outside its grammar, or the certificate of a holder has no list;
/// and 6 if memory ran out. The first of these in the order of reading decides.
pub fn run<R: Threads + Sync, S: Shelf, I: Source, O: Sink>(
    rt: &R,
    alloc: Global,
    words: &[&str],
    shelf: &mut S,
    input: &mut I,
    sink: &mut O,
) -> u8
    // What came of the words: they are refused, or memory runs out for them; certificates are shown, a message is
    // signed, or a log is judged.
    ensures outcome { Ran (order_of (texts words.now))
        (outside_of S.Shelf I.Source O.Sink shelf.old input.old sink.old)
        (outside_of S.Shelf I.Source O.Sink shelf.new input.new sink.new) result }

    // Each call of the log gets the code of the first rule that it breaks; one that breaks none is valid, save that
    // each last PASSporT lets exactly one such call pass and refuses the others as replays of it.
    ensures headline { Headline (order_of (texts words.now))
        (outside_of S.Shelf I.Source O.Sink shelf.old input.old sink.old)
        (outside_of S.Shelf I.Source O.Sink shelf.new input.new sink.new) result }
    // With one worker the report is one function of the files, as a map, and the log. Take any other run of the same
    // words over the same files, in whatever order they are kept, and the same log: if no read of a file fails in
    // either, both write the same bytes and end with the same status, unless memory runs out.
    ensures one_report { GivesOneReport (order_of (texts words.now))
        (outside_of S.Shelf I.Source O.Sink shelf.old input.old sink.old)
        (outside_of S.Shelf I.Source O.Sink shelf.new input.new sink.new) result }

    // The same of runs that a fault of the log, or of its source, ended: with 0, 1, 3 or 5. A run judges all bytes of
    // the log, or those that were taken before the source failed. If another's bytes go on from these, its lines go on
    // from these lines. If they are the same bytes, and both ended with 0 or 1 or with one status, both wrote the same.
    ensures one_prefix { GivesOnePrefix (order_of (texts words.now))
        (outside_of S.Shelf I.Source O.Sink shelf.old input.old sink.old)
        (outside_of S.Shelf I.Source O.Sink shelf.new input.new sink.new) result }

    // Any two runs of `drill` with one seed and one count write one summary, on however many workers.
    ensures one_summary { GivesOneSummary (order_of (texts words.now))
        (outside_of S.Shelf I.Source O.Sink shelf.old input.old sink.old)
        (outside_of S.Shelf I.Source O.Sink shelf.new input.new sink.new) result }

    // Of `verify`, whatever the status: let the calls of the log name at most 4,096 x5u texts that the chain map lists.
    // Then files are read no more often than if each named file, and the file of each of these texts, were read once.
    ensures few_reads { FewReads (order_of (texts words.now))
        (outside_of S.Shelf I.Source O.Sink shelf.old input.old sink.old)
        (outside_of S.Shelf I.Source O.Sink shelf.new input.new sink.new) }

    // If the status is 0 or 1, the input was read to its end, or is a message that is too long; and what was written is
    // what the command says in the words of its subject. `explain` writes the rules that each call of the log meets, up
    // to the first that it breaks; `ask` what is asked for its calls; `sign` and `divert` the message with a new
    // Identity field, which is read as the PASSporT that the words ask for and the key's signature; `show` the lines of
    // the certificates; `drill`, whose input stays as it was, the summary of a legal judgement of its log; `once` a
    // line for each ticket of the input. Of the lines of one ticket at most one is won, and one is if another is lost;
    // none is full unless as many other tickets as a level has slots are there.
    ensures ended { result ≤ 1 → IsThrough (order_of (texts words.now))
        (outside_of S.Shelf I.Source O.Sink shelf.old input.old sink.old)
        (outside_of S.Shelf I.Source O.Sink shelf.new input.new sink.new) result }
    ensures says { result ≤ 1 → IsSaid (order_of (texts words.now))
        (outside_of S.Shelf I.Source O.Sink shelf.old input.old sink.old)
        (outside_of S.Shelf I.Source O.Sink shelf.new input.new sink.new) result }

    // The values of the words under their names. Of `verify`: no PASSporT of a valid call is older than `--past` says,
    // nor ahead by more than `--future` says. What `sign` and `divert` write is signed with `--key` at `--iat`, with
    // `--x5u`; so is what `retarget` writes, which goes on to `--target`, of a message of which the rules of the call
    // hold at `--moment`.
    ensures by_words { KeepsToWords (order_of (texts words.now))
        (outside_of S.Shelf I.Source O.Sink shelf.old input.old sink.old)
        (outside_of S.Shelf I.Source O.Sink shelf.new input.new sink.new) result }

    // Two providers of signatures that agree on all that `ask` writes judge each of the calls alike.
    ensures alike { (world : World) (settings : Settings) (says other : Says) (calls : List Entry)
        → AgreeOn says other (asked_of world settings calls) → JudgedAlike world settings says other calls }

    // Each status has its cause, and if nothing fails outside the status is the one that the words, the files and the
    // input ask for.
    ensures causes { HasCauses (order_of (texts words.now))
        (outside_of S.Shelf I.Source O.Sink shelf.old input.old sink.old)
        (outside_of S.Shelf I.Source O.Sink shelf.new input.new sink.new) result }
    ensures complete { IsComplete (order_of (texts words.now))
        (outside_of S.Shelf I.Source O.Sink shelf.old input.old sink.old)
        (outside_of S.Shelf I.Source O.Sink shelf.new input.new sink.new) result }
    ensures same_files { S.files shelf.new ≡ S.files shelf.old }
{
    asks_law();
    agreement_law();
    one_log();
    one_answer();
    same_world_law();
    rounds_law();
    carry_out(rt, alloc, words, shelf, input, sink)
}

/// Carries out what the words order.
fn carry_out<R: Threads + Sync, S: Shelf, I: Source, O: Sink>(
    rt: &R,
    alloc: Global,
    words: &[&str],
    shelf: &mut S,
    input: &mut I,
    sink: &mut O,
) -> u8
    ensures outcome { RanOrShort (order_of (texts words.now))
        (outside_of S.Shelf I.Source O.Sink shelf.old input.old sink.old)
        (outside_of S.Shelf I.Source O.Sink shelf.new input.new sink.new) result }
    ensures few_reads { FewReads (order_of (texts words.now))
        (outside_of S.Shelf I.Source O.Sink shelf.old input.old sink.old)
        (outside_of S.Shelf I.Source O.Sink shelf.new input.new sink.new) }
    ensures same_files { S.files shelf.new ≡ S.files shelf.old }
{
    match Order::of(alloc, words) {
        Ok(Order::Verify(verifying)) => verify(rt, alloc, &verifying, shelf, input, sink),
        Ok(Order::Explain(judging)) => explain(rt, alloc, &judging, shelf, input, sink),
        Ok(Order::Ask(asking)) => ask(rt, alloc, &asking, shelf, input, sink),
        Ok(Order::Sign(signing)) => sign_message(
            rt,
            alloc,
            &SignerCommand::Sign(signing),
            shelf,
            input,
            sink,
        ),
        Ok(Order::Divert(diverting)) => sign_message(
            rt,
            alloc,
            &SignerCommand::Divert(diverting),
            shelf,
            input,
            sink,
        ),
        Ok(Order::Retarget(retargeting)) => send_message(alloc, &retargeting, shelf, input, sink),
        Ok(Order::Show) => show(rt, alloc, input, sink),
        Ok(Order::Drill(drilling)) => run_drill(
            rt,
            alloc,
            drilling.seed,
            drilling.count,
            drilling.workers,
            sink,
        ),
        Ok(Order::Once(claiming)) => once(rt, alloc, &claiming, input, sink),
        Err(WordsFault::Refused) => end_with(sink, "words refused\n", Status::Words),
        Err(WordsFault::Memory) => end_with(sink, memory_line(), Status::Memory),
    }
}
