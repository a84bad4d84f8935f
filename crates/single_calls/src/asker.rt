//! What asks for a call.
ghost use Rattle.stir_outside.specs.Stays.{ShelfStays};
ghost use Rattle.std.specs.Prelude.{◌≡◌, [], Ok, IfErr, IfOk, OnOk, string_bytes};
ghost use Rattle.single_calls.specs.Answering.{StopsBy};
ghost use Rattle.single_calls.specs.Asker.{AskedBy, BehindAsked, StopsAsking};
ghost use Rattle.single_calls.specs.Reading.{StopsCall, WritesCall, lines};
ghost use Rattle.single_calls.specs.Singly.{OneAnswer};
ghost use Rattle.stir_outside.specs.Files.{CountsGoOn};
ghost use Rattle.verify_rules.specs.Call.{Call as RuledCall};
ghost use Rattle.verify_rules.specs.Rules.{early_rules};
ghost use Rattle.verify_rules.specs.Screened.{IsScreenedBy};
ghost use Rattle.verify_service.specs.Judging.{call_in};

use crate::asking::ask_own;
use crate::reading::{ChainError, ask_chains};
use crate::written::Written;
use call_judging::{AlwaysYes, CallChains, asks_own, call_questions_law};
use call_log::Call;
use cert_store::World;
use log_run::{AnswerError, Answered, BatchAnswer, LogCommand};
use std::alloc::{AllocError, Global};
use std::marker::Model;
use std::thread::Threads;
use stir_outside::Shelf;
use verify_rules::{ScreenFault, Screened, Settings, finish, screen, screened_law};
use verify_service::call_law;

/// Says which questions a provider of signatures would be asked for calls, each by itself: over a chain map, trust
/// anchors, a code table and the files of a shelf. A question that was asked for an earlier call isn't asked again; of
/// the calls before, only these questions are kept.
///
/// A contract sees the settings, what calls are judged by, and the questions that were asked.
#[derive(Drop)]
pub struct Asker {
    settings: Settings,
    world: World,
    written: Written,
}

impl Model for Asker {
    ghost use Rattle.single_calls.specs.Asker.{AskerView};

    ghost Value = { AskerView };

    ghost view = { λ a. record { settings = a.settings; materials = a.world; written = a.written } };
}

impl Asker {
    /// What asks by these, and has asked nothing.
    pub fn new(alloc: Global, settings: Settings, world: World) -> Asker
        ensures { result ≡ record { settings = settings; materials = world; written = [] } }
    {
        Asker {
            settings,
            world,
            written: Written::new(alloc),
        }
    }

    /// Asks for a call, and keeps what was asked.
    fn ask<S: Shelf>(&mut self, alloc: Global, shelf: &mut S, call: &Call) -> Answered
        ensures asked { IfOk result
            (OneAnswer (BehindAsked self.old (S.files shelf.old)) (BehindAsked self.new (S.files shelf.old))
            (AskedBy self.old (S.files shelf.old)) (S.counts shelf.old).faults (S.counts shelf.new).faults call.now) }
        ensures stopped { IfErr result
            (StopsBy (BehindAsked self.old (S.files shelf.old)) (StopsAsking self.old (S.files shelf.old)) call.now
            (S.counts shelf.old).faults (S.counts shelf.new).faults) }
        ensures same { self.new ≡ record self.old { written = self.new.written } }
        ensures shelf { ShelfStays S.Shelf shelf.old shelf.new }
    {
        let mut text = String::new(alloc);
        match ask_call(
            alloc,
            &self.settings,
            &self.world,
            shelf,
            call,
            &mut self.written,
            &mut text,
        ) {
            Ok(()) => Ok(BatchAnswer::new(text.into_bytes(), true)),
            Err(ChainError::Unread { name }) => Err(AnswerError::Unread { text, name }),
            Err(ChainError::Memory) => Err(AnswerError::Memory),
        }
    }
}

/// A batch is one call.
impl LogCommand for Asker {
    ghost use Rattle.std.specs.Prelude.{⊤};
    ghost use Rattle.single_calls.specs.Asker.{AskedBatches, AskedBy, StopsAsking};
    ghost use Rattle.single_calls.specs.Singly.{SinglyClosed, SinglyStopped};

    ghost behind = { λ first before now counts files batches.
        AskedBatches first now files before.faults counts.faults batches };

    ghost stopped = { λ first before now counts files batches calls stop.
        SinglyStopped (AskedBy first files) (StopsAsking first files) before.faults counts.faults batches calls stop };

    ghost closed = { λ first before now counts files batches text.
        SinglyClosed (AskedBy first files) before.faults counts.faults batches text };

    ghost stands = { λ a counts files passed. ⊤ };

    ghost most = { λ a. 1 };

    fn most(&self) -> u32 {
        1
    }

    fn answer<R, S>(&mut self, rt: &R, alloc: Global, shelf: &mut S, calls: &[Call]) -> Answered
    where
        R: Threads + Sync,
        S: Shelf,
    {
        let _ = rt;
        match calls {
            [call] => self.ask(alloc, shelf, call),
            _ => unreachable!(),
        }
    }

    fn closing(&mut self, alloc: Global) -> Result<Vec<u8>, AllocError> {
        Ok(Vec::new(alloc))
    }
}

/// Writes the lines of what is asked for a call.
fn ask_call<S: Shelf>(
    alloc: Global,
    settings: &Settings,
    world: &World,
    shelf: &mut S,
    call: &Call,
    written: &mut Written,
    text: &mut String,
) -> Result<(), ChainError>
    ensures writes { OnOk result (WritesCall (S.files shelf.old) world.now (call_in settings.now call.now)
        (lines written.old (string_bytes text.old)) (lines written.new (string_bytes text.new))) }
    ensures stopped { IfErr result (StopsCall (S.files shelf.old) world.now (call_in settings.now call.now)
        (lines written.old (string_bytes text.old)) (lines written.new (string_bytes text.new))
        (S.counts shelf.old).faults (S.counts shelf.new).faults) }
    ensures shelf { ShelfStays S.Shelf shelf.old shelf.new }
{
    call_law();
    call_questions_law();
    match screen(alloc, call.message(), call.moment(), settings) {
        Ok(screened) => ask_screened(alloc, world, shelf, call.moment(), &screened, written, text),
        Err(fault) => match fault {
            ScreenFault::Refused(_) => Ok(()),
            ScreenFault::Memory => Err(ChainError::Memory),
        },
    }
}

/// Writes those of a call that was screened: the questions of its chains, and those of its PASSporTs if it breaks none
/// of the rules before the first that asks.
fn ask_screened<S: Shelf>(
    alloc: Global,
    world: &World,
    shelf: &mut S,
    moment: u64,
    screened: &Screened,
    written: &mut Written,
    text: &mut String,
) -> Result<(), ChainError>
    ensures writes { (call : RuledCall) → IsScreenedBy early_rules call (Ok screened.now) → moment ≡ call.moment
        → OnOk result (WritesCall (S.files shelf.old) world.now call (lines written.old (string_bytes text.old))
        (lines written.new (string_bytes text.new))) }
    ensures stopped { (call : RuledCall) → IsScreenedBy early_rules call (Ok screened.now)
        → IfErr result (StopsCall (S.files shelf.old) world.now call (lines written.old (string_bytes text.old))
        (lines written.new (string_bytes text.new)) (S.counts shelf.old).faults (S.counts shelf.new).faults) }
    ensures shelf { ShelfStays S.Shelf shelf.old shelf.new }
{
    screened_law();
    call_questions_law();
    let mut chains = CallChains::new(alloc);
    let mut provider = AlwaysYes::new();
    match ask_chains(
        alloc,
        world,
        shelf,
        &mut provider,
        screened,
        &mut chains,
        written,
        text,
    ) {
        Ok(()) => {}
        Err(stop) => return Err(stop),
    }
    let verdict = finish(screened, &chains, moment, &world.table, &mut provider);
    if !asks_own(verdict) {
        return Ok(());
    }
    match ask_own(alloc, screened, &chains, written, text) {
        Ok(()) => Ok(()),
        Err(_) => Err(ChainError::Memory),
    }
}
