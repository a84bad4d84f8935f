//! The command `verify`: the judgement of the calls of a log.
ghost use Rattle.std.specs.Prelude.{◌≡◌, ◌≤◌, IfOk, None, Some};
ghost use Rattle.call_log.specs.Log.{start};
ghost use Rattle.log_rounds.specs.Reads.{ReadsFirst};
ghost use Rattle.stir_cmd.specs.FewReads.{FewReadsFrom};
ghost use Rattle.stir_cmd.specs.Outside.{outside_of};
ghost use Rattle.stir_cmd.specs.Stopping.{EndsAtStop};
ghost use Rattle.stir_cmd.specs.OverFiles.{over_files};
ghost use Rattle.stir_cmd.specs.Verifying.{RanBy, WentOn, going_over, start_at, verify_course, verify_over};
ghost use Rattle.stir_files.specs.Stop.{stop_of};
ghost use Rattle.stir_words.specs.Seen.{verifying_view};
ghost use Rattle.stir_outside.specs.Stays.{ShelfStays};
ghost use Rattle.verify_service.specs.Handing.{IsRestored};

use crate::settings::settings_of;
use call_log::one_log;
use log_rounds::{HandingVerifier, LogVerifier, judge_log, judge_log_on};
use state_text::State;
use std::alloc::{AllocError, Global};
use std::thread::Threads;
use stir_files::{FileError, GoingMaterials, Materials, read_going, read_materials};
use stir_outside::{SeveralThreads, Shelf, Sink, Source, Status, end_with, memory_line};
use stir_words::Verifying;
use verify_rules::Settings;
use verify_service::{Service, World};

/// Reads the named files, and judges the calls of the log by what they say; if a file can't be had, it says so. A log
/// that goes on from a state ends with the state that it hands on.
#[tactic(auto, using(crate::proofs::GoingSteps::ran_alone, crate::proofs::GoingSteps::ran_on, crate::proofs::FewReadsLaws::few_is_alone, crate::proofs::FewReadsLaws::few_is_on))]
pub(crate) fn verify<R: Threads + Sync, S: Shelf, I: Source, O: Sink>(
    rt: &R,
    alloc: Global,
    verifying: &Verifying<'_>,
    shelf: &mut S,
    input: &mut I,
    sink: &mut O,
) -> u8
    ensures ran { (verify_course (verifying_view verifying.now)).Came
        (outside_of S.Shelf I.Source O.Sink shelf.old input.old sink.old)
        (outside_of S.Shelf I.Source O.Sink shelf.new input.new sink.new) result }
    ensures few_reads { FewReadsFrom (verifying_view verifying.now) (verifying_view verifying.now).state
        (outside_of S.Shelf I.Source O.Sink shelf.old input.old sink.old)
        (outside_of S.Shelf I.Source O.Sink shelf.new input.new sink.new) }
    ensures same_files { S.files shelf.new ≡ S.files shelf.old }
{
    match verifying.state {
        Some(name) => verify_on(rt, alloc, verifying, name, shelf, input, sink),
        None => verify_alone(rt, alloc, verifying, shelf, input, sink),
    }
}

/// Judges a log by itself.
fn verify_alone<R: Threads + Sync, S: Shelf, I: Source, O: Sink>(
    rt: &R,
    alloc: Global,
    verifying: &Verifying<'_>,
    shelf: &mut S,
    input: &mut I,
    sink: &mut O,
) -> u8
    ensures ran { (over_files (verify_over (verifying_view verifying.now))).Came
        (outside_of S.Shelf I.Source O.Sink shelf.old input.old sink.old)
        (outside_of S.Shelf I.Source O.Sink shelf.new input.new sink.new) result }
    ensures few_reads { FewReadsFrom (verifying_view verifying.now) None
        (outside_of S.Shelf I.Source O.Sink shelf.old input.old sink.old)
        (outside_of S.Shelf I.Source O.Sink shelf.new input.new sink.new) }
    ensures same_files { S.files shelf.new ≡ S.files shelf.old }
{
    one_log();
    let by = readers(rt, verifying.workers);
    match read_materials(alloc, shelf, &by, &verifying.judging) {
        Ok(materials) => judge_by(
            rt,
            alloc,
            materials,
            settings_of(&verifying.judging.settings),
            verifying.workers,
            shelf,
            input,
            sink,
        ),
        Err(stop) => end_at(alloc, &stop, sink),
    }
}

/// As many threads as there are workers.
fn readers<R: Threads + Sync>(rt: &R, workers: u64) -> SeveralThreads<'_, R> {
    SeveralThreads {
        rt,
        threads: workers as usize,
    }
}

/// Judges the calls of the log by what the files say, on so many workers.
fn judge_by<R: Threads + Sync, S: Shelf, I: Source, O: Sink>(
    rt: &R,
    alloc: Global,
    materials: Materials,
    settings: Settings,
    workers: u64,
    shelf: &mut S,
    input: &mut I,
    sink: &mut O,
) -> u8
    requires some { 1 ≤ workers }
    requires few { workers ≤ 8 }
    ensures ran { RanBy settings workers materials
        (outside_of S.Shelf I.Source O.Sink shelf.old input.old sink.old)
        (outside_of S.Shelf I.Source O.Sink shelf.new input.new sink.new) result }
    ensures reads { ReadsFirst settings materials.world.chains (start 0 0) (I.left input.old) (S.counts shelf.old).reads
        (S.counts shelf.new).reads }
    ensures shelf { ShelfStays S.Shelf shelf.old shelf.new }
{
    let Materials { world, answers } = materials;
    let service = match Service::new(alloc, settings, world) {
        Ok(service) => service,
        Err(_) => return end_with(sink, memory_line(), Status::Memory),
    };
    let mut verifier = LogVerifier {
        service,
        answers: &answers,
        workers,
    };
    judge_log(rt, alloc, &mut verifier, shelf, input, sink)
}

/// Judges a log that goes on from the state in the file of this name.
fn verify_on<R: Threads + Sync, S: Shelf, I: Source, O: Sink>(
    rt: &R,
    alloc: Global,
    verifying: &Verifying<'_>,
    name: &str,
    shelf: &mut S,
    input: &mut I,
    sink: &mut O,
) -> u8
    ensures ran { (over_files (going_over (verifying_view verifying.now) name.now)).Came
        (outside_of S.Shelf I.Source O.Sink shelf.old input.old sink.old)
        (outside_of S.Shelf I.Source O.Sink shelf.new input.new sink.new) result }
    ensures few_reads { FewReadsFrom (verifying_view verifying.now) (Some name.now)
        (outside_of S.Shelf I.Source O.Sink shelf.old input.old sink.old)
        (outside_of S.Shelf I.Source O.Sink shelf.new input.new sink.new) }
    ensures same_files { S.files shelf.new ≡ S.files shelf.old }
{
    one_log();
    let by = readers(rt, verifying.workers);
    match read_going(alloc, shelf, &by, &verifying.judging, name) {
        Ok(materials) => go_on_by(
            rt,
            alloc,
            materials,
            settings_of(&verifying.judging.settings),
            verifying.workers,
            shelf,
            input,
            sink,
        ),
        Err(stop) => end_at(alloc, &stop, sink),
    }
}

/// Judges the calls of a log that goes on from a state by what the files say, on so many workers.
fn go_on_by<R: Threads + Sync, S: Shelf, I: Source, O: Sink>(
    rt: &R,
    alloc: Global,
    materials: GoingMaterials,
    settings: Settings,
    workers: u64,
    shelf: &mut S,
    input: &mut I,
    sink: &mut O,
) -> u8
    requires some { 1 ≤ workers }
    requires few { workers ≤ 8 }
    requires window { materials.state.window ≡ settings.past }
    requires call { materials.state.call ≤ 4000000000 }
    ensures ran { WentOn settings workers materials
        (outside_of S.Shelf I.Source O.Sink shelf.old input.old sink.old)
        (outside_of S.Shelf I.Source O.Sink shelf.new input.new sink.new) result }
    ensures reads { ReadsFirst settings materials.judging.world.chains (start_at materials.state) (I.left input.old)
        (S.counts shelf.old).reads (S.counts shelf.new).reads }
    ensures shelf { ShelfStays S.Shelf shelf.old shelf.new }
{
    let GoingMaterials { judging, state } = materials;
    let Materials { world, answers } = judging;
    let call = state.call();
    let moment = state.moment();
    let service = match restored(alloc, settings, world, state) {
        Ok(service) => service,
        Err(_) => return end_with(sink, memory_line(), Status::Memory),
    };
    let mut handing = HandingVerifier {
        verifier: LogVerifier {
            service,
            answers: &answers,
            workers,
        },
    };
    judge_log_on(rt, alloc, &mut handing, call, moment, shelf, input, sink)
}

/// A service that goes on from the state, which isn't needed after it.
fn restored(
    alloc: Global,
    settings: Settings,
    world: World,
    state: State,
) -> Result<Service, AllocError>
    requires window { state.window ≡ settings.past }
    ensures { IfOk result (IsRestored settings world state) }
{
    Service::restore(alloc, settings, world, &state)
}

/// Writes the line that says why a named file can't be had.
pub(crate) fn end_at<O: Sink>(alloc: Global, stop: &FileError<'_>, sink: &mut O) -> u8
    ensures { EndsAtStop (stop_of stop.now) (O.written sink.old) (O.written sink.new) (O.faults sink.old)
        (O.faults sink.new) result }
{
    match stop.line(alloc) {
        Ok(line) => end_with(sink, line.as_str(), stop.status()),
        Err(_) => end_with(sink, memory_line(), Status::Memory),
    }
}
