//! The drill from its seed to its summary.
ghost use Rattle.std.specs.Prelude.{◌≡◌, ◌≤◌, [], IfOk};
ghost use Rattle.call_log.specs.Log.{LogText, start};
ghost use Rattle.drill.specs.Files.{FilesOf};
ghost use Rattle.drill.specs.Drilled.{DrillRan, drill_settings};
ghost use Rattle.stir_drill.specs.Calls.{calls_of, log_of};
ghost use Rattle.stir_drill.specs.World.{shelf};

use crate::command::DrillCommand;
use crate::counts::Counts;
use crate::files::{DrillFiles, read_files};
use crate::log::DrillLog;
use crate::shelf::DrillShelf;
use call_log::{LogReader, one_log};
use log_rounds::LogVerifier;
use log_run::run_log;
use replay_law::{first_of_all, legal_together};
use std::alloc::{AllocError, Global};
use std::thread::Threads;
use stir_drill::{Drill, log_law};
use stir_outside::{Sink, SourceMem, Status, end_with, memory_line};
use tn_values::Local;
use verify_rules::Settings;
use verify_service::Service;

/// How many seconds old a PASSporT may be.
const PAST: u64 = 60;

/// How many seconds the `iat` of a PASSporT may be ahead.
const FUTURE: u64 = 5;

/// What is judged in a drill, and by what.
#[derive(Drop)]
struct Ready {
    files: DrillFiles,
    log: DrillLog,
    shelf: DrillShelf,
}

/// Makes the log of the seed with so many calls, judges it on so many workers by the files that are made with it, and
/// writes the summary.
///
/// The status is 0 if the summary was written, 4 if a write failed, and 6 if memory ran out. There is no other,
/// whatever came of the calls.
pub fn run_drill<R: Threads + Sync, O: Sink>(
    rt: &R,
    alloc: Global,
    seed: u64,
    count: u32,
    workers: u64,
    sink: &mut O,
) -> u8
    requires few { count ≤ 100000 }
    requires some { 1 ≤ workers }
    requires most { workers ≤ 8 }
    ensures { DrillRan seed count workers (O.written sink.old) (O.written sink.new) (O.faults sink.old)
        (O.faults sink.new) result }
{
    log_law();
    one_log();
    legal_together();
    first_of_all();
    let ready = match make_ready(alloc, seed, count) {
        Ok(ready) => ready,
        Err(_) => return end_with(sink, memory_line(), Status::Memory),
    };
    let Ready {
        files,
        mut log,
        mut shelf,
    } = ready;
    let DrillFiles { world, answers } = files;
    let service = match Service::new(alloc, settings(), world) {
        Ok(service) => service,
        Err(_) => return end_with(sink, memory_line(), Status::Memory),
    };
    let mut command = DrillCommand {
        verifier: LogVerifier {
            service,
            answers: &answers,
            workers,
        },
        counts: Counts::new(),
        total: u64::from(count),
    };
    let mut reader = LogReader::new(alloc);
    run_log(
        rt,
        alloc,
        &mut command,
        &mut reader,
        &mut shelf,
        &mut log,
        sink,
    )
}

/// Makes the drill and reads its files. `AllocError` is the only error.
fn make_ready(alloc: Global, seed: u64, count: u32) -> Result<Ready, AllocError>
    requires few { count ≤ 100000 }
    ensures files { IfOk result (λ ready. FilesOf seed count ready.files) }
    ensures log { IfOk result (λ ready. ready.log.left ≡ log_of seed count) }
    ensures shelf { IfOk result (λ ready. ready.shelf ≡ shelf) }
{
    let Drill {
        log,
        shelf,
        anchors,
        table,
        chains,
        answers,
    } = Drill::make(alloc, seed, count)?;
    let files = read_files(alloc, seed, count, &chains, &anchors, &table, &answers)?;
    Ok(Ready {
        files,
        log: DrillLog::new(SourceMem::new(log, Vec::new(alloc))),
        shelf: DrillShelf::new(shelf),
    })
}

/// The settings by which the drill is judged: the numbering of country 1 with national numbers of ten digits.
#[tactic(auto, unfolding(tn_values::specs::Local::is_local))]
fn settings() -> Settings
    ensures { result ≡ drill_settings }
{
    match Local::new(b"1", 10) {
        Some(local) => Settings {
            local,
            past: PAST,
            future: FUTURE,
        },
        None => unreachable!(),
    }
}
