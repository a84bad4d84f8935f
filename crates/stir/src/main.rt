//! The program `stir`: it judges telephone calls by STIR/SHAKEN, and signs them (RFC 8224, 8225, 8226, 8588, 8946 and
//! 9060).
//!
//! ```sh
//! $ stir verify --chains chains.txt --anchors anchors.der --table table.txt --answers answers.txt < calls.log
//! 1 valid - - -
//! 2 replay 438 18 1
//! ```
//!
//! `main` makes the real objects (files by their names, the standard input and output, the words after the program's
//! name), hands them to `run` of `stir_cmd`, and ends with the status that it gives. If memory runs out before `run`
//! can be called it says so itself, with status 6.
//!
//! It reads no environment, no clock and no network, and writes nothing to standard error. `docs/COMMANDS.md` has each
//! command with its options, lines and statuses; `man -l man/stir.1` shows the same.
//!
//! Proved: this file is safe and returns. All promises are clauses of `run` (`docs/dev/HEADLINE.md`,
//! `docs/dev/PROVED.md`); what the kit's contracts say of real files and streams is trusted.
//!
//! Cases: `tests/cli`, on logs with their files, on pipes and on closed streams. `stdin`, `args`, `data/`, `stdout` and
//! `status` beside `src/` are one run that the gate compares.
#![tactic(auto)]

use std::alloc::Global;
use std::io::ErrorKind;
use std::process::ExitCode;
use std::{env, io};
use stir_cmd::run;
use stir_outside::{FileShelf, Sink, StdinSource, StdoutSink, write_whole};

/// The line for when memory runs out, if not even the words could be held.
const NO_MEMORY: &[u8] = b"want of memory\n";

/// The status for when memory runs out.
const MEMORY: u8 = 6;

/// The status if that line couldn't be written.
const SINK_FAILED: u8 = 4;

/// Hands the words and the real objects to `run`.
fn main(rt: HostRuntime) -> ExitCode {
    let mut sink = StdoutSink::new(rt.stdout());
    let args = match arguments(&rt) {
        Ok(args) => args,
        Err(error) if error.kind() == ErrorKind::OutOfMemory => return without_memory(&mut sink),
        // Words that are no text are refused, as no words at all are.
        Err(_) => Vec::new(rt.alloc()),
    };
    let Ok(words) = words_of(rt.alloc(), args.as_slice()) else {
        return without_memory(&mut sink);
    };
    let mut input = StdinSource::new(rt.stdin());
    let mut shelf = FileShelf::new(rt);
    let status = run(
        &rt,
        rt.alloc(),
        words.as_slice(),
        &mut shelf,
        &mut input,
        &mut sink,
    );
    ExitCode::from(status)
}

/// Says that memory ran out before anything was read.
fn without_memory<O: Sink>(sink: &mut O) -> ExitCode {
    match write_whole(sink, NO_MEMORY) {
        Ok(()) => ExitCode::from(MEMORY),
        Err(_) => ExitCode::from(SINK_FAILED),
    }
}

/// The program's name and the words after it.
fn arguments(rt: &HostRuntime) -> io::Result<Vec<String>> {
    let args = env::args(rt)?.collect(rt.alloc())?;
    Ok(args)
}

/// The words after the program's name.
fn words_of(alloc: Global, args: &[String]) -> io::Result<Vec<&str>> {
    let mut words = Vec::new(alloc);
    for word in args.iter().skip(1) {
        words.push(word.as_str())?;
    }
    Ok(words)
}
