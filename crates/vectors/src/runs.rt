//! Runs of the program over files, a log and an output in memory, the log and the output a byte a call: `run` of
//! `stir_cmd`.
//!
//! `runs.each_read`, `runs.each_write` and `runs.each_file` let the first call of that kind fail, the second, and so
//! on, and answer how many runs came to the same end.

use std::alloc::Global;
use std::thread::Threads;
use stir_cmd::run;
use stir_outside::{ShelfMem, SinkMem, SourceMem};
use vector_table::{Answer, Answered, Asked, Drip, Trickle, Unread, files_of, numbers_of, text};

/// What a call answers.
pub fn answer<R: Threads + Sync>(rt: &R, alloc: Global, asked: Asked<'_>) -> Answered {
    let words = asked.words;
    match asked.call {
        "run" => one(rt, alloc, words),
        "each_read" => each(rt, alloc, Kind::Read, words),
        "each_write" => each(rt, alloc, Kind::Write, words),
        "each_file" => each(rt, alloc, Kind::File, words),
        _ => Err(Unread::Call),
    }
}

/// What is run: the words of the command, as a text with a space between each two, the log, and the files, each a name
/// and a content.
#[derive(Clone, Copy)]
struct Case<'a> {
    command: &'a str,
    log: &'a [u8],
    files: &'a [&'a [u8]],
}

/// Which reads of files, reads of the log and writes fail, counted from 1.
#[derive(Clone, Copy)]
struct Failing<'a> {
    files: &'a [u64],
    reads: &'a [u64],
    writes: &'a [u64],
}

/// What a run left.
#[derive(Drop)]
struct Done {
    status: u8,
    shelf: ShelfMem,
    source: SourceMem,
    sink: SinkMem,
}

/// How many bytes the output of a run takes.
const ROOM: usize = 65_536;

impl Case<'_> {
    /// Runs it, with some calls that fail.
    fn run<R: Threads + Sync>(
        self,
        rt: &R,
        alloc: Global,
        failing: Failing<'_>,
    ) -> Result<Done, Unread> {
        let words = command_of(alloc, self.command)?;
        let mut shelf = ShelfMem::new(files_of(alloc, self.files)?, failing.files.to_vec(alloc)?);
        let mut input = Drip {
            source: SourceMem::new(self.log.to_vec(alloc)?, failing.reads.to_vec(alloc)?),
        };
        let mut room = SinkMem::new(alloc, failing.writes.to_vec(alloc)?);
        room.reserve(ROOM)?;
        let mut output = Trickle { sink: room };
        let status = run(
            rt,
            alloc,
            words.as_slice(),
            &mut shelf,
            &mut input,
            &mut output,
        );
        Ok(Done {
            status,
            shelf,
            source: input.source,
            sink: output.sink,
        })
    }
}

/// The words of a command; none of the empty text.
fn command_of(alloc: Global, command: &str) -> Result<Vec<&str>, Unread> {
    let mut words = Vec::new(alloc);
    for word in command.split(' ').filter(|word| !word.is_empty()) {
        words.push(word)?;
    }
    Ok(words)
}

/// What comes of a run in which the listed reads of files, reads of the log and writes fail: its status, what was
/// written, how many bytes of the log are left, and how many of each kind failed.
fn one<R: Threads + Sync>(rt: &R, alloc: Global, words: &[&[u8]]) -> Result<String, Unread> {
    let [files_failing, reads, writes, command, log, files @ ..] = words else {
        return Err(Unread::Call);
    };
    let files_failing = numbers_of(alloc, files_failing)?;
    let reads = numbers_of(alloc, reads)?;
    let writes = numbers_of(alloc, writes)?;
    let case = Case {
        command: text(command)?,
        log,
        files,
    };
    let failing = Failing {
        files: files_failing.as_slice(),
        reads: reads.as_slice(),
        writes: writes.as_slice(),
    };
    let done = case.run(rt, alloc, failing)?;
    Answer::new(alloc)
        .word(done.status)
        .text(done.sink.bytes())
        .word(done.source.bytes().len())
        .word(done.shelf.faults())
        .word(done.source.faults())
        .word(done.sink.faults())
        .line()
}

/// A kind of calls that fail.
#[derive(Clone, Copy)]
enum Kind {
    /// Reads of the log.
    Read,
    /// Writes.
    Write,
    /// Reads of files.
    File,
}

impl Kind {
    /// The listed calls of this kind fail, and no other.
    fn failing(self, calls: &[u64]) -> Failing<'_> {
        let none: &[u64] = &[];
        let mut failing = Failing {
            files: none,
            reads: none,
            writes: none,
        };
        match self {
            Kind::Read => failing.reads = calls,
            Kind::Write => failing.writes = calls,
            Kind::File => failing.files = calls,
        }
        failing
    }

    /// How many calls of this kind failed.
    fn faults(self, done: &Done) -> u64 {
        match self {
            Kind::Read => done.source.faults(),
            Kind::Write => done.sink.faults(),
            Kind::File => done.shelf.faults(),
        }
    }
}

/// Runs one after the other that came to the same.
#[derive(Drop)]
struct Same {
    times: u64,
    done: Done,
}

impl Same {
    /// Whether a run came to the same status and output.
    fn is_so(&self, done: &Done) -> bool {
        self.done.status == done.status && self.done.sink.bytes() == done.sink.bytes()
    }
}

/// How many calls of a kind are tried at most.
const MOST_CALLS: u64 = 10_000;

/// The runs in which the first call of a kind fails, the second, and so on, up to the run in which none does: how many
/// came to the same, their status and what was written; and after `-` those of the last run.
fn each<R: Threads + Sync>(
    rt: &R,
    alloc: Global,
    kind: Kind,
    words: &[&[u8]],
) -> Result<String, Unread> {
    let [command, log, files @ ..] = words else {
        return Err(Unread::Call);
    };
    let case = Case {
        command: text(command)?,
        log,
        files,
    };
    let mut answer = Answer::new(alloc);
    let mut same: Option<Same> = None;
    for call in 1..=MOST_CALLS {
        let done = case.run(rt, alloc, kind.failing(&[call]))?;
        if kind.faults(&done) == 0 {
            let answer = put_same(answer, same).word("-");
            return put_done(answer, &done).line();
        }
        (answer, same) = counted(answer, same, done);
    }
    Err(Unread::Value)
}

/// The runs so far and one more; those that came to the same are put after other words if this one came to something
/// else.
fn counted(answer: Answer, same: Option<Same>, done: Done) -> (Answer, Option<Same>) {
    match same {
        Some(same) if same.is_so(&done) => {
            let times = same.times.saturating_add(1);
            (answer, Some(Same { times, done }))
        }
        other => (put_same(answer, other), Some(Same { times: 1, done })),
    }
}

/// Puts how many runs came to the same, and to what, after other words.
fn put_same(answer: Answer, same: Option<Same>) -> Answer {
    match same {
        Some(same) => put_done(answer.word(same.times), &same.done),
        None => answer,
    }
}

/// Puts the status of a run and what was written after other words.
fn put_done(answer: Answer, done: &Done) -> Answer {
    answer.word(done.status).text(done.sink.bytes())
}
