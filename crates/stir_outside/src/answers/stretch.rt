//! Stretches of an answers file, whose lines several threads read.
ghost use Rattle.std.specs.Prelude.{◌≡◌, ◌<◌, ◌≤◌, ℕ, IfOk, OnOk, Option, length, slice_index_or};
ghost use Rattle.stir_outside.specs.Stretch.{AreRows, IsNext, IsRowAt};
ghost use Rattle.stir_outside.specs.declared.answers.rows.Row.{Row};

use crate::answers::rows::{Row, row_of};
use std::alloc::{AllocError, Global};
use std::thread;
use std::thread::Threads;
use text_grammar::{Line, Lines};

/// The most lines of a stretch, so that reading a file takes little memory beside what the file says.
const MOST_LINES: usize = 8_192;

/// Takes the next lines for a stretch, in the place of those that it has. It has none then only if there are no more.
#[tactic(auto, using(crate::proofs::StretchLaws::one_taken))]
pub(crate) fn next_stretch<'a>(
    lines: &mut Lines<'a>,
    stretch: &mut Vec<Line<'a>>,
) -> Result<(), AllocError>
    ensures next { OnOk result (IsNext lines.old stretch.new.items lines.new) }
    ensures few { OnOk result (length stretch.new.items ≤ MOST_LINES) }
{
    stretch.clear();
    'lines: while stretch.len() < MOST_LINES {
        let Some(line) = lines.next() else {
            break;
        };
        stretch.push(line)?;
    }
    Ok(())
}

/// Reads the row of each line of a stretch, in at most this many threads.
pub(crate) fn read_rows<R: Threads + Sync>(
    rt: &R,
    alloc: Global,
    threads: usize,
    stretch: &[Line<'_>],
) -> Result<Vec<Option<Row>>, AllocError>
    requires { 0 < threads }
    ensures { IfOk result (λ rows. AreRows stretch.now rows.items) }
{
    let mut rows = vec![in alloc; None; stretch.len()]?;
    read_each(rt, threads, stretch, rows.as_mut_slice());
    Ok(rows)
}

/// Reads the row of each line into its place, in at most this many threads.
fn read_each<R: Threads + Sync>(
    rt: &R,
    threads: usize,
    stretch: &[Line<'_>],
    rows: &mut [Option<Row>],
)
    requires some { 0 < threads }
    requires counted { length rows.old ≡ length stretch.now }
    ensures counted { length rows.new ≡ length stretch.now }
    ensures each { (at : ℕ) (row : Option Row) → at < length stretch.now
        → IsRowAt stretch.now at (slice_index_or rows.new at row) }
{
    thread::for_each_mut(rt, rows, threads, &|at, row| { read_row(stretch, at, row) });
}

/// Reads the row of the line at this index into its place.
fn read_row(stretch: &[Line<'_>], at: usize, row: &mut Option<Row>)
    ensures { IsRowAt stretch.now at row.new }
{
    if let Some(line) = stretch.get(at) {
        *row = row_of(line.text);
    }
}
