//! A state file read line by line.
ghost use Rattle.std.specs.Prelude.{◌≡◌, ◌≤◌, [], IfOk, None};
ghost use Rattle.lists.specs.Given.{Gives};
ghost use Rattle.state_text.specs.Reading.{behind_head, ends, entries_in, next_number};
ghost use Rattle.state_text.specs.Seen.{fault_line};
ghost use Rattle.state_text.specs.State.{AreEntries};

use crate::entries::is_above;
use crate::fault::StateFault;
use crate::kept::Kept;
use crate::lines::Lines;
use crate::rows::{kept_on, number_on};
use std::alloc::Global;

/// Goes past the first line that is `past 1`.
pub(crate) fn find_head(lines: &mut Lines<'_>) -> Result<(), StateFault>
    ensures { Gives fault_line (λ _. (lines.new.number, lines.new.lines)) result
        (behind_head lines.old.number lines.old.lines) }
{
    while let Some(line) = lines.next() {
        if line == b"past 1\n".as_slice() {
            return Ok(());
        }
        if line == b"past 1".as_slice() {
            return Err(StateFault::Line {
                line: lines.number() - 1,
            });
        }
    }
    Err(StateFault::Line {
        line: lines.number(),
    })
}

/// The number on the next line, after this name.
pub(crate) fn next_number(lines: &mut Lines<'_>, name: &[u8], most: u64) -> Result<u64, StateFault>
    ensures within { IfOk result (λ value. value ≤ most) }
    ensures exact { Gives fault_line (λ value. (value, lines.new.number, lines.new.lines)) result
        (next_number name.now most lines.old.number lines.old.lines) }
{
    let number = lines.number();
    let Some(line) = lines.next() else {
        return Err(StateFault::Line { line: number });
    };
    match number_on(line, name, most) {
        Some(value) => Ok(value),
        None => Err(StateFault::Line { line: number }),
    }
}

/// The entries up to the line that says how many they are.
#[tactic(auto, using(crate::proofs::RuleLaws::read_are))]
pub(crate) fn read_entries(
    alloc: Global,
    lines: &mut Lines<'_>,
    call: u32,
) -> Result<Vec<([u8; 32], Kept)>, StateFault>
    ensures exact { Gives fault_line (λ kept. kept.items) result (entries_in call lines.old.number [] lines.old.lines) }
    ensures are { IfOk result (λ kept. AreEntries call None kept.items) }
{
    entries_exactly(alloc, lines, call)
}

/// The same, of one exit.
fn entries_exactly(
    alloc: Global,
    lines: &mut Lines<'_>,
    call: u32,
) -> Result<Vec<([u8; 32], Kept)>, StateFault>
    ensures { Gives fault_line (λ kept. kept.items) result (entries_in call lines.old.number [] lines.old.lines) }
{
    let mut kept = Vec::new(alloc);
    let mut number = lines.number();
    'lines: while let Some(line) = lines.next() {
        match kept_on(line, call) {
            Some(entry) => {
                if !is_above(&kept, &entry.0) {
                    return Err(StateFault::Line { line: number });
                }
                if kept.push(entry).is_err() {
                    return Err(StateFault::Memory);
                }
            }
            None => {
                if !ends(&kept, line) {
                    return Err(StateFault::Line { line: number });
                }
                return Ok(kept);
            }
        }
        number = lines.number();
    }
    Err(StateFault::Line { line: number })
}

/// Whether the line says that the entries are so many.
fn ends(kept: &[([u8; 32], Kept)], line: &[u8]) -> bool
    ensures { result ≡ ends kept.now line.now }
{
    match number_on(line, b"end ", 4_294_967_295) {
        Some(number) => number == kept.len() as u64,
        None => false,
    }
}
