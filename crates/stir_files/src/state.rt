//! The state of an earlier run.
ghost use Rattle.std.specs.Prelude.{◌≡◌, ◌≤◌, IfErr, IfOk, length};
ghost use Rattle.stir_files.specs.Named.{IsRefusal};
ghost use Rattle.stir_files.specs.StateFile.{StateOf, refusal_by, window_line};

use crate::fault::FileFault;
use state_text::{State, StateFault, first_line};
use std::alloc::Global;

/// The most bytes of a state file.
pub(crate) const MOST_BYTES: usize = 536_870_912;

/// The state that the content holds, if its window is this one. The place of a fault is the first bad line, or the line
/// of another window: the whole content is read first.
#[tactic(auto, using(crate::proofs::StateSteps::bad_line, crate::proofs::StateSteps::other_window, crate::proofs::StateSteps::is_state))]
pub(crate) fn read_state(alloc: Global, content: &[u8], window: u64) -> Result<State, FileFault>
    requires size { length content.now ≤ MOST_BYTES }
    requires window { window ≤ 86400 }
    ensures read { IfOk result (StateOf window content.now) }
    ensures refused { IfErr result (IsRefusal (refusal_by window content.now)) }
{
    match State::read(alloc, content, window) {
        Ok(state) => {
            if state.window() == window {
                Ok(state)
            } else {
                Err(FileFault::Refused {
                    place: window_line(content),
                })
            }
        }
        Err(StateFault::Line { line }) => Err(FileFault::Refused {
            place: u64::from(line),
        }),
        Err(StateFault::Memory) => Err(FileFault::Memory),
    }
}

/// The number of the line after the first that is `past 1`; 0 if none is.
#[tactic(auto, unfolding(crate::specs::StateFile::window_line))]
fn window_line(content: &[u8]) -> u64
    requires { length content.now ≤ MOST_BYTES }
    ensures { result ≡ window_line content.now }
{
    let mut number = 1;
    let mut left = content;
    'lines: while let Some((line, rest)) = first_line(left) {
        number += 1;
        if line == b"past 1\n".as_slice() {
            return number;
        }
        left = rest;
    }
    0
}
