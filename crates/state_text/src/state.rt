//! What one run hands on to the next.
ghost use Rattle.std.specs.Prelude.{◌≡◌, ◌↔◌, ◌≤◌, ◌<◌, ◌^◌, ◌-◌, ℕ, List, length, IfOk, IfErr, IfSome, IsSome, None};
ghost use Rattle.std.specs.Prelude.{Ok, Err};
ghost use Rattle.lists.specs.Given.{Gives};
ghost use Rattle.state_text.specs.BadLine.{IsBadLine};
ghost use Rattle.state_text.specs.Reading.{read_state, state_in};
ghost use Rattle.state_text.specs.Seen.{IfLine, fault_line};
ghost use Rattle.state_text.specs.State.{EachIsKept, IsState, Rises, StateView};
ghost use Rattle.state_text.specs.StateText.{StateFile, StateText, state_text};

use crate::entries::are_entries;
use crate::fault::StateFault;
use crate::kept::Kept;
use crate::lines::Lines;
use crate::reading::{find_head, next_number, read_entries};
use crate::writing::{add_entries, head_text};
use std::alloc::{AllocError, Global};
use std::fmt::Write;
use std::marker::Model;
use text_grammar::LAST_SECOND;

/// The longest window: a day, in seconds.
const MOST_WINDOW: u64 = 86_400;

/// The greatest number of a last call that a text may have.
const MOST_CALL: u64 = 4_000_000_000;

/// What one run hands on to the next: by what window it judged, the number and the moment of its last call, and which
/// calls passed on which tickets.
#[derive(Drop)]
pub struct State {
    /// How many seconds after its `iat` a PASSporT is fresh.
    window: u64,
    /// The number of the last call, 0 before the first.
    call: u32,
    /// The moment of the last call, in Unix seconds.
    moment: u64,
    /// Which calls passed on which tickets, in rising order of tickets.
    kept: Vec<([u8; 32], Kept)>,
}

impl Model for State {
    ghost use Rattle.state_text.specs.State.{StateView};

    ghost Value = { StateView };

    ghost use Rattle.state_text.specs.State.{IsState};

    ghost view = { λ s. record { window = s.window; call = s.call; moment = s.moment; kept = s.kept.items } };

    ghost invariant = { λ s.
        IsState (record { window = s.window; call = s.call; moment = s.moment; kept = s.kept.items }) };
}

impl State {
    /// Reads a state file. An empty one means a state with this window, of at most a day in seconds, in which no call
    /// came and nothing is kept.
    ///
    /// `Line` names the first line that can't be read, or the line after the last if lines are missing.
    #[tactic(auto, using(crate::proofs::AnswerLaws::found_by, crate::proofs::AnswerLaws::only_by, crate::proofs::AnswerLaws::refused_by, crate::proofs::AnswerLaws::first_by))]
    pub fn read(alloc: Global, text: &[u8], window: u64) -> Result<State, StateFault>
        requires size { length text.now < 2 ^ 32 - 1 }
        requires window { window ≤ 86400 }
        // the state that the file holds, and a file that holds one is read
        ensures found { IfOk result (λ state. StateFile window text.now state) }
        ensures only { (state : StateView) → StateFile window text.now state
            → Gives fault_line (λ state. state) result (Ok state) }
        // the bad line, and a file that has one is refused
        ensures refused { IfErr result (λ fault. IfLine fault (IsBadLine window text.now)) }
        ensures first { (line : ℕ) → IsBadLine window text.now line
            → Gives fault_line (λ state. state) result (Err line) }
        ensures exact { Gives fault_line (λ state. state) result (read_state window text.now) }
    {
        State::read_exactly(alloc, text, window)
    }

    /// What is handed on; None exactly if a rule of a state is broken. The window is at most a day, the moment at most
    /// the last second of the year
    /// 9999. The tickets rise strictly. Each entry is of a call from 1 up to `call`, and fresh up to 253,402,387,199 at
    ///       most.
    ///
    /// `call` may be above 4,000,000,000, up to which a text is read.
    pub fn new(window: u64, call: u32, moment: u64, kept: Vec<([u8; 32], Kept)>) -> Option<State>
        ensures exact { IfSome result
            (λ state. state ≡ record { window = window; call = call; moment = moment; kept = kept.items }) }
        ensures rules { IsSome result
            ↔ IsState (record { window = window; call = call; moment = moment; kept = kept.items }) }
        // each ticket is 32 bytes by its type, so that nothing is asked of it but its place
        ensures made { window ≤ 86400 → moment ≤ 253402300799 → EachIsKept call kept.items
            → Rises None kept.items → IsSome result }
    {
        if window <= MOST_WINDOW && moment <= LAST_SECOND && are_entries(call, &kept) {
            return Some(State {
                window,
                call,
                moment,
                kept,
            });
        }
        None
    }

    /// How many seconds after its `iat` a PASSporT is fresh.
    pub fn window(&self) -> u64
        ensures { result ≡ self.now.window }
    {
        self.window
    }

    /// The number of the last call, 0 before the first.
    pub fn call(&self) -> u32
        ensures { result ≡ self.now.call }
    {
        self.call
    }

    /// The moment of the last call, in Unix seconds.
    pub fn moment(&self) -> u64
        ensures { result ≡ self.now.moment }
    {
        self.moment
    }

    /// Which calls passed on which tickets, in rising order of tickets.
    pub fn kept(&self) -> &[([u8; 32], Kept)]
        ensures items { result.now ≡ self.now.kept }
        ensures rules { IsState self.now }
    {
        &self.kept
    }

    /// The text of the state. The only error is that memory ran out.
    ///
    /// Reading it gives the same state if the number of its call is at most 4,000,000,000.
    #[tactic(auto, using(crate::proofs::AnswerLaws::handed_on, crate::proofs::AnswerLaws::text_again))]
    pub fn write(&self) -> Result<Vec<u8>, AllocError>
        ensures exact { IfOk result (λ text. text.items ≡ state_text self.now) }
        ensures text { self.now.call ≤ 4000000000 → IfOk result (λ text. StateText text.items self.now) }
        ensures read_again { self.now.call ≤ 4000000000 → IfOk result (λ text. length text.items < 2 ^ 32 - 1
            → (window : ℕ) → read_state window text.items ≡ Ok self.now) }
    {
        let _ = &self.window;
        self.write_exactly()
    }

    /// The same, of one exit.
    #[tactic(auto, using(crate::proofs::WriteLaws::written_by))]
    fn write_exactly(&self) -> Result<Vec<u8>, AllocError>
        ensures { IfOk result (λ text. text.items ≡ state_text self.now) }
    {
        let alloc = *self.kept.allocator();
        let mut text = head_text(alloc, self.window, self.call, self.moment)?;
        add_entries(&mut text, alloc, &self.kept)?;
        let count = self.kept.len();
        writeln!(text, "end {count}")?;
        Ok(text.into_bytes())
    }

    /// The same, of one exit.
    #[tactic(auto, unfolding(crate::specs::Reading::read_state))]
    fn read_exactly(alloc: Global, text: &[u8], window: u64) -> Result<State, StateFault>
        requires size { length text.now < 2 ^ 32 - 1 }
        requires window { window ≤ 86400 }
        ensures { Gives fault_line (λ state. state) result (read_state window text.now) }
    {
        if text.is_empty() {
            return Ok(State {
                window,
                call: 0,
                moment: 0,
                kept: Vec::new(alloc),
            });
        }
        let mut lines = Lines::new(text);
        find_head(&mut lines)?;
        State::read_on(alloc, &mut lines)
    }

    /// Reads the state after its first line.
    #[tactic(auto, unfolding(crate::specs::Reading::state_in))]
    fn read_on(alloc: Global, lines: &mut Lines<'_>) -> Result<State, StateFault>
        ensures { Gives fault_line (λ state. state) result (state_in lines.old.number lines.old.lines) }
    {
        let window = next_number(lines, b"window ", MOST_WINDOW)?;
        let call = next_number(lines, b"call ", MOST_CALL)? as u32;
        let moment = next_number(lines, b"moment ", LAST_SECOND)?;
        let kept = read_entries(alloc, lines, call)?;
        Ok(State {
            window,
            call,
            moment,
            kept,
        })
    }
}
