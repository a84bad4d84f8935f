//! What an answers file says, kept for one look-up a question.
ghost use Rattle.std.specs.Prelude.{◌≡◌, ◌-◌, ◌^◌, ◌<◌, ◌↔◌, ℕ, List, Ok, Err, IfOk, IfErr, Some, length};
ghost use Rattle.stir_outside.specs.AnswersLine.{IsRowLine};
ghost use Rattle.stir_outside.specs.AnswersText.{AnswersText, FirstBad, answer_rows, row_of};
ghost use Rattle.stir_outside.specs.Stretch.{AddsSaid, AddsStretch, AreRows};
ghost use Rattle.stir_outside.specs.declared.answers.rows.Row.{Row};

use crate::answers::key_name::KeyName;
use crate::answers::provider::AnswerProvider;
use crate::answers::rows::{Order, Row, Triple, row_of};
use crate::answers::steady::SteadyProvider;
use crate::answers::stretch::{next_stretch, read_rows};
use std::alloc::{AllocError, Global};
use std::collections::{HashMap, HashSet};
use std::marker::Model;
use std::thread::Threads;
use text_grammar::{Line, Lines, words_law};

/// How many bytes a `confirm` line has without its end: its four words, three of them in hex digits, with a space
/// between each two.
const CONFIRM_LINE: usize = 332;

/// Why a text is no answers file.
#[derive(Clone, Copy, Debug, PartialEq, Eq)]
pub enum AnswerFault {
    /// The first bad line: it says nothing, or it signs what a line before it signs. Lines count from 1, those that are
    /// passed over too.
    Line { line: u32 },
    /// Memory ran out.
    Memory,
}

impl From<AllocError> for AnswerFault {
    ghost use Rattle.std.specs.Prelude.{◌≡◌};
    ghost use Rattle.stir_outside.specs.declared.answers.held.AnswerFault.TheVariants.{Memory};

    ghost from_gives = { λ _ e. e ≡ Memory };

    fn from(_: AllocError) -> AnswerFault {
        AnswerFault::Memory
    }
}

/// What an answers file says: signatures that are good, and signatures that were made.
///
/// A contract sees the triples and the signatures that are held, in no order that it names.
#[derive(Drop)]
pub struct Answers {
    alloc: Global,
    triples: HashSet<Triple>,
    signatures: HashMap<Order, [u8; 64]>,
}

impl Model for Answers {
    ghost use Rattle.stir_outside.specs.Held.{Held};

    ghost Value = { Held };

    ghost view = { λ a. record { triples = a.triples.keys; signatures = a.signatures.entries } };
}

impl Answers {
    ghost use Rattle.stir_outside.specs.Held.{Adds, AddsLine, AnswersOf, FaultOf, HoldsRows, held_says, held_signs};
    ghost use Rattle.std.specs.Prelude.{[]};

    /// Reads an answers file.
    ///
    /// Its lines are `confirm KEY DIGEST SIGNATURE` and `sign NAME DIGEST SIGNATURE` (this project's own rule). Of two
    /// `sign` lines with the same name and digest the second is bad; a `confirm` line may come twice.
    pub fn read(alloc: Global, text: &[u8]) -> Result<Answers, AnswerFault>
        requires { length text.now < 2 ^ 32 - 1 }
        ensures answers { IfOk result (AnswersOf text.now) }
        ensures fault { IfErr result (FaultOf text.now) }
        // What an answers file is, and which line is the first bad one.
        ensures rows { (rows : List Row) → (answer_rows text.now ≡ Ok rows) ↔ AnswersText text.now rows }
        ensures first_bad { (number : ℕ) → (answer_rows text.now ≡ Err number) ↔ FirstBad text.now number }
        // What a line says, in the words of the format.
        ensures line { (line : List ℕ) (row : Row) → (row_of line ≡ Some row) ↔ IsRowLine line row }
    {
        words_law();
        Answers::read_lines(alloc, text)
    }

    /// Reads the lines one by one, up to the first bad one.
    #[tactic(auto, using(text_grammar::proofs::ReachedLaws::one_more, text_grammar::proofs::ReachedLaws::bad_line, crate::proofs::HeldLaws::none_read, crate::proofs::HeldLaws::all_read))]
    fn read_lines(alloc: Global, text: &[u8]) -> Result<Answers, AnswerFault>
        requires { length text.now < 2 ^ 32 - 1 }
        ensures answers { IfOk result (AnswersOf text.now) }
        ensures fault { IfErr result (FaultOf text.now) }
    {
        let mut answers = Answers::none(alloc, text)?;
        let mut lines = Lines::new(text);
        while let Some(line) = lines.next() {
            if !answers.add_line(line.text)? {
                return Err(AnswerFault::Line { line: line.number });
            }
        }
        Ok(answers)
    }

    /// Reads an answers file in at most this many threads, as [`Answers::read`] does in one; 0 is read as 1.
    pub fn read_by<R: Threads + Sync>(
        rt: &R,
        alloc: Global,
        threads: usize,
        text: &[u8],
    ) -> Result<Answers, AnswerFault>
        requires { length text.now < 2 ^ 32 - 1 }
        ensures answers { IfOk result (AnswersOf text.now) }
        ensures fault { IfErr result (FaultOf text.now) }
    {
        if threads <= 1 {
            return Answers::read_lines(alloc, text);
        }
        Answers::read_stretches(rt, alloc, threads, text)
    }

    /// Reads the lines stretch by stretch, up to the first bad one.
    #[tactic(auto, using(crate::proofs::StretchLaws::stretch_added, crate::proofs::StretchLaws::stretch_bad, crate::proofs::StretchLaws::no_more, crate::proofs::StretchLaws::fewer_left, crate::proofs::HeldLaws::none_read))]
    fn read_stretches<R: Threads + Sync>(
        rt: &R,
        alloc: Global,
        threads: usize,
        text: &[u8],
    ) -> Result<Answers, AnswerFault>
        requires short { length text.now < 2 ^ 32 - 1 }
        requires some { 0 < threads }
        ensures answers { IfOk result (AnswersOf text.now) }
        ensures fault { IfErr result (FaultOf text.now) }
    {
        let mut answers = Answers::none(alloc, text)?;
        let mut lines = Lines::new(text);
        let mut stretch = Vec::new(alloc);
        'stretches: loop {
            next_stretch(&mut lines, &mut stretch)?;
            let taken = stretch.as_slice();
            if taken.is_empty() {
                return Ok(answers);
            }
            let rows = read_rows(rt, alloc, threads, taken)?;
            if let Some(line) = answers.add_stretch(taken, rows.as_slice())? {
                return Err(AnswerFault::Line { line });
            }
        }
    }

    /// Adds what the lines of a stretch say, up to the first bad one: this is its number.
    #[tactic(auto, using(crate::proofs::StretchLaws::leads_on, crate::proofs::StretchLaws::ends_at, crate::proofs::StretchLaws::all_added))]
    fn add_stretch(
        &mut self,
        stretch: &[Line<'_>],
        rows: &[Option<Row>],
    ) -> Result<Option<u32>, AllocError>
        requires { AreRows stretch.now rows.now }
        ensures { IfOk result (AddsStretch self.old self.new stretch.now) }
    {
        'lines: for at in 0..stretch.len() {
            if !self.add_row(rows[at])? {
                return Ok(Some(stretch[at].number));
            }
        }
        Ok(None)
    }

    /// Answers that say nothing, with room for the triples of a text, so that it is taken once.
    fn none(alloc: Global, text: &[u8]) -> Result<Answers, AllocError>
        ensures { IfOk result (HoldsRows []) }
    {
        Ok(Answers {
            alloc,
            triples: HashSet::with_capacity(alloc, text.len() / CONFIRM_LINE)?,
            signatures: HashMap::new(alloc),
        })
    }

    /// Adds what a line says; false if the line is bad.
    fn add_line(&mut self, line: &[u8]) -> Result<bool, AllocError>
        ensures { IfOk result (AddsLine self.old self.new line.now) }
    {
        self.add_row(row_of(line))
    }

    /// Adds the row that a line says; false if it says none, or signs what is signed already.
    fn add_row(&mut self, row: Option<Row>) -> Result<bool, AllocError>
        ensures { IfOk result (AddsSaid self.old self.new row) }
    {
        match row {
            Some(row) => self.add(row),
            None => Ok(false),
        }
    }

    /// Adds a row; false if it signs what is signed already.
    fn add(&mut self, row: Row) -> Result<bool, AllocError>
        ensures { IfOk result (Adds self.old self.new row) }
    {
        match row {
            Row::Confirm(triple) => {
                self.triples.insert(triple)?;
                Ok(true)
            }
            Row::Sign(order, signature) => {
                let before = self.signatures.insert(order, signature)?;
                Ok(before.is_none())
            }
        }
    }

    /// Whether this signature over this digest is held as good under this key.
    pub(crate) fn says(&self, key: &[u8; 65], digest: &[u8; 32], signature: &[u8; 64]) -> bool
        ensures { result ≡ held_says self.now key.now digest.now signature.now }
    {
        let triple = Triple {
            key: *key,
            digest: *digest,
            signature: *signature,
        };
        self.triples.contains(&triple)
    }

    /// The signature that is held for this name and digest.
    pub(crate) fn signs(&self, name: &[u8], digest: &[u8; 32]) -> Option<[u8; 64]>
        ensures { result ≡ held_signs self.now name.now digest.now }
    {
        let Some(name) = KeyName::new(name) else {
            return None;
        };
        let order = Order {
            name,
            digest: *digest,
        };
        self.signatures.get(&order).copied()
    }

    /// A provider that gives these answers, whose listed calls fail, counted from 1 over both kinds of calls.
    pub fn provider(&self, failing: &[u64]) -> Result<AnswerProvider<'_>, AllocError>
        ensures { IfOk result (λ provider.
            provider ≡ record { held = self.now; failing = failing.now; asks = 0; faults = 0; sign_faults = 0 }) }
    {
        let failing = Vec::from_slice(self.alloc, failing)?;
        Ok(AnswerProvider::new(self, failing))
    }

    /// A provider that gives these answers and never fails.
    pub fn steady(&self) -> SteadyProvider<'_>
        ensures { result ≡ record { held = self.now; asks = 0 } }
    {
        SteadyProvider::new(self)
    }
}
