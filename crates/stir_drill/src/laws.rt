//! Laws. A function here does nothing: its clause is the law.
ghost use Rattle.std.specs.Prelude.{◌≡◌, ◌≢◌, ◌≤◌, ◌+◌, ◌*◌, ℕ, [], length, Err};
ghost use Rattle.call_log.specs.Log.{LogText, start};
ghost use Rattle.stir_drill.specs.Calls.{calls_of, log_of};
ghost use Rattle.stir_drill.specs.Readable.{AreUpTo};
ghost use Rattle.stir_drill.specs.Sentences.{SaysCall};
ghost use Rattle.stir_drill.specs.World.{answers_of};
ghost use Rattle.stir_outside.specs.AnswersText.{answer_rows};

/// Each call of the drill is what its format says of it in words, by the first of its two draws.
pub fn call_law()
    ensures { (seed i : ℕ) → 1 ≤ i → SaysCall seed i }
{}

/// The log of the drill is whole: its calls are read from it, and nothing comes after them. An entry has at most 739
/// bytes.
pub fn log_law()
    ensures whole { (seed count : ℕ) → count ≤ 100000
        → LogText (start 0 0) (log_of seed count) (calls_of seed count) [] }
    ensures short { (seed count : ℕ) → count ≤ 100000 → AreUpTo 739 (calls_of seed count) }
{}

/// None of the lines of the drill's answers is bad. A line has at most 333 bytes.
pub fn answers_law()
    ensures read { (seed count bad : ℕ) → answer_rows (answers_of seed count) ≢ Err bad }
    ensures size { (seed count : ℕ) → length (answers_of seed count) ≤ 333 * (count + 2) }
{}
