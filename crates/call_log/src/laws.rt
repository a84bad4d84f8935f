//! What no contract of the reader can carry: a law of logs, as a function with an empty body. Call it, and its clause
//! is known.
ghost use Rattle.std.specs.Prelude.{◌≡◌, ℕ, ◌+◌, ◌-◌, ◌/◌, ◌≤◌, List, length, Some, true};
ghost use Rattle.call_log.specs.HandsOut.{OneLog};
ghost use Rattle.call_log.specs.Supply.{DrawsEach, Supply};

/// Bytes are one log: its calls, and what comes after them, are found in one way.
pub fn one_log()
    ensures { OneLog }
{}

/// If the source's reads are whole, those of several calls of one reader rise together by at most one for each 65,536
/// bytes that were taken, and two.
pub fn reads_law()
    ensures few { (before : Supply) (between : List Supply) (now : Supply) (left behind : List ℕ)
        → DrawsEach before between now → before.whole ≡ true → before.left ≡ Some left → now.left ≡ Some behind
        → now.reads ≤ before.reads + (length left - length behind) / 65536 + 2 }
{}
