ghost use Rattle.std.specs.Prelude.{◌≡◌, ℕ, ◌<◌, ◌≤◌, Bool, true, List, Option, length, IfOk};
ghost use Rattle.std.specs.Io.KnownBytes.{ReadConsumes};
ghost use Rattle.stir_outside.specs.Count.{HasCause, reads_after};
ghost use Rattle.stir_outside.specs.Told.{Fills};

/// The one fault of a source, a sink and a provider.
#[derive(Clone, Copy, Debug, PartialEq, Eq)]
pub struct Failed;

/// A source of bytes, as the standard input.
///
/// `left` is what the source has left, if it tells that; `whole` is whether a read always gives as much as it has room
/// for, if so much is left, and no call changes it. `faults` counts the reads that failed, and `reads` those that
/// didn't, in 64 bits.
pub trait Source {
    ghost left: { Self → Option (List ℕ) };

    ghost whole: { Self → Bool };

    ghost faults: { Self → ℕ };

    ghost reads: { Self → ℕ };

    /// Reads up to `buf.len()` bytes into the first bytes of `buf` and says how many; 0 is the end. `Failed` takes
    /// nothing, and comes only if `faults` rose.
    fn read(&mut self, buf: &mut [u8]) -> Result<usize, Failed>
        requires { 0 < length buf.old }
        ensures within { IfOk result (λ count. count ≤ length buf.new) }
        ensures bytes { ReadConsumes (left self.old) (left self.new) result buf.new }
        ensures cause { HasCause (faults self.old) (faults self.new) result }
        ensures counted { reads self.new ≡ reads_after (reads self.old) result }
        ensures fills { whole self.old ≡ true → IfOk result (Fills (left self.new) (length buf.old)) }
        ensures same_whole { whole self.new ≡ whole self.old };
}
