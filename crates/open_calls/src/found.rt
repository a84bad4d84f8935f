//! What comes of a call, if nothing is left open.
ghost use Rattle.std.specs.Prelude.{◌≡◌, IfOk, string_bytes};
ghost use Rattle.verify_rules.specs.Call.{Call};
ghost use Rattle.verify_rules.specs.World.{World};
ghost use Rattle.call_judging.specs.Explain.{Explain, explained};
ghost use Rattle.open_calls.specs.Founds.{IsFound, finding_of};

use call_judging::{Finding, Pass, explain_law, explained};
use std::alloc::{AllocError, Global};
use verify_rules::Refusal;

/// What comes of a call by all rules but the one on replay.
#[derive(Clone, Copy)]
pub enum Found {
    /// This is the first rule that it breaks.
    Refused(Refusal),
    /// It breaks none, and is known again by this.
    Passes(Pass),
}

impl Found {
    /// The same, for whoever explains it.
    pub fn finding(&self) -> Finding
        ensures { result ≡ finding_of self.now }
    {
        match self {
            Found::Refused(refusal) => Finding::Refused(*refusal),
            Found::Passes(pass) => Finding::Passes(*pass),
        }
    }

    /// The lines that explain the call of this number: one for each rule up to the first that is broken. `AllocError`
    /// is the only error.
    pub fn explain(&self, alloc: Global, number: u32) -> Result<String, AllocError>
        ensures exact { IfOk result (λ text. string_bytes text ≡ explained number (finding_of self.now)) }

        // In each world in which this comes of a call they are the lines of the rules.
        ensures right { (world : World) (call : Call) → IsFound world call self.now
            → IfOk result (λ text. string_bytes text ≡ Explain world number call) }
    {
        explain_law();
        let text = explained(alloc, number, &self.finding())?;
        Ok(text)
    }
}
