//! In how many threads an answers file is read.
ghost use Rattle.std.specs.Prelude.{◌-◌, ◌^◌, ◌<◌, IfOk, IfErr, length};
ghost use Rattle.stir_outside.specs.Held.{AnswersOf, FaultOf};

use crate::answers::held::{AnswerFault, Answers};
use std::alloc::Global;
use std::thread::Threads;

/// Who reads an answers file: one thread, or several.
pub trait AnswersReader {
    /// What holds of the reader before it reads.
    ghost ready: { Self → Type 0 };

    /// Reads an answers file, as [`Answers::read`] does.
    fn read(&self, alloc: Global, text: &[u8]) -> Result<Answers, AnswerFault>
        requires ready { ready self.now }
        requires short { length text.now < 2 ^ 32 - 1 }
        ensures answers { IfOk result (AnswersOf text.now) }
        ensures fault { IfErr result (FaultOf text.now) };
}

/// The thread that calls reads the file alone.
#[derive(Clone, Copy)]
pub struct OneThread;

impl AnswersReader for OneThread {
    ghost use Rattle.std.specs.Prelude.{⊤};

    ghost ready = { λ _. ⊤ };

    fn read(&self, alloc: Global, text: &[u8]) -> Result<Answers, AnswerFault> {
        Answers::read(alloc, text)
    }
}

/// So many threads read the file, at most; 0 is read as 1.
#[derive(Drop)]
pub struct SeveralThreads<'a, R: Threads + Sync> {
    pub rt: &'a R,
    pub threads: usize,
}

impl<'a, R: Threads + Sync> AnswersReader for SeveralThreads<'a, R> {
    ghost use Rattle.std.specs.Thread.{IsSync};

    ghost ready = { λ _. IsSync R.row };

    fn read(&self, alloc: Global, text: &[u8]) -> Result<Answers, AnswerFault> {
        Answers::read_by(self.rt, alloc, self.threads, text)
    }
}
