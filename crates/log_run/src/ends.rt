//! How a run goes on after a batch, and what stops it.
use crate::stop::AnswerError;
use call_log::LogFault;

/// What comes after a batch of calls.
#[derive(Clone, Copy)]
pub(crate) enum Next {
    /// More of the log, or its end: the batch is full.
    More,
    /// The end of the log.
    Whole,
    /// A fault of the log.
    Fault(LogFault),
}

/// What stops a run before the log has ended.
#[derive(Drop)]
pub enum RunError {
    /// A write failed.
    Sink,
    /// Memory ran out for the calls of a batch.
    Memory,
    /// The calls weren't answered.
    Stopped(AnswerError),
}
