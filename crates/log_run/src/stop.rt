//! What stops a run at a batch of calls.

/// What stops a run at a batch of calls.
#[derive(Drop)]
pub enum AnswerError {
    /// The file of certificates of this name couldn't be read, and these lines of the calls were to be written before.
    Unread { text: String, name: String },
    /// Memory ran out.
    Memory,
}
