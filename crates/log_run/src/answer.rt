//! What a batch of calls is answered.
ghost use Rattle.std.specs.Prelude.{◌≡◌, ◌&&◌};

use std::marker::Model;

/// The lines that are written of a batch, whole and each with its LF, and whether nothing is wrong with its calls.
#[derive(Drop)]
pub struct BatchAnswer {
    text: Vec<u8>,
    well: bool,
}

impl Model for BatchAnswer {
    ghost use Rattle.log_run.specs.Batch.{BatchAnswerView};

    ghost Value = { BatchAnswerView };

    ghost view = { λ a. record { text = a.text.items; well = a.well } };
}

impl BatchAnswer {
    /// The answer of these lines.
    pub fn new(text: Vec<u8>, well: bool) -> BatchAnswer
        ensures { result ≡ record { text = text.items; well = well } }
    {
        BatchAnswer { text, well }
    }

    /// The lines.
    pub fn text(&self) -> &[u8]
        ensures { result.now ≡ self.now.text }
    {
        self.text.as_slice()
    }

    /// All is well so far, and with these calls.
    pub(crate) fn keeps_well(&self, so_far: bool) -> bool
        ensures { result ≡ (so_far && self.now.well) }
    {
        so_far && self.well
    }
}
