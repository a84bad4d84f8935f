//! What is said of a list of tickets.
use std::marker::Model;

/// A line for each ticket, and whether all of them were won.
#[derive(Drop)]
pub struct Report {
    /// The lines.
    pub(crate) text: Vec<u8>,
    /// Each claim won its ticket.
    pub(crate) all_won: bool,
}

impl Model for Report {
    ghost use Rattle.once_run.specs.Ran.{ReportView};

    ghost Value = { ReportView };

    ghost view = { λ report. record { text = report.text.items; all_won = report.all_won } };
}

impl Report {
    ghost use Rattle.std.specs.Prelude.{◌≡◌};

    /// Whether each claim won its ticket.
    pub fn all_won(&self) -> bool
        ensures { result ≡ self.now.all_won }
    {
        self.all_won
    }

    /// The lines.
    pub fn into_text(self) -> Vec<u8>
        ensures { result.items ≡ self.text }
    {
        self.text
    }
}
