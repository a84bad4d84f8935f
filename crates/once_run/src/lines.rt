//! The lines of a report.
ghost use Rattle.std.specs.Prelude.{◌≡◌, ◌++◌, IfOk, OnOk};
ghost use Rattle.once_run.specs.Lines.{all_won, claim_line, claim_lines, full_text, is_won};

use itoa::Buffer;
use live_desk::LiveClaim;
use std::alloc::{AllocError, Global};

/// A line for each claim, numbered from 1. `AllocError` is the only error.
#[tactic(auto, using(crate::proofs::LineLaws::lines_more, crate::proofs::LineLaws::lines_done))]
pub(crate) fn claim_lines(alloc: Global, claims: &[LiveClaim]) -> Result<Vec<u8>, AllocError>
    ensures { IfOk result (λ text. text.items ≡ claim_lines claims.now) }
{
    let mut text = Vec::new(alloc);
    'lines: for (index, claim) in claims.iter().enumerate() {
        put_line(&mut text, index + 1, *claim)?;
    }
    Ok(text)
}

/// Appends the line of a claim: its number, and what came of it.
#[tactic(auto, using(crate::proofs::LineLaws::line_spelled))]
fn put_line(text: &mut Vec<u8>, number: usize, claim: LiveClaim) -> Result<(), AllocError>
    ensures { OnOk result (text.new.items ≡ text.old.items ++ claim_line number claim) }
{
    let mut buffer = Buffer::new();
    text.extend_from_slice(buffer.format(number).as_bytes())?;
    match claim {
        LiveClaim::Won => text.extend_from_slice(b" won\n"),
        LiveClaim::Lost => text.extend_from_slice(b" lost\n"),
        LiveClaim::Full { level } => put_full(text, level),
    }
}

/// Appends what a line says of a full level.
#[tactic(auto, using(crate::proofs::LineLaws::level_spelled))]
fn put_full(text: &mut Vec<u8>, level: u8) -> Result<(), AllocError>
    ensures { OnOk result (text.new.items ≡ text.old.items ++ full_text level) }
{
    let mut buffer = Buffer::new();
    text.extend_from_slice(b" full ")?;
    text.extend_from_slice(buffer.format(level).as_bytes())?;
    text.push(b'\n')?;
    Ok(())
}

/// Whether each claim won its ticket.
pub(crate) fn all_won(claims: &[LiveClaim]) -> bool
    ensures { result ≡ all_won claims.now }
{
    claims.iter().all(|claim| is_won(claim))
}

/// Whether the claim won its ticket.
fn is_won(claim: &LiveClaim) -> bool
    ensures { result ≡ is_won claim.now }
{
    matches!(claim, LiveClaim::Won)
}
