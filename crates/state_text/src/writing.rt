//! A state written line by line.
ghost use Rattle.std.specs.Prelude.{◌≡◌, ◌++◌, IfOk, OnOk, string_bytes};
ghost use Rattle.state_text.specs.StateText.{head_text, kept_line, kept_lines, text_of};

use crate::kept::Kept;
use std::alloc::{AllocError, Global};
use std::fmt::Write;

/// The lines of a state before its entries.
pub(crate) fn head_text(
    alloc: Global,
    window: u64,
    call: u32,
    moment: u64,
) -> Result<String, AllocError>
    ensures { IfOk result (λ text. string_bytes text ≡ head_text window call moment) }
{
    format!(in alloc; "past 1\nwindow {window}\ncall {call}\nmoment {moment}\n")
}

/// Writes the lines of entries after the text.
pub(crate) fn add_entries(
    text: &mut String,
    alloc: Global,
    kept: &[([u8; 32], Kept)],
) -> Result<(), AllocError>
    ensures { OnOk result (string_bytes text.new ≡ string_bytes text.old ++ text_of (kept_lines kept.now)) }
{
    'entries: for entry in kept {
        add_entry(text, alloc, entry)?;
    }
    Ok(())
}

/// Writes the line of an entry after the text.
fn add_entry(text: &mut String, alloc: Global, entry: &([u8; 32], Kept)) -> Result<(), AllocError>
    ensures { OnOk result (string_bytes text.new ≡ string_bytes text.old ++ kept_line entry.now) }
{
    let ticket = hex::encode(alloc, entry.0)?;
    let call = entry.1.call;
    let last = entry.1.last;
    writeln!(text, "kept {ticket} {call} {last}")
}
