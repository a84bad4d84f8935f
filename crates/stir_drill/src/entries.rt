//! Headers of the log's entries, and an entry once more.
ghost use Rattle.std.specs.Prelude.{◌≡◌, ◌≤◌, ◌+◌, ◌++◌, ℕ, List, [], length, OnOk};
ghost use Rattle.call_log.specs.Entry.{headed};

use itoa::Buffer;
use std::alloc::AllocError;

/// Appends the header of an entry, `@MOMENT LENGTH` with its LF.
#[tactic(auto, using(crate::proofs::EntryLaws::header_spelled))]
pub(crate) fn put_header(log: &mut Vec<u8>, moment: u64, size: usize) -> Result<(), AllocError>
    ensures { OnOk result (log.new.items ≡ log.old.items ++ headed moment size []) }
{
    let mut buffer = Buffer::new();
    log.push(b'@')?;
    log.extend_from_slice(buffer.format(moment).as_bytes())?;
    log.push(b' ')?;
    log.extend_from_slice(buffer.format(size).as_bytes())?;
    log.push(b'\n')?;
    Ok(())
}

/// Appends an entry of this moment, whose message is once more the end of the log, so many bytes.
pub(crate) fn put_last_again(log: &mut Vec<u8>, moment: u64, size: usize) -> Result<(), AllocError>
    ensures { (front message : List ℕ) → log.old.items ≡ front ++ message → size ≡ length message
        → OnOk result (log.new.items ≡ log.old.items ++ headed moment (length message) message) }
{
    let end = log.len();
    let start = end.saturating_sub(size);
    put_header(log, moment, size)?;
    log.extend_from_within(start..end)?;
    Ok(())
}
