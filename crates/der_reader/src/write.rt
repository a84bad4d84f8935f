//! One DER element after what was written before (X.690, sections 8.1.2, 8.1.3 and 10.1).

ghost use Rattle.std.specs.Prelude.{◌≡◌, ◌≢◌, ◌+◌, ◌≤◌, ◌<◌, ◌++◌, ◌∷◌, [], length, vec_len, vec_capacity, bit_and};
ghost use Rattle.std.specs.Prelude.{OnOk, OnErr, IfOk, IsOk};
ghost use Rattle.std.specs.Vec.{VecUnchanged};
ghost use Rattle.der_reader.specs.Elem.{element_text, length_text};
ghost use Rattle.der_reader.specs.Integer.{integer_content};
ghost use Rattle.der_reader.specs.Put.{AddsElement, ReadsBack};

pub use std::alloc::AllocError as Memory;
use std::alloc::Global;

/// Appends one element to `out`: tag, length and content, in DER's one form.
///
/// The low five bits of the tag byte may not all be set, and the content is at most 65,535 bytes.
/// `Memory` comes if there is no memory for the element, and then `out` is as it was.
pub fn put(out: &mut Vec<u8>, tag: u8, content: &[u8]) -> Result<(), Memory>
    requires low_tag { bit_and tag 0x1F ≢ 0x1F }
    requires size { length content.now ≤ 65535 }
    ensures ok { OnOk result (AddsElement out.old.items out.new.items tag content.now) }
    ensures reads_back { OnOk result (ReadsBack out.old.items out.new.items tag content.now) }
    ensures text { OnOk result (out.new.items ≡ out.old.items ++ element_text tag content.now) }
    ensures short { OnOk result (length content.now < 128
        → length out.new.items ≡ length out.old.items + (2 + length content.now)) }
    ensures err { OnErr result (VecUnchanged out.old out.new) }
    ensures err_capacity { OnErr result (vec_capacity out.new ≡ vec_capacity out.old) }
{
    out.reserve(content.len() + 4)?;
    out.push(tag)?;
    put_length(out, content.len())?;
    out.extend_from_slice(content)
}

/// One element: tag, length and content, as `put` writes it.
pub fn encode(alloc: Global, tag: u8, content: &[u8]) -> Result<Vec<u8>, Memory>
    requires low_tag { bit_and tag 0x1F ≢ 0x1F }
    requires size { length content.now ≤ 65535 }
    ensures text { IfOk result (λ text. text.items ≡ element_text tag content.now) }
    ensures short { IfOk result (λ text. length content.now < 128 → length text.items ≡ 2 + length content.now) }
{
    let mut text = Vec::new(alloc);
    put(&mut text, tag, content)?;
    Ok(text)
}

/// Appends the length of some content, for which there is room.
#[tactic(auto, unfolding(crate::specs::Elem::length_text))]
fn put_length(out: &mut Vec<u8>, size: usize) -> Result<(), Memory>
    requires size { size ≤ 65535 }
    requires room { vec_len out.old + 3 ≤ vec_capacity out.old }
    ensures ok { IsOk result }
    ensures items { out.new.items ≡ out.old.items ++ length_text size }
    ensures len { vec_len out.new ≤ vec_len out.old + 3 }
    ensures capacity { vec_capacity out.old ≤ vec_capacity out.new }
{
    match size {
        0..=0x7F => out.push(size as u8)?,
        0x80..=0xFF => out.extend_from_slice(&[0x81, size as u8])?,
        _ => out.extend_from_slice(&[0x82, (size / 0x100) as u8, (size % 0x100) as u8])?,
    }
    Ok(())
}

/// Appends the content of an INTEGER (X.690, section 8.3): the number in its fewest bytes, the highest first and below
/// 0x80.
#[tactic(auto, using(crate::proofs::IntegerTexts::content_small, crate::proofs::IntegerTexts::large_written))]
pub fn put_integer(out: &mut Vec<u8>, number: u64) -> Result<(), Memory>
    ensures { OnOk result (out.new.items ≡ out.old.items ++ integer_content number) }
{
    if number < 0x80 {
        out.push(number as u8)?;
        return Ok(());
    }
    put_integer(out, number / 0x100)?;
    out.push((number % 0x100) as u8)?;
    Ok(())
}
