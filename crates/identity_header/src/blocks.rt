//! Bytes of a token, 32 at a time.
ghost use Rattle.std.specs.Prelude.{◌≡◌, ◌+◌, ◌≤◌, length, take, drop};
ghost use Rattle.std.specs.List.{prefix_len};
ghost use Rattle.identity_header.specs.Parts as parts;

use std::simd::prelude::*;
use text_grammar::{first_left, outside};

/// How many digest bytes the 32 bytes from this place on begin with.
#[inline(always)]
pub(crate) fn digest_block_len(text: &[u8], place: usize) -> usize
    requires { place + 32 ≤ length text.now }
    ensures { result ≡ prefix_len parts.is_digest_byte (take 32 (drop place text.now)) }
{
    let block = u8x32::from_slice(&text[place..]);
    let marks = outside(block, b'_', b'_', u8x32::splat(255));
    let marks = outside(block, b'-', b'.', marks);
    let marks = outside(block, b'0', b'9', marks);
    let marks = outside(block, b'a', b'z', marks);
    let marks = outside(block, b'A', b'Z', marks);
    first_left(marks)
}
