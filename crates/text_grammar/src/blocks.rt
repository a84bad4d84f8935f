//! Bytes of a text, 32 at a time.
ghost use Rattle.std.specs.Prelude.{◌≡◌, ◌+◌, ◌≤◌, ◌&&◌, ◌==◌, not, nat_le, length, take, drop, if◌then◌else◌};
ghost use Rattle.std.specs.List.{prefix_len};
ghost use Rattle.std.specs.Simd.Lanes.{zip2};
ghost use Rattle.text_grammar.specs.Bytes.{is_uri_byte};

use std::simd::prelude::*;

/// How many bytes a block has.
pub const BLOCK: usize = 32;

/// What is left of these marks of a block's bytes if those of the bytes from `low` to `high` are taken away.
#[inline(always)]
pub fn outside(block: u8x32, low: u8, high: u8, marks: u8x32) -> u8x32
    ensures { result ≡ zip2 (λ byte mark. if nat_le low byte && nat_le byte high then 0 else mark) block marks }
{
    let below = block
        .simd_le(u8x32::splat(high))
        .select(u8x32::splat(0), marks);
    block.simd_ge(u8x32::splat(low)).select(below, marks)
}

/// How many marks come before the first that is left, which is 255: 32 if none is.
#[inline(always)]
pub fn first_left(marks: u8x32) -> usize
    ensures { result ≡ prefix_len (λ mark. not (mark == 255)) marks }
{
    let left = marks.simd_eq(u8x32::splat(255)).to_bitmask();
    if left == 0 {
        BLOCK
    } else {
        left.trailing_zeros() as usize
    }
}

/// How many uri bytes the 32 bytes from this place on begin with.
#[inline(always)]
pub(crate) fn uri_block_len(text: &[u8], place: usize) -> usize
    requires { place + 32 ≤ length text.now }
    ensures { result ≡ prefix_len is_uri_byte (take 32 (drop place text.now)) }
{
    let block = u8x32::from_slice(&text[place..]);
    let marks = outside(block, b'!', b'!', u8x32::splat(255));
    let marks = outside(block, b'#', b';', marks);
    let marks = outside(block, b'=', b'=', marks);
    let marks = outside(block, b'?', b'[', marks);
    let marks = outside(block, b']', b'~', marks);
    first_left(marks)
}
