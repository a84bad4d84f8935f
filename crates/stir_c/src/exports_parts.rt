//! What C calls to have the parts of certificates. `include/stir.h` declares the same.
ghost use Rattle.std.specs.Option.{option_map};
ghost use Rattle.std.specs.Prelude.{◌≡◌, ◌≢◌, ◌≤◌, IfOk, None};
ghost use Rattle.stir_c.specs.ChainParts.{ChainPartIs, ToldFound, ToldPart};
ghost use Rattle.stir_c.specs.Handles.{chain_held};
ghost use Rattle.stir_c.specs.Owned.{view_of_chain};
ghost use Rattle.stir_c.specs.Saying.{IfOpen};

use crate::handles::ChainHandle;
use crate::owner::HeldChain;
use crate::parts::chain_part;
use crate::said::Said;
use crate::writing::{Text, told_text};
use std::alloc::{AllocError, Global};

/// Writes a part of a certificate of the chain, for who asks whether it is revoked (RFC 5280). Certificates count from
/// 1, the leaf's. Parts: 1 the content of the serial number, 2 the subject and 3 the issuer, whole elements, 4 the
/// service provider codes, each with an LF, 5 the SHA-256 of the signed part, 6 the first and 7 the last second at
/// which it is valid, in decimal digits, 8 the URIs of its CRL distribution points, each with an LF. Kind 4: there is
/// no room. Kind 5: the handle is closed. Kind 6: there is no certificate or part of this number, or nothing of this
/// part in it.
#[unsafe(no_mangle)]
pub extern "C" fn stir_chain_part(
    alloc: Global,
    chain: &mut ChainHandle,
    number: u32,
    part: u32,
    room: &mut [u8],
) -> Said
    ensures kinds { result.kind ≤ 6 }
    ensures stays { chain_held chain.new ≡ chain_held chain.old }
    ensures told { result.kind ≢ 3 → IfOpen (chain_held chain.old)
        (λ held. ToldPart held.chain.bytes number part room.old room.new result) result }
    ensures closed { result.kind ≡ 5 → chain_held chain.old ≡ None }
    ensures as_was { 1 ≤ result.kind → room.new ≡ room.old }
{
    let owner = match chain.take(alloc) {
        Some(owner) => owner,
        None => return Said::closed(),
    };
    let found = part_held(alloc, owner.chain(), number, part);
    *chain = ChainHandle::of(owner);
    told_part(found, room)
}

/// A part of a certificate of a chain. `AllocError` is the only error.
fn part_held(
    alloc: Global,
    held: &HeldChain,
    number: u32,
    part: u32,
) -> Result<Option<Text>, AllocError>
    ensures { IfOk result (λ found.
        ChainPartIs (view_of_chain held.now).chain.bytes number part (option_map (λ text. text.bytes.items) found)) }
{
    chain_part(alloc, held.chain.bytes(), number, part)
}

/// A part, written into the room and told.
fn told_part(found: Result<Option<Text>, AllocError>, room: &mut [u8]) -> Said
    ensures { ToldFound found room.old room.new result }
{
    match found {
        Ok(Some(text)) => told_text(&text, room),
        Ok(None) => Said::none(),
        Err(_) => Said::no_memory(),
    }
}
