//! Where it is told whether a certificate is revoked.
ghost use Rattle.std.specs.Option.{option_map};
ghost use Rattle.std.specs.Prelude.{◌≡◌, IfOk};
ghost use Rattle.chain_lines.specs.Elements.{inside};
ghost use Rattle.chain_lines.specs.Revocation.{points_in, revocation_of, uris_in};

use crate::made::{Make, within};
use std::alloc::{AllocError, Global};

/// The tag of a SEQUENCE.
const SEQUENCE: u8 = 0x30;

/// The tag of the extensions in a signed part, [3].
const EXTENSIONS: u8 = 0xA3;

/// The tag of the name in a distribution point, and of a full name in that, [0].
const NAME: u8 = 0xA0;

/// The tag of a URI among general names, [6].
const URI: u8 = 0x86;

/// The URIs of the CRL distribution points of a certificate (RFC 5280, section 4.2.1.13), each with an LF. `None` if it
/// has no such extension. `AllocError` is the only error.
pub(crate) fn revocation_of(alloc: Global, whole: &[u8]) -> Result<Option<Vec<u8>>, AllocError>
    ensures { IfOk result (λ uris. option_map (λ v. v.items) uris ≡ revocation_of whole.now) }
{
    let points = points_in(alloc, whole)?;
    if points.is_empty() {
        return Ok(None);
    }
    Ok(Some(uris_in(alloc, points.as_slice())?))
}

/// The content of the extension; nothing if there is none.
fn points_in(alloc: Global, whole: &[u8]) -> Result<Vec<u8>, AllocError>
    ensures { IfOk result (λ points. points.items ≡ points_in whole.now) }
{
    let certificate = inside(alloc, SEQUENCE, whole)?;
    let signed = inside(alloc, SEQUENCE, certificate.as_slice())?;
    let marked = inside(alloc, EXTENSIONS, signed.as_slice())?;
    let extensions = inside(alloc, SEQUENCE, marked.as_slice())?;
    within(alloc, SEQUENCE, Make::Points, extensions.as_slice())
}

/// The URIs in the content of the extension.
fn uris_in(alloc: Global, points: &[u8]) -> Result<Vec<u8>, AllocError>
    ensures { IfOk result (λ uris. uris.items ≡ uris_in points.now) }
{
    let each = inside(alloc, SEQUENCE, points)?;
    let parts = inside(alloc, SEQUENCE, each.as_slice())?;
    let names = inside(alloc, NAME, parts.as_slice())?;
    let full = inside(alloc, NAME, names.as_slice())?;
    within(alloc, URI, Make::Line, full.as_slice())
}

/// The contents of the elements of this tag, one after another. `AllocError` is the only error.
fn inside(alloc: Global, tag: u8, bytes: &[u8]) -> Result<Vec<u8>, AllocError>
    ensures { IfOk result (λ out. out.items ≡ inside tag bytes.now) }
{
    within(alloc, tag, Make::Same, bytes)
}
