//! What is made of the contents of DER elements, one after another.
ghost use Rattle.std.specs.Prelude.{◌≡◌, ◌++◌, [], IfOk, OnOk, if◌then◌else◌};
ghost use Rattle.std.specs.Str.{bytes_eq};
ghost use Rattle.der_reader.specs.Elem.{element_of};
ghost use Rattle.der_reader.specs.Next.{sole_view};
ghost use Rattle.chain_lines.specs.Elements.{made_of, within};
ghost use Rattle.chain_lines.specs.Revocation.{bytes_view, made_by, points_of, points_oid, points_read, uri_line};
ghost use Rattle.chain_lines.specs.Revocation.{value_at};

use der_reader::{Der, DerFault};
use std::alloc::{AllocError, Global};
use text_grammar::is_uri;

/// The OID of the CRL distribution points, 2.5.29.31 (RFC 5280, section 4.2.1.13).
const POINTS: [u8; 3] = [0x55, 0x1D, 0x1F];

/// The tag of a BOOLEAN.
const BOOLEAN: u8 = 0x01;

/// What is made of a content.
#[derive(Clone, Copy)]
pub(crate) enum Make {
    /// The content itself.
    Same,
    /// Of an extension the content of its OCTET STRING, if it has the CRL distribution points.
    Points,
    /// The line of a URI.
    Line,
}

/// What is made of the contents of the elements of this tag, one after another, as far as elements can be read.
/// `AllocError` is the only error.
#[tactic(auto, using(crate::proofs::ElementLaws::starts))]
pub(crate) fn within(
    alloc: Global,
    tag: u8,
    make: Make,
    bytes: &[u8],
) -> Result<Vec<u8>, AllocError>
    ensures { IfOk result (λ out. out.items ≡ within tag (made_by make) bytes.now) }
{
    let mut out = Vec::new(alloc);
    let mut left = bytes;
    'elements: while let Ok((element, rest)) = Der::next(left) {
        add(&mut out, tag, make, &element)?;
        left = rest;
    }
    Ok(out)
}

/// Adds what is made of an element.
fn add(out: &mut Vec<u8>, tag: u8, make: Make, element: &Der<'_>) -> Result<(), AllocError>
    ensures { OnOk result (out.new.items ≡ out.old.items ++ made_of tag (made_by make) (element_of element.now)) }
{
    if element.tag != tag {
        return Ok(());
    }
    match make {
        Make::Same => out.extend_from_slice(element.content)?,
        Make::Points => out.extend_from_slice(points_of(element.content))?,
        Make::Line => add_line(out, element.content)?,
    }
    Ok(())
}

/// Adds the line of a URI, if the text is one.
fn add_line(out: &mut Vec<u8>, uri: &[u8]) -> Result<(), AllocError>
    ensures { OnOk result (out.new.items ≡ out.old.items ++ uri_line uri.now) }
{
    if !is_uri(uri) {
        return Ok(());
    }
    out.extend_from_slice(uri)?;
    out.push(b'\n')?;
    Ok(())
}

/// The content of the OCTET STRING of an extension, if it has the CRL distribution points; else nothing.
fn points_of(extension: &[u8]) -> &[u8]
    ensures { result.now ≡ points_of extension.now }
{
    match points_read(extension) {
        Ok(points) => points,
        Err(_) => &[],
    }
}

/// The same, or why the extension can't be read.
#[tactic(auto, unfolding(crate::specs::Revocation::points_read))]
fn points_read(extension: &[u8]) -> Result<&[u8], DerFault>
    ensures { bytes_view result ≡ points_read extension.now }
{
    let (oid, behind) = Der::next(extension)?;
    let (second, rest) = Der::next(behind)?;
    let value = value_at(second, rest)?;
    Ok(if_points(&oid, value.content))
}

/// The element after the OID of an extension, or if that is a BOOLEAN, the one after it.
#[tactic(auto, unfolding(crate::specs::Revocation::value_at))]
fn value_at<'a>(second: Der<'a>, rest: &'a [u8]) -> Result<Der<'a>, DerFault>
    ensures { sole_view result ≡ value_at (element_of second.entry, rest.now) }
{
    if second.tag == BOOLEAN {
        let (third, _) = Der::next(rest)?;
        return Ok(third);
    }
    Ok(second)
}

/// This value if the OID is that of the CRL distribution points, else nothing.
fn if_points<'a>(oid: &Der<'_>, value: &'a [u8]) -> &'a [u8]
    ensures { result.now ≡ (if bytes_eq oid.now.content.now points_oid then value.now else []) }
{
    if oid.content == POINTS.as_slice() {
        value
    } else {
        &[]
    }
}
