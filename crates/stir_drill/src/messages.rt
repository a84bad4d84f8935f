//! The messages of the drill, written as entries of its log.
ghost use Rattle.std.specs.Prelude.{◌≡◌, ◌≤◌, ◌<◌, ◌+◌, ◌++◌, length, OnOk, IfOk, [], ◌∷◌, true};
ghost use Rattle.call_log.specs.Entry.{headed};
ghost use Rattle.stir_drill.specs.Change.{has_identity};
ghost use Rattle.stir_drill.specs.Pieces.{at_end, before_number, before_token, between, parameters};
ghost use Rattle.stir_drill.specs.Message.{identity_line, message_of, moment_of, signature_of, signing_of};

use crate::drawn::Drawn;
use crate::entries::put_header;
use base64::engine::general_purpose::URL_SAFE_NO_PAD;
use itoa::Buffer;
use std::alloc::{AllocError, Global};

/// What comes before the calling number,
const FRONT: &str =
    "INVITE sip:+12125551213@example.net SIP/2.0\r\nVia: SIP/2.0/UDP host.example.org;branch=z9hG4bK1\r\nMax-Forwards: 70\r\nFrom: <sip:+";

/// between it and the Identity header field,
const MIDDLE: &str =
    "@example.org>;tag=1\r\nTo: <sip:+12125551213@example.net>\r\nCall-ID: 1@example.org\r\nCSeq: 1 INVITE\r\n";

/// and after it.
const END: &str = "Content-Length: 0\r\n\r\n";

/// What the line of the Identity header field has before the token and after it.
const IDENTITY: &str = "Identity: ";

const PARAMETERS: &str = ";info=<https://cert.example.org/drill.cer>;alg=ES256;ppt=\"shaken\"\r\n";

/// Appends the entry of a call with a message of its own, whose Identity line is given, and tells how many bytes the
/// message has.
#[tactic(auto, using(crate::proofs::MessageLaws::entry_spelled, crate::proofs::MessageLaws::message_size))]
pub(crate) fn put_message(
    log: &mut Vec<u8>,
    call: Drawn,
    identity: &[u8],
) -> Result<usize, AllocError>
    requires line { call.line < 10000 }
    requires identity { identity.now ≡ identity_line call }
    requires short { length identity.now ≤ 1000 }
    ensures entry { OnOk result (log.new.items ≡ log.old.items
        ++ headed (moment_of call.number) (length (message_of call)) (message_of call)) }
    ensures size { IfOk result (λ size. size ≡ length (message_of call)) }
{
    let mut buffer = Buffer::new();
    let calling = buffer.format(call.change.calling(call.line)).as_bytes();
    let size = message_size(calling.len(), identity.len());
    put_entry(log, call.moment(), size, calling, identity)?;
    Ok(size)
}

/// How many bytes a message has whose calling number and Identity line have so many.
fn message_size(calling: usize, identity: usize) -> usize
    requires calling { calling ≤ 40 }
    requires identity { identity ≤ 1000 }
    ensures { result ≡ length before_number + calling + length between + identity + length at_end }
{
    FRONT.len() + calling + MIDDLE.len() + identity + END.len()
}

/// Appends the entry of a message of this size, with this calling number and Identity line.
fn put_entry(
    log: &mut Vec<u8>,
    moment: u64,
    size: usize,
    calling: &[u8],
    identity: &[u8],
) -> Result<(), AllocError>
    ensures { OnOk result
        (log.new.items ≡ (((((log.old.items ++ headed moment size []) ++ before_number) ++ calling.now) ++ between)
        ++ identity.now) ++ at_end) }
{
    put_header(log, moment, size)?;
    log.extend_from_slice(FRONT.as_bytes())?;
    log.extend_from_slice(calling)?;
    log.extend_from_slice(MIDDLE.as_bytes())?;
    log.extend_from_slice(identity)?;
    log.extend_from_slice(END.as_bytes())?;
    Ok(())
}

/// The line of the Identity header field of a call, which has this signature over this text; no line if the call has
/// none.
#[tactic(auto, using(crate::proofs::MessageLaws::line_absent, crate::proofs::MessageLaws::line_spelled, crate::proofs::MessageLaws::line_short))]
pub(crate) fn identity_line(
    alloc: Global,
    call: Drawn,
    signing: &[u8],
    signature: &[u8; 64],
) -> Result<Vec<u8>, AllocError>
    requires signing { signing.now ≡ signing_of call }
    requires short { length signing.now ≤ 600 }
    requires signature { signature.now ≡ signature_of call.number }
    ensures exact { IfOk result (λ line. line.items ≡ identity_line call) }
    ensures short { IfOk result (λ line. length line.items ≤ 1000) }
{
    if !call.change.has_identity() {
        return Ok(Vec::new(alloc));
    }
    let encoded = URL_SAFE_NO_PAD.encode(alloc, signature.as_slice())?;
    line_of(alloc, signing, encoded.as_bytes())
}

/// The line of a token of these two texts.
fn line_of(alloc: Global, signing: &[u8], encoded: &[u8]) -> Result<Vec<u8>, AllocError>
    ensures { IfOk result
        (λ line. line.items ≡ (((before_token ++ signing.now) ++ 46 ∷ []) ++ encoded.now) ++ parameters) }
{
    let mut line = Vec::from_slice(alloc, IDENTITY.as_bytes())?;
    line.extend_from_slice(signing)?;
    line.push(b'.')?;
    line.extend_from_slice(encoded)?;
    line.extend_from_slice(PARAMETERS.as_bytes())?;
    Ok(line)
}
