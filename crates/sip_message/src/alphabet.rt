//! Which bytes the parts of a message head may have (RFC 3261, section 25.1).
ghost use Rattle.std.specs.Prelude.{◌≡◌};
ghost use Rattle.std.specs.List.{list_all};
ghost use Rattle.sip_message.specs.HeadAlphabet.{is_name, is_target, is_target_byte};
ghost use Rattle.text_grammar.specs.Bytes.{is_name_byte};

use text_grammar::is_name_byte;

/// Whether a byte may be in the URI of a start line.
fn is_target_byte(byte: u8) -> bool
    ensures { result ≡ is_target_byte byte }
{
    byte > 0x20 && byte != 0x7f
}

/// Whether the text is a name: of a method or of a header field.
pub(crate) fn is_name(text: &[u8]) -> bool
    ensures { result ≡ is_name text.now }
{
    match text {
        [] => false,
        _ => are_name_bytes(text),
    }
}

/// Whether all bytes may be in a name.
fn are_name_bytes(text: &[u8]) -> bool
    ensures { result ≡ list_all is_name_byte text.now }
{
    text.iter().all(|byte| is_name_byte(*byte))
}

/// Whether the text may be the URI of a start line: one or more bytes above the space other than the delete byte.
pub fn is_target(text: &[u8]) -> bool
    ensures { result ≡ is_target text.now }
{
    match text {
        [] => false,
        _ => are_target_bytes(text),
    }
}

/// Whether all bytes may be in the URI of a start line.
fn are_target_bytes(text: &[u8]) -> bool
    ensures { result ≡ list_all is_target_byte text.now }
{
    text.iter().all(|byte| is_target_byte(*byte))
}
