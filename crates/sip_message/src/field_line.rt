//! The line with which a header field begins.
ghost use Rattle.std.specs.Prelude.{◌≡◌};
ghost use Rattle.std.specs.Option.{option_map};
ghost use Rattle.sip_message.specs.FieldLine.{field_line};

use text_grammar::{byte_at, name_len, skip_blanks};

/// The name and the rest of a field line (RFC 3261, section 7.3.1), None if the line is none. The name is gone over
/// once.
#[tactic(auto, using(crate::proofs::FieldNameLaws::named_line, crate::proofs::FieldNameLaws::unnamed_line, crate::proofs::FieldNameLaws::no_colon))]
pub(crate) fn field_line(line: &[u8]) -> Option<(&[u8], &[u8])>
    ensures { option_map (λ parts. (parts.0.now, parts.1.now)) result ≡ field_line line.now }
{
    let (name, left) = line.split_at(name_len(line));
    if name.is_empty() {
        return None;
    }
    match byte_at(b':', skip_blanks(left)) {
        Ok(rest) => Some((name, rest)),
        Err(_) => None,
    }
}
