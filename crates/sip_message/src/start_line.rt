//! The start line of a request.
ghost use Rattle.std.specs.Prelude.{◌≡◌};
ghost use Rattle.std.specs.Option.{option_map};
ghost use Rattle.sip_message.specs.StartLine.{start_line};

use crate::alphabet::{is_name, is_target};
use text_grammar::cut;

/// The method and the URI of a start line (RFC 3261, section 7.1), None if the line is none.
pub(crate) fn start_line(line: &[u8]) -> Option<(&[u8], &[u8])>
    ensures { option_map (λ parts. (parts.0.now, parts.1.now)) result ≡ start_line line.now }
{
    let Some((method, rest)) = cut(line, b' ') else {
        return None;
    };
    let Some((uri, version)) = cut(rest, b' ') else {
        return None;
    };
    if is_name(method) && is_target(uri) && version.eq_ignore_ascii_case(b"SIP/2.0") {
        Some((method, uri))
    } else {
        None
    }
}
