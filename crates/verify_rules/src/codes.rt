//! The response codes.
ghost use Rattle.std.specs.Prelude.{◌≡◌};
ghost use Rattle.verify_rules.specs.Code.{code_of};

/// The response code of a rule (RFC 3261, section 21.4.1; RFC 8224, section 6.2.2), for the rules 1 to 19, of which 18
/// is replay. For another number it is 438.
pub fn code(rule: u8) -> u16
    ensures { result ≡ code_of rule }
{
    match rule {
        1 => 400,
        2 | 4 => 428,
        9 => 403,
        10 => 436,
        5 | 11 | 12 | 13 | 14 | 15 | 17 | 19 => 437,
        _ => 438,
    }
}
