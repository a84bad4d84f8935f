use tn_values::Number;

/// What a message and its Identity header field give for a token in its compact form (RFC 8225, section 7; RFC 8224,
/// section 4.1), which has no header and no payload of its own.
#[derive(Clone, Copy, Debug)]
pub struct View<'a> {
    /// When the PASSporT was issued, in Unix seconds: the message's Date.
    pub iat: Option<u64>,
    /// The calling number.
    pub orig: Option<Number>,
    /// The called number.
    pub dest: Option<Number>,
    /// The URI of the certificate, as the field's `info` has it.
    pub info: &'a [u8],
    /// The PASSporT type, as the field's `ppt` has it (RFC 8225, section 8.1).
    pub ppt: Option<&'a [u8]>,
}
