ghost use Rattle.std.specs.Prelude.{◌≡◌, ◌↔◌, ◌<◌, length, IfOk, IfErr, IsSome, IfSome, OnOk, ◌++◌};
ghost use Rattle.std.specs.Option.{option_copied};
ghost use Rattle.text_grammar.specs.Grammar.{Any, Run};
ghost use Rattle.identity_header.specs.Parts.{Parts, InRows, parts, is_digest_byte, is_quoted_byte};
ghost use Rattle.text_grammar.specs.Bytes.{is_uri_byte};
ghost use Rattle.identity_header.specs.FieldText.{FieldText, FieldPlace};
ghost use Rattle.identity_header.specs.OneLine.{IsOneLine};
ghost use Rattle.identity_header.specs.Spelling.{spelling, param_text};

use crate::Memory;
use crate::bytes::{is_bare, is_digest, may_be_quoted};
use crate::params::field_at;
use std::alloc::Global;
use std::marker::Model;
use text_grammar::is_uri;

/// Where a value stops being the beginning of an Identity value.
#[derive(Clone, Copy, Debug, PartialEq, Eq)]
pub struct FieldFault {
    /// The number of bytes before that place.
    pub place: u32,
}

/// The parts of an Identity value (RFC 8224, section 4.1), as views.
#[derive(Debug, Drop)]
pub struct Field<'a> {
    token: &'a [u8],
    info: &'a [u8],
    alg: Option<&'a [u8]>,
    ppt: Option<&'a [u8]>,
}

impl<'a> Model for Field<'a> {
    ghost use Rattle.std.specs.Option.{option_copied};
    ghost use Rattle.identity_header.specs.Parts.{Parts, InRows, parts};

    ghost Value = { Parts };

    ghost view = { λ f. parts f.token.now f.info.now (option_copied f.alg) (option_copied f.ppt) };

    ghost invariant = { λ f. InRows (parts f.token.now f.info.now (option_copied f.alg) (option_copied f.ppt)) };
}

impl<'a> Field<'a> {
    ghost use Rattle.identity_header.specs.Read.{read};

    /// Reads the value of an Identity header field, in one pass. The value is shorter than 4,294,967,295 bytes.
    ///
    /// A value outside the grammar is refused, and the fault tells the length of the longest prefix of the value with
    /// which a value of the grammar begins.
    pub fn read(value: &'a [u8]) -> Result<Field<'a>, FieldFault>
        requires { length value.now < 4294967295 }
        ensures exact { result ≡ read value.now }

        // What is read is in the grammar.
        ensures found { IfOk result (λ f. FieldText f value.now) }

        // What is in the grammar is read.
        ensures only { (f : Parts) → FieldText f value.now → result ≡ Ok f }

        // Where the value stops being the beginning of one.
        ensures place { IfErr result (λ fault. FieldPlace value.now fault.place) }
    {
        match field_at(value) {
            Ok(seen) => Ok(Field {
                token: seen.token,
                info: seen.info,
                alg: seen.alg,
                ppt: seen.ppt,
            }),
            Err(stop) => Err(FieldFault {
                place: (value.len() - stop.left.len()) as u32,
            }),
        }
    }

    /// A field of these parts; None if a part is outside its row: the token 1 to 8192 digest bytes, the uri 1 to 2048
    /// uri bytes, and a value of `alg` or `ppt` any number of bytes that may be between quotes, also none.
    pub fn new(
        token: &'a [u8],
        info: &'a [u8],
        alg: Option<&'a [u8]>,
        ppt: Option<&'a [u8]>,
    ) -> Option<Field<'a>>
        ensures made { IfSome result
            (λ f. f ≡ parts token.now info.now (option_copied alg.entry) (option_copied ppt.entry)) }
        ensures exact { IsSome result
            ↔ InRows (parts token.now info.now (option_copied alg.entry) (option_copied ppt.entry)) }
    {
        if !is_digest(token) {
            return None;
        }
        if !is_uri(info) {
            return None;
        }
        if !may_be_quoted(alg) {
            return None;
        }
        if !may_be_quoted(ppt) {
            return None;
        }
        Some(Field {
            token,
            info,
            alg,
            ppt,
        })
    }

    /// The text of the field: `token;info=<info>`, then `;alg=` and `;ppt=` if they are given, each bare if it is one
    /// or more bare bytes and else between quotes. Reading it gives the same four parts. It fails only if memory runs
    /// out.
    pub fn write(&self, alloc: Global) -> Result<Vec<u8>, Memory>

        // It is the one spelling of the parts.
        ensures spelled { IfOk result (λ text. text.items ≡ spelling self.now) }

        // Its reading gives the same parts.
        ensures reads_back { IfOk result (λ text. FieldText self.now text.items) }

        // So what reads it again finds this field.
        ensures read_again { IfOk result (λ text. read text.items ≡ Ok self.now) }

        // It can be in a line of a message, whose blanks at both ends are no part of a value.
        ensures one_line { IfOk result (λ text. IsOneLine text.items) }
    {
        spell(alloc, self.token, self.info, self.alg, self.ppt)
    }

    /// The signed token, 1 to 8192 bytes.
    pub fn token(&self) -> &'a [u8]
        ensures part { result.now ≡ self.now.token }
        ensures row { Run is_digest_byte 8192 result.now }
    {
        self.token
    }

    /// The uri of the certificates, 1 to 2048 bytes.
    pub fn info(&self) -> &'a [u8]
        ensures part { result.now ≡ self.now.info }
        ensures row { Run is_uri_byte 2048 result.now }
    {
        self.info
    }

    /// The value of the parameter `alg`.
    pub fn alg(&self) -> Option<&'a [u8]>
        ensures part { option_copied result ≡ self.now.alg }
        ensures row { IfSome result (λ value. Any is_quoted_byte value.now) }
    {
        self.alg
    }

    /// The value of the parameter `ppt`.
    pub fn ppt(&self) -> Option<&'a [u8]>
        ensures part { option_copied result ≡ self.now.ppt }
        ensures row { IfSome result (λ value. Any is_quoted_byte value.now) }
    {
        self.ppt
    }
}

/// The text of these parts.
#[tactic(auto, unfolding(crate::specs::Spelling::spelling))]
fn spell(
    alloc: Global,
    token: &[u8],
    info: &[u8],
    alg: Option<&[u8]>,
    ppt: Option<&[u8]>,
) -> Result<Vec<u8>, Memory>
    ensures { IfOk result (λ text. text.items
        ≡ spelling (parts token.now info.now (option_copied alg.entry) (option_copied ppt.entry))) }
{
    let mut text = Vec::new(alloc);
    text.extend_from_slice(token)?;
    text.extend_from_slice(b";info=<")?;
    text.extend_from_slice(info)?;
    text.extend_from_slice(b">")?;
    write_param(&mut text, b";alg=", alg)?;
    write_param(&mut text, b";ppt=", ppt)?;
    Ok(text)
}

/// Appends a parameter, if there is one.
fn write_param(text: &mut Vec<u8>, name: &[u8], value: Option<&[u8]>) -> Result<(), Memory>
    ensures { OnOk result (text.new.items ≡ text.old.items ++ param_text name.now (option_copied value.entry)) }
{
    let Some(value) = value else {
        return Ok(());
    };
    text.extend_from_slice(name)?;
    if is_bare(value) {
        return text.extend_from_slice(value);
    }
    text.extend_from_slice(b"\"")?;
    text.extend_from_slice(value)?;
    text.extend_from_slice(b"\"")
}
