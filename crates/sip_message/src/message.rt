//! A message and what is asked of it.
ghost use Rattle.std.specs.Prelude.{◌≡◌, ◌<◌, ◌≤◌, ℕ, List, length, slice_index_or, [], Some, Ok, Err, IfOk, IfSome};
ghost use Rattle.std.specs.Option.{option_copied};
ghost use Rattle.sip_message.specs.Added.{head_end};
ghost use Rattle.sip_message.specs.Answer.{IfForm, IsFault};
ghost use Rattle.sip_message.specs.FieldDate.{IsTimeOf};
ghost use Rattle.sip_message.specs.FieldNumber.{IsCalling, IsFirstNumber, IsNumberOf};
ghost use Rattle.sip_message.specs.FieldValue.{IsFieldValue, field_value};
ghost use Rattle.sip_message.specs.Form.{FormOf};
ghost use Rattle.sip_message.specs.Head.{Head};
ghost use Rattle.sip_message.specs.Message.{MessageView};
ghost use Rattle.sip_message.specs.Names.{is_asserted, is_date, is_from, is_to};
ghost use Rattle.sip_message.specs.Accessors.{asserted_number, calling_number, date, from_number, identities};
ghost use Rattle.sip_message.specs.Accessors.{is_invite, target_number, to_number};
ghost use Rattle.sip_message.specs.Reading.{checked, fault, read};
ghost use Rattle.sip_message.specs.Seen.{Gives, IsOkUnlessMemory, head_seen, parts_seen};
ghost use Rattle.sip_message.specs.Short.{AreShort};
ghost use Rattle.sip_message.specs.UriNumber.{GivesNumber};

use crate::address::uri_number;
use crate::fault::{FormFault, MessageFault};
use crate::field::{Field, count, first_number, number_of, time_of, value_at, value_named};
use crate::head::{HeadFields, read_head};
use crate::known::Known;
use crate::lines::Lines;
use crate::start_line::start_line;
use std::alloc::Global;
use std::marker::Model;
use tn_values::{Local, Number};

/// The most bytes of a message (this project's own limit).
pub const MOST_BYTES: usize = 65_535;

/// The kind of a fault of the size.
pub(crate) const SIZE: u8 = 1;

/// The kind of a fault of the start line.
const START_LINE: u8 = 2;

/// The kind of a head without an empty line at its end.
const NO_END: u8 = 4;

/// The kind of a head that has not exactly one From.
const FROM: u8 = 5;

/// The kind of a head that has not exactly one To.
const TO: u8 = 6;

/// The head of a SIP request (RFC 3261, section 7): its method, its URI and its header fields in their order.
///
/// A value in one line is a view into the bytes that were read; one of several lines is joined. A contract sees method,
/// URI and the list of names and values. No value is longer than 65,535 bytes.
#[derive(Drop)]
pub struct Message<'a> {
    method: &'a [u8],
    uri: &'a [u8],
    fields: Vec<Field<'a>>,
}

/// Method, URI and header fields as they are read, before it is known how long the values are, and the offset of the
/// empty line that ends the head.
#[derive(Drop)]
pub(crate) struct Parts<'a> {
    pub method: &'a [u8],
    pub uri: &'a [u8],
    pub fields: Vec<Field<'a>>,
    pub end: u32,
}

impl<'a> Model for Message<'a> {
    ghost use Rattle.std.specs.Prelude.{map};
    ghost use Rattle.sip_message.specs.Message.{MessageView};

    ghost Value = { MessageView };

    ghost use Rattle.sip_message.specs.Seen.{field_seen};
    ghost use Rattle.sip_message.specs.Short.{AreShort};

    ghost view = { λ m. record { method = m.method.now; uri = m.uri.now; fields = map field_seen m.fields.items } };

    ghost invariant = { λ m. AreShort (map field_seen m.fields.items) };
}

impl<'a> Message<'a> {
    /// Reads the head of a message of at most 65,535 bytes: its start line, its header fields with their continuations,
    /// and the empty line. The body after that isn't read.
    ///
    /// The faults are tried in this order: 1 the size, at 65,535; the first bad line, which is 2 for the start line, at
    /// 0, or 3, at its first byte; 4 no empty line, at the length; 5 and 6 if there isn't exactly one From or To, at
    /// the second such field or else at the empty line. `Memory` comes only if memory runs out.
    #[tactic(auto, using(crate::proofs::AnswerLaws::answers_head, crate::proofs::AnswerLaws::answers_fault, crate::proofs::AnswerLaws::answers_only_fault, crate::proofs::AnswerLaws::answers_place, crate::proofs::ShortLaws::answers_short))]
    pub fn read(alloc: Global, bytes: &'a [u8]) -> Result<Message<'a>, MessageFault>
        ensures exact { Gives (λ message. message) result (read bytes.now) }
        ensures head { IfOk result (λ message. Head bytes.now message) }
        ensures only { (message : MessageView) → Head bytes.now message
            → IsOkUnlessMemory result (λ found. found ≡ message) }
        ensures fault { IfForm result (λ fault. FormOf bytes.now fault) }
        ensures only_fault { (fault : FormFault) → FormOf bytes.now fault → IsFault result fault }
        ensures place { IfForm result (λ fault. fault.place ≤ length bytes.now) }
        ensures short { IfOk result (λ message. AreShort message.fields) }
    {
        read_message(alloc, bytes)
    }

    /// Whether the method is `INVITE`, byte for byte.
    pub fn is_invite(&self) -> bool
        ensures { result ≡ is_invite self.now }
    {
        self.method == b"INVITE".as_slice()
    }

    /// The number of From (RFC 3261, section 20.20): that of the first address in the value of the first such field,
    /// None if it has none.
    pub fn from_number(&self, local: &Local) -> Option<Number>
        ensures exact { result ≡ from_number self.now local.now }
        ensures found { IfSome result (λ number. IsNumberOf is_from self.now.fields local.now number) }
        ensures only { (number : List ℕ) → IsNumberOf is_from self.now.fields local.now number → result ≡ Some number }
    {
        number_of(&self.fields, Known::From, local)
    }

    /// The number of To (RFC 3261, section 20.39): that of the first address in the value of the first such field, None
    /// if it has none.
    pub fn to_number(&self, local: &Local) -> Option<Number>
        ensures exact { result ≡ to_number self.now local.now }
        ensures found { IfSome result (λ number. IsNumberOf is_to self.now.fields local.now number) }
        ensures only { (number : List ℕ) → IsNumberOf is_to self.now.fields local.now number → result ≡ Some number }
    {
        number_of(&self.fields, Known::To, local)
    }

    /// The number of the request URI (RFC 3261, section 19.1.6; RFC 3966, section 3), None if it has none.
    pub fn target_number(&self, local: &Local) -> Option<Number>
        ensures exact { result ≡ target_number self.now local.now }
        ensures found { IfSome result (λ number. GivesNumber self.now.uri local.now number) }
        ensures only { (number : List ℕ) → GivesNumber self.now.uri local.now number → result ≡ Some number }
    {
        uri_number(self.uri, local)
    }

    /// The number of the first P-Asserted-Identity field (RFC 3325, section 9.1) that gives one, None if none does.
    pub fn asserted_number(&self, local: &Local) -> Option<Number>
        ensures exact { result ≡ asserted_number self.now local.now }
        ensures found { IfSome result (λ number. IsFirstNumber is_asserted self.now.fields local.now number) }
        ensures only { (number : List ℕ) → IsFirstNumber is_asserted self.now.fields local.now number
            → result ≡ Some number }
    {
        first_number(&self.fields, Known::Asserted, local)
    }

    /// The calling number: the asserted one, or else that of From.
    pub fn calling_number(&self, local: &Local) -> Option<Number>
        ensures exact { result ≡ calling_number self.now local.now }
        ensures found { IfSome result (λ number. IsCalling self.now local.now number) }
        ensures only { (number : List ℕ) → IsCalling self.now local.now number → result ≡ Some number }
    {
        self.calling_number_exactly(local)
    }

    /// The calling number: the asserted one, or else that of From.
    fn calling_number_exactly(&self, local: &Local) -> Option<Number>
        ensures { result ≡ calling_number self.now local.now }
    {
        match self.asserted_number(local) {
            Some(number) => Some(number),
            None => self.from_number(local),
        }
    }

    /// The time of the first Date field (RFC 3261, section 20.17), in Unix seconds; None if there is no such field or
    /// its value is no date in one of the three forms of HTTP (RFC 9110, section 5.6.7).
    pub fn date(&self) -> Option<u64>
        ensures exact { result ≡ date self.now }
        ensures found { IfSome result (λ second. IsTimeOf is_date self.now.fields second) }
        ensures only { (second : ℕ) → IsTimeOf is_date self.now.fields second → result ≡ Some second }
    {
        time_of(&self.fields, Known::Date)
    }

    /// How many Identity fields (RFC 8224, section 4) there are.
    pub fn identity_count(&self) -> usize
        ensures { result ≡ length (identities self.now) }
    {
        count(&self.fields, Known::Identity)
    }

    /// The value of Identity field `i` in message order, counted from 0, at most 65,535 bytes. Each call goes over the
    /// fields.
    pub fn identity(&self, i: usize) -> &[u8]
        requires { i < length (identities self.now) }
        ensures value { result.now ≡ slice_index_or (identities self.now) i [] }
        ensures short { length result.now ≤ 65535 }
    {
        value_at(&self.fields, Known::Identity, i)
    }

    /// The value of the header field `i` of this name in message order, counted from 0, at most 65,535 bytes; None if
    /// there are no more.
    ///
    /// Names are compared without case (RFC 3261, section 7.3.1), and a compact form is its long name (RFC 3261,
    /// section 7.3.3; RFC 8224, section 4, for Identity). Each call goes over the fields.
    pub fn field_value(&self, name: &[u8], i: usize) -> Option<&[u8]>
        ensures exact { option_copied result ≡ field_value self.now name.now i }
        ensures found { IfSome result (λ value. IsFieldValue name.now self.now.fields i value.now) }
        ensures only { (value : List ℕ) → IsFieldValue name.now self.now.fields i value
            → option_copied result ≡ Some value }
        ensures short { IfSome result (λ value. length value.now ≤ 65535) }
    {
        value_named(&self.fields, name, i)
    }
}

/// Of what is read no value is longer than all bytes.
#[tactic(auto, using(crate::proofs::ShortLaws::read_short))]
fn read_message<'a>(alloc: Global, bytes: &'a [u8]) -> Result<Message<'a>, MessageFault>
    ensures { Gives (λ message. message) result (read bytes.now) }
{
    let parts = read_parts(alloc, bytes)?;
    Ok(message_of(parts))
}

/// The message of these parts, no value of which is longer than 65,535 bytes.
pub(crate) fn message_of<'a>(parts: Parts<'a>) -> Message<'a>
    requires { AreShort (parts_seen parts).fields }
    ensures { result ≡ parts_seen parts.entry }
{
    let Parts {
        method,
        uri,
        fields,
        end: _,
    } = parts;
    Message {
        method,
        uri,
        fields,
    }
}

/// The parts of the message that the bytes are.
#[tactic(auto, unfolding(crate::specs::Reading::read))]
pub(crate) fn read_parts<'a>(alloc: Global, bytes: &'a [u8]) -> Result<Parts<'a>, MessageFault>
    ensures exact { Gives parts_seen result (read bytes.now) }
    ensures end { IfOk result (λ parts. parts.end ≡ head_end bytes.now) }
{
    if bytes.len() > MOST_BYTES {
        return fault(SIZE, MOST_BYTES as u32);
    }
    let size = bytes.len() as u32;
    let mut lines = Lines::new(bytes);
    let Some(line) = lines.next() else {
        return fault(NO_END, size);
    };
    let Some((method, uri)) = start_line(line.text) else {
        return fault(START_LINE, 0);
    };
    let head = read_head(alloc, size, &mut lines)?;
    checked(method, uri, head)
}

/// A refusal of this kind at this place.
fn fault<T>(kind: u8, place: u32) -> Result<T, MessageFault>
    ensures { result ≡ Err (MessageFault.Form (fault kind place)) }
{
    Err(MessageFault::Form(FormFault { kind, place }))
}

/// The parts of a message, if exactly one field is From and exactly one is To.
fn checked<'a>(
    method: &'a [u8],
    uri: &'a [u8],
    head: HeadFields<'a>,
) -> Result<Parts<'a>, MessageFault>
    ensures exact { Gives parts_seen result (checked (method.now, uri.now) (Ok (head_seen head.entry))) }
    ensures end { IfOk result (λ parts. parts.end ≡ head.entry.end) }
{
    if let Some(place) = head.surplus(Known::From) {
        return fault(FROM, place);
    }
    if let Some(place) = head.surplus(Known::To) {
        return fault(TO, place);
    }
    let HeadFields { fields, end } = head;
    Ok(Parts {
        method,
        uri,
        fields,
        end,
    })
}
