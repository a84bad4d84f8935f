//! Messages that are signed: the calls of `auth_service`.

use auth_service::{DivertOrder, Form, Holder, SignFault, SignOrder, divert, sign};
use passport_claims::Attest;
use std::alloc::Global;
use stir_outside::{AnswerProvider, Answers};
use tn_auth_list::{AuthList, CodeTable};
use tn_values::Local;
use vector_chains::{list_of, table_of};
use vector_table::{
    Answer, Unread, answers_of, given, joined, local_of, number, number_of, numbers_of, text, word,
};

/// What a call answers.
pub fn answer(alloc: Global, call: &str, words: &[&[u8]]) -> Result<String, Unread> {
    match call {
        "sign" => signed(alloc, words),
        "divert" => diverted(alloc, words),
        "fault" => said(alloc, words),
        _ => Err(Unread::Call),
    }
}

/// What signing a message comes to, by the form and the other words of a [`Row`].
fn signed(alloc: Global, words: &[&[u8]]) -> Result<String, Unread> {
    let row = Row::of(alloc, words)?;
    let order = SignOrder {
        form: form_of(row.first)?,
        key: row.key,
        x5u: row.x5u,
        iat: row.iat,
        local: row.local,
    };
    if !order.is_valid() {
        return word(alloc, "order");
    }
    let holder = row.asked.holder();
    let mut provider = row.asked.provider()?;
    let message = row.message.as_slice();
    let made = sign(alloc, message, &order, holder.as_ref(), &mut provider);
    put_signed(alloc, made, provider.asks())
}

/// What signing a message that goes to another number than before comes to, by the earlier number and the other words
/// of a [`Row`].
fn diverted(alloc: Global, words: &[&[u8]]) -> Result<String, Unread> {
    let row = Row::of(alloc, words)?;
    let order = DivertOrder {
        earlier: number_of(row.first)?,
        key: row.key,
        x5u: row.x5u,
        iat: row.iat,
        local: row.local,
    };
    if !order.is_valid() {
        return word(alloc, "order");
    }
    let holder = row.asked.holder();
    let mut provider = row.asked.provider()?;
    let message = row.message.as_slice();
    let made = divert(alloc, message, &order, holder.as_ref(), &mut provider);
    put_signed(alloc, made, provider.asks())
}

/// The words of a call that signs: the first, the key's name, the certificates' URI, the second, the local numbering,
/// whom the signer asks, and the message.
#[derive(Drop)]
struct Row<'a> {
    first: &'a [u8],
    key: &'a [u8],
    x5u: &'a [u8],
    iat: u64,
    local: Local,
    asked: Asked,
    message: Vec<u8>,
}

impl<'a> Row<'a> {
    /// The row that these words are: country and national length make the local numbering, and [`Asked::of`] takes the
    /// four words after them.
    fn of(alloc: Global, words: &[&'a [u8]]) -> Result<Row<'a>, Unread> {
        let [
            first,
            key,
            x5u,
            iat,
            country,
            national,
            list,
            table,
            answers,
            failing,
            message @ ..,
        ] = words
        else {
            return Err(Unread::Call);
        };
        Ok(Row {
            first,
            key,
            x5u,
            iat: number(iat)?,
            local: local_of(country, national)?,
            asked: Asked::of(alloc, list, table, answers, failing)?,
            message: joined(alloc, message)?,
        })
    }
}

/// Whom a signer asks: the holder, if there is one, and the provider.
#[derive(Drop)]
struct Asked {
    list: Option<AuthList>,
    table: CodeTable,
    answers: Answers,
    failing: Vec<u64>,
}

impl Asked {
    /// That of these words: the holder's entries (`-` for no holder), the code table, the answers, and which calls of
    /// the provider fail.
    fn of(
        alloc: Global,
        list: &[u8],
        table: &[u8],
        answers: &[u8],
        failing: &[u8],
    ) -> Result<Asked, Unread> {
        let list = match given(list) {
            Some(entries) => Some(list_of(alloc, entries)?),
            None => None,
        };
        Ok(Asked {
            list,
            table: table_of(alloc, table)?,
            answers: answers_of(alloc, answers)?,
            failing: numbers_of(alloc, failing)?,
        })
    }

    /// The holder, if there is one.
    fn holder(&self) -> Option<Holder<'_>> {
        match &self.list {
            Some(list) => Some(Holder {
                list,
                table: &self.table,
            }),
            None => None,
        }
    }

    /// The provider.
    fn provider(&self) -> Result<AnswerProvider<'_>, Unread> {
        Ok(self.answers.provider(self.failing.as_slice())?)
    }
}

/// The form that a word is: `base`, `compact`, or an attestation and the identifier of the call, as `A:IDENTIFIER`.
fn form_of(form: &[u8]) -> Result<Form, Unread> {
    match form {
        b"base" => Ok(Form::Base),
        b"compact" => Ok(Form::Compact),
        [level, b':', origid @ ..] => shaken_of(&[*level], origid),
        _ => Err(Unread::Value),
    }
}

/// `shaken` with an attestation and an identifier of 36 bytes.
fn shaken_of(level: &[u8], origid: &[u8]) -> Result<Form, Unread> {
    let attest = Attest::of(text(level)?).ok_or(Unread::Value)?;
    match origid.split_first_chunk::<36>() {
        Some((origid, [])) => Ok(Form::Shaken {
            attest,
            origid: *origid,
        }),
        _ => Err(Unread::Value),
    }
}

/// How often the provider was asked, and the message with its field, or the fault with its digest.
fn put_signed(
    alloc: Global,
    made: Result<Vec<u8>, SignFault>,
    asks: u64,
) -> Result<String, Unread> {
    let answer = Answer::new(alloc).word(asks);
    match made {
        Ok(out) => answer.word("ok").text(out.as_slice()).line(),
        Err(SignFault::Memory) => Err(Unread::Memory),
        Err(fault) => put_fault(answer, fault).line(),
    }
}

/// Puts a fault, and its digest if it carries one, after other words.
fn put_fault(answer: Answer, fault: SignFault) -> Answer {
    let answer = answer.word("fault").option(fault.number());
    match fault {
        SignFault::NoSignature { digest } => answer.hex(&digest),
        _ => answer,
    }
}

/// The number of a fault, and how it is printed.
fn said(alloc: Global, words: &[&[u8]]) -> Result<String, Unread> {
    let [name] = words else {
        return Err(Unread::Call);
    };
    let fault = fault_of(name)?;
    Answer::new(alloc).option(fault.number()).word(fault).line()
}

/// The fault of this name.
fn fault_of(name: &[u8]) -> Result<SignFault, Unread> {
    match name {
        b"form" => Ok(SignFault::Form),
        b"no_number" => Ok(SignFault::NoNumber),
        b"authority" => Ok(SignFault::Authority),
        b"no_signature" => Ok(SignFault::NoSignature { digest: [0; 32] }),
        b"provider" => Ok(SignFault::Provider),
        b"memory" => Ok(SignFault::Memory),
        _ => Err(Unread::Value),
    }
}
