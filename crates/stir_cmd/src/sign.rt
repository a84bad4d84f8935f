//! The commands `sign` and `divert`: a message with one more Identity header field (RFC 8224, section 4.1; RFC 8946,
//! section 4.1).
ghost use Rattle.std.specs.Prelude.{unwrap_or, ◌≡◌, ◌≤◌, [], true, is_some, length, string_bytes, IfErr, IfOk, IsTrue};
ghost use Rattle.std.specs.Option.{option_map};
ghost use Rattle.auth_service.specs.Answer.{names_provider};
ghost use Rattle.auth_service.specs.Order.{holder_seen, is_order};
ghost use Rattle.auth_service.specs.Promise.{IsPromised};
ghost use Rattle.stir_outside.specs.Count.{Rose};
ghost use Rattle.stir_outside.specs.Held.{held_signs};
ghost use Rattle.stir_outside.specs.Status.{status_number};
ghost use Rattle.stir_words.specs.Seen.{holder_view};
ghost use Rattle.stir_cmd.specs.Outside.{outside_of};
ghost use Rattle.stir_cmd.specs.SignCode.{command_of};
ghost use Rattle.stir_cmd.specs.Signing.{GivesMessage, GivesWhy, HasLine, HasList, RefusedFor, holder_by, sign_course};
ghost use Rattle.stir_cmd.specs.Signing.{unsigned_line};

use crate::answer::{Answer, Answered};
use crate::input::{InputCommand, answer_input};
use crate::verify::end_at;
use auth_service::{DivertOrder, Holder, SignFault, SignOrder, divert, sign};
use sip_message::MOST_BYTES;
use std::alloc::{AllocError, Global};
use std::thread::Threads;
use stir_files::{SigningMaterials, read_signing};
use stir_outside::{Shelf, Sink, Source, Status, SteadyProvider};
use stir_words::{Diverting, HolderFiles, Signing};
use tn_auth_list::AuthList;
use x509_profile::Certificate;

/// What is to be signed of a message.
#[derive(Clone, Copy)]
pub(crate) enum SignerCommand<'a> {
    /// Where its call comes from.
    Sign(Signing<'a>),
    /// That its call was diverted.
    Divert(Diverting<'a>),
}

impl<'a> SignerCommand<'a> {
    /// The name of the key.
    fn key(&self) -> &'a str
        ensures { result.now ≡ (command_of self.now).order.key }
    {
        match self {
            SignerCommand::Sign(signing) => signing.signer.key,
            SignerCommand::Divert(diverting) => diverting.signer.key,
        }
    }

    /// The name of the file with the provider's answers.
    fn answers(&self) -> &'a str
        ensures { result.now ≡ (command_of self.now).answers }
    {
        match self {
            SignerCommand::Sign(signing) => signing.signer.answers,
            SignerCommand::Divert(diverting) => diverting.signer.answers,
        }
    }

    /// The names of the files of the holder, if one is named.
    fn holder(&self) -> Option<HolderFiles<'a>>
        ensures { option_map holder_view result ≡ (command_of self.now).holder }
    {
        match self {
            SignerCommand::Sign(signing) => signing.signer.holder,
            SignerCommand::Divert(diverting) => diverting.signer.holder,
        }
    }

    /// The message with its new field, by a provider that never fails.
    fn call(
        &self,
        alloc: Global,
        bytes: &[u8],
        holder: Option<&Holder<'_>>,
        provider: &mut SteadyProvider<'_>,
    ) -> Result<Vec<u8>, SignFault>
        requires { IsTrue (is_order (command_of self.now).order) }
        ensures promised { IsPromised (λ out. out.items) bytes.now (command_of self.now).order
            (holder_seen holder.entry) (held_signs provider.old.held) result }
        ensures failed { names_provider result ≡ true → Rose 0 0 }
    {
        match self {
            SignerCommand::Sign(signing) => {
                let order = SignOrder {
                    form: signing.form,
                    key: signing.signer.key.as_bytes(),
                    x5u: signing.signer.x5u.as_bytes(),
                    iat: signing.signer.iat,
                    local: signing.signer.local,
                };
                sign(alloc, bytes, &order, holder, provider)
            }
            SignerCommand::Divert(diverting) => {
                let order = DivertOrder {
                    earlier: diverting.earlier,
                    key: diverting.signer.key.as_bytes(),
                    x5u: diverting.signer.x5u.as_bytes(),
                    iat: diverting.signer.iat,
                    local: diverting.signer.local,
                };
                divert(alloc, bytes, &order, holder, provider)
            }
        }
    }
}

/// A message is signed so, by what the files say.
#[derive(Clone, Copy)]
pub(crate) struct MessageCommand<'a, 'w> {
    command: &'a SignerCommand<'w>,
    materials: &'a SigningMaterials,
}

impl InputCommand for MessageCommand<'_, '_> {
    ghost use Rattle.std.specs.Prelude.{IsTrue};
    ghost use Rattle.auth_service.specs.Order.{is_order};
    ghost use Rattle.stir_cmd.specs.SignCode.{command_of};
    ghost use Rattle.stir_cmd.specs.Signing.{HasList, SignGives, SignRefuses};

    ghost gives = { λ m. SignGives (command_of m.command.now).order m.materials.now };

    ghost long = { λ _. SignRefuses };

    ghost most = { λ _. 65535 };

    ghost ready = { λ m. IsTrue (is_order (command_of m.command.now).order) × HasList m.materials.now.holder };

    fn most(&self) -> usize {
        MOST_BYTES
    }

    fn answer<R: Threads + Sync>(&self, _rt: &R, alloc: Global, bytes: &[u8]) -> Answered {
        match sign_bytes(alloc, self.command, self.materials, bytes) {
            Ok(out) => Ok(Answer::new(out, Status::Done)),
            Err(fault) => refusal(alloc, self.command.key(), fault),
        }
    }

    fn refuse(&self, alloc: Global) -> Answered {
        let text = String::from_str(alloc, "sign fault 1\n")?;
        Ok(Answer::of_text(text, Status::NotAllValid))
    }
}

/// Reads the named files and then the message that the input is, and writes it with its new field, or the line that
/// says why there is none. Of the input no more is read than the longest message and one byte.
pub(crate) fn sign_message<R: Threads + Sync, S: Shelf, I: Source, O: Sink>(
    rt: &R,
    alloc: Global,
    command: &SignerCommand<'_>,
    shelf: &mut S,
    input: &mut I,
    sink: &mut O,
) -> u8
    requires { IsTrue (is_order (command_of command.now).order) }
    ensures ran { (sign_course (command_of command.now)).Came
        (outside_of S.Shelf I.Source O.Sink shelf.old input.old sink.old)
        (outside_of S.Shelf I.Source O.Sink shelf.new input.new sink.new) result }
    ensures same_files { S.files shelf.new ≡ S.files shelf.old }
{
    match read_signing(alloc, shelf, command.answers(), command.holder()) {
        Ok(materials) => {
            let message = MessageCommand {
                command,
                materials: &materials,
            };
            answer_input(rt, alloc, &message, input, sink)
        }
        Err(stop) => end_at(alloc, &stop, sink),
    }
}

/// What is signed of bytes.
fn sign_bytes(
    alloc: Global,
    command: &SignerCommand<'_>,
    materials: &SigningMaterials,
    bytes: &[u8],
) -> Result<Vec<u8>, SignFault>
    requires order { IsTrue (is_order (command_of command.now).order) }
    requires list { HasList materials.now.holder }
    ensures signed { IfOk result (λ out. GivesMessage (command_of command.now).order (holder_by materials.now.holder)
        (held_signs materials.now.answers) bytes.now out.items) }
    ensures unsigned { IfErr result (GivesWhy (command_of command.now).order (holder_by materials.now.holder)
        (held_signs materials.now.answers) bytes.now) }
{
    let mut provider = materials.answers.steady();
    match &materials.holder {
        Some(held) => {
            let holder = Holder {
                list: list_of(&held.leaf),
                table: &held.table,
            };
            sign_for(alloc, command, bytes, Some(&holder), &mut provider)
        }
        None => sign_for(alloc, command, bytes, None, &mut provider),
    }
}

/// What is signed of bytes for a holder, if one is given.
#[tactic(auto, using(crate::proofs::SignSteps::gives_of, crate::proofs::SignSteps::refuses_of))]
fn sign_for(
    alloc: Global,
    command: &SignerCommand<'_>,
    bytes: &[u8],
    holder: Option<&Holder<'_>>,
    provider: &mut SteadyProvider<'_>,
) -> Result<Vec<u8>, SignFault>
    requires { IsTrue (is_order (command_of command.now).order) }
    ensures signed { IfOk result (λ out. GivesMessage (command_of command.now).order (holder_seen holder.entry)
        (held_signs provider.old.held) bytes.now out.items) }
    ensures unsigned { IfErr result
        (GivesWhy (command_of command.now).order (holder_seen holder.entry) (held_signs provider.old.held) bytes.now) }
{
    command.call(alloc, bytes, holder, provider)
}

/// The list of a certificate that has one.
pub(crate) fn list_of(certificate: &Certificate) -> &AuthList
    requires { is_some certificate.now.list ≡ true }
    ensures { result.now ≡ unwrap_or certificate.now.list [] }
{
    match certificate.list() {
        Some(list) => list,
        None => unreachable!(),
    }
}

/// The line of a fault, for a key of this name.
fn refusal(alloc: Global, key: &str, fault: SignFault) -> Answered
    requires { HasLine fault }
    ensures { IfOk result (λ reply. RefusedFor key.now fault reply.text (status_number reply.status)) }
{
    let line = match fault {
        SignFault::Form => String::from_str(alloc, "sign fault 1\n")?,
        SignFault::NoNumber => String::from_str(alloc, "sign fault 2\n")?,
        SignFault::Authority => String::from_str(alloc, "sign fault 3\n")?,
        SignFault::NoSignature { digest } => unsigned_line(alloc, key, &digest)?,
        SignFault::Provider => unreachable!(),
        SignFault::Memory => return Err(AllocError),
    };
    Ok(Answer::of_text(line, Status::NotAllValid))
}

/// The line that names the key and the digest, in lower-case hex digits.
pub(crate) fn unsigned_line(
    alloc: Global,
    key: &str,
    digest: &[u8; 32],
) -> Result<String, AllocError>
    ensures { IfOk result (λ line. string_bytes line ≡ unsigned_line key.now digest.now) }
{
    let digest = hex::encode(alloc, digest.as_slice())?;
    format!(in alloc; "no signature {key} {digest}\n")
}
