//! Rule 6: the PASSporTs of the judged fields.
ghost use Rattle.std.specs.Prelude.{◌≡◌, ◌≤◌, ◌∷◌, length, map, IfOk, IsTrue};
ghost use Rattle.passport_claims.specs.Kind.{IsKnown};
ghost use Rattle.passport_claims.specs.Kind.{ppt_of};
ghost use Rattle.passport_json.specs.Seen.{call_of};
ghost use Rattle.text_grammar.specs.Uri.{is_uri};
ghost use Rattle.verify_rules.specs.Call.{given_to_compact, links, read_field};
ghost use Rattle.verify_rules.specs.Seen.{AreReadings, GivesReading, IsChainable, field_seen};

use crate::facts::Facts;
use crate::fields::is_link;
use crate::identity_field::NumberedField;
use crate::judged_passport::JudgedPassport;
use crate::readings::Readings;
use crate::refusal::{Place, Stop};
use crate::signed_token::SignedToken;
use identity_header::Field;
use passport_claims::Passport;
use passport_json::{Token, View, ticket};
use std::alloc::Global;
use text_grammar::uri_law;

/// The number of a broken claim is this and its own.
const CLAIMS: u32 = 10;

/// The PASSporTs of the originating field and of the links among the fields, in message order.
#[tactic(auto, using(crate::proofs::ReadSteps::read_start, crate::proofs::ReadSteps::read_more, crate::proofs::ReadSteps::read_bad, crate::proofs::ReadSteps::read_past, crate::proofs::ReadSteps::first_bad, crate::proofs::ReadSteps::all_good, crate::proofs::ReadSteps::all_read, crate::proofs::Known::known_link))]
pub(crate) fn read_all(
    alloc: Global,
    facts: &Facts,
    origin: &NumberedField<'_>,
    fields: &[NumberedField<'_>],
) -> Result<Readings, Stop>
    requires { IsKnown origin.now.parts.ppt }
    ensures exact { AreReadings facts.now (field_seen origin.now ∷ links (map field_seen fields.now)) result }
    ensures some { IfOk result (λ readings. 1 ≤ length readings) }
    ensures kept { IfOk result IsChainable }
{
    let mut readings = Readings::new(alloc);
    match read_passport(alloc, facts, origin) {
        Ok(one) => {
            if readings.push(one).is_err() {
                return Err(Stop::Memory);
            }
        }
        Err(stop) => return Err(stop),
    }
    'fields: for field in fields {
        if is_link(field) {
            match read_passport(alloc, facts, field) {
                Ok(one) => {
                    if readings.push(one).is_err() {
                        return Err(Stop::Memory);
                    }
                }
                Err(stop) => return Err(stop),
            }
        }
    }
    Ok(readings)
}

/// What the PASSporT of a field says: its token is read in either form, and then its claims.
#[tactic(auto, unfolding(crate::specs::Call::read_field))]
fn read_passport(
    alloc: Global,
    facts: &Facts,
    field: &NumberedField<'_>,
) -> Result<JudgedPassport, Stop>
    requires { IsKnown field.now.parts.ppt }
    ensures exact { GivesReading field.now.number result (read_field facts.now (field_seen field.now)) }
    ensures kind { IfOk result (λ one. ppt_of one.claims.kind ≡ field.now.parts.ppt) }
{
    let view = given_to_compact(facts, &field.parts);
    let token = match Token::read(alloc, field.parts.token(), &view) {
        Ok(token) => token,
        Err(fault) => match fault.number() {
            Some(number) => return Err(Stop::Broken(Place::new(field.number, u32::from(number)))),
            None => return Err(Stop::Memory),
        },
    };
    let digest = ticket(token.signing());
    let signature = *token.signature();
    match Passport::from_token(alloc, &token, field.parts.ppt(), field.parts.info()) {
        Ok(claims) => Ok(JudgedPassport {
            field: field.number,
            claims,
            signed: SignedToken::new(token),
            digest,
            signature,
        }),
        Err(fault) => match fault.number() {
            Some(number) => Err(Stop::Broken(Place::new(field.number, CLAIMS + u32::from(number)))),
            None => Err(Stop::Memory),
        },
    }
}

/// What a token in its compact form leaves to the message and to its field.
fn given_to_compact<'a>(facts: &Facts, field: &Field<'a>) -> View<'a>
    ensures exact { call_of result ≡ given_to_compact facts.now field.now }
    ensures uri { IsTrue (is_uri result.info.now) }
{
    uri_law();
    View {
        iat: facts.date,
        orig: facts.calling,
        dest: facts.to,
        info: field.info(),
        ppt: field.ppt(),
    }
}
