//! A PASSporT written as header and payload.
ghost use Rattle.std.specs.Prelude.{◌≡◌, true, codes, Ok, IfOk};
ghost use Rattle.std.specs.List.{list_all};
ghost use Rattle.serde_json.specs.Data.{array, member, no_members, number, object, string, unsigned};
ghost use Rattle.serde_json.specs.View.{view};
ghost use Rattle.tn_values.specs.Number.{is_number};
ghost use Rattle.passport_json.specs.Deterministic.{IsWritable};
ghost use Rattle.passport_json.specs.Passport.{Header, Payload, number_object, texts, with_tn};
ghost use Rattle.passport_claims.specs.Claims.{Claims};
ghost use Rattle.passport_claims.specs.Kind.{ppt_of};
ghost use Rattle.passport_claims.specs.Origid.{IsOrigid};
ghost use Rattle.passport_claims.specs.Passport.{AreNumbers, IsPassport, members_of};
ghost use Rattle.passport_claims.specs.Read.{read_claims};

use crate::kind::Kind;
use crate::passport::Passport;
use serde_json::{Value, json};
use std::alloc::{AllocError, Global};
use std::str;
use tn_values::Number;

impl Passport {
    /// The deterministic header and payload (RFC 8225, sections 4, 5 and 9). Both can be written by
    /// [`deterministic`](passport_json::deterministic), and reading them gives the same PASSporT. An error says that
    /// memory ran out.
    pub fn to_values(&self) -> Result<(Value, Value), AllocError>
        ensures header { IfOk result (λ values. view values.0 ≡ Header (members_of self.now)) }
        ensures payload { IfOk result (λ values. view values.1 ≡ Payload (members_of self.now)) }
        ensures writable { IfOk result (λ values. IsWritable (view values.0) × IsWritable (view values.1)) }
        ensures reads_back { IfOk result
            (λ values. Claims (view values.0) (view values.1) (ppt_of self.now.kind) self.now.x5u self.now) }
        ensures read_again { IfOk result
            (λ values. read_claims (view values.0) (view values.1) (ppt_of self.now.kind) self.now.x5u ≡ Ok self.now) }
    {
        let alloc = self.alloc();
        let header = self.header(alloc)?;
        let payload = self.payload(alloc)?;
        Ok((header, payload))
    }

    /// The header as JSON.
    fn header(&self, alloc: Global) -> Result<Value, AllocError>
        ensures { IfOk result (λ value. view value ≡ Header (members_of self.now)) }
    {
        let x5u = self.uri();
        match self.kind().ppt() {
            Some(ppt) =>
                json!(in alloc; {"alg": "ES256", "ppt": ppt, "typ": "passport", "x5u": x5u}),
            None => json!(in alloc; {"alg": "ES256", "typ": "passport", "x5u": x5u}),
        }
    }

    /// The payload as JSON.
    fn payload(&self, alloc: Global) -> Result<Value, AllocError>
        ensures exact { IfOk result (λ value. view value ≡ Payload (members_of self.now)) }
        ensures numbers { IfOk result (λ value. AreNumbers self.now) }
        ensures meets { IfOk result (λ value. IsPassport self.now) }
    {
        let called = called_value(alloc, self.dest())?;
        let orig = self.orig();
        let orig = orig.as_str();
        match self.kind() {
            Kind::Base => base_payload(alloc, called, self.iat(), orig),
            Kind::Shaken { attest, origid } => {
                let origid = origid_text(&origid);
                shaken_payload(alloc, attest.as_str(), called, self.iat(), orig, origid)
            }
            Kind::Div { div } => div_payload(alloc, called, div.as_str(), self.iat(), orig),
        }
    }
}

/// The payload of a PASSporT without a type.
fn base_payload(alloc: Global, called: Value, iat: u64, orig: &str) -> Result<Value, AllocError>
    ensures { IfOk result (λ value. view value ≡ object (member (codes "dest") (with_tn (view called))
        (member (codes "iat") (number (unsigned iat)) (member (codes "orig") (number_object orig.now) no_members)))) }
{
    json!(in alloc; {"dest": {"tn": called}, "iat": iat, "orig": {"tn": orig}})
}

/// The payload of the type `shaken`.
fn shaken_payload(
    alloc: Global,
    attest: &str,
    called: Value,
    iat: u64,
    orig: &str,
    origid: &str,
) -> Result<Value, AllocError>
    ensures { IfOk result (λ value. view value ≡ object (member (codes "attest") (string attest.now)
        (member (codes "dest") (with_tn (view called)) (member (codes "iat") (number (unsigned iat))
        (member (codes "orig") (number_object orig.now) (member (codes "origid") (string origid.now) no_members)))))) }
{
    json!(in alloc; {"attest": attest, "dest": {"tn": called}, "iat": iat, "orig": {"tn": orig}, "origid": origid})
}

/// The payload of the type `div`.
fn div_payload(
    alloc: Global,
    called: Value,
    div: &str,
    iat: u64,
    orig: &str,
) -> Result<Value, AllocError>
    ensures { IfOk result (λ value. view value ≡ object (member (codes "dest") (with_tn (view called))
        (member (codes "div") (number_object div.now) (member (codes "iat") (number (unsigned iat))
        (member (codes "orig") (number_object orig.now) no_members))))) }
{
    json!(in alloc; {"dest": {"tn": called}, "div": {"tn": div}, "iat": iat, "orig": {"tn": orig}})
}

/// The array of the called numbers, as texts.
#[tactic(auto, using(crate::proofs::ValueLaws::numbers_all))]
fn called_value(alloc: Global, called: &[Number]) -> Result<Value, AllocError>
    ensures value { IfOk result (λ value. view value ≡ array (texts called.now)) }
    ensures numbers { IfOk result (λ value. list_all is_number called.now ≡ true) }
{
    let mut items = Vec::new(alloc);
    'called: for number in called {
        let text = String::from_str(alloc, number.as_str())?;
        items.push(Value::String(text))?;
    }
    Ok(Value::Array(items))
}

/// An identifier of a call is text.
fn origid_text(origid: &[u8]) -> &str
    requires { IsOrigid origid.now }
    ensures { result.now ≡ origid.now }
{
    match str::from_utf8(origid) {
        Ok(text) => text,
        Err(_) => unreachable!(),
    }
}
