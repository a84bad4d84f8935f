//! What a message says beside its Identity fields.
ghost use Rattle.std.specs.Prelude.{◌≡◌, ◌∷◌, map, None, if◌then◌else◌};
ghost use Rattle.sip_message.specs.Accessors.{date};
ghost use Rattle.verify_rules.specs.Call.{facts_of, links};
ghost use Rattle.verify_rules.specs.Seen.{Serves, facts_asked, field_seen};

use crate::fields::asks_date;
use crate::identity_field::NumberedField;
use sip_message::Message;
use tn_values::{Local, Number};

/// The Date of a message, in Unix seconds, the number that calls, and the numbers of To and of the request URI (RFC
/// 8224, section 4.1).
#[derive(Clone, Copy)]
pub(crate) struct Facts {
    pub(crate) date: Option<u64>,
    pub(crate) calling: Option<Number>,
    pub(crate) to: Option<Number>,
    pub(crate) target: Option<Number>,
}

impl Facts {
    /// What this message says; its Date only if it is asked for.
    fn read(message: &Message<'_>, local: &Local, asks_date: bool) -> Facts
        ensures { result ≡ facts_asked asks_date (facts_of local.now message.now) }
    {
        Facts {
            date: date_where(message, asks_date),
            calling: message.calling_number(local),
            to: message.to_number(local),
            target: message.target_number(local),
        }
    }

    /// What this message says, as far as the PASSporTs of the originating field and of the links among the fields ask
    /// for it: one in its full form needs no Date.
    #[tactic(auto, using(crate::proofs::FactLaws::serves))]
    pub(crate) fn for_judged(
        message: &Message<'_>,
        local: &Local,
        origin: &NumberedField<'_>,
        fields: &[NumberedField<'_>],
    ) -> Facts
        ensures { Serves result (facts_of local.now message.now)
            (field_seen origin.now ∷ links (map field_seen fields.now)) }
    {
        Facts::read(message, local, asks_date(origin, fields))
    }
}

/// The Date, if it is asked for.
fn date_where(message: &Message<'_>, asked: bool) -> Option<u64>
    ensures { result ≡ (if asked then date message.now else None) }
{
    if asked { message.date() } else { None }
}
