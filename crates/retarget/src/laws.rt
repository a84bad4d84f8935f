//! The laws of the crates below, in one record.
ghost use Rattle.retarget.specs.Below.{Below};

use auth_service::diverted_rules_law;
use passport_claims::order_law;
use sip_message::{head_law, target_law};
use verify_rules::{covers_kind_law, first_law, more_law, moved_law};

/// What messages, links, rules and diversions promise.
pub(crate) fn laws()
    ensures { Below }
{
    head_law();
    target_law();
    order_law();
    covers_kind_law();
    first_law();
    moved_law();
    more_law();
    diverted_rules_law();
}
