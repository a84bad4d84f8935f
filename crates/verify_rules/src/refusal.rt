//! What is said of a call that breaks a rule.
ghost use Rattle.std.specs.Prelude.{◌≡◌};
ghost use Rattle.verify_rules.specs.Rules.{place, refusal};
ghost use Rattle.verify_rules.specs.declared.refusal.ScreenFault.{ScreenFault};

/// Where a call breaks a rule: the Identity field, counted from 1 in message order, and a part of it whose meaning the
/// rule gives. Each is 0 if none is meant. It is printed `field.part`.
#[derive(Clone, Copy, Debug, PartialEq, Eq, Default)]
pub struct Place {
    pub field: u32,
    pub part: u32,
}

/// The first rule that a call breaks, and where.
#[derive(Clone, Copy, Debug, PartialEq, Eq, Default)]
pub struct Refusal {
    pub rule: u8,
    pub place: Place,
}

/// Why a call isn't screened.
#[derive(Clone, Copy, Debug, PartialEq, Eq)]
pub enum ScreenFault {
    /// It breaks a rule.
    Refused(Refusal),
    /// Memory ran out, and nothing is said of the call.
    Memory,
}

/// Why a step of the rules gave nothing.
#[derive(Clone, Copy)]
pub(crate) enum Stop {
    /// Its rule is broken here.
    Broken(Place),
    /// Memory ran out.
    Memory,
}

impl Place {
    /// The place of this field and this part.
    pub(crate) fn new(field: u32, part: u32) -> Place
        ensures { result ≡ place field part }
    {
        Place { field, part }
    }
}

impl ScreenFault {
    /// The refusal by this rule.
    pub(crate) fn broken(rule: u8, place: Place) -> ScreenFault
        ensures { result ≡ ScreenFault.Refused (refusal rule place) }
    {
        ScreenFault::Refused(Refusal { rule, place })
    }
}
