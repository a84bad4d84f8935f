//! The judged PASSporTs of a call, in message order.
ghost use Rattle.std.specs.Prelude.{◌≡◌, ◌<◌, ◌≤◌, [], ◌∷◌, ◌++◌, drop, length, map, OnOk, Some};
ghost use Rattle.std.specs.List.{slice_get};
ghost use Rattle.verify_rules.specs.Call.{passports_of};
ghost use Rattle.verify_rules.specs.Screened.{judged_seen};

use crate::judged_passport::JudgedPassport;
use passport_claims::{Passport, Passports};
use std::alloc::{AllocError, Global};
use std::marker::Model;

/// The judged PASSporTs of a call, in message order: the originating one and then the links. In contracts they are the
/// list of these.
#[derive(Drop)]
pub(crate) struct Readings {
    kept: Vec<JudgedPassport>,
}

impl Model for Readings {
    ghost use Rattle.std.specs.Prelude.{List, map};
    ghost use Rattle.verify_rules.specs.Call.{Reading};
    ghost use Rattle.verify_rules.specs.Screened.{judged_seen};

    ghost Value = { List Reading };

    ghost view = { λ r. map judged_seen r.kept.items };
}

impl Readings {
    /// None.
    pub(crate) fn new(alloc: Global) -> Readings
        ensures { result ≡ [] }
    {
        Readings {
            kept: Vec::new(alloc),
        }
    }

    /// One more, with room for itself alone: most calls have one.
    #[tactic(auto, using(crate::proofs::ReadingLaws::kept_more))]
    pub(crate) fn push(&mut self, one: JudgedPassport) -> Result<(), AllocError>
        ensures { OnOk result (self.new ≡ self.old ++ judged_seen one ∷ []) }
    {
        self.kept.reserve_exact(1)?;
        self.kept.push(one)?;
        Ok(())
    }

    /// How many there are.
    #[tactic(auto, using(crate::proofs::ReadingLaws::kept_length))]
    pub(crate) fn len(&self) -> usize
        ensures { result ≡ length self.now }
    {
        self.kept.len()
    }

    /// The one at this index.
    #[tactic(auto, using(crate::proofs::ReadingLaws::kept_at, crate::proofs::ReadingLaws::within_kept))]
    pub(crate) fn at(&self, i: usize) -> &JudgedPassport
        requires { i < length self.now }
        ensures { slice_get self.now i ≡ Some (judged_seen result.now) }
    {
        &self.kept[i]
    }

    /// The links: all after the first.
    #[tactic(auto, using(crate::proofs::ReadingLaws::kept_some, crate::proofs::ReadingLaws::links_kept))]
    pub(crate) fn links(&self) -> Links<'_>
        requires { 1 ≤ length self.now }
        ensures { passports_of (map judged_seen result.kept.now) ≡ drop 1 (passports_of self.now) }
    {
        Links {
            kept: &self.kept[1..],
        }
    }
}

/// The links among the judged PASSporTs of a call.
#[derive(Clone, Copy)]
pub(crate) struct Links<'a> {
    kept: &'a [JudgedPassport],
}

impl Passports for Links<'_> {
    ghost list = { λ links. passports_of (map judged_seen links.kept.now) };

    #[tactic(auto, using(crate::proofs::ReadingLaws::links_length))]
    fn count(&self) -> usize {
        self.kept.len()
    }

    fn passport(&self, i: usize) -> &Passport {
        let one = &self.kept[i];
        &one.claims
    }
}
