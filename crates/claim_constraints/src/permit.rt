//! Claims, and the values that they may have.
ghost use Rattle.std.specs.Prelude.{◌≡◌, ◌≤◌, ◌<◌, ◌++◌, ◌∷◌, [], length, map, OnErr, OnOk, Some};
ghost use Rattle.std.specs.List.{slice_get};
ghost use Rattle.claim_constraints.specs.Constraints.{PermitView, permit_of};

use crate::texts::Texts;
use std::alloc::{AllocError, Global};
use std::marker::Model;

/// Claims, each by its name with the values that it may have. In contracts they are the list of these.
#[derive(Drop)]
pub(crate) struct Permits {
    list: Vec<(Vec<u8>, Vec<Vec<u8>>)>,
}

impl Model for Permits {
    ghost use Rattle.std.specs.Prelude.{List, map};
    ghost use Rattle.claim_constraints.specs.Constraints.{PermitView};

    ghost Value = { List PermitView };

    ghost view = { λ p. map (λ entry.
        record { claim = entry.0.items; values = map (λ value. value.items) entry.1.items }) p.list.items };
}

impl Permits {
    /// None yet.
    pub(crate) fn new(alloc: Global) -> Permits
        ensures { result ≡ [] }
    {
        Permits {
            list: Vec::new(alloc),
        }
    }

    /// These claims, each a name and its values. It takes no memory.
    pub(crate) fn of(list: Vec<(Vec<u8>, Vec<Vec<u8>>)>) -> Permits
        ensures { result ≡ map (λ entry.
            record { claim = entry.0.items; values = map (λ value. value.items) entry.1.items }) list.items }
    {
        Permits { list }
    }

    /// The allocator of the list.
    pub(crate) fn alloc(&self) -> Global {
        *self.list.allocator()
    }

    /// Adds after the others the claim that these texts are, its name first. If there is no memory for it, they stay as
    /// they are.
    #[tactic(auto, using(crate::proofs::TextsLaws::permit_more))]
    pub(crate) fn push(&mut self, texts: Texts) -> Result<(), AllocError>
        requires { 1 ≤ length texts }
        ensures added { OnOk result (self.new ≡ self.old ++ permit_of texts ∷ []) }
        ensures kept { OnErr result (self.new ≡ self.old) }
    {
        let mut values = texts.into_texts();
        let claim = values.remove(0);
        self.list.push((claim, values))?;
        Ok(())
    }

    /// How many they are.
    pub(crate) fn count(&self) -> usize
        ensures { result ≡ length self.now }
    {
        self.list.len()
    }

    /// The one at this index.
    #[tactic(auto, using(crate::proofs::TextsLaws::permit_at))]
    pub(crate) fn permit(&self, index: usize) -> Permit<'_>
        requires { index < length self.now }
        ensures { slice_get self.now index ≡ Some result }
    {
        let (claim, values) = &self.list[index];
        Permit { claim, values }
    }
}

/// A claim's name, and the values that the claim may have.
#[derive(Drop)]
pub(crate) struct Permit<'a> {
    claim: &'a [u8],
    values: &'a Vec<Vec<u8>>,
}

impl<'a> Model for Permit<'a> {
    ghost use Rattle.std.specs.Prelude.{map};
    ghost use Rattle.claim_constraints.specs.Constraints.{PermitView};

    ghost Value = { PermitView };

    ghost view = { λ p. record { claim = p.claim.now; values = map (λ value. value.items) p.values.now.items } };
}

impl<'a> Permit<'a> {
    /// The claim's name.
    pub(crate) fn claim(&self) -> &'a [u8]
        ensures { result.now ≡ self.now.claim }
    {
        self.claim
    }

    /// How many values there are.
    pub(crate) fn value_count(&self) -> usize
        ensures { result ≡ length self.now.values }
    {
        self.values.len()
    }

    /// The value at this index.
    #[tactic(auto, using(crate::proofs::TextsLaws::text_at))]
    pub(crate) fn value(&self, index: usize) -> &'a [u8]
        requires { index < length self.now.values }
        ensures { slice_get self.now.values index ≡ Some result.now }
    {
        &self.values[index]
    }
}
