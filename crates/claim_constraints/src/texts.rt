//! Texts that own their bytes.
ghost use Rattle.std.specs.Prelude.{◌≡◌, ◌<◌, ◌++◌, ◌∷◌, [], length, map, OnErr, OnOk, Some};
ghost use Rattle.std.specs.List.{slice_get};

use std::alloc::{AllocError, Global};
use std::marker::Model;

/// Names or values, each a text that owns its bytes. In contracts they are the list of these.
#[derive(Drop)]
pub(crate) struct Texts {
    texts: Vec<Vec<u8>>,
}

impl Model for Texts {
    ghost use Rattle.std.specs.Prelude.{ℕ, List, map};

    ghost Value = { List (List ℕ) };

    ghost view = { λ t. map (λ text. text.items) t.texts.items };
}

impl Texts {
    /// None yet.
    pub(crate) fn new(alloc: Global) -> Texts
        ensures { result ≡ [] }
    {
        Texts {
            texts: Vec::new(alloc),
        }
    }

    /// These texts. It takes no memory.
    pub(crate) fn of(texts: Vec<Vec<u8>>) -> Texts
        ensures { result ≡ map (λ text. text.items) texts.items }
    {
        Texts { texts }
    }

    /// The texts themselves.
    pub(crate) fn into_texts(self) -> Vec<Vec<u8>>
        ensures { map (λ text. text.items) result.items ≡ self }
    {
        self.texts
    }

    /// Adds a copy of this text after the others. If there is no memory for it, they stay as they are.
    #[tactic(auto, using(crate::proofs::TextsLaws::one_more))]
    pub(crate) fn push(&mut self, text: &[u8]) -> Result<(), AllocError>
        ensures added { OnOk result (self.new ≡ self.old ++ text.now ∷ []) }
        ensures kept { OnErr result (self.new ≡ self.old) }
    {
        let own = Vec::from_slice(*self.texts.allocator(), text)?;
        self.texts.push(own)?;
        Ok(())
    }

    /// How many they are.
    pub(crate) fn count(&self) -> usize
        ensures { result ≡ length self.now }
    {
        self.texts.len()
    }

    /// The one at this index.
    #[tactic(auto, using(crate::proofs::TextsLaws::text_at))]
    pub(crate) fn text(&self, index: usize) -> &[u8]
        requires { index < length self.now }
        ensures { slice_get self.now index ≡ Some result.now }
    {
        &self.texts[index]
    }
}
