//! The lines of an answers file.
ghost use Rattle.std.specs.Prelude.{◌≡◌};
ghost use Rattle.stir_outside.specs.AnswersText.{confirm_of, key_of, of_kind, row_of, sign_of};

use crate::answers::hex_word::bytes_of;
use crate::answers::key_name::KeyName;
use std::hash::{Hash, Hasher};
use text_grammar::{Words, words_of};

/// A signature over a digest, good under a key.
#[derive(Clone, Copy, PartialEq, Eq)]
pub(crate) struct Triple {
    pub(crate) key: [u8; 65],
    pub(crate) digest: [u8; 32],
    pub(crate) signature: [u8; 64],
}

/// Each array goes to the hasher as a whole: the derived form gives it byte by byte.
impl Hash for Triple {
    ghost use Rattle.std.specs.Prelude.{[], ◌∷◌};
    ghost use Rattle.std.specs.Cmp.Rules.{hashing};
    ghost use Rattle.std.proofs.Common.{rules};

    ghost hash_input = { λ t. t.key ∷ t.digest ∷ t.signature ∷ [] };

    ghost respects_eq = { Prim.search (hashing, rules) };

    fn hash<H: Hasher>(&self, state: &mut H) {
        state.write(&self.key);
        state.write(&self.digest);
        state.write(&self.signature);
    }
}

/// What is to be signed: a digest, by the key of this name.
#[derive(Clone, Copy, PartialEq, Eq, Hash)]
pub(crate) struct Order {
    pub(crate) name: KeyName,
    pub(crate) digest: [u8; 32],
}

/// A line of an answers file.
#[derive(Clone, Copy)]
pub(crate) enum Row {
    /// The signature is good.
    Confirm(Triple),
    /// The order gives this signature.
    Sign(Order, [u8; 64]),
}

/// What a line says: `confirm KEY DIGEST SIGNATURE` or `sign NAME DIGEST SIGNATURE`. None if it is neither.
#[tactic(auto, unfolding(crate::specs::AnswersText::row_of))]
pub(crate) fn row_of(line: &[u8]) -> Option<Row>
    ensures { result ≡ row_of line.now }
{
    match words_of(line) {
        Some(Words::Four(kind, subject, digest, signature)) => of_kind(
            kind, subject, digest, signature,
        ),
        _ => None,
    }
}

/// What a line says whose first word is its kind.
fn of_kind(kind: &[u8], subject: &[u8], digest: &[u8], signature: &[u8]) -> Option<Row>
    ensures { result ≡ of_kind kind.now subject.now digest.now signature.now }
{
    if kind == b"confirm".as_slice() {
        return confirm_of(subject, digest, signature);
    }
    if kind == b"sign".as_slice() {
        return sign_of(subject, digest, signature);
    }
    None
}

/// What a `confirm` line says.
fn confirm_of(key: &[u8], digest: &[u8], signature: &[u8]) -> Option<Row>
    ensures { result ≡ confirm_of key.now digest.now signature.now }
{
    let Some(key) = key_of(key) else {
        return None;
    };
    let Some(digest) = bytes_of::<32>(digest) else {
        return None;
    };
    let Some(signature) = bytes_of::<64>(signature) else {
        return None;
    };
    Some(Row::Confirm(Triple {
        key,
        digest,
        signature,
    }))
}

/// What a `sign` line says.
fn sign_of(name: &[u8], digest: &[u8], signature: &[u8]) -> Option<Row>
    ensures { result ≡ sign_of name.now digest.now signature.now }
{
    let Some(name) = KeyName::new(name) else {
        return None;
    };
    let Some(digest) = bytes_of::<32>(digest) else {
        return None;
    };
    let Some(signature) = bytes_of::<64>(signature) else {
        return None;
    };
    Some(Row::Sign(Order { name, digest }, signature))
}

/// The first byte of a point in its uncompressed form (SEC 1, section 2.3.3).
const UNCOMPRESSED: u8 = 4;

/// The key that a word writes: an uncompressed point (SEC 1, section 2.3.3).
fn key_of(word: &[u8]) -> Option<[u8; 65]>
    ensures { result ≡ key_of word.now }
{
    let Some(key) = bytes_of::<65>(word) else {
        return None;
    };
    if key[0] == UNCOMPRESSED {
        Some(key)
    } else {
        None
    }
}
