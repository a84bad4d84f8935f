//! Names of signing keys.
ghost use Rattle.std.specs.Prelude.{◌≡◌, IsTrue};
ghost use Rattle.std.specs.List.{list_all};
ghost use Rattle.stir_outside.specs.KeyName.{is_name, is_name_byte, name_of};

use short_text::ShortText;
use std::marker::Model;

/// The name of a signing key: 1 to 64 bytes of visible ASCII other than `;`, `,`, `"`, `<`, `>` and backslash (this
/// project's own rule). A contract sees it as the list of its bytes.
#[derive(Clone, Copy, PartialEq, Eq, Hash)]
pub(crate) struct KeyName {
    text: ShortText<64>,
}

impl Model for KeyName {
    ghost use Rattle.std.specs.Prelude.{ℕ, List, IsTrue};
    ghost use Rattle.stir_outside.specs.KeyName.{is_name};

    ghost Value = { List ℕ };

    ghost view = { λ n. n.text };

    ghost invariant = { λ n. IsTrue (is_name n.text) };

    ghost inverse = { λ text. record { text = text } };
}

impl KeyName {
    /// The name that `text` is, byte for byte. None if it isn't 1 to 64 bytes of the alphabet.
    #[tactic(auto, unfolding(crate::specs::KeyName::is_name))]
    pub(crate) fn new(text: &[u8]) -> Option<KeyName>
        ensures { result ≡ name_of text.now }
    {
        if !is_name(text) {
            return None;
        }
        Some(KeyName {
            text: ShortText::new(text),
        })
    }

    /// The bytes of the name, 1 to 64 of the alphabet.
    #[tactic(auto, unfolding(crate::specs::KeyName::is_name))]
    pub(crate) fn bytes(&self) -> &[u8]
        ensures value { result.now ≡ self.now }
        ensures name { IsTrue (is_name self.now) }
    {
        self.text.bytes()
    }
}

/// Whether a text is a name.
#[tactic(auto, unfolding(crate::specs::KeyName::is_name))]
fn is_name(text: &[u8]) -> bool
    ensures { result ≡ is_name text.now }
{
    match text.len() {
        1..=64 => are_name_bytes(text),
        _ => false,
    }
}

/// Whether all bytes may be in a name.
fn are_name_bytes(text: &[u8]) -> bool
    ensures { result ≡ list_all is_name_byte text.now }
{
    text.iter().all(|byte| is_name_byte(*byte))
}

/// Whether a byte may be in a name.
fn is_name_byte(byte: u8) -> bool
    ensures { result ≡ is_name_byte byte }
{
    matches!(byte, b'!'..=b'~') && !matches!(byte, b';' | b',' | b'"' | b'<' | b'>' | b'\\')
}
