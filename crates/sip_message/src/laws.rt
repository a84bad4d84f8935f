//! Laws: a function here does nothing, and its clause is the law.
ghost use Rattle.std.specs.Prelude.{◌≡◌, ℕ, ◌↔◌, ◌++◌, ◌∷◌, [], false, true, List, Ok};
ghost use Rattle.tn_values.specs.Local.{LocalView};
ghost use Rattle.sip_message.specs.Accessors.{calling_number, date, identities, is_invite, target_number, to_number};
ghost use Rattle.sip_message.specs.Added.{with_last};
ghost use Rattle.sip_message.specs.Compact.{compact_rows, is_in_row};
ghost use Rattle.sip_message.specs.FieldValue.{is_compact_form};
ghost use Rattle.sip_message.specs.Head.{Head};
ghost use Rattle.sip_message.specs.Message.{MessageView};
ghost use Rattle.sip_message.specs.Names.{is_asserted, is_date, is_from, is_identity, is_to};
ghost use Rattle.sip_message.specs.Reading.{read};
ghost use Rattle.sip_message.specs.Target.{TargetLaw};

/// Bytes are read as a message exactly if they are its head (RFC 3261, section 7).
pub fn head_law()
    ensures { (bytes : List ℕ) (message : MessageView) → (read bytes ≡ Ok message) ↔ Head bytes message }
{}

/// What is asked of a message with one more header field after its own. An Identity field has its value after the
/// others. All else that is asked stays as it was if the name is none of those that it is asked of.
pub fn added_field_law()
    ensures identity { (message : MessageView) (name value : List ℕ) → is_identity name ≡ true
        → identities (with_last message name value) ≡ identities message ++ value ∷ [] }
    ensures invite { (message : MessageView) (name value : List ℕ)
        → is_invite (with_last message name value) ≡ is_invite message }
    ensures date { (message : MessageView) (name value : List ℕ) → is_date name ≡ false
        → date (with_last message name value) ≡ date message }
    ensures calling { (message : MessageView) (name value : List ℕ) (local : LocalView) → is_asserted name ≡ false
        → is_from name ≡ false → calling_number (with_last message name value) local ≡ calling_number message local }
    ensures to { (message : MessageView) (name value : List ℕ) (local : LocalView) → is_to name ≡ false
        → to_number (with_last message name value) local ≡ to_number message local }
    ensures target { (message : MessageView) (name value : List ℕ) (local : LocalView)
        → target_number (with_last message name value) local ≡ target_number message local }
{}

/// Which letter is the compact form of which header field: row by row.
pub fn compact_law()
    ensures { (letter name : List ℕ) → is_compact_form letter name ≡ is_in_row letter name compact_rows }
{}

/// A message with another request URI is the same message but for it.
pub fn target_law()
    ensures { TargetLaw }
{}
