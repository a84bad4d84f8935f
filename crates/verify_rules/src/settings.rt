//! What a judge is told once.
use std::marker::Model;
use tn_values::Local;

/// The settings by which calls are judged.
#[derive(Clone, Copy, Debug)]
pub struct Settings {
    /// How the numbers of a message are read.
    pub local: Local,
    /// How many seconds the moment of a call may be after the `iat` of its PASSporTs, at most 86,400.
    pub past: u64,
    /// How many seconds the `iat` of a call's PASSporTs may be after its moment, at most 86,400.
    pub future: u64,
}

impl Model for Settings {
    ghost use Rattle.verify_rules.specs.Settings.{AreSettings, SettingsView};

    ghost Value = { SettingsView };

    ghost view = { λ s. record { local = s.local; past = s.past; future = s.future } };

    ghost invariant = { λ s. AreSettings s.past s.future };

    ghost inverse = { λ v. record { local = v.local; past = v.past; future = v.future } };
}
