//! What every call goes by.
ghost use Rattle.std.specs.Prelude.{◌≡◌, List, ℕ, IfErr, IfOk};

use crate::readers::{read_anchors, read_table};
use delegation::Anchors;
use std::alloc::Global;
use std::marker::Model;
use tn_auth_list::CodeTable;
use tn_values::Local;
use verify_rules::Settings;

/// How many seconds a PASSporT may be past or ahead.
const MOST_WINDOW: u64 = 86_400;

/// Why there is no world.
#[derive(Clone, Copy, Debug, PartialEq, Eq)]
pub enum WorldFault {
    /// A PASSporT may be past or ahead by more than a day, or there is no such local numbering.
    Settings,
    /// The anchors aren't certificates one after another, or too many.
    Anchors,
    /// The lines of the code table are too many bytes, or one is bad.
    Table,
    /// Memory ran out.
    Memory,
}

/// The settings, as they are told.
#[derive(Clone, Copy)]
pub struct WorldSetting<'a> {
    /// How many seconds a PASSporT may be past.
    pub past: u64,
    /// How many seconds a PASSporT may be ahead.
    pub future: u64,
    /// The digits of the country code of the local numbering.
    pub country: &'a [u8],
    /// How many digits a national number has.
    pub national: u8,
}

/// What every call goes by: the settings, the trust anchors and the code table. It is read once.
#[derive(Drop)]
pub struct OpenWorld {
    settings: Settings,
    anchors: Anchors,
    table: CodeTable,
}

impl Model for OpenWorld {
    ghost use Rattle.open_calls.specs.Worlds.{WorldView};

    ghost Value = { WorldView };

    ghost view = { λ w. record { settings = w.settings; anchors = w.anchors; table = w.table } };
}

impl OpenWorld {
    ghost use Rattle.open_calls.specs.Worlds.{IsFaulty, IsWorldOf, given_world};

    /// The world that these are. They are looked at in this order: the settings, the anchors, the table; and the first
    /// that is none is the fault.
    pub fn read(
        alloc: Global,
        setting: &WorldSetting<'_>,
        anchors: &[u8],
        table: &[u8],
    ) -> Result<OpenWorld, WorldFault>
        ensures read { IfOk result (IsWorldOf (given_world setting.now anchors.now table.now)) }
        ensures fault { IfErr result (IsFaulty (given_world setting.now anchors.now table.now)) }
    {
        let settings = match setting.settings() {
            Some(settings) => settings,
            None => return Err(WorldFault::Settings),
        };
        let anchors = match read_anchors(alloc, anchors) {
            Ok(anchors) => anchors,
            Err(fault) => return Err(fault),
        };
        match read_table(alloc, table) {
            Ok(table) => Ok(OpenWorld {
                settings,
                anchors,
                table,
            }),
            Err(fault) => Err(fault),
        }
    }

    /// The settings.
    pub fn settings(&self) -> &Settings
        ensures { result.now ≡ self.now.settings }
    {
        &self.settings
    }

    /// The trust anchors.
    pub fn anchors(&self) -> &Anchors
        ensures { result.now ≡ self.now.anchors }
    {
        &self.anchors
    }

    /// The code table.
    pub fn table(&self) -> &CodeTable
        ensures { result.now ≡ self.now.table }
    {
        &self.table
    }
}

impl WorldSetting<'_> {
    ghost use Rattle.std.specs.Prelude.{IfSome, None};
    ghost use Rattle.open_calls.specs.Worlds.{AreNoSettings, AreSettings, given_world};

    /// The settings, if they are within their limits.
    fn settings(&self) -> Option<Settings>
        ensures read { (anchors table : List ℕ) → IfSome result (AreSettings (given_world self.now anchors table)) }
        ensures none { (anchors table : List ℕ) → result ≡ None → AreNoSettings (given_world self.now anchors table) }
    {
        if self.past > MOST_WINDOW || self.future > MOST_WINDOW {
            return None;
        }
        match Local::new(self.country, self.national) {
            Some(local) => Some(Settings {
                local,
                past: self.past,
                future: self.future,
            }),
            None => None,
        }
    }
}
