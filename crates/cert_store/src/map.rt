//! The chain map.
ghost use Rattle.std.specs.Prelude.{◌≡◌, ◌<◌, ◌↔◌, ℕ, List, [], length, IfOk, IfErr, MatchResult, Ok, Err};
ghost use Rattle.std.specs.Option.{option_copied};
ghost use Rattle.cert_store.specs.ChainMap.{FaultOf, FirstBad, MapOf, MapText, Row, file_in, listed, map_rows};
ghost use Rattle.cert_store.specs.MapEntry.{entry_row};
ghost use Rattle.cert_store.specs.MapReading.{Adds, AddsLine, FirstFault, FirstRead, HoldsRows};

use crate::map_rows::{Entry, row_of};
use std::alloc::{AllocError, Global};
use std::collections::HashMap;
use std::error::Error;
use std::fmt;
use std::marker::Model;
use text_grammar::{Lines, line_count};

/// The most lines of a chain map, those that are passed over too.
const MOST_LINES: u32 = 50_000;

/// Why a text is no chain map.
#[derive(Clone, Copy, Debug, PartialEq, Eq)]
pub enum MapFault {
    /// This line is the first bad one: it isn't `X5U FILE`, it lists an x5u that a line before it lists, or it is the
    /// 50,001st. Lines count from 1, those that are passed over too.
    Line { line: u32 },
    /// Memory ran out.
    Memory,
}

impl fmt::Display for MapFault {
    fn fmt<W: fmt::Write>(&self, f: &mut fmt::Formatter<W>) -> fmt::Result {
        match self {
            MapFault::Line { line } => write!(f, "line {line} isn't one of a chain map"),
            MapFault::Memory => f.write_str("memory ran out"),
        }
    }
}

impl Error for MapFault {}

impl From<AllocError> for MapFault {
    ghost use Rattle.std.specs.Prelude.{◌≡◌};
    ghost use Rattle.cert_store.specs.declared.map.MapFault.TheVariants.{Memory};

    ghost from_gives = { λ _ fault. fault ≡ Memory };

    fn from(_refused: AllocError) -> MapFault {
        MapFault::Memory
    }
}

/// Which file has the certificates of which x5u, the header parameter of RFC 7515, section 4.1.5.
///
/// A contract sees which file is listed for which x5u, in no order that it names.
#[derive(Drop)]
pub struct ChainMap {
    files: HashMap<Vec<u8>, String>,
}

impl Model for ChainMap {
    ghost use Rattle.cert_store.specs.Files.{Files, files_in};

    ghost Value = { Files };

    ghost view = { λ map. files_in map.files.entries };
}

impl ChainMap {
    /// Reads a chain map.
    ///
    /// Each line is `X5U FILE`, two words parted by exactly one space. Empty lines and lines that begin with `;` are
    /// passed over and counted. The x5u is 1 or more bytes of visible ASCII without `"`, `<`, `>` and backslash, and
    /// the file's name 1 to 255 bytes of visible ASCII (this project's own rule). Of two lines with one x5u the second
    /// is bad, and so is a 50,001st line, whatever it says. The fault names the first bad line.
    pub fn read(alloc: Global, text: &[u8]) -> Result<ChainMap, MapFault>
        requires { length text.now < 4294967295 }
        ensures map { IfOk result (MapOf text.now) }
        ensures fault { IfErr result (FaultOf text.now) }
        // what a chain map is, and which line is the first bad one
        ensures rows { (rows : List Row) → (map_rows text.now ≡ Ok rows) ↔ MapText text.now rows }
        ensures first_bad { (number : ℕ) → (map_rows text.now ≡ Err number) ↔ FirstBad text.now number }
    {
        ChainMap::read_whole(alloc, text)
    }

    /// The name of the file that the map lists for the x5u; None exactly if it doesn't list it.
    pub fn file(&self, x5u: &[u8]) -> Option<&str>
        ensures exact { option_copied result ≡ listed self.now x5u.now }
        ensures rows { (text : List ℕ) (map : MapOf text self.now) → option_copied result ≡ file_in map.rows x5u.now }
    {
        self.listed(x5u)
    }

    /// The file that is listed for the x5u.
    fn listed(&self, x5u: &[u8]) -> Option<&str>
        ensures { option_copied result ≡ listed self.now x5u.now }
    {
        match self.files.get(x5u) {
            Some(file) => Some(file.as_str()),
            None => None,
        }
    }

    /// Reads the lines that a map may have, and refuses a text that has more.
    #[tactic(auto, using(crate::proofs::HeldLaws::first_fault, crate::proofs::HeldLaws::past_limit, crate::proofs::HeldLaws::all_read))]
    fn read_whole(alloc: Global, text: &[u8]) -> Result<ChainMap, MapFault>
        requires { length text.now < 4294967295 }
        ensures { MatchResult result (MapOf text.now) (FaultOf text.now) }
    {
        let map = ChainMap::read_first(alloc, text)?;
        if line_count(text) > MOST_LINES as usize {
            return Err(MapFault::Line {
                line: MOST_LINES + 1,
            });
        }
        Ok(map)
    }

    /// Reads the lines that a map may have; what comes after them isn't tried.
    fn read_first(alloc: Global, text: &[u8]) -> Result<ChainMap, MapFault>
        requires { length text.now < 4294967295 }
        ensures { MatchResult result (FirstRead text.now) (FirstFault text.now) }
    {
        let mut map = ChainMap::none(alloc);
        let mut lines = Lines::new(text);
        while let Some(line) = lines.next() {
            if line.number > MOST_LINES {
                continue;
            }
            if !map.add_line(alloc, line.text)? {
                return Err(MapFault::Line { line: line.number });
            }
        }
        Ok(map)
    }

    /// A map that lists nothing.
    fn none(alloc: Global) -> ChainMap
        ensures { HoldsRows [] result }
    {
        ChainMap {
            files: HashMap::new(alloc),
        }
    }

    /// Adds what a line says; false if the line is bad.
    fn add_line(&mut self, alloc: Global, line: &[u8]) -> Result<bool, AllocError>
        ensures { IfOk result (AddsLine self.old self.new line.now) }
    {
        match row_of(line) {
            Some(entry) => self.add(alloc, entry),
            None => Ok(false),
        }
    }

    /// Adds an entry; false if its x5u is listed already.
    fn add(&mut self, alloc: Global, row: Entry<'_>) -> Result<bool, AllocError>
        ensures { IfOk result (Adds self.old self.new (entry_row row.entry)) }
    {
        let x5u = Vec::from_slice(alloc, row.x5u)?;
        let file = String::from_str(alloc, row.file)?;
        let before = self.files.insert(x5u, file)?;
        Ok(before.is_none())
    }
}
