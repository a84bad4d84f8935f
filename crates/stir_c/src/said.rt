//! What came of a call to the library, as C sees it.
ghost use Rattle.std.specs.Prelude.{◌≡◌};
ghost use Rattle.stir_c.specs.Retarget.{said_of_unmoved};
ghost use Rattle.stir_c.specs.Saying.{said_found};
ghost use Rattle.stir_c.specs.Signing.{said_digest, said_of_unsigned, said_withheld};
ghost use Rattle.stir_c.specs.Showing.{said_of_unshown};
ghost use Rattle.stir_c.specs.Told.{no_room, plain};
ghost use Rattle.stir_c.specs.WorldFaults.{said_of_world_fault};
ghost use Rattle.stir_c.specs.WrittenText.{said_written};

use crate::showing::Unshown;
use open_calls::{Found, Unmoved, Unread, Unsigned, WorldFault};
use verify_rules::code;

/// What `kind` may be.
const PASSES: u32 = 0;

const REFUSED: u32 = 1;

const BAD_INPUT: u32 = 2;

const NO_MEMORY: u32 = 3;

const NO_ROOM: u32 = 4;

const CLOSED: u32 = 5;

const NONE: u32 = 6;

/// What `input` may be of a world.
const SETTINGS: u32 = 1;

const ANCHORS: u32 = 4;

const TABLE: u32 = 5;

/// What `input` may be of a message that is signed.
const CERTIFICATE: u32 = 7;

const ORDER: u32 = 8;

const SIGNATURE: u32 = 9;

/// What came of a call to the library: C's `stir_said`.
#[repr(C)]
#[derive(Clone, Copy)]
pub struct Said {
    /// 0: the call breaks no rule, or what was asked for is done. 1: it breaks a rule, or isn't signed. 2: an input is
    /// outside its grammar or its limits. 3: memory ran out. 4: the room is too small, and nothing is written. 5: a
    /// handle is closed. 6: there is none of this number or name.
    pub kind: u32,
    /// Of kind 2, which input.
    pub input: u32,
    /// Of kind 1, the first rule that is broken, its response code, and where: the Identity field, counted from 1, and
    /// the part of it; or of what isn't signed, the number of the cause.
    pub rule: u32,
    pub code: u32,
    pub field: u32,
    pub part: u32,
    /// Of kind 0, the last second at which the PASSporT is fresh, in Unix time.
    pub last: u64,
    /// How many bytes are written, or of kind 4 are to be written.
    pub size: u64,
    /// Of kind 0, by what the call is known again; or the digest that is to be signed.
    pub ticket: [u8; 32],
}

impl Said {
    /// Of this kind, and nothing else is said.
    fn of(kind: u32) -> Said
        ensures { result ≡ plain kind 0 }
    {
        Said {
            kind,
            input: 0,
            rule: 0,
            code: 0,
            field: 0,
            part: 0,
            last: 0,
            size: 0,
            ticket: [0; 32],
        }
    }

    /// What was found of a call, with so many bytes that are written beside it, or so many PASSporTs that are judged.
    pub(crate) fn call(found: &Found, size: usize) -> Said
        ensures { result ≡ said_found found.now size }
    {
        match found {
            Found::Refused(refusal) => Said {
                rule: u32::from(refusal.rule),
                code: u32::from(code(refusal.rule)),
                field: refusal.place.field,
                part: refusal.place.part,
                size: size as u64,
                ..Said::of(REFUSED)
            },
            Found::Passes(pass) => Said {
                last: pass.last,
                size: size as u64,
                ticket: pass.ticket,
                ..Said::of(PASSES)
            },
        }
    }

    /// What was wanted is done.
    pub(crate) fn done() -> Said
        ensures { result ≡ plain 0 0 }
    {
        Said::of(PASSES)
    }

    /// Memory ran out.
    pub(crate) fn no_memory() -> Said
        ensures { result ≡ plain 3 0 }
    {
        Said::of(NO_MEMORY)
    }

    /// A handle is closed.
    pub(crate) fn closed() -> Said
        ensures { result ≡ plain 5 0 }
    {
        Said::of(CLOSED)
    }

    /// There is none of this number or name.
    pub(crate) fn none() -> Said
        ensures { result ≡ plain 6 0 }
    {
        Said::of(NONE)
    }

    /// The input of this number is outside its grammar or its limits.
    fn bad(input: u32) -> Said
        ensures { result ≡ plain 2 input }
    {
        Said {
            input,
            ..Said::of(BAD_INPUT)
        }
    }

    /// Why there is no world.
    pub(crate) fn world_fault(fault: WorldFault) -> Said
        ensures { result ≡ said_of_world_fault fault }
    {
        match fault {
            WorldFault::Settings => Said::bad(SETTINGS),
            WorldFault::Anchors => Said::bad(ANCHORS),
            WorldFault::Table => Said::bad(TABLE),
            WorldFault::Memory => Said::no_memory(),
        }
    }

    /// This digest is to be signed.
    fn digest(digest: [u8; 32]) -> Said
        ensures { result ≡ said_digest digest }
    {
        Said {
            ticket: digest,
            ..Said::of(PASSES)
        }
    }

    /// Nothing may be signed, for the cause of this number.
    fn withheld(number: u32) -> Said
        ensures { result ≡ said_withheld number }
    {
        Said {
            rule: number,
            ..Said::of(REFUSED)
        }
    }

    /// So many bytes were written, or there is no room for them.
    pub(crate) fn written(size: usize, written: bool) -> Said
        ensures { result ≡ said_written size written }
    {
        if !written {
            return Said::no_room(size);
        }
        Said {
            size: size as u64,
            ..Said::of(PASSES)
        }
    }

    /// There is no room for so many bytes.
    pub(crate) fn no_room(size: usize) -> Said
        ensures { result ≡ no_room size }
    {
        Said {
            size: size as u64,
            ..Said::of(NO_ROOM)
        }
    }

    /// Why nothing is shown.
    pub(crate) fn unshown(why: Unshown) -> Said
        ensures { result ≡ said_of_unshown why }
    {
        match why {
            Unshown::Certificate => Said::bad(CERTIFICATE),
            Unshown::Memory => Said::no_memory(),
        }
    }
}

/// Why no message comes out.
pub(crate) fn said_of_unsigned(unsigned: Unsigned) -> Said
    ensures { result ≡ said_of_unsigned unsigned }
{
    match unsigned {
        Unsigned::Input(Unread::Certificate) => Said::bad(CERTIFICATE),
        Unsigned::Input(Unread::Order) => Said::bad(ORDER),
        Unsigned::Input(Unread::Signature) => Said::bad(SIGNATURE),
        Unsigned::Input(Unread::Memory) => Said::no_memory(),
        Unsigned::Withheld(number) => Said::withheld(u32::from(number)),
        Unsigned::Digest(digest) => Said::digest(digest),
    }
}

/// Why a call doesn't go on.
pub(crate) fn said_of_unmoved(unmoved: Unmoved) -> Said
    ensures { result ≡ said_of_unmoved unmoved }
{
    match unmoved {
        Unmoved::Input(Unread::Certificate) => Said::bad(CERTIFICATE),
        Unmoved::Input(Unread::Order) => Said::bad(ORDER),
        Unmoved::Input(Unread::Signature) => Said::bad(SIGNATURE),
        Unmoved::Input(Unread::Memory) => Said::no_memory(),
        Unmoved::Refused(refusal) => Said::call(&Found::Refused(refusal), 0),
        Unmoved::Held(number) => Said::withheld(u32::from(number)),
        Unmoved::Digest(digest) => Said::digest(digest),
    }
}
