//! The lines of the table, their words, and the names that they define.

use hex::FromHexError;
use std::alloc::{AllocError, AllocFailed, Global};
use std::collections::BTreeMap;
use std::str;
use std::str::FromStr;

/// Why a line can't be read.
#[derive(Clone, Copy)]
pub enum Unread {
    /// Its first word isn't a call that takes so many words.
    Call,
    /// A name stands for nothing.
    Name,
    /// A word isn't written as words are.
    Word,
    /// A word is no value that the call takes.
    Value,
    /// Memory ran out, in the call or before it.
    Memory,
}

impl Unread {
    /// The same in words.
    pub fn reason(self) -> &'static str {
        match self {
            Unread::Call => "no call that takes so many words",
            Unread::Name => "a name that stands for nothing",
            Unread::Word => "a word that isn't written as words are",
            Unread::Value => "a word that is no value of the call's",
            Unread::Memory => "memory ran out",
        }
    }
}

impl From<AllocError> for Unread {
    fn from(_error: AllocError) -> Unread {
        Unread::Memory
    }
}

impl<T: Drop> From<AllocFailed<T>> for Unread {
    fn from(_error: AllocFailed<T>) -> Unread {
        Unread::Memory
    }
}

/// A line of the table.
#[derive(Clone, Copy)]
pub enum Line<'a> {
    /// An empty line, or one that begins with `#`.
    Comment,
    /// `NAME = WORD ..`.
    Definition {
        name: &'a str,
        words: &'a str,
    },
    /// `SUBJECT.CALL WORD ..`.
    Call {
        subject: &'a str,
        call: &'a str,
        words: &'a str,
    },
}

impl<'a> Line<'a> {
    /// What a line says.
    pub fn of(line: &'a str) -> Result<Line<'a>, Unread> {
        if line.is_empty() || line.starts_with('#') {
            return Ok(Line::Comment);
        }
        if let Some((name, words)) = line.split_once(" =") {
            if is_name(name) {
                return Ok(Line::Definition { name, words });
            }
        }
        let (first, words) = match line.split_once(' ') {
            Some((first, words)) => (first, words),
            None => (line, ""),
        };
        match first.split_once('.') {
            Some((subject, call)) => Ok(Line::Call {
                subject,
                call,
                words,
            }),
            None => Err(Unread::Call),
        }
    }
}

/// Whether a text is a name: letters, digits and `_`.
fn is_name(text: &str) -> bool {
    !text.is_empty()
        && text
            .bytes()
            .all(|byte| byte.is_ascii_alphanumeric() || byte == b'_')
}

/// The names defined so far, each with the bytes that it stands for.
#[derive(Drop)]
pub struct Names {
    held: BTreeMap<String, Vec<u8>>,
}

impl Names {
    /// No name.
    pub fn new(alloc: Global) -> Names {
        Names {
            held: BTreeMap::new(alloc),
        }
    }

    /// Lets a name stand for the bytes of some words put together, from now on.
    pub fn define(&mut self, alloc: Global, name: &str, words: &str) -> Result<(), Unread> {
        let mut bytes = Vec::new(alloc);
        for word in words.split(' ') {
            self.put_word(alloc, word, &mut bytes)?;
        }
        let name = String::from_str(alloc, name)?;
        self.held.insert(name, bytes)?;
        Ok(())
    }

    /// The bytes of each word of a call.
    pub fn arguments(&self, alloc: Global, words: &str) -> Result<Vec<Vec<u8>>, Unread> {
        let mut all = Vec::new(alloc);
        for word in words.split(' ').filter(|word| !word.is_empty()) {
            let mut bytes = Vec::new(alloc);
            self.put_word(alloc, word, &mut bytes)?;
            all.push(bytes)?;
        }
        Ok(all)
    }

    /// Puts the bytes of `[COUNT*]PIECE` after others.
    fn put_word(&self, alloc: Global, word: &str, out: &mut Vec<u8>) -> Result<(), Unread> {
        let (count, piece) = counted(word)?;
        for _ in 0..count {
            self.put_piece(alloc, piece, out)?;
        }
        Ok(())
    }

    /// Puts the bytes of `$NAME`, `$NAME[FROM..TO]`, `x:HEX` or a plain text after others.
    fn put_piece(&self, alloc: Global, piece: &str, out: &mut Vec<u8>) -> Result<(), Unread> {
        if let Some(name) = piece.strip_prefix('$') {
            return Ok(out.extend_from_slice(self.named(name)?)?);
        }
        match piece.strip_prefix("x:") {
            Some(digits) => put_hex(alloc, digits, out),
            None => put_text(piece, out),
        }
    }

    /// The bytes that a name stands for, or those from one place up to another, as `NAME[FROM..TO]`.
    fn named(&self, piece: &str) -> Result<&[u8], Unread> {
        let (name, part) = match piece.split_once('[') {
            Some((name, part)) => (name, Some(part)),
            None => (piece, None),
        };
        let Some(bytes) = self.held.get(name) else {
            return Err(Unread::Name);
        };
        match part {
            Some(part) => part_of(bytes.as_slice(), part),
            None => Ok(bytes.as_slice()),
        }
    }
}

/// The bytes from one place up to another, as `FROM..TO]`: the bytes' ends if these are left out.
fn part_of<'a>(bytes: &'a [u8], part: &str) -> Result<&'a [u8], Unread> {
    let Some(part) = part.strip_suffix(']') else {
        return Err(Unread::Word);
    };
    let Some((from, to)) = part.split_once("..") else {
        return Err(Unread::Word);
    };
    let from = place_of(from, 0)?;
    let to = place_of(to, bytes.len())?;
    bytes.get(from..to).ok_or(Unread::Value)
}

/// The place that a text is, or another if the text is empty.
fn place_of(text: &str, otherwise: usize) -> Result<usize, Unread> {
    if text.is_empty() {
        Ok(otherwise)
    } else {
        number(text.as_bytes())
    }
}

/// The count before a `*`, which is 1 if there is none, and the piece.
fn counted(word: &str) -> Result<(u64, &str), Unread> {
    match word.split_once('*') {
        Some((count, piece)) if are_digits(count) => Ok((number(count.as_bytes())?, piece)),
        _ => Ok((1, word)),
    }
}

/// Whether a text is one digit or more.
fn are_digits(text: &str) -> bool {
    !text.is_empty() && text.bytes().all(|byte| byte.is_ascii_digit())
}

/// Puts the bytes of hex digits, two a byte, after others.
fn put_hex(alloc: Global, digits: &str, out: &mut Vec<u8>) -> Result<(), Unread> {
    match hex::decode(alloc, digits) {
        Ok(bytes) => Ok(out.extend_from_slice(bytes.as_slice())?),
        Err(FromHexError::OutOfMemory) => Err(Unread::Memory),
        Err(_) => Err(Unread::Word),
    }
}

/// Puts the bytes of a plain text after others. A backslash in it begins `\xHH`, `\s`, `\n`, `\r`, `\t` or `\\`.
fn put_text(text: &str, out: &mut Vec<u8>) -> Result<(), Unread> {
    let mut rest = text.as_bytes();
    for _ in 0..text.len() {
        let [first, behind @ ..] = rest else {
            return Ok(());
        };
        let (byte, behind) = match *first {
            b'\\' => escaped(behind)?,
            byte => (byte, behind),
        };
        out.push(byte)?;
        rest = behind;
    }
    Ok(())
}

/// The byte that is escaped after a backslash, and what follows.
fn escaped(text: &[u8]) -> Result<(u8, &[u8]), Unread> {
    match text {
        [b'x', high, low, behind @ ..] => Ok((hex_byte([*high, *low])?, behind)),
        [letter, behind @ ..] => Ok((byte_of(*letter)?, behind)),
        _ => Err(Unread::Word),
    }
}

/// The byte that this letter stands for after a backslash.
fn byte_of(letter: u8) -> Result<u8, Unread> {
    match letter {
        b's' => Ok(b' '),
        b'n' => Ok(b'\n'),
        b'r' => Ok(b'\r'),
        b't' => Ok(b'\t'),
        b'\\' => Ok(b'\\'),
        _ => Err(Unread::Word),
    }
}

/// The byte of two hex digits.
fn hex_byte(digits: [u8; 2]) -> Result<u8, Unread> {
    let mut byte = [0];
    match hex::decode_to_slice(digits.as_slice(), &mut byte) {
        Ok(()) => Ok(byte[0]),
        Err(_) => Err(Unread::Word),
    }
}

/// The text that a word is.
pub fn text(word: &[u8]) -> Result<&str, Unread> {
    match str::from_utf8(word) {
        Ok(text) => Ok(text),
        Err(_) => Err(Unread::Value),
    }
}

/// The number that a word is, in decimal digits.
pub fn number<N: FromStr>(word: &[u8]) -> Result<N, Unread>
where
    N::Err: Drop,
{
    let digits = text(word)?;
    if !are_digits(digits) {
        return Err(Unread::Value);
    }
    match digits.parse::<N>() {
        Ok(number) => Ok(number),
        Err(_) => Err(Unread::Value),
    }
}
