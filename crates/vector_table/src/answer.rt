//! What a call answers, as the words of a line.

use crate::table::Unread;
use std::alloc::{AllocError, Global};
use std::cmp::Ordering;
use std::fmt::{Debug, Display, Write};

/// The words of a line, put one after the other. If memory ran out on the way, [`Answer::line`] says so.
#[derive(Drop)]
pub struct Answer {
    alloc: Global,
    line: String,
    is_whole: bool,
}

impl Answer {
    /// A line of no word.
    pub fn new(alloc: Global) -> Answer {
        Answer {
            alloc,
            line: String::new(alloc),
            is_whole: true,
        }
    }

    /// A word that is written as it is, such as `ok`, a fault's name or a number.
    pub fn word<D: Display + Drop>(mut self, word: D) -> Answer {
        let put = self.put(&word);
        self.keep(put)
    }

    /// A word, or `-` for None.
    pub fn option<D: Display + Drop>(self, word: Option<D>) -> Answer {
        match word {
            Some(word) => self.word(word),
            None => self.word("-"),
        }
    }

    /// A text, in which what isn't printable is escaped. The empty text is `x:`.
    pub fn text(mut self, text: &[u8]) -> Answer {
        if text.is_empty() {
            return self.word("x:");
        }
        let put = self.put_text(text);
        self.keep(put)
    }

    /// Bytes, as `x:` and hex digits.
    pub fn hex(mut self, bytes: &[u8]) -> Answer {
        let put = self.put_hex(bytes);
        self.keep(put)
    }

    /// The whole line.
    pub fn line(self) -> Result<String, Unread> {
        let Answer { line, is_whole, .. } = self;
        if is_whole {
            Ok(line)
        } else {
            Err(Unread::Memory)
        }
    }

    /// The same words, of which the last was put so.
    fn keep(mut self, put: Result<(), AllocError>) -> Answer {
        if put.is_err() {
            self.is_whole = false;
        }
        self
    }

    /// Puts a blank after the words, if there are any.
    fn begin(&mut self) -> Result<(), AllocError> {
        if !self.line.is_empty() {
            self.line.push(' ')?;
        }
        Ok(())
    }

    /// Puts a word after the others, as it is printed.
    fn put<D: Display>(&mut self, word: &D) -> Result<(), AllocError> {
        self.begin()?;
        write!(self.line, "{word}")?;
        Ok(())
    }

    /// Puts an escaped text after the other words.
    fn put_text(&mut self, text: &[u8]) -> Result<(), AllocError> {
        self.begin()?;
        for byte in text {
            put_escaped(&mut self.line, *byte)?;
        }
        Ok(())
    }

    /// Puts bytes after the other words, as hex digits.
    fn put_hex(&mut self, bytes: &[u8]) -> Result<(), AllocError> {
        self.begin()?;
        self.line.push_str("x:")?;
        let digits = hex::encode(self.alloc, bytes)?;
        self.line.push_str(digits.as_str())?;
        Ok(())
    }
}

/// An answer of one word.
pub fn word<D: Display + Drop>(alloc: Global, word: D) -> Result<String, Unread> {
    Answer::new(alloc).word(word).line()
}

/// An answer of one word, or `none`.
pub fn or_none<D: Display + Drop>(alloc: Global, found: Option<D>) -> Result<String, Unread> {
    match found {
        Some(found) => word(alloc, found),
        None => word(alloc, "none"),
    }
}

/// `fault`, its kind and its place.
pub fn fault<D: Display + Drop>(alloc: Global, kind: u8, place: D) -> Result<String, Unread> {
    Answer::new(alloc)
        .word("fault")
        .word(kind)
        .word(place)
        .line()
}

/// `ok` and a word.
pub fn ok<D: Display + Drop>(alloc: Global, found: D) -> Result<String, Unread> {
    Answer::new(alloc).word("ok").word(found).line()
}

/// `line` and its number.
fn line(alloc: Global, number: u32) -> Result<String, Unread> {
    Answer::new(alloc).word("line").word(number).line()
}

/// `ok`, or `line` and the number of the first bad line, for what was read of a text of lines.
pub fn ok_or_line<T: Drop>(alloc: Global, read: Result<T, u32>) -> Result<String, Unread> {
    match read {
        Ok(_) => word(alloc, "ok"),
        Err(bad) => line(alloc, bad),
    }
}

/// The word of an order.
pub fn ordering(order: Ordering) -> &'static str {
    match order {
        Ordering::Less => "less",
        Ordering::Equal => "equal",
        Ordering::Greater => "greater",
    }
}

/// A value as it is printed: plainly, at the right of fifteen places, and for a programmer.
pub fn shown<D: Display + Debug>(alloc: Global, value: &D) -> Result<String, Unread> {
    let plain = plain(alloc, value)?;
    let padded = padded(alloc, value)?;
    let debug = debug(alloc, value)?;
    Answer::new(alloc)
        .text(plain.as_bytes())
        .text(padded.as_bytes())
        .text(debug.as_bytes())
        .line()
}

/// A value as it is printed plainly.
fn plain<D: Display>(alloc: Global, value: &D) -> Result<String, AllocError> {
    format!(in alloc; "{value}")
}

/// A value as it is printed at the right of fifteen places.
fn padded<D: Display>(alloc: Global, value: &D) -> Result<String, AllocError> {
    format!(in alloc; "{value:>15}")
}

/// A value as it is printed for a programmer.
fn debug<D: Debug>(alloc: Global, value: &D) -> Result<String, AllocError> {
    format!(in alloc; "{value:?}")
}

/// Puts a byte after a text. If it isn't printable, it is escaped as in the table's plain texts.
fn put_escaped(out: &mut String, byte: u8) -> Result<(), AllocError> {
    if let Some(letter) = letter_of(byte) {
        out.push('\\')?;
        out.push(letter)?;
    } else if byte.is_ascii_graphic() {
        out.push(char::from(byte))?;
    } else {
        write!(out, "\\x{byte:02x}")?;
    }
    Ok(())
}

/// The letter after the backslash, if a byte has an escape of its own.
fn letter_of(byte: u8) -> Option<char> {
    match byte {
        b' ' => Some('s'),
        b'\n' => Some('n'),
        b'\r' => Some('r'),
        b'\t' => Some('t'),
        b'\\' => Some('\\'),
        _ => None,
    }
}
