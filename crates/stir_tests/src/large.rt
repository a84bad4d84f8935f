//! Files of as many lines as the program takes, and of one more.

use cert_store::{ChainMap, MapFault};
use std::alloc::{AllocError, Global};
use std::fmt::Write;
use std::test::Fail;
use stir_outside::{Answers, Provider};
use tn_auth_list::{CodeTable, TableFault};

/// A text of that many lines, `front`, the line's number and `back`.
fn lines(alloc: Global, count: u32, front: &str, back: &str) -> Result<String, AllocError> {
    let mut text = String::new(alloc);
    for number in 0..count {
        writeln!(text, "{front}{number}{back}")?;
    }
    Ok(text)
}

/// The first bad line of a code table, or 0 if it is one.
fn bad_line_of_table(alloc: Global, text: &str) -> u32 {
    if text.len() >= 4_000_000_000 {
        return u32::MAX;
    }
    match CodeTable::read(alloc, text.as_bytes()) {
        Ok(_) => 0,
        Err(TableFault::Line { line }) => line,
        Err(TableFault::Memory) => u32::MAX,
    }
}

/// The chain map that the text is.
fn map_of(alloc: Global, text: &str) -> Result<ChainMap, MapFault> {
    if text.len() >= 4_000_000_000 {
        return Err(MapFault::Memory);
    }
    ChainMap::read(alloc, text.as_bytes())
}

/// The first bad line of a chain map, or 0 if it is one.
fn bad_line_of_map(alloc: Global, text: &str) -> u32 {
    match map_of(alloc, text) {
        Ok(_) => 0,
        Err(MapFault::Line { line }) => line,
        Err(MapFault::Memory) => u32::MAX,
    }
}

#[test]
fn a_code_table_names_twenty_thousand_codes(rt: HostRuntime) -> Result<(), Fail> {
    let mut text = lines(rt.alloc(), 20_000, "", " *")?;
    assert_eq!(rt; bad_line_of_table(rt.alloc(), text.as_str()), 0);
    text.push_str("\n7 *\n20000 7\n20001 *\n")?;
    assert_eq!(rt; bad_line_of_table(rt.alloc(), text.as_str()), 20_003);
    Ok(())
}

#[test]
fn a_code_table_has_two_hundred_thousand_numbers(rt: HostRuntime) -> Result<(), Fail> {
    let mut text = lines(rt.alloc(), 200_000, "709J ", "")?;
    text.push_str("42 *\n")?;
    assert_eq!(rt; bad_line_of_table(rt.alloc(), text.as_str()), 0);
    text.push_str("42 1\n")?;
    assert_eq!(rt; bad_line_of_table(rt.alloc(), text.as_str()), 200_002);
    Ok(())
}

/// How many lines a chain map may have.
const MAP_LINES: u32 = 50_000;

#[test]
fn a_chain_map_has_fifty_thousand_lines(rt: HostRuntime) -> Result<(), Fail> {
    let alloc = rt.alloc();
    let mut text = lines(alloc, MAP_LINES, "u", " f")?;
    let map = map_of(alloc, text.as_str()).ok().expect(&rt, "a chain map");
    for number in 0..MAP_LINES {
        let x5u = format!(in alloc; "u{number}")?;
        assert!(rt; map.file(x5u.as_bytes()) == Some("f"), "{number}");
    }
    assert!(rt; map.file(b"u50000".as_slice()).is_none());
    text.push_str(";")?;
    assert_eq!(rt; bad_line_of_map(alloc, text.as_str()), 50_001);
    text.push_str("\nx y\nx y\n")?;
    assert_eq!(rt; bad_line_of_map(alloc, text.as_str()), 50_001);
    let mut bad = String::from_str(alloc, "a b\nb c\na c\n")?;
    bad.push_str(text.as_str())?;
    assert_eq!(rt; bad_line_of_map(alloc, bad.as_str()), 3);
    Ok(())
}

/// How many lines of answers are read: together some 67 million bytes, as many as the program takes.
const ANSWER_LINES: u32 = 200_000;

const SIGNATURE: [u8; 64] = [0xF1; 64];

/// A point in its uncompressed form.
fn key() -> [u8; 65] {
    let mut key = [0xAB; 65];
    key[0] = 4;
    key
}

/// Lines that confirm a signature by the key for digests that are numbers.
fn answer_lines(alloc: Global) -> Result<String, AllocError> {
    let key = hex::encode(alloc, &key())?;
    let zeros = hex::encode(alloc, &[0; 28])?;
    let signature = hex::encode(alloc, &SIGNATURE)?;
    let mut text = String::new(alloc);
    for number in 0..ANSWER_LINES {
        writeln!(text, "confirm {key} {zeros}{number:08x} {signature}")?;
    }
    Ok(text)
}

#[test]
fn an_answers_file_has_two_hundred_thousand_lines(rt: HostRuntime) -> Result<(), Fail> {
    let alloc = rt.alloc();
    let text = answer_lines(alloc)?;
    assert!(rt; text.len() < 67_108_864);
    let answers = Answers::read(alloc, text.as_bytes())
        .ok()
        .expect(&rt, "answers");
    let mut provider = answers.provider(&[])?;
    let mut digest = [0; 32];
    for number in 0..ANSWER_LINES {
        digest[28..].copy_from_slice(&number.to_be_bytes());
        assert!(rt;
            provider.confirm(&key(), &digest, &SIGNATURE) == Ok(true),
            "{number}"
        );
    }
    digest[28..].copy_from_slice(&ANSWER_LINES.to_be_bytes());
    assert!(rt; provider.confirm(&key(), &digest, &SIGNATURE) == Ok(false));
    Ok(())
}
