//! Records of which a byte was changed, and records that are cut short.

use rows_lines::{Trouble, push_case};
use smk_base::OutOfMemory;
use smk_record::{read, write};
use std::alloc::{AllocError, Global};

/// The record of a file that was made from one input, in the first format.
pub const FIRST: &[u8] =
    b"SMK1\n7:out.txt\n1\n22:cat {input} > {output}\n0\n0\n1\n0:\n1\n6:in.txt\nT1000\n1\n0:\n1\nF7:out.txt\n0\n";

/// The same in the second format, with the SHA-256 of the input.
pub const SECOND: &[u8] =
    b"SMK2\n7:out.txt\n1\n22:cat {input} > {output}\n0\n0\n1\n0:\n1\n6:in.txt\nS1000\n5891b5b522d5df086d0ff0b110fbd9d21bb4fc7163af34d08286a2e846f6be03\n1\n0:\n1\nF7:out.txt\n0\n";

/// What some bytes read as.
#[derive(Clone, Copy)]
pub enum Reading {
    Nothing,
    /// A record, which is spelled so.
    Spelling,
    /// A record, which is spelled otherwise.
    OtherSpelling,
}

/// What the bytes read as.
pub fn what_reads(alloc: Global, bytes: &[u8]) -> Result<Reading, OutOfMemory> {
    let Some(kept) = read(alloc, bytes)? else {
        return Ok(Reading::Nothing);
    };
    if write(alloc, &kept)?.as_slice() == bytes {
        Ok(Reading::Spelling)
    } else {
        Ok(Reading::OtherSpelling)
    }
}

/// How many texts were read, and what they were.
#[derive(Clone, Copy)]
struct Counts {
    tried: u32,
    spellings: u32,
    others: u32,
}

fn count(counts: &mut Counts, reading: Reading) {
    counts.tried = counts.tried.saturating_add(1);
    match reading {
        Reading::Nothing => {}
        Reading::Spelling => counts.spellings = counts.spellings.saturating_add(1),
        Reading::OtherSpelling => counts.others = counts.others.saturating_add(1),
    }
}

// What the record reads as where the byte there is another one.
fn changed(alloc: Global, record: &[u8], at: usize, byte: u8) -> Result<Reading, OutOfMemory> {
    let mut bytes = Vec::new(alloc);
    bytes.extend_from_slice(record)?;
    if let Some(place) = bytes.get_mut(at) {
        *place = byte;
    }
    what_reads(alloc, bytes.as_slice())
}

// Counts the records with another byte there.
fn count_at(
    alloc: Global,
    counts: &mut Counts,
    record: &[u8],
    at: usize,
    here: u8,
) -> Result<(), OutOfMemory> {
    for byte in 0..=255 {
        if byte != here {
            count(counts, changed(alloc, record, at, byte)?);
        }
    }
    Ok(())
}

fn count_changed(alloc: Global, counts: &mut Counts, record: &[u8]) -> Result<(), OutOfMemory> {
    for (at, here) in record.iter().enumerate() {
        count_at(alloc, counts, record, at, *here)?;
    }
    Ok(())
}

fn count_cut(alloc: Global, counts: &mut Counts, record: &[u8]) -> Result<(), OutOfMemory> {
    for len in 0..record.len() {
        count(counts, what_reads(alloc, &record[..len])?);
    }
    Ok(())
}

fn none() -> Counts {
    Counts {
        tried: 0,
        spellings: 0,
        others: 0,
    }
}

fn told(alloc: Global, counts: Counts) -> Result<String, Trouble> {
    let Counts {
        tried,
        spellings,
        others,
    } = counts;
    Ok(format!(in alloc;
        "{tried} tried, {spellings} spell a record, {others} read and are spelled otherwise"
    )?)
}

fn told_of_changed(alloc: Global, record: &[u8]) -> Result<String, Trouble> {
    let mut counts = none();
    count_changed(alloc, &mut counts, record)?;
    told(alloc, counts)
}

fn told_of_cut(alloc: Global, record: &[u8]) -> Result<String, Trouble> {
    let mut counts = none();
    count_cut(alloc, &mut counts, record)?;
    told(alloc, counts)
}

/// Adds a line for each table.
pub fn push_rows(alloc: Global, text: &mut String) -> Result<(), AllocError> {
    push_case(
        text,
        "a record of format 1 with one byte changed",
        &told_of_changed(alloc, FIRST),
    )?;
    push_case(
        text,
        "a record of format 2 with one byte changed",
        &told_of_changed(alloc, SECOND),
    )?;
    push_case(
        text,
        "a record of format 1 cut short",
        &told_of_cut(alloc, FIRST),
    )?;
    push_case(
        text,
        "a record of format 2 cut short",
        &told_of_cut(alloc, SECOND),
    )
}
