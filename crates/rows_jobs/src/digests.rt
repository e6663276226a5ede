//! SHA-256 of contents, and of the files of a workspace in memory.

use crate::jobs::workspace;
use rows_lines::{Trouble, push_case};
use smk_base::{Bytes, List, OutOfMemory, PathText, Sum, one};
use smk_digest::{SumFault, digest_all, sums};
use smk_world_mem::MemWork;
use std::alloc::{AllocError, Global};
use std::str;
use std::thread::Threads;

// Vectors of the standard: nothing, one block, and texts of two blocks.
const VECTORS: [&str; 4] = [
    "",
    "abc",
    "abcdbcdecdefdefgefghfghighijhijkijkljklmklmnlmnomnopnopq",
    "abcdefghbcdefghicdefghijdefghijkefghijklfghijklmghijklmnhijklmnoijklmnopjklmnopqklmnopqrlmnopqrsmnopqrstnopqrstu",
];

// Adds the digits.
fn push_digits(text: &mut String, sum: &Sum) -> Result<(), AllocError> {
    let mut digits = [0; 64];
    match hex::encode_to_slice(sum.0, &mut digits) {
        Ok(()) => {}
        Err(_) => return text.push_str(" no digits"),
    }
    match str::from_utf8(&digits) {
        Ok(digits) => write!(text, " {digits}"),
        Err(_) => text.push_str(" no text"),
    }
}

// So many letters a.
fn letters(alloc: Global, len: usize) -> Result<Bytes, OutOfMemory> {
    let mut letters: Vec<u8> = Vec::new(alloc);
    letters.resize(len, b'a')?;
    Bytes::of(alloc, letters.as_slice())
}

// The vectors, and a million letters.
fn contents(alloc: Global) -> Result<List<Bytes>, OutOfMemory> {
    let mut contents = List::new(alloc);
    for vector in VECTORS {
        contents.push(Bytes::of(alloc, vector.as_bytes())?)?;
    }
    contents.push(letters(alloc, 1_000_000)?)?;
    Ok(contents)
}

// The digests of the vectors.
fn told_of_vectors<Rt: Threads + Sync>(rt: &Rt, alloc: Global) -> Result<String, Trouble> {
    let digests = digest_all(rt, alloc, &contents(alloc)?)?;
    let mut text = String::from_str(alloc, "digests")?;
    for digest in digests.as_slice() {
        push_digits(&mut text, digest)?;
    }
    Ok(text)
}

// Places a file of so many letters.
fn place(alloc: Global, work: &mut MemWork, path: &str, len: usize) -> Result<(), Trouble> {
    let bytes = letters(alloc, len)?;
    Ok(work.place(&PathText::read(alloc, path)?, bytes.as_slice(), 1)?)
}

// A hundred files, each of so many bytes as its number tells, and two at the limit.
fn filled(alloc: Global, failing: List<u64>) -> Result<MemWork, Trouble> {
    let mut work = workspace(alloc, failing);
    for number in 0..100usize {
        let path = format!(in alloc; "f{number}")?;
        place(alloc, &mut work, path.as_str(), number)?;
    }
    place(alloc, &mut work, "most", 1_048_576)?;
    place(alloc, &mut work, "more", 1_048_577)?;
    Ok(work)
}

// Their paths, the hundred ones from the last to the first; and one at which nothing is.
fn paths(alloc: Global) -> Result<List<PathText>, Trouble> {
    let mut paths = List::new(alloc);
    for number in 0..100usize {
        let path = format!(in alloc; "f{}", 99usize.saturating_sub(number))?;
        paths.push(PathText::read(alloc, path.as_str())?)?;
    }
    for path in ["gone", "more", "most"] {
        paths.push(PathText::read(alloc, path)?)?;
    }
    Ok(paths)
}

// Whether this is the digest of so many letters.
fn is_of<Rt: Threads + Sync>(
    rt: &Rt,
    alloc: Global,
    found: &Option<Sum>,
    len: usize,
) -> Result<bool, Trouble> {
    let alone = digest_all(rt, alloc, &one(alloc, letters(alloc, len)?)?)?;
    Ok(match (found, alone.as_slice()) {
        (Some(sum), [alone]) => sum.is(alone),
        _ => false,
    })
}

// How many of the first hundred digests are those of the files in their order.
fn count_right<Rt: Threads + Sync>(
    rt: &Rt,
    alloc: Global,
    found: &[Option<Sum>],
) -> Result<u32, Trouble> {
    let mut right = 0u32;
    for (at, sum) in found.iter().enumerate().take(100) {
        if is_of(rt, alloc, sum, 99usize.saturating_sub(at))? {
            right = right.saturating_add(1);
        }
    }
    Ok(right)
}

// What the files' digests are, where the calls with these numbers fail.
fn told_of_files<Rt: Threads + Sync>(
    rt: &Rt,
    alloc: Global,
    failing: List<u64>,
) -> Result<String, Trouble> {
    let mut work = filled(alloc, failing)?;
    let found = match sums(rt, alloc, &mut work, &paths(alloc)?) {
        Ok(found) => found,
        Err(SumFault::Device) => return Ok(String::from_str(alloc, "the device failed")?),
        Err(SumFault::OutOfMemory) => return Err(Trouble::OutOfMemory),
    };
    let right = count_right(rt, alloc, found.as_slice())?;
    let mut text = format!(in alloc;
        "{} told, {right} in order; of nothing, of more, of most:",
        found.len()
    )?;
    for sum in found.as_slice().iter().skip(100) {
        match sum {
            Some(sum) => push_digits(&mut text, sum)?,
            None => text.push_str(" none")?,
        }
    }
    Ok(text)
}

fn told_of_failing<Rt: Threads + Sync>(rt: &Rt, alloc: Global) -> Result<String, Trouble> {
    told_of_files(rt, alloc, one(alloc, 70)?)
}

/// Adds the lines.
pub fn push_rows<Rt: Threads + Sync>(
    rt: &Rt,
    alloc: Global,
    text: &mut String,
) -> Result<(), AllocError> {
    push_case(text, "vectors of SHA-256", &told_of_vectors(rt, alloc))?;
    push_case(
        text,
        "digests of files",
        &told_of_files(rt, alloc, List::new(alloc)),
    )?;
    push_case(
        text,
        "the seventieth call fails",
        &told_of_failing(rt, alloc),
    )
}
