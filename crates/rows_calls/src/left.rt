//! What is left of the job of `out.txt`.

use rows_lines::Trouble;
use smk_base::{PathText, Place};
use smk_world::{Files, Found};
use smk_world_mem::MemWork;
use std::alloc::Global;

const RECORD: &str =
    "SMK2\n7:out.txt\n1\n22:cat {input} > {output}\n0\n0\n1\n0:\n1\n6:in.txt\nS1000\n5891b5b522d5df086d0ff0b110fbd9d21bb4fc7163af34d08286a2e846f6be03\n1\n0:\n1\nF7:out.txt\n0\n";

/// What is left of the job.
#[derive(Clone, Copy, PartialEq, Eq)]
pub enum Left {
    /// Neither the output nor its record nor its mark.
    Nothing,
    /// The output and its record, as the job makes them, and no mark.
    Made,
    /// A mark of the output.
    Mark,
    /// Without a mark, the output and its record as they don't belong together.
    Torn,
}

/// What is left, in words.
pub fn words_of(left: Left) -> &'static str {
    match left {
        Left::Nothing => "nothing is left",
        Left::Made => "the output and its record are left",
        Left::Mark => "a mark is left",
        Left::Torn => "the output and its record are torn",
    }
}

// Whether the file there holds this text, or nothing stands there.
fn holds(
    alloc: Global,
    work: &mut MemWork,
    place: &Place,
    wanted: Option<&str>,
) -> Result<bool, Trouble> {
    Ok(match (work.read(alloc, place, 1000)?, wanted) {
        (Found::Held(bytes), Some(text)) => bytes.as_slice() == text.as_bytes(),
        (Found::Nothing, None) => true,
        _ => false,
    })
}

// Whether the output and its record hold these texts, or nothing stands there.
fn hold(
    alloc: Global,
    work: &mut MemWork,
    path: &PathText,
    output: Option<&str>,
    record: Option<&str>,
) -> Result<bool, Trouble> {
    let output_holds = holds(alloc, work, &Place::user(alloc, path)?, output)?;
    let record_holds = holds(alloc, work, &Place::record_of(alloc, path)?, record)?;
    Ok(output_holds && record_holds)
}

// What is left where there is no mark.
fn left_of_output(alloc: Global, work: &mut MemWork, path: &PathText) -> Result<Left, Trouble> {
    if hold(alloc, work, path, Some("hello\n"), Some(RECORD))? {
        return Ok(Left::Made);
    }
    if hold(alloc, work, path, None, None)? {
        return Ok(Left::Nothing);
    }
    Ok(Left::Torn)
}

// Whether no mark stands there.
fn is_unmarked(alloc: Global, work: &mut MemWork, path: &PathText) -> Result<bool, Trouble> {
    holds(alloc, work, &Place::mark_of(alloc, path)?, None)
}

// What is left of the job of the path.
fn left_at(alloc: Global, work: &mut MemWork, path: &PathText) -> Result<Left, Trouble> {
    if is_unmarked(alloc, work, path)? {
        left_of_output(alloc, work, path)
    } else {
        Ok(Left::Mark)
    }
}

/// What is left of the job.
pub fn what_is_left(alloc: Global, work: &mut MemWork) -> Result<Left, Trouble> {
    let path = PathText::read(alloc, "out.txt")?;
    left_at(alloc, work, &path)
}
