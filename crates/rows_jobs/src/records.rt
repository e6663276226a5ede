//! Bytes that read as a record, and bytes that are none.

use crate::reading::{FIRST, Reading, SECOND, what_reads};
use rows_lines::{Trouble, push_case, push_title};
use std::alloc::{AllocError, Global};

const CLUSTERED: &str =
    "SMK2\n12:clustering/a\n1\n22:lines {input} {output}\n1\n6:sample\n1:a\n0\n1\n0:\n1\n13:samples/a.txt\nS1\n5891b5b522d5df086d0ff0b110fbd9d21bb4fc7163af34d08286a2e846f6be03\n1\n8:clusters\n1\nD12:clustering/a\n3\nF5:1.txt\nF5:2.txt\nF5:3.txt\n";

// The reading in words.
fn words_of(reading: Reading) -> &'static str {
    match reading {
        Reading::Nothing => "no record",
        Reading::Spelling => "a record, written so again",
        Reading::OtherSpelling => "a record, written otherwise",
    }
}

// What the bytes read as.
fn told(alloc: Global, bytes: &[u8]) -> Result<String, Trouble> {
    let reading = what_reads(alloc, bytes)?;
    Ok(String::from_str(alloc, words_of(reading))?)
}

// What the bytes read as behind the line of the format.
fn told_in(alloc: Global, format: &str, rest: &str) -> Result<String, Trouble> {
    let bytes = format!(in alloc; "{format}\n{rest}")?;
    told(alloc, bytes.as_bytes())
}

// Adds the cases that are the same in each format.
fn push_format(alloc: Global, text: &mut String, format: &str) -> Result<(), AllocError> {
    for (name, rest) in [
        (
            "a record of a file in a folder",
            "1:d\n1\n0:\n0\n0\n0\n1\n0:\n1\nD1:d\n2\nD1:a\nF3:a/b\n",
        ),
        (
            "a record with a line too many",
            "7:out.txt\n1\n0:\n0\n0\n0\n1\n0:\n1\nF7:out.txt\n0\n\n",
        ),
        (
            "a length with a zero in front",
            "07:out.txt\n1\n0:\n0\n0\n0\n1\n0:\n1\nF7:out.txt\n0\n",
        ),
        (
            "a serial of zero",
            "7:out.txt\n0\n0:\n0\n0\n0\n1\n0:\n1\nF7:out.txt\n0\n",
        ),
        (
            "an input whose serial is not earlier",
            "7:out.txt\n1\n0:\n0\n0\n1\n0:\n1\n1:i\nM1\n1\n0:\n1\nF7:out.txt\n0\n",
        ),
        (
            "a path that is no output",
            "7:out.txt\n1\n0:\n0\n0\n0\n1\n0:\n1\nF7:out.csv\n0\n",
        ),
        (
            "a member without its folder",
            "1:d\n1\n0:\n0\n0\n0\n1\n0:\n1\nD1:d\n1\nF3:a/b\n",
        ),
        (
            "a count of members that aren't there",
            "1:d\n1\n0:\n0\n0\n0\n1\n0:\n1\nD1:d\n99999999\nF1:a\n",
        ),
    ] {
        push_case(text, name, &told_in(alloc, format, rest))?;
    }
    Ok(())
}

// Adds the cases of a source with its SHA-256.
fn push_digests(alloc: Global, text: &mut String) -> Result<(), AllocError> {
    for (name, format, stamp) in [
        ("a time alone", "SMK2", "T7\n"),
        (
            "a SHA-256",
            "SMK2",
            "S7\n5891b5b522d5df086d0ff0b110fbd9d21bb4fc7163af34d08286a2e846f6be03\n",
        ),
        (
            "a SHA-256 in the first format",
            "SMK1",
            "S7\n5891b5b522d5df086d0ff0b110fbd9d21bb4fc7163af34d08286a2e846f6be03\n",
        ),
        (
            "a SHA-256 in a third format",
            "SMK3",
            "S7\n5891b5b522d5df086d0ff0b110fbd9d21bb4fc7163af34d08286a2e846f6be03\n",
        ),
        (
            "a SHA-256 with a capital digit",
            "SMK2",
            "S7\n5891B5b522d5df086d0ff0b110fbd9d21bb4fc7163af34d08286a2e846f6be03\n",
        ),
        (
            "a SHA-256 with a digit too few",
            "SMK2",
            "S7\n5891b5b522d5df086d0ff0b110fbd9d21bb4fc7163af34d08286a2e846f6be0\n",
        ),
        (
            "a SHA-256 with a digit too many",
            "SMK2",
            "S7\n5891b5b522d5df086d0ff0b110fbd9d21bb4fc7163af34d08286a2e846f6be037\n",
        ),
        ("a SHA-256 that is left out", "SMK2", "S7\n"),
    ] {
        push_case(text, name, &told_with(alloc, format, stamp))?;
    }
    Ok(())
}

// What a record reads as whose one input has the stamp.
fn told_with(alloc: Global, format: &str, stamp: &str) -> Result<String, Trouble> {
    let rest = format!(in alloc;
        "7:out.txt\n1\n0:\n0\n0\n1\n0:\n1\n1:i\n{stamp}1\n0:\n1\nF7:out.txt\n0\n"
    )?;
    told_in(alloc, format, rest.as_str())
}

/// Adds a line for each case.
pub fn push_rows(alloc: Global, text: &mut String) -> Result<(), AllocError> {
    push_case(text, "a record of a file", &told(alloc, FIRST))?;
    push_case(text, "the same with a SHA-256", &told(alloc, SECOND))?;
    push_case(
        text,
        "a record of a directory",
        &told(alloc, CLUSTERED.as_bytes()),
    )?;
    push_title(text, "the first format")?;
    push_format(alloc, text, "SMK1")?;
    push_title(text, "the second format")?;
    push_format(alloc, text, "SMK2")?;
    push_title(text, "SHA-256 of a source")?;
    push_digests(alloc, text)
}
