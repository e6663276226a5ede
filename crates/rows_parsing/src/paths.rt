//! Paths, and the places of what is kept of them.

use rows_lines::{Trouble, push_line, push_row, push_title};
use smk_base::{PathFault, PathText, Place};
use std::alloc::{AllocError, Global};

/// Whether the word is a path.
fn said(alloc: Global, word: &str) -> &'static str {
    match PathText::read(alloc, word) {
        Ok(_) => "a path",
        Err(PathFault::BadPath) => "no path",
        Err(PathFault::OutOfMemory) => "out of memory",
    }
}

/// The word for what is so or isn't.
fn word(good: bool) -> &'static str {
    if good { "a path" } else { "no path" }
}

/// Texts that are paths, and texts that are none.
fn push_words(alloc: Global, text: &mut String) -> Result<(), AllocError> {
    let table = [
        ("a", true),
        ("a/b/c.txt", true),
        ("...", true),
        ("a b", true),
        (".hidden/..x", true),
        (".snakemakes", true),
        (".snakemake.txt/x", true),
        ("a/.snakemake", true),
        ("", false),
        (".", false),
        ("..", false),
        ("a/.", false),
        ("../a", false),
        ("a//b", false),
        ("/a", false),
        ("a/", false),
        ("a\0b", false),
        ("a\nb", false),
        (".snakemake", false),
        (".snakemake/x", false),
    ];
    for (path, good) in table {
        push_line(text, path, said(alloc, path), word(good))?;
    }
    Ok(())
}

/// Parts of these many bytes with slashes between them.
fn long_text(alloc: Global, lengths: &[usize]) -> Result<String, AllocError> {
    let mut text = String::new(alloc);
    for (i, length) in lengths.iter().enumerate() {
        if i > 0 {
            text.push_str("/")?;
        }
        for _ in 0..*length {
            text.push_str("x")?;
        }
    }
    Ok(text)
}

/// Parts that are as long as they may be, and others.
fn push_lengths(alloc: Global, text: &mut String) -> Result<(), AllocError> {
    let table: [(&[usize], bool); 4] = [
        (&[250], true),
        (&[251], false),
        (&[249, 249, 249, 250], true),
        (&[249, 249, 250, 250], false),
    ];
    for (lengths, good) in table {
        let path = long_text(alloc, lengths)?;
        let name = format!(in alloc; "parts of {lengths:?} bytes")?;
        push_line(text, name.as_str(), said(alloc, path.as_str()), word(good))?;
    }
    Ok(())
}

/// The place that one function gives for the path.
fn place(alloc: Global, kind: &str) -> Result<Place, Trouble> {
    let path = PathText::read(alloc, "a/b/c")?;
    let place = match kind {
        "user" => Place::user(alloc, &path),
        "record" => Place::record_of(alloc, &path),
        "mark" => Place::mark_of(alloc, &path),
        "note" => Place::note_of(alloc, &path),
        _ => Place::lock(alloc),
    };
    Ok(place?)
}

/// Its text.
fn place_text(alloc: Global, kind: &str) -> Result<String, Trouble> {
    Ok(String::from_str(alloc, place(alloc, kind)?.as_str())?)
}

/// Where the files of `a/b/c` stand.
fn push_places(alloc: Global, text: &mut String) -> Result<(), AllocError> {
    let table = [
        ("user", "a/b/c"),
        ("record", ".snakemake/smk/records/+a/+b/=c"),
        ("mark", ".snakemake/smk/marks/+a/+b/=c"),
        ("note", ".snakemake/smk/logs/+a/+b/=c"),
        ("lock", ".snakemake/smk/lock"),
    ];
    for (kind, wanted) in table {
        push_row(text, kind, &place_text(alloc, kind), wanted)?;
    }
    Ok(())
}

/// Whether the path lies under the folder, and whether they overlap.
fn compared(alloc: Global, path: &str, folder: &str) -> Result<(bool, bool), Trouble> {
    let path = PathText::read(alloc, path)?;
    let folder = PathText::read(alloc, folder)?;
    Ok((path.is_under(&folder), path.overlaps(&folder)))
}

/// The two answers in words.
fn compared_text(alloc: Global, path: &str, folder: &str) -> Result<String, Trouble> {
    let (under, overlap) = compared(alloc, path, folder)?;
    Ok(format!(in alloc; "under {under}, overlaps {overlap}")?)
}

/// Paths beside one another.
fn push_compared(alloc: Global, text: &mut String) -> Result<(), AllocError> {
    let table = [
        ("a/b", "a", true, true),
        ("a/b/c", "a", true, true),
        ("a", "a/b", false, true),
        ("a", "a", false, true),
        ("ab", "a", false, false),
        ("a.b", "a", false, false),
        ("a/c", "a/b", false, false),
    ];
    for (path, folder, under, overlap) in table {
        let name = format!(in alloc; "{path} and {folder}")?;
        let wanted = format!(in alloc; "under {under}, overlaps {overlap}")?;
        let found = compared_text(alloc, path, folder);
        push_row(text, name.as_str(), &found, wanted.as_str())?;
    }
    Ok(())
}

/// The path of the second in the first.
fn joined(alloc: Global, folder: &str, rest: &str) -> Result<String, Trouble> {
    let folder = PathText::read(alloc, folder)?;
    let rest = PathText::read(alloc, rest)?;
    let path = folder.join(alloc, &rest)?;
    Ok(String::from_str(alloc, path.as_str())?)
}

/// Paths in folders.
fn push_joined(alloc: Global, text: &mut String) -> Result<(), AllocError> {
    push_row(
        text,
        "a/b with c/d",
        &joined(alloc, "a/b", "c/d"),
        "a/b/c/d",
    )?;
    let long = long_text(alloc, &[250, 250, 250])?;
    let found = joined(alloc, long.as_str(), long.as_str());
    push_row(text, "two paths of 752 bytes", &found, "no path")
}

/// Adds the rows on paths.
pub fn push_rows(alloc: Global, text: &mut String) -> Result<(), AllocError> {
    push_title(text, "paths")?;
    push_words(alloc, text)?;
    push_lengths(alloc, text)?;
    push_title(text, "places of a/b/c")?;
    push_places(alloc, text)?;
    push_title(text, "paths and folders")?;
    push_compared(alloc, text)?;
    push_joined(alloc, text)
}
