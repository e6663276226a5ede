//! What the command `lines` makes: folders with a file for each line.
ghost use Rattle.std.specs.Prelude.{◌≡◌, ◌++◌, ◌∷◌, [], ◌==◌, IfOk, OnOk, ℕ, List as Items, false, string_bytes, if◌then◌else◌};
ghost use Rattle.smk_world.specs.Calls.{in_folder};
ghost use Rattle.smk_world.specs.declared.event.Node.TheVariants.{Directory, Regular};
ghost use Rattle.smk_world_mem.specs.Act.{last_line, lines_from, lines_of, line_name, line_files, folders_at};

use smk_base::{Bytes, List, OutOfMemory, PathText, Place};
use smk_world::{Change, Node};
use smk_world_nodes::new_file;
use std::alloc::{AllocError, Global};

// Takes one byte more: it ends the line that has begun, or belongs to it.
fn take_byte(
    alloc: Global,
    lines: &mut List<Bytes>,
    line: &mut Vec<u8>,
    byte: u8,
) -> Result<(), OutOfMemory>
    ensures { OnOk result ((later : Items ℕ) → lines.new ++ lines_from line.new.items later
        ≡ lines.old ++ (if byte == 10 then line.old.items ∷ lines_from [] later else lines_from (line.old.items ++ byte ∷ []) later)) }
{
    if byte == b'\n' {
        lines.push(Bytes::of(alloc, line.as_slice())?)?;
        line.clear();
        Ok(())
    } else {
        line.push(byte)?;
        Ok(())
    }
}

// Takes the line that has begun, unless it is empty.
fn take_last(alloc: Global, lines: &mut List<Bytes>, line: &[u8]) -> Result<(), OutOfMemory>
    ensures { OnOk result (lines.new ≡ lines.old ++ last_line line.now) }
{
    match line {
        [] => Ok(()),
        [_, ..] => lines.push(Bytes::of(alloc, line)?),
    }
}

fn lines_of(alloc: Global, bytes: &[u8]) -> Result<List<Bytes>, OutOfMemory>
    ensures { IfOk result (λ lines. lines ≡ lines_of bytes.now) }
{
    let mut lines = List::new(alloc);
    let mut line = Vec::new(alloc);
    let mut rest = bytes;
    while let [byte, more @ ..] = rest {
        take_byte(alloc, &mut lines, &mut line, *byte)?;
        rest = more;
    }
    take_last(alloc, &mut lines, line.as_slice())?;
    Ok(lines)
}

fn line_name(alloc: Global, number: u64) -> Result<String, AllocError>
    ensures { IfOk result (λ name. string_bytes name ≡ line_name number) }
{
    format!(in alloc; "{number}.txt")
}

// The line and a line end.
fn ended(alloc: Global, line: &[u8]) -> Result<Bytes, OutOfMemory>
    ensures { IfOk result (λ text. text ≡ line.now ++ 10 ∷ []) }
{
    let mut text = Vec::new(alloc);
    text.extend_from_slice(line)?;
    text.push(b'\n')?;
    Bytes::of(alloc, text.as_slice())
}

// Adds the file of the line with this number.
fn push_line(
    alloc: Global,
    left: &mut List<Change>,
    folder: &Place,
    number: u64,
    line: &[u8],
    now: u64,
) -> Result<(), OutOfMemory>
    ensures { OnOk result (left.new ≡ left.old
        ++ record { place = in_folder folder.now (line_name number); node = Regular (line.now ++ 10 ∷ []) now false } ∷ []) }
{
    let name = line_name(alloc, number)?;
    left.push(Change {
        place: folder.within(alloc, name.as_str())?,
        node: new_file(ended(alloc, line)?, now),
    })
}

// Adds the files of the lines.
fn push_lines(
    alloc: Global,
    left: &mut List<Change>,
    folder: &Place,
    lines: &[Bytes],
    now: u64,
) -> Result<(), OutOfMemory>
    ensures { OnOk result (left.new ≡ left.old ++ line_files folder.now 1 lines.now now) }
{
    let mut number = 1u64;
    let mut rest = lines;
    while let [line, more @ ..] = rest {
        push_line(alloc, left, folder, number, line.as_slice(), now)?;
        if number == u64::MAX {
            return Err(OutOfMemory);
        }
        number += 1;
        rest = more;
    }
    Ok(())
}

// Adds the folder.
fn push_folder(alloc: Global, left: &mut List<Change>, folder: &Place) -> Result<(), OutOfMemory>
    ensures { OnOk result (left.new ≡ left.old ++ record { place = folder.now; node = Directory } ∷ []) }
{
    left.push(Change {
        place: folder.copy(alloc)?,
        node: Node::Directory,
    })
}

/// Adds the folders, and in each of them a file for each line of the bytes.
pub fn push_folders(
    alloc: Global,
    left: &mut List<Change>,
    folders: &[PathText],
    bytes: &[u8],
    now: u64,
) -> Result<(), OutOfMemory>
    ensures { OnOk result (left.new ≡ left.old ++ folders_at folders.now bytes.now now) }
{
    let lines = lines_of(alloc, bytes)?;
    let mut rest = folders;
    while let [folder, more @ ..] = rest {
        let place = Place::user(alloc, folder)?;
        push_folder(alloc, left, &place)?;
        push_lines(alloc, left, &place, lines.as_slice(), now)?;
        rest = more;
    }
    Ok(())
}
