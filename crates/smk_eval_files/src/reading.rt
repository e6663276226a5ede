//! Files and their includes, read from the working folder.

ghost use Rattle.std.specs.Prelude.{◌≡◌, [], false};
ghost use Rattle.smk_world.specs.Devices.{WhereTold, HasLooked};
ghost use Rattle.smk_eval_files.specs.Reading.{Answers, device_failed, bytes_in, bytes_at, onto, included, files_from, files_at};
ghost use Rattle.smk_eval_files.specs.Opening.{opened_as, include_from};

use crate::files::ReadFile;
use crate::includes::{includes, target};
use crate::sources::syntax_in;
use smk_base::{Bytes, List, PathText, Place, Text};
use smk_flaws::{FileFault, FileFlaw};
use smk_world::{Files, Found, WorkFault};
use std::alloc::Global;

/// The most bytes that a file has.
const FILE_LIMIT: u64 = 1_048_576;

/// A file that was read, its path and the texts of its includes, and the files so far with it.
#[derive(Drop)]
struct Opened {
    files: List<ReadFile>,
    file: PathText,
    includes: List<Text>,
}

// The bytes that were found, or the fault where there are none or too many.
fn held(alloc: Global, file: &PathText, found: Found) -> Result<Bytes, FileFault>
    ensures is { Answers (bytes_in file.now found) result }
    ensures no_device { device_failed result ≡ false }
{
    match found {
        Found::Held(bytes) => Ok(bytes),
        Found::Nothing => Err(FileFault::Flawed(FileFlaw::NoFile {
            file: Text::of(alloc, file.as_str())?,
        })),
        Found::TooBig(_) => Err(FileFault::Flawed(FileFlaw::TooBig {
            file: Text::of(alloc, file.as_str())?,
        })),
    }
}

/// The bytes of the file. `NoFile` where no file is there, `TooBig` where it has more than 1,048,576 bytes, `Device` where the device
/// failed, `OutOfMemory` where there is no memory for them.
pub fn read_bytes<W: Files>(
    alloc: Global,
    work: &mut W,
    file: &PathText,
) -> Result<Bytes, FileFault>
    requires none_runs { (W.device work.old).running ≡ [] }
    ensures looked { HasLooked W.act (W.device work.old) (W.device work.new) (device_failed result) }
    ensures told { WhereTold (W.device work.old) (λ w. Answers (bytes_at w.nodes file.now) result) }
{
    let Ok(place) = Place::user(alloc, file) else {
        return Err(FileFault::OutOfMemory);
    };
    match work.read(alloc, &place, FILE_LIMIT) {
        Ok(found) => held(alloc, file, found),
        Err(WorkFault::Failed) => Err(FileFault::Device),
        Err(WorkFault::OutOfMemory) => Err(FileFault::OutOfMemory),
    }
}

// The file with these bytes, put after the files so far, unless it lies too deep.
fn open_file(
    alloc: Global,
    files: List<ReadFile>,
    file: PathText,
    source: &[u8],
    depth: u64,
) -> Result<Opened, FileFault>
    ensures is { Answers (opened_as depth files file source.now) result }
    ensures no_device { device_failed result ≡ false }
{
    if depth == 0 {
        return Err(FileFault::Flawed(FileFlaw::IncludeDepth {
            file: Text::of(alloc, file.as_str())?,
        }));
    }
    let syntax = syntax_in(alloc, &file, source)?;
    let mut files = files;
    let name = file.copy(alloc)?;
    let includes = includes(alloc, syntax.statements.as_slice())?;
    files.push(ReadFile { file, syntax })?;
    Ok(Opened {
        files,
        file: name,
        includes,
    })
}

// The files so far with this one and its includes, which lie less than `depth` deep.
#[cycle(reading)]
fn with_file<W: Files>(
    alloc: Global,
    work: &mut W,
    files: List<ReadFile>,
    file: PathText,
    depth: u64,
) -> Result<List<ReadFile>, FileFault>
    requires none_runs { (W.device work.old).running ≡ [] }
    ensures looked { HasLooked W.act (W.device work.old) (W.device work.new) (device_failed result) }
    ensures told { WhereTold (W.device work.old) (λ w. Answers (onto files (files_from w.nodes depth file)) result) }
{
    match read_bytes(alloc, work, &file) {
        Err(fault) => Err(fault),
        Ok(bytes) => match open_file(alloc, files, file, bytes.as_slice(), depth) {
            Err(fault) => Err(fault),
            Ok(opened) => {
                if depth == 0 {
                    unreachable!()
                }
                with_includes(
                    alloc,
                    work,
                    opened.files,
                    &opened.file,
                    opened.includes.as_slice(),
                    depth - 1,
                )
            }
        },
    }
}

// The files so far with those of an include of this file.
#[cycle(reading)]
fn with_include<W: Files>(
    alloc: Global,
    work: &mut W,
    files: List<ReadFile>,
    file: &PathText,
    text: &Text,
    depth: u64,
) -> Result<List<ReadFile>, FileFault>
    requires none_runs { (W.device work.old).running ≡ [] }
    ensures looked { HasLooked W.act (W.device work.old) (W.device work.new) (device_failed result) }
    ensures told { WhereTold (W.device work.old) (λ w. Answers (onto files (include_from (files_from w.nodes depth) file.now text.now)) result) }
{
    match target(alloc, file, text) {
        Err(fault) => Err(fault),
        Ok(path) => with_file(alloc, work, files, path, depth),
    }
}

// The files so far with those of these includes of this file, in order.
#[cycle(reading)]
fn with_includes<W: Files>(
    alloc: Global,
    work: &mut W,
    files: List<ReadFile>,
    file: &PathText,
    texts: &[Text],
    depth: u64,
) -> Result<List<ReadFile>, FileFault>
    requires none_runs { (W.device work.old).running ≡ [] }
    ensures looked { HasLooked W.act (W.device work.old) (W.device work.new) (device_failed result) }
    ensures told { WhereTold (W.device work.old) (λ w. Answers (onto files (included (files_from w.nodes depth) file.now texts.now)) result) }
{
    let mut all = files;
    for text in texts {
        match with_include(alloc, work, all, file, text, depth) {
            Err(fault) => return Err(fault),
            Ok(more) => all = more,
        }
    }
    Ok(all)
}

/// The file and its includes, depth first, in order. A file may be read many times.
///
/// The fault is the first one, of each file in that order: `NoFile` where no file is there, or the text of an include names no path;
/// `TooBig` where it has more than 1,048,576 bytes; `IncludeDepth` where it lies more than 16 includes deep; those of its tokens and of
/// its grammar, with their lines. `Device` where the device failed, `OutOfMemory` where there is no memory for the files.
pub fn read_files<W: Files>(
    alloc: Global,
    work: &mut W,
    file: PathText,
) -> Result<List<ReadFile>, FileFault>
    requires none_runs { (W.device work.old).running ≡ [] }
    ensures looked { HasLooked W.act (W.device work.old) (W.device work.new) (device_failed result) }
    ensures told { WhereTold (W.device work.old) (λ w. Answers (files_at w.nodes file) result) }
{
    with_file(alloc, work, List::new(alloc), file, 17)
}
