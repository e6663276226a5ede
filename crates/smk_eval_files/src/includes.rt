//! Includes, and the paths that they name.

ghost use Rattle.std.specs.Prelude.{◌≡◌, ◌++◌, [], take, false, IfOk, IsCharBoundary};
ghost use Rattle.smk_eval_files.specs.Reading.{Answers, device_failed, include_of, includes, folder_end, beside, target};

use smk_base::{List, OutOfMemory, PathFault, PathText, Text};
use smk_flaws::{FileFault, FileFlaw};
use smk_parse_tree::{Form, Statement};
use std::alloc::Global;

// The place behind the last slash.
fn folder_end(file: &str) -> usize
    ensures value { result ≡ folder_end 0 0 file.now }
    ensures boundary { IsCharBoundary file.now result }
{
    let mut end = 0;
    for (place, b) in file.as_bytes().iter().enumerate() {
        if *b == b'/' {
            end = place + 1;
        }
    }
    end
}

// The path as it is written beside the file.
fn beside(alloc: Global, file: &PathText, text: &Text) -> Result<Text, OutOfMemory>
    ensures { IfOk result (λ path. path ≡ beside file.now text.now) }
{
    let name = file.as_str();
    let mut path = String::from_str(alloc, &name[..folder_end(name)])?;
    path.push_str(text.as_str())?;
    Text::of(alloc, path.as_str())
}

/// The path that an include of the file names. `NoFile` with the text of the include where it is none.
pub(crate) fn target(alloc: Global, file: &PathText, text: &Text) -> Result<PathText, FileFault>
    ensures is { Answers (target file.now text.now) result }
    ensures no_device { device_failed result ≡ false }
{
    let path = beside(alloc, file, text)?;
    match PathText::read(alloc, path.as_str()) {
        Ok(path) => Ok(path),
        Err(PathFault::BadPath) => Err(FileFault::Flawed(FileFlaw::NoFile {
            file: text.copy(alloc)?,
        })),
        Err(PathFault::OutOfMemory) => Err(FileFault::OutOfMemory),
    }
}

/// The texts of the includes, in order. `OutOfMemory` where there is no memory for them.
pub(crate) fn includes(alloc: Global, statements: &[Statement]) -> Result<List<Text>, OutOfMemory>
    ensures { IfOk result (λ texts. texts ≡ includes statements.now) }
{
    let mut texts = List::new(alloc);
    for statement in statements {
        if let Form::Include(text) = &statement.form {
            texts.push(text.copy(alloc)?)?;
        }
    }
    Ok(texts)
}
