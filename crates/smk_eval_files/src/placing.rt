//! Included files in their places.

ghost use Rattle.std.specs.Prelude.{◌≡◌, ◌++◌, ◌∷◌, [], IfOk, OnOk};
ghost use Rattle.smk_eval_files.specs.Texts.{Entry, first_text, other_texts, put, left, text, after, texts, whole};
ghost use Rattle.smk_eval_files.specs.Placing.{entry, entries, waiting};

use crate::files::{Placed, ReadFile};
use smk_base::OutOfMemory;
use smk_parse_tree::{Form, Statement};
use std::alloc::Global;

fn add_all<'f>(made: &mut Vec<Placed<'f>>, more: &[Placed<'f>]) -> Result<(), OutOfMemory>
    ensures { OnOk result (entries made.new.items ≡ entries made.old.items ++ entries more.now) }
{
    for placed in more {
        made.push(*placed)?;
    }
    Ok(())
}

// Takes the text of the next file away.
fn next_text<'f>(alloc: Global, later: &mut Vec<Vec<Placed<'f>>>) -> Vec<Placed<'f>>
    ensures text { entries result.items ≡ first_text (waiting later.old) }
    ensures later { waiting later.new ≡ other_texts (waiting later.old) }
{
    match later.pop() {
        Some(text) => text,
        None => Vec::new(alloc),
    }
}

// Adds what a statement stands for. The texts of the files that come later wait, the next one last.
fn add_statement<'f>(
    alloc: Global,
    made: &mut Vec<Placed<'f>>,
    file: &'f ReadFile,
    statement: &'f Statement,
    later: &mut Vec<Vec<Placed<'f>>>,
) -> Result<(), OutOfMemory>
    ensures text { OnOk result (entries made.new.items ≡ entries made.old.items ++ put file.now.file statement.now (waiting later.old)) }
    ensures later { OnOk result (waiting later.new ≡ left statement.now (waiting later.old)) }
{
    match &statement.form {
        Form::Include(_) => {
            let text = next_text(alloc, later);
            add_all(made, text.as_slice())
        }
        _ => {
            made.push(Placed {
                file: &file.file,
                statement,
            })?;
            Ok(())
        }
    }
}

// The text of a file.
fn file_text<'f>(
    alloc: Global,
    file: &'f ReadFile,
    later: &mut Vec<Vec<Placed<'f>>>,
) -> Result<Vec<Placed<'f>>, OutOfMemory>
    ensures text { IfOk result (λ made. entries made.items ≡ text file.now.file file.now.syntax.statements (waiting later.old)) }
    ensures later { OnOk result (waiting later.new ≡ after file.now.syntax.statements (waiting later.old)) }
{
    let mut made = Vec::new(alloc);
    for statement in file.syntax.statements.as_slice() {
        add_statement(alloc, &mut made, file, statement, later)?;
    }
    Ok(made)
}

/// The statements of the first file, those of its includes in their places: each `include` is the next file of the list. A statement
/// is moved once for each include around it. `OutOfMemory` where there is no memory for the list.
pub fn text_of<'f>(alloc: Global, files: &'f [ReadFile]) -> Result<Vec<Placed<'f>>, OutOfMemory>
    ensures { IfOk result (λ text. entries text.items ≡ whole files.now) }
{
    let mut later = Vec::new(alloc);
    let mut ahead = files;
    'files: while let [before @ .., file] = ahead {
        let text = file_text(alloc, file, &mut later)?;
        later.push(text)?;
        ahead = before;
    }
    Ok(next_text(alloc, &mut later))
}
