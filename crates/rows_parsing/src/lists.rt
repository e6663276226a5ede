//! Lists, boxes and copies.

use rows_lines::{Trouble, push_row, push_title};
use smk_base::{
    Amount, Boxed, Bytes, Copied, List, OutOfMemory, Pair, PathText, Place, Text, Tree, TreeEntry,
    one,
};
use std::alloc::{AllocError, Global};

/// A type that holds itself, in a list and in a box.
#[derive(Drop)]
enum Expression {
    Number(u64),
    Greatest(List<Expression>),
    Half(Boxed<Expression>),
}

/// The value of the expression.
fn value(expression: &Expression) -> u64 {
    match expression {
        Expression::Number(number) => *number,
        Expression::Greatest(operands) => {
            let mut greatest = 0;
            for operand in operands.as_slice() {
                greatest = value(operand).max(greatest);
            }
            greatest
        }
        Expression::Half(operand) => value(operand.get()) / 2,
    }
}

/// Half of the greatest of two numbers.
fn half_of_greatest(alloc: Global) -> Result<Expression, OutOfMemory> {
    let mut operands = List::new(alloc);
    operands.push(Expression::Number(3))?;
    operands.push(Expression::Number(8))?;
    let greatest = Expression::Greatest(operands);
    Ok(Expression::Half(Boxed::new(alloc, greatest)?))
}

/// Its value.
fn half(alloc: Global) -> Result<String, Trouble> {
    let number = value(&half_of_greatest(alloc)?);
    Ok(format!(in alloc; "{number}")?)
}

/// A list, as it grows and shrinks at its end.
fn grown(alloc: Global) -> Result<String, Trouble> {
    let mut list = List::new(alloc);
    let empty = list.is_empty();
    list.push(5)?;
    list.push(6)?;
    let full = format!(in alloc; "{:?}", list.as_slice())?;
    let last = list.pop();
    let len = list.len();
    Ok(format!(in alloc;
        "empty {empty}, then {}, last {last:?}, left {len}",
        full.as_str()
    )?)
}

/// A list of one pair.
fn pairs(alloc: Global) -> Result<List<Pair>, OutOfMemory> {
    let name = Text::of(alloc, "sample")?;
    let value = Text::of(alloc, "7")?;
    one(alloc, Pair { name, value })
}

/// An amount in a box.
fn amount(alloc: Global) -> Result<Boxed<Amount>, OutOfMemory> {
    let name = Text::of(alloc, "mem_mb")?;
    Boxed::new(alloc, Amount { name, count: 100 })
}

/// A folder with a file in it.
fn folder(alloc: Global) -> Result<Tree, Trouble> {
    let name = PathText::read(alloc, "x/y")?;
    let bytes = Some(Bytes::of(alloc, b"hi")?);
    Ok(Tree::Folder(one(alloc, TreeEntry { name, bytes })?))
}

/// What a copy of a text is.
fn text_copy(alloc: Global) -> Result<String, Trouble> {
    let copy = Text::of(alloc, "a")?.copied(alloc)?;
    Ok(String::from_str(alloc, copy.as_str())?)
}

/// What a copy of a path is.
fn path_copy(alloc: Global) -> Result<String, Trouble> {
    let copy = PathText::read(alloc, "a/b")?.copied(alloc)?;
    Ok(String::from_str(alloc, copy.as_str())?)
}

/// What a copy of a place is.
fn place_copy(alloc: Global) -> Result<String, Trouble> {
    let copy = Place::lock(alloc)?.copied(alloc)?;
    Ok(String::from_str(alloc, copy.as_str())?)
}

/// What a copy of a list of pairs is.
fn pairs_copy(alloc: Global) -> Result<String, Trouble> {
    let copy = pairs(alloc)?.copied(alloc)?;
    let mut text = String::new(alloc);
    for pair in copy.as_slice() {
        write!(text, "{}={};", pair.name.as_str(), pair.value.as_str())?;
    }
    Ok(text)
}

/// What a copy of an amount in a box is.
fn amount_copy(alloc: Global) -> Result<String, Trouble> {
    let copy = amount(alloc)?.copied(alloc)?;
    Ok(format!(in alloc; "{}", copy.get().count)?)
}

/// The entries, each with its bytes if it is a file.
fn entries_text(alloc: Global, entries: &[TreeEntry]) -> Result<String, Trouble> {
    let mut text = String::new(alloc);
    for entry in entries {
        text.push_str(entry.name.as_str())?;
        if let Some(bytes) = &entry.bytes {
            write!(text, " {:?}", bytes.as_slice())?;
        }
        text.push_str(";")?;
    }
    Ok(text)
}

/// What a copy of a folder is.
fn folder_copy(alloc: Global) -> Result<String, Trouble> {
    match folder(alloc)?.copied(alloc)? {
        Tree::File(_) => Ok(String::from_str(alloc, "a file")?),
        Tree::Folder(entries) => entries_text(alloc, entries.as_slice()),
    }
}

/// A copy of each kind of value.
fn push_copies(alloc: Global, text: &mut String) -> Result<(), AllocError> {
    push_row(text, "a copy of a text", &text_copy(alloc), "a")?;
    push_row(text, "a copy of a path", &path_copy(alloc), "a/b")?;
    push_row(
        text,
        "a copy of a place",
        &place_copy(alloc),
        ".snakemake/smk/lock",
    )?;
    push_row(
        text,
        "a copy of a list of pairs",
        &pairs_copy(alloc),
        "sample=7;",
    )?;
    push_row(
        text,
        "a copy of an amount in a box",
        &amount_copy(alloc),
        "100",
    )?;
    push_row(
        text,
        "a copy of a folder",
        &folder_copy(alloc),
        "x/y [104, 105];",
    )
}

/// Adds the rows on lists, boxes and copies.
pub fn push_rows(alloc: Global, text: &mut String) -> Result<(), AllocError> {
    push_title(text, "lists, boxes and copies")?;
    push_row(text, "half of the greatest of 3 and 8", &half(alloc), "4")?;
    push_row(
        text,
        "a list that grows and shrinks",
        &grown(alloc),
        "empty true, then [5, 6], last Some(6), left 1",
    )?;
    push_copies(alloc, text)
}
