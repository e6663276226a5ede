//! Patterns of `expand` with the values of their names.

use rows_lines::{Trouble, push_row, push_title};
use smk_base::{List, OutOfMemory, Text, one};
use smk_eval_values::{Choices, ExpandFault, expand};
use std::alloc::{AllocError, Global};

/// The texts with blanks between them.
fn texts(alloc: Global, words: &str) -> Result<List<Text>, OutOfMemory> {
    let mut texts = List::new(alloc);
    for word in words.split(' ') {
        texts.push(Text::of(alloc, word)?)?;
    }
    Ok(texts)
}

/// The names a, b and c with their values.
fn choices(alloc: Global) -> Result<List<Choices>, OutOfMemory> {
    let mut choices = List::new(alloc);
    for (name, values) in [("a", "1 2"), ("b", "x y"), ("c", "p {a} r")] {
        choices.push(Choices {
            name: Text::of(alloc, name)?,
            values: texts(alloc, values)?,
        })?;
    }
    Ok(choices)
}

/// The texts, each with a blank after it.
fn listed(alloc: Global, results: &[Text]) -> Result<String, OutOfMemory> {
    let mut text = String::new(alloc);
    for result in results {
        text.push_str(result.as_str())?;
        text.push_str(" ")?;
    }
    Ok(text)
}

/// The fault in words.
fn fault_words(alloc: Global, fault: ExpandFault) -> Result<String, Trouble> {
    match fault {
        ExpandFault::UnknownName(name) => Ok(format!(in alloc; "unknown {}", name.as_str())?),
        ExpandFault::UnequalZip => Ok(String::from_str(alloc, "unequal")?),
        ExpandFault::TooMany => Ok(String::from_str(alloc, "too many")?),
        ExpandFault::OutOfMemory => Err(Trouble::OutOfMemory),
    }
}

/// The results of a pattern, or the fault.
fn shown(alloc: Global, pattern: &str, zip: bool, missing: bool) -> Result<String, Trouble> {
    let patterns = one(alloc, Text::of(alloc, pattern)?)?;
    let choices = choices(alloc)?;
    match expand(alloc, patterns.as_slice(), choices.as_slice(), zip, missing) {
        Ok(results) => Ok(listed(alloc, results.as_slice())?),
        Err(fault) => fault_words(alloc, fault),
    }
}

/// The pattern, and how it is expanded.
fn name_of(alloc: Global, pattern: &str, zip: bool, missing: bool) -> Result<String, AllocError> {
    let zip = if zip { ", zip" } else { "" };
    let missing = if missing { ", allow_missing" } else { "" };
    format!(in alloc; "{pattern}{zip}{missing}")
}

/// Adds the rows on `expand`.
pub fn push_rows(alloc: Global, text: &mut String) -> Result<(), AllocError> {
    push_title(text, "expand with a=1 2, b=x y, c=p {a} r")?;
    let table = [
        ("{a}-{b}", false, false, "1-x 1-y 2-x 2-y "),
        ("{b}-{a}", false, false, "x-1 y-1 x-2 y-2 "),
        ("{a}-{b}", true, false, "1-x 2-y "),
        ("{a}{c}", true, false, "unequal"),
        ("{a}{c}", false, false, "1p 1{a} 1r 2p 2{a} 2r "),
        ("{a}/{{s}}", false, false, "1/{s} 2/{s} "),
        ("{{{a}}}", false, false, "{1} {2} "),
        ("{a}{q}{r}", false, false, "unknown q"),
        ("{a}{q}", false, true, "1{q} 2{q} "),
        ("ß{a,x}{}{1}{", false, false, "ß{a,x}{}{1}{ "),
        ("plain", true, false, ""),
    ];
    for (pattern, zip, missing, wanted) in table {
        let name = name_of(alloc, pattern, zip, missing)?;
        let found = shown(alloc, pattern, zip, missing);
        push_row(text, name.as_str(), &found, wanted)?;
    }
    Ok(())
}
