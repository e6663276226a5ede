//! Patterns, and the paths that fit them.

use rows_lines::{Trouble, push_row, push_title};
use smk_base::{List, OutOfMemory, Pair, PathFault, PathText, Text};
use smk_pattern::{Binding, Limits, Pattern, PatternFault, fits};
use std::alloc::{AllocError, Global};

/// A binding in words: each name with its value.
fn told(alloc: Global, binding: &Binding) -> Result<String, OutOfMemory> {
    let mut words = String::new(alloc);
    for pair in binding.as_slice() {
        words.push_str(pair.name.as_str())?;
        words.push_str("=")?;
        words.push_str(pair.value.as_str())?;
        words.push_str(" ")?;
    }
    Ok(words)
}

/// What is answered for a pattern and a path.
fn fitted(alloc: Global, pattern: &Pattern, path: &str) -> Result<String, OutOfMemory> {
    let path = match PathText::read(alloc, path) {
        Ok(path) => path,
        Err(PathFault::BadPath) => return Ok(String::from_str(alloc, "bad path")?),
        Err(PathFault::OutOfMemory) => return Err(OutOfMemory),
    };
    match fits(alloc, pattern, &path)? {
        Some(binding) => told(alloc, &binding),
        None => Ok(String::from_str(alloc, "no fit")?),
    }
}

/// The fault of a pattern in words.
fn fault_words(alloc: Global, fault: PatternFault) -> Result<String, OutOfMemory> {
    match fault {
        PatternFault::BadPattern => Ok(String::from_str(alloc, "bad pattern")?),
        PatternFault::BadConstraint(name) => {
            Ok(format!(in alloc; "bad constraint {}", name.as_str())?)
        }
        PatternFault::OutOfMemory => Err(OutOfMemory),
    }
}

/// What is answered for the text of a pattern and a path.
fn answer(
    alloc: Global,
    text: &str,
    limits: &List<Pair>,
    path: &str,
) -> Result<String, OutOfMemory> {
    match Pattern::read(alloc, text, limits) {
        Ok(pattern) => fitted(alloc, &pattern, path),
        Err(fault) => fault_words(alloc, fault),
    }
}

/// Adds the row of a pattern and a path.
fn push_answer(
    alloc: Global,
    text: &mut String,
    limits: &List<Pair>,
    row: (&str, &str, &str),
) -> Result<(), AllocError> {
    let (pattern, path, wanted) = row;
    let name = format!(in alloc; "{pattern} and {path}")?;
    let found = match answer(alloc, pattern, limits, path) {
        Ok(words) => Ok(words),
        Err(OutOfMemory) => Err(Trouble::OutOfMemory),
    };
    push_row(text, name.as_str(), &found, wanted)
}

/// Patterns and paths.
fn push_fits(alloc: Global, text: &mut String) -> Result<(), AllocError> {
    let table = [
        // the first wildcard takes as much as it can
        (
            "{dataset}.{group}.txt",
            "101.B.normal.txt",
            "dataset=101.B group=normal ",
        ),
        (
            "{ dataset }.{group}.txt",
            "101.B.normal.txt",
            "dataset=101.B group=normal ",
        ),
        ("{a}{b}", "abc", "a=ab b=c "),
        ("{a,x+?}{b}", "xxx", "a=xx b=x "),
        ("{a}b", "b", "no fit"),
        ("plain.txt", "plain.txt", ""),
        ("plain.txt", "plain.tx", "no fit"),
        // equal names have equal values
        ("{s}/{s}.bam", "a/b.bam", "no fit"),
        ("{s}/{s}.bam", "a/a.bam", "s=a "),
        ("{a}/{b}/{a}", "1/2/1", "a=1 b=2 "),
        ("{a}/{b}/{a}", "1/2/3", "no fit"),
        ("{a}{a}", "xyxy", "a=xy "),
        ("{a}{b}{a}", "xyx", "a=x b=y "),
        // constraints
        ("{x,a|ab}{y}", "abab", "x=ab y=ab "),
        ("{a,x|y}z", "xyz", "no fit"),
        ("{a,}b", "b", "a= "),
        ("{a,.*}x", "x", "a= "),
        ("{a,^x$}y", "xy", "a=x "),
        ("{a,(?i)X}", "x", "a=x "),
        ("{n,[0-9]{2}}.txt", "42.txt", "n=42 "),
        ("{n,[0-9]{2}}.txt", "4.txt", "no fit"),
        ("{\tn\t, \t[0-9]+}", "7", "n=7 "),
        ("{a,x}{a}", "xx", "a=x "),
        ("{a}{a,x}", "xx", "a=x "),
        ("{a,(}", "x", "bad constraint a"),
        ("{b}{a,[}", "x", "bad constraint a"),
        // characters aren't cut
        ("\u{e9}{a}", "\u{e9}1", "a=1 "),
        ("{a}{b}", "\u{e9}", "no fit"),
        ("{a}{b}", "\u{e9}\u{e8}", "a=\u{e9} b=\u{e8} "),
        (
            "{a,.}{b,\\w+}.txt",
            "n\u{e9}\u{e8}.txt",
            "a=n b=\u{e9}\u{e8} ",
        ),
        // braces, names, paths
        ("{{a}}", "x", "bad pattern"),
        ("a}", "x", "bad pattern"),
        ("{a", "x", "bad pattern"),
        ("", "x", "bad pattern"),
        ("a{}b", "x", "bad pattern"),
        ("{1a}", "x", "bad pattern"),
        ("{a b}", "x", "bad pattern"),
        ("{a,x{}", "x", "bad pattern"),
        ("{a,x}{a,y}", "x", "bad pattern"),
        ("{_a1}", "x", "_a1=x "),
        ("a//b", "x", "bad pattern"),
        ("../a", "x", "bad pattern"),
        ("../{a}", "x", "no fit"),
    ];
    let none = List::new(alloc);
    for row in table {
        push_answer(alloc, text, &none, row)?;
    }
    Ok(())
}

/// The value under the name.
fn pair(alloc: Global, name: &str, value: &str) -> Result<Pair, OutOfMemory> {
    Ok(Pair {
        name: Text::of(alloc, name)?,
        value: Text::of(alloc, value)?,
    })
}

/// Constraints of a whole file: one of digits, and one that is none.
fn limits(alloc: Global) -> Result<List<Pair>, OutOfMemory> {
    let mut limits = List::new(alloc);
    limits.push(pair(alloc, "n", "[0-9]+")?)?;
    limits.push(pair(alloc, "unused", "(")?)?;
    Ok(limits)
}

/// Patterns with constraints that stand elsewhere.
fn push_limited(alloc: Global, text: &mut String) -> Result<(), AllocError> {
    let table = [
        ("{n}.txt", "7.txt", "n=7 "),
        ("{n}.txt", "x.txt", "no fit"),
        ("{n,x}.txt", "x.txt", "n=x "),
        ("{n,x}.txt", "7.txt", "no fit"),
        ("{unused,x}.txt", "x.txt", "unused=x "),
        ("{unused}.txt", "x.txt", "bad constraint unused"),
    ];
    let Ok(limits) = limits(alloc) else {
        return text.push_str("out of memory\n");
    };
    for row in table {
        push_answer(alloc, text, &limits, row)?;
    }
    Ok(())
}

/// The front, so many `x`, and then the end.
fn many(alloc: Global, front: &str, count: usize, end: &str) -> Result<String, AllocError> {
    let mut text = String::from_str(alloc, front)?;
    for _ in 0..count {
        text.push_str("x")?;
    }
    text.push_str(end)?;
    Ok(text)
}

/// Patterns that could be tried in very many ways.
fn push_hostile(alloc: Global, text: &mut String) -> Result<(), AllocError> {
    let none = List::new(alloc);
    let long = "{a}x{b}x{c}x{d}x{e}x{f}x{g}x{h}x{i}x{j}y";
    let again = "{a}x{b}x{a}x{c}x{d}x{e}x{f}z";
    let wanted = many(alloc, "a=", 221, " b=x c=x d=x e=x f=x g=x h=x i=x j=x ")?;
    let path = many(alloc, "", 239, "y")?;
    push_answer(alloc, text, &none, (long, path.as_str(), wanted.as_str()))?;
    push_answer(alloc, text, &none, (again, path.as_str(), "no fit"))?;
    let path = many(alloc, "", 240, "")?;
    push_answer(alloc, text, &none, (long, path.as_str(), "no fit"))
}

/// Adds the rows on patterns.
pub fn push_rows(alloc: Global, text: &mut String) -> Result<(), AllocError> {
    push_title(text, "patterns and paths")?;
    push_fits(alloc, text)?;
    push_title(
        text,
        "patterns and paths, with n=[0-9]+ and unused=( for the whole file",
    )?;
    push_limited(alloc, text)?;
    push_title(text, "patterns that could be tried in very many ways")?;
    push_hostile(alloc, text)
}

/// What is answered for a line.
fn line_answer(alloc: Global, line: &str, shared: &mut Limits) -> Result<String, OutOfMemory> {
    let Some((text, path)) = line.split_once('\t') else {
        return Ok(String::from_str(alloc, "no tab")?);
    };
    match Pattern::read_sharing(alloc, text, &List::new(alloc), shared) {
        Ok(pattern) => fitted(alloc, &pattern, path),
        Err(fault) => fault_words(alloc, fault),
    }
}

/// Adds the bindings of the lines, each of which is a pattern, a tab and a path; constraints of equal texts are read once.
pub fn push_lines(alloc: Global, text: &mut String, lines: &str) -> Result<(), OutOfMemory> {
    push_title(text, "lines of patterns and paths")?;
    let mut shared = Limits::new(alloc);
    for line in lines.lines() {
        let words = line_answer(alloc, line, &mut shared)?;
        text.push_str(words.as_str())?;
        text.push_str("\n")?;
    }
    Ok(())
}
