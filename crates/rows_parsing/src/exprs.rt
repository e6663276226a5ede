//! What expressions and items are read as.

use crate::shown_syntax;
use rows_lines::{Trouble, push_row, push_title};
use smk_base::{List, Text};
use smk_lex::lex;
use smk_parse_expr::{Cursor, ParseFault, expr, items, name, number, symbols, text as text_in};
use smk_parse_tree::{Expr, ItemForm, copy};
use std::alloc::{AllocError, Global};

/// The items that a source is.
fn read(alloc: Global, source: &str) -> Result<List<ItemForm>, ParseFault> {
    let Ok(tokens) = lex(alloc, source.as_bytes()) else {
        return Err(ParseFault::OutOfMemory);
    };
    let symbols = symbols(alloc, source, tokens.as_slice())?;
    items(alloc, &mut Cursor::new(symbols.as_slice()))
}

/// A copy of the first value, with sums in brackets.
fn first(alloc: Global, found: &[ItemForm]) -> Result<String, Trouble> {
    let mut text = String::new(alloc);
    if let [first, ..] = found {
        shown_syntax::expr(&mut text, &copy(alloc, &first.value)?)?;
    }
    Ok(text)
}

/// The fault and its place.
fn fault_text(alloc: Global, fault: ParseFault) -> Result<String, Trouble> {
    let (word, at) = match fault {
        ParseFault::Unexpected(at) => ("unexpected", at),
        ParseFault::Unsupported(at) => ("unsupported", at),
        ParseFault::Doubled(at) => ("doubled", at),
        ParseFault::OutOfMemory => return Err(Trouble::OutOfMemory),
    };
    Ok(format!(in alloc; "{word} {at}")?)
}

/// The first item of a source, or its first fault.
fn shown(alloc: Global, source: &str) -> Result<String, Trouble> {
    match read(alloc, source) {
        Ok(found) => first(alloc, found.as_slice()),
        Err(fault) => fault_text(alloc, fault),
    }
}

/// Expressions of each form.
fn push_forms(alloc: Global, text: &mut String) -> Result<(), AllocError> {
    let table = [
        ("\"a\" r'b' 1.5\n", "\"ab1.5\""),
        ("12,\n", "12"),
        ("(True)\n", "True"),
        ("c\n", "c"),
        ("config['a']['b']\n", "config[\"a\"][\"b\"]"),
        ("rules.up.output[2]\n", "rules.up.output[2]"),
        ("[1, [],]\n", "[1, []]"),
        ("1 + (2 + 3)\n", "(1 + (2 + 3))"),
        ("temp(c)\n", "temp(c)"),
        (
            "from_checkpoint(c, 'l', 'w')\n",
            "from_checkpoint(c, \"l\", \"w\")",
        ),
        ("expand(c, zip, zip=1,)\n", "expand(c, zip, zip=1)"),
    ];
    for (source, wanted) in table {
        push_row(text, source, &shown(alloc, source), wanted)?;
    }
    Ok(())
}

/// Items with a fault.
fn push_faults(alloc: Global, text: &mut String) -> Result<(), AllocError> {
    let table = [
        ("x, f(\"y\")\n", "unsupported 3"),
        ("\"x\" f(\"y\")\n", "unsupported 4"),
        ("config.get(\"a\")\n", "unsupported 0"),
        ("\"a\" if b else c\n", "unsupported 4"),
        ("[lambda x: x]\n", "unsupported 1"),
        ("k=\"a\", \"b\"\n", "unexpected 7"),
        ("k=\"a\", k=\"b\"\n", "doubled 7"),
        ("expand(\"a\", x=1, x=2)\n", "doubled 17"),
        ("expand(\"a\", \"b\")\n", "unexpected 12"),
        ("rules.a.input\n", "unexpected 8"),
        ("from_checkpoint(c, \"a\")\n", "unexpected 22"),
        ("(\"a\"\n", "unexpected 5"),
        ("1 +\n", "unexpected 3"),
        ("\n", "unexpected 0"),
    ];
    for (source, wanted) in table {
        push_row(text, source, &shown(alloc, source), wanted)?;
    }
    Ok(())
}

/// A name, a number, a text and an expression, which stand behind each other.
fn parts_in(alloc: Global, cursor: &mut Cursor<'_>) -> Result<(Text, u64, Text, Expr), ParseFault> {
    let word = name(alloc, cursor)?;
    let count = number(cursor)?;
    let alone = text_in(alloc, cursor)?;
    let value = expr(alloc, cursor)?;
    Ok((word, count, alone, value))
}

/// The parts of the source in words.
fn parts(alloc: Global, source: &str) -> Result<String, Trouble> {
    let Ok(tokens) = lex(alloc, source.as_bytes()) else {
        return Err(Trouble::NoSyntax);
    };
    let symbols = symbols(alloc, source, tokens.as_slice())?;
    let (word, count, alone, value) = parts_in(alloc, &mut Cursor::new(symbols.as_slice()))?;
    let mut text = format!(in alloc; "{} {count} {} ", word.as_str(), alone.as_str())?;
    shown_syntax::expr(&mut text, &value)?;
    Ok(text)
}

/// Adds the rows on expressions.
pub fn push_rows(alloc: Global, text: &mut String) -> Result<(), AllocError> {
    push_title(text, "expressions")?;
    push_forms(alloc, text)?;
    push_row(
        text,
        "a 1 't' 2 + b\n",
        &parts(alloc, "a 1 't' 2 + b\n"),
        "a 1 t (2 + b)",
    )?;
    push_title(text, "the first fault of items")?;
    push_faults(alloc, text)
}
