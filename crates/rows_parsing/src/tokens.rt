//! What sources are cut into.

use rows_lines::{Trouble, push_row, push_title};
use smk_lex::{LexFault, Token, TokenKind, lex};
use smk_parse_expr::{Cursor, symbols, text as text_in};
use std::alloc::{AllocError, Global};
use std::str;

/// The slice of the source that the token is.
fn slice_of(source: &[u8], token: Token) -> &str {
    let rest = &source[(token.start as usize).min(source.len())..];
    let len = (token.end.saturating_sub(token.start) as usize).min(rest.len());
    str::from_utf8(&rest[..len]).unwrap_or("?")
}

/// The mark of the kind, and whether the token's slice is shown behind it.
fn mark(kind: TokenKind) -> (&'static str, bool) {
    match kind {
        TokenKind::Name => ("n", true),
        TokenKind::Number => ("d", true),
        TokenKind::Spelling => ("p", true),
        TokenKind::Text => ("t", true),
        TokenKind::Sign => ("", true),
        TokenKind::Newline => ("/", false),
        TokenKind::Indent => (">", false),
        TokenKind::Dedent => ("<", false),
    }
}

/// Each token by a letter and its slice; `/` for a `Newline`, `>` for an `Indent`, `<` for a `Dedent`.
fn shown(alloc: Global, source: &[u8], tokens: &[Token]) -> Result<String, AllocError> {
    let mut text = String::new(alloc);
    for token in tokens {
        let (mark, has_slice) = mark(token.kind);
        text.push_str(mark)?;
        text.push_str(if has_slice {
            slice_of(source, *token)
        } else {
            ""
        })?;
        text.push_str(" ")?;
    }
    Ok(text)
}

/// The fault and its place.
fn fault_text(alloc: Global, fault: LexFault) -> Result<String, Trouble> {
    let (words, at) = match fault {
        LexFault::BadIndent(at) => ("bad indent", at),
        LexFault::OpenText(at) => ("open text", at),
        LexFault::BadByte(at) => ("bad byte", at),
        LexFault::OutOfMemory => return Err(Trouble::OutOfMemory),
    };
    Ok(format!(in alloc; "{words} {at}")?)
}

/// The tokens of the source, or its first fault.
fn cut(alloc: Global, source: &[u8]) -> Result<String, Trouble> {
    match lex(alloc, source) {
        Ok(tokens) => Ok(shown(alloc, source, tokens.as_slice())?),
        Err(fault) => fault_text(alloc, fault),
    }
}

/// Sources that are cut into tokens.
fn push_tokens(alloc: Global, text: &mut String) -> Result<(), AllocError> {
    let table = [
        (
            "rule copy:\n    input: \"in.txt\"\n    output: \"out.txt\"\n    shell: \"cat {input} > {output}\"\n",
            "nrule ncopy : / > ninput : t\"in.txt\" / noutput : t\"out.txt\" / nshell : t\"cat {input} > {output}\" / < ",
        ),
        ("", ""),
        ("\n", ""),
        ("# only a comment", ""),
        ("  \t\n\n  # a comment\r\n", ""),
        ("a = 1", "na = d1 / "),
        ("a = 1\r\nb = 2\r\n", "na = d1 / nb = d2 / "),
        ("a:\n\tb:\n\t\tc\nd", "na : / > nb : / > nc / < < nd / "),
        ("a:\n  b\n\n# left\n\n  c\n", "na : / > nb / nc / < "),
        ("a: # one\n    # two\n  b # three\n", "na : / > nb / < "),
        ("x = [\n1,\n    2\n]\n", "nx = [ d1 , d2 ] / "),
        ("f(\n# inside\na)\n", "nf ( na ) / "),
        ("t = \"\"\"a\nb\"\"\"\n", "nt = t\"\"\"a\nb\"\"\" / "),
        ("t = '''\"'\"'''", "nt = t'''\"'\"''' / "),
        ("t = '' \"\" ''''''", "nt = t'' t\"\" t'''''' / "),
        ("t = r\"\\d\\\"\" r", "nt = tr\"\\d\\\"\" nr / "),
        ("t = \"a\\\nb\"", "nt = t\"a\\\nb\" / "),
        ("t = \"# no comment\" # one", "nt = t\"# no comment\" / "),
        ("s = \"größe 樣本\"", "ns = t\"größe 樣本\" / "),
        ("007 -1 0 1.5 1. -0.25", "p007 p-1 d0 p1.5 d1 . p-0.25 / "),
        (
            "9223372036854775807 9223372036854775808",
            "d9223372036854775807 p9223372036854775808 / ",
        ),
        ("a.b+c>_1x", "na . nb + nc > n_1x / "),
        ("rule rule: r'x'", "nrule nrule : tr'x' / "),
    ];
    for (source, wanted) in table {
        push_row(text, source, &cut(alloc, source.as_bytes()), wanted)?;
    }
    Ok(())
}

/// Sources with a fault.
fn push_faults(alloc: Global, text: &mut String) -> Result<(), AllocError> {
    let table = [
        (
            "rule a:\n    input: \"x\"\n  output: \"y\"\n",
            "bad indent 23",
        ),
        ("a:\n\tb\n  c", "bad indent 6"),
        ("a:\n  b\n\tc", "bad indent 7"),
        ("x = \"a\n", "open text 4"),
        ("x = r\"a", "open text 4"),
        ("x = \"\"\"a\"\"", "open text 4"),
        ("x = \"a\\", "open text 4"),
        ("x = \"\\x41\"", "bad byte 5"),
        ("x = \"\\0\"", "bad byte 5"),
        ("x = {", "bad byte 4"),
        ("x = -", "bad byte 4"),
        ("a\rb", "bad byte 1"),
        ("a\x0bb", "bad byte 1"),
        ("a = ä", "bad byte 4"),
    ];
    for (source, wanted) in table {
        push_row(text, source, &cut(alloc, source.as_bytes()), wanted)?;
    }
    Ok(())
}

/// Sources that aren't text.
fn push_bytes(alloc: Global, text: &mut String) -> Result<(), AllocError> {
    let table: [(&str, &[u8], &str); 3] = [
        ("a byte that is no text", b"\xff\n", "bad byte 0"),
        (
            "a byte that is no text in an open text",
            b"\"\xff",
            "open text 0",
        ),
        (
            "a byte that is no text before a sign that is none",
            b"\"\xff\" ?",
            "bad byte 1",
        ),
    ];
    for (name, source, wanted) in table {
        push_row(text, name, &cut(alloc, source), wanted)?;
    }
    Ok(())
}

/// What the text that the source begins with stands for.
fn meant(alloc: Global, source: &str) -> Result<String, Trouble> {
    let Ok(tokens) = lex(alloc, source.as_bytes()) else {
        return Err(Trouble::NoSyntax);
    };
    let symbols = symbols(alloc, source, tokens.as_slice())?;
    let text = text_in(alloc, &mut Cursor::new(symbols.as_slice()))?;
    Ok(String::from_str(alloc, text.as_str())?)
}

/// Texts with escapes, between quotes here.
fn push_texts(alloc: Global, text: &mut String) -> Result<(), AllocError> {
    let table = [
        ("\"\"", ""),
        ("\"plain\"", "plain"),
        ("\"a\\nb\\tc\\rd\"", "a\nb\tc\rd"),
        ("\"\\\\ \\\" \\'\"", "\\ \" '"),
        ("\"\\d\\{x\\}\"", "\\d\\{x\\}"),
        ("\"a\\\nb\\\r\nc\"", "abc"),
        ("\"ß\\ß\"", "ß\\ß"),
        ("'a'", "a"),
    ];
    for (spelling, wanted) in table {
        push_row(text, spelling, &meant(alloc, spelling), wanted)?;
    }
    Ok(())
}

/// Adds the rows on tokens.
pub fn push_rows(alloc: Global, text: &mut String) -> Result<(), AllocError> {
    push_title(text, "tokens")?;
    push_tokens(alloc, text)?;
    push_title(text, "the first fault among tokens")?;
    push_faults(alloc, text)?;
    push_bytes(alloc, text)?;
    push_title(text, "texts")?;
    push_texts(alloc, text)
}
