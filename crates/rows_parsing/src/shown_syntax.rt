//! Syntax and faults as plain lines.

use smk_base::Text;
use smk_lex::LexFault;
use smk_parse::{Lines, ParseFault};
use smk_parse_tree::{
    DirectiveForm, ExpandForm, Expr, Form, ItemForm, OutputPick, Statement, Syntax,
};
use std::alloc::AllocError;
use std::str;

/// A text in quotes, on one line.
fn quoted(text: &mut String, word: &Text) -> Result<(), AllocError> {
    text.push('"')?;
    for c in word.as_str().chars() {
        match c {
            '"' => text.push_str("\\\"")?,
            '\\' => text.push_str("\\\\")?,
            '\n' => text.push_str("\\n")?,
            '\r' => text.push_str("\\r")?,
            '\t' => text.push_str("\\t")?,
            _ => text.push(c)?,
        }
    }
    text.push('"')
}

/// The words with a text between them.
fn names(text: &mut String, words: &[Text], between: &str) -> Result<(), AllocError> {
    for (i, word) in words.iter().enumerate() {
        if i > 0 {
            text.push_str(between)?;
        }
        text.push_str(word.as_str())?;
    }
    Ok(())
}

/// Keys of the configuration.
fn config(text: &mut String, keys: &[Text]) -> Result<(), AllocError> {
    text.push_str("config")?;
    for key in keys {
        text.push('[')?;
        quoted(text, key)?;
        text.push(']')?;
    }
    Ok(())
}

/// The outputs of a rule.
fn outputs(text: &mut String, rule: &Text, pick: &OutputPick) -> Result<(), AllocError> {
    let rule = rule.as_str();
    write!(text, "rules.{rule}.output")?;
    match pick {
        OutputPick::All => Ok(()),
        OutputPick::Named(name) => {
            let name = name.as_str();
            write!(text, ".{name}")
        }
        OutputPick::At(place) => write!(text, "[{place}]"),
    }
}

/// What is gathered from a checkpoint.
fn from_checkpoint(
    text: &mut String,
    name: &Text,
    listed: &Text,
    wanted: &Text,
) -> Result<(), AllocError> {
    text.push_str("from_checkpoint(")?;
    text.push_str(name.as_str())?;
    text.push_str(", ")?;
    quoted(text, listed)?;
    text.push_str(", ")?;
    quoted(text, wanted)?;
    text.push(')')
}

/// An expression; sums in brackets.
#[cycle(shown)]
pub fn expr(text: &mut String, value: &Expr) -> Result<(), AllocError> {
    match value {
        Expr::Word(word) => quoted(text, word),
        Expr::Number(n) => write!(text, "{n}"),
        Expr::Truth(true) => text.push_str("True"),
        Expr::Truth(false) => text.push_str("False"),
        Expr::Name(name) => text.push_str(name.as_str()),
        Expr::Config(keys) => config(text, keys.as_slice()),
        Expr::Outputs(rule, pick) => outputs(text, rule, pick),
        Expr::Many(parts) => {
            text.push('[')?;
            exprs(text, parts.as_slice(), ", ")?;
            text.push(']')
        }
        Expr::Sum(parts) => {
            text.push('(')?;
            exprs(text, parts.as_slice(), " + ")?;
            text.push(')')
        }
        Expr::Flagged(word, inner) => {
            text.push_str(word.as_str())?;
            text.push('(')?;
            expr(text, inner.get())?;
            text.push(')')
        }
        Expr::Expand(form) => expand(text, form),
        Expr::FromCheckpoint(name, listed, wanted) => from_checkpoint(text, name, listed, wanted),
    }
}

/// Expressions with a text between them.
#[cycle(shown)]
fn exprs(text: &mut String, parts: &[Expr], between: &str) -> Result<(), AllocError> {
    for (i, part) in parts.iter().enumerate() {
        if i > 0 {
            text.push_str(between)?;
        }
        expr(text, part)?;
    }
    Ok(())
}

/// A call of `expand`.
#[cycle(shown)]
fn expand(text: &mut String, form: &ExpandForm) -> Result<(), AllocError> {
    text.push_str("expand(")?;
    expr(text, form.pattern.get())?;
    if form.zip {
        text.push_str(", zip")?;
    }
    for item in form.named.as_slice() {
        text.push_str(", ")?;
        text.push_str(item.name.as_str())?;
        text.push('=')?;
        expr(text, &item.value)?;
    }
    text.push(')')
}

/// Items with commas between them.
fn items(text: &mut String, list: &[ItemForm]) -> Result<(), AllocError> {
    for (i, item) in list.iter().enumerate() {
        if i > 0 {
            text.push_str(", ")?;
        }
        if !item.name.as_str().is_empty() {
            text.push_str(item.name.as_str())?;
            text.push('=')?;
        }
        expr(text, &item.value)?;
    }
    Ok(())
}

/// The directives of a rule, each on a line of its own.
fn directives(text: &mut String, list: &[DirectiveForm]) -> Result<(), AllocError> {
    for directive in list {
        let line = directive.line;
        let word = directive.word.as_str();
        write!(text, "\n{line} - {word}: ")?;
        items(text, directive.items.as_slice())?;
    }
    Ok(())
}

/// What a statement is.
fn form(text: &mut String, form: &Form) -> Result<(), AllocError> {
    match form {
        Form::Assign(name, value) => {
            text.push_str(name.as_str())?;
            text.push_str(" = ")?;
            expr(text, value)
        }
        Form::Rule(rule) => {
            text.push_str(if rule.checkpoint {
                "checkpoint "
            } else {
                "rule "
            })?;
            text.push_str(rule.name.as_str())?;
            directives(text, rule.directives.as_slice())
        }
        Form::Order(list) => {
            text.push_str("ruleorder: ")?;
            names(text, list.as_slice(), " > ")
        }
        Form::LocalRules(list) => {
            text.push_str("localrules: ")?;
            names(text, list.as_slice(), ", ")
        }
        Form::ConfigFile(file) => {
            text.push_str("configfile: ")?;
            quoted(text, file)
        }
        Form::Include(file) => {
            text.push_str("include: ")?;
            quoted(text, file)
        }
        Form::Container(image) => {
            text.push_str("container: ")?;
            quoted(text, image)
        }
        Form::Limits(list) => {
            text.push_str("wildcard_constraints: ")?;
            items(text, list.as_slice())
        }
    }
}

/// A statement behind the number of its line.
fn statement(text: &mut String, statement: &Statement) -> Result<(), AllocError> {
    let line = statement.line;
    write!(text, "{line} ")?;
    form(text, &statement.form)?;
    text.push('\n')
}

/// Each statement in a line, and each directive of a rule, behind the number of its line.
pub fn syntax(text: &mut String, syntax: &Syntax) -> Result<(), AllocError> {
    for this in syntax.statements.as_slice() {
        statement(text, this)?;
    }
    Ok(())
}

/// The name that stands at the place.
fn word_at(source: &[u8], at: u64) -> &str {
    let start = (at as usize).min(source.len());
    let rest = &source[start..];
    let len = match rest
        .iter()
        .position(|b| !b.is_ascii_alphanumeric() && *b != b'_')
    {
        Some(len) => len,
        None => rest.len(),
    };
    str::from_utf8(&rest[..len]).unwrap_or("?")
}

/// The fault with its line.
pub fn parse_fault(
    text: &mut String,
    source: &[u8],
    lines: &Lines<'_>,
    fault: ParseFault,
) -> Result<(), AllocError> {
    let (at, what, has_word) = match fault {
        ParseFault::Unexpected(at) => (at, "not expected here", false),
        ParseFault::Unsupported(at) => (at, "not supported: ", true),
        ParseFault::Doubled(at) => (at, "given twice: ", true),
        ParseFault::OutOfMemory => return Err(AllocError),
    };
    let line = lines.number(at);
    let word = if has_word { word_at(source, at) } else { "" };
    writeln!(text, "{line}: {what}{word}")
}

/// The fault with its line.
pub fn lex_fault(text: &mut String, lines: &Lines<'_>, fault: LexFault) -> Result<(), AllocError> {
    let (at, what) = match fault {
        LexFault::BadIndent(at) => (at, "indentation does not fit"),
        LexFault::OpenText(at) => (at, "text is not closed"),
        LexFault::BadByte(at) => (at, "byte not allowed"),
        LexFault::OutOfMemory => return Err(AllocError),
    };
    let line = lines.number(at);
    writeln!(text, "{line}: {what}")
}
