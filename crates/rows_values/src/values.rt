//! Values, and what signs and calls make of them.

use rows_lines::{Trouble, push_row, push_title};
use smk_base::{List, Text, one};
use smk_eval_values::{
    Choices, Scope, Value, ValueFault, choice_values, expansion, flag, list_items, patterns,
    spelled, truth, value_of,
};
use smk_parse_tree::{Expr, OutputPick};
use std::alloc::{AllocError, Global};

/// The texts, each with a blank after it.
fn row(alloc: Global, texts: &List<Text>) -> Result<String, ValueFault> {
    let mut row = String::new(alloc);
    for text in texts.as_slice() {
        row.push_str(text.as_str())?;
        row.push_str(" ")?;
    }
    Ok(row)
}

/// The value that is this text.
fn word(alloc: Global, text: &str) -> Result<Value, ValueFault> {
    Ok(Value::Word(Text::of(alloc, text)?))
}

/// The texts of a value.
fn shown(alloc: Global, value: &Value) -> Result<String, ValueFault> {
    match value {
        Value::Flagged(flagged) => row(alloc, &flagged.flags),
        other => row(alloc, &list_items(alloc, other, "input")?),
    }
}

/// A flag about another.
fn flagged(alloc: Global) -> Result<Value, ValueFault> {
    let inner = flag(alloc, "directory", &word(alloc, "a")?)?;
    flag(alloc, "temp", &inner)
}

/// A pattern with the value of its name.
fn expanded(alloc: Global) -> Result<Value, ValueFault> {
    let choices = one(
        alloc,
        Choices {
            name: Text::of(alloc, "n")?,
            values: choice_values(alloc, &Value::Number(7))?,
        },
    )?;
    let patterns = patterns(alloc, &word(alloc, "x{n}")?)?;
    let missing = truth(alloc, &Value::Truth(false))?;
    expansion(
        alloc,
        patterns.as_slice(),
        choices.as_slice(),
        false,
        missing,
    )
}

/// The text of a truth value.
fn truth_text(alloc: Global) -> Result<Value, ValueFault> {
    match spelled(alloc, &Value::Truth(true))? {
        Some(text) => Ok(Value::Word(text)),
        None => Err(ValueFault::UnequalZip),
    }
}

/// A scope in which each constant is the text of its name, and nothing else is known.
struct Names;

impl Scope for Names {
    ghost use Rattle.std.specs.Prelude.{Some, Err};
    ghost use Rattle.smk_eval_values.specs.declared.value.Value.TheVariants.{Word};
    ghost use Rattle.smk_eval_values.specs.declared.fault.ValueFault.TheVariants.{UnequalZip};

    ghost seen = { λ _. record { constant = λ n. Some (Word n); outputs = λ _ _. Err UnequalZip; config = λ _. Err UnequalZip } };

    fn constant(&self, alloc: Global, name: &Text) -> Result<Value, ValueFault> {
        Ok(Value::Word(name.copy(alloc)?))
    }

    fn outputs(&self, _: Global, _: &Text, _: &OutputPick) -> Result<Value, ValueFault> {
        Err(ValueFault::UnequalZip)
    }

    fn config(&self, _: Global, _: &List<Text>) -> Result<Value, ValueFault> {
        Err(ValueFault::UnequalZip)
    }
}

/// The value of three terms with `+` between.
fn summed(alloc: Global) -> Result<Value, ValueFault> {
    let mut terms = List::new(alloc);
    terms.push(Expr::Word(Text::of(alloc, "a")?))?;
    terms.push(Expr::Name(Text::of(alloc, "B")?))?;
    terms.push(Expr::Word(Text::of(alloc, "c")?))?;
    value_of(alloc, &Expr::Sum(terms), &Names, &Text::of(alloc, "input")?)
}

/// The texts of a value that was made.
fn told(alloc: Global, made: Result<Value, ValueFault>) -> Result<String, Trouble> {
    Ok(shown(alloc, &made?)?)
}

/// Adds the rows on values.
pub fn push_rows(alloc: Global, text: &mut String) -> Result<(), AllocError> {
    push_title(text, "values")?;
    push_row(
        text,
        "the flags of temp(directory('a'))",
        &told(alloc, flagged(alloc)),
        "temp directory ",
    )?;
    push_row(
        text,
        "expand('x{n}', n=7)",
        &told(alloc, expanded(alloc)),
        "x7 ",
    )?;
    push_row(
        text,
        "a truth value",
        &told(alloc, truth_text(alloc)),
        "True ",
    )?;
    push_row(text, "'a' + B + 'c'", &told(alloc, summed(alloc)), "aBc ")
}
