//! The bytes of statements and of a whole file.

ghost use Rattle.std.specs.Prelude.{◌≡◌, ◌++◌, ◌∷◌, [], map, codes, IfOk, OnOk};
ghost use Rattle.smk_parse_expr.specs.Printing as print;
ghost use Rattle.smk_parse_expr.specs.declared.symbol.Symbol.TheVariants as s;
ghost use Rattle.smk_parse_print.specs.Aside.{IsParsed, ReadsAs};
ghost use Rattle.smk_parse_print.specs.Print as rows;
ghost use Rattle.smk_parse_print.specs.Rows.{bytes_of};
ghost use Rattle.smk_parse_print.specs.Writing.{spaced};

use crate::exprs::expr;
use crate::spell::{Lent, sign_if, symbol, symbols};
use smk_base::{Bytes, OutOfMemory, Text};
use smk_parse_expr::Sign;
use smk_parse_tree::{DirectiveForm, Expr, Form, ItemForm, RuleForm, Statement, Syntax};
use std::alloc::Global;

/// Writes the name of an item, if it has one, and the sign behind it.
#[tactic(auto, using(crate::proofs::Spaced::two))]
fn label(alloc: Global, out: &mut Vec<u8>, name: &str) -> Result<(), OutOfMemory>
    ensures { OnOk result (out.new.items ≡ out.old.items ++ spaced (print.under_name name.now [])) }
{
    if !name.is_empty() {
        symbols(alloc, out, &[Lent::Name(name), Lent::Sign(Sign::Equals)])?;
    }
    Ok(())
}

/// Writes items with commas between.
fn items(alloc: Global, out: &mut Vec<u8>, items: &[ItemForm]) -> Result<(), OutOfMemory>
    ensures { OnOk result (out.new.items ≡ out.old.items ++ spaced (print.printed_items items.now)) }
{
    let mut behind = false;
    for item in items {
        sign_if(behind, out, Sign::Comma)?;
        label(alloc, out, item.name.as_str())?;
        expr(alloc, out, &item.value)?;
        behind = true;
    }
    Ok(())
}

/// Writes names, the sign between.
fn names(alloc: Global, out: &mut Vec<u8>, sign: Sign, names: &[Text]) -> Result<(), OutOfMemory>
    ensures { OnOk result (out.new.items ≡ out.old.items ++ spaced (rows.names_between sign names.now)) }
{
    let mut behind = false;
    for name in names {
        sign_if(behind, out, sign)?;
        symbols(alloc, out, &[Lent::Name(name.as_str())])?;
        behind = true;
    }
    Ok(())
}

/// Writes the row of a directive.
fn directive(alloc: Global, out: &mut Vec<u8>, form: &DirectiveForm) -> Result<(), OutOfMemory>
    ensures { OnOk result (out.new.items ≡ out.old.items ++ bytes_of (rows.directive_row form.now ∷ [])) }
{
    out.extend_from_slice(b"    ")?;
    symbol(alloc, out, Lent::Name(form.word.as_str()))?;
    symbols(alloc, out, &[Lent::Sign(Sign::Colon)])?;
    items(alloc, out, form.items.as_slice())?;
    Ok(out.push(b'\n')?)
}

fn body(alloc: Global, out: &mut Vec<u8>, directives: &[DirectiveForm]) -> Result<(), OutOfMemory>
    ensures { OnOk result (out.new.items ≡ out.old.items ++ bytes_of (rows.body_rows directives.now)) }
{
    if directives.is_empty() {
        return Ok(out.extend_from_slice(b"    \"\"\n")?);
    }
    for form in directives {
        directive(alloc, out, form)?;
    }
    Ok(())
}

fn rule(alloc: Global, out: &mut Vec<u8>, form: &RuleForm) -> Result<(), OutOfMemory>
    ensures { OnOk result (out.new.items ≡ out.old.items ++ bytes_of (rows.rule_rows form.now)) }
{
    let word = if form.checkpoint {
        "checkpoint"
    } else {
        "rule"
    };
    symbol(alloc, out, Lent::Name(word))?;
    symbols(
        alloc,
        out,
        &[Lent::Name(form.name.as_str()), Lent::Sign(Sign::Colon)],
    )?;
    out.push(b'\n')?;
    body(alloc, out, form.directives.as_slice())
}

fn text_row<'a>(
    alloc: Global,
    out: &mut Vec<u8>,
    word: &'a str,
    text: &'a str,
) -> Result<(), OutOfMemory>
    ensures { OnOk result (out.new.items ≡ out.old.items ++ bytes_of (rows.text_row word.now text.now ∷ [])) }
{
    symbol(alloc, out, Lent::Name(word))?;
    symbols(alloc, out, &[Lent::Sign(Sign::Colon), Lent::Text(text)])?;
    Ok(out.push(b'\n')?)
}

fn assignment(alloc: Global, out: &mut Vec<u8>, word: &str, value: &Expr) -> Result<(), OutOfMemory>
    ensures { OnOk result (out.new.items ≡ out.old.items ++ bytes_of (rows.worded 0 word.now (s.Sign 0 Sign.Equals ∷ (print.printed value.now).symbols) ∷ [])) }
{
    symbol(alloc, out, Lent::Name(word))?;
    symbols(alloc, out, &[Lent::Sign(Sign::Equals)])?;
    expr(alloc, out, value)?;
    Ok(out.push(b'\n')?)
}

fn names_row(
    alloc: Global,
    out: &mut Vec<u8>,
    word: &str,
    sign: Sign,
    listed: &[Text],
) -> Result<(), OutOfMemory>
    ensures { OnOk result (out.new.items ≡ out.old.items ++ bytes_of (rows.worded 0 word.now (s.Sign 0 Sign.Colon ∷ rows.names_between sign listed.now) ∷ [])) }
{
    symbol(alloc, out, Lent::Name(word))?;
    symbols(alloc, out, &[Lent::Sign(Sign::Colon)])?;
    names(alloc, out, sign, listed)?;
    Ok(out.push(b'\n')?)
}

fn limits(alloc: Global, out: &mut Vec<u8>, values: &[ItemForm]) -> Result<(), OutOfMemory>
    ensures { OnOk result (out.new.items ≡ out.old.items ++ bytes_of (rows.worded 0 (codes "wildcard_constraints") (s.Sign 0 Sign.Colon ∷ print.printed_items values.now) ∷ [])) }
{
    symbol(alloc, out, Lent::Name("wildcard_constraints"))?;
    symbols(alloc, out, &[Lent::Sign(Sign::Colon)])?;
    items(alloc, out, values)?;
    Ok(out.push(b'\n')?)
}

/// Writes the rows of a statement.
fn statement(alloc: Global, out: &mut Vec<u8>, form: &Form) -> Result<(), OutOfMemory>
    ensures { OnOk result (out.new.items ≡ out.old.items ++ bytes_of (rows.form_rows form.now)) }
{
    match form {
        Form::Assign(word, value) => assignment(alloc, out, word.as_str(), value),
        Form::Rule(form) => rule(alloc, out, form),
        Form::Order(listed) => names_row(alloc, out, "ruleorder", Sign::Greater, listed.as_slice()),
        Form::LocalRules(listed) => {
            names_row(alloc, out, "localrules", Sign::Comma, listed.as_slice())
        }
        Form::ConfigFile(text) => text_row(alloc, out, "configfile", text.as_str()),
        Form::Include(text) => text_row(alloc, out, "include", text.as_str()),
        Form::Container(text) => text_row(alloc, out, "container", text.as_str()),
        Form::Limits(values) => limits(alloc, out, values.as_slice()),
    }
}

fn statements(alloc: Global, out: &mut Vec<u8>, all: &[Statement]) -> Result<(), OutOfMemory>
    ensures { OnOk result (out.new.items ≡ out.old.items ++ bytes_of (rows.rows_of all.now)) }
{
    for one in all {
        statement(alloc, out, &one.form)?;
    }
    Ok(())
}

/// A workflow file that has this syntax: a row for each statement and directive, four blanks before a directive, a blank between
/// lexemes, texts between double quotes. It lexes and parses to the same syntax, but for the numbers of lines. `OutOfMemory`
/// where there is no memory for it.
pub fn print(alloc: Global, syntax: &Syntax) -> Result<Bytes, OutOfMemory>
    ensures exact { IfOk result (λ bytes. bytes ≡ rows.printed_bytes syntax.now) }

    // It reads back, where the syntax is one that `parse` answers.
    ensures reads_back { IfOk result (λ bytes. IsParsed syntax.now → ReadsAs syntax.now bytes) }
{
    let mut out = Vec::new(alloc);
    statements(alloc, &mut out, syntax.statements.as_slice())?;
    Bytes::of(alloc, out.as_slice())
}
