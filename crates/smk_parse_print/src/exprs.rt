//! The bytes of expressions and items.

ghost use Rattle.std.specs.Prelude.{◌≡◌, ◌++◌, map, OnOk};
ghost use Rattle.smk_parse_tree.specs.declared.syntax.Expr.TheOpen.{Expr-F};
ghost use Rattle.smk_parse_expr.specs.Printing as print;
ghost use Rattle.smk_parse_print.specs.Parts as parts;
ghost use Rattle.smk_parse_print.specs.Writing.{spaced};

use crate::spell::{Lent, sign_if, symbols};
use smk_base::{OutOfMemory, Text};
use smk_parse_expr::Sign;
use smk_parse_tree::{ExpandForm, Expr, ItemForm, OutputPick};
use std::alloc::Global;

#[tactic(auto, using(crate::proofs::Spaced::two))]
fn keys(alloc: Global, out: &mut Vec<u8>, keys: &[Text]) -> Result<(), OutOfMemory>
    ensures { OnOk result (out.new.items ≡ out.old.items ++ spaced (print.printed_keys keys.now)) }
{
    for key in keys {
        symbols(
            alloc,
            out,
            &[
                Lent::Sign(Sign::OpenSquare),
                Lent::Text(key.as_str()),
                Lent::Sign(Sign::CloseSquare),
            ],
        )?;
    }
    Ok(())
}

fn pick(alloc: Global, out: &mut Vec<u8>, pick: &OutputPick) -> Result<(), OutOfMemory>
    ensures { OnOk result (out.new.items ≡ out.old.items ++ spaced (print.printed_pick pick.now)) }
{
    match pick {
        OutputPick::All => Ok(()),
        OutputPick::Named(name) => symbols(
            alloc,
            out,
            &[Lent::Sign(Sign::Point), Lent::Name(name.as_str())],
        ),
        OutputPick::At(n) => symbols(
            alloc,
            out,
            &[
                Lent::Sign(Sign::OpenSquare),
                Lent::Number(*n),
                Lent::Sign(Sign::CloseSquare),
            ],
        ),
    }
}

#[tactic(auto, using(crate::proofs::Spaced::two))]
fn config(alloc: Global, out: &mut Vec<u8>, path: &[Text]) -> Result<(), OutOfMemory>
    ensures { OnOk result (out.new.items ≡ out.old.items ++ spaced (print.expr_step (Expr-F.Config path.now)).symbols) }
{
    symbols(alloc, out, &[Lent::Name("config")])?;
    keys(alloc, out, path)
}

#[tactic(auto, using(crate::proofs::Spaced::two))]
fn outputs(
    alloc: Global,
    out: &mut Vec<u8>,
    rule: &str,
    which: &OutputPick,
) -> Result<(), OutOfMemory>
    ensures { OnOk result (out.new.items ≡ out.old.items ++ spaced (print.expr_step (Expr-F.Outputs rule.now which.now)).symbols) }
{
    symbols(
        alloc,
        out,
        &[
            Lent::Name("rules"),
            Lent::Sign(Sign::Point),
            Lent::Name(rule),
            Lent::Sign(Sign::Point),
            Lent::Name("output"),
        ],
    )?;
    pick(alloc, out, which)
}

fn from_checkpoint<'a>(
    alloc: Global,
    out: &mut Vec<u8>,
    name: &'a str,
    listed: &'a str,
    wanted: &'a str,
) -> Result<(), OutOfMemory>
    ensures { OnOk result (out.new.items ≡ out.old.items ++ spaced (print.expr_step (Expr-F.FromCheckpoint name.now listed.now wanted.now)).symbols) }
{
    symbols(
        alloc,
        out,
        &[
            Lent::Name("from_checkpoint"),
            Lent::Sign(Sign::Open),
            Lent::Name(name),
            Lent::Sign(Sign::Comma),
            Lent::Text(listed),
            Lent::Sign(Sign::Comma),
            Lent::Text(wanted),
            Lent::Sign(Sign::Close),
        ],
    )
}

fn zip(alloc: Global, out: &mut Vec<u8>, pairs: bool) -> Result<(), OutOfMemory>
    ensures { OnOk result (out.new.items ≡ out.old.items ++ spaced (print.printed_zip pairs)) }
{
    if pairs {
        symbols(alloc, out, &[Lent::Sign(Sign::Comma), Lent::Name("zip")])?;
    }
    Ok(())
}

fn is_sum(x: &Expr) -> bool
    ensures { result ≡ (print.printed x.now).is_sum }
{
    matches!(x, Expr::Sum(_))
}

/// Writes the expression, with a blank before each symbol.
#[cycle(written)]
#[tactic(auto, using(crate::proofs::Spaced::two))]
pub fn expr(alloc: Global, out: &mut Vec<u8>, x: &Expr) -> Result<(), OutOfMemory>
    ensures { OnOk result (out.new.items ≡ out.old.items ++ spaced (print.printed x.now).symbols) }
{
    match x {
        Expr::Word(value) => symbols(alloc, out, &[Lent::Text(value.as_str())]),
        Expr::Number(n) => symbols(alloc, out, &[Lent::Number(*n)]),
        Expr::Truth(true) => symbols(alloc, out, &[Lent::Name("True")]),
        Expr::Truth(false) => symbols(alloc, out, &[Lent::Name("False")]),
        Expr::Name(word) => symbols(alloc, out, &[Lent::Name(word.as_str())]),
        Expr::Config(path) => config(alloc, out, path.as_slice()),
        Expr::Outputs(rule, which) => outputs(alloc, out, rule.as_str(), which),
        Expr::Many(parts) => many(alloc, out, parts.as_slice()),
        Expr::Sum(parts) => sum(alloc, out, parts.as_slice()),
        Expr::Flagged(flag, inner) => flagged(alloc, out, flag.as_str(), inner.get()),
        Expr::Expand(form) => expand(alloc, out, form),
        Expr::FromCheckpoint(name, listed, wanted) => from_checkpoint(
            alloc,
            out,
            name.as_str(),
            listed.as_str(),
            wanted.as_str(),
        ),
    }
}

#[cycle(written)]
#[tactic(auto, using(crate::proofs::Spaced::two))]
fn flagged(alloc: Global, out: &mut Vec<u8>, flag: &str, inner: &Expr) -> Result<(), OutOfMemory>
    ensures { OnOk result (out.new.items ≡ out.old.items ++ spaced (print.expr_step (Expr-F.Flagged flag.now (print.printed inner.now))).symbols) }
{
    symbols(alloc, out, &[Lent::Name(flag), Lent::Sign(Sign::Open)])?;
    expr(alloc, out, inner)?;
    symbols(alloc, out, &[Lent::Sign(Sign::Close)])
}

#[cycle(written)]
#[tactic(auto, using(crate::proofs::Spaced::two))]
fn many(alloc: Global, out: &mut Vec<u8>, parts: &[Expr]) -> Result<(), OutOfMemory>
    ensures { OnOk result (out.new.items ≡ out.old.items ++ spaced (print.expr_step (Expr-F.Many (map print.printed parts.now))).symbols) }
{
    symbols(alloc, out, &[Lent::Sign(Sign::OpenSquare)])?;
    for part in parts {
        expr(alloc, out, part)?;
        symbols(alloc, out, &[Lent::Sign(Sign::Comma)])?;
    }
    symbols(alloc, out, &[Lent::Sign(Sign::CloseSquare)])
}

/// A sum within the sum stands in brackets.
#[cycle(written)]
#[tactic(auto, using(crate::proofs::Spaced::two))]
fn sum(alloc: Global, out: &mut Vec<u8>, parts: &[Expr]) -> Result<(), OutOfMemory>
    ensures { OnOk result (out.new.items ≡ out.old.items ++ spaced (print.printed_sum (map print.printed parts.now))) }
{
    let mut behind = false;
    for part in parts {
        sign_if(behind, out, Sign::Plus)?;
        sign_if(is_sum(part), out, Sign::Open)?;
        expr(alloc, out, part)?;
        sign_if(is_sum(part), out, Sign::Close)?;
        behind = true;
    }
    Ok(())
}

#[cycle(written)]
#[tactic(auto, using(crate::proofs::Spaced::two))]
fn expand(alloc: Global, out: &mut Vec<u8>, form: &ExpandForm) -> Result<(), OutOfMemory>
    ensures { OnOk result (out.new.items ≡ out.old.items ++ spaced (print.expr_step (Expr-F.Expand (parts.printed_form form.now))).symbols) }
{
    symbols(alloc, out, &[Lent::Name("expand"), Lent::Sign(Sign::Open)])?;
    expr(alloc, out, form.pattern.get())?;
    zip(alloc, out, form.zip)?;
    arguments(alloc, out, form.named.as_slice())
}

#[cycle(written)]
#[tactic(auto, using(crate::proofs::Spaced::two))]
fn arguments(alloc: Global, out: &mut Vec<u8>, items: &[ItemForm]) -> Result<(), OutOfMemory>
    ensures { OnOk result (out.new.items ≡ out.old.items ++ spaced (print.printed_arguments (map parts.printed_part items.now))) }
{
    for item in items {
        symbols(
            alloc,
            out,
            &[
                Lent::Sign(Sign::Comma),
                Lent::Name(item.name.as_str()),
                Lent::Sign(Sign::Equals),
            ],
        )?;
        expr(alloc, out, &item.value)?;
    }
    symbols(alloc, out, &[Lent::Sign(Sign::Close)])
}
