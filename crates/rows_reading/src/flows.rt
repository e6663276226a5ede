//! A workflow of two rules.

use rows_lines::{Trouble, push_row, push_title};
use smk_base::{List, OutOfMemory, PathText, Text, one};
use smk_flow::{FlaggedText, InPart, OutPart, RulePart, Workflow};
use smk_flow_build::build;
use smk_flow_jobs::targets;
use std::alloc::{AllocError, Global};

/// An item of inputs of one text.
fn input(alloc: Global, text: &str) -> Result<InPart, OutOfMemory> {
    Ok(InPart {
        name: Text::of(alloc, "")?,
        texts: one(alloc, Text::of(alloc, text)?)?,
        gather: None,
    })
}

/// An item of outputs of one text.
fn output(alloc: Global, text: &str) -> Result<OutPart, OutOfMemory> {
    let flagged = FlaggedText {
        text: Text::of(alloc, text)?,
        flags: List::new(alloc),
    };
    Ok(OutPart {
        name: Text::of(alloc, "")?,
        outs: one(alloc, flagged)?,
    })
}

/// A rule of one input and one output.
fn part(alloc: Global, name: &str, wanted: &str, made: &str) -> Result<RulePart, Trouble> {
    Ok(RulePart {
        name: Text::of(alloc, name)?,
        checkpoint: false,
        inputs: one(alloc, input(alloc, wanted)?)?,
        outputs: one(alloc, output(alloc, made)?)?,
        params: List::new(alloc),
        logs: List::new(alloc),
        threads: 1,
        amounts: List::new(alloc),
        words: List::new(alloc),
        priority: 0,
        limits: List::new(alloc),
        default_target: false,
        command: None,
        file: PathText::read(alloc, "Snakefile")?,
        line: 1,
    })
}

/// Two rules, the second without wildcards.
fn parts(alloc: Global) -> Result<List<RulePart>, Trouble> {
    let mut parts = List::new(alloc);
    parts.push(part(alloc, "sort", "{a}.in", "{a}.out")?)?;
    parts.push(part(alloc, "count", "x.out", "x.n")?)?;
    Ok(parts)
}

/// The workflow of two rules.
fn two_rules(alloc: Global) -> Result<Workflow, Trouble> {
    match build(alloc, parts(alloc)?, List::new(alloc)) {
        Ok(flow) => Ok(flow),
        Err(_) => Err(Trouble::NoValue),
    }
}

/// The number of the rule with this name.
fn number(alloc: Global, name: &str) -> Result<String, Trouble> {
    let number = two_rules(alloc)?.rule(name);
    Ok(format!(in alloc; "{number:?}")?)
}

/// Whether the word stands for paths.
fn names(alloc: Global, word: &str) -> Result<String, Trouble> {
    let flow = two_rules(alloc)?;
    let words = one(alloc, Text::of(alloc, word)?)?;
    let good = targets(alloc, &flow, &words).is_ok();
    Ok(format!(in alloc; "{good}")?)
}

/// Adds the rows on workflows.
pub fn push_rows(alloc: Global, text: &mut String) -> Result<(), AllocError> {
    push_title(text, "a workflow of the rules sort and count")?;
    push_row(
        text,
        "the number of count",
        &number(alloc, "count"),
        "Some(1)",
    )?;
    push_row(text, "count as a target", &names(alloc, "count"), "true")
}
