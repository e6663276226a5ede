//! Workflows, printed shortly.

use smk_base::Text;
use smk_flow::{Clause, Flag, InPart, OutPart, Rule, RulePart, Workflow};
use std::alloc::{AllocError, Global};

/// Adds the texts, each behind a blank.
fn push_texts(text: &mut String, texts: &[Text]) -> Result<(), AllocError> {
    for t in texts {
        write!(text, " {}", t.as_str())?;
    }
    Ok(())
}

/// Adds the line of an item of inputs.
fn push_input(text: &mut String, item: &InPart) -> Result<(), AllocError> {
    write!(text, "  in {}:", item.name.as_str())?;
    push_texts(text, item.texts.as_slice())?;
    if let Some(gather) = &item.gather {
        write!(
            text,
            " {} of {} in {}",
            gather.wanted.as_str(),
            gather.listed.as_str(),
            gather.checkpoint.as_str()
        )?;
    }
    text.push_str("\n")
}

/// The word that a workflow file has for the flag.
fn flag_word(flag: Flag) -> &'static str {
    match flag {
        Flag::Temp => "temp",
        Flag::Protected => "protected",
        Flag::Folder => "directory",
    }
}

/// Adds the line of an item of outputs, each with its flags behind it.
fn push_output(text: &mut String, item: &OutPart) -> Result<(), AllocError> {
    write!(text, "  out {}:", item.name.as_str())?;
    for out in item.outs.as_slice() {
        write!(text, " {}", out.text.as_str())?;
        for flag in out.flags.as_slice() {
            write!(text, " {}", flag_word(*flag))?;
        }
    }
    text.push_str("\n")
}

/// Adds the lines of the logs and the command that is told of them, where there are logs.
fn push_logs(text: &mut String, part: &RulePart) -> Result<(), AllocError> {
    if part.logs.is_empty() {
        return Ok(());
    }
    text.push_str("  log:")?;
    push_texts(text, part.logs.as_slice())?;
    match &part.command {
        Some(command) => write!(text, "\n  command: {}\n", command.as_str()),
        None => text.push_str("\n"),
    }
}

/// Adds the lines of a rule.
fn push_rule(text: &mut String, part: &RulePart) -> Result<(), AllocError> {
    write!(
        text,
        "{} at {}:{}, threads {}, priority {}\n",
        part.name.as_str(),
        part.file.as_str(),
        part.line,
        part.threads,
        part.priority
    )?;
    for item in part.inputs.as_slice() {
        push_input(text, item)?;
    }
    for item in part.outputs.as_slice() {
        push_output(text, item)?;
    }
    for param in part.params.as_slice() {
        write!(text, "  param {}:", param.name.as_str())?;
        push_texts(text, param.values.as_slice())?;
        text.push_str("\n")?;
    }
    for limit in part.limits.as_slice() {
        write!(
            text,
            "  limit {}: {}\n",
            limit.name.as_str(),
            limit.value.as_str()
        )?;
    }
    push_logs(text, part)
}

/// Adds the line of a clause.
fn push_clause(text: &mut String, clause: &Clause) -> Result<(), AllocError> {
    text.push_str("order")?;
    push_texts(text, clause.names.as_slice())?;
    text.push_str("\n")
}

/// Adds the line of the first rule that is marked as the default target, where that isn't the first of all.
fn push_default(text: &mut String, rules: &[Rule]) -> Result<(), AllocError> {
    for (place, rule) in rules.iter().enumerate() {
        if rule.part.default_target {
            if place > 0 {
                write!(text, "default {}\n", rule.part.name.as_str())?;
            }
            return Ok(());
        }
    }
    Ok(())
}

/// The rules and the clauses, and which rule is made without a word.
pub fn workflow(alloc: Global, flow: &Workflow) -> Result<String, AllocError> {
    let mut text = String::new(alloc);
    for rule in flow.rules().as_slice() {
        push_rule(&mut text, &rule.part)?;
    }
    for clause in flow.orders().as_slice() {
        push_clause(&mut text, clause)?;
    }
    push_default(&mut text, flow.rules().as_slice())?;
    Ok(text)
}
