//! The lines that tell what was counted.

ghost use Rattle.std.specs.Prelude.{◌≡◌, ◌++◌, IfOk, OnOk, string_bytes};
ghost use Rattle.smk_trial.specs.Lines as spec;

use crate::tried::Trial;
use smk_base::{OutOfMemory, Text};
use std::alloc::{AllocError, Global};

// Adds a line: a count, with what stands before and behind it.
fn push_line(text: &mut String, before: &str, count: u64, behind: &str) -> Result<(), AllocError>
    ensures { OnOk result (string_bytes text.new ≡ string_bytes text.old ++ spec.told_line before.now count behind.now) }
{
    writeln!(text, "{before}{count}{behind}")
}

/// The five lines of a trial. `OutOfMemory` where there is no memory for them.
pub fn trial_lines(alloc: Global, size: u64, trial: &Trial) -> Result<Text, OutOfMemory>
    ensures { IfOk result (λ text. text ≡ spec.trial_lines size trial.now.first trial.now.second trial.now.third trial.now.total) }
{
    let mut text = String::new(alloc);
    push_line(&mut text, "generated ", size, " samples")?;
    push_line(&mut text, "first run: ", trial.first, " started")?;
    push_line(&mut text, "second run: ", trial.second, " started")?;
    push_line(&mut text, "after an edit: ", trial.third, " started")?;
    push_line(&mut text, "total: ", trial.total, " bytes")?;
    Text::of(alloc, text.as_str())
}
