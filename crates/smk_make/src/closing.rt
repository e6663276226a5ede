//! The last lines of a run: its targets, and how many jobs it had.

ghost use Rattle.std.specs.Prelude.{◌≡◌, ◌++◌, IfOk, IfErr, OnOk, is_ok, string_bytes};
ghost use Rattle.smk_report.specs.Lines.{target_line};
ghost use Rattle.smk_run.specs.Reports.{HasReported, IsReport};
ghost use Rattle.smk_run.specs.Runs.{is_output};
ghost use Rattle.smk_plan_duties.specs.Numbers.{number_at};
ghost use Rattle.smk_make.specs.Closing as spec;
ghost use Rattle.smk_make.specs.Faults as faults;

use smk_base::{List, OutOfMemory, PathText, Text};
use smk_chain::Maker;
use smk_plan_duties::{number_of, numbers_of};
use smk_report::{Fault, summary_line, target_line};
use smk_run::{Tally, write_out};
use smk_world::{Failed, Sink};
use std::alloc::Global;
use std::collections::BTreeMap;

// Whether what the job of this number makes is current. A source needs no job.
fn is_current(after: &[bool], job: Option<u32>) -> bool
    ensures { result ≡ spec.is_current after.now job }
{
    match job {
        None => true,
        Some(number) => matches!(after.get(number as usize), Some(true)),
    }
}

// Adds the line of the target.
fn push_target(
    alloc: Global,
    text: &mut String,
    numbers: &BTreeMap<String, Option<u32>>,
    after: &[bool],
    path: &PathText,
) -> Result<(), OutOfMemory>
    ensures { OnOk result (string_bytes text.new ≡ string_bytes text.old ++ target_line (spec.is_current after.now (number_at numbers.now path.now)) path.now) }
{
    let line = target_line(alloc, is_current(after, number_of(numbers, path)), path)?;
    text.push_str(line.as_str())?;
    Ok(())
}

// Adds the lines of the targets.
fn push_targets(
    alloc: Global,
    text: &mut String,
    numbers: &BTreeMap<String, Option<u32>>,
    after: &[bool],
    targets: &[PathText],
) -> Result<(), OutOfMemory>
    ensures { OnOk result (string_bytes text.new ≡ string_bytes text.old ++ spec.lines_by (λ p. spec.is_current after.now (number_at numbers.now p)) targets.now) }
{
    for path in targets {
        push_target(alloc, text, numbers, after, path)?;
    }
    Ok(())
}

// Adds the line of the counts.
fn push_counts(alloc: Global, text: &mut String, tally: &Tally) -> Result<(), OutOfMemory>
    ensures { OnOk result (string_bytes text.new ≡ string_bytes text.old ++ spec.counts_line tally.now) }
{
    let line = summary_line(alloc, tally.started, tally.done, tally.failed)?;
    text.push_str(line.as_str())?;
    Ok(())
}

// The last lines, by the map of makers.
fn text_by(
    alloc: Global,
    numbers: &BTreeMap<String, Option<u32>>,
    after: &[bool],
    targets: &[PathText],
    tally: &Tally,
) -> Result<String, OutOfMemory>
    ensures { IfOk result (λ text. string_bytes text ≡ spec.lines_by (λ p. spec.is_current after.now (number_at numbers.now p)) targets.now ++ spec.counts_line tally.now) }
{
    let mut text = String::new(alloc);
    push_targets(alloc, &mut text, numbers, after, targets)?;
    push_counts(alloc, &mut text, tally)?;
    Ok(text)
}

// The last lines.
fn closing_text(
    alloc: Global,
    makers: &[Maker],
    after: &[bool],
    targets: &[PathText],
    tally: &Tally,
) -> Result<String, OutOfMemory>
    ensures { IfOk result (λ text. string_bytes text ≡ spec.closing_text (spec.is_current after.now) makers.now targets.now tally.now) }
{
    let numbers = numbers_of(alloc, makers)?;
    text_by(alloc, &numbers, after, targets, tally)
}

/// Puts the lines of the targets and of the counts of a run, after which these jobs are current.
///
/// `Output`: the sink failed, and a front of the lines was put. `OutOfMemory`: there is no memory for the lines; then nothing was put.
pub(crate) fn close_report<O: Sink>(
    alloc: Global,
    makers: &[Maker],
    after: &[bool],
    targets: &List<PathText>,
    tally: &Tally,
    out: &mut O,
) -> Result<(), Fault>
    ensures told { HasReported (IsReport (is_ok result) (spec.closing_text (spec.is_current after.now) makers.now targets.now tally.now)) (O.sunk out.old) (O.sunk out.new) (is_output result) }
    ensures faults { IfErr result faults.IsOfReport }
{
    let Ok(text) = closing_text(alloc, makers, after, targets.as_slice(), tally) else {
        return Err(Fault::OutOfMemory);
    };
    match write_out(out, text.as_str()) {
        Ok(()) => Ok(()),
        Err(Failed) => Err(Fault::Output),
    }
}
