//! The last lines of a run.

ghost use Rattle.std.specs.Prelude.{◌≡◌, ◌⊎◌, ◌++◌, IfErr, IfOk, OnOk, is_ok, string_bytes};
ghost use Rattle.std.specs.List.{list_all};
ghost use Rattle.smk_trigger.specs.JobStates.{is_clean};
ghost use Rattle.smk_report.specs.declared.fault.Fault.TheVariants as fault;
ghost use Rattle.smk_run.specs.Reports.{HasReported, IsReport};
ghost use Rattle.smk_run.specs.Runs.{is_output};
ghost use Rattle.smk_drive_course.specs.Reports.{target_lines};
ghost use Rattle.smk_drive_run.specs.Keeping as spec;

use smk_base::{List, OutOfMemory, PathText};
use smk_report::{Fault, summary_line, target_line};
use smk_run::{Tally, write_out};
use smk_trigger::State;
use smk_world::{Failed, Sink};
use std::alloc::Global;

/// A copy of the flags.
pub(crate) fn copy_flags(alloc: Global, flags: &[bool]) -> Result<List<bool>, OutOfMemory>
    ensures { IfOk result (λ copy. copy ≡ flags.now) }
{
    let mut copy = List::new(alloc);
    for flag in flags {
        copy.push(*flag)?;
    }
    Ok(copy)
}

// Adds the lines of the targets, which are current or not.
fn push_targets(
    alloc: Global,
    text: &mut String,
    targets: &[PathText],
    current: &[bool],
) -> Result<(), OutOfMemory>
    ensures { OnOk result (string_bytes text.new ≡ string_bytes text.old ++ target_lines targets.now current.now) }
{
    for (path, is_current) in targets.iter().zip(current) {
        let line = target_line(alloc, *is_current, path)?;
        text.push_str(line.as_str())?;
    }
    Ok(())
}

// The last lines.
fn closing_text(
    alloc: Global,
    targets: &[PathText],
    current: &[bool],
    tally: &Tally,
) -> Result<String, OutOfMemory>
    ensures { IfOk result (λ text. string_bytes text ≡ spec.closing_text targets.now current.now tally.now) }
{
    let mut text = String::new(alloc);
    push_targets(alloc, &mut text, targets, current)?;
    let line = summary_line(alloc, tally.started, tally.done, tally.failed)?;
    text.push_str(line.as_str())?;
    Ok(text)
}

/// Puts the lines of the targets, which are current or not, and that of the counts. `Output` where the sink fails, `OutOfMemory` where there is no
/// memory for them.
pub(crate) fn put_closing<O: Sink>(
    alloc: Global,
    targets: &List<PathText>,
    current: &List<bool>,
    tally: &Tally,
    out: &mut O,
) -> Result<(), Fault>
    ensures told { HasReported (IsReport (is_ok result) (spec.closing_text targets.now current.now tally.now))
        (O.sunk out.old) (O.sunk out.new) (is_output result) }
    ensures faults { IfErr result (λ f. (f ≡ fault.Output) ⊎ (f ≡ fault.OutOfMemory)) }
{
    let Ok(text) = closing_text(alloc, targets.as_slice(), current.as_slice(), tally) else {
        return Err(Fault::OutOfMemory);
    };
    match write_out(out, text.as_str()) {
        Ok(()) => Ok(()),
        Err(Failed) => Err(Fault::Output),
    }
}

// Whether all of the flags are set.
fn are_set(flags: &[bool]) -> bool
    ensures { result ≡ list_all (λ b. b) flags.now }
{
    for flag in flags {
        if !*flag {
            return false;
        }
    }
    true
}

// Whether all jobs are Clean.
fn are_clean(states: &[State]) -> bool
    ensures { result ≡ list_all is_clean states.now }
{
    for state in states {
        if !matches!(state, State::Clean) {
            return false;
        }
    }
    true
}

/// Whether all jobs with these states are Clean, and all targets current.
pub(crate) fn is_all_made(states: &List<State>, current: &List<bool>) -> bool
    ensures { result ≡ spec.is_all_made states.now current.now }
{
    are_clean(states.as_slice()) && are_set(current.as_slice())
}
