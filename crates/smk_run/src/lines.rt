//! What is put: texts, and the lines of jobs.

ghost use Rattle.std.specs.Prelude.{◌≡◌, ◌⊎◌, ◌++◌, IfOk, IfErr, is_ok, string_bytes, codes, decimal};
ghost use Rattle.smk_world.specs.Devices.{HasPut};
ghost use Rattle.smk_run.specs.Reports.{HasReported, IsReport, end_line, is_output};
ghost use Rattle.smk_run.specs.declared.stop.Stop.TheVariants as stop;

use crate::{Ending, Stop};
use smk_base::{OutOfMemory, PathText, Text};
use smk_report::job_line;
use smk_world::{Failed, Sink};
use std::alloc::{AllocError, Global};

/// Puts the text, and hands it on. `Failed`: the sink failed, and a front of the text was put.
pub fn write_out<O: Sink>(out: &mut O, text: &str) -> Result<(), Failed>
    ensures { HasPut (O.sunk out.old) (O.sunk out.new) text.now result }
{
    out.put(text.as_bytes())?;
    out.flush()
}

// What follows the name of a job that failed, with a path.
fn cause_text(alloc: Global, words: &str, path: &PathText) -> Result<String, AllocError>
    ensures { IfOk result (λ text. string_bytes text ≡ words.now ++ path.now) }
{
    let path = path.as_str();
    format!(in alloc; "{words}{path}")
}

// The same, with a status.
fn status_text(alloc: Global, status: u32) -> Result<String, AllocError>
    ensures { IfOk result (λ text. string_bytes text ≡ codes ": status " ++ decimal status) }
{
    format!(in alloc; ": status {status}")
}

/// The line of the end of a job of this rule with this first output that ended so. `OutOfMemory` where there is no memory for it.
pub fn end_line(
    alloc: Global,
    rule: &str,
    path: &PathText,
    ending: &Ending,
) -> Result<Text, OutOfMemory>
    ensures { IfOk result (λ text. text ≡ end_line (record { rule = rule.now; path = path.now }) ending.now) }
{
    match ending {
        Ending::Good => job_line(alloc, "done", rule, path, ""),
        Ending::Status(status) => {
            let rest = status_text(alloc, *status)?;
            job_line(alloc, "failed", rule, path, rest.as_str())
        }
        Ending::NoOutput(missing) => {
            let rest = cause_text(alloc, ": no output ", missing)?;
            job_line(alloc, "failed", rule, path, rest.as_str())
        }
        Ending::WrongKind(wrong) => {
            let rest = cause_text(alloc, ": wrong kind ", wrong)?;
            job_line(alloc, "failed", rule, path, rest.as_str())
        }
        Ending::BadMember(bad) => {
            let rest = cause_text(alloc, ": bad member ", bad)?;
            job_line(alloc, "failed", rule, path, rest.as_str())
        }
    }
}

/// Puts the line of a job's end.
///
/// `Output`: the sink failed, and a front of the line was put. `OutOfMemory`: there is no memory for the line; then nothing was put.
pub(crate) fn tell_end<O: Sink>(
    alloc: Global,
    rule: &str,
    path: &PathText,
    ending: &Ending,
    out: &mut O,
) -> Result<(), Stop>
    ensures told { HasReported (IsReport (is_ok result) (end_line (record { rule = rule.now; path = path.now }) ending.now)) (O.sunk out.old) (O.sunk out.new) (is_output result) }
    ensures faults { IfErr result (λ s. (s ≡ stop.Output) ⊎ (s ≡ stop.OutOfMemory)) }
{
    let text = end_line(alloc, rule, path, ending)?;
    match write_out(out, text.as_str()) {
        Ok(()) => Ok(()),
        Err(Failed) => Err(Stop::Output),
    }
}
