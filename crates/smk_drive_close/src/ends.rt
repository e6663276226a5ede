//! The end of a job is put and counted.

ghost use Rattle.std.specs.Prelude.{◌≡◌, ◌<◌, false, true, IfErr, IfOk, List as Items, ℕ, OnErr, OnOk};
ghost use Rattle.smk_drive.specs.Reports.{named_job};
ghost use Rattle.smk_report.specs.declared.fault.Fault.TheVariants as fault;
ghost use Rattle.smk_run.specs.Reports.{HasReported, end_line};
ghost use Rattle.smk_run.specs.Runs.{is_output};
ghost use Rattle.smk_drive_hub.specs.Turned.{IsBarelyMore};
ghost use Rattle.smk_laws_closes.specs.Closes.{IsLineFault, counted_end};
ghost use Rattle.smk_laws_closes.specs.Lines.{IsEndPut, end_text, first_answer};

use crate::counts::{count_end, is_good};
use smk_base::{OutOfMemory, Text};
use smk_chain::first_output;
use smk_drive_step::Lines;
use smk_flow::{Job, Workflow};
use smk_format::rule_name;
use smk_report::Fault;
use smk_run::{Ending, Tally, end_line};
use smk_world::Sink;
use std::alloc::Global;

// The line of the end of a job that failed so.
fn line_of(alloc: Global, flow: &Workflow, job: &Job, ending: &Ending) -> Result<Text, OutOfMemory>
    ensures { IfOk result (λ line. line ≡ end_line (named_job flow.now job.now) ending.now) }
{
    let Some(path) = first_output(job) else {
        return Err(OutOfMemory);
    };
    end_line(alloc, rule_name(flow, job.rule), path, ending)
}

// Puts the line, where there is memory for it: else no line goes to the sink any more.
fn put_made<O: Sink>(
    lines: &mut Lines,
    line: Result<Text, OutOfMemory>,
    out: &mut O,
) -> Result<(), Fault>
    ensures told { (whole : Items ℕ) → IfOk line (λ l. l ≡ whole)
        → HasReported (IsEndPut lines.old.goes_on lines.new.goes_on whole) (O.sunk out.old) (O.sunk out.new) (is_output result) }
    ensures lost { IfErr result IsLineFault }
    ensures whole { OnOk result (lines.new.goes_on ≡ lines.old.goes_on) }
    ensures cut { OnErr result (lines.new.goes_on ≡ false) }
{
    match line {
        Ok(line) => lines.put(out, &line),
        Err(OutOfMemory) => {
            lines.end();
            Err(Fault::OutOfMemory)
        }
    }
}

// Puts the line of the end of the job, which is this one where it ends well.
fn put_end<O: Sink>(
    alloc: Global,
    flow: &Workflow,
    lines: &mut Lines,
    job: &Job,
    done: &Text,
    ending: &Ending,
    out: &mut O,
) -> Result<(), Fault>
    ensures told { HasReported (IsEndPut lines.old.goes_on lines.new.goes_on (end_text done.now (named_job flow.now job.now) ending.now)) (O.sunk out.old)
        (O.sunk out.new) (is_output result) }
    ensures lost { IfErr result IsLineFault }
    ensures whole { OnOk result (lines.new.goes_on ≡ lines.old.goes_on) }
    ensures cut { OnErr result (lines.new.goes_on ≡ false) }
{
    if is_good(ending) {
        return lines.put(out, done);
    }
    put_made(lines, line_of(alloc, flow, job, ending), out)
}

// The first fault of two answers.
fn first_answer(put: Result<(), Fault>, counted: Result<(), Fault>) -> Result<(), Fault>
    ensures { result ≡ first_answer put counted }
{
    match put {
        Ok(()) => counted,
        Err(fault) => Err(fault),
    }
}

// Puts and counts the end of the job. The fault is that of the line, if any, or `OutOfMemory`.
pub(crate) fn note_end<O: Sink>(
    alloc: Global,
    flow: &Workflow,
    lines: &mut Lines,
    tally: &mut Tally,
    job: &Job,
    done: &Text,
    ending: Ending,
    out: &mut O,
) -> Result<(), Fault>
    requires done { tally.old.done < 18446744073709551615 }
    requires failed { tally.old.failed < 18446744073709551615 }
    ensures told { HasReported (IsEndPut lines.old.goes_on lines.new.goes_on (end_text done.now (named_job flow.now job.now) ending)) (O.sunk out.old)
        (O.sunk out.new) (is_output result) }
    ensures lost { IfErr result IsLineFault }
    ensures whole { OnOk result (lines.new.goes_on ≡ lines.old.goes_on) }
    ensures silent { lines.old.goes_on ≡ false → lines.new.goes_on ≡ false }
    ensures cut { is_output result ≡ true → lines.new.goes_on ≡ false }
    ensures counted { OnOk result (tally.new ≡ counted_end flow.now job.now ending tally.old) }
    ensures barely { IsBarelyMore tally.old tally.new }
{
    let put = put_end(alloc, flow, lines, job, done, &ending, out);
    let counted = count_end(alloc, flow, tally, job, ending);
    first_answer(put, counted)
}
