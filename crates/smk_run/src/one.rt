//! One job: its start, its end, and its lines.

ghost use Rattle.std.specs.Prelude.{◌≡◌, ◌≢◌, ◌∷◌, [], length, None, Err, true};
ghost use Rattle.smk_world.specs.World.{in_paths, out_paths, owned_paths};
ghost use Rattle.smk_world.specs.Calls.{are_apart};
ghost use Rattle.smk_world.specs.Trees.{Path, Each};
ghost use Rattle.smk_run.specs.declared.stop.Stop.TheVariants as stop;
ghost use Rattle.smk_record.specs.Records.{is_valid, record_of};
ghost use Rattle.smk_job.specs.Jobs.{too_long};
ghost use Rattle.smk_report.specs.Lines.{start_line};
ghost use Rattle.smk_run.specs.Turns.{HasGoneOn, as_gone, stop_of, left_stop};
ghost use Rattle.smk_run.specs.Reports.{HasTurned, named};

use crate::closing::close;
use crate::lines::{tell_end, write_out};
use crate::{Ending, Stop};
use smk_base::{List, PathText};
use smk_chain::first_output;
use smk_flow::{Job, Workflow};
use smk_format::rule_name;
use smk_job::{BeginFault, Going, begin};
use smk_record::Stamp;
use smk_report::job_line;
use smk_world::{Crew, Failed, Files, Sink, WorkFault};
use std::alloc::Global;

// Why a job doesn't begin.
fn stop_of(fault: BeginFault) -> Stop
    ensures value { result ≡ stop_of fault }
    ensures never { (p : Path) → result ≢ stop.Gone p }
{
    match fault {
        BeginFault::TooLong(bytes) => Stop::TooLong(bytes),
        BeginFault::Device => Stop::Device,
        BeginFault::OutOfMemory => Stop::OutOfMemory,
    }
}

// Why a job isn't closed.
fn left(fault: WorkFault) -> Stop
    ensures value { result ≡ left_stop fault }
    ensures never { (p : Path) → result ≢ stop.Gone p }
{
    match fault {
        WorkFault::Failed => Stop::Device,
        WorkFault::OutOfMemory => Stop::OutOfMemory,
    }
}

// Puts the line of the start, waits for the child whatever the sink does, closes the job, and puts the line of the end.
fn attend<W: Crew, O: Sink>(
    alloc: Global,
    rule: &str,
    path: &PathText,
    line: &str,
    going: Going,
    work: &mut W,
    out: &mut O,
) -> Result<Ending, Stop>
    requires one_runs { (W.device work.old).running ≡ going.number ∷ [] }
    requires line { line.now ≡ start_line (record { rule = rule.now; path = path.now }) }
    ensures run { HasTurned W.act (HasGoneOn going) (record { rule = rule.now; path = path.now }) None result (W.device work.old) (W.device work.new) (O.sunk out.old) (O.sunk out.new) }
    ensures never { (p : Path) → result ≢ Err (stop.Gone p) }
{
    let told = write_out(out, line);
    let closed = close(alloc, work, going);
    match told {
        Err(Failed) => Err(Stop::Output),
        Ok(()) => match closed {
            Err(fault) => Err(left(fault)),
            Ok(ending) => match tell_end(alloc, rule, path, &ending, out) {
                Ok(()) => Ok(ending),
                Err(stop) => Err(stop),
            },
        },
    }
}

/// Runs one job, whose inputs have these stamps and which draws this serial: begins it, waits for its child, finishes it after status 0 and
/// abandons it after another one; and puts the line of its start and that of its end. The answer is how the job ended.
///
/// `TooLong` exactly where a record without members would have more than 1,048,576 bytes, with the bytes of the first output's that would:
/// nothing was done then. `Device`: a call of the device failed; then no other one was made but the wait for the child. `Output`: the sink failed; the
/// child was waited for nevertheless, and its job closed. `OutOfMemory`: there is no memory for the job before it begins, for what is under a directory
/// output, or for a line.
///
/// No child runs before. There is a stamp for each path of the recipe's inputs, in order; the records with these stamps, this serial and no members are
/// valid; outputs and logs don't overlap one another; and there is an output.
pub(crate) fn run_one<W: Crew, O: Sink>(
    alloc: Global,
    flow: &Workflow,
    job: &Job,
    stamps: &List<Stamp>,
    made: u64,
    command: &str,
    work: &mut W,
    out: &mut O,
) -> Result<Ending, Stop>
    requires none_runs { (W.device work.old).running ≡ [] }
    requires each_stamped { length stamps.now ≡ length (in_paths job.now.recipe) }
    requires valid { Each (λ p. is_valid (record_of p made job.now.recipe stamps.now []) ≡ true) (out_paths job.now.recipe) }
    requires apart { are_apart (owned_paths job.now.recipe job.now.logs) ≡ true }
    requires makes { out_paths job.now.recipe ≢ [] }
    ensures run { HasTurned W.act (as_gone job.now command.now made stamps.now) (named flow.now job.now) (too_long made job.now.recipe stamps.now) result
        (W.device work.old) (W.device work.new) (O.sunk out.old) (O.sunk out.new) }
    ensures never { (p : Path) → result ≢ Err (stop.Gone p) }
{
    let rule = rule_name(flow, job.rule);
    let Some(path) = first_output(job) else {
        unreachable!()
    };
    let Ok(line) = job_line(alloc, "start", rule, path, "") else {
        return Err(Stop::OutOfMemory);
    };
    match begin(alloc, work, job, stamps, made, command) {
        Ok(going) => attend(alloc, rule, path, line.as_str(), going, work, out),
        Err(fault) => Err(stop_of(fault)),
    }
}
