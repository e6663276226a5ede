//! What a job begins with.

ghost use Rattle.std.specs.Prelude.{◌≡◌, map, true, Some, length, IfOk};
ghost use Rattle.std.specs.List.{slice_get};
ghost use Rattle.smk_world.specs.World.{in_paths};
ghost use Rattle.smk_record.specs.Records.{are_rising};
ghost use Rattle.smk_drive.specs.Lawful.{ask_of};
ghost use Rattle.smk_format.specs.Refused.{command_of};
ghost use Rattle.smk_plan_live.specs.declared.phase.Phase.TheVariants as phase;
ghost use Rattle.smk_laws_begins.specs.Fitting as spec;
ghost use Rattle.smk_laws_begins.specs.Fitting.{is_restored};
ghost use Rattle.smk_drive_begin.specs.Kits.{HasStamps};

use smk_base::{Copied, List, OutOfMemory, Pair, PathText, Text};
use smk_drive_step::stamps_of;
use smk_flow::{Job, Workflow};
use smk_format::command_of;
use smk_pick::Ask;
use smk_plan_live::{LivePlan, Phase};
use smk_record::Stamp;
use smk_report::Fault;
use smk_run::input_paths;
use smk_store::Kept;
use smk_trigger::State;
use std::alloc::Global;
use std::cmp::Ordering;

/// What a job begins with: the stamps that are known of its inputs, in order; the serial of its records, and whether it is drawn; the text of its command; what it
/// asks for; the lines of its start and of its end, where it ends well.
#[derive(Drop)]
pub(crate) struct Kit {
    pub(crate) known: List<Stamp>,
    pub(crate) made: u64,
    pub(crate) draws: bool,
    pub(crate) command: Text,
    pub(crate) ask: Ask,
    pub(crate) start: Text,
    pub(crate) done: Text,
}

/// What the job asks for.
pub(crate) fn ask_of(alloc: Global, job: &Job) -> Result<Ask, OutOfMemory>
    ensures { IfOk result (λ ask. ask ≡ ask_of job.now) }
{
    Ok(Ask {
        threads: job.threads,
        amounts: job.amounts.copied(alloc)?,
        priority: job.priority,
    })
}

/// Whether the job of the number is to be restored. `OutOfMemory` where there is no memory to tell.
pub(crate) fn is_restore(alloc: Global, live: &LivePlan, job: u32) -> Result<bool, OutOfMemory>
    ensures { IfOk result (λ restored. restored ≡ is_restored live.now job) }
{
    let state = live.state(alloc, job)?;
    Ok(matches!(state, Some(State::Restore)))
}

/// Whether the job of the number hasn't begun.
pub(crate) fn is_waiting(live: &LivePlan, job: u32) -> bool
    ensures { result ≡ true → slice_get live.now.base.phases job ≡ Some phase.Waiting }
{
    matches!(live.phase(job), Some(Phase::Waiting))
}

// The serial of the record of the output. None where it has none.
fn kept_serial(live: &LivePlan, path: &PathText) -> Option<u64>
    ensures { result ≡ spec.kept_serial live.now path.now }
{
    match &live.entry(path)?.kept {
        Kept::Held(record) => Some(record.made()),
        Kept::Absent | Kept::Unreadable => None,
    }
}

/// The serial of the records of a job: the one that it keeps, or the next one.
pub(crate) fn serial_of(
    live: &LivePlan,
    draws: bool,
    next: Option<u64>,
    path: &PathText,
) -> Result<u64, Fault>
    ensures { result ≡ spec.serial_of live.now draws next path.now }
{
    if draws {
        match next {
            Some(made) => Ok(made),
            None => Err(Fault::Serials),
        }
    } else {
        match kept_serial(live, path) {
            Some(made) => Ok(made),
            None => Err(Fault::OutOfMemory),
        }
    }
}

/// Whether the names rise in byte order.
pub(crate) fn wildcards_rise(wildcards: &[Pair]) -> bool
    ensures { result ≡ are_rising (map (λ w. w.name) wildcards.now) }
{
    let mut rest = wildcards;
    while let [first, more @ ..] = rest {
        if let [second, ..] = more {
            match first
                .name
                .as_str()
                .as_bytes()
                .cmp(second.name.as_str().as_bytes())
            {
                Ordering::Less => {}
                _ => return false,
            }
        }
        rest = more;
    }
    true
}

// The stamps, where there is one for each input of the job. `OutOfMemory` where there isn't.
fn if_each(alloc: Global, job: &Job, stamps: List<Stamp>) -> Result<List<Stamp>, OutOfMemory>
    ensures value { IfOk result (λ found. found ≡ stamps) }
    ensures each { IfOk result (λ found. length found ≡ length (in_paths job.now.recipe)) }
{
    let paths = input_paths(alloc, job.recipe.inputs.as_slice())?;
    if stamps.len() == paths.len() {
        Ok(stamps)
    } else {
        Err(OutOfMemory)
    }
}

/// The stamps that are known of the inputs of the job of the number, which records with this serial may have. `OutOfMemory` where one isn't known.
pub(crate) fn known_stamps(
    alloc: Global,
    live: &LivePlan,
    number: u32,
    job: &Job,
    made: u64,
) -> Result<List<Stamp>, OutOfMemory>
    ensures { IfOk result (HasStamps live.now number job.now made) }
{
    let Some(facts) = live.facts(alloc, number)? else {
        return Err(OutOfMemory);
    };
    match stamps_of(alloc, facts.stamps.as_slice(), made)? {
        Some(stamps) => if_each(alloc, job, stamps),
        None => Err(OutOfMemory),
    }
}

/// The text of the job's command. No plan that a run goes by has a job whose command is refused, so that any fault counts as want of memory.
pub(crate) fn command_text(
    alloc: Global,
    flow: &Workflow,
    cores: u64,
    job: &Job,
) -> Result<Text, OutOfMemory>
    ensures { IfOk result (λ text. text ≡ command_of cores job.now) }
{
    match command_of(alloc, flow, cores, job) {
        Ok(text) => Ok(text),
        Err(_) => Err(OutOfMemory),
    }
}
