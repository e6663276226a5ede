//! A plan, and then the run that makes it or its listing.

ghost use Rattle.std.specs.Prelude.{◌≡◌, ◌⊎◌, ℕ, List as Items, Option, [], IfOk, IfErr, true, false, Err};
ghost use Rattle.smk_world.specs.Devices.{WhereTold, HasLooked};
ghost use Rattle.smk_record.specs.Spelling.{ReadsRecords};
ghost use Rattle.smk_record.specs.declared.record.Record.{Record as RecordValue};
ghost use Rattle.smk_cli_entry.specs.Faults.{device_failed, is_device, is_sink};
ghost use Rattle.smk_make.specs.Closing.{verdict_of};
ghost use Rattle.smk_make.specs.Making.{IsFit};
ghost use Rattle.smk_cli_calls.specs.Ends.{EndsAs};
ghost use Rattle.smk_cli_calls.specs.OneByOne.{is_one_by_one};
ghost use Rattle.smk_cli_calls.specs.OneByOne as one;
ghost use Rattle.smk_cli_calls.specs.Serving as spec;
ghost use Rattle.smk_cli_calls.specs.Serving.{IsPlanned, IsRefusedPlan, IsServed, IsThat, Went, HasListed};

use crate::growing::grows;
use crate::listing::put_listing;
use crate::marks::{has_marks, has_priorities};
use smk_base::{Copied, OutOfMemory};
use smk_cli_entry::Asked;
use smk_drive_run::drive;
use smk_make::{Planned, make};
use smk_pick::{Force, Settings};
use smk_plan_preview::{Previewed, preview};
use smk_report::{Fault, status_of};
use smk_words_reading::RunWords;
use smk_world::{Crew, Files, Sink};
use std::alloc::Global;
use std::thread::Threads;

// What a plan for what is asked goes by.
fn settings_of(alloc: Global, asked: &Asked, words: &RunWords) -> Result<Settings, OutOfMemory>
    ensures { IfOk result (λ settings. settings ≡ spec.settings_of asked.now words.now) }
{
    Ok(Settings {
        targets: asked.targets.copied(alloc)?,
        cores: words.cores,
        bounds: words.bounds.copied(alloc)?,
        keep_going: words.keep_going,
        rerun_incomplete: words.rerun_incomplete,
        force: words.force,
    })
}

fn forces_none(force: Force) -> bool
    ensures { result ≡ one.forces_none force }
{
    match force {
        Force::No => true,
        Force::Targets | Force::All => false,
    }
}

// Whether the words ask that jobs are made one after another.
fn asks_one_by_one(words: &RunWords) -> bool
    ensures { result ≡ one.asks_one_by_one words.now }
{
    words.cores == 1 && (!words.keep_going && forces_none(words.force))
}

// Whether the jobs of what is asked are made one after another.
fn is_one_by_one(asked: &Asked, words: &RunWords) -> bool
    ensures { result ≡ one.is_one_by_one asked.now.flow words.now }
{
    asks_one_by_one(words)
        && (!has_marks(&asked.flow) && (!has_priorities(&asked.flow) && !grows(&asked.flow)))
}

// The plan for what is asked.
fn plan_for<W: Files, Rt: Threads + Sync>(
    rt: &Rt,
    alloc: Global,
    asked: &Asked,
    words: &RunWords,
    work: &mut W,
) -> Result<Previewed, Fault>
    requires none_runs { (W.device work.old).running ≡ [] }
    ensures looked { HasLooked W.act (W.device work.old) (W.device work.new) (device_failed result) }
    ensures no_sink { IfErr result (λ f. is_sink f ≡ false) }
    ensures fit { IfOk result (λ plan. IsFit asked.now.flow words.now.cores plan.jobs plan.plan.states) }
    ensures told { WhereTold (W.device work.old) (λ w. (read : Items ℕ → Option RecordValue) → ReadsRecords read → IsPlanned read asked.now words.now w result) }
{
    let Ok(settings) = settings_of(alloc, asked, words) else {
        return Err(Fault::OutOfMemory);
    };
    preview(rt, alloc, &asked.flow, &settings, work)
}

// Makes the targets of what is asked one job after another: plans, and runs what the plan has to be run or restored.
fn make_in_turns<W: Crew, O: Sink, Rt: Threads + Sync>(
    rt: &Rt,
    alloc: Global,
    asked: &Asked,
    words: &RunWords,
    work: &mut W,
    out: &mut O,
) -> Result<(), Fault>
    requires none_runs { (W.device work.old).running ≡ [] }
    requires one { is_one_by_one asked.now.flow words.now ≡ true }
    ensures ended { EndsAs result (W.device work.old) (W.device work.new) (O.sunk out.old) (O.sunk out.new) }
    ensures went { WhereTold (W.device work.old) (λ w. (read : Items ℕ → Option RecordValue) → ReadsRecords read
        → Went W.act words.now result (IsRefusedPlan read asked.now words.now w) (IsThat asked.now) (IsServed read asked.now words.now w)
        (W.device work.old) (W.device work.new) (O.sunk out.old) (O.sunk out.new)) }
{
    match plan_for(rt, alloc, asked, words, work) {
        Err(fault) => Err(fault),
        Ok(plan) => {
            let planned = Planned {
                jobs: &plan.jobs,
                states: &plan.plan.states,
                store: &plan.store,
            };
            make(
                rt,
                alloc,
                &asked.flow,
                &asked.targets,
                &planned,
                words.cores,
                work,
                out,
            )
        }
    }
}

// The answer where a run came to its end with this fault of the first job that failed, if any did. Another fault can't stand there.
fn verdict(first: Option<Fault>) -> Result<(), Fault>
    ensures is { (result ≡ verdict_of first) ⊎ (result ≡ Err Fault.OutOfMemory) }
    ensures calm { IfErr result (λ f. (is_device f ≡ false) × (is_sink f ≡ false)) }
{
    match first {
        None => Ok(()),
        Some(fault) => {
            if status_of(&fault) == 1 {
                Err(fault)
            } else {
                Err(Fault::OutOfMemory)
            }
        }
    }
}

// Drives a run that makes the targets of what is asked.
fn make_driven<W: Crew, O: Sink, Rt: Threads + Sync>(
    rt: &Rt,
    alloc: Global,
    asked: &Asked,
    words: &RunWords,
    work: &mut W,
    out: &mut O,
) -> Result<(), Fault>
    requires none_runs { (W.device work.old).running ≡ [] }
    requires apart { is_one_by_one asked.now.flow words.now ≡ false }
    ensures ended { EndsAs result (W.device work.old) (W.device work.new) (O.sunk out.old) (O.sunk out.new) }
    ensures went { WhereTold (W.device work.old) (λ w. (read : Items ℕ → Option RecordValue) → ReadsRecords read
        → Went W.act words.now result (IsRefusedPlan read asked.now words.now w) (IsThat asked.now) (IsServed read asked.now words.now w)
        (W.device work.old) (W.device work.new) (O.sunk out.old) (O.sunk out.new)) }
{
    let Ok(settings) = settings_of(alloc, asked, words) else {
        return Err(Fault::OutOfMemory);
    };
    match drive(rt, alloc, &asked.flow, &settings, work, out) {
        Err(fault) => Err(fault),
        Ok(end) => verdict(end.first),
    }
}

/// Makes the targets of what is asked, by its words, and reports to `out`. Where the words ask for one core, the first job that fails ends the run and no job
/// is forced, and no rule of the workflow is a checkpoint, makes a directory, gathers or has a priority, and no output is temporary or protected, it plans, and runs
/// what the plan has to be run or restored, one job after another. Else the run is driven: jobs are begun side by side, by a plan that is kept.
///
/// The fault is the first refusal of a plan; or else that of the first job that failed, or why the run stopped: `Serials`, `TooLong`, `NoInput`, `Device`, `Output`,
/// `OutOfMemory`. No child runs before.
pub(crate) fn make_targets<W: Crew, O: Sink, Rt: Threads + Sync>(
    rt: &Rt,
    alloc: Global,
    asked: &Asked,
    words: &RunWords,
    work: &mut W,
    out: &mut O,
) -> Result<(), Fault>
    requires none_runs { (W.device work.old).running ≡ [] }
    ensures ended { EndsAs result (W.device work.old) (W.device work.new) (O.sunk out.old) (O.sunk out.new) }
    ensures went { WhereTold (W.device work.old) (λ w. (read : Items ℕ → Option RecordValue) → ReadsRecords read
        → Went W.act words.now result (IsRefusedPlan read asked.now words.now w) (IsThat asked.now) (IsServed read asked.now words.now w)
        (W.device work.old) (W.device work.new) (O.sunk out.old) (O.sunk out.new)) }
{
    if is_one_by_one(asked, words) {
        make_in_turns(rt, alloc, asked, words, work, out)
    } else {
        make_driven(rt, alloc, asked, words, work, out)
    }
}

/// Lists what a run by the words would do for what is asked. Nothing in the folder changes.
///
/// The fault is the first refusal of the plan; or `Device`, `Output`, `OutOfMemory`. No child runs before.
pub(crate) fn list_plan<W: Files, O: Sink, Rt: Threads + Sync>(
    rt: &Rt,
    alloc: Global,
    asked: &Asked,
    words: &RunWords,
    work: &mut W,
    out: &mut O,
) -> Result<(), Fault>
    requires none_runs { (W.device work.old).running ≡ [] }
    ensures ended { EndsAs result (W.device work.old) (W.device work.new) (O.sunk out.old) (O.sunk out.new) }
    ensures looked { HasLooked W.act (W.device work.old) (W.device work.new) (device_failed result) }
    ensures listed { WhereTold (W.device work.old) (λ w. (read : Items ℕ → Option RecordValue) → ReadsRecords read
        → HasListed (IsRefusedPlan read asked.now words.now w) (IsServed read asked.now words.now w) (O.sunk out.old) (O.sunk out.new) result) }
{
    match plan_for(rt, alloc, asked, words, work) {
        Err(fault) => Err(fault),
        Ok(plan) => put_listing(alloc, &asked.flow, &plan.jobs, &plan.plan.states, out),
    }
}
