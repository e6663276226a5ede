//! How a kept plan begins.

ghost use Rattle.std.specs.Prelude.{◌≡◌, ◌≢◌, [], length, map, true, None, IfOk, IfErr};
ghost use Rattle.std.specs.List.{list_all};
ghost use Rattle.smk_store.specs.Images.{Image};
ghost use Rattle.smk_plan_states.specs.Rows.{own_of};
ghost use Rattle.smk_plan_live.specs.Kept.{forced_now, own_now};
ghost use Rattle.smk_plan_live.specs.Making.{AreMadeBy};
ghost use Rattle.smk_plan_live.specs.Now.{known_now, seen_now};
ghost use Rattle.smk_plan_facts.specs.Telling.{has_path_texts, makers_in};
ghost use Rattle.smk_plan_table.specs.Plans.{Agree, IsRefused};
ghost use Rattle.smk_plan_live.specs.Lives.{AreFlagsNow, AreNamed, AreRanked, IsLive, IsAgreed, IsNow, IsSound, IsRefusedNow};
ghost use Rattle.smk_plan_states.specs.Served.{AreServed};
ghost use Rattle.smk_plan_live.specs.Steps.{IsKept, IsToldAnew, StandsKept, plan_with};
ghost use Rattle.smk_plan_live.specs.Changes.{IsFirst};

use crate::LivePlan;
use crate::base::Base;
use crate::carried::first_rows;
use crate::commands::are_seen;
use crate::flags::Flags;
use crate::limits::limits_of;
use crate::making::made_of;
use crate::readers::readers_of;
use crate::sites::sited_of;
use crate::slots::Slots;
use crate::telling::{Made, begun_of, tell_known};
use smk_base::{List, OutOfMemory};
use smk_chain::Jobs;
use smk_pick::Settings;
use smk_plan::{PlanFault, Seen};
use smk_plan_facts::{all_outputs_told, facts_told, makers_told};
use smk_plan_states::{Own, Table, own_flags};
use smk_plan_table::{Ranked, suspects_of};
use smk_store::Store;
use smk_trigger::{JobFacts, Plain, all_reasons};
use std::alloc::Global;
use std::collections::BTreeMap;
use std::thread::Threads;

// What was judged of the jobs: whether they have reasons of their own, and which are forced.
#[derive(Drop)]
struct Judged {
    own: Vec<Own>,
    forced: Vec<bool>,
}

/// What is kept of all jobs, besides their base: how their paths hang together, what is so of them as flags, and who reads what they make.
#[derive(Drop)]
pub(crate) struct Kept {
    pub(crate) table: Table,
    pub(crate) flags: Flags,
    pub(crate) readers: Vec<List<usize>>,
}

/// The same with the plan by it, by ranks, and whether a job is held back.
#[derive(Drop)]
pub(crate) struct Told {
    pub(crate) kept: Kept,
    pub(crate) ranked: Ranked,
    pub(crate) held: bool,
}

// Which jobs are forced, as their facts tell.
fn forced_flags(alloc: Global, facts: &[JobFacts]) -> Result<Vec<bool>, OutOfMemory>
    ensures { IfOk result (λ found. found.items ≡ map (λ f. f.forced) facts.now) }
{
    let mut found = Vec::with_capacity(alloc, facts.len())?;
    for one in facts {
        found.push(one.forced)?;
    }
    Ok(found)
}

// Whether jobs have reasons of their own, as the judge says of each of them, and which are forced. It is told in several threads, where there are many.
fn judge_jobs<Rt: Threads + Sync>(
    rt: &Rt,
    alloc: Global,
    base: &Base,
    settings: &Settings,
) -> Result<Judged, OutOfMemory>
    ensures own { IfOk result (λ judged. judged.own.items ≡ map own_of (own_now settings.now base.now)) }
    ensures forced { IfOk result (λ judged. judged.forced.items ≡ forced_now settings.now base.now) }
    ensures texts { IfOk result (λ judged. list_all has_path_texts base.now.jobs.jobs ≡ true) }
{
    let ran = begun_of(alloc, base.jobs.jobs.as_slice(), base.phases.as_slice())?;
    let told = facts_told(alloc, &base.jobs, base, settings, &ran)?;
    let reasons = all_reasons(rt, alloc, &told, &Plain)?;
    let own = own_flags(alloc, reasons.as_slice())?;
    let forced = forced_flags(alloc, told.as_slice())?;
    Ok(Judged { own, forced })
}

// Which of the paths that the makers tell of are whole.
fn whole_makers(alloc: Global, base: &Base) -> Result<Slots<bool>, OutOfMemory>
    ensures { IfOk result (λ flags. flags ≡ makers_in (known_now base.now) (seen_now base.now) base.now.jobs) }
{
    let told = makers_told(alloc, base, &base.jobs)?;
    let flags = Vec::from_slice(alloc, told.as_slice())?;
    Ok(Slots::of(flags))
}

// What is whole of the jobs, and what may be refused of them, with what was judged of them.
fn flags_of(
    alloc: Global,
    base: &Base,
    settings: &Settings,
    judged: Judged,
) -> Result<Flags, OutOfMemory>
    requires own { judged.own.items ≡ map own_of (own_now settings.now base.now) }
    requires forced { judged.forced.items ≡ forced_now settings.now base.now }
    ensures now { IfOk result (AreFlagsNow settings.now base.now) }
    ensures made { IfOk result (λ flags. AreMadeBy base.now.jobs.jobs base.now.jobs.makers flags.made) }
{
    let jobs = base.jobs.jobs.as_slice();
    let outputs = all_outputs_told(alloc, base, jobs)?;
    let makers = whole_makers(alloc, base)?;
    let suspects = suspects_of(alloc, base, &settings.bounds, jobs)?;
    let made = made_of(alloc, &base.jobs)?;
    Ok(Flags {
        outputs: Slots::of(outputs),
        makers,
        suspects: Slots::of(suspects),
        own: Slots::of(judged.own),
        forced: Slots::of(judged.forced),
        made: Slots::of(made),
    })
}

// What is kept of all jobs.
fn kept_of<Rt: Threads + Sync>(
    rt: &Rt,
    alloc: Global,
    base: &Base,
    settings: &Settings,
) -> Result<Kept, OutOfMemory>
    ensures { IfOk result (IsKept settings.now base.now) }
{
    let judged = judge_jobs(rt, alloc, base, settings)?;
    let table = Table::of(alloc, &base.jobs, &settings.targets)?;
    let flags = flags_of(alloc, base, settings, judged)?;
    let readers = readers_of(alloc, base)?;
    Ok(Kept {
        table,
        flags,
        readers,
    })
}

// The plan by it, and whether a job is held back.
fn tell_kept(
    alloc: Global,
    base: &Base,
    settings: &Settings,
    kept: &Kept,
) -> Result<Made, PlanFault>
    requires kept { IsKept settings.now base.now kept.now }
    requires sound { IsSound base.now }
    requires named { AreNamed base.now }
    ensures targets { IfOk result (λ made. length made.ranked.current ≡ length settings.now.targets) }
    ensures standing { IfOk result (λ made. AreServed base.now.jobs settings.now.targets → StandsKept base.now kept.now made.ranked.ranking) }
    ensures ranked { IfOk result (λ made. AreRanked settings.now base.now made.ranked.ranking (plan_with base.now kept.now made.ranked)) }
    ensures now { IfOk result (λ made. IsNow settings.now base.now (plan_with base.now kept.now made.ranked) made.held) }
    ensures refused { IfErr result (λ fault. fault ≢ PlanFault.OutOfMemory → IsRefusedNow settings.now base.now fault) }
{
    let outputs = kept.flags.outputs.as_slice();
    let makers = kept.flags.makers.as_slice();
    let forced = kept.flags.forced.as_slice();
    let own = kept.flags.own.as_slice();
    let suspects = kept.flags.suspects.as_slice();
    tell_known(
        alloc,
        base,
        settings,
        &kept.table,
        outputs,
        makers,
        forced,
        own,
        suspects,
    )
}

// The same with the plan by it.
fn told_by(alloc: Global, base: &Base, settings: &Settings, kept: Kept) -> Result<Told, PlanFault>
    requires kept { IsKept settings.now base.now kept }
    requires sound { IsSound base.now }
    requires named { AreNamed base.now }
    ensures told { IfOk result (IsToldAnew settings.now base.now) }
    ensures refused { IfErr result (λ fault. fault ≢ PlanFault.OutOfMemory → IsRefusedNow settings.now base.now fault) }
{
    match tell_kept(alloc, base, settings, &kept) {
        Err(fault) => Err(fault),
        Ok(made) => Ok(Told {
            kept,
            ranked: made.ranked,
            held: made.held,
        }),
    }
}

/// What is kept of all jobs, and the plan by it. What they are judged by, and what the judge says of them, is told in several threads, where there are many.
pub(crate) fn told_of<Rt: Threads + Sync>(
    rt: &Rt,
    alloc: Global,
    base: &Base,
    settings: &Settings,
) -> Result<Told, PlanFault>
    requires sound { IsSound base.now }
    requires named { AreNamed base.now }
    ensures told { IfOk result (IsToldAnew settings.now base.now) }
    ensures refused { IfErr result (λ fault. fault ≢ PlanFault.OutOfMemory → IsRefusedNow settings.now base.now fault) }
{
    match kept_of(rt, alloc, base, settings) {
        Err(_) => Err(PlanFault::OutOfMemory),
        Ok(kept) => told_by(alloc, base, settings, kept),
    }
}

// The base of these jobs, of which none has begun.
fn first_base(alloc: Global, jobs: Jobs, store: Store, seen: Seen) -> Result<Base, OutOfMemory>
    ensures sound { IfOk result IsSound }
    ensures first { IfOk result (IsFirst jobs store seen) }
{
    let sited = sited_of(alloc, &jobs)?;
    let rows = first_rows(alloc, jobs.jobs.as_slice())?;
    Ok(Base {
        jobs,
        store,
        seen,
        later: BTreeMap::new(alloc),
        came: List::new(alloc),
        entries: Slots::of(rows.entries),
        sights: Slots::of(rows.sights),
        sites: sited.sites,
        sources: sited.sources,
        phases: Slots::of(rows.phases),
        began: Slots::of(rows.began),
    })
}

// The kept plan over this base.
fn over<Rt: Threads + Sync>(
    rt: &Rt,
    alloc: Global,
    base: Base,
    settings: Settings,
) -> Result<LivePlan, PlanFault>
    requires sound { IsSound base }
    requires named { AreNamed base }
    ensures live { IfOk result IsLive }
    ensures so { IfOk result (λ p. (p.base ≡ base) × (p.settings ≡ settings)) }
    ensures refused { IfErr result (λ fault. fault ≢ PlanFault.OutOfMemory → IsRefusedNow settings base fault) }
{
    match told_of(rt, alloc, &base, &settings) {
        Err(fault) => Err(fault),
        Ok(told) => {
            let Told { kept, ranked, held } = told;
            let jobs = base.jobs.jobs.as_slice();
            let commanded = are_seen(alloc, settings.cores, jobs, ranked.ranking.ranks());
            let limits = limits_of(jobs);
            Ok(LivePlan {
                base,
                settings,
                ranking: ranked.ranking,
                current: ranked.current,
                known: ranked.known,
                held,
                table: kept.table,
                flags: kept.flags,
                readers: kept.readers,
                commanded,
                limits,
            })
        }
    }
}

impl LivePlan {
    /// The plan of these jobs, none of which has begun, to be kept.
    ///
    /// The faults are those of a plan: the first thing that is refused of it, or `OutOfMemory` where there is no memory for it. What the store has, what was
    /// seen and what the makers of the jobs tell is so in one image of the folder; and each source input that a record of its job has with a SHA-256 and another
    /// time was seen with its digest, where it is small enough for one.
    pub fn new<Rt: Threads + Sync>(
        rt: &Rt,
        alloc: Global,
        jobs: Jobs,
        store: Store,
        seen: Seen,
        settings: Settings,
    ) -> Result<LivePlan, PlanFault>
        ensures live { IfOk result IsLive }
        ensures first { IfOk result (λ p. IsFirst jobs store seen p.base × (p.settings ≡ settings)) }
        ensures so { IfOk result (λ p. (image : Image) → Agree image jobs store seen settings.targets → IsAgreed image settings p.base) }
        ensures refused { IfErr result (λ fault. fault ≢ PlanFault.OutOfMemory → (image : Image) → Agree image jobs store seen settings.targets
            → IsRefused image settings [] jobs fault) }
    {
        match first_base(alloc, jobs, store, seen) {
            Err(_) => Err(PlanFault::OutOfMemory),
            Ok(base) => over(rt, alloc, base, settings),
        }
    }
}
