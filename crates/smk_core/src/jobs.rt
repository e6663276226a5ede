//! The jobs of a run, and how they stand.

ghost use Rattle.std.specs.Prelude.{◌≡◌, ◌<◌, ◌≤◌, ◌&&◌, ◌∷◌, [], ℕ, true, length, replicate, take, slice_get, slice_set, nat_le, IfOk, OnOk};
ghost use Rattle.std.specs.List.{list_all};
ghost use Rattle.std.specs.Option.{option_map};
ghost use Rattle.smk_core.specs.declared.phase.Phase.TheVariants.{Running as running};
ghost use Rattle.smk_core.specs.declared.place.TheConstants.{NONE as none};
ghost use Rattle.smk_core.specs.Indices.{has};
ghost use Rattle.smk_core.specs.Lines.{ArePassed, AreBehind, AreReady, AreReadyBut, AreEarlier, AreOfAll, Settles, IsNoted, IsBestReady, roll, with_phases};
ghost use Rattle.smk_core.specs.Standing.{stands, is_done, is_waiting, is_running, ending};

use crate::phase::Phase;
use crate::ready::Ready;
use smk_base::{List, OutOfMemory};
use smk_pick::{Ask, Room};
use std::alloc::Global;
use std::marker::Model;

/// Jobs, the jobs before each, and how they stand. Those that are ready stand in line.
#[derive(Drop)]
pub(crate) struct Jobs {
    ready: Ready,
    befores: List<List<u32>>,
    // The jobs that come after each.
    behind: Vec<List<u32>>,
    // How many of the jobs before each, from the first on, are known to be done.
    passed: Vec<usize>,
    phases: Vec<Phase>,
}

impl Model for Jobs {
    ghost use Rattle.smk_core.specs.Lines.{Roll, IsRoll};

    ghost Value = { Roll };

    ghost view = { λ j. record { asks = j.ready.asks; befores = j.befores; phases = j.phases.items } };

    ghost invariant = { λ j. IsRoll j.ready j.befores j.behind.items j.passed.items j.phases.items };
}

// Whether the job is done.
fn is_done(phases: &[Phase], job: u32) -> bool
    ensures { result ≡ stands is_done phases.now job }
{
    match phases.get(job as usize) {
        Some(Phase::Done) => true,
        _ => false,
    }
}

// Whether the job hasn't begun.
fn is_waiting(phases: &[Phase], job: u32) -> bool
    ensures { result ≡ stands is_waiting phases.now job }
{
    match phases.get(job as usize) {
        Some(Phase::Waiting) => true,
        _ => false,
    }
}

// How many of these jobs, from the first on, are done, where so many are known to be.
fn passed_over(phases: &[Phase], befores: &[u32], known: usize) -> usize
    requires { list_all (stands is_done phases.now) (take known befores.now) ≡ true }
    ensures passed { list_all (stands is_done phases.now) (take result befores.now) ≡ true }
    ensures all { list_all (stands is_done phases.now) befores.now ≡ nat_le (length befores.now) result }
{
    let mut at = known;
    while at < befores.len() {
        if !is_done(phases, befores[at]) {
            return at;
        }
        at += 1;
    }
    at
}

// Whether the job is ready, where so many of those that come before it are done.
fn is_ready(job: u32, befores: &[u32], phases: &[Phase], passed: usize) -> bool
    ensures { result ≡ (stands is_waiting phases.now job && nat_le (length befores.now) passed) }
{
    is_waiting(phases, job) && befores.len() <= passed
}

// Puts the job in line where it is ready, and takes it out where it isn't.
fn settle(
    job: u32,
    befores: &[List<u32>],
    phases: &[Phase],
    passed: &mut Vec<usize>,
    ready: &mut Ready,
)
    requires inside { job < length befores.now }
    requires as_many { AreOfAll (length befores.now) ready.old passed.old.items phases.now }
    requires known { ArePassed phases.now befores.now passed.old.items }
    ensures ready { Settles job phases.now befores.now ready.old ready.new }
    ensures known { ArePassed phases.now befores.now passed.new.items }
    ensures as_many { AreOfAll (length befores.now) ready.new passed.new.items phases.now }
{
    let list = befores[job as usize].as_slice();
    let upto = passed_over(phases, list, passed[job as usize]);
    passed[job as usize] = upto;
    ready.set(job, is_ready(job, list, phases, upto));
}

// Settles each of these jobs, where all others are settled already.
fn settle_all(
    jobs: &[u32],
    befores: &[List<u32>],
    phases: &[Phase],
    passed: &mut Vec<usize>,
    ready: &mut Ready,
)
    requires as_many { AreOfAll (length befores.now) ready.old passed.old.items phases.now }
    requires known { ArePassed phases.now befores.now passed.old.items }
    requires rest { AreReadyBut jobs.now phases.now befores.now ready.old.present }
    ensures ready { AreReady phases.now befores.now ready.new.present × (ready.new.asks ≡ ready.old.asks) }
    ensures known { ArePassed phases.now befores.now passed.new.items }
    ensures as_many { AreOfAll (length befores.now) ready.new passed.new.items phases.now }
{
    for job in jobs {
        if (*job as usize) >= befores.len() {
            continue;
        }
        settle(*job, befores, phases, passed, ready);
    }
}

fn copy_numbers(alloc: Global, numbers: &[u32]) -> Result<List<u32>, OutOfMemory>
    ensures { IfOk result (λ made. made ≡ numbers.now) }
{
    let mut made = List::new(alloc);
    for number in numbers {
        made.push(*number)?;
    }
    Ok(made)
}

fn copy_lists(alloc: Global, lists: &[List<u32>]) -> Result<List<List<u32>>, OutOfMemory>
    ensures { IfOk result (λ made. made ≡ lists.now) }
{
    let mut made = List::new(alloc);
    for list in lists {
        made.push(copy_numbers(alloc, list.as_slice())?)?;
    }
    Ok(made)
}

// The numbers of so many jobs.
fn numbers(alloc: Global, count: usize) -> Result<List<u32>, OutOfMemory>
    ensures { IfOk result (λ made. (j : ℕ) → j < count → has made j ≡ true) }
{
    let mut made = List::new(alloc);
    for number in 0..count {
        let Ok(number) = u32::try_from(number) else {
            return Err(OutOfMemory);
        };
        made.push(number)?;
    }
    Ok(made)
}

// Notes the job with one that comes before it.
fn note(behind: &mut Vec<List<u32>>, before: u32, job: u32) -> Result<(), OutOfMemory>
    ensures { OnOk result (IsNoted (before ∷ []) job behind.old.items behind.new.items) }
{
    if (before as usize) >= behind.len() {
        return Ok(());
    }
    let list = &mut behind[before as usize];
    list.push(job)?;
    Ok(())
}

// Notes the job with each that comes before it.
fn note_all(behind: &mut Vec<List<u32>>, befores: &[u32], job: u32) -> Result<(), OutOfMemory>
    ensures { OnOk result (IsNoted befores.now job behind.old.items behind.new.items) }
{
    for before in befores {
        note(behind, *before, job)?;
    }
    Ok(())
}

// So many empty lists.
fn empty_lists(alloc: Global, count: usize) -> Result<Vec<List<u32>>, OutOfMemory>
    ensures { IfOk result (λ made. length made.items ≡ count) }
{
    let mut made = Vec::new(alloc);
    for i in 0..count {
        made.push(List::new(alloc))?;
    }
    Ok(made)
}

// The jobs that come after each.
fn behind_of(alloc: Global, befores: &[List<u32>]) -> Result<Vec<List<u32>>, OutOfMemory>
    requires { AreEarlier befores.now }
    ensures behind { IfOk result (λ made. AreBehind befores.now made.items) }
    ensures each { IfOk result (λ made. length made.items ≡ length befores.now) }
{
    let mut behind = empty_lists(alloc, befores.len())?;
    for (job, list) in befores.iter().enumerate() {
        let Ok(job) = u32::try_from(job) else {
            return Err(OutOfMemory);
        };
        note_all(&mut behind, list.as_slice(), job)?;
    }
    Ok(behind)
}

// Of no job it is known that one before it is done.
fn none_passed(alloc: Global, count: usize) -> Result<Vec<usize>, OutOfMemory>
    ensures { IfOk result (λ made. made.items ≡ replicate count 0) }
{
    Ok(vec![in alloc; 0usize; count]?)
}

impl Jobs {
    /// The jobs with these asks, each after those in its list, as they stand. `OutOfMemory` where there is no memory for them.
    pub(crate) fn new(
        alloc: Global,
        asks: &[Ask],
        befores: &[List<u32>],
        phases: Vec<Phase>,
    ) -> Result<Jobs, OutOfMemory>
        requires as_many { (length befores.now ≡ length asks.now) × (length phases.items ≡ length asks.now) }
        requires earlier { AreEarlier befores.now }
        ensures value { IfOk result (λ jobs. jobs ≡ roll asks.now befores.now phases.items) }
        ensures few { IfOk result (λ jobs. length jobs.phases ≤ none) }
    {
        let mut ready = Ready::new(alloc, asks)?;
        let behind = behind_of(alloc, befores)?;
        let befores = copy_lists(alloc, befores)?;
        let mut passed = none_passed(alloc, asks.len())?;
        let all = numbers(alloc, asks.len())?;
        settle_all(
            all.as_slice(),
            befores.as_slice(),
            phases.as_slice(),
            &mut passed,
            &mut ready,
        );
        Ok(Jobs {
            ready,
            befores,
            behind,
            passed,
            phases,
        })
    }

    /// How the jobs stand.
    pub(crate) fn phases(&self) -> &[Phase]
        ensures { result.now ≡ self.now.phases }
    {
        self.phases.as_slice()
    }

    /// What the job asks for.
    pub(crate) fn ask(&self, job: u32) -> Option<&Ask>
        ensures { option_map (λ a. a.now) result ≡ slice_get self.now.asks job }
    {
        self.ready.ask(job)
    }

    /// The first job that is ready and fits in the room.
    pub(crate) fn first(&self, room: &Room) -> Option<u32>
        ensures { IsBestReady self.now room.now result }
    {
        self.ready.first(room)
    }

    /// The job, which waits, runs.
    pub(crate) fn start(&mut self, job: u32)
        requires { stands is_waiting self.old.phases job ≡ true }
        ensures { self.new ≡ with_phases self.old (slice_set self.old.phases job running) }
    {
        self.phases[job as usize] = Phase::Running;
        self.ready.set(job, false);
    }

    /// The command of the job, which runs, has ended.
    pub(crate) fn end(&mut self, job: u32, good: bool)
        requires { stands is_running self.old.phases job ≡ true }
        ensures { self.new ≡ with_phases self.old (slice_set self.old.phases job (ending good)) }
    {
        if !good {
            self.phases[job as usize] = Phase::Failed;
            return;
        }
        self.phases[job as usize] = Phase::Done;
        settle_all(
            self.behind[job as usize].as_slice(),
            self.befores.as_slice(),
            self.phases.as_slice(),
            &mut self.passed,
            &mut self.ready,
        );
    }
}
