//! What is new as a job begins or is closed, and how it is put in.

ghost use Rattle.std.specs.Prelude.{◌≡◌, ◌≢◌, ◌<◌, map, length, slice_set, Some, IfOk, IfErr, OnOk, OnErr};
ghost use Rattle.std.specs.List.{slice_get};
ghost use Rattle.smk_plan_states.specs.Tables.{IsTableOf};
ghost use Rattle.smk_plan_live.specs.Live.{plan_kept};
ghost use Rattle.smk_plan_live.specs.Lives.{AreRanked, IsLive, IsNow, IsRefusedNow};
ghost use Rattle.smk_plan_states.specs.Rows.{FitOwn};
ghost use Rattle.smk_plan_live.specs.Kept.{own_now};
ghost use Rattle.smk_plan_live.specs.Learning.{forgotten};
ghost use Rattle.smk_plan_live.specs.Making.{AreMadeBy};
ghost use Rattle.smk_plan_states.specs.Served.{AreServed};
ghost use Rattle.smk_plan_live.specs.Steps.{IsAhead, IsChangeOf, IsLast, IsNext, StandsNext, plan_next, readers_at};

use crate::LivePlan;
use crate::learning::forget;
use crate::making::makers_at;
use crate::slots::{Slots, put_at};
use crate::telling::{Made, tell};
use smk_base::{List, OutOfMemory};
use smk_flow::Job;
use smk_plan::PlanFault;
use smk_plan_facts::{makers_again, outputs_told};
use smk_plan_states::{Last, Own};
use smk_plan_table::{Ranked, Suspect, suspect_of};
use smk_trigger::Judge;
use std::alloc::Global;

/// What is told anew once what is known and seen has changed at the outputs of one job.
#[derive(Drop)]
pub(crate) struct Change {
    /// The number of the job.
    pub(crate) number: usize,
    /// For each of its outputs whether it is whole.
    pub(crate) outputs: List<bool>,
    /// For each maker of the jobs whether its path is whole.
    pub(crate) makers: Slots<bool>,
    /// For each job what may be refused of it.
    pub(crate) suspects: Vec<Suspect>,
    /// For each job whether it is forced.
    pub(crate) forced: Vec<bool>,
}

/// The same, and the plan with it, by ranks, and for each job whether it has reasons of its own, so far as that is known.
#[derive(Drop)]
pub(crate) struct Next {
    pub(crate) change: Change,
    pub(crate) own: Vec<Own>,
    pub(crate) ranked: Ranked,
    pub(crate) held: bool,
}

// The job of the number.
fn job_at(jobs: &[Job], number: usize) -> &Job
    requires { number < length jobs.now }
    ensures { slice_get jobs.now number ≡ Some result.now }
{
    &jobs[number]
}

// The numbers of the readers of the job of the number.
fn readers_at(readers: &[List<usize>], number: usize) -> &[usize]
    ensures { result.now ≡ readers_at readers.now number }
{
    match readers.get(number) {
        None => &[],
        Some(row) => row.as_slice(),
    }
}

// What may be refused of the jobs, where this may be of the job of the number.
fn suspects_but(
    alloc: Global,
    suspects: &[Suspect],
    number: usize,
    suspect: Suspect,
) -> Result<Vec<Suspect>, OutOfMemory>
    ensures { IfOk result (λ found. found.items ≡ slice_set suspects.now number suspect) }
{
    let mut found = Vec::from_slice(alloc, suspects)?;
    put_at(&mut found, number, suspect);
    Ok(found)
}

// Which jobs are forced, where the job of the number is or isn't.
fn forced_but(
    alloc: Global,
    flags: &[bool],
    number: usize,
    forced: bool,
) -> Result<Vec<bool>, OutOfMemory>
    ensures { IfOk result (λ found. found.items ≡ slice_set flags.now number forced) }
{
    let mut found = Vec::from_slice(alloc, flags)?;
    put_at(&mut found, number, forced);
    Ok(found)
}

impl LivePlan {
    // What is told anew of the job of the number, which is forced or not.
    fn change_of(&self, alloc: Global, number: usize, forced: bool) -> Result<Change, OutOfMemory>
        requires within { number < length self.now.base.jobs.jobs }
        requires made { AreMadeBy self.now.base.jobs.jobs self.now.base.jobs.makers self.now.flags.made }
        ensures { IfOk result (IsChangeOf self.now number forced) }
    {
        let base = &self.base;
        let jobs = base.jobs.jobs.as_slice();
        let job = job_at(jobs, number);
        let outputs = outputs_told(alloc, base, job)?;
        let told = base.jobs.makers.as_slice();
        let made = self.flags.made.as_slice();
        let numbers = makers_at(made, number);
        let flags = self.flags.makers.as_slice();
        let makers = makers_again(alloc, base, number, job, told, numbers, flags)?;
        let suspect = suspect_of(base, &self.settings.bounds, job);
        let before = self.flags.suspects.as_slice();
        let suspects = suspects_but(alloc, before, number, suspect)?;
        let forced = forced_but(alloc, self.flags.forced.as_slice(), number, forced)?;
        Ok(Change {
            number,
            outputs,
            makers: Slots::of(makers),
            suspects,
            forced,
        })
    }

    // What was kept before the step of the job of the number.
    fn last(&self, number: usize) -> Last<'_>
        ensures { IsLast self.now number result }
    {
        let rows = self.readers.as_slice();
        Last {
            ranking: &self.ranking,
            job: number,
            readers: readers_at(rows, number),
        }
    }

    // The plan with what is told anew of the job of the number, which is forced or not, and which jobs have reasons of their own then, so far as that is known. Meanwhile the
    // outputs that are told anew stand in the place of those that are kept.
    fn tell_changed<J: Judge>(
        &mut self,
        alloc: Global,
        number: usize,
        forced: bool,
        change: &mut Change,
        own: &mut Vec<Own>,
        judge: &J,
    ) -> Result<Made, PlanFault>
        requires table { IsTableOf self.old.base.jobs self.old.settings.targets self.old.table }
        requires ahead { IsAhead self.old number forced }
        requires change { IsChangeOf self.old number forced change.old }
        requires own { own.old.items ≡ forgotten (slice_set self.old.flags.own number Own.Unknown) (readers_at self.old.readers.items number) }
        ensures same { (self.new ≡ self.old) × (change.new ≡ change.old) }
        ensures own { AreServed self.old.base.jobs self.old.settings.targets → FitOwn own.new.items (own_now self.old.settings self.old.base) }
        ensures targets { IfOk result (λ made. length made.ranked.current ≡ length self.old.settings.targets) }
        ensures now { IfOk result (λ made. IsNow self.old.settings self.old.base (plan_next self.old change.old made.ranked) made.held) }
        ensures standing { IfOk result (λ made. AreServed self.old.base.jobs self.old.settings.targets → StandsNext self.old change.old made.ranked.ranking) }
        ensures ranked { IfOk result (λ made. AreRanked self.old.settings self.old.base made.ranked.ranking (plan_next self.old change.old made.ranked)) }
        ensures refused { IfErr result (λ fault. fault ≢ PlanFault.OutOfMemory → IsRefusedNow self.old.settings self.old.base fault) }
    {
        self.flags.outputs.exchange(number, &mut change.outputs);
        let last = self.last(number);
        let readers = last.readers;
        let outputs = self.flags.outputs.as_slice();
        let makers = change.makers.as_slice();
        let forces = change.forced.as_slice();
        let suspects = change.suspects.as_slice();
        let made = tell(
            alloc,
            &self.base,
            &self.settings,
            &self.table,
            outputs,
            makers,
            forces,
            own,
            suspects,
            Some(last),
            readers,
            judge,
        );
        self.flags.outputs.exchange(number, &mut change.outputs);
        made
    }

    // What is new with what is told anew of the job of the number, which is forced or not.
    fn next_by<J: Judge>(
        &mut self,
        alloc: Global,
        number: usize,
        forced: bool,
        change: Change,
        own: Vec<Own>,
        judge: &J,
    ) -> Result<Next, PlanFault>
        requires table { IsTableOf self.old.base.jobs self.old.settings.targets self.old.table }
        requires ahead { IsAhead self.old number forced }
        requires change { IsChangeOf self.old number forced change }
        requires own { own.items ≡ forgotten (slice_set self.old.flags.own number Own.Unknown) (readers_at self.old.readers.items number) }
        ensures same { self.new ≡ self.old }
        ensures next { IfOk result (IsNext self.old number forced) }
        ensures refused { IfErr result (λ fault. fault ≢ PlanFault.OutOfMemory → IsRefusedNow self.old.settings self.old.base fault) }
    {
        let mut change = change;
        let mut own = own;
        match self.tell_changed(alloc, number, forced, &mut change, &mut own, judge) {
            Err(fault) => Err(fault),
            Ok(made) => Ok(Next {
                change,
                own,
                ranked: made.ranked,
                held: made.held,
            }),
        }
    }

    // The flags of reasons, once nothing is known any more of the job of the number and of its readers.
    fn forgetting(&self, alloc: Global, number: usize) -> Result<Vec<Own>, OutOfMemory>
        ensures { IfOk result (λ own. own.items ≡ forgotten (slice_set self.now.flags.own number Own.Unknown) (readers_at self.now.readers.items number)) }
    {
        let rows = self.readers.as_slice();
        let readers = readers_at(rows, number);
        forget(alloc, self.flags.own.as_slice(), number, readers)
    }

    // What is new once the base has changed at the outputs of the job of the number, which is forced or not. The judge is asked about those of the job and of its readers on
    // whose reasons something hangs.
    fn next_of<J: Judge>(
        &mut self,
        alloc: Global,
        number: usize,
        forced: bool,
        judge: &J,
    ) -> Result<Next, PlanFault>
        requires within { number < length self.old.base.jobs.jobs }
        requires made { AreMadeBy self.old.base.jobs.jobs self.old.base.jobs.makers self.old.flags.made }
        requires table { IsTableOf self.old.base.jobs self.old.settings.targets self.old.table }
        requires ahead { IsAhead self.old number forced }
        ensures same { self.new ≡ self.old }
        ensures next { IfOk result (IsNext self.old number forced) }
        ensures refused { IfErr result (λ fault. fault ≢ PlanFault.OutOfMemory → IsRefusedNow self.old.settings self.old.base fault) }
    {
        match self.change_of(alloc, number, forced) {
            Err(_) => Err(PlanFault::OutOfMemory),
            Ok(change) => match self.forgetting(alloc, number) {
                Err(_) => Err(PlanFault::OutOfMemory),
                Ok(own) => self.next_by(alloc, number, forced, change, own, judge),
            },
        }
    }

    // Puts in what is new.
    fn install(&mut self, next: Next)
        ensures base { (self.new.base ≡ self.old.base) × (self.new.settings ≡ self.old.settings) }
        ensures plan { self.new.plan ≡ plan_kept self.new.base self.new.ranking next.ranked.current next.ranked.known self.new.table self.new.flags }
        ensures ranks { (self.new.ranking ≡ next.ranked.ranking) × (self.new.held ≡ next.held) }
        ensures outputs { self.new.flags.outputs ≡ slice_set self.old.flags.outputs next.change.number next.change.outputs }
        ensures makers { self.new.flags.makers ≡ next.change.makers }
        ensures suspects { self.new.flags.suspects ≡ next.change.suspects.items }
        ensures made { self.new.flags.made ≡ self.old.flags.made }
        ensures reasons { (self.new.flags.own ≡ next.own.items) × (self.new.flags.forced ≡ next.change.forced.items) }
        ensures paths { (self.new.table ≡ self.old.table) × (self.new.readers ≡ self.old.readers) }
        ensures commands { (self.new.commanded ≡ self.old.commanded) × (self.new.limits ≡ self.old.limits) }
    {
        let Next {
            change,
            own,
            ranked,
            held,
        } = next;
        let Ranked {
            ranking,
            current,
            known,
        } = ranked;
        let Change {
            number,
            outputs,
            makers,
            suspects,
            forced,
        } = change;
        self.flags.outputs.put(number, outputs);
        self.flags.makers = makers;
        self.flags.suspects = Slots::of(suspects);
        self.flags.own = Slots::of(own);
        self.flags.forced = Slots::of(forced);
        self.ranking = ranking;
        self.current = current;
        self.known = known;
        self.held = held;
    }

    /// The base has changed at the outputs of the job of the number, which is forced or not from now on; all else is told anew by it. The judge is asked about those of the job
    /// and of its readers on whose reasons something hangs: a job above which one is Dirty is so whatever its own reasons are.
    ///
    /// The faults are those of a plan of this moment; after any of them nothing is changed.
    pub(crate) fn settle<J: Judge>(
        &mut self,
        alloc: Global,
        number: usize,
        forced: bool,
        judge: &J,
    ) -> Result<(), PlanFault>
        requires within { number < length self.old.base.jobs.jobs }
        requires ahead { IsAhead self.old number forced }
        ensures live { OnOk result (IsLive self.new) }
        ensures ok { OnOk result ((self.new.settings ≡ self.old.settings) × (self.new.base ≡ self.old.base)) }
        ensures err { OnErr result (self.new ≡ self.old) }
        ensures refused { IfErr result (λ fault. fault ≢ PlanFault.OutOfMemory → IsRefusedNow self.old.settings self.old.base fault) }
    {
        match self.next_of(alloc, number, forced, judge) {
            Err(fault) => Err(fault),
            Ok(next) => {
                self.install(next);
                Ok(())
            }
        }
    }
}
