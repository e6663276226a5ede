//! A plan that is kept, and what it tells.

ghost use Rattle.std.specs.Prelude.{◌≡◌, map, option_map, slice_index_or, true, false, None, [], IfOk};
ghost use Rattle.smk_plan_states.specs.Ranks.{rank_of};
ghost use Rattle.std.specs.List.{list_all, slice_get};
ghost use Rattle.smk_store.specs.Images.{Image};
ghost use Rattle.smk_plan_states.specs.Judged.{any_held_back};
ghost use Rattle.smk_plan_table.specs.Plans.{HasMadeAt};

use crate::Phase;
use crate::base::Base;
use crate::flags::Flags;
use crate::learning::{all_own, facts_at, is_forced};
use crate::limits::Limits;
use crate::now::{entry_now, sight_now, site_of};
use smk_base::{List, OutOfMemory, PathText};
use smk_chain::{Jobs, Listings};
use smk_pick::Settings;
use smk_plan::Sight;
use smk_plan_states::{Rank, Ranking, Rows, Table};
use smk_store::Entry;
use smk_trigger::{JobFacts, Reason, State, reasons};
use std::alloc::Global;
use std::marker::Model;

/// A plan that is kept while jobs begin and are closed and new ones come, with what each of its jobs is judged by and what the judge said of it.
#[derive(Drop)]
pub struct LivePlan {
    pub(crate) base: Base,
    pub(crate) settings: Settings,
    /// The ranks of the jobs, of which their states come, with what is kept of them for the next step.
    pub(crate) ranking: Ranking,
    /// For each target whether it is current.
    pub(crate) current: List<bool>,
    /// The listings that have become known.
    pub(crate) known: Listings,
    /// Whether some job is to be restored but counts as Clean.
    pub(crate) held: bool,
    /// How the paths of the jobs and targets hang together.
    pub(crate) table: Table,
    pub(crate) flags: Flags,
    /// For each job the numbers of those that read at or under one of its outputs, rising.
    pub(crate) readers: Vec<List<usize>>,
    /// Whether all jobs are seen to have commands.
    pub(crate) commanded: bool,
    /// What no job goes beyond, and whether one has a temporary output.
    pub(crate) limits: Limits,
}

impl Model for LivePlan {
    ghost use Rattle.std.specs.Coded.{codes};
    ghost use Rattle.smk_plan_live.specs.contracts.base.Base as row;
    ghost use Rattle.smk_plan_live.specs.Live.{LivePlan, seen_as};

    ghost Value = { LivePlan };

    ghost coded = { Prim.hlevel (codes, row.the_row.coded) };

    ghost view = { λ r. seen_as r.base r.settings r.ranking r.current r.known r.held r.table r.flags r.readers r.commanded r.limits };
}

// The state that the job of the number had when it began, if its child runs.
fn began_at(began: &[Option<State>], number: usize) -> Option<&State>
    ensures { option_map (λ s. s.now) result ≡ slice_index_or began.now number None }
{
    match began.get(number) {
        None => None,
        Some(state) => state.as_ref(),
    }
}

impl LivePlan {
    ghost use Rattle.smk_plan_live.specs.Kept.{facts_kept, facts_now, own_by};
    ghost use Rattle.smk_plan_live.specs.Lives.{IsLive, IsAgreed, AreMakersWhole, judging_of};
    ghost use Rattle.smk_plan_states.specs.Tables.{IsTableOf};
    ghost use Rattle.smk_plan_states.specs.Served.{AreServed};
    ghost use Rattle.smk_plan_live.specs.Now.{output_entry, sight_now};
    ghost use Rattle.smk_plan_live.specs.Commands.{has_command};
    ghost use Rattle.smk_plan_live.specs.Limits.{AreLimits};

    /// The rank of each job: what its state is, but for its reasons. It takes no memory.
    pub fn ranks(&self) -> &[Rank]
        ensures value { result.now ≡ self.now.ranking.last.items }
        ensures now { IsLive self.now → (image : Image) → IsAgreed image self.now.settings self.now.base → result.now ≡ map rank_of self.now.plan.states }
    {
        self.ranking.ranks()
    }

    /// For each target whether it is current. It takes no memory.
    pub fn current(&self) -> &List<bool>
        ensures value { result.now ≡ self.now.plan.current }
        ensures now { IsLive self.now → (image : Image) → IsAgreed image self.now.settings self.now.base
            → HasMadeAt (judging_of image self.now.settings self.now.base) self.now.base.jobs self.now.plan }
    {
        &self.current
    }

    /// The listings that have become known. It takes no memory.
    pub fn known(&self) -> &Listings
        ensures { result.now ≡ self.now.plan.known }
    {
        &self.known
    }

    /// What the job is judged by now. None where there is no job of this number. `OutOfMemory` where there is no memory for it.
    pub fn facts(&self, alloc: Global, job: u32) -> Result<Option<JobFacts>, OutOfMemory>
        ensures value { IfOk result (λ facts. facts ≡ facts_kept self.now.base self.now.flags.forced job) }
        ensures now { IfOk result (λ facts. IsLive self.now → AreServed self.now.base.jobs self.now.settings.targets
            → facts ≡ slice_get (facts_now self.now.settings self.now.base) job) }
    {
        let forced = self.flags.forced.as_slice();
        let facts = facts_at(alloc, &self.base, forced, job as usize)?;
        Ok(facts)
    }

    // The reasons of the job of the number, but for the inputs whose job is Dirty; none where there is no such job.
    fn own_at(&self, alloc: Global, job: u32) -> Result<List<Reason>, OutOfMemory>
        ensures { IfOk result (λ own. own ≡ slice_index_or (own_by self.now.base self.now.base.jobs.jobs self.now.flags.forced) job []) }
    {
        match self.facts(alloc, job)? {
            None => Ok(List::new(alloc)),
            Some(facts) => {
                let own = reasons(alloc, &facts)?;
                Ok(own)
            }
        }
    }

    /// The state of the job now. None where there is no job of this number. `OutOfMemory` where there is no memory for it.
    pub fn state(&self, alloc: Global, job: u32) -> Result<Option<State>, OutOfMemory>
        ensures { IfOk result (λ state. state ≡ slice_get self.now.plan.states job) }
    {
        let number = job as usize;
        let own = self.own_at(alloc, job)?;
        let forced = is_forced(self.flags.forced.as_slice(), number);
        let begun = began_at(self.base.began.as_slice(), number);
        let state = self.table.state_of(
            alloc,
            &self.ranking,
            number,
            own.as_slice(),
            forced,
            begun,
        )?;
        Ok(state)
    }

    /// The states of all jobs now. `OutOfMemory` where there is no memory for them.
    pub fn states(&self, alloc: Global) -> Result<List<State>, OutOfMemory>
        ensures { IfOk result (λ states. states ≡ self.now.plan.states) }
    {
        let forced = self.flags.forced.as_slice();
        let jobs = self.base.jobs.jobs.as_slice();
        let own = all_own(alloc, &self.base, jobs, forced)?;
        let rows = Rows {
            outputs: self.flags.outputs.as_slice(),
            makers: self.flags.makers.as_slice(),
            own: self.flags.own.as_slice(),
            running: self.base.began.as_slice(),
        };
        let states = self
            .table
            .states(alloc, &rows, own.as_slice(), forced, &self.ranking)?;
        Ok(states)
    }

    /// The jobs. It takes no memory.
    pub fn jobs(&self) -> &Jobs
        ensures { result.now ≡ self.now.base.jobs }
    {
        &self.base.jobs
    }

    /// What is known and was seen of paths now, as it is told to those who judge the jobs. It takes no memory.
    pub fn told(&self) -> &Base
        ensures { result.now ≡ self.now.base }
    {
        &self.base
    }

    /// How far each job has come, in plan order. It takes no memory.
    pub fn phases(&self) -> &[Phase]
        ensures { result.now ≡ self.now.base.phases }
    {
        self.base.phases.as_slice()
    }

    /// For each job, in plan order, the state that it had when it began, if its child runs. It takes no memory.
    pub fn ran_from(&self) -> &[Option<State>]
        ensures { result.now ≡ self.now.base.began }
    {
        self.base.began.as_slice()
    }

    /// What is asked of the run. It takes no memory.
    pub fn settings(&self) -> &Settings
        ensures { result.now ≡ self.now.settings }
    {
        &self.settings
    }

    /// How far the job has come. None where there is no job of this number. It takes no memory.
    pub fn phase(&self, job: u32) -> Option<Phase>
        ensures { result ≡ slice_get self.now.base.phases job }
    {
        self.base.phases.as_slice().get(job as usize).copied()
    }

    /// Whether some job is to be restored but counts as Clean, since a child reads what it made. It takes no memory.
    pub fn holds_back(&self) -> bool
        ensures value { result ≡ self.now.held }
        ensures now { IsLive self.now → (image : Image) → IsAgreed image self.now.settings self.now.base
            → result ≡ any_held_back (judging_of image self.now.settings self.now.base) self.now.base.jobs self.now.plan.states }
    {
        self.held
    }

    /// How the paths of the jobs and targets hang together, by numbers. It takes no memory.
    pub fn table(&self) -> &Table
        ensures value { result.now ≡ self.now.table }
        ensures now { IsLive self.now → IsTableOf self.now.base.jobs self.now.settings.targets result.now }
    {
        &self.table
    }

    /// For each maker of the jobs, in their order, whether its path is whole now: as an output of the job that is told to make it, or as a file of its directory.
    /// It takes no memory.
    pub fn makers_whole(&self) -> &[bool]
        ensures value { result.now ≡ self.now.flags.makers }
        ensures now { IsLive self.now → AreServed self.now.base.jobs self.now.settings.targets
            → AreMakersWhole self.now.base result.now }
    {
        self.flags.makers.as_slice()
    }

    /// Whether all jobs are seen to have commands, however many of them are to run: then nothing will be refused of a command until new jobs come. It takes
    /// no memory.
    pub fn has_commands(&self) -> bool
        ensures value { result ≡ self.now.commanded }
        ensures now { IsLive self.now → result ≡ true → list_all (has_command self.now.settings.cores) self.now.base.jobs.jobs ≡ true }
    {
        self.commanded
    }

    /// What no job goes beyond: a priority that none exceeds and a number of threads that none asks less than, if such are seen; and whether one of them has a
    /// temporary output. It takes no memory.
    pub fn limits(&self) -> Limits
        ensures value { result ≡ self.now.limits }
        ensures now { IsLive self.now → AreLimits result self.now.base.jobs.jobs }
    {
        self.limits
    }

    /// What is known of an output of the jobs: what the last closing of its job gave, or else what the store of the call that brought the job has. None where the
    /// path is no output, or nothing is known of it. It takes no memory.
    pub fn entry(&self, path: &PathText) -> Option<&Entry>
        ensures { option_map (λ e. e.now) result ≡ output_entry self.now.base path.now }
    {
        match site_of(&self.base, path) {
            None => None,
            Some(_) => entry_now(&self.base, path),
        }
    }

    /// What was seen last at the path. None where nothing was looked at there. It takes no memory.
    pub fn sight(&self, path: &PathText) -> Option<&Sight>
        ensures { option_map (λ s. s.now) result ≡ sight_now self.now.base path.now }
    {
        sight_now(&self.base, path)
    }
}
