//! The table of states: how the paths of jobs and targets hang together, by numbers, and the states of the jobs by it.

ghost use Rattle.std.specs.Prelude.{◌≡◌, Bool, List as Items, length, map, option_map, slice_index_or, Some, None, false, [], IfOk};
ghost use Rattle.smk_world.specs.Trees.{Path};
ghost use Rattle.smk_chain.specs.declared.jobs.Jobs.{Jobs as JobsValue};
ghost use Rattle.smk_plan.specs.States.{is_read_now};
ghost use Rattle.smk_trigger.specs.declared.reason.Reason.{Reason as ReasonValue};
ghost use Rattle.smk_trigger.specs.declared.reason.State.{State as StateValue};
ghost use Rattle.smk_plan_states.specs.Judged.{Judging, AreStates, any_held_back, began, new_directories, targets_ready, with_states};
ghost use Rattle.smk_plan_states.specs.Ranks.{rank_of};
ghost use Rattle.smk_plan_states.specs.Rows.{AreRowsAt, FitOwn};
ghost use Rattle.smk_plan_states.specs.Served.{AreServed};
ghost use Rattle.smk_plan_states.specs.Standing.{FollowsBy, StandsBy, states_by};
ghost use Rattle.std.specs.List.{slice_get};
ghost use Rattle.smk_plan_states.specs.Stays.{AreWatched, Told, told_at, told_by};
ghost use Rattle.smk_plan_states.specs.Tables.{IsTableAt, IsTableOf};

use crate::awaits::{each_once, spot_paths, spots_in};
use crate::holding::any_held;
use crate::in_use::used_in;
use crate::lack::Lack;
use crate::lines::{Awaited, Line, Origin, Target};
use crate::making::{Wants, lines_of, origins_of, targets_of};
use crate::ranks::Rank;
use crate::ready::{new_in, ready_in};
use crate::reasons::{rank_or_open, state_with, states_of};
use crate::rows::Rows;
use crate::standing::{Last, Ranking, rank_after, rank_all};
use crate::watching::{watchers_at, watchers_of};
use crate::ways::{Ways, read_in, sources_in};
use smk_base::{List, OutOfMemory, PathText};
use smk_chain::Jobs;
use smk_chain::sets::set_of;
use smk_trigger::{Reason, State};
use std::alloc::Global;

/// How the paths of jobs and targets hang together, by numbers: made once for some jobs and targets, it answers each question of the states by what is lent of the
/// moment, without a look-up by path.
#[derive(Drop)]
pub struct Table {
    lines: List<Line>,
    origins: List<Origin>,
    targets: List<Target>,
    awaited: List<Awaited>,
    // For each job the numbers of those that read or gather from what it makes.
    watchers: Vec<List<usize>>,
}

// The line of the number.
fn line_at(lines: &[Line], number: usize) -> Option<&Line>
    ensures { option_map (λ l. l.now) result ≡ slice_get lines.now number }
{
    lines.get(number)
}

// The table of these parts, with those that watch each job.
fn watched(
    alloc: Global,
    lines: List<Line>,
    origins: List<Origin>,
    targets: List<Target>,
    awaited: List<Awaited>,
) -> Result<Table, OutOfMemory>
    ensures lines { IfOk result (λ table. table.lines ≡ lines) }
    ensures origins { IfOk result (λ table. table.origins ≡ origins) }
    ensures targets { IfOk result (λ table. table.targets ≡ targets) }
    ensures awaited { IfOk result (λ table. table.awaited ≡ awaited) }
    ensures watched { IfOk result (λ table. AreWatched table.lines table.origins table.watchers.items) }
{
    let watchers = watchers_of(alloc, &lines, &origins)?;
    Ok(Table {
        lines,
        origins,
        targets,
        awaited,
        watchers,
    })
}

impl Table {
    /// The table of these jobs and targets. `OutOfMemory` where there is no memory for it.
    ///
    /// The time is near linear in the jobs with their inputs and outputs, the makers and the targets.
    pub fn of(alloc: Global, jobs: &Jobs, targets: &List<PathText>) -> Result<Table, OutOfMemory>
        ensures { IfOk result (λ table. IsTableOf jobs.now targets.now table) }
    {
        let ways = Ways::of(alloc, jobs)?;
        let spots = spots_in(alloc, &ways, jobs.jobs.as_slice(), targets.as_slice())?;
        let wants = Wants {
            targets: set_of(alloc, targets.as_slice())?,
            awaited: spot_paths(alloc, spots.as_slice())?,
            read: read_in(alloc, jobs.jobs.as_slice())?,
        };
        let sources = sources_in(alloc, jobs.makers.as_slice())?;
        let lines = lines_of(alloc, &ways, &wants, jobs.jobs.as_slice())?;
        let origins = origins_of(alloc, &ways, jobs.makers.as_slice())?;
        let asked = targets_of(alloc, &ways, &sources, targets.as_slice())?;
        let awaited = each_once(alloc, spots.as_slice())?;
        let table = watched(alloc, lines, origins, asked, awaited)?;
        Ok(table)
    }

    /// A line for each job. It takes no memory.
    pub fn lines(&self) -> &[Line]
        ensures { result.now ≡ self.now.lines }
    {
        self.lines.as_slice()
    }

    /// What makes the path of each maker. It takes no memory.
    pub fn origins(&self) -> &[Origin]
        ensures { result.now ≡ self.now.origins }
    {
        self.origins.as_slice()
    }

    /// The targets. It takes no memory.
    pub fn targets(&self) -> &[Target]
        ensures { result.now ≡ self.now.targets }
    {
        self.targets.as_slice()
    }

    // The ranks after the step, or told anew where another one may change.
    fn rank_on(&self, alloc: Global, rows: &Rows<'_>, last: Last<'_>) -> Result<Ranking, Lack>
        ensures each { IfOk result (λ r. length r.last.items ≡ length self.now.lines) }
        ensures standing { IfOk result (λ r. (jobs : JobsValue) (targets : Items Path) → IsTableOf jobs targets self.now → AreServed jobs targets
            → (reasons : Items (Items ReasonValue)) (forced : Items Bool) → FitOwn rows.now.own.now reasons
            → FollowsBy self.now (Some last.entry) (told_by rows.now reasons forced) → StandsBy self.now (told_by rows.now reasons forced) r) }
        ensures ranks { IfOk result (λ r. (at : Judging) (jobs : JobsValue) → IsTableAt at jobs self.now → AreRowsAt at jobs rows.now
            → FollowsBy self.now (Some last.entry) (told_at at jobs rows.now) → (states : Items StateValue) → AreStates at jobs states → r.last.items ≡ map rank_of states) }
        ensures table { IfOk result (λ r. (at : Judging) (jobs : JobsValue) → IsTableAt at jobs self.now → AreRowsAt at jobs rows.now
            → FollowsBy self.now (Some last.entry) (told_at at jobs rows.now) → AreStates at jobs (states_by self.now (told_at at jobs rows.now) r)) }
    {
        let lines = self.lines.as_slice();
        let origins = self.origins.as_slice();
        let used = used_in(alloc, lines, origins, rows.running)?;
        let watchers = watchers_at(self.watchers.as_slice(), last.job);
        match rank_after(alloc, lines, origins, rows, used, watchers, last)? {
            Some(ranking) => Ok(ranking),
            None => self.rank_anew(alloc, rows),
        }
    }

    // The ranks, told anew of all jobs.
    fn rank_anew(&self, alloc: Global, rows: &Rows<'_>) -> Result<Ranking, Lack>
        ensures each { IfOk result (λ r. length r.last.items ≡ length self.now.lines) }
        ensures standing { IfOk result (λ r. (jobs : JobsValue) (targets : Items Path) → IsTableOf jobs targets self.now → AreServed jobs targets
            → (reasons : Items (Items ReasonValue)) (forced : Items Bool) → FitOwn rows.now.own.now reasons
            → StandsBy self.now (told_by rows.now reasons forced) r) }
        ensures ranks { IfOk result (λ r. (at : Judging) (jobs : JobsValue) → IsTableAt at jobs self.now → AreRowsAt at jobs rows.now
            → (states : Items StateValue) → AreStates at jobs states → r.last.items ≡ map rank_of states) }
        ensures table { IfOk result (λ r. (at : Judging) (jobs : JobsValue) → IsTableAt at jobs self.now → AreRowsAt at jobs rows.now
            → AreStates at jobs (states_by self.now (told_at at jobs rows.now) r)) }
    {
        let lines = self.lines.as_slice();
        let origins = self.origins.as_slice();
        let used = used_in(alloc, lines, origins, rows.running)?;
        let ranking = rank_all(alloc, lines, origins, rows, used)?;
        Ok(ranking)
    }

    /// The rank of each job, by the table of states, with what is kept for the next step. `Lack::Own` where one hangs on the reasons of a job of which nothing is known: a job
    /// above which one is Dirty is so whatever its reasons are. `Lack::Memory` where there is no memory for them.
    ///
    /// A job that began Dirty stays so while its child runs, and one that began as a Restore isn't Clean. A Restore counts as Clean while a child
    /// reads what it made. The time is linear in the jobs with their inputs and outputs. Where what was kept before a step of one job is given, and no other
    /// rank changes by it, only the flags of all jobs are gone over, and what the job, its readers and those that watch it have is looked at.
    pub fn rank(
        &self,
        alloc: Global,
        rows: &Rows<'_>,
        last: Option<Last<'_>>,
    ) -> Result<Ranking, Lack>
        ensures each { IfOk result (λ r. (jobs : JobsValue) (targets : Items Path) → IsTableOf jobs targets self.now → length r.last.items ≡ length jobs.jobs) }
        ensures standing { IfOk result (λ r. (jobs : JobsValue) (targets : Items Path) → IsTableOf jobs targets self.now → AreServed jobs targets
            → (reasons : Items (Items ReasonValue)) (forced : Items Bool) → FitOwn rows.now.own.now reasons
            → FollowsBy self.now last.entry (told_by rows.now reasons forced) → StandsBy self.now (told_by rows.now reasons forced) r) }
        ensures ranks { IfOk result (λ r. (at : Judging) (jobs : JobsValue) → IsTableAt at jobs self.now → AreRowsAt at jobs rows.now
            → FollowsBy self.now last.entry (told_at at jobs rows.now) → (states : Items StateValue) → AreStates at jobs states → r.last.items ≡ map rank_of states) }
        ensures table { IfOk result (λ r. (at : Judging) (jobs : JobsValue) → IsTableAt at jobs self.now → AreRowsAt at jobs rows.now
            → FollowsBy self.now last.entry (told_at at jobs rows.now) → AreStates at jobs (states_by self.now (told_at at jobs rows.now) r)) }
    {
        match last {
            None => self.rank_anew(alloc, rows),
            Some(last) => self.rank_on(alloc, rows, last),
        }
    }

    /// The states of the jobs by their ranks, where they have these reasons, Forced at the end of those that are forced. `OutOfMemory` where there is no memory for them.
    pub fn states(
        &self,
        alloc: Global,
        rows: &Rows<'_>,
        reasons: &[List<Reason>],
        forced: &[bool],
        ranking: &Ranking,
    ) -> Result<List<State>, OutOfMemory>
        ensures { IfOk result (λ states. states ≡ states_by self.now (told_by rows.now reasons.now forced.now) ranking.now) }
    {
        let states = states_of(
            alloc,
            self.lines.as_slice(),
            self.origins.as_slice(),
            rows,
            reasons,
            forced,
            ranking.ranks(),
        )?;
        Ok(states)
    }

    /// The state of the job of the number by the ranks, where its reasons are these, it is forced or not, and it had that state when it began, if its child runs.
    /// None where there is no such job. `OutOfMemory` where there is no memory for it.
    pub fn state_of(
        &self,
        alloc: Global,
        ranking: &Ranking,
        number: usize,
        own: &[Reason],
        forced: bool,
        begun: Option<&State>,
    ) -> Result<Option<State>, OutOfMemory>
        ensures { IfOk result (λ state. (rows : Told) → slice_index_or rows.reasons number [] ≡ own.now → slice_index_or rows.forced number false ≡ forced
            → slice_index_or rows.running number None ≡ option_map (λ s. s.now) begun.entry → state ≡ slice_get (states_by self.now rows ranking.now) number) }
    {
        let Some(line) = line_at(self.lines.as_slice(), number) else {
            return Ok(None);
        };
        let ranks = ranking.ranks();
        let rank = rank_or_open(ranks, number);
        let origins = self.origins.as_slice();
        let inputs = line.inputs.as_slice();
        let state = state_with(alloc, begun, rank, ranks, origins, inputs, own, forced)?;
        Ok(Some(state))
    }

    /// For each target whether it is ready by these ranks: a job makes it that is Clean, and it is whole. `OutOfMemory` where there is no
    /// memory for the answer.
    pub fn ready_targets(
        &self,
        alloc: Global,
        rows: &Rows<'_>,
        ranks: &[Rank],
    ) -> Result<List<bool>, OutOfMemory>
        ensures { IfOk result (λ ready. (at : Judging) (jobs : JobsValue) (states : Items StateValue) → IsTableAt at jobs self.now → AreRowsAt at jobs rows.now
            → ranks.now ≡ map rank_of states → length states ≡ length jobs.jobs → ready ≡ targets_ready at jobs states) }
    {
        let ready = ready_in(
            alloc,
            self.origins.as_slice(),
            rows,
            ranks,
            self.targets.as_slice(),
        )?;
        Ok(ready)
    }

    /// The awaited directories that are ready by these ranks and have no listing yet, each once, in the order in which they are awaited.
    /// `OutOfMemory` where there is no memory for them.
    pub fn newly_ready(
        &self,
        alloc: Global,
        rows: &Rows<'_>,
        ranks: &[Rank],
    ) -> Result<List<PathText>, OutOfMemory>
        ensures { IfOk result (λ found. (at : Judging) (jobs : JobsValue) (states : Items StateValue) → IsTableAt at jobs self.now → AreRowsAt at jobs rows.now
            → ranks.now ≡ map rank_of states → length states ≡ length jobs.jobs → found ≡ new_directories at jobs states) }
    {
        let found = new_in(
            alloc,
            self.origins.as_slice(),
            rows,
            ranks,
            self.awaited.as_slice(),
        )?;
        Ok(found)
    }

    /// For each job whether the child of another one reads what it made. `running` has for each job the state that it had when it began, if its child runs.
    /// `OutOfMemory` where there is no memory for the answer.
    pub fn in_use(&self, alloc: Global, running: &[Option<State>]) -> Result<Vec<bool>, OutOfMemory>
        ensures { IfOk result (λ used. (at : Judging) (jobs : JobsValue) → IsTableAt at jobs self.now → running.now ≡ began at jobs
            → used.items ≡ map (is_read_now at.image at.settings at.progress (with_states jobs [])) jobs.jobs) }
    {
        let used = used_in(
            alloc,
            self.lines.as_slice(),
            self.origins.as_slice(),
            running,
        )?;
        Ok(used)
    }

    /// Whether some job is to be restored but counts as Clean, since a child reads what it made: the child of another job, and its own
    /// doesn't run. `ranking` is that of the table. `OutOfMemory` where there is no memory to tell.
    pub fn holds_back(
        &self,
        alloc: Global,
        rows: &Rows<'_>,
        ranking: &Ranking,
    ) -> Result<bool, OutOfMemory>
        ensures { IfOk result (λ held. (at : Judging) (jobs : JobsValue) (states : Items StateValue) → IsTableAt at jobs self.now → AreRowsAt at jobs rows.now
            → StandsBy self.now (told_at at jobs rows.now) ranking.now → AreStates at jobs states → ranking.now.last.items ≡ map rank_of states → held ≡ any_held_back at jobs states) }
    {
        if !ranking.lacking {
            return Ok(false);
        }
        let lines = self.lines.as_slice();
        let origins = self.origins.as_slice();
        let held = any_held(alloc, lines, origins, rows, ranking.used(), ranking.ranks())?;
        Ok(held)
    }
}
