//! The job that begins next.

ghost use Rattle.std.specs.Prelude.{◌≡◌, ◌||◌, ℕ, Bool, true, not, None, zip, option_map, IfOk, IfSome};
ghost use Rattle.std.specs.List.{list_all, slice_get};
ghost use Rattle.smk_flow.specs.declared.job.Job.{Job as JobValue};
ghost use Rattle.smk_plan_states.specs.declared.ranks.Rank.{Rank as RankValue};
ghost use Rattle.smk_plan.specs.States.{test_some};
ghost use Rattle.smk_plan_states.specs.Ranks.{is_to_run_rank};
ghost use Rattle.smk_plan_live.specs.Lives.{IsLive};
ghost use Rattle.smk_plan_live.specs.Phases.{has_begun};
ghost use Rattle.smk_drive_pick.specs.declared.next.Ground.{Ground as GroundValue};
ghost use Rattle.smk_drive_pick.specs.Picking.{IsNextNow};
ghost use Rattle.smk_plan_live.specs.Limits.{is_within};
ghost use Rattle.smk_drive_pick.specs.Told.{IsTop, best_from, better, if_passes};
ghost use Rattle.smk_drive_pick.specs.Grounds.{IsGroundOf, is_free_by, is_full, lacks_by, may_begin_by};

use crate::asking::ask_of;
use crate::hands::Hands;
use crate::numbers::flag_at;
use smk_base::{List, OutOfMemory};
use smk_flow::Job;
use smk_pick::{Ask, Room};
use smk_plan_live::{LivePlan, Phase};
use smk_plan_states::{Line, Rank, is_to_run};
use std::alloc::Global;

// What is told of jobs, by their numbers.
#[derive(Drop)]
struct Ground<'l> {
    lines: &'l [Line],
    phases: &'l [Phase],
    hands: Hands<'l>,
    // From which jobs the children of others read.
    used: Vec<bool>,
}

// A job that may begin.
#[derive(Clone, Copy)]
struct Best {
    number: u32,
    priority: u64,
}

// What is told of the jobs of the plan.
fn ground_of(alloc: Global, live: &LivePlan) -> Result<Ground<'_>, OutOfMemory>
    ensures { IfOk result (λ told. IsGroundOf live.now told) }
{
    let table = live.table();
    let used = table.in_use(alloc, live.ran_from())?;
    let hands = Hands {
        origins: table.origins(),
        wholes: live.makers_whole(),
        ranks: live.ranks(),
    };
    Ok(Ground {
        lines: table.lines(),
        phases: live.phases(),
        hands,
        used,
    })
}

// Whether a job that has come so far has begun.
fn has_begun(phase: Phase) -> bool
    ensures { result ≡ has_begun phase }
{
    match phase {
        Phase::Waiting => false,
        Phase::Running => true,
        Phase::Closed => true,
    }
}

impl Ground<'_> {
    // Whether the job of the number has begun.
    fn has_begun(&self, number: usize) -> bool
        ensures { result ≡ test_some has_begun (slice_get self.now.phases.now number) }
    {
        match self.phases.get(number) {
            None => false,
            Some(phase) => has_begun(*phase),
        }
    }

    // Whether something that the job of the number needs isn't at hand.
    fn lacks_some(&self, number: usize) -> bool
        ensures { result ≡ lacks_by self.now number }
    {
        match self.lines.get(number) {
            None => false,
            Some(line) => self.hands.lacks_some(line),
        }
    }

    // Whether the job of the number, of this rank, is to run, hasn't begun, has all that it needs at hand, and no child reads what it makes.
    fn is_free(&self, number: usize, rank: Rank) -> bool
        ensures { result ≡ is_free_by self.now number rank }
    {
        is_to_run(rank)
            && !self.has_begun(number)
            && !self.lacks_some(number)
            && !flag_at(self.used.as_slice(), number)
    }

    // Whether the job of the number, of this rank, isn't to run or has begun.
    fn is_out(&self, number: usize, rank: Rank) -> bool
        ensures { result ≡ (not (is_to_run_rank rank) || test_some has_begun (slice_get self.now.phases.now number)) }
    {
        !is_to_run(rank) || self.has_begun(number)
    }

    // The job of the number, where it may begin in the room.
    fn if_free(
        &self,
        alloc: Global,
        room: &Room,
        number: usize,
        job: &Job,
        rank: Rank,
    ) -> Result<Option<Best>, OutOfMemory>
        ensures { IfOk result (λ found. found ≡ if_passes (may_begin_by self.now room.now number) number (job.now, rank)) }
    {
        if !self.is_free(number, rank) {
            return Ok(None);
        }
        let ask = ask_of(alloc, job)?;
        if !room.fits(&ask) {
            return Ok(None);
        }
        let Ok(number) = u32::try_from(number) else {
            return Err(OutOfMemory);
        };
        Ok(Some(Best {
            number,
            priority: job.priority,
        }))
    }

    // The best so far, or the job of the number in its place: what it needs and asks for is looked at only where it is to run and hasn't begun, its priority is greater,
    // and some room is left for it.
    fn or_better(
        &self,
        alloc: Global,
        room: &Room,
        number: usize,
        job: &Job,
        rank: Rank,
        best: Option<Best>,
    ) -> Result<Option<Best>, OutOfMemory>
        ensures { IfOk result (λ found. found ≡ better best (if_passes (may_begin_by self.now room.now number) number (job.now, rank))) }
    {
        if self.is_out(number, rank) {
            return Ok(best);
        }
        if is_passed_over(alloc, room, job, best) {
            return Ok(best);
        }
        let later = self.if_free(alloc, room, number, job, rank)?;
        Ok(better(best, later))
    }
}

// The later one, where its priority is greater.
fn better(best: Option<Best>, later: Option<Best>) -> Option<Best>
    ensures { result ≡ better best later }
{
    match (best, later) {
        (Some(best), Some(later)) => {
            if later.priority > best.priority {
                Some(later)
            } else {
                Some(best)
            }
        }
        (Some(best), None) => Some(best),
        (None, later) => later,
    }
}

// Whether the job is no better than the best so far, be it free or not.
fn is_no_better(job: &Job, best: Option<Best>) -> bool
    ensures { result ≡ true → (test : JobValue × RankValue → Bool) (number : ℕ) (rank : RankValue)
        → better best (if_passes test number (job.now, rank)) ≡ best }
{
    match best {
        None => false,
        Some(best) => !(job.priority > best.priority),
    }
}

// Whether the room has no place left for an ask of so many threads, even one of no amounts.
fn is_full(alloc: Global, room: &Room, threads: u64) -> bool
    ensures { result ≡ is_full room.now threads }
{
    let bare = Ask {
        threads,
        amounts: List::new(alloc),
        priority: 0,
    };
    !room.fits(&bare)
}

// Whether it is so of the fewest threads that a job asks for, if these are known: then it has no place left for any job.
fn is_full_for_all(alloc: Global, room: &Room, least: Option<u64>) -> bool
    ensures { result ≡ test_some (is_full room.now) least }
{
    match least {
        None => false,
        Some(threads) => is_full(alloc, room, threads),
    }
}

// Whether the best so far stays, be the job free or not.
fn is_passed_over(alloc: Global, room: &Room, job: &Job, best: Option<Best>) -> bool
    ensures { result ≡ true → (told : GroundValue) (number : ℕ) (rank : RankValue)
        → better best (if_passes (may_begin_by told room.now number) number (job.now, rank)) ≡ best }
{
    if is_no_better(job, best) {
        return true;
    }
    is_full(alloc, room, job.threads)
}

// The number of the job.
fn number_of(best: Option<Best>) -> Option<u32>
    ensures { result ≡ option_map (λ b. b.number) best }
{
    match best {
        None => None,
        Some(best) => Some(best.number),
    }
}

// Whether no job's priority is greater than that of the best so far: it is no less than this one, which none exceeds.
fn is_best(best: Option<Best>, top: Option<u64>) -> bool
    ensures { result ≡ true → IsTop best top }
{
    match (best, top) {
        (Some(best), Some(top)) => best.priority >= top,
        (Some(_), None) => false,
        (None, _) => false,
    }
}

// The first of those that may begin in the room and have the greatest priority; `top` is a priority that no job's exceeds, if one is known.
fn best_of(
    alloc: Global,
    told: &Ground<'_>,
    room: &Room,
    jobs: &[Job],
    top: Option<u64>,
) -> Result<Option<Best>, OutOfMemory>
    requires { IfSome top (λ top. list_all (is_within top) jobs.now ≡ true) }
    ensures { IfOk result (λ found. found ≡ best_from (may_begin_by told.now room.now) 0 None (zip jobs.now told.now.hands.ranks.now)) }
{
    let ranks = told.hands.ranks;
    let mut best = None;
    for (number, job) in jobs.iter().enumerate() {
        if is_best(best, top) {
            return Ok(best);
        }
        let Some(rank) = ranks.get(number) else {
            return Ok(best);
        };
        best = told.or_better(alloc, room, number, job, *rank, best)?;
    }
    Ok(best)
}

/// The job that begins next, by its number: the first, in plan order, of those with the greatest priority that may begin now. These
/// are the jobs that are to be run or restored and haven't begun, that have all that they need at hand, of which no child reads what
/// they make, and that fit into the room that is left. None where there is no such job. `OutOfMemory` where there is no memory to
/// tell, or where 32 bits can't tell the number.
///
/// In the room are the jobs whose child runs. The time is linear in the jobs with their inputs, by numbers: no path is looked up. Where the room has no place left
/// for as few threads as a job asks for, no job is looked at.
pub fn next_job(alloc: Global, live: &LivePlan, room: &Room) -> Result<Option<u32>, OutOfMemory>
    requires { IsLive live.now }
    ensures { IfOk result (IsNextNow live.now room.now) }
{
    let limits = live.limits();
    if is_full_for_all(alloc, room, limits.least) {
        return Ok(None);
    }
    let told = ground_of(alloc, live)?;
    let jobs = live.jobs().jobs.as_slice();
    let best = best_of(alloc, &told, room, jobs, limits.top)?;
    Ok(number_of(best))
}
