//! A plan of derived jobs.

ghost use Rattle.std.specs.Prelude.{◌≡◌, ◌≢◌, List as Items, length, map, IfOk, IfErr};
ghost use Rattle.smk_world.specs.Trees.{Path};
ghost use Rattle.smk_store.specs.Images.{Image};
ghost use Rattle.smk_chain.specs.declared.jobs.Jobs.{Jobs as JobsValue};
ghost use Rattle.smk_plan_states.specs.Judged.{AreStates};
ghost use Rattle.smk_plan_states.specs.Rows.{AreRowsAt, own_of};
ghost use Rattle.smk_trigger.specs.declared.reason.State.{State as StateValue};
ghost use Rattle.smk_plan_states.specs.Ranks.{rank_of};
ghost use Rattle.smk_plan_states.specs.Stays.{told_by};
ghost use Rattle.smk_plan_states.specs.Tables.{IsTableAt, IsTableOf};
ghost use Rattle.smk_plan_table.specs.Bases.{IsBasisAt};
ghost use Rattle.smk_plan_table.specs.Plans.{Agree, HasMade, HasMadeAt, IsGiven, IsRefused, IsRefusedAt, WhereAgreed, listings_known, targets_current, plan_by};

use crate::current::current;
use crate::judging::{Basis, judge};
use crate::listings::listings_of;
use crate::refusing::first_refusal;
use crate::suspects::Suspect;
use smk_base::{List, OutOfMemory, PathText};
use smk_chain::{Jobs, Listings};
use smk_pick::Settings;
use smk_plan::{Loaded, Plan, PlanFault, Seen, Told};
use smk_plan_states::{Own, Ranking, Rows, Table, own_flags};
use smk_store::Store;
use smk_trigger::Reason;
use std::alloc::Global;
use std::thread::Threads;

/// A plan by ranks: which targets are current, and the listings that have become known, with the ranks of the jobs in the place of their states.
#[derive(Drop)]
pub struct Ranked {
    pub ranking: Ranking,
    pub current: List<bool>,
    pub known: Listings,
}

// What a plan tells of jobs of these ranks.
fn tell<T: Told>(
    alloc: Global,
    table: &Table,
    told: &T,
    settings: &Settings,
    rows: &Rows<'_>,
    ranking: Ranking,
) -> Result<Ranked, OutOfMemory>
    ensures targets { IfOk result (λ made. length made.current ≡ length settings.now.targets) }
    ensures ranking { IfOk result (λ made. made.ranking ≡ ranking) }
    ensures current { IfOk result (λ made. (jobs : JobsValue) → WhereAgreed jobs (T.known told.now) (T.seen told.now) settings.now
        (λ at. IsTableAt at jobs table.now → AreRowsAt at jobs rows.now → (states : Items StateValue) → ranking.last.items ≡ map rank_of states → length states ≡ length jobs.jobs
        → made.current ≡ targets_current at jobs states)) }
    ensures known { IfOk result (λ made. (jobs : JobsValue) → WhereAgreed jobs (T.known told.now) (T.seen told.now) settings.now
        (λ at. IsTableAt at jobs table.now → AreRowsAt at jobs rows.now → (states : Items StateValue) → ranking.last.items ≡ map rank_of states → length states ≡ length jobs.jobs
        → made.known ≡ listings_known at jobs states)) }
{
    let ready = table.ready_targets(alloc, rows, ranking.ranks())?;
    let folders = table.newly_ready(alloc, rows, ranking.ranks())?;
    let are_current = current(
        alloc,
        told,
        settings.targets.as_slice(),
        table.targets(),
        ready.as_slice(),
    )?;
    let known = listings_of(alloc, told, folders.as_slice())?;
    Ok(Ranked {
        ranking,
        current: are_current,
        known,
    })
}

/// The plan of these jobs at any moment, by their table, the rows of the moment, their ranks and what is told of paths then: which targets are current, and the
/// listings that have become known besides those with which the jobs were derived. `begun` tells for each job whether it has begun in this run, and `suspects`
/// what may be refused of it. The states of the jobs are those by their ranks (`states` of a table).
///
/// What is told, and what the rows and the makers of the jobs say, is so in one image of the folder.
///
/// The fault is the first thing that is refused: all marked outputs of jobs whose child doesn't run, unless incomplete jobs are to be run again; the first
/// read-only file in the way of a job that is to run and hasn't begun; the first such job that asks more of a resource than its bound, with the first such
/// bound. `OutOfMemory` where there is no memory for the plan, or where the last of these can't be told: no number of 64 bits tells how much is asked, or the
/// job has no output to be named by.
///
/// The time is linear in the jobs with their inputs and outputs, by numbers; paths are looked up only of targets that are sources and of directories that have
/// become ready, and of the outputs of jobs where something is suspected.
pub fn plan_now<T: Told>(
    alloc: Global,
    jobs: &Jobs,
    table: &Table,
    told: &T,
    settings: &Settings,
    rows: &Rows<'_>,
    begun: &[bool],
    suspects: &[Suspect],
    ranking: Ranking,
) -> Result<Ranked, PlanFault>
    requires table { IsTableOf jobs.now settings.now.targets table.now }
    requires each { length ranking.last.items ≡ length jobs.now.jobs }
    ensures targets { IfOk result (λ made. length made.current ≡ length settings.now.targets) }
    ensures ranking { IfOk result (λ made. made.ranking ≡ ranking) }
    ensures made { IfOk result (λ made. WhereAgreed jobs.now (T.known told.now) (T.seen told.now) settings.now
        (λ at. IsGiven at jobs.now (T.known told.now) (T.seen told.now) rows.now begun.now suspects.now → (states : Items StateValue) → AreStates at jobs.now states
        → ranking.last.items ≡ map rank_of states → HasMadeAt at jobs.now (record { states = states; current = made.current; known = made.known }))) }
    ensures refused { IfErr result (λ fault. fault ≢ PlanFault.OutOfMemory → WhereAgreed jobs.now (T.known told.now) (T.seen told.now) settings.now
        (λ at. IsGiven at jobs.now (T.known told.now) (T.seen told.now) rows.now begun.now suspects.now → (states : Items StateValue) → AreStates at jobs.now states
        → ranking.last.items ≡ map rank_of states → IsRefusedAt at jobs.now fault)) }
{
    match first_refusal(
        alloc,
        jobs.jobs.as_slice(),
        rows.running,
        ranking.ranks(),
        told,
        settings,
        begun,
        suspects,
    ) {
        Err(_) => Err(PlanFault::OutOfMemory),
        Ok(Some(fault)) => Err(fault),
        Ok(None) => match tell(alloc, table, told, settings, rows, ranking) {
            Err(_) => Err(PlanFault::OutOfMemory),
            Ok(made) => Ok(made),
        },
    }
}

// The plan with the states of the jobs.
fn spell(
    alloc: Global,
    table: &Table,
    rows: &Rows<'_>,
    reasons: &[List<Reason>],
    forced: &[bool],
    made: Ranked,
) -> Result<Plan, PlanFault>
    ensures ok { IfOk result (λ plan. plan ≡ plan_by table.now (told_by rows.now reasons.now forced.now) made) }
    ensures each { IfOk result (λ plan. (jobs : JobsValue) (targets : Items Path) → IsTableOf jobs targets table.now → length plan.states ≡ length jobs.jobs) }
    ensures err { IfErr result (λ fault. fault ≡ PlanFault.OutOfMemory) }
{
    match table.states(alloc, rows, reasons, forced, &made.ranking) {
        Err(_) => Err(PlanFault::OutOfMemory),
        Ok(states) => Ok(Plan {
            states,
            current: made.current,
            known: made.known,
        }),
    }
}

// The plan of jobs, where none runs, and these have reasons of their own.
fn plan_with<T: Told>(
    alloc: Global,
    jobs: &Jobs,
    told: &T,
    settings: &Settings,
    basis: &Basis,
    own: &[Own],
) -> Result<Plan, PlanFault>
    requires table { IsTableOf jobs.now settings.now.targets basis.now.table }
    requires own { own.now ≡ map own_of basis.now.judged.reasons }
    ensures each { IfOk result (λ made. length made.states ≡ length jobs.now.jobs) }
    ensures targets { IfOk result (λ made. length made.current ≡ length settings.now.targets) }
    ensures made { IfOk result (λ made. WhereAgreed jobs.now (T.known told.now) (T.seen told.now) settings.now
        (λ at. IsBasisAt at jobs.now (T.known told.now) (T.seen told.now) basis.now → HasMadeAt at jobs.now made)) }
    ensures refused { IfErr result (λ fault. fault ≢ PlanFault.OutOfMemory → WhereAgreed jobs.now (T.known told.now) (T.seen told.now) settings.now
        (λ at. IsBasisAt at jobs.now (T.known told.now) (T.seen told.now) basis.now → IsRefusedAt at jobs.now fault)) }
{
    let rows = Rows {
        outputs: basis.wholes.outputs.as_slice(),
        makers: basis.wholes.makers.as_slice(),
        own,
        running: basis.judged.running.as_slice(),
    };
    match basis.table.rank(alloc, &rows, None) {
        Err(_) => Err(PlanFault::OutOfMemory),
        Ok(ranking) => match plan_now(
            alloc,
            jobs,
            &basis.table,
            told,
            settings,
            &rows,
            basis.begun.as_slice(),
            basis.suspects.as_slice(),
            ranking,
        ) {
            Err(fault) => Err(fault),
            Ok(made) => spell(
                alloc,
                &basis.table,
                &rows,
                basis.judged.reasons.as_slice(),
                basis.judged.forced.as_slice(),
                made,
            ),
        },
    }
}

// The plan of jobs by what is told of them, where none runs.
fn plan_of<T: Told>(
    alloc: Global,
    jobs: &Jobs,
    told: &T,
    settings: &Settings,
    basis: &Basis,
) -> Result<Plan, PlanFault>
    requires table { IsTableOf jobs.now settings.now.targets basis.now.table }
    ensures each { IfOk result (λ made. length made.states ≡ length jobs.now.jobs) }
    ensures targets { IfOk result (λ made. length made.current ≡ length settings.now.targets) }
    ensures made { IfOk result (λ made. WhereAgreed jobs.now (T.known told.now) (T.seen told.now) settings.now
        (λ at. IsBasisAt at jobs.now (T.known told.now) (T.seen told.now) basis.now → HasMadeAt at jobs.now made)) }
    ensures refused { IfErr result (λ fault. fault ≢ PlanFault.OutOfMemory → WhereAgreed jobs.now (T.known told.now) (T.seen told.now) settings.now
        (λ at. IsBasisAt at jobs.now (T.known told.now) (T.seen told.now) basis.now → IsRefusedAt at jobs.now fault)) }
{
    match own_flags(alloc, basis.judged.reasons.as_slice()) {
        Err(_) => Err(PlanFault::OutOfMemory),
        Ok(own) => plan_with(alloc, jobs, told, settings, basis, own.as_slice()),
    }
}

/// The plan of these jobs at a moment at which none runs, where the jobs with the first outputs `ran` have begun in this run: their states, which targets
/// are current, and the listings that have become known besides those with which the jobs were derived. The reasons of the jobs are told in several
/// threads, where there are many.
///
/// The fault is the first thing that is refused: all marked outputs, unless incomplete jobs are to be run again; the first read-only file in the way of a
/// job that is to run; the first such job that asks more of a resource than its bound, with the first such bound. `OutOfMemory` where there is no memory for
/// the plan, or where the last of these can't be told: no number of 64 bits tells how much is asked, or the job has no output to be named by.
///
/// What the store has, what was seen and what the makers of the jobs tell is so in one image of the folder. The time is near linear in the jobs, their
/// inputs, outputs and makers and the targets.
pub fn plan<Rt: Threads + Sync>(
    rt: &Rt,
    alloc: Global,
    jobs: &Jobs,
    store: &Store,
    seen: &Seen,
    settings: &Settings,
    ran: &List<PathText>,
) -> Result<Plan, PlanFault>
    ensures each { IfOk result (λ made. length made.states ≡ length jobs.now.jobs) }
    ensures targets { IfOk result (λ made. length made.current ≡ length settings.now.targets) }
    ensures made { IfOk result (λ made. (image : Image) → Agree image jobs.now store.now seen.now settings.now.targets
        → HasMade image settings.now ran.now jobs.now made) }
    ensures refused { IfErr result (λ fault. fault ≢ PlanFault.OutOfMemory → (image : Image) → Agree image jobs.now store.now seen.now settings.now.targets
        → IsRefused image settings.now ran.now jobs.now fault) }
{
    match judge(rt, alloc, jobs, store, seen, settings, ran) {
        Err(_) => Err(PlanFault::OutOfMemory),
        Ok(basis) => plan_of(alloc, jobs, &Loaded { store, seen }, settings, &basis),
    }
}
