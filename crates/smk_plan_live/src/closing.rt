//! How a job is closed.

ghost use Rattle.std.specs.Prelude.{◌≡◌, ◌≢◌, map, Some, None, IfOk, OnOk, OnErr, IfErr};
ghost use Rattle.std.specs.List.{slice_get};
ghost use Rattle.smk_flow.specs.declared.job.Job.{Job as JobValue};
ghost use Rattle.smk_plan_live.specs.Lives.{IsLive, IsRefusedNow};
ghost use Rattle.smk_plan_live.specs.Carried.{advanced};
ghost use Rattle.smk_plan_live.specs.Changes.{HasClosed};
ghost use Rattle.smk_plan_live.specs.Steps.{AreOfOutputs, IsRunningIn};

use crate::rows::Rows;
use crate::slots::Slots;
use crate::{LivePlan, Phase};
use smk_base::{List, OutOfMemory};
use smk_plan::{PlanFault, Sight};
use smk_store::Entry;
use smk_trigger::Judge;
use std::alloc::Global;

// The elements as a row.
fn row_of<T: Drop>(alloc: Global, elements: List<T>) -> Result<Slots<Option<T>>, OutOfMemory>
    ensures { IfOk result (λ row. row ≡ map Some elements) }
{
    let mut left = elements;
    let mut found = Vec::new(alloc);
    'elements: while let Some(element) = left.pop() {
        found.push(Some(element))?;
    }
    found.reverse();
    Ok(Slots::of(found))
}

// What is known and was seen of the outputs of a job as rows.
fn rows_of(alloc: Global, entries: List<Entry>, sights: List<Sight>) -> Result<Rows, OutOfMemory>
    ensures { IfOk result (λ rows. (rows.entries ≡ map Some entries) × (rows.sights ≡ map Some sights)) }
{
    let entries = row_of(alloc, entries)?;
    let sights = row_of(alloc, sights)?;
    Ok(Rows { entries, sights })
}

impl LivePlan {
    /// The job is closed: it was finished or abandoned, and these are now what is known and what is seen of its outputs, one for each output, in their order.
    ///
    /// The judge is asked at most once about each job of which nothing is known of its reasons: the closed job, and those that read at or under an output of it or did so
    /// of one that was closed before; and only where it hangs on these whether something is Dirty, or of some readers where they are many. What is whole is told anew of
    /// the closed job alone. Ranks are told anew of it and its readers, and of all where another job's rank changes or a Clean job lacks an output. The flags of all jobs are
    /// gone over, so the time is linear in the jobs and what they read and make, with no look-up by path but for the jobs that are judged.
    ///
    /// A source that these entries have with a SHA-256 and another time than it was seen with counts as updated until a sight with its digest comes.
    ///
    /// The faults are those of a plan of that moment: the first thing that is refused of it, or `OutOfMemory` where there is no memory for all this. After any of
    /// them nothing is changed.
    pub fn closed<J: Judge>(
        &mut self,
        alloc: Global,
        job: u32,
        entries: List<Entry>,
        sights: List<Sight>,
        judge: &J,
    ) -> Result<(), PlanFault>
        requires runs { IsRunningIn self.old job }

        // One entry and one sight for each output, in their order, each sight with its output's path.
        requires rows { (j : JobValue) → slice_get self.old.base.jobs.jobs job ≡ Some j → AreOfOutputs entries sights j }
        ensures live { IsLive self.new }
        ensures ok { OnOk result (HasClosed job entries sights self.old self.new) }
        ensures err { OnErr result (self.new ≡ self.old) }
        ensures refused { IfErr result (λ fault. fault ≢ PlanFault.OutOfMemory
            → IsRefusedNow self.old.settings (advanced job Phase.Closed None (map Some entries) (map Some sights) self.old.base) fault) }
    {
        match rows_of(alloc, entries, sights) {
            Err(_) => Err(PlanFault::OutOfMemory),
            Ok(rows) => self.advance(alloc, job as usize, Phase::Closed, None, rows, judge),
        }
    }
}
