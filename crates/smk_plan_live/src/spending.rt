//! How an output is removed.

ghost use Rattle.std.specs.Prelude.{◌≡◌, ◌≢◌, ◌<◌, length, map, slice_index_or, Some, IfOk, OnOk, OnErr, IfErr};
ghost use Rattle.smk_world.specs.World.{out_paths};
ghost use Rattle.smk_plan_live.specs.Lives.{IsLive, IsRefusedNow};
ghost use Rattle.smk_plan_live.specs.Carried.{sight_but, sighted, spent};
ghost use Rattle.smk_plan_live.specs.Changes.{HasSpent};
ghost use Rattle.smk_plan_live.specs.Steps.{IsChanged, IsLoss};

use crate::LivePlan;
use crate::base::Base;
use crate::beginning::nothing_at;
use crate::copies::sight_if_any;
use crate::now::{sight_now, site_of};
use crate::outs::out_paths_in;
use crate::slots::Slots;
use smk_base::{OutOfMemory, PathText};
use smk_flow::Job;
use smk_plan::{PlanFault, Sight};
use smk_trigger::Plain;
use std::alloc::Global;

// What is seen at the path once the other one was removed, or this one.
fn sight_but(
    alloc: Global,
    base: &Base,
    gone: &PathText,
    path: &PathText,
) -> Result<Option<Sight>, OutOfMemory>
    ensures { IfOk result (λ sight. sight ≡ sight_but base.now gone.now path.now) }
{
    if path.as_str() == gone.as_str() {
        let nothing = nothing_at(alloc, path)?;
        return Ok(Some(nothing));
    }
    sight_if_any(alloc, sight_now(base, path))
}

// The same of each of the paths.
fn all_but(
    alloc: Global,
    base: &Base,
    gone: &PathText,
    paths: &[PathText],
) -> Result<Vec<Option<Sight>>, OutOfMemory>
    ensures { IfOk result (λ row. row.items ≡ map (sight_but base.now gone.now) paths.now) }
{
    let mut row = Vec::new(alloc);
    for path in paths {
        let sight = sight_but(alloc, base, gone, path)?;
        row.push(sight)?;
    }
    Ok(row)
}

// What is seen at the outputs of the job once the path was removed.
fn sights_but(
    alloc: Global,
    base: &Base,
    gone: &PathText,
    job: &Job,
) -> Result<Slots<Option<Sight>>, OutOfMemory>
    ensures { IfOk result (λ row. row ≡ map (sight_but base.now gone.now) (out_paths job.now.recipe)) }
{
    let paths = out_paths_in(alloc, job.recipe.outputs.as_slice())?;
    let row = all_but(alloc, base, gone, paths.as_slice())?;
    Ok(Slots::of(row))
}

// The number of a job, whether it is forced, and what is seen at its outputs from now on.
#[derive(Drop)]
pub(crate) struct Loss {
    pub(crate) number: usize,
    pub(crate) forced: bool,
    pub(crate) sights: Slots<Option<Sight>>,
}

impl Base {
    // This was seen at the outputs of the job of the number. It gives what was told before.
    fn sight_outputs(
        &mut self,
        number: usize,
        sights: Option<Slots<Option<Sight>>>,
    ) -> Option<Slots<Option<Sight>>>
        requires { number < length self.old.sights }
        ensures now { self.new ≡ sighted number sights self.old }
        ensures was { result ≡ slice_index_or self.old.sights number result }
    {
        self.sights.swap(number, sights)
    }
}

impl LivePlan {
    // What is lost with the output, which the job of this number makes.
    fn loss_of(&self, alloc: Global, path: &PathText, number: usize) -> Result<Loss, OutOfMemory>
        ensures { IfOk result (IsLoss path.now number self.now) }
    {
        let Some(job) = self.base.jobs.jobs.as_slice().get(number) else {
            return Err(OutOfMemory);
        };
        let Some(forced) = self.flags.forced.as_slice().get(number) else {
            return Err(OutOfMemory);
        };
        let sights = sights_but(alloc, &self.base, path, job)?;
        Ok(Loss {
            number,
            forced: *forced,
            sights,
        })
    }

    // This is seen at the outputs of the job of the number from now on, which is forced or not.
    fn see(&mut self, alloc: Global, loss: Loss) -> Result<(), PlanFault>
        requires live { IsLive self.old }
        requires within { loss.number < length self.old.base.jobs.jobs }
        requires changed { IsChanged self.old.settings self.old.base (sighted loss.number (Some loss.sights) self.old.base) loss.number loss.forced }
        ensures live { IsLive self.new }
        ensures ok { OnOk result ((self.new.settings ≡ self.old.settings) × (self.new.base ≡ sighted loss.number (Some loss.sights) self.old.base)) }
        ensures err { OnErr result (self.new ≡ self.old) }
        ensures refused { IfErr result (λ fault. fault ≢ PlanFault.OutOfMemory
            → IsRefusedNow self.old.settings (sighted loss.number (Some loss.sights) self.old.base) fault) }
    {
        let Loss {
            number,
            forced,
            sights,
        } = loss;
        let saw = self.base.sight_outputs(number, Some(sights));
        match self.settle(alloc, number, forced, &Plain) {
            Err(fault) => {
                self.base.sight_outputs(number, saw);
                Err(fault)
            }
            Ok(()) => Ok(()),
        }
    }

    /// The output was removed: nothing stands at it, or under it, from now on; what is known of it stays. Where the path is no output of the jobs nothing is
    /// changed.
    ///
    /// What is whole is told anew of its job alone. Ranks are told anew of that and of the jobs that read at or under its outputs, and of all where another job's rank changes
    /// or a Clean job lacks an output. The flags of all jobs are gone over, so the time is linear in the jobs and what they read and make, with no look-up by path but for
    /// those of these few jobs on whose reasons something hangs. No judge is asked but the plain one.
    ///
    /// The faults are those of a plan of that moment: the first thing that is refused of it, or `OutOfMemory` where there is no memory for all this. After any
    /// of them nothing is changed.
    pub fn spent(&mut self, alloc: Global, path: &PathText) -> Result<(), PlanFault>
        requires live { IsLive self.old }
        ensures live { IsLive self.new }
        ensures ok { OnOk result (HasSpent path.now self.old self.new) }
        ensures err { OnErr result (self.new ≡ self.old) }
        ensures refused { IfErr result (λ fault. fault ≢ PlanFault.OutOfMemory → IsRefusedNow self.old.settings (spent path.now self.old.base) fault) }
    {
        let Some(site) = site_of(&self.base, path) else {
            return Ok(());
        };
        match self.loss_of(alloc, path, site.job) {
            Err(_) => Err(PlanFault::OutOfMemory),
            Ok(loss) => self.see(alloc, loss),
        }
    }
}
