//! How a job comes a step further.

ghost use Rattle.std.specs.Prelude.{◌≡◌, ◌≢◌, ◌<◌, length, slice_index_or, false, OnOk, OnErr, IfErr};
ghost use Rattle.smk_plan_live.specs.Lives.{IsLive, IsRefusedNow};
ghost use Rattle.smk_plan_live.specs.Carried.{advanced, turned};
ghost use Rattle.smk_plan_live.specs.Steps.{IsChanged};

use crate::base::Base;
use crate::rows::Rows;
use crate::{LivePlan, Phase};
use smk_plan::PlanFault;
use smk_trigger::{Judge, State};
use std::alloc::Global;

impl Base {
    // The job of the number has come so far, and runs with this state at its beginning, or doesn't run. It gives what it was before.
    fn turn(&mut self, number: usize, phase: Phase, state: Option<State>) -> (Phase, Option<State>)
        requires phase { number < length self.old.phases }
        requires state { number < length self.old.began }
        ensures now { self.new ≡ turned number phase state self.old }
        ensures phase { result.0 ≡ slice_index_or self.old.phases number result.0 }
        ensures state { result.1 ≡ slice_index_or self.old.began number result.1 }
    {
        let before = self.phases.swap(number, phase);
        let was = self.began.swap(number, state);
        (before, was)
    }
}

impl LivePlan {
    /// The job of the number has come so far, and runs with this state at its beginning, or doesn't run; these are what is known and seen of its outputs. It
    /// isn't forced any more.
    ///
    /// The faults are those of a plan of that moment; after any of them nothing is changed.
    pub(crate) fn advance<J: Judge>(
        &mut self,
        alloc: Global,
        number: usize,
        phase: Phase,
        state: Option<State>,
        rows: Rows,
        judge: &J,
    ) -> Result<(), PlanFault>
        requires live { IsLive self.old }
        requires within { number < length self.old.base.jobs.jobs }
        requires changed { IsChanged self.old.settings self.old.base (advanced number phase state rows.entries rows.sights self.old.base) number false }
        ensures live { IsLive self.new }
        ensures ok { OnOk result ((self.new.settings ≡ self.old.settings)
            × (self.new.base ≡ advanced number phase state rows.entries rows.sights self.old.base)) }
        ensures err { OnErr result (self.new ≡ self.old) }
        ensures refused { IfErr result (λ fault. fault ≢ PlanFault.OutOfMemory
            → IsRefusedNow self.old.settings (advanced number phase state rows.entries rows.sights self.old.base) fault) }
    {
        let Rows { entries, sights } = rows;
        let (before, was) = self.base.turn(number, phase, state);
        let (earlier, saw) = self.base.fill(number, Some(entries), Some(sights));
        match self.settle(alloc, number, false, judge) {
            Err(fault) => {
                self.base.fill(number, earlier, saw);
                self.base.turn(number, before, was);
                Err(fault)
            }
            Ok(()) => Ok(()),
        }
    }
}
