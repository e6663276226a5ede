//! How new jobs come.

ghost use Rattle.std.specs.Prelude.{◌≡◌, ◌≢◌, IfOk, IfErr, OnOk, OnErr};
ghost use Rattle.smk_plan_live.specs.Lives.{AreNamed, IsLive, IsSound, IsRefusedNow};
ghost use Rattle.smk_plan_live.specs.Carried.{with_seen};
ghost use Rattle.smk_plan_live.specs.Changes.{IsGrownBut, HasGrown, IsRefusedGrown};

use crate::LivePlan;
use crate::base::Base;
use crate::carried::rows_from;
use crate::commands::are_seen;
use crate::later::late_of;
use crate::limits::limits_of;
use crate::new::{Kept, Told, told_of};
use crate::sites::sited_of;
use crate::slots::Slots;
use smk_base::{List, OutOfMemory};
use smk_chain::Jobs;
use smk_plan::{PlanFault, Seen};
use smk_store::Store;
use std::alloc::Global;
use std::mem;
use std::thread::Threads;

// The base of these jobs as they had come so far, but for what was seen as the plan began.
fn grown(
    alloc: Global,
    base: &Base,
    jobs: Jobs,
    store: Store,
    fresh: Seen,
) -> Result<Base, OutOfMemory>
    requires { IsSound base.now }
    ensures sound { IfOk result IsSound }
    ensures grown { IfOk result (IsGrownBut jobs store fresh base.now) }
{
    let sited = sited_of(alloc, &jobs)?;
    let rows = rows_from(alloc, base, jobs.jobs.as_slice())?;
    let late = late_of(alloc, base, fresh)?;
    Ok(Base {
        jobs,
        store,
        seen: Seen::of(List::new(alloc)),
        later: late.later,
        came: late.came,
        entries: Slots::of(rows.entries),
        sights: Slots::of(rows.sights),
        sites: sited.sites,
        sources: sited.sources,
        phases: Slots::of(rows.phases),
        began: Slots::of(rows.began),
    })
}

impl LivePlan {
    // The plan stands on this base from now on, and on what was seen as it began.
    fn stand<Rt: Threads + Sync>(
        &mut self,
        rt: &Rt,
        alloc: Global,
        base: Base,
    ) -> Result<(), PlanFault>
        requires live { IsLive self.old }
        requires sound { IsSound base }
        requires named { AreNamed base }
        ensures live { IsLive self.new }
        ensures ok { OnOk result ((self.new.base ≡ with_seen self.old.base.seen base) × (self.new.settings ≡ self.old.settings)) }
        ensures err { OnErr result (self.new ≡ self.old) }
        ensures refused { IfErr result (λ fault. fault ≢ PlanFault.OutOfMemory → IsRefusedNow self.old.settings (with_seen self.old.base.seen base) fault) }
    {
        let mut next = base;
        mem::swap(&mut next.seen, &mut self.base.seen);
        match told_of(rt, alloc, &next, &self.settings) {
            Err(fault) => {
                mem::swap(&mut next.seen, &mut self.base.seen);
                Err(fault)
            }
            Ok(told) => {
                let Told { kept, ranked, held } = told;
                let Kept {
                    table,
                    flags,
                    readers,
                } = kept;
                let jobs = next.jobs.jobs.as_slice();
                let ranks = ranked.ranking.ranks();
                let commanded = are_seen(alloc, self.settings.cores, jobs, ranks);
                let limits = limits_of(jobs);
                self.base = next;
                self.ranking = ranked.ranking;
                self.current = ranked.current;
                self.known = ranked.known;
                self.held = held;
                self.table = table;
                self.flags = flags;
                self.readers = readers;
                self.commanded = commanded;
                self.limits = limits;
                Ok(())
            }
        }
    }

    /// The jobs were derived anew, after new listings. For each old job there is a new one of the same rule with the same outputs, which is equal to it unless the
    /// old one is Open: it has come as far as the old one had, and runs as that did. The store was loaded anew, and counts for the outputs of jobs that are new and
    /// for paths that aren't outputs; what is fresh are sights of the outputs of new jobs, and of sources that have none yet.
    ///
    /// A fresh sight takes the place of the one that came before. So there is also one, with its digest as `look` takes it, of each source input of a new or changed
    /// job that a record has with a SHA-256 and another time, where the sight that came last has no digest. A source of which that is left out counts as updated, and
    /// the contract tells nothing of the folder then.
    ///
    /// All jobs are judged anew, in several threads where there are many. The faults are those of a plan of that moment: the first thing that is refused of it, or
    /// `OutOfMemory` where there is no memory for all this. After any of them nothing is changed.
    pub fn grow<Rt: Threads + Sync>(
        &mut self,
        rt: &Rt,
        alloc: Global,
        jobs: Jobs,
        store: Store,
        fresh: Seen,
    ) -> Result<(), PlanFault>
        requires live { IsLive self.old }
        ensures live { IsLive self.new }
        ensures ok { OnOk result (HasGrown jobs store fresh self.old self.new) }
        ensures err { OnErr result (self.new ≡ self.old) }
        ensures refused { IfErr result (λ fault. fault ≢ PlanFault.OutOfMemory → IsRefusedGrown self.old.settings jobs store fresh self.old.base fault) }
    {
        match grown(alloc, &self.base, jobs, store, fresh) {
            Err(_) => Err(PlanFault::OutOfMemory),
            Ok(base) => self.stand(rt, alloc, base),
        }
    }
}
