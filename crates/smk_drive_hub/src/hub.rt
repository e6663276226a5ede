//! All that a run keeps.

use smk_base::OutOfMemory;
use smk_drive_step::{Children, Halt, Lines};
use smk_flow::Workflow;
use smk_pick::{Room, Settings};
use smk_plan_live::LivePlan;
use smk_report::Fault;
use smk_run::Tally;
use std::alloc::Global;

/// What each step of a run goes by.
#[derive(Clone, Copy)]
pub struct Ground<'g> {
    pub flow: &'g Workflow,
    pub settings: &'g Settings,
}

/// A run as it stands.
#[derive(Drop)]
pub struct Hub {
    /// The plan in force.
    pub live: LivePlan,
    /// The room that the running jobs leave.
    pub room: Room,
    pub children: Children,
    /// The serial that is drawn next. None where there is none left.
    pub next: Option<u64>,
    /// How many jobs were started, done and failed.
    pub tally: Tally,
    pub halt: Halt,
    pub lines: Lines,
}

impl Hub {
    ghost use Rattle.std.specs.Prelude.{◌≡◌, ◌||◌, IfOk, nat_eq};
    ghost use Rattle.smk_laws_turns.specs.Turning.{faulted};
    ghost use Rattle.smk_drive_hub.specs.Keeping.{IsAtStart, heeded, parts_of};

    /// A run of the plan, in which nothing has begun, and in which this serial is drawn first. `OutOfMemory` where there is no memory for as many children as
    /// there are cores.
    pub fn new(
        alloc: Global,
        settings: &Settings,
        live: LivePlan,
        next: Option<u64>,
    ) -> Result<Hub, OutOfMemory>
        ensures { IfOk result (λ hub. IsAtStart settings.now live next (parts_of hub)) }
    {
        Ok(Hub {
            live,
            room: Room::new(alloc, settings.cores, &settings.bounds)?,
            children: Children::new(alloc, settings.cores)?,
            next,
            tally: Tally {
                started: 0,
                done: 0,
                failed: 0,
                first: None,
            },
            halt: Halt::none(),
            lines: Lines::new(),
        })
    }

    /// Whether jobs begin as far as no fault has come: none has failed, or the run is to go on.
    pub fn goes_on(&self, settings: &Settings) -> bool
        ensures { result ≡ (nat_eq self.now.tally.failed 0 || settings.now.keep_going) }
    {
        self.tally.failed == 0 || settings.keep_going
    }

    /// This fault came: no job begins any more.
    pub fn set(&mut self, fault: Fault)
        ensures { parts_of self.new ≡ faulted fault (parts_of self.old) }
    {
        self.halt.set(fault);
    }

    /// The same where a fault came.
    pub fn heed(&mut self, answer: Result<(), Fault>)
        ensures { parts_of self.new ≡ heeded answer (parts_of self.old) }
    {
        if let Err(fault) = answer {
            self.set(fault);
        }
    }
}
