//! What starts the jobs of a run.

ghost use Rattle.std.specs.Prelude.{◌≡◌, true, OnOk, OnErr, IfOk};
ghost use Rattle.smk_core.specs.Standing.{Standing, Answers, BeginsIn, CanBegin, stands, is_running, ended, stopped_now};
ghost use Rattle.smk_core.specs.Replans.{CanReplan, IsReplanned};

use smk_base::{List, OutOfMemory};
use smk_pick::{Ask, Room};
use std::alloc::Global;

/// What is to be done next.
#[derive(Clone, Copy, PartialEq, Eq)]
pub enum Step {
    /// The job with this number is to be started. It counts as running from now on.
    Start(u32),
    /// A running job is to be waited for: one runs, and no job may be started now.
    Wait,
    /// The run is over: no job runs, and none may be started.
    Finished,
}

/// Starts the jobs of a run: each once, after all that come before it have ended well, and where it fits beside those that run.
pub trait Starter: Drop {
    ghost standing: { Self → Standing };

    /// The jobs with these asks, each after those in its list of `befores`, in the room, in which nothing is in use. `OutOfMemory` where there
    /// is no memory for all that the run needs: only `replan` takes more.
    fn new(
        alloc: Global,
        asks: &List<Ask>,
        befores: &List<List<u32>>,
        room: Room,
        keep_going: bool,
    ) -> Result<Self, OutOfMemory>
        requires { CanBegin room asks.now befores.now }
        ensures { IfOk result (λ starter. BeginsIn room keep_going asks.now befores.now (standing starter)) };

    /// What is to be done next. A job that is named is started by the caller, and counts as running.
    fn next(&mut self) -> Step
        ensures { Answers (standing self.old) result (standing self.new) };

    /// The command of the job, which runs, has ended, well or not.
    fn ended(&mut self, job: u32, good: bool)
        requires { stands is_running (standing self.old).phases job ≡ true }
        ensures { standing self.new ≡ ended (standing self.old) job good };

    /// No job is started from now on.
    fn stop(&mut self)
        ensures { standing self.new ≡ stopped_now (standing self.old) };

    /// The jobs are these now. `moved` has the new number of each job that was there, which keeps what it asks for and stands as before.
    /// `OutOfMemory` where there is no memory for them: all is as before then.
    fn replan(
        &mut self,
        alloc: Global,
        asks: &List<Ask>,
        befores: &List<List<u32>>,
        moved: &List<u32>,
    ) -> Result<(), OutOfMemory>
        requires { CanReplan (standing self.old) asks.now befores.now moved.now }
        ensures ok { OnOk result (IsReplanned asks.now befores.now moved.now (standing self.old) (standing self.new)) }
        ensures err { OnErr result (standing self.new ≡ standing self.old) };
}
