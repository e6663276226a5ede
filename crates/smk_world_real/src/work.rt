ghost use Rattle.std.specs.Prelude.{◌≡◌, ◌<◌, ◌↔◌, ◌++◌, ◌∷◌, [], map, option_map, All, None, IsSome, OnOk, OnErr};
ghost use Rattle.smk_world_real.specs.Act.{unknown_act};
ghost use Rattle.smk_world_real.specs.Untold.{untold_sound};

use crate::children::Running;
use crate::failure::{CallKind, Failure};
use crate::fault::{Fault, Faults};
use crate::settle::Firm;
use crate::{children, files, outlived, settle};
use smk_base::{List, PathText, Place};
use smk_world::{Crew, Ended, Failed, Files, Found, Listing, Recipe, Stat, WorkFault};
use std::alloc::Global;
use std::io::Error;
use std::process::Processes;
use std::rt::Files as FileSystem;
use std::time::Clock;

// The place of the lock.
const LOCK: &str = ".snakemake/smk/lock";

/// The working folder, and shells that run in it. It tells nothing of what files hold.
#[derive(Drop)]
pub struct RealWork<R: FileSystem + Processes + Clock> {
    system: R,
    alloc: Global,
    children: Vec<Running<R::Started>>,
    next: u64,
    faults: Faults,
    firm: Firm,
    /// Whether the lock that stands is one that it made.
    has_lock: bool,
    ghost older: { All (λ n. n < next) (map (λ c. c.number) children.items) },
}

impl<R: FileSystem + Processes + Clock> RealWork<R> {
    /// The folder that the process works in. No child runs, and no call failed.
    pub fn new(alloc: Global, system: R) -> RealWork<R>
        ensures running { map (λ c. c.number) result.children.items ≡ [] }
        ensures faults { result.faults.count ≡ 0 }
    {
        RealWork {
            system,
            alloc,
            children: Vec::new(alloc),
            next: 1,
            faults: Faults::none(),
            firm: Firm::new(alloc),
            has_lock: false,
        }
    }

    /// The first call that failed, where the count of faults isn't 0.
    pub fn first_failure(&self) -> Option<&Failure>
        ensures first { option_map (λ failure. failure.now) result ≡ self.now.faults.first }
        ensures known { IsSome result ↔ (0 < self.now.faults.count) }
    {
        self.faults.first()
    }
}

// Starts the command in a shell of this number, whose environment tells of the working folder.
fn start<R: FileSystem + Processes>(
    system: &R,
    alloc: Global,
    children: &mut Vec<Running<R::Started>>,
    number: u64,
    command: &str,
) -> Result<(), Fault>
    ensures ok { OnOk result (map (λ c. c.number) children.new.items ≡ map (λ c. c.number) children.old.items ++ number ∷ []) }
    ensures err { OnErr result (map (λ c. c.number) children.new.items ≡ map (λ c. c.number) children.old.items) }
{
    let folder = outlived::folder_word(system, alloc)?;
    children::start(system, alloc, children, number, folder.as_str(), command)
}

// Fails where the lock stands and a command goes on.
fn check_lock<R: FileSystem + Clock>(system: &R, alloc: Global) -> Result<(), Fault> {
    match files::stat(system, LOCK)? {
        Stat::Nothing => Ok(()),
        Stat::File { .. } => outlived::fail_while_one_goes_on(system, alloc),
        Stat::Folder => outlived::fail_while_one_goes_on(system, alloc),
    }
}

// The first place of the list, or the working folder where it is empty.
fn first_place(places: &List<Place>) -> &str {
    match places.as_slice().first() {
        Some(place) => place.as_str(),
        None => "",
    }
}

// The first output that the recipe names, or no path where it has none.
fn first_output(recipe: &Recipe) -> &str {
    for item in recipe.outputs.as_slice() {
        if let Some(out) = item.outs.as_slice().first() {
            return out.path.as_str();
        }
    }
    ""
}

#[tactic(auto, using(crate::proofs::Events::untold_called))]
impl<R: FileSystem + Processes + Clock> Files for RealWork<R> {
    ghost device = { λ w. record { world = None; faults = w.faults.count; running = map (λ c. c.number) w.children.items } };

    ghost act = { unknown_act };

    ghost sound = { λ w. untold_sound w.faults.count (map (λ c. c.number) w.children.items) };

    fn faults(&self) -> u64 {
        self.faults.count()
    }

    fn stat(&mut self, p: &Place) -> Result<Stat, Failed> {
        let answer = files::stat(&self.system, p.as_str());
        self.faults
            .counted(self.alloc, CallKind::Look, p.as_str(), answer)
    }

    fn read(&mut self, alloc: Global, p: &Place, limit: u64) -> Result<Found, WorkFault> {
        let answer = files::read(&self.system, alloc, p.as_str(), limit);
        self.faults
            .counted_work(self.alloc, CallKind::Read, p.as_str(), answer)
    }

    fn list(&mut self, alloc: Global, p: &Place) -> Result<Listing, WorkFault> {
        let answer = files::list(&self.system, alloc, p.as_str());
        self.faults
            .counted_work(self.alloc, CallKind::List, p.as_str(), answer)
    }

    fn write(&mut self, p: &Place, bytes: &[u8]) -> Result<(), Failed> {
        let answer = files::write(&self.system, p.as_str(), bytes);
        self.faults
            .counted(self.alloc, CallKind::Write, p.as_str(), answer)
    }

    fn create_new(&mut self, p: &Place) -> Result<bool, Failed> {
        let answer = files::create_new(&self.system, p.as_str());
        if p.as_str() == LOCK && matches!(answer, Ok(true)) {
            self.has_lock = true;
        }
        self.faults
            .counted(self.alloc, CallKind::Create, p.as_str(), answer)
    }

    fn remove(&mut self, p: &Place) -> Result<(), Failed> {
        if p.as_str() == LOCK && !self.has_lock {
            // A lock that another run left stays while a command of that run goes on.
            let answer = check_lock(&self.system, self.alloc);
            self.faults
                .counted(self.alloc, CallKind::Unlock, p.as_str(), answer)?;
        }
        let answer = files::remove(&self.system, self.alloc, p.as_str());
        self.faults
            .counted(self.alloc, CallKind::Remove, p.as_str(), answer)
    }

    fn make_parents(&mut self, p: &Place) -> Result<(), Failed> {
        let answer = files::make_parents(&self.system, p.as_str());
        self.faults
            .counted(self.alloc, CallKind::MakeParents, p.as_str(), answer)
    }

    fn settle(&mut self, places: &List<Place>) -> Result<(), Failed> {
        let answer = settle::settle(&self.system, self.alloc, &mut self.firm, places.as_slice());
        self.faults
            .counted(self.alloc, CallKind::Settle, first_place(places), answer)
    }

    fn protect(&mut self, p: &Place) -> Result<(), Failed> {
        let answer = files::protect(&self.system, p.as_str());
        self.faults
            .counted(self.alloc, CallKind::Protect, p.as_str(), answer)
    }
}

#[tactic(auto, using(crate::proofs::Events::untold_called))]
impl<R: FileSystem + Processes + Clock> Crew for RealWork<R> {
    fn start(
        &mut self,
        recipe: &Recipe,
        _logs: &List<PathText>,
        command: &str,
    ) -> Result<u64, Failed> {
        let number = self.next;
        let path = first_output(recipe);
        if number == u64::MAX {
            let last = Fault::from(Error::other("too many commands were started"));
            return self
                .faults
                .counted(self.alloc, CallKind::Start, path, Err(last));
        }
        let (system, children) = (&self.system, &mut self.children);
        match start(system, self.alloc, children, number, command) {
            Ok(()) => {
                self.next = number + 1;
                Ok(number)
            }
            Err(fault) => self
                .faults
                .counted(self.alloc, CallKind::Start, path, Err(fault)),
        }
    }

    fn wait(&mut self) -> Result<Ended, Failed> {
        match children::wait(&self.system, &mut self.children) {
            Ok(ended) => Ok(ended),
            Err(fault) => self
                .faults
                .counted(self.alloc, CallKind::Wait, "", Err(fault)),
        }
    }
}
