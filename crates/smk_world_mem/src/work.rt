//! The workspace: its files and children in memory, its world where these steps lead, its calls failing as set up.
ghost use Rattle.std.specs.Prelude.{◌≡◌, ℕ, [], Some, true};
ghost use Rattle.smk_world.specs.World.{numbers};
ghost use Rattle.smk_world.specs.Folders.{AreInFolders};
ghost use Rattle.smk_world_nodes.specs.Nodes.{node_at};
ghost use Rattle.smk_world_mem.specs.Act.{mem_act};
ghost use Rattle.smk_world_mem.specs.Setup.{Caused, Caused-prop};
ghost use Rattle.smk_world_nodes.specs.Steps.{Agrees, Agrees-prop, Orderly, Orderly-prop, told_world, replay, empty_world, Rooted, Rooted-prop, same_numbers_told, formed_told, owned_told};
ghost use Rattle.smk_world_mem.specs.Trees.{tree_told};

use crate::answers::{bumped, is_failing};
use crate::{calls, crew};
use smk_base::{List, OutOfMemory, PathText, Place};
use smk_world::{Child, Crew, Ended, Failed, Files, Found, Listing, Node, Recipe, Stat, WorkFault};
use smk_world_crash::{Choice, Remains, left};
use smk_world_nodes::{Nodes, Step, put_firmly, take_firmly};
use std::alloc::Global;

/// A workspace in memory.
#[derive(Drop)]
pub struct MemWork {
    alloc: Global,
    nodes: Nodes,
    steps: List<Step>,
    told: bool,
    faults: u64,
    calls: u64,
    failing: List<u64>,
    stop_after: Option<u64>,
    order: List<u64>,
    killed: List<u64>,
    latest: u64,
    children: List<Child>,
    next: u64,
    ghost agrees: { Agrees told nodes steps } by { Agrees-prop told nodes steps },
    ghost orderly: { Orderly told steps children next } by { Orderly-prop told steps children next },
    ghost rooted: { Rooted told nodes } by { Rooted-prop told nodes },
    ghost caused: { Caused told failing stop_after killed calls faults next steps } by { Caused-prop told failing stop_after killed calls faults next steps },
}

/// How the calls of a workspace go.
#[derive(Drop)]
pub struct Setup {
    /// The numbers of the calls that fail.
    pub failing: List<u64>,
    /// The number of the call after which all fail.
    pub stop_after: Option<u64>,
    /// The numbers of children in the order in which they end; the others end in the order of their start.
    pub order: List<u64>,
    /// The numbers of the children that are killed.
    pub killed: List<u64>,
}

// Whether a world is told on: it was told, and these nodes stand in folders.
// (Each changing call goes over all nodes for it, in linear time: this device serves rows and trials, whose folders have a few dozen
// nodes, and the check is what its proofs rest on instead of an invariant over maps.)
fn tells_on(told: bool, nodes: &Nodes) -> bool
    ensures told { result ≡ true → told ≡ true }
    ensures stand { result ≡ true → AreInFolders (node_at nodes.now) }
{
    told && nodes.are_in_folders()
}

impl MemWork {
    ghost use Rattle.std.specs.Prelude.{◌+◌, ◌-◌, ◌^◌, ◌<◌, ◌≤◌, ◌↔◌, IsTrue, IfOk, OnOk, OnErr, Option, None, length, false};
    ghost use Rattle.std.specs.Option.{option_map};
    ghost use Rattle.smk_world.specs.declared.event.Node.{Node};
    ghost use Rattle.smk_world.specs.declared.event.Node.TheVariants.{Regular};
    ghost use Rattle.smk_world.specs.World.{World};
    ghost use Rattle.smk_world.specs.Calls.{Reads, started_numbers};
    ghost use Rattle.smk_world_nodes.specs.Steps.{step_world};
    ghost use Rattle.smk_world_nodes.specs.declared.step.Step.TheVariants.{Put, Gone};
    ghost use Rattle.smk_world_crash.specs.Crash.{CrashOf, LeadTo};
    ghost use Rattle.smk_world_mem.specs.Setup.{failing_calls, killed_ends};
    ghost use Rattle.smk_world_mem.specs.Work.{world_in, faults_in, setup_in, running_in, IsAtRest, IsStepFrom, file_bytes};

    /// A told world without a node, a child, an event or a fault.
    pub fn new(alloc: Global, setup: Setup) -> MemWork
        ensures world { world_in result ≡ Some empty_world }
        ensures faults { faults_in result ≡ 0 }
        ensures setup { setup_in result ≡ setup }
    {
        MemWork {
            alloc,
            nodes: Nodes::new(alloc),
            steps: List::new(alloc),
            told: true,
            faults: 0,
            calls: 0,
            failing: setup.failing,
            stop_after: setup.stop_after,
            order: setup.order,
            killed: setup.killed,
            latest: 0,
            children: List::new(alloc),
            next: 1,
        }
    }

    /// Puts a firm file there and firm folders above it. It is no call of the device.
    /// Where a file stands above the place or something under it, the world is told no more; that it is told on elsewhere isn't said.
    /// Want of memory leaves the world as it was.
    pub fn place(&mut self, p: &PathText, bytes: &[u8], time: u64) -> Result<(), OutOfMemory>
        ensures ok { OnOk result ((w : World) → world_in self.new ≡ Some w → IsStepFrom (world_in self.old) (Put p.now (Regular bytes.now time false)) w) }
        ensures err { OnErr result (world_in self.new ≡ world_in self.old) }
        ensures faults { faults_in self.new ≡ faults_in self.old }
        ensures setup { setup_in self.new ≡ setup_in self.old }
    {
        match put_firmly(self.alloc, &mut self.nodes, &mut self.steps, p, bytes, time) {
            Ok(()) => {
                self.latest = self.latest.max(time);
                self.told = tells_on(self.told, &self.nodes);
                Ok(())
            }
            Err(fault) => Err(fault),
        }
    }

    /// Removes firmly what stands at the path and under it. It is no call of the device.
    /// For want of memory the world is told no more.
    pub fn take(&mut self, p: &PathText)
        ensures world { (w : World) → world_in self.new ≡ Some w → IsStepFrom (world_in self.old) (Gone p.now) w }
        ensures faults { faults_in self.new ≡ faults_in self.old }
        ensures setup { setup_in self.new ≡ setup_in self.old }
    {
        match take_firmly(self.alloc, &mut self.nodes, &mut self.steps, p) {
            Ok(()) => self.told = tells_on(self.told, &self.nodes),
            Err(_) => self.told = false,
        }
    }

    // The workspace with what a crash has left, told or not.
    fn gone_on(alloc: Global, image: Remains, told: bool, latest: u64) -> MemWork
        requires { told ≡ true → LeadTo image.steps image.nodes }
        ensures world { world_in result ≡ told_world told image.steps }
        ensures faults { faults_in result ≡ 0 }
        ensures setup { setup_in result ≡ record { failing = []; stop_after = None; order = []; killed = [] } }
    {
        MemWork {
            alloc,
            nodes: image.nodes,
            steps: image.steps,
            told,
            faults: 0,
            calls: 0,
            failing: List::new(alloc),
            stop_after: None,
            order: List::new(alloc),
            killed: List::new(alloc),
            latest,
            children: List::new(alloc),
            next: 1,
        }
    }

    /// What a crash may leave of the workspace now, as one that goes on: no child runs, each node is firm, no call has been made and none is to fail.
    /// The choice says which of the images that it may leave (`Choice`): the least, what reads now, or a mixture that is made to do harm.
    /// Where the image isn't a tree, or has a place that no user's path and no place of the engine's names, its world isn't told.
    /// (Each step goes over all places, as each changing call of this device goes over all nodes: a crash costs about what the run before it did.)
    pub fn crashed(&self, choice: Choice) -> Result<MemWork, OutOfMemory>
        ensures world { IfOk result (λ crashed. (v : World) → world_in crashed ≡ Some v → CrashOf choice (world_in self.now) v) }
        ensures faults { IfOk result (λ crashed. faults_in crashed ≡ 0) }
        ensures setup { IfOk result (λ crashed. setup_in crashed ≡ record { failing = []; stop_after = None; order = []; killed = [] }) }
    {
        let image = left(
            self.alloc,
            choice,
            self.children.as_slice(),
            self.steps.as_slice(),
        )?;
        let told = self.told && image.whole;
        Ok(MemWork::gone_on(self.alloc, image, told, self.latest))
    }

    /// The bytes of the file there. Of what a running child owns nothing is said.
    pub fn bytes_at(&self, p: &PathText) -> Option<&[u8]>
        ensures { (w : World) → world_in self.now ≡ Some w → (n : Option Node) → Reads n (w.nodes p.now)
            → option_map (λ bytes. bytes.now) result ≡ file_bytes n }
    {
        match self.nodes.get(p.as_str()) {
            Some(Node::Regular { bytes, .. }) => Some(bytes.as_slice()),
            _ => None,
        }
    }

    /// How many children were started.
    pub fn starts(&self) -> u64
        ensures { (w : World) → world_in self.now ≡ Some w → result ≡ length (started_numbers w.log) }
    {
        self.next.saturating_sub(1)
    }

    /// How many calls the device has had.
    /// Where the world is told, each of its faults is a call that the setup has fail, or the end of a child that it has killed.
    pub fn calls(&self) -> u64
        ensures causes { (w : World) → world_in self.now ≡ Some w → result < 2 ^ 64 - 1
            → faults_in self.now ≤ failing_calls (setup_in self.now).failing (setup_in self.now).stop_after result + killed_ends (setup_in self.now).killed w.log }
    {
        self.calls
    }

    /// Whether the world is told and no child runs in it.
    pub fn is_at_rest(&self) -> bool
        ensures rest { IsTrue result ↔ IsAtRest (world_in self.now) }
        ensures running { IsTrue result → running_in self.now ≡ [] }
    {
        self.told && self.children.as_slice().is_empty()
    }

    /// What changed the world so far, in order.
    pub fn steps(&self) -> &[Step]
        ensures { (w : World) → world_in self.now ≡ Some w → w ≡ replay empty_world result.now }
    {
        self.steps.as_slice()
    }
}

impl Files for MemWork {
    ghost device = { λ m. record { world = told_world m.told m.steps; faults = m.faults; running = numbers (replay empty_world m.steps).children } };

    ghost act = { mem_act };

    ghost sound = { λ m. record {
      same_numbers = λ w h. same_numbers_told m.told m.steps w h;
      formed = λ w h. formed_told m.told m.steps w h;
      owned = λ w h. owned_told m.told m.steps m.children m.next m.orderly w h;
      tree = λ w h. tree_told m.told m.nodes m.steps m.children m.next m.agrees m.orderly m.rooted w h;
    } };

    fn faults(&self) -> u64 {
        self.faults
    }

    fn stat(&mut self, p: &Place) -> Result<Stat, Failed> {
        self.calls = self.calls.saturating_add(1);
        let fails = is_failing(self.calls, &self.failing, self.stop_after);
        self.faults = bumped(self.faults, fails);
        match calls::look(self.alloc, &self.nodes, &mut self.steps, p, fails) {
            Ok(answer) => answer,
            Err(_) => {
                self.told = false;
                self.faults = bumped(self.faults, true);
                Err(Failed)
            }
        }
    }

    fn read(&mut self, _alloc: Global, p: &Place, limit: u64) -> Result<Found, WorkFault> {
        self.calls = self.calls.saturating_add(1);
        let fails = is_failing(self.calls, &self.failing, self.stop_after);
        self.faults = bumped(self.faults, fails);
        match calls::read(self.alloc, &self.nodes, &mut self.steps, p, limit, fails) {
            Ok(answer) => answer,
            Err(_) => {
                self.told = false;
                self.faults = bumped(self.faults, true);
                Err(WorkFault::Failed)
            }
        }
    }

    fn list(&mut self, _alloc: Global, p: &Place) -> Result<Listing, WorkFault> {
        self.calls = self.calls.saturating_add(1);
        let fails = is_failing(self.calls, &self.failing, self.stop_after);
        self.faults = bumped(self.faults, fails);
        match calls::list(self.alloc, &self.nodes, &mut self.steps, p, fails) {
            Ok(answer) => answer,
            Err(_) => {
                self.told = false;
                self.faults = bumped(self.faults, true);
                Err(WorkFault::Failed)
            }
        }
    }

    fn write(&mut self, p: &Place, bytes: &[u8]) -> Result<(), Failed> {
        self.calls = self.calls.saturating_add(1);
        let fails = is_failing(self.calls, &self.failing, self.stop_after);
        self.faults = bumped(self.faults, fails);
        let time = self.latest.saturating_add(1);
        self.latest = time;
        match calls::write(
            self.alloc,
            &mut self.nodes,
            &mut self.steps,
            p,
            bytes,
            time,
            fails,
        ) {
            Ok(answer) => answer,
            Err(_) => {
                self.told = false;
                self.faults = bumped(self.faults, true);
                Err(Failed)
            }
        }
    }

    fn create_new(&mut self, p: &Place) -> Result<bool, Failed> {
        self.calls = self.calls.saturating_add(1);
        let fails = is_failing(self.calls, &self.failing, self.stop_after);
        self.faults = bumped(self.faults, fails);
        let time = self.latest.saturating_add(1);
        self.latest = time;
        match calls::create(self.alloc, &mut self.nodes, &mut self.steps, p, time, fails) {
            Ok(answer) => answer,
            Err(_) => {
                self.told = false;
                self.faults = bumped(self.faults, true);
                Err(Failed)
            }
        }
    }

    fn remove(&mut self, p: &Place) -> Result<(), Failed> {
        self.calls = self.calls.saturating_add(1);
        let fails = is_failing(self.calls, &self.failing, self.stop_after);
        self.faults = bumped(self.faults, fails);
        match calls::remove(self.alloc, &mut self.nodes, &mut self.steps, p, fails) {
            Ok(answer) => answer,
            Err(_) => {
                self.told = false;
                self.faults = bumped(self.faults, true);
                Err(Failed)
            }
        }
    }

    fn make_parents(&mut self, p: &Place) -> Result<(), Failed> {
        self.calls = self.calls.saturating_add(1);
        let fails = is_failing(self.calls, &self.failing, self.stop_after);
        self.faults = bumped(self.faults, fails);
        match calls::make_parents(self.alloc, &mut self.nodes, &mut self.steps, p, fails) {
            Ok(answer) => answer,
            Err(_) => {
                self.told = false;
                self.faults = bumped(self.faults, true);
                Err(Failed)
            }
        }
    }

    fn settle(&mut self, places: &List<Place>) -> Result<(), Failed> {
        self.calls = self.calls.saturating_add(1);
        let fails = is_failing(self.calls, &self.failing, self.stop_after);
        self.faults = bumped(self.faults, fails);
        match calls::settle(self.alloc, &self.nodes, &mut self.steps, places, fails) {
            Ok(answer) => answer,
            Err(_) => {
                self.told = false;
                self.faults = bumped(self.faults, true);
                Err(Failed)
            }
        }
    }

    fn protect(&mut self, p: &Place) -> Result<(), Failed> {
        self.calls = self.calls.saturating_add(1);
        let fails = is_failing(self.calls, &self.failing, self.stop_after);
        self.faults = bumped(self.faults, fails);
        match calls::protect(self.alloc, &mut self.nodes, &mut self.steps, p, fails) {
            Ok(answer) => answer,
            Err(_) => {
                self.told = false;
                self.faults = bumped(self.faults, true);
                Err(Failed)
            }
        }
    }
}

impl Crew for MemWork {
    fn start(
        &mut self,
        recipe: &Recipe,
        logs: &List<PathText>,
        command: &str,
    ) -> Result<u64, Failed> {
        self.calls = self.calls.saturating_add(1);
        let number = self.next;
        let fails = is_failing(self.calls, &self.failing, self.stop_after)
            || !self.told
            || number == u64::MAX;
        match crew::start(
            self.alloc,
            &mut self.steps,
            &mut self.children,
            number,
            recipe,
            logs,
            command,
            fails,
        ) {
            Ok(Ok(_)) => {
                self.next = number + 1;
                Ok(number)
            }
            Ok(Err(_)) => {
                self.faults = bumped(self.faults, true);
                Err(Failed)
            }
            Err(_) => {
                self.told = false;
                self.faults = bumped(self.faults, true);
                Err(Failed)
            }
        }
    }

    fn wait(&mut self) -> Result<Ended, Failed> {
        self.calls = self.calls.saturating_add(1);
        let fails = is_failing(self.calls, &self.failing, self.stop_after) || !self.told;
        let time = self.latest.saturating_add(1);
        self.latest = time;
        let number = crew::next_to_end(&self.order, self.children.as_slice());
        let killed = self.killed.as_slice().contains(&number);
        match crew::wait(
            self.alloc,
            &mut self.nodes,
            &mut self.steps,
            &mut self.children,
            number,
            killed,
            time,
            fails,
        ) {
            Ok(Ok(ended)) => {
                self.faults = bumped(self.faults, killed);
                Ok(ended)
            }
            Ok(Err(_)) => {
                self.faults = bumped(self.faults, true);
                Err(Failed)
            }
            Err(_) => {
                self.told = false;
                self.faults = bumped(self.faults, true);
                Err(Failed)
            }
        }
    }
}
