//! What a walk has reached.

ghost use Rattle.std.specs.Prelude.{◌≡◌, ℕ, [], ◌∷◌, ◌++◌, List as Items, true, bytes_eq, length, Some, None, IfOk, IfErr, OnOk, if◌then◌else◌, string_bytes, option_to_list};
ghost use Rattle.std.specs.List.{filter_map};
ghost use Rattle.indexmap.specs.IndexMap.{values};
ghost use Rattle.smk_world.specs.Trees.{Path};
ghost use Rattle.smk_flow.specs.Flows.{Flow, Candidate};
ghost use Rattle.smk_choose.specs.Choose.{Sources as Which, Source, choose};
ghost use Rattle.smk_choose.specs.Told.{making as making_of};
ghost use Rattle.smk_chain.specs.Derive.{Listings as Lists};
ghost use Rattle.smk_choose_wants.specs.Wants.{IsChosen};
ghost use Rattle.smk_chain_walk.specs.Numbers.{place_of, added};
ghost use Rattle.smk_chain_walk.specs.Once.{one_added, all_once, IsSeen};
ghost use Rattle.smk_chain_walk.specs.Stepping.{text_in};
ghost use Rattle.smk_chain_walk.specs.Steps.{is_done, done_at, number_done, number_at, AreTold, Holds, IsServed, Keeps, MayClose};
ghost use Rattle.smk_chain_walk.specs.Queries.{IsGuided};

use crate::keys::key_of;
use crate::query::Query;
use indexmap::{IndexMap, IndexSet};
use smk_base::{List, OutOfMemory, PathText};
use smk_chain::{ChainFault, Maker};
use smk_choose::Making;
use smk_choose_wants::{Want, job_of};
use smk_flow::Job;
use std::alloc::Global;
use std::collections::BTreeSet;

/// The jobs so far, in plan order, with what makes each path that is done.
#[derive(Drop)]
pub(crate) struct Reached {
    /// What makes each path that is done, in the order in which they were done.
    pub(crate) done: IndexMap<String, Maker>,
    /// A text for each job that no other job has: the number of a job is the place of its text.
    pub(crate) texts: IndexSet<String>,
    pub(crate) jobs: List<Job>,
    pub(crate) befores: List<List<u32>>,
}

impl Reached {
    /// Nothing.
    pub(crate) fn new(alloc: Global) -> Reached
        ensures { (flow : Flow) (sources : Which) (L : Lists) → Holds flow sources L result [] }
    {
        Reached {
            done: IndexMap::new(alloc),
            texts: IndexSet::new(alloc),
            jobs: List::new(alloc),
            befores: List::new(alloc),
        }
    }

    /// Whether the path has been walked from.
    pub(crate) fn is_done(&self, path: &PathText) -> bool
        ensures { result ≡ is_done self.now path.now }
    {
        self.done.contains_key(path.as_str())
    }

    // Notes that the path is done, and the number of its job.
    fn note(
        &mut self,
        alloc: Global,
        path: &PathText,
        number: Option<u32>,
    ) -> Result<(), OutOfMemory>
        ensures done { OnOk result ((q : Path) → done_at self.new q ≡ (if bytes_eq path.now q then Some number else done_at self.old q)) }
        ensures told { OnOk result (AreTold self.old.done.entries → AreTold self.new.done.entries) }
        ensures jobs { self.new.jobs ≡ self.old.jobs }
        ensures befores { self.new.befores ≡ self.old.befores }
        ensures texts { self.new.texts.keys ≡ self.old.texts.keys }
    {
        let key = String::from_str(alloc, path.as_str())?;
        let path = path.copy(alloc)?;
        self.done.insert(key, Maker { path, job: number })?;
        Ok(())
    }

    /// Notes that a source is done.
    pub(crate) fn note_source(&mut self, alloc: Global, path: &PathText) -> Result<(), ChainFault>
        ensures memory { IfErr result (λ fault. fault ≡ ChainFault.OutOfMemory) }
        ensures done { OnOk result (is_done self.new path.now ≡ true) }
        ensures keeps { OnOk result (Keeps self.old self.new) }
        ensures noted { (flow : Flow) (sources : Which) (L : Lists) (cs : Items Candidate) → Holds flow sources L self.old cs → choose flow sources path.now ≡ Source
            → OnOk result (Holds flow sources L self.new cs) }
    {
        self.note(alloc, path, None)?;
        Ok(())
    }

    // The number of the job that makes what is wanted, where that is done and no source.
    fn number_of(&self, want: &Want) -> Option<u32>
        ensures { result ≡ number_done self.now (text_in want.now) }
    {
        match want {
            Want::Path(path) => self.number_under(path.as_str()),
            Want::NoPath(text) => self.number_under(text.as_str()),
        }
    }

    fn number_under(&self, path: &str) -> Option<u32>
        ensures { result ≡ number_done self.now path.now }
    {
        match self.done.get(path) {
            Some(maker) => maker.job,
            None => None,
        }
    }

    // The numbers of the jobs that make these, each once.
    fn numbers_of(&self, alloc: Global, wants: &[Want]) -> Result<List<u32>, OutOfMemory>
        ensures { IfOk result (λ numbers. numbers ≡ all_once [] (filter_map (λ w. number_done self.now (text_in w)) wants.now)) }
    {
        let mut once = Once {
            seen: BTreeSet::new(alloc),
            numbers: List::new(alloc),
        };
        for want in wants {
            once.add(self.number_of(want))?;
        }
        Ok(once.numbers)
    }

    // Adds the job under its text, which no job has, and gives its number.
    fn push(&mut self, key: String, job: Job, befores: List<u32>) -> Result<u32, OutOfMemory>
        requires { number_at self.old (string_bytes key) ≡ None }
        ensures number { IfOk result (λ number. number ≡ length self.old.texts.keys) }
        ensures jobs { OnOk result (self.new.jobs ≡ self.old.jobs ++ job ∷ []) }
        ensures befores { OnOk result (self.new.befores ≡ self.old.befores ++ befores ∷ []) }
        ensures texts { OnOk result (self.new.texts.keys ≡ self.old.texts.keys ++ key ∷ []) }
        ensures done { self.new.done.entries ≡ self.old.done.entries }
    {
        let number = as_number(self.texts.len())?;
        self.jobs.push(job)?;
        self.befores.push(befores)?;
        self.texts.insert(key)?;
        Ok(number)
    }

    // Adds the job unless it is there, and gives its number. All that it wants is done.
    fn put(
        &mut self,
        alloc: Global,
        query: &Query<'_>,
        making: &Making,
        wanted: &[Want],
    ) -> Result<u32, OutOfMemory>
        requires guide { IsGuided query.now }
        requires chosen { IsChosen query.now.flow.now making.now }
        ensures done { self.new.done.entries ≡ self.old.done.entries }
        ensures put { (S : Which) (p : Path) (c : Candidate) (cs : Items Candidate)
            → IsServed query.now.flow.now S query.now.lists.now self.old p making.now wanted.now c → Holds query.now.flow.now S query.now.lists.now self.old cs
            → IfOk result (λ number. Holds query.now.flow.now S query.now.lists.now self.new (added cs c) × (place_of (added cs c) (making_of c) ≡ Some number)) }
    {
        let key = key_of(alloc, making)?;
        if let Some(place) = self.texts.get_index_of(key.as_str()) {
            return as_number(place);
        }
        let job = job_of(alloc, query.flow, query.lists, &query.guide.places, making)?;
        let befores = self.numbers_of(alloc, wanted)?;
        self.push(key, job, befores)
    }

    /// Adds the job that makes the path unless it is there, and notes that the path is done. All that the job wants is done.
    pub(crate) fn settle(
        &mut self,
        alloc: Global,
        query: &Query<'_>,
        path: &PathText,
        making: &Making,
        wanted: &[Want],
    ) -> Result<(), ChainFault>
        requires guide { IsGuided query.now }
        requires chosen { IsChosen query.now.flow.now making.now }
        ensures memory { IfErr result (λ fault. fault ≡ ChainFault.OutOfMemory) }
        ensures done { OnOk result (is_done self.new path.now ≡ true) }
        ensures keeps { OnOk result (Keeps self.old self.new) }
        ensures settled { (S : Which) (c : Candidate) (cs : Items Candidate) → IsServed query.now.flow.now S query.now.lists.now self.old path.now making.now wanted.now c
            → MayClose query.now.flow.now S query.now.lists.now self.old path.now c cs → OnOk result (Holds query.now.flow.now S query.now.lists.now self.new (added cs c)) }
    {
        let number = self.put(alloc, query, making, wanted)?;
        self.note(alloc, path, Some(number))?;
        Ok(())
    }
}

// The number of the job at this place. `OutOfMemory` where there are no more numbers.
fn as_number(place: usize) -> Result<u32, OutOfMemory>
    ensures { IfOk result (λ number. number ≡ place) }
{
    match u32::try_from(place) {
        Ok(number) => Ok(number),
        Err(_) => Err(OutOfMemory),
    }
}

/// What makes each of the paths that are done, in order.
pub(crate) fn makers_of(
    alloc: Global,
    done: IndexMap<String, Maker>,
) -> Result<List<Maker>, ChainFault>
    ensures memory { IfErr result (λ fault. fault ≡ ChainFault.OutOfMemory) }
    ensures makers { IfOk result (λ makers. makers ≡ values done) }
{
    let mut makers = List::new(alloc);
    for maker in done.into_values() {
        makers.push(maker)?;
    }
    Ok(makers)
}

// Numbers, each once.
#[derive(Drop)]
struct Once {
    seen: BTreeSet<u32>,
    numbers: List<u32>,
}

impl Once {
    // Adds the number at the end, unless it is there.
    fn put(&mut self, number: u32) -> Result<(), OutOfMemory>
        ensures { IsSeen self.old → OnOk result (IsSeen self.new × (self.new.numbers ≡ one_added self.old.numbers number)) }
    {
        if self.seen.insert(number)? {
            self.numbers.push(number)?;
        }
        Ok(())
    }

    fn add(&mut self, number: Option<u32>) -> Result<(), OutOfMemory>
        ensures { IsSeen self.old → OnOk result (IsSeen self.new × (self.new.numbers ≡ all_once self.old.numbers (option_to_list number))) }
    {
        match number {
            Some(number) => self.put(number),
            None => Ok(()),
        }
    }
}
