//! The children of a run.

ghost use Rattle.std.specs.Prelude.{◌≡◌, ◌<◌, ℕ, Option, Some, None, IfOk, IfSome, MatchOption, is_none, length, option_map, replicate, false, true, slice_index_or, slice_set};
ghost use Rattle.std.specs.List.{list_all, list_any};
ghost use Rattle.smk_job.specs.Jobs.{Underway};
ghost use Rattle.smk_world.specs.Trees.{IsIn};
ghost use Rattle.smk_drive_step.specs.Crews.{IsFoundAt, IsPutFor, changed_at, goings, is_numbered, renumbered, with_job};

use smk_base::{List, OutOfMemory, Text};
use smk_job::Going;
use smk_pick::Ask;
use std::alloc::Global;
use std::mem;

/// A job whose child runs.
#[derive(Drop)]
pub struct Child {
    /// All that it takes to close the job.
    pub going: Going,
    /// The number of its job in the plan.
    pub job: u32,
    /// What the job asks for, and has of the room while the child runs.
    pub ask: Ask,
    /// The line of its end, where it ends well.
    pub done: Text,
}

/// The children that run, each in a place of its own.
#[derive(Drop)]
pub struct Children {
    pub(crate) places: Vec<Option<Child>>,
}

// Whether the child in the place has the number.
fn is_numbered(number: u64, place: &Option<Child>) -> bool
    ensures { result ≡ is_numbered number place.now }
{
    match place {
        Some(child) => child.going.number() == number,
        None => false,
    }
}

// The first place that is free.
fn free_place(places: &[Option<Child>]) -> Option<usize>
    ensures some { IfSome result (IsFoundAt is_none places.now) }
    ensures none { result ≡ None → list_any is_none places.now ≡ false }
{
    for (at, place) in places.iter().enumerate() {
        if place.is_none() {
            return Some(at);
        }
    }
    None
}

// The first place with a child of this number.
fn place_of(places: &[Option<Child>], number: u64) -> Option<usize>
    ensures some { IfSome result (IsFoundAt (is_numbered number) places.now) }
    ensures none { result ≡ None → list_any (is_numbered number) places.now ≡ false }
{
    for (at, place) in places.iter().enumerate() {
        if is_numbered(number, place) {
            return Some(at);
        }
    }
    None
}

// Whether all of the places are free.
fn are_free(places: &[Option<Child>]) -> bool
    ensures { result ≡ list_all is_none places.now }
{
    for place in places {
        if place.is_some() {
            return false;
        }
    }
    true
}

// Puts what is given into the place. What was there is the answer.
fn swap(places: &mut Vec<Option<Child>>, at: usize, child: Option<Child>) -> Option<Child>
    requires { at < length places.old.items }
    ensures was { result ≡ slice_index_or places.old.items at result }
    ensures now { places.new.items ≡ slice_set places.old.items at child }
{
    mem::replace(&mut places[at], child)
}

// Gives the job of the child, if there is one, this number.
fn set_job(place: &mut Option<Child>, number: u32)
    ensures { place.new ≡ option_map (with_job number) place.old }
{
    match place {
        Some(child) => child.job = number,
        None => {}
    }
}

// The same in the place, if there is such a place.
fn set_job_at(places: &mut Vec<Option<Child>>, at: usize, number: u32)
    ensures { places.new.items ≡ changed_at (option_map (with_job number)) at places.old.items }
{
    if at < places.len() {
        set_job(&mut places[at], number);
    }
}

// The same in all places, by these numbers.
#[tactic(auto, using(crate::proofs::Renumbered::renumbered_last))]
fn set_jobs(places: &mut Vec<Option<Child>>, numbers: List<u32>)
    ensures { places.new.items ≡ renumbered numbers places.old.items }
{
    let mut left = numbers;
    'numbers: while let Some(number) = left.pop() {
        let at = left.len();
        set_job_at(places, at, number);
    }
}

impl Children {
    /// So many places, all free. `OutOfMemory` where there is no memory for them.
    pub fn new(alloc: Global, count: u64) -> Result<Children, OutOfMemory>
        ensures { IfOk result (λ children. children.places.items ≡ replicate count None) }
    {
        let mut places = Vec::new(alloc);
        for _ in 0..count {
            places.push(None)?;
        }
        Ok(Children { places })
    }

    /// Whether a place is free.
    pub fn has_room(&self) -> bool
        ensures { result ≡ list_any is_none self.now.places.items }
    {
        free_place(self.places.as_slice()).is_some()
    }

    /// Whether no child runs.
    pub fn is_empty(&self) -> bool
        ensures { result ≡ list_all is_none self.now.places.items }
    {
        are_free(self.places.as_slice())
    }

    /// The places, each with its child, if there is one. It takes no memory.
    pub fn as_slice(&self) -> &[Option<Child>]
        ensures { result.now ≡ self.now.places.items }
    {
        self.places.as_slice()
    }

    /// Gives the jobs of the children new numbers: these, by their places. It takes no memory.
    pub fn renumber(&mut self, numbers: List<u32>)
        ensures { self.new.places.items ≡ renumbered numbers self.old.places.items }
    {
        set_jobs(&mut self.places, numbers);
    }

    /// Puts the child into a place that is free. It takes no memory. The child comes back where there is none.
    pub fn put(&mut self, child: Child) -> Option<Child>
        ensures put { MatchOption result (IsPutFor None (Some child) self.old.places.items self.new.places.items) (λ back. (back ≡ child) × (self.new ≡ self.old)) }
        ensures room { list_any is_none self.old.places.items ≡ true → result ≡ None }
    {
        match free_place(self.places.as_slice()) {
            Some(at) => swap(&mut self.places, at, Some(child)),
            None => Some(child),
        }
    }

    /// Takes away the child that has the number. It takes no memory. None where there is none.
    pub fn take(&mut self, number: u64) -> Option<Child>
        ensures some { IfSome result (λ child. (child.going.number ≡ number) × IsPutFor (Some child) None self.old.places.items self.new.places.items) }
        ensures none { result ≡ None → (self.new ≡ self.old) × ((g : Underway) → IsIn (goings self.old.places.items) g → ¬ (g.number ≡ number)) }
    {
        match place_of(self.places.as_slice(), number) {
            Some(at) => swap(&mut self.places, at, None),
            None => None,
        }
    }
}
