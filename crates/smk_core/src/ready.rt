//! The jobs that are ready, in lines of those that ask for the same.

ghost use Rattle.std.specs.Prelude.{◌≡◌, ◌<◌, cond, false, length, map, replicate, slice_get, slice_set, IfOk};
ghost use Rattle.std.specs.Option.{option_map};
ghost use Rattle.smk_core.specs.declared.place.TheConstants.{NONE as none};
ghost use Rattle.smk_core.specs.Lines.{least, is_before, better, best_of, IsBest, IsThere, with_entry};
ghost use Rattle.smk_core.specs.Standing.{rank_of, priority_of};

use crate::alike::copy;
use crate::kinds::{lines_of, places_of};
use crate::place::{NONE, Place};
use crate::tournament::Tournament;
use smk_base::{List, OutOfMemory};
use smk_pick::{Ask, Room};
use std::alloc::Global;
use std::marker::Model;

/// Jobs with what they ask for, some of which are in line. There are few kinds of asks, so the first job that fits is found by a look at the
/// head of each line.
#[derive(Drop)]
pub(crate) struct Ready {
    asks: List<Ask>,
    places: Vec<Place>,
    lines: Vec<Tournament>,
}

impl Model for Ready {
    ghost use Rattle.smk_core.specs.Lines.{Line, IsInLine, present_in};

    ghost Value = { Line };

    ghost view = { λ r. record { asks = r.asks; present = present_in r.places.items r.lines.items } };

    ghost invariant = { λ r. IsInLine r.asks r.places.items r.lines.items };
}

fn copies(alloc: Global, asks: &[Ask]) -> Result<List<Ask>, OutOfMemory>
    ensures { IfOk result (λ made. made ≡ asks.now) }
{
    let mut made = List::new(alloc);
    for ask in asks {
        made.push(copy(alloc, ask)?)?;
    }
    Ok(made)
}

// The job's priority.
fn priority(asks: &[Ask], job: u32) -> u64
    ensures { result ≡ priority_of (slice_get asks.now job) }
{
    match asks.get(job as usize) {
        Some(ask) => ask.priority,
        None => 0,
    }
}

// The job's rank: those with lower ranks come first.
fn rank(asks: &[Ask], job: u32) -> (u64, u32)
    ensures { result ≡ rank_of asks.now job }
{
    (u64::MAX - priority(asks, job), job)
}

// Whether the job comes before the best one so far.
fn is_before(asks: &[Ask], job: u32, best: Option<u32>) -> bool
    ensures { result ≡ is_before asks.now job best }
{
    match best {
        Some(best) => rank(asks, job) < rank(asks, best),
        None => true,
    }
}

// The first of the best one so far and this job, where it fits.
fn better(asks: &[Ask], room: &Room, best: Option<u32>, job: u32) -> Option<u32>
    ensures { result ≡ better asks.now room.now best job }
{
    let Some(ask) = asks.get(job as usize) else {
        return best;
    };
    if room.fits(ask) && is_before(asks, job, best) {
        Some(job)
    } else {
        best
    }
}

// The first of the heads of the lines that fit.
fn best_of(asks: &[Ask], room: &Room, lines: &[Tournament]) -> Option<u32>
    ensures { result ≡ best_of asks.now room.now None (map least lines.now) }
{
    let mut best = None;
    for line in lines {
        best = better(asks, room, best, line.least());
    }
    best
}

// The job's number where it is ready, and none where it isn't.
fn number_if(job: u32, is_ready: bool) -> u32
    ensures { result ≡ cond is_ready job none }
{
    if is_ready { job } else { NONE }
}

// Puts the number into the place of the lines.
fn put(lines: &mut Vec<Tournament>, place: Place, number: u32)
    requires { IsThere lines.old.items place }
    ensures { lines.new.items ≡ with_entry lines.old.items place number }
{
    let line = &mut lines[place.line];
    line.set(place.at, number);
}

impl Ready {
    /// The jobs with these asks, none of which is in line. `OutOfMemory` where there is no memory for them.
    pub(crate) fn new(alloc: Global, asks: &[Ask]) -> Result<Ready, OutOfMemory>
        ensures asks { IfOk result (λ ready. ready.asks ≡ asks.now) }
        ensures none { IfOk result (λ ready. ready.present ≡ replicate (length asks.now) false) }
    {
        if asks.len() > NONE as usize {
            return Err(OutOfMemory);
        }
        let (kinds, places) = places_of(alloc, asks)?;
        let lines = lines_of(alloc, kinds.as_slice())?;
        let asks = copies(alloc, asks)?;
        Ok(Ready {
            asks,
            places,
            lines,
        })
    }

    /// What the job asks for.
    pub(crate) fn ask(&self, job: u32) -> Option<&Ask>
        ensures { option_map (λ a. a.now) result ≡ slice_get self.now.asks job }
    {
        self.asks.as_slice().get(job as usize)
    }

    /// Puts the job in line, or takes it out.
    pub(crate) fn set(&mut self, job: u32, is_ready: bool)
        requires { job < length self.old.asks }
        ensures asks { self.new.asks ≡ self.old.asks }
        ensures present { self.new.present ≡ slice_set self.old.present job is_ready }
    {
        let place = self.places[job as usize];
        let number = number_if(job, is_ready);
        put(&mut self.lines, place, number);
    }

    /// The first job in line that fits in the room.
    pub(crate) fn first(&self, room: &Room) -> Option<u32>
        ensures { IsBest self.now room.now result }
    {
        best_of(self.asks.as_slice(), room, self.lines.as_slice())
    }
}
