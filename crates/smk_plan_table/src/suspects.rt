//! Of which jobs something may be refused.

ghost use Rattle.std.specs.Prelude.{◌≡◌, map, [], false, IfOk};
ghost use Rattle.std.specs.List.{list_any, AllZip};
ghost use Rattle.smk_plan_table.specs.Parts.{above_in, above_of, is_guarded_in, is_marked_in, IsSuspectOf};

use crate::guarding::is_guarded;
use smk_base::{Amount, List, OutOfMemory};
use smk_flow::Job;
use smk_pick::amount_of;
use smk_plan::Told;
use smk_world::{Out, OutItem};
use std::alloc::Global;

/// What may be refused of a job. What isn't told here isn't refused.
#[derive(Clone, Copy)]
pub struct Suspect {
    /// An output of it may have a mark.
    pub marked: bool,
    /// A read-only file may stand at or under an output of it.
    pub guarded: bool,
    /// It may ask more of a resource than its bound.
    pub above: bool,
}

// Whether one of these outputs has a mark.
fn has_marked<T: Told>(told: &T, outs: &[Out]) -> bool
    ensures { result ≡ list_any (is_marked_in (T.known told.now)) (map (λ o. o.path) outs.now) }
{
    for out in outs {
        if told.marked(&out.path) {
            return true;
        }
    }
    false
}

// Whether one of the outputs of these items has a mark.
fn is_marked<T: Told>(told: &T, outputs: &[OutItem]) -> bool
    ensures { result ≡ list_any (λ item. list_any (is_marked_in (T.known told.now)) (map (λ o. o.path) item.outs)) outputs.now }
{
    for item in outputs {
        if has_marked(told, item.outs.as_slice()) {
            return true;
        }
    }
    false
}

// Whether a read-only file was seen at or under one of these outputs.
fn has_guarded<T: Told>(told: &T, outs: &[Out]) -> bool
    ensures { result ≡ list_any (is_guarded_in (T.seen told.now)) (map (λ o. o.path) outs.now) }
{
    for out in outs {
        if is_guarded(told, &out.path) {
            return true;
        }
    }
    false
}

// Whether a read-only file was seen at or under one of the outputs of these items.
fn is_in_the_way<T: Told>(told: &T, outputs: &[OutItem]) -> bool
    ensures { result ≡ list_any (λ item. list_any (is_guarded_in (T.seen told.now)) (map (λ o. o.path) item.outs)) outputs.now }
{
    for item in outputs {
        if has_guarded(told, item.outs.as_slice()) {
            return true;
        }
    }
    false
}

// Whether the job may ask more of the resource than its bound. It may where no number of 64 bits tells how much it asks.
fn may_pass(job: &Job, bound: &Amount) -> bool
    ensures { result ≡ false → above_of job.now bound.now ≡ [] }
{
    match amount_of(job.amounts.as_slice(), &bound.name) {
        None => true,
        Some(asked) => asked > bound.count,
    }
}

// Whether the job may ask more than one of these bounds.
fn is_above(job: &Job, bounds: &[Amount]) -> bool
    ensures { result ≡ false → above_in bounds.now job.now ≡ [] }
{
    for bound in bounds {
        let passes = may_pass(job, bound);
        if passes {
            return true;
        }
    }
    false
}

/// What may be refused of the job, by what is known and was seen, and by these bounds. It takes no memory.
pub fn suspect_of<T: Told>(told: &T, bounds: &List<Amount>, job: &Job) -> Suspect
    ensures { IsSuspectOf (T.known told.now) (T.seen told.now) bounds.now job.now result }
{
    let outputs = job.recipe.outputs.as_slice();
    let marked = is_marked(told, outputs);
    let guarded = is_in_the_way(told, outputs);
    let above = is_above(job, bounds.as_slice());
    Suspect {
        marked,
        guarded,
        above,
    }
}

/// What may be refused of each job. `OutOfMemory` where there is no memory for the answer.
pub fn suspects_of<T: Told>(
    alloc: Global,
    told: &T,
    bounds: &List<Amount>,
    jobs: &[Job],
) -> Result<Vec<Suspect>, OutOfMemory>
    ensures { IfOk result (λ found. AllZip (IsSuspectOf (T.known told.now) (T.seen told.now) bounds.now) jobs.now found.items) }
{
    let mut found = Vec::new(alloc);
    for job in jobs {
        let suspect = suspect_of(told, bounds, job);
        found.push(suspect)?;
    }
    Ok(found)
}
