//! The call of the engine in the working folder.

ghost use Rattle.std.specs.Prelude.{◌≡◌, [], map};

use smk_base::OutOfMemory;
use smk_cli_headline::{Fault, smk};
use smk_world_real::{RealSink, RealWork};
use std::alloc::Global;
use std::process::Processes;
use std::rt::Files;
use std::thread::Threads;
use std::time::Clock;

/// Does what the words ask; the status and the fault of the call.
pub(crate) fn call<'r, 'p, R: Files + Processes + Clock + Threads + Sync>(
    rt: &'r R,
    alloc: Global,
    words: &[String],
    work: &mut RealWork<&'r R>,
    output: &mut RealSink<'p>,
    errors: &mut RealSink<'p>,
) -> (u8, Option<Fault>)
    requires { map (λ c. c.number) work.old.children.items ≡ [] }
{
    let outcome = smk(rt, alloc, words, work, output, errors);
    (outcome.status, outcome.fault)
}

/// What a listing by these words, which are to begin with `-n`, ends with: its fault, or how many jobs a run by the others has, where no job of it
/// is open. Nothing of it is seen.
pub(crate) fn listed<R: Files + Processes + Clock + Threads + Sync>(
    rt: &R,
    alloc: Global,
    words: &[String],
) -> (Option<Fault>, Option<u64>) {
    let mut work = RealWork::new(alloc, rt);
    let mut output = RealSink::silent();
    let mut errors = RealSink::silent();
    let (_, fault) = call(rt, alloc, words, &mut work, &mut output, &mut errors);
    (fault, output.jobs())
}

/// How many jobs a run by these words has, where that can be known before it begins.
pub(crate) fn jobs_of<R: Files + Processes + Clock + Threads + Sync>(
    rt: &R,
    alloc: Global,
    words: &[String],
) -> Option<u64> {
    let listing = listing_of(alloc, words).ok()?;
    let (_, jobs) = listed(rt, alloc, listing.as_slice());
    jobs
}

// The words of the listing of a run by these words.
fn listing_of(alloc: Global, words: &[String]) -> Result<Vec<String>, OutOfMemory> {
    let mut listing = Vec::new(alloc);
    listing.push(String::from_str(alloc, "-n")?)?;
    for word in words {
        listing.push(String::from_str(alloc, word.as_str())?)?;
    }
    Ok(listing)
}
