//! Which files are digested: those that a record of a job has with a SHA-256 and another time.

ghost use Rattle.std.specs.Prelude.{◌≡◌, ◌++◌, ◌||◌, IfOk, OnOk, map};
ghost use Rattle.std.specs.BTreeSet.{contains_text};
ghost use Rattle.std.specs.List.{flat_map, list_any, zip};
ghost use Rattle.smk_world.specs.Trees.{Path};
ghost use Rattle.smk_record.specs.Records.{stamped};
ghost use Rattle.smk_trigger.specs.Reasons.{held};
ghost use Rattle.smk_plan.specs.Summed.{kept_in};
ghost use Rattle.smk_plan_look.specs.Needs.{time_by, time_seen, needs_digest, is_other_than, is_touched, is_touched_at, touches, path_touches, item_touches, job_touches, is_due, item_due, job_due};

use smk_base::{List, OutOfMemory, PathText};
use smk_chain::Jobs;
use smk_chain::sets::put;
use smk_flow::Job;
use smk_plan::Seen;
use smk_record::{Record, Stamp};
use smk_store::{Kept, Store};
use smk_world::{Item, Out, OutItem, Stat};
use std::alloc::Global;
use std::collections::BTreeSet;

// The time of the file, where one is there.
fn time_by(stat: Stat) -> Option<u64>
    ensures { result ≡ time_by stat }
{
    match stat {
        Stat::Nothing => None,
        Stat::File { time, .. } => Some(time),
        Stat::Folder => None,
    }
}

// The time of the file that was seen at the path.
fn time_seen(seen: &Seen, path: &PathText) -> Option<u64>
    ensures { result ≡ time_seen seen.now path.now }
{
    match seen.sight(path) {
        None => None,
        Some(sight) => time_by(sight.stat),
    }
}

// Whether there is a time, which is another one than what was recorded.
fn is_other_than(recorded: u64, seen: Option<u64>) -> bool
    ensures { result ≡ is_other_than recorded seen }
{
    match seen {
        None => false,
        Some(time) => recorded != time,
    }
}

// Whether the input has a SHA-256, and a file was seen there that has another time.
fn is_touched(seen: &Seen, path: &PathText, stamp: &Stamp) -> bool
    ensures { result ≡ is_touched seen.now (path.now, stamp.now) }
{
    match stamp {
        Stamp::Time(_) => false,
        Stamp::Sum(time, _) => is_other_than(*time, time_seen(seen, path)),
        Stamp::Made(_) => false,
    }
}

// Adds the input, where it is touched.
fn add_touched(
    alloc: Global,
    touched: &mut BTreeSet<String>,
    seen: &Seen,
    path: &PathText,
    stamp: &Stamp,
) -> Result<(), OutOfMemory>
    ensures { OnOk result ((q : Path) → contains_text touched.new q ≡ (is_touched_at seen.now q (path.now, stamp.now) || contains_text touched.old q)) }
{
    if !is_touched(seen, path, stamp) {
        return Ok(());
    }
    put(alloc, touched, path)
}

fn push_paths<'r>(found: &mut List<&'r PathText>, paths: &'r [PathText]) -> Result<(), OutOfMemory>
    ensures { OnOk result (map (λ p. p.now) found.new ≡ map (λ p. p.now) found.old ++ paths.now) }
{
    for path in paths {
        found.push(path)?;
    }
    Ok(())
}

// The inputs of the items, in order.
fn inputs_in<'r>(alloc: Global, items: &'r [Item]) -> Result<List<&'r PathText>, OutOfMemory>
    ensures { IfOk result (λ paths. map (λ p. p.now) paths ≡ flat_map (λ item. item.paths) items.now) }
{
    let mut paths = List::new(alloc);
    for item in items {
        push_paths(&mut paths, item.paths.as_slice())?;
    }
    Ok(paths)
}

// Adds those of the inputs, with these stamps, that are touched.
fn add_inputs(
    alloc: Global,
    touched: &mut BTreeSet<String>,
    seen: &Seen,
    paths: &[&PathText],
    stamps: &[Stamp],
) -> Result<(), OutOfMemory>
    ensures { OnOk result ((q : Path) → contains_text touched.new q ≡ (list_any (is_touched_at seen.now q) (zip (map (λ p. p.now) paths.now) stamps.now) || contains_text touched.old q)) }
{
    for (i, path) in paths.iter().enumerate() {
        let Some(stamp) = stamps.get(i) else {
            return Ok(());
        };
        add_touched(alloc, touched, seen, path, stamp)?;
    }
    Ok(())
}

// Adds the touched inputs of the record.
fn add_record(
    alloc: Global,
    touched: &mut BTreeSet<String>,
    seen: &Seen,
    recorded: &Record,
) -> Result<(), OutOfMemory>
    ensures { OnOk result ((q : Path) → contains_text touched.new q ≡ (touches seen.now q recorded.now || contains_text touched.old q)) }
{
    let paths = inputs_in(alloc, recorded.recipe().inputs.as_slice())?;
    add_inputs(
        alloc,
        touched,
        seen,
        paths.as_slice(),
        recorded.stamps().as_slice(),
    )?;
    Ok(())
}

// Adds the touched inputs of what is kept, where that is a record.
fn add_kept(
    alloc: Global,
    touched: &mut BTreeSet<String>,
    seen: &Seen,
    kept: &Kept,
) -> Result<(), OutOfMemory>
    ensures { OnOk result ((q : Path) → contains_text touched.new q ≡ (list_any (touches seen.now q) (held kept.now) || contains_text touched.old q)) }
{
    match kept {
        Kept::Absent => Ok(()),
        Kept::Unreadable => Ok(()),
        Kept::Held(recorded) => add_record(alloc, touched, seen, recorded),
    }
}

// Adds the touched inputs of the path's record, where the store holds one.
fn add_path(
    alloc: Global,
    touched: &mut BTreeSet<String>,
    store: &Store,
    seen: &Seen,
    path: &PathText,
) -> Result<(), OutOfMemory>
    ensures { OnOk result ((q : Path) → contains_text touched.new q ≡ (path_touches store.now seen.now q path.now || contains_text touched.old q)) }
{
    match store.entry(path) {
        None => Ok(()),
        Some(entry) => add_kept(alloc, touched, seen, &entry.kept),
    }
}

// Adds the touched inputs of these outputs' records.
fn add_outs(
    alloc: Global,
    touched: &mut BTreeSet<String>,
    store: &Store,
    seen: &Seen,
    outs: &[Out],
) -> Result<(), OutOfMemory>
    ensures { OnOk result ((q : Path) → contains_text touched.new q ≡ (list_any (λ o. path_touches store.now seen.now q o.path) outs.now || contains_text touched.old q)) }
{
    for out in outs {
        add_path(alloc, touched, store, seen, &out.path)?;
    }
    Ok(())
}

// The inputs of the outputs' records that are touched.
fn touched_in(
    alloc: Global,
    store: &Store,
    seen: &Seen,
    items: &[OutItem],
) -> Result<BTreeSet<String>, OutOfMemory>
    ensures { IfOk result (λ touched. (q : Path) → contains_text touched q ≡ list_any (item_touches store.now seen.now q) items.now) }
{
    let mut touched = BTreeSet::new(alloc);
    for item in items {
        add_outs(alloc, &mut touched, store, seen, item.outs.as_slice())?;
    }
    Ok(touched)
}

// Adds the input, where it is touched and nothing is known of it.
fn add_due(
    alloc: Global,
    needed: &mut BTreeSet<String>,
    store: &Store,
    touched: &BTreeSet<String>,
    path: &PathText,
) -> Result<(), OutOfMemory>
    ensures { OnOk result ((q : Path) → contains_text needed.new q ≡ (is_due store.now (contains_text touched.now) q path.now || contains_text needed.old q)) }
{
    if !touched.contains(path.as_str()) || store.covered(path) {
        return Ok(());
    }
    put(alloc, needed, path)
}

// Adds those of the inputs that are touched and of which nothing is known.
fn add_paths(
    alloc: Global,
    needed: &mut BTreeSet<String>,
    store: &Store,
    touched: &BTreeSet<String>,
    paths: &[PathText],
) -> Result<(), OutOfMemory>
    ensures { OnOk result ((q : Path) → contains_text needed.new q ≡ (list_any (is_due store.now (contains_text touched.now) q) paths.now || contains_text needed.old q)) }
{
    for path in paths {
        add_due(alloc, needed, store, touched, path)?;
    }
    Ok(())
}

fn add_items(
    alloc: Global,
    needed: &mut BTreeSet<String>,
    store: &Store,
    touched: &BTreeSet<String>,
    items: &[Item],
) -> Result<(), OutOfMemory>
    ensures { OnOk result ((q : Path) → contains_text needed.new q ≡ (list_any (item_due store.now (contains_text touched.now) q) items.now || contains_text needed.old q)) }
{
    for item in items {
        add_paths(alloc, needed, store, touched, item.paths.as_slice())?;
    }
    Ok(())
}

// Adds the inputs of the job of which digests are needed.
fn add_job(
    alloc: Global,
    needed: &mut BTreeSet<String>,
    store: &Store,
    seen: &Seen,
    job: &Job,
) -> Result<(), OutOfMemory>
    ensures { OnOk result ((q : Path) → contains_text needed.new q ≡ (job_due store.now seen.now q job.now || contains_text needed.old q)) }
{
    let touched = touched_in(alloc, store, seen, job.recipe.outputs.as_slice())?;
    add_items(alloc, needed, store, &touched, job.recipe.inputs.as_slice())?;
    Ok(())
}

// The inputs of the jobs of which digests are needed.
fn due_in(
    alloc: Global,
    store: &Store,
    seen: &Seen,
    jobs: &[Job],
) -> Result<BTreeSet<String>, OutOfMemory>
    ensures { IfOk result (λ needed. (q : Path) → contains_text needed q ≡ list_any (job_due store.now seen.now q) jobs.now) }
{
    let mut needed = BTreeSet::new(alloc);
    for job in jobs {
        add_job(alloc, &mut needed, store, seen, job)?;
    }
    Ok(needed)
}

/// The inputs of the jobs that were seen as files of which nothing is known, and that a record of the job has with a SHA-256 and another
/// time.
pub(crate) fn needed_in(
    alloc: Global,
    store: &Store,
    seen: &Seen,
    jobs: &Jobs,
) -> Result<BTreeSet<String>, OutOfMemory>
    ensures { IfOk result (λ needed. (q : Path) → contains_text needed q ≡ needs_digest store.now jobs.now seen.now q) }
{
    let needed = due_in(alloc, store, seen, jobs.jobs.as_slice())?;
    Ok(needed)
}
