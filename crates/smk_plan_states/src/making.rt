//! The lines of a table: what is told of each job by numbers.

ghost use Rattle.std.specs.Prelude.{◌≡◌, ◌&&◌, ◌||◌, ◌++◌, ◌∷◌, [], bytes_eq, false, is_none, map, not, List as Items, IfOk, OnOk};
ghost use Rattle.std.specs.BTreeSet.{contains_text};
ghost use Rattle.std.specs.List.{flat_map, list_any};
ghost use Rattle.smk_world.specs.World.{out_paths};
ghost use Rattle.smk_world.specs.Trees.{Path, among};
ghost use Rattle.smk_flow.specs.declared.job.Job.{Job as JobValue};
ghost use Rattle.smk_chain.specs.declared.jobs.Jobs.{Jobs as JobsValue};
ghost use Rattle.smk_plan.specs.States.{job_path};
ghost use Rattle.smk_plan_states.specs.Keys.{has_key};
ghost use Rattle.smk_plan_states.specs.Lines.{link_to, is_of_other, gathered_of, feeds, output_of, temp_of, line_of, origin_of, target_of};
ghost use Rattle.smk_plan_states.specs.Rows.{lent};
ghost use Rattle.smk_plan_states.specs.Ways.{AreWays, AreWants, AreTemps, inputs_by};

use crate::lines::{Gathered, Input, Line, Origin, Output, Target, Temp};
use crate::ways::{Ways, has_key, is_listed, is_of_other, link_to, origin_of, put_key};
use smk_base::{List, OutOfMemory, PathText};
use smk_chain::Maker;
use smk_chain::sets::set_of;
use smk_flow::{Gather, Job};
use smk_plan::name_of;
use smk_world::{Item, Out, OutItem};
use std::alloc::Global;
use std::collections::{BTreeMap, BTreeSet};

/// What is wanted of outputs.
#[derive(Drop)]
pub(crate) struct Wants<'j> {
    pub(crate) targets: BTreeSet<String>,
    /// The directories that jobs await, or of which a target is a member.
    pub(crate) awaited: BTreeSet<String>,
    /// The inputs of jobs.
    pub(crate) read: BTreeMap<&'j str, ()>,
}

fn push_paths<'j>(found: &mut List<&'j PathText>, paths: &'j [PathText]) -> Result<(), OutOfMemory>
    ensures { OnOk result (lent found.new ≡ lent found.old ++ paths.now) }
{
    for path in paths {
        found.push(path)?;
    }
    Ok(())
}

// The paths of the items, in order.
fn paths_in<'j>(alloc: Global, items: &'j [Item]) -> Result<List<&'j PathText>, OutOfMemory>
    ensures { IfOk result (λ paths. lent paths ≡ flat_map (λ item. item.paths) items.now) }
{
    let mut paths = List::new(alloc);
    for item in items {
        push_paths(&mut paths, item.paths.as_slice())?;
    }
    Ok(paths)
}

// Adds an input of the job of the name. It is told whether an earlier one has its path.
fn push_input(
    alloc: Global,
    found: &mut List<Input>,
    ways: &Ways<'_>,
    name: &str,
    path: &PathText,
    again: bool,
) -> Result<(), OutOfMemory>
    ensures { OnOk result ((J : JobsValue) → AreWays J ways.now
        → found.new ≡ found.old ++ record { path = path.now; link = link_to J.makers path.now; again = again; other = is_of_other J name.now path.now } ∷ []) }
{
    found.push(Input {
        path: path.copy(alloc)?,
        link: link_to(ways, path),
        again,
        other: is_of_other(ways, name, path),
    })?;
    Ok(())
}

// The inputs of the job of the name.
fn inputs_in(
    alloc: Global,
    ways: &Ways<'_>,
    name: &str,
    paths: &[&PathText],
) -> Result<List<Input>, OutOfMemory>
    ensures { IfOk result (λ inputs. (J : JobsValue) → AreWays J ways.now → inputs ≡ inputs_by J name.now (λ p. false) (lent paths.now)) }
{
    let mut found = List::new(alloc);
    let mut seen = BTreeMap::new(alloc);
    for path in paths {
        let again = has_key(&seen, path);
        push_input(alloc, &mut found, ways, name, path, again)?;
        put_key(&mut seen, path)?;
    }
    Ok(found)
}

fn gathers_in(
    alloc: Global,
    ways: &Ways<'_>,
    gathers: &[Gather],
) -> Result<List<Gathered>, OutOfMemory>
    ensures { IfOk result (λ found. (J : JobsValue) → AreWays J ways.now → found ≡ map (λ g. gathered_of J g.folder) gathers.now) }
{
    let mut found = List::new(alloc);
    for gather in gathers {
        found.push(Gathered {
            link: link_to(ways, &gather.folder),
            listed: is_listed(ways, &gather.folder),
        })?;
    }
    Ok(found)
}

// Whether one of the outputs is an awaited directory.
fn any_awaited(awaited: &BTreeSet<String>, outs: &[Out]) -> bool
    ensures { result ≡ list_any (λ out. contains_text awaited.now out.path) outs.now }
{
    for out in outs {
        if awaited.contains(out.path.as_str()) {
            return true;
        }
    }
    false
}

// The same of the outputs of the items.
fn any_item_awaited(awaited: &BTreeSet<String>, items: &[OutItem]) -> bool
    ensures { result ≡ list_any (λ item. list_any (λ out. contains_text awaited.now out.path) item.outs) items.now }
{
    for item in items {
        if any_awaited(awaited, item.outs.as_slice()) {
            return true;
        }
    }
    false
}

// Whether the job makes an awaited directory.
fn feeds(wants: &Wants<'_>, job: &Job) -> bool
    ensures { (J : JobsValue) (asked : Items Path) → AreWants J asked wants.now → result ≡ feeds J asked job.now }
{
    any_item_awaited(&wants.awaited, job.recipe.outputs.as_slice())
}

// Whether the set has the path.
fn has_path(set: &BTreeSet<String>, path: &PathText) -> bool
    ensures { result ≡ contains_text set.now path.now }
{
    set.contains(path.as_str())
}

// Whether the output is flagged `temp`, and its job makes no awaited directory.
fn is_temporary(temps: &BTreeSet<String>, feeds: bool, path: &PathText) -> bool
    ensures { result ≡ (contains_text temps.now path.now && not feeds) }
{
    has_path(temps, path) && !feeds
}

// Whether the output is wanted back where it isn't whole, whatever jobs are to run.
fn is_wanted(wants: &Wants<'_>, temps: &BTreeSet<String>, feeds: bool, path: &PathText) -> bool
    ensures { result
        ≡ (contains_text wants.now.targets path.now
        || (contains_text wants.now.awaited path.now || (not (contains_text temps.now path.now && not feeds) && has_key wants.now.read path.now))) }
{
    has_path(&wants.targets, path)
        || (has_path(&wants.awaited, path)
            || (!is_temporary(temps, feeds, path) && has_key(&wants.read, path)))
}

fn output_of(
    ways: &Ways<'_>,
    wants: &Wants<'_>,
    temps: &BTreeSet<String>,
    feeds: bool,
    path: &PathText,
) -> Output
    ensures { (J : JobsValue) (asked : Items Path) (j : JobValue) → AreWays J ways.now → AreWants J asked wants.now → AreTemps J asked j (λ q. contains_text temps.now q) feeds
        → result ≡ output_of J asked j path.now }
{
    Output {
        link: link_to(ways, path),
        wanted: is_wanted(wants, temps, feeds, path),
    }
}

// Adds the outputs.
fn push_outputs(
    found: &mut List<Output>,
    ways: &Ways<'_>,
    wants: &Wants<'_>,
    temps: &BTreeSet<String>,
    feeds: bool,
    outs: &[Out],
) -> Result<(), OutOfMemory>
    ensures { OnOk result ((J : JobsValue) (asked : Items Path) (j : JobValue) → AreWays J ways.now → AreWants J asked wants.now → AreTemps J asked j (λ q. contains_text temps.now q) feeds
        → found.new ≡ found.old ++ map (λ out. output_of J asked j out.path) outs.now) }
{
    for out in outs {
        found.push(output_of(ways, wants, temps, feeds, &out.path))?;
    }
    Ok(())
}

fn outputs_in(
    alloc: Global,
    ways: &Ways<'_>,
    wants: &Wants<'_>,
    temps: &BTreeSet<String>,
    feeds: bool,
    items: &[OutItem],
) -> Result<List<Output>, OutOfMemory>
    ensures { IfOk result (λ found. (J : JobsValue) (asked : Items Path) (j : JobValue) → AreWays J ways.now → AreWants J asked wants.now → AreTemps J asked j (λ q. contains_text temps.now q) feeds
        → found ≡ flat_map (λ item. map (λ out. output_of J asked j out.path) item.outs) items.now) }
{
    let mut found = List::new(alloc);
    for item in items {
        push_outputs(&mut found, ways, wants, temps, feeds, item.outs.as_slice())?;
    }
    Ok(found)
}

fn temp_of(ways: &Ways<'_>, wants: &Wants<'_>, path: &PathText) -> Temp
    ensures { (J : JobsValue) (asked : Items Path) → AreWays J ways.now → AreWants J asked wants.now → result ≡ temp_of J asked path.now }
{
    Temp {
        link: link_to(ways, path),
        target: has_path(&wants.targets, path),
    }
}

fn temps_in(
    alloc: Global,
    ways: &Ways<'_>,
    wants: &Wants<'_>,
    temps: &[PathText],
) -> Result<List<Temp>, OutOfMemory>
    ensures { IfOk result (λ found. (J : JobsValue) (asked : Items Path) → AreWays J ways.now → AreWants J asked wants.now → found ≡ map (temp_of J asked) temps.now) }
{
    let mut found = List::new(alloc);
    for path in temps {
        found.push(temp_of(ways, wants, path))?;
    }
    Ok(found)
}

fn line_of(
    alloc: Global,
    ways: &Ways<'_>,
    wants: &Wants<'_>,
    job: &Job,
) -> Result<Line, OutOfMemory>
    ensures { IfOk result (λ line. (J : JobsValue) (asked : Items Path) → AreWays J ways.now → AreWants J asked wants.now → line ≡ line_of J asked job.now) }
{
    let paths = paths_in(alloc, job.recipe.inputs.as_slice())?;
    let temps = set_of(alloc, job.temps.as_slice())?;
    let feeds = feeds(wants, job);
    Ok(Line {
        inputs: inputs_in(alloc, ways, name_of(job), paths.as_slice())?,
        gathers: gathers_in(alloc, ways, job.gathers.as_slice())?,
        outputs: outputs_in(
            alloc,
            ways,
            wants,
            &temps,
            feeds,
            job.recipe.outputs.as_slice(),
        )?,
        temps: temps_in(alloc, ways, wants, job.temps.as_slice())?,
        feeds,
    })
}

/// A line for each job.
pub(crate) fn lines_of(
    alloc: Global,
    ways: &Ways<'_>,
    wants: &Wants<'_>,
    jobs: &[Job],
) -> Result<List<Line>, OutOfMemory>
    ensures { IfOk result (λ lines. (J : JobsValue) (asked : Items Path) → AreWays J ways.now → AreWants J asked wants.now → lines ≡ map (line_of J asked) jobs.now) }
{
    let mut lines = List::new(alloc);
    for job in jobs {
        lines.push(line_of(alloc, ways, wants, job)?)?;
    }
    Ok(lines)
}

/// What makes the path of each maker.
pub(crate) fn origins_of(
    alloc: Global,
    ways: &Ways<'_>,
    makers: &[Maker],
) -> Result<List<Origin>, OutOfMemory>
    ensures { IfOk result (λ origins. (J : JobsValue) → AreWays J ways.now → origins ≡ map (origin_of J.jobs) makers.now) }
{
    let mut origins = List::new(alloc);
    for maker in makers {
        origins.push(origin_of(ways, maker))?;
    }
    Ok(origins)
}

/// The targets. `sources` are the paths of which some maker tells as sources.
pub(crate) fn targets_of(
    alloc: Global,
    ways: &Ways<'_>,
    sources: &BTreeMap<&str, ()>,
    targets: &[PathText],
) -> Result<List<Target>, OutOfMemory>
    ensures { IfOk result (λ found. (J : JobsValue) → AreWays J ways.now → ((q : Path) → has_key sources.now q ≡ list_any (λ m. is_none m.job && bytes_eq m.path q) J.makers)
        → found ≡ map (target_of J) targets.now) }
{
    let mut found = List::new(alloc);
    for path in targets {
        found.push(Target {
            link: link_to(ways, path),
            source: has_key(sources, path),
        })?;
    }
    Ok(found)
}
