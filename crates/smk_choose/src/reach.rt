//! The paths that candidates want, again and again, each by its number.

ghost use Rattle.std.specs.Prelude.{◌≡◌, ℕ, ◌<◌, ◌≤◌, ◌+◌, [], length, Some, map, slice_get, IfOk, OnOk};
ghost use Rattle.std.specs.BTreeMap.{get_by_text};
ghost use Rattle.std.specs.List.{AllByRecursion};
ghost use Rattle.smk_flow.specs.Flows.{Flow};
ghost use Rattle.smk_choose.specs.Choose.{Sources as Known, avail};
ghost use Rattle.smk_choose.specs.Heights.{is_within, height_at};
ghost use Rattle.smk_choose.specs.Told.{told_by, making};
ghost use Rattle.smk_choose.specs.Index.{AreReadings};
ghost use Rattle.smk_choose.specs.Readings.{filled_by};
ghost use Rattle.smk_choose.specs.declared.nodes.Want.{Want};
ghost use Rattle.smk_choose.specs.Reach.{AreNumbered, Grows, HasNumber, Within, path_at, IsWant, AreWants, shapes_in, IsMade, AreMade, IsNode, AreNodes, AreFlagged, Spans, IsReach, HasGrown};

use crate::candidates::{candidates, filled};
use crate::heights::least_heights;
use crate::nodes::{Node, Want, Way};
use crate::readings::Reading;
use crate::{Making, Readings, Sources};
use smk_base::{List, OutOfMemory, PathFault, PathText, Text};
use smk_flow::Workflow;
use smk_pattern::{Binding, Pattern};
use std::alloc::Global;
use std::collections::BTreeMap;

/// Paths with their numbers, and for the first of them what may make them.
#[derive(Drop)]
pub(crate) struct Reach {
    pub(crate) numbers: BTreeMap<String, usize>,
    pub(crate) paths: Vec<PathText>,
    pub(crate) nodes: Vec<Node>,
}

// The number of the path, which is a new one if it has none yet.
#[tactic(auto, using(crate::proofs::Growing::grows_same, crate::proofs::Growing::grows_then))]
fn number(alloc: Global, reach: &mut Reach, path: PathText) -> Result<usize, OutOfMemory>
    requires { AreNumbered reach.old }
    ensures numbered { OnOk result (AreNumbered reach.new) }
    ensures grows { OnOk result (Grows reach.old reach.new) }
    ensures nodes { reach.new.nodes ≡ reach.old.nodes }
    ensures is { IfOk result (λ n. IsWant reach.new.paths.items (Want.Path n) path) }
    ensures kept { IfOk result (λ n. get_by_text reach.new.numbers path ≡ Some n) }
{
    match reach.numbers.get(path.as_str()) {
        Some(number) => Ok(*number),
        None => {
            let number = reach.paths.len();
            let key = String::from_str(alloc, path.as_str())?;
            reach.paths.push(path)?;
            reach.numbers.insert(key, number)?;
            Ok(number)
        }
    }
}

// The text as what is wanted.
#[tactic(auto, using(crate::proofs::Growing::grows_same, crate::proofs::Growing::grows_then))]
fn want(alloc: Global, reach: &mut Reach, text: Text) -> Result<Want, OutOfMemory>
    requires { AreNumbered reach.old }
    ensures numbered { OnOk result (AreNumbered reach.new) }
    ensures grows { OnOk result (Grows reach.old reach.new) }
    ensures nodes { reach.new.nodes ≡ reach.old.nodes }
    ensures is { IfOk result (λ w. IsWant reach.new.paths.items w text) }
{
    match PathText::read(alloc, text.as_str()) {
        Ok(path) => Ok(Want::Path(number(alloc, reach, path)?)),
        Err(PathFault::BadPath) => Ok(Want::NoPath(text)),
        Err(PathFault::OutOfMemory) => Err(OutOfMemory),
    }
}

// What the patterns give with the values of the binding.
#[tactic(auto, using(crate::proofs::Growing::grows_same, crate::proofs::Growing::grows_then))]
fn wants(
    alloc: Global,
    reach: &mut Reach,
    patterns: &[Pattern],
    binding: &Binding,
) -> Result<List<Want>, OutOfMemory>
    requires { AreNumbered reach.old }
    ensures numbered { OnOk result (AreNumbered reach.new) }
    ensures grows { OnOk result (Grows reach.old reach.new) }
    ensures nodes { reach.new.nodes ≡ reach.old.nodes }
    ensures are { IfOk result (λ ws. AreWants reach.new.paths.items ws (map (filled_by binding.now) patterns.now)) }
{
    let mut wants = List::new(alloc);
    for pattern in patterns {
        let text = filled(alloc, pattern, binding)?;
        wants.push(want(alloc, reach, text)?)?;
    }
    Ok(wants)
}

// The patterns of what the jobs of this rule want.
fn wanted(readings: &[Reading], rule: u32) -> &[Pattern]
    ensures { result.now ≡ shapes_in (slice_get readings.now rule) }
{
    match readings.get(rule as usize) {
        Some(reading) => reading.wants.as_slice(),
        None => &[],
    }
}

// The job with what it wants.
#[tactic(auto, using(crate::proofs::Growing::grows_same, crate::proofs::Growing::grows_then))]
fn way(
    alloc: Global,
    reach: &mut Reach,
    readings: &[Reading],
    making: Making,
) -> Result<Way, OutOfMemory>
    requires { AreNumbered reach.old }
    ensures numbered { OnOk result (AreNumbered reach.new) }
    ensures grows { OnOk result (Grows reach.old reach.new) }
    ensures nodes { OnOk result (reach.new.nodes ≡ reach.old.nodes) }
    ensures is { IfOk result (λ w. IsMade readings.now reach.new.paths.items w making) }
{
    let wants = wants(alloc, reach, wanted(readings, making.rule), &making.binding)?;
    Ok(Way { making, wants })
}

// The jobs with what they want.
#[tactic(auto, using(crate::proofs::Growing::grows_same, crate::proofs::Growing::grows_then))]
fn ways(
    alloc: Global,
    reach: &mut Reach,
    readings: &[Reading],
    found: Vec<Making>,
) -> Result<List<Way>, OutOfMemory>
    requires { AreNumbered reach.old }
    ensures numbered { OnOk result (AreNumbered reach.new) }
    ensures grows { OnOk result (Grows reach.old reach.new) }
    ensures nodes { OnOk result (reach.new.nodes ≡ reach.old.nodes) }
    ensures are { IfOk result (λ ws. AreMade readings.now reach.new.paths.items ws found.items) }
{
    let mut ways = List::new(alloc);
    for making in found {
        ways.push(way(alloc, reach, readings, making)?)?;
    }
    Ok(ways)
}

// What may make the path.
#[tactic(auto, using(crate::proofs::Growing::grows_same, crate::proofs::Growing::grows_then))]
fn node(
    alloc: Global,
    flow: &Workflow,
    readings: &Readings,
    sources: &Sources,
    reach: &mut Reach,
    path: &PathText,
) -> Result<Node, OutOfMemory>
    requires numbered { AreNumbered reach.old }
    requires readings { AreReadings flow.now readings.now }
    ensures numbered { OnOk result (AreNumbered reach.new) }
    ensures grows { OnOk result (Grows reach.old reach.new) }
    ensures nodes { OnOk result (reach.new.nodes ≡ reach.old.nodes) }
    ensures is { IfOk result (λ n. IsNode flow.now (told_by sources.now) reach.new.paths.items n path.now) }
{
    if sources.is(path) {
        return Ok(Node {
            source: true,
            ways: List::new(alloc),
        });
    }
    let found = candidates(alloc, flow, readings, sources, path)?;
    let ways = ways(alloc, reach, &readings.rules, found)?;
    Ok(Node {
        source: false,
        ways,
    })
}

// Adds what may make the first path of which it isn't known yet.
#[tactic(auto, using(crate::proofs::Growing::grows_same, crate::proofs::Growing::grows_then))]
fn add_node(
    alloc: Global,
    flow: &Workflow,
    readings: &Readings,
    sources: &Sources,
    reach: &mut Reach,
) -> Result<(), OutOfMemory>
    requires numbered { AreNumbered reach.old }
    requires readings { AreReadings flow.now readings.now }
    requires left { length reach.old.nodes.items < length reach.old.paths.items }
    requires known { AreNodes flow.now (told_by sources.now) reach.old }
    ensures numbered { OnOk result (AreNumbered reach.new) }
    ensures grows { OnOk result (Grows reach.old reach.new) }
    ensures known { OnOk result (AreNodes flow.now (told_by sources.now) reach.new) }
    ensures count { OnOk result (length reach.new.nodes.items ≡ length reach.old.nodes.items + 1) }
{
    let path = reach.paths[reach.nodes.len()].copy(alloc)?;
    let made = node(alloc, flow, readings, sources, reach, &path)?;
    reach.nodes.push(made)?;
    Ok(())
}

// Adds what may make each path before this number.
#[tactic(auto, using(crate::proofs::Growing::grows_same, crate::proofs::Growing::grows_then))]
fn add_nodes(
    alloc: Global,
    flow: &Workflow,
    readings: &Readings,
    sources: &Sources,
    reach: &mut Reach,
    end: usize,
) -> Result<(), OutOfMemory>
    requires numbered { AreNumbered reach.old }
    requires readings { AreReadings flow.now readings.now }
    requires within { end ≤ length reach.old.paths.items }
    requires known { AreNodes flow.now (told_by sources.now) reach.old }
    ensures numbered { OnOk result (AreNumbered reach.new) }
    ensures grows { OnOk result (Grows reach.old reach.new) }
    ensures known { OnOk result (AreNodes flow.now (told_by sources.now) reach.new) }
    ensures count { OnOk result (end ≤ length reach.new.nodes.items) }
{
    'nodes: while reach.nodes.len() < end {
        add_node(alloc, flow, readings, sources, reach)?;
    }
    Ok(())
}

// Adds whether each path before this number is a source, where nothing is known of it, and no way to make it.
#[tactic(auto, using(crate::proofs::Growing::grows_same, crate::proofs::Growing::grows_then))]
fn add_last(
    alloc: Global,
    sources: &Sources,
    reach: &mut Reach,
    end: usize,
) -> Result<(), OutOfMemory>
    requires numbered { AreNumbered reach.old }
    requires within { end ≤ length reach.old.paths.items }
    requires known { AreFlagged (told_by sources.now) reach.old }
    ensures numbered { OnOk result (AreNumbered reach.new) }
    ensures grows { OnOk result (Grows reach.old reach.new) }
    ensures known { OnOk result (AreFlagged (told_by sources.now) reach.new) }
    ensures count { OnOk result (end ≤ length reach.new.nodes.items) }
{
    'nodes: while reach.nodes.len() < end {
        let source = sources.is(&reach.paths[reach.nodes.len()]);
        let ways = List::new(alloc);
        reach.nodes.push(Node { source, ways })?;
    }
    Ok(())
}

/// Adds what may make the paths and what that wants, and so on, so many levels deep; below these, whether a path is a source.
#[tactic(auto, using(crate::proofs::Growing::grows_same, crate::proofs::Growing::grows_then))]
pub(crate) fn expand(
    alloc: Global,
    flow: &Workflow,
    readings: &Readings,
    sources: &Sources,
    reach: &mut Reach,
    levels: u32,
) -> Result<(), OutOfMemory>
    requires readings { AreReadings flow.now readings.now }
    requires reach { IsReach flow.now (told_by sources.now) reach.old }
    ensures grown { OnOk result (HasGrown reach.old reach.new) }
    ensures spans { OnOk result ((n : ℕ) → n < length reach.old.paths.items → Spans flow.now (told_by sources.now) reach.new levels n) }
    ensures count { OnOk result (length reach.old.paths.items ≤ length reach.new.nodes.items) }
{
    let end = reach.paths.len();
    if levels == 0 {
        return add_last(alloc, sources, reach, end);
    }
    add_nodes(alloc, flow, readings, sources, reach, end)?;
    expand(alloc, flow, readings, sources, reach, levels - 1)
}

/// Adds what may make the paths and what that wants, and so on, so many levels deep; and so again, 200 levels deeper. Answers how many
/// paths there are without those of the last 200 levels.
#[tactic(auto, using(crate::proofs::Growing::grows_same, crate::proofs::Growing::grows_then))]
pub(crate) fn deepen(
    alloc: Global,
    flow: &Workflow,
    readings: &Readings,
    sources: &Sources,
    reach: &mut Reach,
    levels: u32,
) -> Result<usize, OutOfMemory>
    requires readings { AreReadings flow.now readings.now }
    requires reach { IsReach flow.now (told_by sources.now) reach.old }
    ensures grown { OnOk result (HasGrown reach.old reach.new) }
    ensures spans { IfOk result (λ end. (n : ℕ) → n < end → Spans flow.now (told_by sources.now) reach.new 200 n) }
    ensures count { IfOk result (λ end. end ≤ length reach.new.nodes.items) }
    ensures within { IfOk result (λ end. (n : ℕ) → n < length reach.old.paths.items → Within (told_by sources.now) reach.new end levels n) }
{
    let end = reach.paths.len();
    if levels == 0 {
        expand(alloc, flow, readings, sources, reach, 200)?;
        return Ok(end);
    }
    add_nodes(alloc, flow, readings, sources, reach, end)?;
    deepen(alloc, flow, readings, sources, reach, levels - 1)
}

// Gives each of the paths a number.
#[tactic(auto, using(crate::proofs::Growing::grows_same, crate::proofs::Growing::grows_then))]
fn add_paths(alloc: Global, reach: &mut Reach, paths: &[PathText]) -> Result<(), OutOfMemory>
    requires { AreNumbered reach.old }
    ensures numbered { OnOk result (AreNumbered reach.new) }
    ensures nodes { OnOk result (reach.new.nodes ≡ reach.old.nodes) }
    ensures are { OnOk result (AllByRecursion (HasNumber reach.new.paths.items) paths.now) }
{
    for path in paths {
        number(alloc, reach, path.copy(alloc)?)?;
    }
    Ok(())
}

/// These paths with their numbers. Nothing is known of them yet.
pub(crate) fn start(alloc: Global, paths: &[PathText]) -> Result<Reach, OutOfMemory>
    ensures numbered { IfOk result (λ reach. AreNumbered reach) }
    ensures nodes { IfOk result (λ reach. reach.nodes.items ≡ []) }
    ensures are { IfOk result (λ reach. AllByRecursion (HasNumber reach.paths.items) paths.now) }
{
    let mut reach = Reach {
        numbers: BTreeMap::new(alloc),
        paths: Vec::new(alloc),
        nodes: Vec::new(alloc),
    };
    add_paths(alloc, &mut reach, paths)?;
    Ok(reach)
}

/// The least depth at which each path is available, where that many levels of what it wants are known, up to 200.
pub(crate) fn depths(alloc: Global, reach: &Reach) -> Result<Vec<Option<u64>>, OutOfMemory>
    requires { AreNumbered reach.now }
    ensures { IfOk result (λ made. (flow : Flow) (sources : Known) (m k n : ℕ) → m ≤ k → m < 201 → Spans flow sources reach.now k n
        → is_within m (height_at made.items n) ≡ avail flow sources m (path_at reach.now.paths.items n)) }
{
    let made = least_heights(alloc, &reach.nodes)?;
    Ok(made)
}
