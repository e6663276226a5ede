//! The choice among the jobs that may make a path.

ghost use Rattle.std.specs.Prelude.{◌≡◌, ◌++◌, ◌∷◌, ◌||◌, ◌==◌, [], None, option_map, IfOk, OnOk};
ghost use Rattle.std.specs.List.{list_all};
ghost use Rattle.smk_choose.specs.Heights.{is_within, want_in};
ghost use Rattle.smk_choose.specs.Decided.{goes_before, leads_from, leader_from, is_deep_enough, viable_way, viable_in, text_of, lack_by, first_missing, lack_in, choice_in, choice_among, chosen_by};

use crate::heights::{want_height, way_height};
use crate::nodes::{Node, Want, Way};
use crate::precedence::part_precedes;
use crate::{Chosen, Lack, Making};
use smk_base::{Copied, OutOfMemory, PathText, Text};
use smk_flow::{Rule, Workflow};
use std::alloc::Global;

// Whether the rule of the first job precedes that of the second.
fn goes_before(flow: &Workflow, rules: &[Rule], a: &Making, b: &Making) -> bool
    ensures { result ≡ goes_before flow.now rules.now a.now b.now }
{
    match (rules.get(a.rule as usize), rules.get(b.rule as usize)) {
        (Some(one), Some(other)) => part_precedes(flow, &one.part, &other.part),
        (Some(_), None) => false,
        (None, _) => false,
    }
}

// Whether the jobs stand at one place, or the rule of the first precedes that of the second.
fn yields_to(
    flow: &Workflow,
    rules: &[Rule],
    at: usize,
    made: &Making,
    place: usize,
    other: &Making,
) -> bool
    ensures { result ≡ (at == place || goes_before flow.now rules.now made.now other.now) }
{
    at == place || goes_before(flow, rules, made, other)
}

// Whether the job at this place goes before each other one.
fn leads(flow: &Workflow, rules: &[Rule], all: &[Making], at: usize, made: &Making) -> bool
    ensures { result ≡ leads_from (goes_before flow.now rules.now) at made.now 0 all.now }
{
    for (place, other) in all.iter().enumerate() {
        if !yields_to(flow, rules, at, made, place, other) {
            return false;
        }
    }
    true
}

// The job that goes before each other one. Each is held against all others: one path has few viable candidates.
fn leader<'m>(flow: &Workflow, rules: &[Rule], all: &'m [Making]) -> Option<&'m Making>
    ensures { option_map (λ m. m.now) result ≡ leader_from (goes_before flow.now rules.now) all.now 0 all.now }
{
    for (at, made) in all.iter().enumerate() {
        if leads(flow, rules, all, at, made) {
            return Some(made);
        }
    }
    None
}

fn copy_of(alloc: Global, made: &Making) -> Result<Making, OutOfMemory>
    ensures { IfOk result (λ copy. copy ≡ made.now) }
{
    let binding = made.binding.copied(alloc)?;
    Ok(Making {
        rule: made.rule,
        binding,
    })
}

// Whether what has this height is available at depth 199.
fn is_within_199(height: Option<u64>) -> bool
    ensures { result ≡ is_within 199 height }
{
    match height {
        Some(height) => height <= 199,
        None => false,
    }
}

// Whether all that the way wants is available at depth 199.
fn is_viable(heights: &[Option<u64>], way: &Way) -> bool
    ensures { result ≡ list_all (want_in (is_deep_enough heights.now)) way.now.wants }
{
    is_within_199(way_height(heights, way))
}

// Adds the job of the way, if it is viable.
fn add_viable(
    alloc: Global,
    found: &mut Vec<Making>,
    heights: &[Option<u64>],
    way: &Way,
) -> Result<(), OutOfMemory>
    ensures { OnOk result (found.new.items ≡ found.old.items ++ viable_way (is_deep_enough heights.now) way.now) }
{
    if is_viable(heights, way) {
        found.push(copy_of(alloc, &way.making)?)?;
    }
    Ok(())
}

// The jobs of the ways that are viable.
fn viable(alloc: Global, heights: &[Option<u64>], ways: &[Way]) -> Result<Vec<Making>, OutOfMemory>
    ensures { IfOk result (λ found. found.items ≡ viable_in (is_deep_enough heights.now) ways.now) }
{
    let mut found = Vec::new(alloc);
    for way in ways {
        add_viable(alloc, &mut found, heights, way)?;
    }
    Ok(found)
}

// The text of what is wanted.
fn text_of(alloc: Global, paths: &[PathText], want: &Want) -> Result<Text, OutOfMemory>
    ensures { IfOk result (λ text. text ≡ text_of paths.now want.now) }
{
    match want {
        Want::Path(path) => match paths.get(*path) {
            Some(path) => Text::of(alloc, path.as_str()),
            None => Text::of(alloc, ""),
        },
        Want::NoPath(text) => text.copy(alloc),
    }
}

// Whether it is available at depth 199.
fn is_there(heights: &[Option<u64>], want: &Want) -> bool
    ensures { result ≡ want_in (is_deep_enough heights.now) want.now }
{
    is_within_199(want_height(heights, want))
}

// The first of these wants that isn't available at depth 199.
fn first_missing<'w>(heights: &[Option<u64>], wants: &'w [Want]) -> Option<&'w Want>
    ensures { option_map (λ w. w.now) result ≡ first_missing (is_deep_enough heights.now) wants.now }
{
    for want in wants {
        if !is_there(heights, want) {
            return Some(want);
        }
    }
    None
}

// The lack of what is missing to a rule, if something is.
fn lack_by(
    alloc: Global,
    paths: &[PathText],
    rule: u32,
    missing: Option<&Want>,
) -> Result<Option<Lack>, OutOfMemory>
    ensures { IfOk result (λ lack. lack ≡ lack_by paths.now rule (option_map (λ w. w.now) missing.entry)) }
{
    match missing {
        Some(want) => {
            let wanted = text_of(alloc, paths, want)?;
            Ok(Some(Lack { rule, wanted }))
        }
        None => Ok(None),
    }
}

// What the first way lacks.
fn lack_in(
    alloc: Global,
    paths: &[PathText],
    heights: &[Option<u64>],
    ways: &[Way],
) -> Result<Option<Lack>, OutOfMemory>
    ensures { IfOk result (λ lack. lack ≡ lack_in (is_deep_enough heights.now) paths.now ways.now) }
{
    match ways {
        [] => Ok(None),
        [way, ..] => {
            let missing = first_missing(heights, way.wants.as_slice());
            lack_by(alloc, paths, way.making.rule, missing)
        }
    }
}

// The choice where no job goes before all others.
fn without_leader(alloc: Global, all: &[Making], lack: Option<Lack>) -> Result<Chosen, OutOfMemory>
    ensures { IfOk result (λ made. made ≡ choice_in None all.now lack) }
{
    match all {
        [] => Ok(Chosen::Nothing(lack)),
        [one] => Ok(Chosen::Make(copy_of(alloc, one)?)),
        [one, other, ..] => Ok(Chosen::Ambiguous(one.rule, other.rule)),
    }
}

// The choice among these jobs, which are all viable.
fn choice_among(
    alloc: Global,
    flow: &Workflow,
    rules: &[Rule],
    all: &[Making],
    lack: Option<Lack>,
) -> Result<Chosen, OutOfMemory>
    ensures { IfOk result (λ made. made ≡ choice_among flow.now rules.now all.now lack) }
{
    match leader(flow, rules, all) {
        Some(made) => Ok(Chosen::Make(copy_of(alloc, made)?)),
        None => without_leader(alloc, all, lack),
    }
}

/// The choice for a path, by what may make it and by the depths at which what that wants is available.
pub(crate) fn chosen(
    alloc: Global,
    flow: &Workflow,
    rules: &[Rule],
    paths: &[PathText],
    heights: &[Option<u64>],
    node: &Node,
) -> Result<Chosen, OutOfMemory>
    ensures { IfOk result (λ made. made ≡ chosen_by flow.now rules.now paths.now (is_deep_enough heights.now) node.now) }
{
    if node.source {
        return Ok(Chosen::Source);
    }
    let ways = node.ways.as_slice();
    let all = viable(alloc, heights, ways)?;
    let lack = lack_in(alloc, paths, heights, ways)?;
    choice_among(alloc, flow, rules, &all, lack)
}
