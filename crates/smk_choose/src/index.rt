//! Which rules have to be tried for a path.

ghost use Rattle.std.specs.Prelude.{◌≡◌, ◌<◌, ◌||◌, ℕ, [], bytes_eq, length, map, IfOk, OnOk, MatchOption, if◌then◌else◌};
ghost use Rattle.std.specs.BTreeMap.{get_by_text};
ghost use Rattle.smk_world.specs.Trees.{Path};
ghost use Rattle.smk_flow.specs.PatternsOf.{rule_of};
ghost use Rattle.smk_choose.specs.Index.{Rises, has_number, is_last, HasAdded, HasAddedWhere, IsLeast, own_text, may_be, may_fit, or_no, tries, has_any, AreOrdered, HasTaken, AreIndexed, IsIndex, AreFolders, AreReadings};

use crate::readings::{Reading, readings};
use smk_base::{List, OutOfMemory, PathText, Text};
use smk_flow::{Rule, Workflow};
use smk_pattern::{FillFault, Pattern, fill};
use std::alloc::Global;
use std::collections::BTreeMap;

/// The numbers of the rules that have an output without wildcards, by its text, and of those that have an output with one; each list in
/// order, with no number twice.
#[derive(Drop)]
pub(crate) struct Index {
    pub(crate) texts: BTreeMap<String, List<u32>>,
    pub(crate) wild: List<u32>,
}

/// What is read of the rules of a workflow before paths are looked at: the patterns of each, the numbers of those that make directories, and
/// which rules have to be tried for a path. Made once, it serves any number of tables and paths.
#[derive(Drop)]
pub struct Readings {
    pub(crate) rules: Vec<Reading>,
    pub(crate) folders: List<u32>,
    pub(crate) index: Index,
}

// Whether the number stands at the end.
fn is_last(numbers: &[u32], number: u32) -> bool
    ensures { result ≡ is_last number numbers.now }
{
    match numbers.last() {
        Some(last) => *last == number,
        None => false,
    }
}

// Adds the number at the end, unless it stands there.
fn add_number(numbers: &mut List<u32>, number: u32) -> Result<(), OutOfMemory>
    ensures { OnOk result (HasAdded number numbers.old numbers.new) }
{
    if is_last(numbers.as_slice(), number) {
        return Ok(());
    }
    numbers.push(number)
}

// Takes the numbers that are kept for the text, none where there are none.
fn taken(alloc: Global, texts: &mut BTreeMap<String, List<u32>>, text: &str) -> List<u32>
    ensures taken { result ≡ or_no (get_by_text texts.old text.now) }
    ensures left { (q : Path) → or_no (get_by_text texts.new q) ≡ (if bytes_eq text.now q then [] else or_no (get_by_text texts.old q)) }
{
    match texts.remove(text) {
        Some(numbers) => numbers,
        None => List::new(alloc),
    }
}

// Adds the number to those that are kept for the text.
fn add_text(
    alloc: Global,
    texts: &mut BTreeMap<String, List<u32>>,
    text: &str,
    number: u32,
) -> Result<(), OutOfMemory>
    ensures { OnOk result ((q : Path) → HasAddedWhere (bytes_eq text.now q) number (or_no (get_by_text texts.old q)) (or_no (get_by_text texts.new q))) }
{
    let mut numbers = taken(alloc, texts, text);
    add_number(&mut numbers, number)?;
    let key = String::from_str(alloc, text)?;
    texts.insert(key, numbers)?;
    Ok(())
}

// The text of a pattern without wildcards, which is what it gives where no name has a value; nothing for each other pattern.
fn own_text(alloc: Global, pattern: &Pattern) -> Result<Option<Text>, OutOfMemory>
    ensures { IfOk result (λ own. own ≡ own_text pattern.now) }
{
    let none = List::new(alloc);
    match fill(alloc, pattern, &none) {
        Ok(text) => Ok(Some(text)),
        Err(FillFault::UnknownWildcard(_)) => Ok(None),
        Err(FillFault::OutOfMemory) => Err(OutOfMemory),
    }
}

// Adds the rule with this number for this pattern of an output.
fn add_output(
    alloc: Global,
    index: &mut Index,
    number: u32,
    pattern: &Pattern,
) -> Result<(), OutOfMemory>
    ensures { OnOk result (HasTaken number (may_be (own_text pattern.now)) index.old index.new) }
{
    match own_text(alloc, pattern)? {
        Some(text) => add_text(alloc, &mut index.texts, text.as_str(), number),
        None => add_number(&mut index.wild, number),
    }
}

// Adds the rule with this number for these patterns of its outputs.
fn add_outputs(
    alloc: Global,
    index: &mut Index,
    number: u32,
    patterns: &[Pattern],
) -> Result<(), OutOfMemory>
    ensures { OnOk result (HasTaken number (may_fit patterns.now) index.old index.new) }
{
    for pattern in patterns {
        add_output(alloc, index, number, pattern)?;
    }
    Ok(())
}

// The rules by their outputs.
fn indexed(alloc: Global, rules: &[Rule]) -> Result<Index, OutOfMemory>
    requires { length rules.now < 4294967296 }
    ensures { IfOk result (λ index. AreIndexed rules.now index) }
{
    let mut index = Index {
        texts: BTreeMap::new(alloc),
        wild: List::new(alloc),
    };
    for (number, rule) in rules.iter().enumerate() {
        add_outputs(alloc, &mut index, number as u32, rule.outputs.as_slice())?;
    }
    Ok(index)
}

// Adds the number of a rule that makes directories, and none of another rule.
fn add_folder(numbers: &mut List<u32>, number: u32, reading: &Reading) -> Result<(), OutOfMemory>
    ensures { OnOk result (HasAddedWhere (has_any reading.now.folders) number numbers.old numbers.new) }
{
    if reading.folders.is_empty() {
        return Ok(());
    }
    add_number(numbers, number)
}

// The numbers of the rules that make directories.
fn folders_of(alloc: Global, readings: &[Reading]) -> Result<List<u32>, OutOfMemory>
    requires { length readings.now < 4294967296 }
    ensures { IfOk result (λ numbers. AreFolders readings.now numbers) }
{
    let mut numbers = List::new(alloc);
    for (number, reading) in readings.iter().enumerate() {
        add_folder(&mut numbers, number as u32, reading)?;
    }
    Ok(numbers)
}

impl Readings {
    /// What is read of the rules of this workflow. `OutOfMemory` where there is no memory for it.
    pub fn of(alloc: Global, flow: &Workflow) -> Result<Readings, OutOfMemory>
        ensures { IfOk result (λ made. AreReadings flow.now made) }
    {
        let parts = flow.rules().as_slice();
        let rules = readings(alloc, flow)?;
        let folders = folders_of(alloc, &rules)?;
        let index = indexed(alloc, parts)?;
        Ok(Readings {
            rules,
            folders,
            index,
        })
    }
}

// The first of the numbers of two lists, each in order, with what is left of both.
fn least<'n>(one: &'n [u32], other: &'n [u32]) -> Option<(u32, &'n [u32], &'n [u32])>
    ensures { MatchOption result ((one.now ≡ []) × (other.now ≡ [])) (λ r. IsLeast r.0 one.now other.now r.1.now r.2.now) }
{
    match (one.split_first(), other.split_first()) {
        (Some((first, ones)), Some((second, others))) => {
            if *first <= *second {
                Some((*first, ones, other))
            } else {
                Some((*second, one, others))
            }
        }
        (Some((first, ones)), None) => Some((*first, ones, other)),
        (None, Some((second, others))) => Some((*second, one, others)),
        (None, None) => None,
    }
}

// The numbers of two lists, each in order, in one: in order too, and each once.
fn merged(alloc: Global, one: &[u32], other: &[u32]) -> Result<List<u32>, OutOfMemory>
    requires one { Rises 0 one.now }
    requires other { Rises 0 other.now }
    ensures rises { IfOk result (λ made. Rises 0 made) }
    ensures has { IfOk result (λ made. (n : ℕ) → has_number n made ≡ (has_number n one.now || has_number n other.now)) }
{
    let mut left = one;
    let mut right = other;
    let mut made = List::new(alloc);
    'numbers: while let Some((number, ones, others)) = least(left, right) {
        add_number(&mut made, number)?;
        left = ones;
        right = others;
    }
    Ok(made)
}

impl Index {
    // The numbers of the rules that have an output of this text.
    fn at(&self, text: &str) -> &[u32]
        ensures { result.now ≡ or_no (get_by_text self.now.texts text.now) }
    {
        match self.texts.get(text) {
            Some(numbers) => numbers.as_slice(),
            None => &[],
        }
    }

    /// The numbers of the rules that have to be tried for the path, in order. `OutOfMemory` where there is no memory for them.
    pub(crate) fn tried(&self, alloc: Global, path: &PathText) -> Result<List<u32>, OutOfMemory>
        requires { AreOrdered self.now }
        ensures rises { IfOk result (λ numbers. Rises 0 numbers) }
        ensures has { IfOk result (λ numbers. (n : ℕ) → has_number n numbers ≡ tries self.now path.now n) }
    {
        merged(alloc, self.at(path.as_str()), self.wild.as_slice())
    }
}
