//! What parts ask.

ghost use Rattle.std.specs.Prelude.{◌≡◌, IfOk, map, unwrap_or};
ghost use Rattle.std.specs.List.{list_all};
ghost use Rattle.smk_words_reading.specs.declared.parts.Setting.TheVariants as setting;
ghost use Rattle.smk_words_reading.specs.Asking as spec;
ghost use Rattle.smk_words_reading.specs.Asks as asks;

use crate::asked::{Asked, RunWords};
use crate::numbers::{amount_in, number_in, pair_in, path_in, seed_size_in};
use crate::parts::{Flag, Part, Setting};
use crate::values::{has, targets_in, times, values};
use smk_base::{Amount, List, OutOfMemory, Pair, PathText};
use smk_pick::Force;
use std::alloc::Global;

/// What parts mean.
#[derive(Drop)]
pub(crate) enum Meaning {
    /// They ask this.
    Ask(Asked),
    /// They ask for a run and don't say on how many cores.
    WithoutCores,
    /// They ask nothing.
    Nothing,
}

/// The most cores that can be asked for.
const MOST_CORES: u64 = 4096;

// The number of cores, where one is named: nothing where what is named is none, or several are.
fn cores_in(alloc: Global, parts: &[Part]) -> Result<Option<Option<u64>>, OutOfMemory>
    ensures { IfOk result (λ found. found ≡ spec.cores_in parts.now) }
{
    let words = values(alloc, Setting::Cores, parts)?;
    match words.as_slice() {
        [] => Ok(Some(None)),
        [word] => Ok(number_in(alloc, word, 1, MOST_CORES)?.map(Some)),
        _ => Ok(None),
    }
}

// The file, where one is named: nothing where what is named is no path, or several are.
fn file_in(alloc: Global, parts: &[Part]) -> Result<Option<Option<PathText>>, OutOfMemory>
    ensures { IfOk result (λ found. found ≡ spec.file_in parts.now) }
{
    let words = values(alloc, Setting::Snakefile, parts)?;
    match words.as_slice() {
        [] => Ok(Some(None)),
        [word] => Ok(path_in(alloc, word)?.map(Some)),
        _ => Ok(None),
    }
}

// The pairs that the words are, where each is one.
fn all_pairs(alloc: Global, words: &[&str]) -> Result<Option<List<Pair>>, OutOfMemory>
    ensures { IfOk result (λ found. found ≡ spec.all_of spec.pair_in (map (λ word. word.now) words.now)) }
{
    let mut pairs = List::new(alloc);
    for word in words {
        let Some(pair) = pair_in(alloc, word)? else {
            return Ok(None);
        };
        pairs.push(pair)?;
    }
    Ok(Some(pairs))
}

// The amounts that the words are, where each is one.
fn all_amounts(alloc: Global, words: &[&str]) -> Result<Option<List<Amount>>, OutOfMemory>
    ensures { IfOk result (λ found. found ≡ spec.all_of spec.amount_in (map (λ word. word.now) words.now)) }
{
    let mut amounts = List::new(alloc);
    for word in words {
        let Some(amount) = amount_in(alloc, word)? else {
            return Ok(None);
        };
        amounts.push(amount)?;
    }
    Ok(Some(amounts))
}

// The paths that the words are, where each is one.
fn all_paths(alloc: Global, words: &[&str]) -> Result<Option<List<PathText>>, OutOfMemory>
    ensures { IfOk result (λ found. found ≡ spec.all_of spec.path_in (map (λ word. word.now) words.now)) }
{
    let mut paths = List::new(alloc);
    for word in words {
        let Some(path) = path_in(alloc, word)? else {
            return Ok(None);
        };
        paths.push(path)?;
    }
    Ok(Some(paths))
}

// Whether one of the amounts has the name.
fn is_named(name: &str, amounts: &[Amount]) -> bool
    ensures { result ≡ spec.is_named name.now (map asks.name_of amounts.now) }
{
    for amount in amounts {
        if amount.name.as_str() == name {
            return true;
        }
    }
    false
}

// Whether no two of the amounts have the same name.
fn are_different(amounts: &[Amount]) -> bool
    ensures { result ≡ asks.are_different (map asks.name_of amounts.now) }
{
    let mut rest = amounts;
    while let Some((amount, later)) = rest.split_first() {
        if is_named(amount.name.as_str(), later) {
            return false;
        }
        rest = later;
    }
    true
}

// The configuration that is set.
fn sets_in(alloc: Global, parts: &[Part]) -> Result<Option<List<Pair>>, OutOfMemory>
    ensures { IfOk result (λ found. found ≡ spec.sets_in parts.now) }
{
    let words = values(alloc, Setting::Config, parts)?;
    all_pairs(alloc, words.as_slice())
}

// The bounds on resources, each of another one.
fn bounds_in(alloc: Global, parts: &[Part]) -> Result<Option<List<Amount>>, OutOfMemory>
    ensures { IfOk result (λ found. found ≡ spec.bounds_in parts.now) }
{
    let words = values(alloc, Setting::Resources, parts)?;
    let Some(bounds) = all_amounts(alloc, words.as_slice())? else {
        return Ok(None);
    };
    if !are_different(bounds.as_slice()) {
        return Ok(None);
    }
    Ok(Some(bounds))
}

// Whether the flag stands at most once.
fn is_once(flag: Flag, parts: &[Part]) -> bool
    ensures { result ≡ spec.is_once flag parts.now }
{
    times(flag, parts) <= 1
}

// Whether each flag of a run stands at most once.
fn are_once(parts: &[Part]) -> bool
    ensures { result ≡ spec.are_once parts.now }
{
    is_once(Flag::DryRun, parts)
        && (is_once(Flag::KeepGoing, parts)
            && (is_once(Flag::RerunIncomplete, parts)
                && (is_once(Flag::Force, parts)
                    && (is_once(Flag::ForceAll, parts) && is_once(Flag::NoLock, parts)))))
}

// Which jobs run whatever their records say. All, where both flags stand.
fn force_in(parts: &[Part]) -> Force
    ensures { result ≡ asks.force_in parts.now }
{
    if has(Flag::ForceAll, parts) {
        Force::All
    } else if has(Flag::Force, parts) {
        Force::Targets
    } else {
        Force::No
    }
}

// The run with these cores that the parts ask for.
fn run_in(alloc: Global, cores: u64, parts: &[Part]) -> Result<Option<RunWords>, OutOfMemory>
    ensures { IfOk result (λ found. found ≡ spec.run_in cores parts.now) }
{
    if !are_once(parts) {
        return Ok(None);
    }
    let Some(file) = file_in(alloc, parts)? else {
        return Ok(None);
    };
    let Some(sets) = sets_in(alloc, parts)? else {
        return Ok(None);
    };
    let Some(bounds) = bounds_in(alloc, parts)? else {
        return Ok(None);
    };
    Ok(Some(RunWords {
        targets: targets_in(alloc, parts)?,
        cores,
        file,
        sets,
        bounds,
        nolock: has(Flag::NoLock, parts),
        keep_going: has(Flag::KeepGoing, parts),
        rerun_incomplete: has(Flag::RerunIncomplete, parts),
        force: force_in(parts),
    }))
}

// What the run means where the parts name these cores.
fn run_meaning(run: RunWords, cores: Option<u64>, parts: &[Part]) -> Meaning
    ensures { result ≡ spec.run_meaning run cores parts.now }
{
    if has(Flag::DryRun, parts) {
        return Meaning::Ask(Asked::Preview(run));
    }
    match cores {
        Some(_) => Meaning::Ask(Asked::Run(run)),
        None => Meaning::WithoutCores,
    }
}

// What parts mean that ask for a run or a listing. A listing has one core where they name none.
fn running(alloc: Global, parts: &[Part]) -> Result<Meaning, OutOfMemory>
    ensures { IfOk result (λ meaning. meaning ≡ spec.running parts.now) }
{
    let Some(cores) = cores_in(alloc, parts)? else {
        return Ok(Meaning::Nothing);
    };
    match run_in(alloc, cores.unwrap_or(1), parts)? {
        Some(run) => Ok(run_meaning(run, cores, parts)),
        None => Ok(Meaning::Nothing),
    }
}

// What parts mean in which these paths are to be forgotten: nothing else stands then than that the lock isn't heeded.
fn forgetting(alloc: Global, words: &[&str], parts: &[Part]) -> Result<Meaning, OutOfMemory>
    ensures { IfOk result (λ meaning. meaning ≡ spec.forgetting (spec.all_of spec.path_in (map (λ word. word.now) words.now)) parts.now) }
{
    let Some(paths) = all_paths(alloc, words)? else {
        return Ok(Meaning::Nothing);
    };
    if !(is_once(Flag::NoLock, parts) && are_of_cleanup(parts)) {
        return Ok(Meaning::Nothing);
    }
    Ok(Meaning::Ask(Asked::Forget {
        paths,
        nolock: has(Flag::NoLock, parts),
    }))
}

// Whether each part is a path to be forgotten or says that the lock isn't heeded.
fn are_of_cleanup(parts: &[Part]) -> bool
    ensures { result ≡ list_all asks.is_of_cleanup parts.now }
{
    for part in parts {
        if !part.is_of_cleanup() {
            return false;
        }
    }
    true
}

// What parts mean of which the value is that of `--generate`: nothing else stands then.
fn generating(alloc: Global, word: &str, parts: &[Part]) -> Result<Meaning, OutOfMemory>
    ensures { IfOk result (λ meaning. meaning ≡ spec.generating (spec.seed_size_in word.now) parts.now) }
{
    match seed_size_in(alloc, word)? {
        Some((seed, size)) => {
            if parts.len() == 1 {
                Ok(Meaning::Ask(Asked::Generate { seed, size }))
            } else {
                Ok(Meaning::Nothing)
            }
        }
        None => Ok(Meaning::Nothing),
    }
}

// What parts mean in which no path is to be forgotten.
fn generating_or_running(alloc: Global, parts: &[Part]) -> Result<Meaning, OutOfMemory>
    ensures { IfOk result (λ meaning. meaning ≡ spec.generating_or_running (asks.values setting.Generate parts.now) parts.now) }
{
    let words = values(alloc, Setting::Generate, parts)?;
    match words.as_slice().split_first() {
        Some((word, _)) => generating(alloc, word, parts),
        None => running(alloc, parts),
    }
}

// What parts mean among which `--unlock` doesn't stand.
fn without_unlock(alloc: Global, parts: &[Part]) -> Result<Meaning, OutOfMemory>
    ensures { IfOk result (λ meaning. meaning ≡ spec.without_unlock (asks.values setting.CleanupMetadata parts.now) parts.now) }
{
    let words = values(alloc, Setting::CleanupMetadata, parts)?;
    if words.is_empty() {
        generating_or_running(alloc, parts)
    } else {
        forgetting(alloc, words.as_slice(), parts)
    }
}

/// What the parts mean.
pub(crate) fn meaning_of(alloc: Global, parts: &[Part]) -> Result<Meaning, OutOfMemory>
    ensures { IfOk result (λ meaning. meaning ≡ spec.meaning_in parts.now) }
{
    if !has(Flag::Unlock, parts) {
        return without_unlock(alloc, parts);
    }
    if parts.len() == 1 {
        Ok(Meaning::Ask(Asked::Unlock))
    } else {
        Ok(Meaning::Nothing)
    }
}
