//! What is read, as a line.

use smk_base::{List, PathText};
use smk_words_reading::{Asked, Force, RunWords, WordsFault};
use std::alloc::AllocError;

/// Adds what of a run is a list or a number.
fn push_lists(text: &mut String, run: &RunWords) -> Result<(), AllocError> {
    write!(text, "{} cores", run.cores)?;
    for target in run.targets.as_slice() {
        write!(text, ", {}", target.as_str())?;
    }
    if let Some(file) = &run.file {
        write!(text, ", file {}", file.as_str())?;
    }
    for set in run.sets.as_slice() {
        write!(text, ", {} is {}", set.name.as_str(), set.value.as_str())?;
    }
    for bound in run.bounds.as_slice() {
        write!(text, ", {} of {}", bound.count, bound.name.as_str())?;
    }
    Ok(())
}

/// The word for which jobs run whatever their records say.
fn force_word(force: Force) -> &'static str {
    match force {
        Force::No => "",
        Force::Targets => ", force",
        Force::All => ", force all",
    }
}

/// Adds the run.
fn push_run(text: &mut String, run: &RunWords) -> Result<(), AllocError> {
    push_lists(text, run)?;
    if run.nolock {
        text.push_str(", no lock")?;
    }
    if run.keep_going {
        text.push_str(", keep going")?;
    }
    if run.rerun_incomplete {
        text.push_str(", rerun incomplete")?;
    }
    text.push_str(force_word(run.force))
}

/// Adds the paths that are to be forgotten.
fn push_forget(text: &mut String, paths: &List<PathText>, nolock: bool) -> Result<(), AllocError> {
    text.push_str("forget")?;
    for path in paths.as_slice() {
        write!(text, " {}", path.as_str())?;
    }
    if nolock {
        text.push_str(", no lock")?;
    }
    Ok(())
}

/// Adds what is asked.
fn push_asked(text: &mut String, asked: &Asked) -> Result<(), AllocError> {
    match asked {
        Asked::Run(run) => {
            text.push_str("run: ")?;
            push_run(text, run)
        }
        Asked::Preview(run) => {
            text.push_str("list: ")?;
            push_run(text, run)
        }
        Asked::Unlock => text.push_str("unlock"),
        Asked::Forget { paths, nolock } => push_forget(text, paths, *nolock),
        Asked::Generate { seed, size } => write!(text, "generate {seed} and {size}"),
    }
}

/// Adds what is read.
pub fn push_read(text: &mut String, read: &Result<Asked, WordsFault>) -> Result<(), AllocError> {
    match read {
        Ok(asked) => push_asked(text, asked),
        Err(WordsFault::BadWords) => text.push_str("not read"),
        Err(WordsFault::NoCores) => text.push_str("no cores"),
        Err(WordsFault::OutOfMemory) => text.push_str("out of memory"),
    }
}
