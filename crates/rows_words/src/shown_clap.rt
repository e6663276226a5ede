//! What `clap` read, as a line of the same form.

use clap::error::ErrorKind;
use clap::{ArgMatches, Error};
use std::alloc::AllocError;

// Adds the word where the option stands.
fn push_flag(
    text: &mut String,
    matches: &ArgMatches<'_>,
    name: &str,
    word: &str,
) -> Result<(), AllocError> {
    if matches.get_flag(name) {
        text.push_str(word)?;
    }
    Ok(())
}

// Adds the value with its name; one without a name stands alone.
fn push_set(text: &mut String, set: &str) -> Result<(), AllocError> {
    match set.split_once('=') {
        Some((name, value)) => write!(text, ", {name} is {value}"),
        None => write!(text, ", value {set}"),
    }
}

// Adds the bound with its name; one without a name stands alone.
fn push_bound(text: &mut String, bound: &str) -> Result<(), AllocError> {
    match bound.split_once('=') {
        Some((name, count)) => write!(text, ", {count} of {name}"),
        None => write!(text, ", bound {bound}"),
    }
}

// Adds the targets.
fn push_targets(text: &mut String, matches: &ArgMatches<'_>) -> Result<(), AllocError> {
    if let Some(targets) = matches.get_strs("targets") {
        for target in targets {
            write!(text, ", {target}")?;
        }
    }
    Ok(())
}

// Adds the settings of the configuration.
fn push_sets(text: &mut String, matches: &ArgMatches<'_>) -> Result<(), AllocError> {
    if let Some(sets) = matches.get_strs("config") {
        for set in sets {
            push_set(text, set)?;
        }
    }
    Ok(())
}

// Adds the bounds of resources.
fn push_bounds(text: &mut String, matches: &ArgMatches<'_>) -> Result<(), AllocError> {
    if let Some(bounds) = matches.get_strs("resources") {
        for bound in bounds {
            push_bound(text, bound)?;
        }
    }
    Ok(())
}

// Adds what of a run is a list or a number.
fn push_lists(text: &mut String, matches: &ArgMatches<'_>) -> Result<(), AllocError> {
    let cores = matches.get_one::<u64>("cores").unwrap_or(1);
    write!(text, "{cores} cores")?;
    push_targets(text, matches)?;
    if let Some(file) = matches.get_str("snakefile") {
        write!(text, ", file {file}")?;
    }
    push_sets(text, matches)?;
    push_bounds(text, matches)
}

// Adds the run or the listing.
fn push_run(text: &mut String, matches: &ArgMatches<'_>) -> Result<(), AllocError> {
    text.push_str(if matches.get_flag("dry-run") {
        "list: "
    } else {
        "run: "
    })?;
    push_lists(text, matches)?;
    push_flag(text, matches, "nolock", ", no lock")?;
    push_flag(text, matches, "keep-going", ", keep going")?;
    push_flag(text, matches, "rerun-incomplete", ", rerun incomplete")?;
    if matches.get_flag("forceall") {
        text.push_str(", force all")
    } else {
        push_flag(text, matches, "force", ", force")
    }
}

// Adds the paths that are to be forgotten.
fn push_forget(
    text: &mut String,
    matches: &ArgMatches<'_>,
    paths: &[&str],
) -> Result<(), AllocError> {
    text.push_str("forget")?;
    for path in paths {
        write!(text, " {path}")?;
    }
    push_flag(text, matches, "nolock", ", no lock")
}

// Adds the numbers of a workspace that is generated.
fn push_generate(text: &mut String, numbers: &str) -> Result<(), AllocError> {
    match numbers.split_once(':') {
        Some((seed, size)) => write!(text, "generate {seed} and {size}"),
        None => write!(text, "generate {numbers}"),
    }
}

// Adds what is asked.
fn push_asked(text: &mut String, matches: &ArgMatches<'_>) -> Result<(), AllocError> {
    if matches.get_flag("unlock") {
        return text.push_str("unlock");
    }
    if let Some(numbers) = matches.get_str("generate") {
        return push_generate(text, numbers);
    }
    match matches.get_strs("cleanup-metadata") {
        Some(paths) => push_forget(text, matches, paths),
        None => push_run(text, matches),
    }
}

/// Adds what was read.
pub fn push_matches(
    text: &mut String,
    read: &Result<ArgMatches<'_>, Error>,
) -> Result<(), AllocError> {
    match read {
        Ok(matches) => push_asked(text, matches),
        Err(error) => match error.kind() {
            ErrorKind::MissingRequiredArgument => text.push_str("no cores"),
            ErrorKind::OutOfMemory => text.push_str("out of memory"),
            _ => text.push_str("not read"),
        },
    }
}
