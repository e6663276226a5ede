//! The same words, read by a command of `clap` with the same options: which words are options, their short and joined forms, where a value
//! stands, how often an option may stand, what goes with what, the number of cores, and which words are targets.
//!
//! The two agree but for what a value itself is. `clap` takes each text that isn't empty, and leaves it to the program what it means; `smk`
//! reads no number with a sign or with leading zeros, and no place outside of the folder or below `.snakemake`. It wants a name in front of the first `=`
//! of a setting or a bound, a bound of each name once and up to 4294967296, and two numbers within their bounds for `--generate`.
//! The pages that `clap` has for `--help` are turned off here, as the program answers that word before any others are read.

use clap::builder::ValueParser;
use clap::{Arg, ArgAction, ArgMatches, Command, Error};
use std::alloc::{AllocError, Global};

// The options of a run or a listing, but for the number of cores, with their short forms; a blank stands for none.
static OPTIONS: [(&str, char); 9] = [
    ("dry-run", 'n'),
    ("snakefile", 's'),
    ("config", 'C'),
    ("resources", ' '),
    ("keep-going", 'k'),
    ("rerun-incomplete", ' '),
    ("force", 'f'),
    ("forceall", 'F'),
    ("nolock", ' '),
];

// An option that has a value: once, or any number of times.
fn valued<'a>(arg: Arg<'a>, action: ArgAction) -> Arg<'a> {
    arg.action(action).value_parser(ValueParser::NonEmptyString)
}

// The option of this name.
fn option<'a>(alloc: Global, name: &'a str, short: char) -> Arg<'a> {
    let arg = Arg::new(alloc, name).long(name);
    let arg = if short == ' ' { arg } else { arg.short(short) };
    match name {
        "snakefile" => valued(arg, ArgAction::Set),
        "config" | "resources" => valued(arg, ArgAction::Append),
        _ => arg.action(ArgAction::SetTrue),
    }
}

// The command with the options of a run or a listing.
fn with_options<'a>(alloc: Global, command: Command<'a>) -> Result<Command<'a>, AllocError> {
    let mut made = command;
    for (name, short) in OPTIONS {
        made = made.arg(option(alloc, name, short))?;
    }
    Ok(made)
}

// The number of cores, which is asked for but by these.
fn cores<'a>(alloc: Global) -> Result<Arg<'a>, AllocError> {
    let without = ["dry-run", "unlock", "cleanup-metadata", "generate"];
    Arg::new(alloc, "cores")
        .long("cores")
        .short('c')
        .action(ArgAction::Set)
        .value_parser(clap::value_parser!(u64).range(1..=4096))
        .required_unless_present_any(&without)
}

// A path that is forgotten, and what doesn't stand beside it.
fn cleanup<'a>(alloc: Global) -> Result<Arg<'a>, AllocError> {
    let others = [
        "cores",
        "dry-run",
        "snakefile",
        "config",
        "resources",
        "keep-going",
        "rerun-incomplete",
        "force",
        "forceall",
        "targets",
    ];
    let arg = Arg::new(alloc, "cleanup-metadata").long("cleanup-metadata");
    valued(arg, ArgAction::Append).conflicts_with_all(&others)
}

// What stands alone.
fn with_commands<'a>(alloc: Global, command: Command<'a>) -> Result<Command<'a>, AllocError> {
    let unlock = Arg::new(alloc, "unlock").long("unlock");
    let generate = Arg::new(alloc, "generate").long("generate");
    command
        .arg(unlock.action(ArgAction::SetTrue).exclusive(true))?
        .arg(valued(generate, ArgAction::Set).exclusive(true))?
        .arg(cleanup(alloc)?)
}

// The command with the options of this program.
fn command<'a>(alloc: Global) -> Result<Command<'a>, AllocError> {
    let targets = Arg::new(alloc, "targets").action(ArgAction::Append);
    let named = Command::new(alloc, "smk")
        .no_binary_name(true)
        .disable_help_flag(true)
        .arg(targets.num_args(0..))?
        .arg(cores(alloc)?)?;
    with_commands(alloc, with_options(alloc, named)?)
}

/// What `clap` reads of the words.
pub fn matches_of<'a>(alloc: Global, words: &'a [String]) -> Result<ArgMatches<'a>, Error> {
    command(alloc)?.try_get_matches_from(words)
}
