//! The commands of the workspace: which one a template names, its status, and what it writes.
ghost use Rattle.std.specs.Prelude.{◌≡◌, ◌++◌, IfOk, bytes_eq, codes, OnOk};
ghost use Rattle.smk_world_mem.specs.Act.{has_log, without_log, command_named, command_of, status_of, written_of, filled_of, values_of, spaced, joined_words, line_of, text_of, time_with};

use smk_base::{List, OutOfMemory, PathText, Text};
use smk_world::Values;
use std::alloc::Global;

/// What a child runs.
#[derive(Clone, Copy, PartialEq, Eq)]
pub enum Command {
    /// The inputs joined into the first output.
    Cat,
    /// The same, with the time of the first input.
    Keep,
    /// The inputs joined into each output.
    Tee,
    /// A line of the values of the parameter `text`.
    Echo,
    /// A folder with a file for each line of the inputs.
    Lines,
    /// The first half of the inputs, and a failure.
    Half,
    /// Nothing but a failure.
    Fail,
    /// Whatever it was, it was killed when it had written half.
    Killed,
    /// No command of the workspace.
    Unknown,
}

/// Whether the errors of the template's command go into its logs.
pub fn has_log(template: &[u8]) -> bool
    ensures { result ≡ has_log template.now }
{
    template.ends_with(b" 2> {log}")
}

fn without_log(template: &[u8]) -> &[u8]
    ensures { result.now ≡ without_log template.now }
{
    if has_log(template) {
        &template[..template.len() - 9]
    } else {
        template
    }
}

fn command_named(text: &[u8]) -> Command
    ensures { result ≡ command_named text.now }
{
    if text == b"cat {input} > {output}".as_slice() {
        Command::Cat
    } else if text == b"cp -p {input} {output}".as_slice() {
        Command::Keep
    } else if text == b"cat {input} | tee {output} > /dev/null".as_slice() {
        Command::Tee
    } else if text == b"echo {params.text} > {output}".as_slice() {
        Command::Echo
    } else if text == b"lines {input} {output}".as_slice() {
        Command::Lines
    } else if text == b"half {input} > {output}".as_slice() {
        Command::Half
    } else if text == b"fail {input}".as_slice() {
        Command::Fail
    } else {
        Command::Unknown
    }
}

/// What a child of this template runs.
pub fn command_of(template: &str, killed: bool) -> Command
    ensures { result ≡ command_of killed template.now }
{
    if killed {
        Command::Killed
    } else {
        command_named(without_log(template.as_bytes()))
    }
}

/// The status that the command ends with.
pub fn status_of(command: Command) -> u32
    ensures { result ≡ status_of command }
{
    match command {
        Command::Cat | Command::Keep | Command::Tee | Command::Echo | Command::Lines => 0,
        Command::Half | Command::Fail => 1,
        Command::Killed => 137,
        Command::Unknown => 127,
    }
}

/// The outputs that the command writes, as files.
pub fn written_of(command: Command, outs: &[PathText]) -> &[PathText]
    ensures { result.now ≡ written_of command outs.now }
{
    match command {
        Command::Tee => outs,
        Command::Lines | Command::Fail | Command::Unknown => &[],
        Command::Cat | Command::Keep | Command::Echo | Command::Half | Command::Killed => {
            match outs {
                [_, ..] => &outs[..1],
                [] => outs,
            }
        }
    }
}

/// The outputs that the command makes folders of.
pub fn filled_of(command: Command, outs: &[PathText]) -> &[PathText]
    ensures { result.now ≡ filled_of command outs.now }
{
    match command {
        Command::Lines => match outs {
            [_, ..] => &outs[..1],
            [] => outs,
        },
        Command::Cat
        | Command::Keep
        | Command::Tee
        | Command::Echo
        | Command::Half
        | Command::Fail
        | Command::Killed
        | Command::Unknown => &[],
    }
}

// The values of the first parameter with this name.
fn values_of<'a>(name: &[u8], params: &'a [Values]) -> &'a [Text]
    ensures { result.now ≡ values_of name.now params.now }
{
    let mut rest = params;
    while let [param, more @ ..] = rest {
        if param.name.as_str().as_bytes() == name {
            return param.values.as_slice();
        }
        rest = more;
    }
    &[]
}

// Adds each word after a space.
fn push_spaced(bytes: &mut Vec<u8>, words: &[Text]) -> Result<(), OutOfMemory>
    ensures { OnOk result (bytes.new.items ≡ bytes.old.items ++ spaced words.now) }
{
    for word in words {
        bytes.push(b' ')?;
        bytes.extend_from_slice(word.as_str().as_bytes())?;
    }
    Ok(())
}

// The words joined by one space.
fn push_words(bytes: &mut Vec<u8>, words: &[Text]) -> Result<(), OutOfMemory>
    ensures { OnOk result (bytes.new.items ≡ bytes.old.items ++ joined_words words.now) }
{
    match words {
        [first, more @ ..] => {
            bytes.extend_from_slice(first.as_str().as_bytes())?;
            push_spaced(bytes, more)
        }
        [] => Ok(()),
    }
}

fn line_of(alloc: Global, params: &[Values]) -> Result<Vec<u8>, OutOfMemory>
    ensures { IfOk result (λ bytes. bytes.items ≡ line_of params.now) }
{
    let mut bytes = Vec::new(alloc);
    push_words(&mut bytes, values_of(b"text", params))?;
    bytes.push(b'\n')?;
    Ok(bytes)
}

/// What each written output holds, from what the inputs hold.
pub fn text_of(
    alloc: Global,
    command: Command,
    params: &List<Values>,
    mut bytes: Vec<u8>,
) -> Result<Vec<u8>, OutOfMemory>
    ensures { IfOk result (λ text. text.items ≡ text_of command params.now bytes.items) }
{
    match command {
        Command::Cat | Command::Keep | Command::Tee => Ok(bytes),
        Command::Echo => line_of(alloc, params.as_slice()),
        Command::Half | Command::Killed => {
            let half = bytes.len() / 2;
            bytes.truncate(half);
            Ok(bytes)
        }
        Command::Lines | Command::Fail | Command::Unknown => Ok(Vec::new(alloc)),
    }
}

/// The time of what is written: that of the first input where it is kept, and else a new one.
pub fn time_with(command: Command, first: Option<u64>, now: u64) -> u64
    ensures { result ≡ time_with command first now }
{
    match command {
        Command::Keep => first.unwrap_or(now),
        _ => now,
    }
}
