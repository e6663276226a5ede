//! Commands that the shell waits for.

ghost use Rattle.std.specs.Prelude.{◌≡◌, false, option_map, IfOk};
ghost use Rattle.smk_eval.specs.Faults.{Answers, device_failed};
ghost use Rattle.smk_eval.specs.Waiting as spec;

use smk_base::{OutOfMemory, Text};
use smk_flaws::{FileFlaw, Flaw, LoadFault};
use smk_flow::RulePart;
use std::alloc::Global;

// Whether the word stands somewhere in the text.
fn has(word: &[u8], text: &[u8]) -> bool
    ensures { result ≡ spec.has word.now text.now }
{
    let mut rest = text;
    while let [_, later @ ..] = rest {
        if rest.starts_with(word) {
            return true;
        }
        rest = later;
    }
    false
}

// The word that the command may not have.
fn refused_word(command: &str) -> Option<&'static str>
    ensures { option_map (λ w. w.now) result ≡ spec.refused_word command.now }
{
    if has(b"&>", command.as_bytes()) {
        Some("&>")
    } else if has(b"|&", command.as_bytes()) {
        Some("|&")
    } else {
        None
    }
}

// The word that the rule's command may not have.
fn word_of(part: &RulePart) -> Option<&'static str>
    ensures { option_map (λ w. w.now) result ≡ spec.word_of part.now }
{
    match &part.command {
        Some(command) => refused_word(command.as_str()),
        None => None,
    }
}

// The fault of a rule whose command has this word.
fn unsupported(alloc: Global, part: &RulePart, word: &str) -> Result<LoadFault, OutOfMemory>
    ensures { IfOk result (λ f. f ≡ spec.unsupported part.now word.now) }
{
    Ok(LoadFault::Flawed(Flaw::File(FileFlaw::Unsupported {
        file: Text::of(alloc, part.file.as_str())?,
        line: part.line,
        word: Text::of(alloc, word)?,
    })))
}

// That the shell waits for all of the rule's command.
#[tactic(auto, using(crate::proofs::Waited::waits_not))]
fn waits(alloc: Global, part: &RulePart) -> Result<(), LoadFault>
    ensures is { Answers (spec.waits part.now) result }
    ensures no_device { device_failed result ≡ false }
{
    match word_of(part) {
        Some(word) => Err(unsupported(alloc, part, word)?),
        None => Ok(()),
    }
}

/// That the shell waits for the commands of all these rules. `Unsupported`, with the rule's file and line, of the first rule whose command
/// has `&>` or `|&`: the shell that runs commands takes the first for the end of a command that goes on in the background, so that what
/// it still writes would count as done, and doesn't know the second. Such a word counts wherever it stands, between quotes too.
/// `OutOfMemory` where there is no memory for the fault.
pub(crate) fn all_wait(alloc: Global, parts: &[RulePart]) -> Result<(), LoadFault>
    ensures is { Answers (spec.all_wait parts.now) result }
    ensures no_device { device_failed result ≡ false }
{
    for part in parts {
        waits(alloc, part)?;
    }
    Ok(())
}
