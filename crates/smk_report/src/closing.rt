//! The last lines of a run, and those of other commands.

ghost use Rattle.std.specs.Prelude.{◌≡◌, ◌++◌, ◌∷◌, [], IfOk, string_bytes, codes, decimal, if◌then◌else◌};
ghost use Rattle.smk_report.specs.Lines as spec;

use smk_base::{OutOfMemory, PathText, Text};
use std::alloc::{AllocError, Global};

// The words and the path.
fn path_text(alloc: Global, words: &str, path: &str) -> Result<String, AllocError>
    ensures { IfOk result (λ text. string_bytes text ≡ words.now ++ (32 ∷ (path.now ++ 10 ∷ []))) }
{
    format!(in alloc; "{words} {path}\n")
}

// Whether a target is current.
fn target_words(is_current: bool) -> &'static str
    ensures { result.now ≡ (if is_current then codes "current" else codes "not current") }
{
    if is_current { "current" } else { "not current" }
}

/// The line of a target, which is current or not. `OutOfMemory` where there is no memory for it.
#[tactic(auto, using(crate::proofs::Joining::line_from_first))]
pub fn target_line(alloc: Global, is_current: bool, path: &PathText) -> Result<Text, OutOfMemory>
    ensures { IfOk result (λ text. text ≡ spec.target_line is_current path.now) }
{
    let line = path_text(alloc, target_words(is_current), path.as_str())?;
    Text::of(alloc, line.as_str())
}

/// How many jobs were started, done and failed. `OutOfMemory` where there is no memory for the line.
#[tactic(auto, using(crate::proofs::Joining::summary_from_first))]
pub fn summary_line(
    alloc: Global,
    started: u64,
    done: u64,
    failed: u64,
) -> Result<Text, OutOfMemory>
    ensures { IfOk result (λ text. text ≡ spec.summary_line started done failed) }
{
    let line = format!(in alloc; "summary: {started} started, {done} done, {failed} failed\n")?;
    Text::of(alloc, line.as_str())
}

/// The line of a lock that was removed. `OutOfMemory` where there is no memory for it.
pub fn unlocked_line(alloc: Global) -> Result<Text, OutOfMemory>
    ensures { IfOk result (λ text. text ≡ spec.unlocked_line) }
{
    Text::of(alloc, "unlocked\n")
}

// Whether something was known of a path.
fn forgotten_words(was_known: bool) -> &'static str
    ensures { result.now ≡ (if was_known then codes "forgotten" else codes "nothing known of") }
{
    if was_known {
        "forgotten"
    } else {
        "nothing known of"
    }
}

/// The line of a path of which something was known and is forgotten, or nothing was known. `OutOfMemory` where there is no memory for it.
#[tactic(auto, using(crate::proofs::Joining::line_from_first))]
pub fn forgotten_line(alloc: Global, was_known: bool, path: &PathText) -> Result<Text, OutOfMemory>
    ensures { IfOk result (λ text. text ≡ spec.forgotten_line was_known path.now) }
{
    let line = path_text(alloc, forgotten_words(was_known), path.as_str())?;
    Text::of(alloc, line.as_str())
}
