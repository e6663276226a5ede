//! Lines of jobs, and the texts of their reasons.

ghost use Rattle.std.specs.Prelude.{◌≡◌, ◌++◌, ◌∷◌, [], IfOk, OnOk, string_bytes, codes};
ghost use Rattle.smk_report.specs.Lines as spec;

use smk_base::{OutOfMemory, PathText, Text};
use smk_trigger::Reason;
use std::alloc::{AllocError, Global};

/// The line of a job: a word, the job's rule, its first output, and the rest as it is given. `OutOfMemory` where there is no memory
/// for it.
pub fn job_line(
    alloc: Global,
    word: &str,
    rule: &str,
    path: &PathText,
    rest: &str,
) -> Result<Text, OutOfMemory>
    ensures { IfOk result (λ text. text ≡ spec.job_text word.now rule.now path.now rest.now) }
{
    let path = path.as_str();
    let line = format!(in alloc; "{word} {rule} {path}{rest}\n")?;
    Text::of(alloc, line.as_str())
}

// Adds the words of a reason.
fn push_reason(text: &mut String, reason: &Reason) -> Result<(), AllocError>
    ensures { OnOk result (string_bytes text.new ≡ string_bytes text.old ++ spec.reason_word reason.now) }
{
    match reason {
        Reason::New => text.push_str("new"),
        Reason::Marked => text.push_str("marked"),
        Reason::BadRecord => text.push_str("bad record"),
        Reason::Code => text.push_str("code"),
        Reason::Params => text.push_str("params"),
        Reason::Inputs => text.push_str("inputs"),
        Reason::Updated(path) => push_path(text, "updated ", path),
        Reason::Upstream(path) => push_path(text, "upstream ", path),
        Reason::Forced => text.push_str("forced"),
    }
}

// Adds the words and the path.
fn push_path(text: &mut String, words: &str, path: &PathText) -> Result<(), AllocError>
    ensures { OnOk result (string_bytes text.new ≡ string_bytes text.old ++ (words.now ++ path.now)) }
{
    text.push_str(words)?;
    text.push_str(path.as_str())
}

// Adds the reasons that stand behind another.
fn push_later(text: &mut String, reasons: &[Reason]) -> Result<(), AllocError>
    ensures { OnOk result (string_bytes text.new ≡ string_bytes text.old ++ spec.later spec.reason_word (codes ", ") reasons.now) }
{
    for reason in reasons {
        text.push_str(", ")?;
        push_reason(text, reason)?;
    }
    Ok(())
}

// Adds the reasons.
fn push_reasons(text: &mut String, reasons: &[Reason]) -> Result<(), AllocError>
    ensures { OnOk result (string_bytes text.new ≡ string_bytes text.old ++ spec.reason_text reasons.now) }
{
    match reasons.split_first() {
        Some((first, later)) => {
            push_reason(text, first)?;
            push_later(text, later)?;
            Ok(())
        }
        None => Ok(()),
    }
}

/// The reasons in order, with `, ` between them. `OutOfMemory` where there is no memory for the text.
pub fn reason_text(alloc: Global, reasons: &[Reason]) -> Result<Text, OutOfMemory>
    ensures { IfOk result (λ text. text ≡ spec.reason_text reasons.now) }
{
    let mut text = String::new(alloc);
    push_reasons(&mut text, reasons)?;
    Text::of(alloc, text.as_str())
}
