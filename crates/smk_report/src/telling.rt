//! The lines of faults.

ghost use Rattle.std.specs.Prelude.{◌≡◌, ◌++◌, ◌∷◌, [], IfOk, OnOk, string_bytes, codes, decimal};
ghost use Rattle.smk_report.specs.Lines.{joined, later};
ghost use Rattle.smk_report.specs.Faults.{at_line, file_words, value_words, rules_words, said_words, flaw_words, fault_words, fault_text};

use crate::fault::Fault;
use smk_base::{OutOfMemory, PathText, Text};
use smk_eval_values::ValueFault;
use smk_flaws::{FileFlaw, Flaw, SaidFlaw};
use smk_flow::FlowFault;
use std::alloc::{AllocError, Global};

// The file, the line and the words.
#[tactic(auto, using(crate::proofs::Joining::at_from_first))]
fn at_line(alloc: Global, file: &Text, line: u64, words: &str) -> Result<String, AllocError>
    ensures { IfOk result (λ text. string_bytes text ≡ at_line file.now line ++ words.now) }
{
    let file = file.as_str();
    format!(in alloc; "{file}:{line}{words}")
}

// The file, the line, the words and what they speak of.
#[tactic(auto, using(crate::proofs::Joining::at_from_first))]
fn at_line_of(
    alloc: Global,
    file: &Text,
    line: u64,
    words: &str,
    name: &str,
) -> Result<String, AllocError>
    ensures { IfOk result (λ text. string_bytes text ≡ at_line file.now line ++ (words.now ++ name.now)) }
{
    let file = file.as_str();
    format!(in alloc; "{file}:{line}{words}{name}")
}

// The rule and what of it.
fn in_rule(alloc: Global, rule: &Text, name: &Text) -> Result<String, AllocError>
    ensures { IfOk result (λ text. string_bytes text ≡ rule.now ++ (codes ": " ++ name.now)) }
{
    let (rule, name) = (rule.as_str(), name.as_str());
    format!(in alloc; "{rule}: {name}")
}

// The file, the line, the words, the rule that they speak of and what of it.
fn at_line_in(
    alloc: Global,
    file: &Text,
    line: u64,
    words: &str,
    rule: &Text,
    name: &Text,
) -> Result<String, AllocError>
    ensures { IfOk result (λ text. string_bytes text ≡ at_line file.now line ++ (words.now ++ (rule.now ++ (codes ": " ++ name.now)))) }
{
    let rest = in_rule(alloc, rule, name)?;
    at_line_of(alloc, file, line, words, rest.as_str())
}

// The words and what they speak of.
fn of_one(alloc: Global, words: &str, name: &str) -> Result<String, AllocError>
    ensures { IfOk result (λ text. string_bytes text ≡ words.now ++ name.now) }
{
    format!(in alloc; "{words}{name}")
}

// The words and the two that they speak of.
fn of_two(
    alloc: Global,
    words: &str,
    first: &str,
    between: &str,
    second: &str,
) -> Result<String, AllocError>
    ensures { IfOk result (λ text. string_bytes text ≡ words.now ++ (first.now ++ (between.now ++ second.now))) }
{
    format!(in alloc; "{words}{first}{between}{second}")
}

// The words and the three that they speak of.
fn of_three(
    alloc: Global,
    words: &str,
    first: &str,
    before: &str,
    second: &str,
    after: &str,
    third: &str,
) -> Result<String, AllocError>
    ensures { IfOk result (λ text. string_bytes text ≡ words.now ++ (first.now ++ (before.now ++ (second.now ++ (after.now ++ third.now))))) }
{
    format!(in alloc; "{words}{first}{before}{second}{after}{third}")
}

// Adds the paths that stand behind another.
fn push_later(text: &mut String, paths: &[PathText]) -> Result<(), AllocError>
    ensures { OnOk result (string_bytes text.new ≡ string_bytes text.old ++ later (λ path. path) (codes " ") paths.now) }
{
    for path in paths {
        text.push_str(" ")?;
        text.push_str(path.as_str())?;
    }
    Ok(())
}

// Adds the paths, with a space between.
fn push_paths(text: &mut String, paths: &[PathText]) -> Result<(), AllocError>
    ensures { OnOk result (string_bytes text.new ≡ string_bytes text.old ++ joined (codes " ") paths.now) }
{
    match paths.split_first() {
        Some((first, rest)) => {
            text.push_str(first.as_str())?;
            push_later(text, rest)?;
            Ok(())
        }
        None => Ok(()),
    }
}

// The words on jobs that weren't finished.
fn incomplete(alloc: Global, paths: &[PathText]) -> Result<String, AllocError>
    ensures { IfOk result (λ text. string_bytes text ≡ codes "incomplete: " ++ joined (codes " ") paths.now) }
{
    let mut text = String::from_str(alloc, "incomplete: ")?;
    push_paths(&mut text, paths)?;
    Ok(text)
}

// The words on a job that asks too much.
fn above_limit(
    alloc: Global,
    rule: &Text,
    path: &PathText,
    name: &Text,
    asked: u64,
    bound: u64,
) -> Result<String, AllocError>
    ensures { IfOk result (λ text. string_bytes text ≡ fault_words (Fault.AboveLimit rule.now path.now name.now asked bound)) }
{
    let (rule, path, name) = (rule.as_str(), path.as_str(), name.as_str());
    format!(in alloc; "above limit: {rule} {path} asks {asked} of {name}, bound {bound}")
}

// The words on a job whose command ended with this status.
fn job_ended(alloc: Global, rule: &Text, path: &PathText, code: u32) -> Result<String, AllocError>
    ensures { IfOk result (λ text. string_bytes text ≡ fault_words (Fault.JobFailed rule.now path.now code)) }
{
    let (rule, path) = (rule.as_str(), path.as_str());
    format!(in alloc; "job failed: {rule} {path}: status {code}")
}

// What is said of a file that isn't read.
fn file_words(alloc: Global, flaw: &FileFlaw) -> Result<String, AllocError>
    ensures { IfOk result (λ text. string_bytes text ≡ file_words flaw.now) }
{
    match flaw {
        FileFlaw::BadIndent { file, line } => at_line(
            alloc,
            file,
            *line,
            ": indentation does not fit",
        ),
        FileFlaw::OpenText { file, line } => at_line(alloc, file, *line, ": text is not closed"),
        FileFlaw::BadByte { file, line } => at_line(alloc, file, *line, ": byte not allowed"),
        FileFlaw::Unexpected { file, line } => at_line(alloc, file, *line, ": not expected here"),
        FileFlaw::Unsupported { file, line, word } => {
            at_line_of(alloc, file, *line, ": not supported: ", word.as_str())
        }
        FileFlaw::Doubled { file, line, word } => {
            at_line_of(alloc, file, *line, ": given twice: ", word.as_str())
        }
        FileFlaw::IncludeDepth { file } => of_one(alloc, "includes too deep: ", file.as_str()),
        FileFlaw::NoFile { file } => of_one(alloc, "no file ", file.as_str()),
        FileFlaw::TooBig { file } => of_one(alloc, "file too big: ", file.as_str()),
    }
}

// What is said of an expression without a value, in a statement of this file, line and rule.
fn value_words(
    alloc: Global,
    file: &Text,
    line: u64,
    rule: &Text,
    fault: &ValueFault,
) -> Result<String, AllocError>
    ensures { IfOk result (λ text. string_bytes text ≡ value_words file.now line rule.now fault.now) }
{
    match fault {
        ValueFault::BadFlag(word) => {
            at_line_in(alloc, file, line, ": does not stand in ", rule, word)
        }
        ValueFault::UnknownName(name) => {
            at_line_of(alloc, file, line, ": unknown name: ", name.as_str())
        }
        ValueFault::NoKey(key) => {
            at_line_of(alloc, file, line, ": no configuration for ", key.as_str())
        }
        ValueFault::BadConfig(key) => of_one(alloc, "bad configuration:  ", key.as_str()),
        ValueFault::UnequalZip => at_line(alloc, file, line, ": zip over unequal lists"),
        ValueFault::TooMany => at_line(alloc, file, line, ": expand gives too many"),
        ValueFault::OutOfMemory => String::from_str(alloc, "out of memory"),
    }
}

// What is said of rules and clauses that make no workflow.
fn rules_words(alloc: Global, fault: &FlowFault) -> Result<String, AllocError>
    ensures { IfOk result (λ text. string_bytes text ≡ rules_words fault.now) }
{
    match fault {
        FlowFault::DoubledRule { file, line, name } => {
            at_line_of(alloc, file, *line, ": rule given twice: ", name.as_str())
        }
        FlowFault::BadPattern { file, line, text } => {
            at_line_of(alloc, file, *line, ": not a path pattern: ", text.as_str())
        }
        FlowFault::BadConstraint { file, line, name } => {
            at_line_of(alloc, file, *line, ": not a constraint: ", name.as_str())
        }
        FlowFault::UnequalWildcards { file, line, rule } => {
            at_line_of(alloc, file, *line, ": unequal wildcards in ", rule.as_str())
        }
        FlowFault::UnknownWildcard {
            file,
            line,
            rule,
            name,
        } => { at_line_in(alloc, file, *line, ": unknown wildcard in ", rule, name) }
        FlowFault::BadFlag {
            file,
            line,
            rule,
            word,
        } => { at_line_in(alloc, file, *line, ": does not stand in ", rule, word) }
        FlowFault::UnknownName { file, line, name } => {
            at_line_of(alloc, file, *line, ": unknown name: ", name.as_str())
        }
        FlowFault::ContradictoryOrder { a, b } => {
            of_two(
                alloc,
                "contradictory order: ",
                a.as_str(),
                " and ",
                b.as_str(),
            )
        }
        FlowFault::OutOfMemory => String::from_str(alloc, "out of memory"),
    }
}

// What is said of what files say.
fn said_words(alloc: Global, flaw: &SaidFlaw) -> Result<String, AllocError>
    ensures { IfOk result (λ text. string_bytes text ≡ said_words flaw.now) }
{
    match flaw {
        SaidFlaw::Value {
            file,
            line,
            rule,
            fault,
        } => value_words(alloc, file, *line, rule, fault),
        SaidFlaw::Rules(fault) => rules_words(alloc, fault),
    }
}

// What is said of a workflow.
fn flaw_words(alloc: Global, flaw: &Flaw) -> Result<String, AllocError>
    ensures { IfOk result (λ text. string_bytes text ≡ flaw_words flaw.now) }
{
    match flaw {
        Flaw::File(flaw) => file_words(alloc, flaw),
        Flaw::Said(flaw) => said_words(alloc, flaw),
        Flaw::BadConfig { file } => { of_two(alloc, "bad configuration: ", file.as_str(), " ", "") }
    }
}

// What is said of the fault.
fn fault_words(alloc: Global, fault: &Fault) -> Result<String, AllocError>
    ensures { IfOk result (λ text. string_bytes text ≡ fault_words fault.now) }
{
    match fault {
        Fault::Workflow(flaw) => flaw_words(alloc, flaw),
        Fault::NoRule { path } => of_one(alloc, "no rule for ", path.as_str()),
        Fault::Deep { path } => of_one(alloc, "chain too deep: ", path.as_str()),
        Fault::MissingMember { path } => of_one(alloc, "not in its directory: ", path.as_str()),
        Fault::NoCommand { rule } => of_one(alloc, "no command: ", rule.as_str()),
        Fault::StampSeen { path } => of_one(alloc, "time seen before: ", path.as_str()),
        Fault::Protected { path } => of_one(alloc, "protected: ", path.as_str()),
        Fault::BadTarget { word } => of_one(alloc, "not a target: ", word.as_str()),
        Fault::TooLong { rule, .. } => of_one(alloc, "too long: ", rule.as_str()),
        Fault::Clash { path, other } => {
            of_two(alloc, "clash: ", path.as_str(), " and ", other.as_str())
        }
        Fault::UnknownField { rule, word } => {
            of_two(
                alloc,
                "unknown field in ",
                rule.as_str(),
                ": ",
                word.as_str(),
            )
        }
        Fault::NoInput { path, rule, wanted } => {
            of_three(
                alloc,
                "no input for ",
                path.as_str(),
                ": rule ",
                rule.as_str(),
                " wants ",
                wanted.as_str(),
            )
        }
        Fault::Ambiguous { path, a, b } => {
            of_three(
                alloc,
                "ambiguous: ",
                path.as_str(),
                " by ",
                a.as_str(),
                " and ",
                b.as_str(),
            )
        }
        Fault::TooManyPaths { .. } => String::from_str(alloc, "too many paths"),
        Fault::Locked => String::from_str(alloc, "locked"),
        Fault::Serials => String::from_str(alloc, "no serial left"),
        Fault::BadWords => String::from_str(alloc, "words not read"),
        Fault::NoCores => String::from_str(alloc, "no --cores"),
        Fault::Device => String::from_str(alloc, "device failed"),
        Fault::Output => String::from_str(alloc, "output failed"),
        Fault::OutOfMemory => String::from_str(alloc, "out of memory"),
        Fault::Incomplete { paths } => incomplete(alloc, paths.as_slice()),
        Fault::AboveLimit {
            rule,
            path,
            name,
            asked,
            bound,
        } => above_limit(alloc, rule, path, name, *asked, *bound),
        Fault::JobFailed { rule, path, code } => job_ended(alloc, rule, path, *code),
        Fault::NoOutput {
            rule,
            path,
            missing,
        } => {
            of_three(
                alloc,
                "job failed: ",
                rule.as_str(),
                " ",
                path.as_str(),
                ": no output ",
                missing.as_str(),
            )
        }
        Fault::WrongKind { rule, path, wrong } => {
            of_three(
                alloc,
                "job failed: ",
                rule.as_str(),
                " ",
                path.as_str(),
                ": wrong kind ",
                wrong.as_str(),
            )
        }
        Fault::BadMember { rule, path, bad } => {
            of_three(
                alloc,
                "job failed: ",
                rule.as_str(),
                " ",
                path.as_str(),
                ": bad member ",
                bad.as_str(),
            )
        }
    }
}

/// The line of the fault: `smk: `, its text and the line's end. `OutOfMemory` where there is no memory for it.
pub fn fault_line(alloc: Global, fault: &Fault) -> Result<Text, OutOfMemory>
    ensures { IfOk result (λ text. text ≡ fault_text fault.now) }
{
    let words = fault_words(alloc, fault)?;
    let words = words.as_str();
    let line = format!(in alloc; "smk: {words}\n")?;
    Text::of(alloc, line.as_str())
}
