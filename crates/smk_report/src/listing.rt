//! The lines of a listing.

ghost use Rattle.std.specs.Prelude.{◌≡◌, ◌++◌, ◌∷◌, [], IfOk, string_bytes, codes, decimal};
ghost use Rattle.std.specs.List.{count_by};
ghost use Rattle.smk_trigger.specs.JobStates as kinds;
ghost use Rattle.smk_report.specs.Lines as spec;

use crate::lines::{job_line, reason_text};
use smk_base::{List, OutOfMemory, PathText, Text};
use smk_trigger::{Reason, State};
use std::alloc::{AllocError, Global};

// What follows on a job that has to run.
fn reasons_after(alloc: Global, reasons: &[Reason]) -> Result<String, OutOfMemory>
    ensures { IfOk result (λ text. string_bytes text ≡ codes ": " ++ spec.reason_text reasons.now) }
{
    let text = reason_text(alloc, reasons)?;
    let text = text.as_str();
    Ok(format!(in alloc; ": {text}")?)
}

/// The line of a job by its state: empty where the job is clean. `OutOfMemory` where there is no memory for it.
pub fn state_line(
    alloc: Global,
    rule: &str,
    path: &PathText,
    state: &State,
) -> Result<Text, OutOfMemory>
    ensures { IfOk result (λ text. text ≡ spec.state_line (record { rule = rule.now; path = path.now }, state.now)) }
{
    match state {
        State::Open => job_line(alloc, "open", rule, path, ""),
        State::Dirty(reasons) => {
            let rest = reasons_after(alloc, reasons.as_slice())?;
            job_line(alloc, "run", rule, path, rest.as_str())
        }
        State::Restore => job_line(alloc, "restore", rule, path, ""),
        State::Clean => Text::of(alloc, ""),
    }
}

// How many states there are of each kind.
#[derive(Clone, Copy)]
struct Counts {
    dirty: usize,
    restored: usize,
    opened: usize,
    clean: usize,
}

fn is_dirty(state: &State) -> bool
    ensures { result ≡ kinds.is_dirty state.now }
{
    matches!(state, State::Dirty(_))
}

fn is_restore(state: &State) -> bool
    ensures { result ≡ kinds.is_restore state.now }
{
    matches!(state, State::Restore)
}

fn is_open(state: &State) -> bool
    ensures { result ≡ kinds.is_open state.now }
{
    matches!(state, State::Open)
}

fn is_clean(state: &State) -> bool
    ensures { result ≡ kinds.is_clean state.now }
{
    matches!(state, State::Clean)
}

fn count_kinds(states: &[State]) -> Counts
    ensures dirty { result.dirty ≡ count_by kinds.is_dirty states.now }
    ensures restored { result.restored ≡ count_by kinds.is_restore states.now }
    ensures opened { result.opened ≡ count_by kinds.is_open states.now }
    ensures clean { result.clean ≡ count_by kinds.is_clean states.now }
{
    let mut counts = Counts {
        dirty: 0,
        restored: 0,
        opened: 0,
        clean: 0,
    };
    for state in states {
        counts.dirty += usize::from(is_dirty(state));
        counts.restored += usize::from(is_restore(state));
        counts.opened += usize::from(is_open(state));
        counts.clean += usize::from(is_clean(state));
    }
    counts
}

fn plan_text(alloc: Global, counts: &Counts) -> Result<String, AllocError>
    ensures { IfOk result (λ text. string_bytes text
        ≡ codes "plan: " ++ (decimal counts.now.dirty ++ (codes " to run, " ++ (decimal counts.now.restored
        ++ (codes " to restore, " ++ (decimal counts.now.opened ++ (codes " open, " ++ (decimal counts.now.clean ++ (codes " clean" ++ 10 ∷ []))))))))) }
{
    let (dirty, restored, opened, clean) = (
        counts.dirty,
        counts.restored,
        counts.opened,
        counts.clean,
    );
    format!(in alloc; "plan: {dirty} to run, {restored} to restore, {opened} open, {clean} clean\n")
}

/// The last line of a listing: how many jobs are to run, to be restored, open and clean. `OutOfMemory` where there is no memory for it.
pub fn plan_line(alloc: Global, states: &List<State>) -> Result<Text, OutOfMemory>
    ensures { IfOk result (λ text. text ≡ spec.plan_line states.now) }
{
    let counts = count_kinds(states.as_slice());
    let line = plan_text(alloc, &counts)?;
    Text::of(alloc, line.as_str())
}
