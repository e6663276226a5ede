//! Candidates for those who look at paths before it is known which of them are sources.

ghost use Rattle.std.specs.Prelude.{◌≡◌, ◌++◌, map, IfOk, OnOk};
ghost use Rattle.smk_world.specs.Trees.{Path};
ghost use Rattle.smk_choose.specs.Choose.{candidates, as_member, as_output, or_else};
ghost use Rattle.smk_choose.specs.Told.{told_by, making};
ghost use Rattle.smk_choose.specs.Readings.{filled_by};
ghost use Rattle.smk_choose.specs.Index.{AreReadings};
ghost use Rattle.smk_choose.specs.Finding.{places_by};

use crate::candidates::{all_apart, filled, makings};
use crate::{Making, Readings, Sources};
use smk_base::{List, OutOfMemory, PathText, Text};
use smk_flow::{Rule, Workflow};
use smk_pattern::{Binding, Pattern};
use std::alloc::Global;

impl Readings {
    /// The jobs that fit the path by name, by their rules and bindings, whatever their outputs and logs hold. `OutOfMemory` where there is no
    /// memory for them.
    pub fn fitting(
        &self,
        alloc: Global,
        flow: &Workflow,
        path: &PathText,
    ) -> Result<Vec<Making>, OutOfMemory>
        requires { AreReadings flow.now self.now }
        ensures { IfOk result (λ found. found.items ≡ map making (or_else (as_member flow.now path.now) (as_output flow.now path.now))) }
    {
        makings(alloc, flow.rules().as_slice(), self, path)
    }
}

/// Those of the jobs that fit a path that are candidates: whose outputs and logs are paths that hold no source. `OutOfMemory` where there
/// is no memory for them.
pub fn apart(
    alloc: Global,
    flow: &Workflow,
    sources: &Sources,
    fitting: Vec<Making>,
) -> Result<Vec<Making>, OutOfMemory>
    ensures { (p : Path) → fitting.items ≡ map making (or_else (as_member flow.now p) (as_output flow.now p))
        → IfOk result (λ kept. kept.items ≡ map making (candidates flow.now (told_by sources.now) p)) }
{
    all_apart(alloc, sources, flow.rules().as_slice(), fitting)
}

// Adds what the patterns give with the values of the binding.
fn add_filled(
    alloc: Global,
    found: &mut List<Text>,
    patterns: &[Pattern],
    binding: &Binding,
) -> Result<(), OutOfMemory>
    ensures { OnOk result (found.new ≡ found.old ++ map (filled_by binding.now) patterns.now) }
{
    for pattern in patterns {
        found.push(filled(alloc, pattern, binding)?)?;
    }
    Ok(())
}

// What the rule's patterns of outputs, and then those of logs, give.
fn filled_places(alloc: Global, rule: &Rule, binding: &Binding) -> Result<List<Text>, OutOfMemory>
    ensures { IfOk result (λ found. found ≡ map (filled_by binding.now) rule.now.outputs ++ map (filled_by binding.now) rule.now.logs) }
{
    let mut found = List::new(alloc);
    add_filled(alloc, &mut found, rule.outputs.as_slice(), binding)?;
    add_filled(alloc, &mut found, rule.logs.as_slice(), binding)?;
    Ok(found)
}

/// Where the job writes: its outputs and then its logs, as texts, which need not be paths. `OutOfMemory` where there is no memory for them.
pub fn places(alloc: Global, flow: &Workflow, job: &Making) -> Result<List<Text>, OutOfMemory>
    ensures { IfOk result (λ found. found ≡ places_by flow.now job.now) }
{
    match flow.rules().as_slice().get(job.rule as usize) {
        Some(rule) => filled_places(alloc, rule, &job.binding),
        None => Ok(List::new(alloc)),
    }
}
