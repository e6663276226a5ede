//! What words ask of a workflow.

ghost use Rattle.std.specs.Prelude.{◌≡◌, [], None, IfOk, IfErr, option_map, false};
ghost use Rattle.smk_world.specs.Devices.{WhereTold, HasLooked};
ghost use Rattle.smk_flow.specs.Targets.{words_of, all_paths, first_bad};
ghost use Rattle.smk_cli_entry.specs.Faults.{device_failed, is_sink};
ghost use Rattle.smk_cli_entry.specs.Entry as spec;

use crate::reading::{Reading, read_workflow};
use smk_base::{List, PathText, Text};
use smk_flow::{TargetFault, Workflow};
use smk_flow_jobs::targets;
use smk_report::Fault;
use smk_words_reading::RunWords;
use smk_world::Files;
use std::alloc::Global;

/// A workflow, the file that has it, and the paths that it is to make.
#[derive(Drop)]
pub struct Asked {
    pub file: PathText,
    pub flow: Workflow,
    pub targets: List<PathText>,
}

// The paths that the words stand for.
fn targets_of(alloc: Global, flow: &Workflow, words: &List<Text>) -> Result<List<PathText>, Fault>
    ensures is { spec.Refuses (option_map Fault.BadTarget (first_bad flow.now (words_of flow.now words.now))) result }
    ensures paths { IfOk result (λ paths. paths ≡ all_paths flow.now (words_of flow.now words.now)) }
    ensures no_device { device_failed result ≡ false }
    ensures no_sink { IfErr result (λ f. is_sink f ≡ false) }
{
    match targets(alloc, flow, words) {
        Ok(paths) => Ok(paths),
        Err(TargetFault::BadTarget(word)) => Err(Fault::BadTarget { word }),
        Err(TargetFault::OutOfMemory) => Err(Fault::OutOfMemory),
    }
}

// What target words ask of a workflow that was read.
fn asked_in(alloc: Global, reading: Reading, targets: &List<Text>) -> Result<Asked, Fault>
    ensures is { spec.Asks targets.now reading result }
    ensures no_device { device_failed result ≡ false }
    ensures no_sink { IfErr result (λ f. is_sink f ≡ false) }
{
    let paths = targets_of(alloc, &reading.flow, targets)?;
    Ok(Asked {
        file: reading.file,
        flow: reading.flow,
        targets: paths,
    })
}

/// What the words ask of the workflow of the file that they name, or else of the folder's: its targets are rules' names and paths. Nothing in the folder
/// changes. No child may run.
///
/// The faults come in this order: those of `read_workflow`; `BadTarget` with the first word that is no target. `Device` comes where the device failed, `OutOfMemory` where there is no memory for the workflow and its targets.
pub fn ask<W: Files>(alloc: Global, work: &mut W, words: &RunWords) -> Result<Asked, Fault>
    requires none_runs { (W.device work.old).running ≡ [] }
    ensures looked { HasLooked W.act (W.device work.old) (W.device work.new) (device_failed result) }
    ensures told { WhereTold (W.device work.old) (λ w. spec.IsAskedIn words.now w.nodes result) }
    ensures no_sink { IfErr result (λ f. is_sink f ≡ false) }
{
    match read_workflow(alloc, work, words) {
        Err(fault) => Err(fault),
        Ok(reading) => asked_in(alloc, reading, &words.targets),
    }
}
