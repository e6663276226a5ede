//! The workflow of a folder.

ghost use Rattle.std.specs.Prelude.{◌≡◌, [], IfErr, false};
ghost use Rattle.smk_world.specs.Devices.{WhereTold, HasLooked};
ghost use Rattle.smk_cli_entry.specs.Faults.{device_failed, is_sink};
ghost use Rattle.smk_cli_entry.specs.Entry as spec;

use crate::naming::file_of;
use smk_base::{List, Pair, PathText};
use smk_eval::load;
use smk_flow::Workflow;
use smk_report::Fault;
use smk_words_reading::RunWords;
use smk_world::Files;
use std::alloc::Global;

/// A workflow, and the file that has it.
#[derive(Drop)]
pub struct Reading {
    pub file: PathText,
    pub flow: Workflow,
}

// The workflow of the file, with what is set in the configuration.
fn read_in<W: Files>(
    alloc: Global,
    work: &mut W,
    file: PathText,
    sets: &List<Pair>,
) -> Result<Reading, Fault>
    requires none_runs { (W.device work.old).running ≡ [] }
    ensures looked { HasLooked W.act (W.device work.old) (W.device work.new) (device_failed result) }
    ensures told { WhereTold (W.device work.old) (λ w. spec.IsReadIn w.nodes file sets.now result) }
    ensures no_sink { IfErr result (λ f. is_sink f ≡ false) }
{
    let flow = load(alloc, work, &file, sets)?;
    Ok(Reading { file, flow })
}

/// The workflow that the words ask by: of the file that they name, or else of the first of the folder's that is there; with what they set in the
/// configuration. Nothing in the folder changes. No child may run.
///
/// The faults are `NoFile` of `Snakefile` where none is named and there is no such file, and then those of reading the file, its includes and
/// its configurations: for each file, depth first, `NoFile`, `TooBig`, `IncludeDepth` and those of its tokens and its grammar; for each
/// configuration, in order, `NoFile`, `TooBig` and `BadConfig`; those of the statements, in order; those of the rules; those of
/// the clauses. `Device` comes where the device failed, `OutOfMemory` where there is no memory for the workflow.
pub fn read_workflow<W: Files>(
    alloc: Global,
    work: &mut W,
    words: &RunWords,
) -> Result<Reading, Fault>
    requires none_runs { (W.device work.old).running ≡ [] }
    ensures looked { HasLooked W.act (W.device work.old) (W.device work.new) (device_failed result) }
    ensures told { WhereTold (W.device work.old) (λ w. spec.IsRead words.now w.nodes result) }
    ensures no_sink { IfErr result (λ f. is_sink f ≡ false) }
{
    match file_of(alloc, work, words) {
        Err(fault) => Err(fault),
        Ok(file) => read_in(alloc, work, file, &words.sets),
    }
}
