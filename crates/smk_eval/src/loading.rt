//! The workflow of a working folder.

ghost use Rattle.std.specs.Prelude.{◌≡◌, [], IfOk, false};
ghost use Rattle.smk_world.specs.Devices.{WhereTold, HasLooked};
ghost use Rattle.smk_config.specs.Settings.{members};
ghost use Rattle.smk_eval_files.specs.Texts.{whole};
ghost use Rattle.smk_eval.specs.Faults.{device_failed};
ghost use Rattle.smk_eval.specs.Loading as spec;

use crate::configs::{config_files, configs, with_sets};
use crate::evaluate;
use smk_base::{List, OutOfMemory, Pair, PathText, Text};
use smk_config::Config;
use smk_eval_files::{ReadFile, read_files, text_of};
use smk_flaws::LoadFault;
use smk_flow::Workflow;
use smk_world::Files;
use std::alloc::Global;

// The texts of the `configfile` statements of the files, in order.
fn configs_named(alloc: Global, files: &[ReadFile]) -> Result<List<Text>, OutOfMemory>
    ensures { IfOk result (λ texts. texts ≡ spec.config_files (whole files.now)) }
{
    let text = text_of(alloc, files)?;
    config_files(alloc, &text)
}

// The workflow of the files with this configuration and the texts that are set.
fn evaluated(
    alloc: Global,
    files: &List<ReadFile>,
    config: Config,
    sets: &List<Pair>,
) -> Result<Workflow, LoadFault>
    ensures is { spec.Gives (spec.said_in (spec.with_sets (members config) sets.now) files.now) result }
    ensures no_device { device_failed result ≡ false }
{
    let config = with_sets(alloc, config, sets.as_slice())?;
    evaluate(alloc, files, &config)
}

// The workflow of files that were read.
fn said_by<W: Files>(
    alloc: Global,
    work: &mut W,
    files: &List<ReadFile>,
    sets: &List<Pair>,
) -> Result<Workflow, LoadFault>
    requires none_runs { (W.device work.old).running ≡ [] }
    ensures looked { HasLooked W.act (W.device work.old) (W.device work.new) (device_failed result) }
    ensures told { WhereTold (W.device work.old) (λ w. spec.Gives (spec.said_by w.nodes sets.now files.now) result) }
{
    match configs_named(alloc, files.as_slice()) {
        Err(_) => Err(LoadFault::OutOfMemory),
        Ok(texts) => match configs(alloc, work, texts.as_slice()) {
            Err(fault) => Err(fault),
            Ok(config) => evaluated(alloc, files, config, sets),
        },
    }
}

/// The workflow of this file, of its includes and configurations, with the texts of `sets` put into the configuration, later ones
/// over earlier ones. Nothing in the folder changes. No child may run.
///
/// The faults come in this order: for each file, depth first, `NoFile`, `TooBig`, `IncludeDepth` and those of its tokens and its grammar;
/// for each configuration, in order, `NoFile`, `TooBig` and `BadConfig`; those of the statements, in order;
/// `Unsupported` of the first rule whose command has `&>` or `|&`; those of the rules; those of the clauses. `Device` comes where the device failed, `OutOfMemory` where there is no memory for the workflow.
pub fn load<W: Files>(
    alloc: Global,
    work: &mut W,
    file: &PathText,
    sets: &List<Pair>,
) -> Result<Workflow, LoadFault>
    requires none_runs { (W.device work.old).running ≡ [] }
    ensures looked { HasLooked W.act (W.device work.old) (W.device work.new) (device_failed result) }
    ensures told { WhereTold (W.device work.old) (λ w. spec.Gives (spec.loaded w.nodes file.now sets.now) result) }
{
    let Ok(path) = file.copy(alloc) else {
        return Err(LoadFault::OutOfMemory);
    };
    let files = read_files(alloc, work, path)?;
    said_by(alloc, work, &files, sets)
}
