//! Configurations, read from the working folder one over another.

ghost use Rattle.std.specs.Prelude.{◌≡◌, [], Ok, IfOk, false};
ghost use Rattle.serde_json.specs.Data.{no_members};
ghost use Rattle.smk_world.specs.Devices.{WhereTold, HasLooked};
ghost use Rattle.smk_config.specs.Settings.{members};
ghost use Rattle.smk_config.specs.Settings as settings;
ghost use Rattle.smk_eval_files.specs.Placing.{entries};
ghost use Rattle.smk_flaws.specs.declared.flaw.Flaw.TheVariants.{BadConfig};
ghost use Rattle.smk_flaws.specs.declared.fault.LoadFault.TheVariants.{Flawed};
ghost use Rattle.smk_eval.specs.Faults.{Answers, device_failed};
ghost use Rattle.smk_eval.specs.Loading as spec;
ghost use Rattle.smk_eval.specs.Configured.{Configures};

use smk_base::{List, OutOfMemory, Pair, PathFault, PathText, Text};
use smk_config::{Config, ConfigFault};
use smk_eval_files::{Placed, read_bytes};
use smk_flaws::{FileFlaw, Flaw, LoadFault};
use smk_parse_tree::Form;
use smk_world::Files;
use std::alloc::Global;

/// The texts of the `configfile` statements, in order. `OutOfMemory` where there is no memory for them.
pub(crate) fn config_files(alloc: Global, text: &[Placed<'_>]) -> Result<List<Text>, OutOfMemory>
    ensures { IfOk result (λ files. files ≡ spec.config_files (entries text.now)) }
{
    let mut files = List::new(alloc);
    for placed in text {
        if let Form::ConfigFile(file) = &placed.statement.form {
            files.push(file.copy(alloc)?)?;
        }
    }
    Ok(files)
}

// The fault of a file that is no configuration.
fn bad_config(alloc: Global, file: &PathText) -> Result<LoadFault, OutOfMemory>
    ensures { IfOk result (λ f. f ≡ Flawed (BadConfig file.now)) }
{
    Ok(LoadFault::Flawed(Flaw::BadConfig {
        file: Text::of(alloc, file.as_str())?,
    }))
}

// The configuration that the bytes of the file are.
#[tactic(auto, using(crate::proofs::Merging::config_read, crate::proofs::Merging::config_bad))]
fn config_in(alloc: Global, file: &PathText, source: &[u8]) -> Result<Config, LoadFault>
    ensures is { Configures result (spec.config_in file.now source.now) }
    ensures no_device { device_failed result ≡ false }
{
    match Config::read(alloc, source) {
        Ok(config) => Ok(config),
        Err(ConfigFault::BadConfig) => Err(bad_config(alloc, file)?),
        Err(ConfigFault::NoKey) | Err(ConfigFault::OutOfMemory) => Err(LoadFault::OutOfMemory),
    }
}

// The path from the working folder that the text names.
fn config_path(alloc: Global, text: &Text) -> Result<PathText, LoadFault>
    ensures is { Answers (spec.config_path text.now) result }
    ensures no_device { device_failed result ≡ false }
{
    match PathText::read(alloc, text.as_str()) {
        Ok(path) => Ok(path),
        Err(PathFault::BadPath) => Err(LoadFault::Flawed(Flaw::File(FileFlaw::NoFile {
            file: text.copy(alloc)?,
        }))),
        Err(PathFault::OutOfMemory) => Err(LoadFault::OutOfMemory),
    }
}

// The configuration in the file of this path.
fn config_file<W: Files>(alloc: Global, work: &mut W, path: &PathText) -> Result<Config, LoadFault>
    requires none_runs { (W.device work.old).running ≡ [] }
    ensures looked { HasLooked W.act (W.device work.old) (W.device work.new) (device_failed result) }
    ensures told { WhereTold (W.device work.old) (λ w. Configures result (spec.config_file w.nodes path.now)) }
{
    let source = read_bytes(alloc, work, path)?;
    config_in(alloc, path, source.as_slice())
}

// The configuration in the file of this text.
fn config_at<W: Files>(alloc: Global, work: &mut W, text: &Text) -> Result<Config, LoadFault>
    requires none_runs { (W.device work.old).running ≡ [] }
    ensures looked { HasLooked W.act (W.device work.old) (W.device work.new) (device_failed result) }
    ensures told { WhereTold (W.device work.old) (λ w. Configures result (spec.config_at w.nodes text.now)) }
{
    match config_path(alloc, text) {
        Err(fault) => Err(fault),
        Ok(path) => config_file(alloc, work, &path),
    }
}

// The later configuration over the earlier one.
fn over(alloc: Global, was: Config, later: &Config) -> Result<Config, LoadFault>
    ensures is { Configures result (Ok (settings.over (members later.now) (members was))) }
    ensures no_device { device_failed result ≡ false }
{
    Ok(was.over(alloc, later)?)
}

// The configuration with that of one more file over it.
fn with_config<W: Files>(
    alloc: Global,
    work: &mut W,
    was: Config,
    text: &Text,
) -> Result<Config, LoadFault>
    requires none_runs { (W.device work.old).running ≡ [] }
    ensures looked { HasLooked W.act (W.device work.old) (W.device work.new) (device_failed result) }
    ensures told { WhereTold (W.device work.old) (λ w. Configures result (spec.with_config w.nodes (members was) text.now)) }
{
    match config_at(alloc, work, text) {
        Err(fault) => Err(fault),
        Ok(later) => over(alloc, was, &later),
    }
}

/// The configurations of these files, one over another in order.
pub(crate) fn configs<W: Files>(
    alloc: Global,
    work: &mut W,
    texts: &[Text],
) -> Result<Config, LoadFault>
    requires none_runs { (W.device work.old).running ≡ [] }
    ensures looked { HasLooked W.act (W.device work.old) (W.device work.new) (device_failed result) }
    ensures told { WhereTold (W.device work.old) (λ w. Configures result (spec.configs w.nodes no_members texts.now)) }
{
    let mut config = Config::new(alloc);
    for text in texts {
        match with_config(alloc, work, config, text) {
            Err(fault) => return Err(fault),
            Ok(more) => config = more,
        }
    }
    Ok(config)
}

/// The configuration with the texts that are set, later ones over earlier ones. `OutOfMemory` where there is no memory for it.
pub(crate) fn with_sets(alloc: Global, config: Config, sets: &[Pair]) -> Result<Config, OutOfMemory>
    ensures { IfOk result (λ c. members c ≡ spec.with_sets (members config) sets.now) }
{
    let mut config = config;
    for set in sets {
        config.set(alloc, set.name.as_str(), set.value.as_str())?;
    }
    Ok(config)
}
