//! The file that has the workflow.

ghost use Rattle.std.specs.Prelude.{◌≡◌, ◌∷◌, [], Ok, IfErr, codes, false, true};
ghost use Rattle.smk_base.specs.Path.{is_path};
ghost use Rattle.smk_world.specs.Calls.{stat_of};
ghost use Rattle.smk_world.specs.Devices.{WhereTold, HasLooked};
ghost use Rattle.smk_eval_files.specs.Looks.{at};
ghost use Rattle.smk_cli_entry.specs.Faults.{Answers, device_failed, is_sink};
ghost use Rattle.smk_cli_entry.specs.Names.{or_else};
ghost use Rattle.smk_cli_entry.specs.Names as spec;

use smk_base::{OutOfMemory, PathFault, PathText, Place, Text};
use smk_flaws::{FileFlaw, Flaw};
use smk_report::Fault;
use smk_words_reading::RunWords;
use smk_world::{Failed, Files, Stat};
use std::alloc::Global;

/// What stands at the place.
fn stat<W: Files>(work: &mut W, place: &Place) -> Result<Stat, Fault>
    requires none_runs { (W.device work.old).running ≡ [] }
    ensures looked { HasLooked W.act (W.device work.old) (W.device work.new) (device_failed result) }
    ensures told { WhereTold (W.device work.old) (λ w. Answers (Ok (stat_of (at w.nodes place.now))) result) }
    ensures no_sink { IfErr result (λ f. is_sink f ≡ false) }
{
    match work.stat(place) {
        Ok(stat) => Ok(stat),
        Err(Failed) => Err(Fault::Device),
    }
}

// The path, where a file stands there.
fn where_file(path: PathText, stat: Stat) -> Option<PathText>
    ensures { result ≡ spec.where_file path stat }
{
    match stat {
        Stat::File { .. } => Some(path),
        Stat::Nothing | Stat::Folder => None,
    }
}

// The path, of this place, where a file is there.
fn file_in<W: Files>(work: &mut W, place: &Place, path: PathText) -> Result<Option<PathText>, Fault>
    requires none_runs { (W.device work.old).running ≡ [] }
    ensures looked { HasLooked W.act (W.device work.old) (W.device work.new) (device_failed result) }
    ensures told { WhereTold (W.device work.old) (λ w. Answers (Ok (spec.where_file path (stat_of (at w.nodes place.now)))) result) }
    ensures no_sink { IfErr result (λ f. is_sink f ≡ false) }
{
    match stat(work, place) {
        Err(fault) => Err(fault),
        Ok(stat) => Ok(where_file(path, stat)),
    }
}

// The path, where a file is there.
fn file_at<W: Files>(alloc: Global, work: &mut W, path: PathText) -> Result<Option<PathText>, Fault>
    requires none_runs { (W.device work.old).running ≡ [] }
    ensures looked { HasLooked W.act (W.device work.old) (W.device work.new) (device_failed result) }
    ensures told { WhereTold (W.device work.old) (λ w. Answers (Ok (spec.file_at w.nodes path)) result) }
    ensures no_sink { IfErr result (λ f. is_sink f ≡ false) }
{
    let Ok(place) = Place::user(alloc, &path) else {
        return Err(Fault::OutOfMemory);
    };
    file_in(work, &place, path)
}

// The file of this name, where it is there.
fn file_named<W: Files>(alloc: Global, work: &mut W, name: &str) -> Result<Option<PathText>, Fault>
    requires none_runs { (W.device work.old).running ≡ [] }
    requires named { is_path name.now ≡ true }
    ensures looked { HasLooked W.act (W.device work.old) (W.device work.new) (device_failed result) }
    ensures told { WhereTold (W.device work.old) (λ w. Answers (Ok (spec.file_at w.nodes name.now)) result) }
    ensures no_sink { IfErr result (λ f. is_sink f ≡ false) }
{
    match PathText::read(alloc, name) {
        Ok(path) => file_at(alloc, work, path),
        Err(PathFault::BadPath) => Ok(None),
        Err(PathFault::OutOfMemory) => Err(Fault::OutOfMemory),
    }
}

// The file that was found earlier, or else the one of this name.
fn earlier_or<W: Files>(
    alloc: Global,
    work: &mut W,
    earlier: Option<PathText>,
    name: &str,
) -> Result<Option<PathText>, Fault>
    requires none_runs { (W.device work.old).running ≡ [] }
    requires named { is_path name.now ≡ true }
    ensures looked { HasLooked W.act (W.device work.old) (W.device work.new) (device_failed result) }
    ensures told { WhereTold (W.device work.old) (λ w. Answers (Ok (or_else earlier (spec.file_at w.nodes name.now))) result) }
    ensures no_sink { IfErr result (λ f. is_sink f ≡ false) }
{
    match earlier {
        Some(path) => Ok(Some(path)),
        None => file_named(alloc, work, name),
    }
}

// The first of two files.
fn first_of_two<W: Files>(alloc: Global, work: &mut W) -> Result<Option<PathText>, Fault>
    requires none_runs { (W.device work.old).running ≡ [] }
    ensures looked { HasLooked W.act (W.device work.old) (W.device work.new) (device_failed result) }
    ensures told { WhereTold (W.device work.old) (λ w. Answers (Ok (spec.first_file w.nodes (codes "Snakefile" ∷ codes "snakefile" ∷ []))) result) }
    ensures no_sink { IfErr result (λ f. is_sink f ≡ false) }
{
    match file_named(alloc, work, "Snakefile") {
        Err(fault) => Err(fault),
        Ok(earlier) => earlier_or(alloc, work, earlier, "snakefile"),
    }
}

// The first of three files.
fn first_of_three<W: Files>(alloc: Global, work: &mut W) -> Result<Option<PathText>, Fault>
    requires none_runs { (W.device work.old).running ≡ [] }
    ensures looked { HasLooked W.act (W.device work.old) (W.device work.new) (device_failed result) }
    ensures told { WhereTold (W.device work.old) (λ w. Answers (Ok (spec.first_file w.nodes (codes "Snakefile" ∷ codes "snakefile" ∷ codes "workflow/Snakefile" ∷ []))) result) }
    ensures no_sink { IfErr result (λ f. is_sink f ≡ false) }
{
    match first_of_two(alloc, work) {
        Err(fault) => Err(fault),
        Ok(earlier) => earlier_or(alloc, work, earlier, "workflow/Snakefile"),
    }
}

// The first of all files.
fn first_file<W: Files>(alloc: Global, work: &mut W) -> Result<Option<PathText>, Fault>
    requires none_runs { (W.device work.old).running ≡ [] }
    ensures looked { HasLooked W.act (W.device work.old) (W.device work.new) (device_failed result) }
    ensures told { WhereTold (W.device work.old) (λ w. Answers (Ok (spec.first_file w.nodes spec.file_names)) result) }
    ensures no_sink { IfErr result (λ f. is_sink f ≡ false) }
{
    match first_of_three(alloc, work) {
        Err(fault) => Err(fault),
        Ok(earlier) => earlier_or(alloc, work, earlier, "workflow/snakefile"),
    }
}

// The file that was found, or the fault that there is none.
fn or_no_file(alloc: Global, found: Option<PathText>) -> Result<PathText, Fault>
    ensures is { Answers (spec.or_no_file found) result }
    ensures no_device { device_failed result ≡ false }
    ensures no_sink { IfErr result (λ f. is_sink f ≡ false) }
{
    match found {
        Some(path) => Ok(path),
        None => Err(Fault::Workflow(Flaw::File(FileFlaw::NoFile {
            file: Text::of(alloc, "Snakefile")?,
        }))),
    }
}

/// The file with the workflow of the folder: the first that is there of `Snakefile`, `snakefile`, `workflow/Snakefile` and
/// `workflow/snakefile`. Nothing in the folder changes. No child may run.
///
/// `NoFile` of `Snakefile` exactly where none of them is there; `Device` where the device failed; `OutOfMemory` where there is no memory for
/// the path.
pub fn workflow_file<W: Files>(alloc: Global, work: &mut W) -> Result<PathText, Fault>
    requires none_runs { (W.device work.old).running ≡ [] }
    ensures looked { HasLooked W.act (W.device work.old) (W.device work.new) (device_failed result) }
    ensures told { WhereTold (W.device work.old) (λ w. Answers (spec.workflow_file w.nodes) result) }
    ensures no_sink { IfErr result (λ f. is_sink f ≡ false) }
{
    match first_file(alloc, work) {
        Err(fault) => Err(fault),
        Ok(found) => or_no_file(alloc, found),
    }
}

// A copy of the path.
fn copy_of(alloc: Global, path: &PathText) -> Result<PathText, Fault>
    ensures is { Answers (Ok path.now) result }
    ensures no_device { device_failed result ≡ false }
    ensures no_sink { IfErr result (λ f. is_sink f ≡ false) }
{
    match path.copy(alloc) {
        Ok(copy) => Ok(copy),
        Err(OutOfMemory) => Err(Fault::OutOfMemory),
    }
}

/// The file with the workflow that the words ask by: the one that they name, be it there or not, or else `workflow_file`. Nothing in the folder
/// changes. No child may run.
///
/// The faults are those of `workflow_file` where no file is named, and else only `OutOfMemory`.
pub fn file_of<W: Files>(alloc: Global, work: &mut W, words: &RunWords) -> Result<PathText, Fault>
    requires none_runs { (W.device work.old).running ≡ [] }
    ensures looked { HasLooked W.act (W.device work.old) (W.device work.new) (device_failed result) }
    ensures told { WhereTold (W.device work.old) (λ w. Answers (spec.file_of w.nodes words.now.file) result) }
    ensures no_sink { IfErr result (λ f. is_sink f ≡ false) }
{
    match &words.file {
        Some(file) => copy_of(alloc, file),
        None => workflow_file(alloc, work),
    }
}
