//! The stamps of a job's inputs.

ghost use Rattle.std.specs.Prelude.{◌≡◌, ◌⊎◌, ◌+◌, ◌++◌, map, IfOk, IfErr, OnOk, length, true};
ghost use Rattle.std.specs.List.{flat_map, list_all};
ghost use Rattle.smk_world.specs.Devices.{HasActed};
ghost use Rattle.smk_world.specs.Trees.{Path, Each, is_path_text};
ghost use Rattle.smk_world.specs.World.{in_paths, out_paths};
ghost use Rattle.smk_record.specs.Records.{is_earlier};
ghost use Rattle.smk_run.specs.Stamps.{HasTimed, HasStamp, HasPushed, HasStamped, IsBelow, IsTimeIn, is_of_look, is_refused_look, is_small, number_at};
ghost use Rattle.smk_run.specs.Reports.{is_device};
ghost use Rattle.smk_run.specs.declared.stop.Stop.TheVariants as stop;

use crate::Stop;
use smk_base::{Copied, List, OutOfMemory, PathText, Place};
use smk_record::Stamp;
use smk_world::{Failed, Files, Item, Out, OutItem, Recipe, Stat};
use std::alloc::Global;
use std::collections::BTreeMap;

/// The serial of the product at the path.
pub(crate) fn serial_at(serials: &BTreeMap<String, Option<u64>>, path: &PathText) -> Option<u64>
    ensures { result ≡ number_at serials.now path.now }
{
    match serials.get(path.as_str()) {
        Some(serial) => *serial,
        None => None,
    }
}

// Adds the paths.
fn push_paths(
    alloc: Global,
    found: &mut List<PathText>,
    paths: &[PathText],
) -> Result<(), OutOfMemory>
    ensures { OnOk result (found.new ≡ found.old ++ paths.now) }
{
    for path in paths {
        found.push(path.copy(alloc)?)?;
    }
    Ok(())
}

/// The paths of these inputs, in order. `OutOfMemory` where there is no memory for them.
pub fn input_paths(alloc: Global, inputs: &[Item]) -> Result<List<PathText>, OutOfMemory>
    ensures { IfOk result (λ found. found ≡ flat_map (λ item. item.paths) inputs.now) }
{
    let mut found = List::new(alloc);
    for item in inputs {
        push_paths(alloc, &mut found, item.paths.as_slice())?;
    }
    Ok(found)
}

/// Goes over the paths, which tells that their texts are those of paths.
pub(crate) fn see_paths(paths: &[PathText])
    ensures { list_all is_path_text paths.now ≡ true }
{
    for path in paths {
        // The call tells that the text is a path's.
        let _text = path.as_str();
    }
}

// Goes over the paths of the outputs.
fn see_outs(outs: &[Out])
    ensures { list_all is_path_text (map (λ out. out.path) outs.now) ≡ true }
{
    for out in outs {
        // The call tells that the text is a path's.
        let _text = out.path.as_str();
    }
}

/// Goes over the paths of the outputs, which tells that they are those of paths.
pub(crate) fn see_outputs(outputs: &[OutItem])
    ensures { list_all is_path_text (flat_map (λ item. map (λ out. out.path) item.outs) outputs.now) ≡ true }
{
    for item in outputs {
        see_outs(item.outs.as_slice());
    }
}

// No file stands at the input.
fn gone(alloc: Global, path: &PathText) -> Stop
    ensures { (result ≡ stop.Gone path.now) ⊎ (result ≡ stop.OutOfMemory) }
{
    match path.copy(alloc) {
        Ok(path) => Stop::Gone(path),
        Err(OutOfMemory) => Stop::OutOfMemory,
    }
}

// The time of the file that was seen at the path.
fn time_in(alloc: Global, path: &PathText, stat: Stat) -> Result<u64, Stop>
    ensures seen { IsTimeIn path.now stat result }
    ensures kind { IfErr result (λ stop. is_refused_look stop ≡ true) }
{
    match stat {
        Stat::File { time, .. } => Ok(time),
        Stat::Nothing => Err(gone(alloc, path)),
        Stat::Folder => Err(gone(alloc, path)),
    }
}

// The time of the file at the path.
fn time_of<W: Files>(alloc: Global, path: &PathText, work: &mut W) -> Result<u64, Stop>
    ensures acted { HasActed W.act (HasTimed path.now result) (W.device work.old) (W.device work.new) (is_device result) }
    ensures kind { IfErr result (λ stop. is_of_look stop ≡ true) }
{
    let Ok(place) = Place::user(alloc, path) else {
        return Err(Stop::OutOfMemory);
    };
    match work.stat(&place) {
        Ok(stat) => time_in(alloc, path, stat),
        Err(Failed) => Err(Stop::Device),
    }
}

// The stamp of the input: of a product the serial of its job, of a source its time.
fn stamp_of<W: Files>(
    alloc: Global,
    serials: &BTreeMap<String, Option<u64>>,
    made: u64,
    path: &PathText,
    work: &mut W,
) -> Result<Stamp, Stop>
    requires below { IsBelow made (number_at serials.now path.now) }
    ensures acted { HasActed W.act (HasStamp (number_at serials.now path.now) path.now result) (W.device work.old) (W.device work.new) (is_device result) }
    ensures earlier { IfOk result (λ stamp. is_earlier made stamp ≡ true) }
    ensures small { IfOk result (λ stamp. is_small stamp ≡ true) }
    ensures kind { IfErr result (λ stop. is_of_look stop ≡ true) }
{
    match serial_at(serials, path) {
        Some(serial) => Ok(Stamp::Made(serial)),
        None => match time_of(alloc, path, work) {
            Ok(time) => Ok(Stamp::Time(time)),
            Err(stop) => Err(stop),
        },
    }
}

// Adds the stamp of the input.
fn push_stamp<W: Files>(
    alloc: Global,
    serials: &BTreeMap<String, Option<u64>>,
    made: u64,
    path: &PathText,
    stamps: &mut List<Stamp>,
    work: &mut W,
) -> Result<(), Stop>
    requires below { IsBelow made (number_at serials.now path.now) }
    ensures acted { HasActed W.act (HasPushed (number_at serials.now path.now) path.now stamps.old stamps.new result) (W.device work.old) (W.device work.new) (is_device result) }
    ensures longer { OnOk result (length stamps.new ≡ length stamps.old + 1) }
    ensures earlier { OnOk result (list_all (is_earlier made) stamps.old ≡ true → list_all (is_earlier made) stamps.new ≡ true) }
    ensures small { OnOk result (list_all is_small stamps.old ≡ true → list_all is_small stamps.new ≡ true) }
    ensures kind { IfErr result (λ stop. is_of_look stop ≡ true) }
{
    match stamp_of(alloc, serials, made, path, work) {
        Ok(stamp) => match stamps.push(stamp) {
            Ok(()) => Ok(()),
            Err(OutOfMemory) => Err(Stop::OutOfMemory),
        },
        Err(stop) => Err(stop),
    }
}

/// The stamps of the inputs at these paths, in order, where products have these serials, which are below the serial `made`.
pub(crate) fn stamps_of<W: Files>(
    alloc: Global,
    serials: &BTreeMap<String, Option<u64>>,
    made: u64,
    paths: &[PathText],
    work: &mut W,
) -> Result<List<Stamp>, Stop>
    requires below { Each (λ p. IsBelow made (number_at serials.now p)) paths.now }
    ensures acted { HasActed W.act (HasStamped (number_at serials.now) paths.now result) (W.device work.old) (W.device work.new) (is_device result) }
    ensures each { IfOk result (λ stamps. length stamps ≡ length paths.now) }
    ensures earlier { IfOk result (λ stamps. list_all (is_earlier made) stamps ≡ true) }
    ensures small { IfOk result (λ stamps. list_all is_small stamps ≡ true) }
    ensures kind { IfErr result (λ stop. is_of_look stop ≡ true) }
{
    let mut stamps = List::new(alloc);
    for (number, path) in paths.iter().enumerate() {
        match push_stamp(alloc, serials, made, path, &mut stamps, work) {
            Ok(()) => {}
            Err(stop) => return Err(stop),
        }
    }
    Ok(stamps)
}
