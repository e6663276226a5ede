//! The outputs of one job, as they stand.

ghost use Rattle.std.specs.Prelude.{◌≡◌, ◌++◌, ◌∷◌, [], ℕ, List as Items, Option, IfOk, OnOk, map, true};
ghost use Rattle.std.specs.List.{flat_map, list_all};
ghost use Rattle.smk_world.specs.World.{out_paths};
ghost use Rattle.smk_world.specs.Calls.{device_failed};
ghost use Rattle.smk_world.specs.Devices.{WhereTold, HasLooked};
ghost use Rattle.smk_world.specs.Trees.{Each, is_path_text};
ghost use Rattle.smk_record.specs.declared.record.Record.{Record as RecordValue};
ghost use Rattle.smk_record.specs.Spelling.{ReadsRecords};
ghost use Rattle.smk_store.specs.Images.{seen};
ghost use Rattle.smk_store.specs.Loading.{store_folder};
ghost use Rattle.smk_store.specs.Unowned.{IsUnownedUnder};
ghost use Rattle.smk_drive_outcome.specs.Outcomes.{AreForPaths, AreOutcomes, AreUnowned, HasAdded, TellsUnowned, entry_by};

use crate::keeping::kept_at;
use smk_base::{List, OutOfMemory, PathText};
use smk_flow::Job;
use smk_plan::Sight;
use smk_plan_look::sight_at;
use smk_store::Entry;
use smk_world::{Files, Out, OutItem, WorkFault};
use std::alloc::Global;

/// What is known of the outputs of a job and what stands there: one entry and one sight for each, in their order.
#[derive(Drop)]
pub struct Outcome {
    pub entries: List<Entry>,
    pub sights: List<Sight>,
}

// Goes over the paths, which tells that their texts are those of paths.
fn see_paths(paths: &[PathText])
    ensures { list_all is_path_text paths.now ≡ true }
{
    for path in paths {
        // The call tells that the text is a path's.
        let _text = path.as_str();
    }
}

// Adds the paths of these outputs.
fn push_paths(alloc: Global, found: &mut List<PathText>, outs: &[Out]) -> Result<(), OutOfMemory>
    ensures { OnOk result (found.new ≡ found.old ++ map (λ out. out.path) outs.now) }
{
    for out in outs {
        found.push(out.path.copy(alloc)?)?;
    }
    Ok(())
}

// The paths of the outputs of these items, in their order.
fn output_paths(alloc: Global, outputs: &[OutItem]) -> Result<List<PathText>, OutOfMemory>
    ensures { IfOk result (λ found. found ≡ flat_map (λ item. map (λ out. out.path) item.outs) outputs.now) }
{
    let mut found = List::new(alloc);
    for item in outputs {
        push_paths(alloc, &mut found, item.outs.as_slice())?;
    }
    Ok(found)
}

// Adds what is known of the output at the path, which has no mark and is no log, and what stands there.
fn push_output<W: Files>(
    alloc: Global,
    work: &mut W,
    path: &PathText,
    found: &mut Outcome,
) -> Result<(), WorkFault>
    requires text { is_path_text path.now ≡ true }
    ensures looked { HasLooked W.act (W.device work.old) (W.device work.new) (device_failed result) }
    ensures added { OnOk result (HasAdded path.now found.old found.new) }
    ensures entry { OnOk result (WhereTold (W.device work.old) (λ w. IsUnownedUnder w.nodes store_folder
        → (read : Items ℕ → Option RecordValue) → ReadsRecords read → found.new.entries ≡ found.old.entries ++ entry_by read w.nodes path.now ∷ [])) }
    ensures sight { OnOk result (WhereTold (W.device work.old) (λ w. Each (TellsUnowned w.nodes) found.old.sights
        → Each (TellsUnowned w.nodes) found.new.sights)) }
{
    let kept = kept_at(alloc, work, path)?;
    let at = path.copy(alloc)?;
    let sight = sight_at(alloc, work, at)?;
    found.entries.push(Entry {
        kept,
        marked: false,
        noted: false,
    })?;
    found.sights.push(sight)?;
    Ok(())
}

// What is known of the outputs at these paths, which have no marks, and what stands there.
fn outcome_at<W: Files>(
    alloc: Global,
    work: &mut W,
    paths: &[PathText],
) -> Result<Outcome, WorkFault>
    ensures looked { HasLooked W.act (W.device work.old) (W.device work.new) (device_failed result) }
    ensures each { IfOk result (AreForPaths paths.now) }
    ensures told { IfOk result (λ o. WhereTold (W.device work.old) (λ w. AreUnowned w paths.now
        → (read : Items ℕ → Option RecordValue) → ReadsRecords read → AreOutcomes (seen read w) paths.now o)) }
{
    see_paths(paths);
    let mut found = Outcome {
        entries: List::new(alloc),
        sights: List::new(alloc),
    };
    for path in paths {
        push_output(alloc, work, path, &mut found)?;
    }
    Ok(found)
}

/// What is known of the outputs of the job, which was closed and so has no marks, and what stands there. Nothing is changed: the record of each
/// output is read, and the output looked at, with all that is under a directory. The time is that of these reads and looks.
///
/// `WorkFault::Failed` where a call of the device failed, and none came after it; `WorkFault::OutOfMemory` where there is no memory for the answer.
pub fn outcome_of<W: Files>(alloc: Global, work: &mut W, job: &Job) -> Result<Outcome, WorkFault>
    ensures looked { HasLooked W.act (W.device work.old) (W.device work.new) (device_failed result) }
    ensures each { IfOk result (AreForPaths (out_paths job.now.recipe)) }

    // So it is in the folder as it reads, where no running child owns what is looked at.
    ensures told { IfOk result (λ o. WhereTold (W.device work.old) (λ w. AreUnowned w (out_paths job.now.recipe)
        → (read : Items ℕ → Option RecordValue) → ReadsRecords read → AreOutcomes (seen read w) (out_paths job.now.recipe) o)) }
{
    let paths = output_paths(alloc, job.recipe.outputs.as_slice())?;
    outcome_at(alloc, work, paths.as_slice())
}
