//! The edit of one source.

ghost use Rattle.std.specs.Prelude.{◌≡◌, ◌≤◌, ◌<◌, Some, IfOk, OnOk};
ghost use Rattle.smk_world.specs.World.{World};
ghost use Rattle.smk_world_mem.specs.Work.{world_in};
ghost use Rattle.smk_gen.specs.Files.{source_path as path_of_source};
ghost use Rattle.smk_trial.specs.Editing.{edited_number as number_of_edit, IsNextTime, IsEdited};

use crate::latest::latest_in;
use smk_base::OutOfMemory;
use smk_gen::source_path;
use smk_world_mem::MemWork;
use std::alloc::Global;

// The number of the source that is edited.
fn edited_number(seed: u64, size: u64) -> u64
    requires least { 1 ≤ size }
    requires most { size ≤ 2000 }
    ensures { result ≡ number_of_edit seed size }
{
    seed % size + 1
}

// The time of the edit: one more than the latest of a file. `OutOfMemory` where there is none.
fn edit_time(work: &MemWork) -> Result<u64, OutOfMemory>
    ensures { IfOk result (λ time. (w : World) → world_in work.now ≡ Some w → IsNextTime w time) }
{
    match latest_in(work.steps()).checked_add(1) {
        Some(time) => Ok(time),
        None => Err(OutOfMemory),
    }
}

/// Edits the source that the seed gives: it holds another text, at a time that is one more than the latest of a file.
pub fn edit(alloc: Global, seed: u64, size: u64, work: &mut MemWork) -> Result<(), OutOfMemory>
    requires least { 1 ≤ size }
    requires most { size ≤ 2000 }
    ensures { OnOk result ((w : World) → world_in work.new ≡ Some w → IsEdited seed size (world_in work.old) w) }
{
    let path = source_path(alloc, edited_number(seed, size))?;
    let time = edit_time(work)?;
    work.place(&path, b"edited\n", time)
}
