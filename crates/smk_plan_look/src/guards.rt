//! Read-only files under a folder.

ghost use Rattle.std.specs.Prelude.{◌≡◌, ◌≢◌, ◌++◌, ◌∷◌, [], true, IfOk};
ghost use Rattle.smk_world.specs.declared.event.NodeState.TheVariants.{Owned};
ghost use Rattle.smk_world.specs.World.{reads_folder};
ghost use Rattle.smk_world.specs.Calls.{device_failed};
ghost use Rattle.smk_world.specs.Devices.{HasLooked, WhereTold};
ghost use Rattle.smk_world.specs.Trees.{Path};
ghost use Rattle.smk_store_members.specs.Steps.{Either};
ghost use Rattle.smk_store.specs.Unowned.{IsUnownedUnder};
ghost use Rattle.smk_plan.specs.Sights.{is_tellable};
ghost use Rattle.smk_plan_look.specs.Seeing.{HasGuard, TellsGuard, is_read_only};
ghost use Rattle.smk_plan_look.specs.Guards.{AreWaiting, IsNoted};

use smk_base::{List, Place, one};
use smk_world::{Files, Stat, WorkFault};
use std::alloc::Global;

/// Whether a read-only file is there.
pub(crate) fn is_read_only(stat: Stat) -> bool
    ensures { result ≡ is_read_only stat }
{
    match stat {
        Stat::Nothing => false,
        Stat::File { read_only, .. } => read_only,
        Stat::Folder => false,
    }
}

// Notes a folder, which is to be listed; looks at anything else, and tells whether that is a read-only file.
fn note<W: Files>(
    work: &mut W,
    waiting: &mut List<Place>,
    place: Place,
    folder: bool,
) -> Result<bool, WorkFault>
    ensures looked { HasLooked W.act (W.device work.old) (W.device work.new) (device_failed result) }
    ensures told { IfOk result (λ found. WhereTold (W.device work.old) (λ w. w.nodes place ≢ Owned → IsNoted w.nodes place folder waiting.old waiting.new found)) }
{
    if folder {
        waiting.push(place)?;
        return Ok(false);
    }
    let stat = work.stat(&place)?;
    Ok(is_read_only(stat))
}

// Lists the folder up to the first read-only file in it. True where there is one.
fn look_in<W: Files>(
    alloc: Global,
    work: &mut W,
    waiting: &mut List<Place>,
    folder: &Place,
) -> Result<bool, WorkFault>
    ensures looked { HasLooked W.act (W.device work.old) (W.device work.new) (device_failed result) }
    ensures told { IfOk result (λ found. WhereTold (W.device work.old) (λ w. (p : Path) → IsUnownedUnder w.nodes p → AreWaiting w.nodes p (waiting.old ++ folder.now ∷ [])
        → Either found (HasGuard w.nodes p) (AreWaiting w.nodes p waiting.new))) }
{
    let listing = work.list(alloc, folder)?;
    for name in listing.names.as_slice() {
        let place = folder.within(alloc, name.name.as_str())?;
        let found = note(work, waiting, place, name.folder)?;
        if found {
            return Ok(true);
        }
    }
    Ok(false)
}

/// Whether a read-only file stands under the folder: goes over its whole tree, up to the first one.
pub(crate) fn has_guard<W: Files>(
    alloc: Global,
    work: &mut W,
    folder: &Place,
) -> Result<bool, WorkFault>
    ensures looked { HasLooked W.act (W.device work.old) (W.device work.new) (device_failed result) }
    ensures told { IfOk result (λ found. WhereTold (W.device work.old) (λ w. IsUnownedUnder w.nodes folder.now → reads_folder (w.nodes folder.now) ≡ true → is_tellable folder.now ≡ true
        → TellsGuard w.nodes folder.now found)) }
{
    let mut waiting = one(alloc, folder.copy(alloc)?)?;
    for _ in 0..u64::MAX {
        let Some(next) = waiting.pop() else {
            return Ok(false);
        };
        let found = look_in(alloc, work, &mut waiting, &next)?;
        if found {
            return Ok(true);
        }
    }
    Err(WorkFault::OutOfMemory)
}
