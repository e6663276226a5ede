//! Whether all that no job makes are sources, beside the children that run.

ghost use Rattle.std.specs.Prelude.{◌≡◌, true, false, IfOk, IfErr, OnOk};
ghost use Rattle.std.specs.List.{list_all};
ghost use Rattle.smk_world.specs.Calls as calls;
ghost use Rattle.smk_world.specs.Devices.{HasLooked, WhereTold};
ghost use Rattle.smk_world.specs.Trees.{Path, among, is_path_text};
ghost use Rattle.smk_store.specs.Images.{Image, is_source};
ghost use Rattle.smk_chain_sight.specs.Viewing.{Viewed, by_stat};
ghost use Rattle.smk_plan_facts.specs.Facts.{told_sources};
ghost use Rattle.smk_plan_preview.specs.Faults.{device_failed, is_device, is_sink, is_told};
ghost use Rattle.smk_drive_more.specs.Sourced.{is_failed, is_made_or_source};

use smk_base::{PathText, Place};
use smk_chain::{Jobs, Maker};
use smk_report::Fault;
use smk_store::Store;
use smk_world::{Files, Stat, WorkFault};
use std::alloc::Global;

// Whether a file stands there.
fn is_file(stat: Stat) -> bool
    ensures { result ≡ (by_stat stat).source }
{
    matches!(stat, Stat::File { .. })
}

// The text of the path, which is one as it stands in a contract.
fn text_of(path: &PathText) -> &str
    ensures same { result.now ≡ path.now }
    ensures text { is_path_text path.now ≡ true }
{
    path.as_str()
}

// Whether the path is a source. What is covered is none, so the device isn't asked then.
fn is_source<W: Files>(
    alloc: Global,
    store: &Store,
    work: &mut W,
    path: &PathText,
) -> Result<bool, WorkFault>
    ensures looked { HasLooked W.act (W.device work.old) (W.device work.new) (calls.device_failed result) }
    ensures told { IfOk result (λ is. WhereTold (W.device work.old) (λ w. (image : Image) → Viewed w.nodes store.now image → is ≡ is_source image path.now)) }
{
    let _text = text_of(path);
    if store.covered(path) {
        return Ok(false);
    }
    let place = Place::user(alloc, path)?;
    let stat = work.stat(&place)?;
    Ok(is_file(stat))
}

// Whether a job makes the path of the maker, or it is a source.
fn is_made_or_source<W: Files>(
    alloc: Global,
    store: &Store,
    work: &mut W,
    maker: &Maker,
) -> Result<bool, WorkFault>
    ensures looked { HasLooked W.act (W.device work.old) (W.device work.new) (calls.device_failed result) }
    ensures told { IfOk result (λ is. WhereTold (W.device work.old) (λ w. (image : Image) → Viewed w.nodes store.now image → is ≡ is_made_or_source image maker.now)) }
{
    if maker.job.is_some() {
        return Ok(true);
    }
    is_source(alloc, store, work, &maker.path)
}

// Whether so it is of each of them.
fn are_made_or_sources<W: Files>(
    alloc: Global,
    store: &Store,
    work: &mut W,
    makers: &[Maker],
) -> Result<bool, WorkFault>
    ensures looked { HasLooked W.act (W.device work.old) (W.device work.new) (calls.device_failed result) }
    ensures told { IfOk result (λ are. WhereTold (W.device work.old) (λ w. (image : Image) → Viewed w.nodes store.now image
        → are ≡ list_all (is_made_or_source image) makers.now)) }
{
    for maker in makers {
        let sound = is_made_or_source(alloc, store, work, maker)?;
        if !sound {
            return Ok(false);
        }
    }
    Ok(true)
}

// Nothing, where all are. That it isn't so can't be, as the jobs are derived.
fn if_all(are: bool) -> Result<(), Fault>
    ensures all { OnOk result (are ≡ true) }
    ensures no_device { device_failed result ≡ false }
    ensures no_sink { IfErr result (λ f. is_sink f ≡ false) }
    ensures untold { IfErr result (λ f. is_told f ≡ false) }
{
    if are { Ok(()) } else { Err(Fault::OutOfMemory) }
}

// Why the folder wasn't looked at, as a fault.
fn fault_of(why: WorkFault) -> Fault
    ensures same { is_device result ≡ is_failed why }
    ensures no_sink { is_sink result ≡ false }
    ensures untold { is_told result ≡ false }
{
    match why {
        WorkFault::Failed => Fault::Device,
        WorkFault::OutOfMemory => Fault::OutOfMemory,
    }
}

/// Whether each path that no job makes, as it is told of the jobs, is a source: a file that no record, mark or note covers. Nothing of these is told of other paths
/// that are wanted. `OutOfMemory` where one isn't, which can't be.
pub(crate) fn check_sources<W: Files>(
    alloc: Global,
    jobs: &Jobs,
    store: &Store,
    work: &mut W,
) -> Result<(), Fault>
    ensures looked { HasLooked W.act (W.device work.old) (W.device work.new) (device_failed result) }
    ensures no_sink { IfErr result (λ f. is_sink f ≡ false) }
    ensures untold { IfErr result (λ f. is_told f ≡ false) }
    ensures told { OnOk result (WhereTold (W.device work.old) (λ w. (image : Image) → Viewed w.nodes store.now image
        → (p : Path) → among (told_sources jobs.now.makers) p ≡ true → is_source image p ≡ true)) }
{
    match are_made_or_sources(alloc, store, work, jobs.makers.as_slice()) {
        Ok(are) => if_all(are),
        Err(why) => Err(fault_of(why)),
    }
}
